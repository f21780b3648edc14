//! Checks the files of regions (`-i NAME:FILE`) before the job.
ghost use Rattle.std.specs.Prelude.{◌≡◌, All, IfErr, OnOk, Some};
ghost use Rattle.std.specs.List.{AllPairs, Any};
ghost use Rattle.nor_console.specs.Roles.{FailsApart};
ghost use Rattle.nor_console.specs.Tasks.{named_by};
ghost use Rattle.nor_files.specs.Files.{AreApart};
ghost use Rattle.board_files.specs.RegionRoles.{AreDistinctIf, AreNamed, AreTwoFiles, FailsDistinct};
ghost use Rattle.board_files.specs.RegionRoles.{FailsDistinctIf, FailsFileRole, FailsNames, FailsOldFile};
ghost use Rattle.board_files.specs.RegionRoles.{FailsOldFiles, FailsRegionFiles, FailsRegionRoles, HasOneRole};
ghost use Rattle.board_files.specs.RegionRoles.{HaveFileRoles, IsNotReadBack, erases, is_magic};

use crate::early_ends::EarlyEnd;
use crate::region_faults::RegionFault;
use crate::region_files::RegionFile;
use nor_args::{Change, Operation, Task, Wanted};
use nor_console::{Cause, Fault, FileNames, are_two_files, exists, named_by, reading, unprinted};
use nor_files::Store;
use nor_journal::{FIRST_MAGIC, MAGIC};

/// Checks the files of regions. Returns one of these faults, checked in this order:
/// - `Erased` or `Unnamed`
/// - file fault 5 if a file has a second role, or file fault 1 if a name can't be looked up
/// - for a read: `NotReadBack`, file fault 4 if a file begins as a journal, or file fault 1 or error 18 if a file can't
///   be read
pub fn check_region_files<'a, R: Store>(
    rt: &R,
    device: &'a str,
    operation: &Operation<'a>,
    files: &[RegionFile<'a>],
) -> Result<(), EarlyEnd<'a>>
    ensures names { OnOk result (AreNamed operation.now.task files.now) }
    ensures roles { OnOk result (HaveFileRoles (R.state rt.now).view.nature device.entry operation.now.task
        operation.now.log files.now) }
    ensures err { IfErr result (FailsRegionFiles (R.state rt.now).view device.entry operation.now.task
        operation.now.log files.now) }
{
    check_names(&operation.task, files)?;
    have_file_roles(rt, device, operation, files)?;
    can_be_read_back(rt, &operation.task, files)?;
    are_no_journals(rt, &operation.task, files)?;
    Ok(())
}

fn check_names<'a>(task: &Task<'_>, files: &[RegionFile<'a>]) -> Result<(), RegionFault<'a>>
    ensures ok { OnOk result (AreNamed task.now files.now) }
    ensures err { IfErr result (FailsNames task.now files.now) }
{
    if erases(task) && !files.is_empty() {
        return Err(RegionFault::Erased);
    }
    for region in files {
        if region.file.is_empty() {
            return Err(RegionFault::Unnamed {
                region: region.name,
            });
        }
    }
    Ok(())
}

fn erases(task: &Task<'_>) -> bool
    ensures { result ≡ erases task.now }
{
    matches!(
        task,
        Task::Change(Change {
            wanted: Wanted::Erase,
            ..
        },)
    )
}

fn have_file_roles<'a, R: Store>(
    rt: &R,
    device: &'a str,
    operation: &Operation<'a>,
    files: &[RegionFile<'a>],
) -> Result<(), Fault<'a>>
    ensures ok { OnOk result (HaveFileRoles (R.state rt.now).view.nature device.entry operation.now.task
        operation.now.log files.now) }
    ensures err { IfErr result (FailsRegionRoles (R.state rt.now).view.nature device.entry operation.now.task
        operation.now.log files.now) }
{
    let others = Others {
        device,
        log: operation.log,
        named: named_by(&operation.task),
    };
    for region in files {
        has_one_role(rt, &others, region.file)?;
    }
    are_distinct_if(rt, others.named.output, files)?;
    Ok(())
}

fn are_distinct_if<'a, R: Store>(
    rt: &R,
    output: Option<&'a str>,
    files: &[RegionFile<'a>],
) -> Result<(), Fault<'a>>
    ensures ok { OnOk result (AreDistinctIf (R.state rt.now).view.nature output.entry files.now) }
    ensures err { IfErr result (FailsDistinctIf (R.state rt.now).view.nature output.entry files.now) }
{
    match output {
        Some(_) => are_distinct(rt, files),
        None => Ok(()),
    }
}

fn are_distinct<'a, R: Store>(rt: &R, files: &[RegionFile<'a>]) -> Result<(), Fault<'a>>
    ensures ok { OnOk result (AllPairs (AreTwoFiles (R.state rt.now).view.nature) files.now) }
    ensures err { IfErr result (FailsDistinct (R.state rt.now).view.nature files.now) }
{
    for index in 0..files.len() {
        is_apart_from(rt, &files[..index], files[index].file)?;
    }
    Ok(())
}

/// Checks that `file` is apart from the file of each of the `earlier` regions. Returns a fault of `are_two_files`.
pub fn is_apart_from<'a, R: Store>(
    rt: &R,
    earlier: &[RegionFile<'a>],
    file: &'a str,
) -> Result<(), Fault<'a>>
    ensures ok { OnOk result (All (λ other. AreApart (R.state rt.now).view.nature file.now other.file.now)
        earlier.now) }
    ensures err { IfErr result (λ fault. Any (λ other.
        FailsApart (R.state rt.now).view.nature (Some other.file) (Some file.entry) fault) earlier.now) }
{
    for other in earlier {
        are_two_files(rt, Some(other.file), Some(file))?;
    }
    Ok(())
}

fn can_be_read_back<'a, R: Store>(
    rt: &R,
    task: &Task<'a>,
    files: &[RegionFile<'a>],
) -> Result<(), RegionFault<'a>>
    ensures { IfErr result
        (IsNotReadBack (R.state rt.now).view.nature (named_by task.now).output files.now) }
{
    match named_by(task).output {
        Some(output) if !files.is_empty() && rt.is_waiting(output) => {
            Err(RegionFault::NotReadBack { output })
        }
        _ => Ok(()),
    }
}

fn are_no_journals<'a, R: Store>(
    rt: &R,
    task: &Task<'_>,
    files: &[RegionFile<'a>],
) -> Result<(), Fault<'a>>
    ensures { IfErr result (FailsOldFiles (R.state rt.now).view task.now files.now) }
{
    if !matches!(task, Task::Read { .. }) {
        return Ok(());
    }
    for region in files {
        is_no_journal(rt, region.file)?;
    }
    Ok(())
}

// A FIFO or a character device isn't read, because such a read may block.
fn is_no_journal<'a, R: Store>(rt: &R, name: &'a str) -> Result<(), Fault<'a>>
    ensures { IfErr result (FailsOldFile (R.state rt.now).view name.entry) }
{
    if rt.is_waiting(name) {
        return Ok(());
    }
    match rt.read_named(name, MAGIC.len() as u64) {
        Ok(Some(start)) if is_magic(&start) => { Err(exists(name, Cause::Journal)) }
        Ok(_) => Ok(()),
        Err(error) => Err(reading(error, name)),
    }
}

fn is_magic(start: &[u8]) -> bool
    ensures { result ≡ is_magic start.now }
{
    start == MAGIC.as_slice() || start == FIRST_MAGIC.as_slice()
}

#[derive(Clone, Copy)]
struct Others<'a> {
    device: &'a str,
    log: Option<&'a str>,
    named: FileNames<'a>,
}

fn has_one_role<'a, R: Store>(rt: &R, others: &Others<'a>, file: &'a str) -> Result<(), Fault<'a>>
    ensures ok { OnOk result
        (HasOneRole (R.state rt.now).view.nature others.now.device others.now.log others.now.named file.entry) }
    ensures err { IfErr result
        (FailsFileRole (R.state rt.now).view.nature others.now.device others.now.log others.now.named file.entry) }
{
    let Others { device, log, named } = *others;
    let (device, file) = (Some(device), Some(file));
    are_two_files(rt, device, file)?;
    are_two_files(rt, log, file)?;
    are_two_files(rt, named.journal, file)?;
    if named.output.is_some() {
        are_two_files(rt, named.layout, file)?;
        are_two_files(rt, named.output, file)?;
        unprinted(rt, file)?;
    }
    Ok(())
}

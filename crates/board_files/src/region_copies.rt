//! Writes the files of regions (`-i NAME:FILE`) after a read.

ghost use Rattle.std.specs.Prelude.{◌≡◌, IfErr, OnOk, Some, option_map, true};
ghost use Rattle.nor_files.specs.Files.{KeepsFile, OthersStay, is_lawful};
ghost use Rattle.board_files.specs.RegionCopies.{AreCopied, AreCopiedFrom, FailsToCopy, FailsToCopyBy};
ghost use Rattle.board_files.specs.RegionCopies.{FailsToWrite, KeepsOutput, part_if_inside, reads_out};

use crate::region_files::RegionFile;
use crate::region_roles::is_apart_from;
use nor_args::{Operation, Task};
use nor_console::{
    Cause, Fault, MOST_IMAGE_BYTES, SystemReason, are_two_files, create_output, read_fault,
    read_file, unmade_by,
};
use nor_files::Store;
use nor_journal::Vault;
use nor_layout::Span;
use std::io::ErrorKind;

/// Returns whether the operation is a read, but not a backup. Only such an operation writes the files of regions.
pub fn reads_out(operation: &Operation<'_>) -> bool
    ensures { result ≡ reads_out operation.now.is_backup operation.now.task }
{
    matches!(operation.task, Task::Read { .. }) && !operation.is_backup
}

/// Copies the bytes of each region from the output of a successful read to the region's file, which is created or
/// truncated. Does nothing for a backup or another task. Before writing each file, checks again that this file is apart
/// from the log, the output and the files of earlier regions, because this run may have created the target of a link.
/// Returns:
/// - file fault 5 if the file of a region isn't apart from these files, or file fault 1 if a name can't be looked up
/// - a fault of `read_file` for the output, or file fault 1 if the output ends before the end of a region
/// - a fault of `write_file`
pub fn write_region_files<'a, R: Store>(
    rt: &mut R,
    operation: &Operation<'a>,
    files: &[RegionFile<'a>],
) -> Result<(), Fault<'a>>
    ensures nature { (R.state rt.new).view.nature ≡ (R.state rt.old).view.nature }
    ensures output { KeepsOutput operation.now.task (R.state rt.old) (R.state rt.new) }
    ensures ok { OnOk result (AreCopied operation.now files.now (R.state rt.new).view) }
    ensures err { IfErr result (FailsToCopyBy operation.now.is_backup operation.now.task operation.now.log files.now
        (R.state rt.old).view (R.state rt.new).view) }
{
    match &operation.task {
        Task::Read { file, .. } if !operation.is_backup && !files.is_empty() => {
            copy_regions(rt, *file, operation.log, files)
        }
        _ => Ok(()),
    }
}

fn copy_regions<'a, R: Store>(
    rt: &mut R,
    out: &'a str,
    log: Option<&'a str>,
    files: &[RegionFile<'a>],
) -> Result<(), Fault<'a>>
    ensures nature { (R.state rt.new).view.nature ≡ (R.state rt.old).view.nature }
    ensures output { is_lawful (R.state rt.old).view ≡ true
        → KeepsFile out.now (R.state rt.old) (R.state rt.new) }
    ensures ok { OnOk result (AreCopiedFrom out.now files.now (R.state rt.new).view) }
    ensures err { IfErr result
        (FailsToCopy out.entry log.entry files.now (R.state rt.old).view (R.state rt.new).view) }
{
    let bytes = read_file(rt, out, MOST_IMAGE_BYTES)?;
    for index in 0..files.len() {
        let RegionFile { file, span, .. } = files[index];
        let Some(part) = part_in(&bytes, span) else {
            return Err(read_fault(out));
        };
        are_two_files(rt, log, Some(file))?;
        are_two_files(rt, Some(out), Some(file))?;
        is_apart_from(rt, &files[..index], file)?;
        write_file(rt, file, part)?;
    }
    Ok(())
}

fn part_in(bytes: &[u8], span: Span) -> Option<&[u8]>
    ensures { option_map (λ part. part.now) result ≡ part_if_inside span bytes.now }
{
    let (first, end) = (span.first as usize, span.last as usize + 1);
    if end < first || bytes.len() < end {
        return None;
    }
    Some(&bytes[first..end])
}

/// Creates or truncates the file `name` and writes `bytes`, without a sync. Returns a fault of `create_output`, or file
/// fault 2 if the file can't be written.
pub fn write_file<'a, R: Store>(rt: &mut R, name: &'a str, bytes: &[u8]) -> Result<(), Fault<'a>>
    ensures nature { (R.state rt.new).view.nature ≡ (R.state rt.old).view.nature }
    ensures others { is_lawful (R.state rt.old).view ≡ true
        → OthersStay name.now (R.state rt.old) (R.state rt.new) }
    ensures ok { is_lawful (R.state rt.new).view ≡ true
        → OnOk result ((R.state rt.new).view.seen name.now ≡ Some bytes.now) }
    ensures err { IfErr result (FailsToWrite name.entry bytes.now (R.state rt.old).view (R.state rt.new).view) }
{
    let mut file = create_output(rt, name)?;
    let outcome = file.put(bytes);
    rt.return_vault(file);
    match outcome {
        Ok(()) => Ok(()),
        Err(_) => Err(unmade_by(name, unwritten_cause(rt))),
    }
}

fn unwritten_cause<R: Store>(rt: &R) -> Cause {
    match unwritten_by(rt) {
        Some(reason) => Cause::System(reason),
        None => Cause::Unknown,
    }
}

/// Returns the reason for the last failed write or sync of the vault that was last returned to `files`. Returns `None`
/// if no write or sync failed, or if the vault's file was removed or replaced or has another length (`NotFound`).
pub fn unwritten_by<R: Store>(files: &R) -> Option<SystemReason> {
    let error = files.vault_error()?;
    match error.kind() {
        ErrorKind::NotFound => None,
        _ => Some(SystemReason::of_making(&error)),
    }
}

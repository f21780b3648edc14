//! Checks that the device, the output, the journal and the log of a run are apart, also from the layout and the image.
ghost use Rattle.std.specs.Prelude.{IfErr, OnOk};
ghost use Rattle.board_files.specs.Sources.{FailsLogRole, FailsRoles, HasOwnLog, HaveOneRole};

use nor_args::{Operation, Task};
use nor_console::{Fault, FileNames, are_two_files, named_by, unprinted};
use nor_files::Store;

/// Checks that the device and the files of the task (`named_by`) are apart, but lets the layout and the image be one
/// file. Also checks that the program doesn't print to the output or the journal. Returns file fault 5 with the name of
/// the file that has a second role, or file fault 1 if a name can't be looked up.
pub fn have_one_role<'a, R: Store>(
    rt: &R,
    device: &'a str,
    task: &Task<'a>,
) -> Result<(), Fault<'a>>
    ensures ok { OnOk result (HaveOneRole (R.state rt.now).view.nature device.entry task.now) }
    ensures err { IfErr result (FailsRoles (R.state rt.now).view.nature device.entry task.now) }
{
    let FileNames {
        layout,
        wanted,
        output,
        journal,
    } = named_by(task);
    let device = Some(device);
    are_two_files(rt, device, layout)?;
    are_two_files(rt, device, wanted)?;
    are_two_files(rt, device, output)?;
    are_two_files(rt, device, journal)?;
    are_two_files(rt, layout, output)?;
    are_two_files(rt, layout, journal)?;
    are_two_files(rt, wanted, journal)?;
    unprinted(rt, output)?;
    unprinted(rt, journal)
}

/// Checks that the log is apart from the device and the job's files, and that the program doesn't print to the log.
/// Returns file fault 5 with the name of the log, or file fault 1 if a name can't be looked up.
pub fn has_own_log<'a, R: Store>(
    rt: &R,
    device: &'a str,
    operation: &Operation<'a>,
) -> Result<(), Fault<'a>>
    ensures ok { OnOk result
        (HasOwnLog (R.state rt.now).view.nature device.entry operation.now.task operation.now.log) }
    ensures err { IfErr result
        (FailsLogRole (R.state rt.now).view.nature device.entry operation.now.task operation.now.log) }
{
    let log = operation.log;
    let FileNames {
        layout,
        wanted,
        output,
        journal,
    } = named_by(&operation.task);
    are_two_files(rt, Some(device), log)?;
    are_two_files(rt, layout, log)?;
    are_two_files(rt, wanted, log)?;
    are_two_files(rt, output, log)?;
    are_two_files(rt, journal, log)?;
    unprinted(rt, log)
}

//! Saves the whole chip in a new journal (`--backup`).
ghost use Rattle.std.specs.Prelude.{◌≡◌, IfErr, IfOk, true};
ghost use Rattle.nor_files.specs.Files.{OthersStay, is_lawful};
ghost use Rattle.board_jobs.specs.Backups.{IsExistingBackup};
ghost use Rattle.board_jobs.specs.Jobs.{FailsToRead, HasBackedUpChip};

use board_progress::Progress;
use nor_args::{Operation, Task};
use nor_console::{Cause, Fault, Outcome, backup_in_file, exists};
use nor_files::Store;
use nor_geometry::SECTOR_LEN;
use nor_jobs::identify_or_fault;
use nor_probe::ChipName;

/// Returns file fault 4 if the operation is a backup whose file already exists, otherwise `Ok`.
pub fn check_new<'a, R: Store>(rt: &R, operation: &Operation<'a>) -> Result<(), Fault<'a>>
    ensures { IfErr result (IsExistingBackup (R.state rt.now).view operation.now) }
{
    match &operation.task {
        Task::Read { file, .. } if operation.is_backup && rt.is_there(*file) => {
            Err(exists(*file, Cause::Exists))
        }
        _ => Ok(()),
    }
}

/// Identifies the chip, then creates the file and saves the whole chip in it as a journal. The outer error is a fault
/// of the identification (then no file is created) or of creating the file. The inner error is an error of `backup`;
/// the file may then contain only a prefix of the journal. Sends no modifying command.
pub fn backup_chip<'a, R: Store, B: Progress>(
    rt: &mut R,
    bus: &mut B,
    named: Option<ChipName>,
    file: &'a str,
) -> Result<Outcome, Fault<'a>>
    ensures ok { IfOk result (HasBackedUpChip named file.now (R.state rt.old).view (R.state rt.new)
        (B.state bus.old) (B.state bus.new)) }
    ensures err { IfErr result (FailsToRead named file.now (R.state rt.old).view (B.state bus.old) (B.state bus.new)) }
    ensures others { is_lawful (R.state rt.old).view ≡ true
        → OthersStay file.now (R.state rt.old) (R.state rt.new) }
{
    let found = identify_or_fault(bus, named)?;
    bus.expect_reads((found.size / SECTOR_LEN) as usize);
    backup_in_file(rt, bus, named, file)
}

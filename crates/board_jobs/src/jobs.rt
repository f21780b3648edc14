//! Performs a job on a chip, over any bus.
ghost use Rattle.std.specs.Prelude.{◌≡◌, IfErr, IfOk, Ok, option_copied, true};
ghost use Rattle.nor_files.specs.Files.{Name, OthersStay, KeepsFile, is_lawful};
ghost use Rattle.nor_console.specs.Tasks.{journal_of, made_by};
ghost use Rattle.nor_console.specs.Readings.{HasVerified};
ghost use Rattle.nor_console.specs.Stored.{IsNot};
ghost use Rattle.board_jobs.specs.Jobs.{DoesTask, FailsChange, FailsPerform, FailsToAdmit, FailsToFill};
ghost use Rattle.board_jobs.specs.Jobs.{EndsJob, FailsToRead, HasChangedBy, HasReadChip, IsBufferOf};
ghost use Rattle.board_jobs.specs.Jobs.{IsChangeable, IsEndedAs};
ghost use Rattle.board_jobs.specs.Sends.{SendsOnly};
ghost use Rattle.board_jobs.specs.Sealing.{SealsChange, SealsTask};
ghost use Rattle.board_jobs.specs.Jobs.{may_be_protected};
ghost use Rattle.board_files.specs.Tasks.{changes_bytes};

use crate::backups::backup_chip;
use crate::chip_faults::JobFault;
use crate::following::{
    compare_chip, fill_from_chip, ranges_if, sectors_before_change, sectors_to_read,
};
use crate::restoring::restore_chip;
use crate::status_bits::status_bits;
use board_files::{changes_bytes, is_compared};
use board_progress::{Progress, StatusWrite, Terminal};
use nor_args::{Change, JournalUse, Operation, Reason, Task, UsageFault, Wanted};
use nor_console::{
    Answer, Fault, Outcome, list_ranges, read_to_file, report_protection, request_for,
    session_in_file, verify_image,
};
use nor_files::Store;
use nor_jobs::{Sources, answer_probe, asked_bytes, identify_or_fault, report_size};
use nor_layout::Ranges;
use nor_model::Bus;
use nor_probe::{ChipName, Found};
use nor_session::Refusal;
use std::alloc::{AllocError, Global};

// Performs the job that the arguments ask for, on any bus. `sources` has the contents of the files that the job
// reads. The inner error is that of the job's call to the engine. The outer error is a fault before this call, or a
// fault of the comparison after the call. A read, backup, write or erase identifies the chip before it creates or
// truncates its file, so without a chip this file stays as it was.
fn perform<'a, R: Store, B: Progress>(
    rt: &mut R,
    bus: &mut B,
    terminal: Terminal<'_>,
    operation: &Operation<'a>,
    sources: Sources,
) -> Result<Outcome, JobFault<'a>>
    ensures ok { IfOk result (DoesTask operation.now operation.now.task sources.included sources.bytes.items
        (R.state rt.old).view (R.state rt.new) (B.state bus.old) (B.state bus.new)) }
    ensures err { IfErr result (FailsPerform operation.now operation.now.task sources.included sources.bytes.items
        (R.state rt.old).view (R.state rt.new) (B.state bus.old) (B.state bus.new)) }
    ensures others { is_lawful (R.state rt.old).view ≡ true → (name : Name)
        → IsNot (R.state rt.old).view.nature (made_by operation.now.task) name
        → KeepsFile name (R.state rt.old) (R.state rt.new) }
    ensures sealed { is_lawful (R.state rt.old).view ≡ true
        → SealsTask R.Filed.state R.Filed.synced operation.now.task (B.state bus.old) (B.state bus.new)
        (R.state rt.new) }
{
    let named = operation.named;
    match &operation.task {
        Task::Read { file, .. } if operation.is_backup => Ok(backup_chip(rt, bus, named, *file)?),
        Task::Read { file, .. } => Ok(read_chip(rt, bus, named, *file, sources.included.as_ref())?),
        Task::Verify { .. } => Ok(verify_chip(bus, named, sources)),
        Task::Change(change) => change_chip(rt, bus, terminal, operation, change, sources),
        Task::Restore { .. } => {
            restore_chip(bus, terminal, operation, &sources.bytes, rt.alloc())
        }
        Task::Probe => Ok(answer_probe(bus, named)),
        Task::FlashSize => Ok(report_size(bus, named)),
        Task::WpStatus => Ok(report_protection(bus, named)),
        Task::WpList => Ok(list_ranges(bus, named)),
    }
}

/// Performs a job, and returns its answer or its fault. If the files obey the contract of `Store`, all files stay as
/// they were, except the file that the task creates or truncates.
pub fn end_job<'a, R: Store, B: Progress>(
    files: &mut R,
    bus: &mut B,
    terminal: Terminal<'_>,
    operation: &Operation<'a>,
    sources: Sources,
) -> Result<Answer, JobFault<'a>>
    ensures ends { EndsJob operation.now sources.included sources.bytes.items (R.state files.old).view
        (R.state files.new) (B.state bus.old) (B.state bus.new) result }
    ensures sends { SendsOnly operation.now.task sources.bytes.items (B.state bus.old) (B.state bus.new)
        (R.state files.new) }
    ensures others { is_lawful (R.state files.old).view ≡ true → (name : Name)
        → IsNot (R.state files.old).view.nature (made_by operation.now.task) name
        → KeepsFile name (R.state files.old) (R.state files.new) }
    ensures sealed { is_lawful (R.state files.old).view ≡ true
        → SealsTask R.Filed.state R.Filed.synced operation.now.task (B.state bus.old) (B.state bus.new)
        (R.state files.new) }
{
    let outcome = perform(files, bus, terminal, operation, sources)?;
    end_call(outcome)
}

fn end_call<'a>(outcome: Outcome) -> Result<Answer, JobFault<'a>>
    ensures { IsEndedAs outcome result }
{
    match outcome {
        Ok(answer) => Ok(answer),
        Err(refusal) => Err(JobFault::Fault(Fault::Refused(refusal))),
    }
}

fn find_changeable<'a, B: Bus>(bus: &mut B, named: Option<ChipName>) -> Result<Found, JobFault<'a>>
    ensures ok { IfOk result (IsChangeable named (B.state bus.old) (B.state bus.new)) }
    ensures err { IfErr result (FailsToAdmit named (B.state bus.old) (B.state bus.new)) }
{
    let found = identify_or_fault(bus, named)?;
    if may_be_protected(&found) {
        return Err(JobFault::Protected {
            status1: found.status1,
            id: found.id,
        });
    }
    Ok(found)
}

fn may_be_protected(found: &Found) -> bool
    ensures { result ≡ may_be_protected found.now }
{
    let bits = status_bits(found.id, found.status1);
    !found.scheme && found.status1 & bits.may_protect != 0
}

fn read_chip<'a, R: Store, B: Progress>(
    rt: &mut R,
    bus: &mut B,
    named: Option<ChipName>,
    file: &'a str,
    included: Option<&Ranges>,
) -> Result<Outcome, Fault<'a>>
    ensures ok { IfOk result (HasReadChip named file.now (option_copied included.entry) (R.state rt.new).view
        (B.state bus.old) (B.state bus.new)) }
    ensures err { IfErr result (FailsToRead named file.now (R.state rt.old).view (B.state bus.old) (B.state bus.new)) }
    ensures others { is_lawful (R.state rt.old).view ≡ true
        → OthersStay file.now (R.state rt.old) (R.state rt.new) }
{
    let found = identify_or_fault(bus, named)?;
    bus.expect_reads(sectors_to_read(found.size as usize, included));
    read_to_file(rt, bus, named, file, included)
}

fn verify_chip<B: Progress>(bus: &mut B, named: Option<ChipName>, sources: Sources) -> Outcome
    ensures { HasVerified named sources.included sources.bytes.items (B.state bus.old) (B.state bus.new) result }
{
    let Sources { included, bytes } = sources;
    bus.expect_reads(sectors_to_read(bytes.len(), included.as_ref()));
    verify_image(bus, named, &bytes, included.as_ref())
}

// Performs a change: runs its session and, if the session succeeds and `is_compared` returns true, then compares the
// chip with the target. Returns usage fault 6 for a rehearsal.
fn change_chip<'a, R: Store, B: Progress>(
    rt: &mut R,
    bus: &mut B,
    terminal: Terminal<'_>,
    operation: &Operation<'a>,
    change: &Change<'a>,
    sources: Sources,
) -> Result<Outcome, JobFault<'a>>
    ensures ok { IfOk result (HasChangedBy operation.now change.now sources.included sources.bytes.items
        change.now.journal_use (R.state rt.old).view (R.state rt.new) (B.state bus.old) (B.state bus.new)) }
    ensures err { IfErr result (FailsChange operation.now change.now sources.included sources.bytes.items
        change.now.journal_use (R.state rt.old).view (R.state rt.new) (B.state bus.old) (B.state bus.new)) }
    ensures others { is_lawful (R.state rt.old).view ≡ true → (name : Name)
        → IsNot (R.state rt.old).view.nature (journal_of change.now.journal_use) name
        → KeepsFile name (R.state rt.old) (R.state rt.new) }
    ensures sealed { is_lawful (R.state rt.old).view ≡ true
        → SealsChange R.Filed.state R.Filed.synced change.now.journal_use (B.state bus.old) (B.state bus.new)
        (R.state rt.new) }
{
    let JournalUse::Journal { file } = &change.journal_use else {
        return Err(JobFault::Fault(Fault::Usage {
            fault: UsageFault::Journal,
            reason: Reason::Unsaid,
        }));
    };
    let named = operation.named;
    let compared = is_compared(operation, change);
    let Sources { included, bytes } = sources;
    let request = request_for(change, named, included);
    let ranges = ranges_if(compared, request.included.as_ref());
    let target = fill_buffer(bus, named, change.wanted, ranges, bytes, rt.alloc())?;
    let mut image = copy_of(&target, rt.alloc())?;
    bus.expect_reads(sectors_before_change(
        image.len(),
        request.included.as_ref(),
        ranges.is_some(),
    ));
    let outcome = session_in_file(rt, bus, *file, &mut image, &request, |announcement| {
        terminal.print_session(announcement)
    })?;
    terminal.record_journal();
    compare_chip(bus, outcome, compared, named, &target)
}

fn copy_of(bytes: &[u8], alloc: Global) -> Result<Vec<u8>, AllocError>
    ensures { IfOk result (λ copy. copy.items ≡ bytes.now) }
{
    bytes.to_vec(alloc)
}

/// Returns on which chips a task may write the status. For a restore, `saved` has the status bytes in the journal.
pub fn status_write_of(task: &Task<'_>, saved: Option<[u8; 2]>) -> StatusWrite {
    match task {
        Task::Change(change) if !changes_bytes(change.wanted) => StatusWrite::OnAnyChip,
        Task::Change(change) if change.unlock => StatusWrite::IfProtected,
        Task::Restore { .. } => match saved {
            Some(saved) => StatusWrite::Restoring(saved),
            None => StatusWrite::IfProtected,
        },
        _ => StatusWrite::Never,
    }
}

// For a write or an erase, identifies the chip and returns the target. For a change of protection, returns `bytes`.
fn fill_buffer<'a, B: Progress>(
    bus: &mut B,
    named: Option<ChipName>,
    wanted: Wanted<'a>,
    ranges: Option<&Ranges>,
    bytes: Vec<u8>,
    alloc: Global,
) -> Result<Vec<u8>, JobFault<'a>>
    ensures ok { IfOk result (λ image. IsBufferOf named wanted.entry (option_copied ranges.entry) bytes.items
        (B.state bus.old) (B.state bus.new) image.items) }
    ensures err { IfErr result (FailsToFill named wanted.entry (option_copied ranges.entry) bytes.items
        (B.state bus.old) (B.state bus.new)) }
{
    if !changes_bytes(wanted) {
        return Ok(bytes);
    }
    let found = find_changeable(bus, named)?;
    let asked = asked_bytes(alloc, wanted, found.size, bytes)?;
    Ok(fill_from_chip(bus, named, found.size, ranges, asked, alloc)?)
}

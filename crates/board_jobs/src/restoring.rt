//! Restores a chip from a journal.
ghost use Rattle.std.specs.Prelude.{◌≡◌, ◌<◌, ◌^◌, IfErr, IfOk, MatchBool, OnOk, false, length, replicate, true};
ghost use Rattle.nor_session.specs.Restore.{IsOfTypeFound};
ghost use Rattle.nor_jobs.specs.Finding.{FailsToFind};
ghost use Rattle.board_jobs.specs.UnsavedSectors.{AreUnsaved, FailsToFollowRestore, FollowsRestore, is_compared_after};
ghost use Rattle.board_jobs.specs.Restoring.{FailsBy, FailsCompared, FailsRestore, FailsToReadRest};
ghost use Rattle.board_jobs.specs.Restoring.{HasReadBefore, HasRestored};
ghost use Rattle.board_jobs.specs.Restoring.{HasRestoredAndCompared, HasRestoredBy};

use crate::chip_faults::JobFault;
use crate::fitting::restore_fitting;
use crate::unsaved_sectors::{compare_rest, is_compared_after, read_rest};
use board_files::sectors_of;
use board_progress::{Progress, Terminal};
use nor_args::Operation;
use nor_console::{Fault, Outcome, erased};
use nor_jobs::{identify_or_fault, journal_in};
use nor_journal::Journal;
use nor_probe::{ChipName, Found};
use nor_session::Refusal;
use std::alloc::Global;

/// Restores the chip from the bytes of a journal: every saved sector without reading it first or, with `--quick`, only
/// the saved sectors that differ. If `-c` is given, the chip must have this name. Status bits that its board changed
/// may stay as they are (`restore_fitting`). Without `-N`, the sectors that the journal doesn't save are read before
/// the restore and, if the restore succeeds or returns error 14, read again afterwards; their bytes must be the same.
///
/// The inner error is that of the restore itself. The outer error is 15 (the bytes are no journal) or, without `-N`:
///
/// - Before the restore: error 18 (out of memory), an error of the identification, 16 (the chip has another ID or size
///   than the journal) or 12 (the bus stopped).
/// - After the restore: `RestNotCompared`.
pub fn restore_chip<'a, B: Progress>(
    bus: &mut B,
    terminal: Terminal<'_>,
    operation: &Operation<'a>,
    bytes: &[u8],
    alloc: Global,
) -> Result<Outcome, JobFault<'a>>
    ensures ok { IfOk result (HasRestored operation.now bytes.now (B.state bus.old) (B.state bus.new)) }
    ensures err { IfErr result (FailsRestore operation.now bytes.now (B.state bus.old) (B.state bus.new)) }
{
    let journal = journal_in(bytes)?;
    restore_from(bus, terminal, operation, &journal, alloc)
}

fn restore_from<'a, B: Progress>(
    bus: &mut B,
    terminal: Terminal<'_>,
    operation: &Operation<'a>,
    journal: &Journal<'_>,
    alloc: Global,
) -> Result<Outcome, JobFault<'a>>
    ensures ok { IfOk result (HasRestoredBy operation.now.verifies_all operation.now journal.now
        (B.state bus.old) (B.state bus.new)) }
    ensures err { IfErr result (FailsBy operation.now.verifies_all operation.now journal.now
        (B.state bus.old) (B.state bus.new)) }
{
    if operation.verifies_all {
        restore_compared(bus, terminal, operation, journal, alloc)
    } else {
        Ok(restore_fitting(bus, terminal, operation, operation.named, journal, alloc))
    }
}

fn restore_compared<'a, B: Progress>(
    bus: &mut B,
    terminal: Terminal<'_>,
    operation: &Operation<'a>,
    journal: &Journal<'_>,
    alloc: Global,
) -> Result<Outcome, JobFault<'a>>
    ensures ok { IfOk result
        (HasRestoredAndCompared operation.now journal.now (B.state bus.old) (B.state bus.new)) }
    ensures err { IfErr result (FailsCompared operation.now journal.now (B.state bus.old) (B.state bus.new)) }
{
    let mut rest = erased(alloc, journal.size())?;
    let mut again = erased(alloc, journal.size())?;
    read_before(bus, operation, journal, &mut rest)?;
    let outcome = restore_fitting(bus, terminal, operation, None, journal, alloc);
    follow_restore(bus, outcome, journal, &rest, &mut again)
}

fn read_before<'a, B: Progress>(
    bus: &mut B,
    operation: &Operation<'a>,
    journal: &Journal<'_>,
    rest: &mut [u8],
) -> Result<(), Fault<'a>>
    requires { rest.old ≡ replicate journal.now.size 255 }
    ensures ok { OnOk result
        (HasReadBefore operation.now.named journal.now rest.new (B.state bus.old) (B.state bus.new)) }
    ensures err { IfErr result
        (FailsToReadRest operation.now.named journal.now (B.state bus.old) (B.state bus.new)) }
{
    let found = identify_or_fault(bus, operation.named)?;
    if !is_of_type(journal, &found) {
        return Err(Fault::Refused(Refusal::OtherChip));
    }
    let scanned = if operation.is_quick {
        journal.count()
    } else {
        0
    };
    bus.expect_reads(unsaved(journal).saturating_add(scanned));
    match read_rest(bus, journal, rest) {
        Ok(()) => Ok(()),
        Err(_) => Err(Fault::Refused(Refusal::Stopped)),
    }
}

fn is_of_type(journal: &Journal<'_>, found: &Found) -> bool
    ensures { MatchBool result (IsOfTypeFound journal.now found.now) (¬ IsOfTypeFound journal.now found.now) }
{
    journal.id() == found.id && journal.size() == found.size
}

fn unsaved(journal: &Journal<'_>) -> usize {
    (sectors_of(journal) as usize).saturating_sub(journal.count())
}

fn follow_restore<'a, B: Progress>(
    bus: &mut B,
    outcome: Outcome,
    journal: &Journal<'_>,
    rest: &[u8],
    again: &mut [u8],
) -> Result<Outcome, JobFault<'a>>
    requires blank { again.old ≡ replicate journal.now.size 255 }
    requires read { AreUnsaved journal.now rest.now }
    requires short { length rest.now < 2 ^ 32 }
    ensures ok { IfOk result (λ ended. (ended ≡ outcome)
        × FollowsRestore (is_compared_after outcome) journal.now rest.now (B.state bus.old) (B.state bus.new)) }
    ensures err { IfErr result (FailsToFollowRestore outcome journal.now rest.now
        (B.state bus.old) (B.state bus.new)) }
{
    if !is_compared_after(&outcome) {
        return Ok(outcome);
    }
    bus.expect_comparison(unsaved(journal));
    match compare_rest(bus, journal, rest, again) {
        Ok(()) => Ok(outcome),
        Err(refusal) => Err(JobFault::RestNotCompared { outcome, refusal }),
    }
}

//! The lines that a run prints about faults and hints, and the removal of an incomplete journal.
ghost use Rattle.std.specs.Prelude.{◌≡◌, ◌≤◌, false, true};
ghost use Rattle.nor_journal.specs.Text.{Content, IsContent, text};
ghost use Rattle.board_hints.specs.declared.chip_after.ChipAfter.TheVariants.{Unchanged};

use crate::run_fault::RunFault;
use crate::stop_line::StopLine;
use board_files::{Farthest, MapLines};
use board_hints::{ChipAfter, Circumstances, Saved, print_operation_hint, unlocks};
use board_jobs::{JobFault, new_journal_of};
use board_progress::{ChangedLine, Terminal, protects};
use nor_args::{Operation, Task};
use nor_console::{Escaped, Fault, SystemReason, named_by};
use nor_files::Store;
use nor_journal::{Journal, MAGIC};
use nor_model::bits::QE;
use serprog_board::{Board, ChipBus, board_in};
use std::fs;
use std::io::Write;

/// Prints the lines of a fault before the job began or, after a read, of `write_region_files`. Prints nothing for
/// `AlreadyPrinted`.
pub fn print_run_fault<E: Write>(
    errors: &mut E,
    run_fault: &RunFault<'_>,
    operation: &Operation<'_>,
) {
    let _ = match run_fault {
        RunFault::AlreadyPrinted => return,
        RunFault::Fault(Fault::Map(fault)) => {
            writeln!(errors, "{}", MapLines::new(*fault, &operation.task))
        }
        _ => writeln!(errors, "{run_fault}"),
    };
    if let RunFault::Fault(fault) = run_fault {
        print_operation_hint(errors, fault, operation, &Circumstances::before());
    }
}

/// Prints the line of the fault of a job or of the read of a layout, and then, if there are any: its hint, the cause of
/// error 12 or the line for a port that changes bytes, and its note. `saved` is what the journal of a restore says
/// about its chip. `unwritten` is the reason why the journal or the output can't be written. `farthest` is the included
/// region that has the greatest address.
pub fn print_job_fault<B: Board + Drop, E: Write>(
    errors: &mut E,
    fault: &JobFault<'_>,
    bus: &ChipBus<'_, B>,
    operation: &Operation<'_>,
    saved: Option<Saved>,
    unwritten: Option<SystemReason>,
    farthest: Option<Farthest<'_>>,
) {
    let _ = writeln!(errors, "{fault}");
    let left = left_after(fault, bus, operation);
    if let JobFault::Fault(fault) = fault {
        let known = Circumstances {
            saved,
            replies: bus.replies(),
            has_small_pages: board_in(bus).has_small_pages(),
            left,
            unwritten,
            farthest,
        };
        print_operation_hint(errors, fault, operation, &known);
    }
    if fault.is_stop() {
        print_cause(errors, bus, left);
    } else {
        report_changed_byte(errors, bus, 1);
    }
    if let Some(note) = fault.note() {
        let _ = writeln!(errors, "{note}");
    }
}

/// Removes the incomplete journal of a session that returned an error and didn't change the chip. If this file
/// or the file of a backup that returned an error still exists, prints that the next run needs another name.
pub fn clear_journal<R: Store, B: Board + Drop, E: Write>(
    errors: &mut E,
    files: &R,
    fault: &JobFault<'_>,
    bus: &ChipBus<'_, B>,
    operation: &Operation<'_>,
) {
    let JobFault::Fault(Fault::Refused(_)) = fault else {
        return;
    };
    if let ChipAfter::Changed { .. } = left_after(fault, bus, operation) {
        return;
    }
    let Some(name) = new_journal_of(operation) else {
        return;
    };
    if has_removed(files, bus.terminal(), name) || !files.is_there(name) {
        return;
    }
    let name = Escaped(name);
    let _ = writeln!(
        errors,
        "This run has created {name}: repeat the command with a new journal name."
    );
}

// Removes the file of this name if a session of this run created its journal there, and the file is still an incomplete
// journal. (Another program may have replaced the file.) Returns whether the file was removed.
fn has_removed<R: Store>(files: &R, terminal: Terminal<'_>, name: &str) -> bool {
    if !terminal.has_journal() {
        return false;
    }
    match files.read_named(name, LONGEST_JOURNAL) {
        Ok(Some(bytes)) if is_begun_journal(&bytes) => {
            fs::remove_file(terminal.rt(), name).is_ok()
        }
        _ => false,
    }
}

// Returns whether these bytes begin with `MAGIC` or are a prefix of `MAGIC`, but are no valid journal.
fn is_begun_journal(bytes: &[u8]) -> bool
    ensures { (journal : Content) → IsContent journal → bytes.now ≡ text journal → result ≡ false }
{
    let len = bytes.len().min(MAGIC.len());
    bytes[..len] == MAGIC[..len] && Journal::read(bytes).is_err()
}

// More bytes than the longest journal has.
const LONGEST_JOURNAL: u64 = 1 << 25;

/// Prints a line and returns 1 if the port seems to change bytes that are received. Otherwise returns `status`.
pub fn report_changed_byte<B: Board + Drop, E: Write>(
    errors: &mut E,
    bus: &ChipBus<'_, B>,
    status: u8,
) -> u8
    ensures few { status ≤ 1 → result ≤ 1 }
    ensures failed { result ≡ 0 → status ≡ 0 }
{
    match board_in(bus).changed_byte() {
        Some(changed) => {
            let _ = writeln!(errors, "{}", ChangedLine(changed));
            1
        }
        None => status,
    }
}

/// Prints a line and returns 1 if a restore that succeeded (`status` is 0) left QE, LB1 to LB3 or the reserved bit
/// unlike its journal. A QE that is set now doesn't count, because boards set QE. Otherwise returns `status`.
pub fn report_kept_bits<B: Board + Drop, E: Write>(
    errors: &mut E,
    bus: &ChipBus<'_, B>,
    saved: Option<Saved>,
    status: u8,
) -> u8
    ensures few { status ≤ 1 → result ≤ 1 }
    ensures failed { result ≡ 0 → status ≡ 0 }
{
    match saved {
        Some(saved) if status == 0 && has_lost_bits(saved.status[1], bus.replies().status[1]) => {
            let _ = writeln!(errors, "{KEPT_BITS}");
            1
        }
        _ => status,
    }
}

fn has_lost_bits(saved: u8, found: u8) -> bool {
    let differing = (saved ^ found) & BOARD_BITS;
    differing & !(found & QE) != 0
}

// QE, the reserved bit and LB1 to LB3: bits 1 to 5 of status 2 (W25Q64FV datasheet, Status Registers).
const BOARD_BITS: u8 = 0x3E;

const KEPT_BITS: &str =
    "All bytes and protection bits are restored, but not the status bits of the line \"Not restored\" above.";

fn print_cause<B: Board + Drop, E: Write>(
    errors: &mut E,
    bus: &ChipBus<'_, B>,
    left: ChipAfter<'_>,
) {
    let line = StopLine {
        causes: board_in(bus).causes(),
        left,
    };
    let _ = writeln!(errors, "{line}");
}

fn left_after<'a, B: Board + Drop>(
    fault: &JobFault<'_>,
    bus: &ChipBus<'_, B>,
    operation: &Operation<'a>,
) -> ChipAfter<'a> {
    if fault.follows_completion() {
        return ChipAfter::Completed;
    }
    let begun = board_in(bus).has_begun();
    if begun && operation.srp0.is_some() {
        return ChipAfter::EitherLock;
    }
    let task = &operation.task;
    left_by(task, begun, unlocks(task) && protects(bus.replies().status))
}

// Returns the state in which a task that failed left the chip. `begun` is true if a modifying command may have been
// sent. After a restore the chip counts as changed in any case, because an earlier run may have changed it.
fn left_by<'a>(task: &Task<'a>, begun: bool, is_lifted: bool) -> ChipAfter<'a>
    ensures { begun ≡ true → result ≡ Unchanged → ⊥ }
{
    match task {
        Task::Change(_) if !begun => ChipAfter::Unchanged,
        Task::Change(_) | Task::Restore { .. } => ChipAfter::Changed {
            journal: named_by(task).journal,
            may_be_unprotected: is_lifted,
        },
        _ => ChipAfter::Reading,
    }
}

//! Finds and reports sectors that this run or an earlier session changed by accident, and a journal that is lost.
ghost use Rattle.std.specs.Prelude.{◌≡◌, ◌≤◌};
ghost use Rattle.nor_console.specs.Printing.{Prints};
ghost use Rattle.board_jobs.specs.Looked.{HasOnlyLooked};
ghost use Rattle.board_jobs.specs.Strays.{IsAsBefore};
ghost use Rattle.board_progress.specs.ProgressBus.{notes_of};
ghost use Rattle.board_jobs.specs.Ending.{AreJobLines};

use crate::chip_faults::JobFault;
use crate::ending::end_well;
use board_files::{Before, UnknownLine, noting_journal, sums_name};
use board_progress::{Notes, ProgressBus};
use nor_args::{Operation, Task};
use nor_console::{Answer, Fault, named_by, write_fault};
use nor_driver::read_sector;
use nor_files::Store;
use nor_geometry::SECTOR_LEN;
use nor_model::{Bus, Stopped};
use nor_session::Refusal;
use nor_sums::{Changed, SECTORS, find_changed, sum_of};
use std::alloc::{AllocError, Global};
use std::fmt;
use std::io::Write;

/// After a write or an erase that ended with error 14 or chip fault 4, reads each sector again that was read before the
/// first modifying command and was not erased or programmed. If some of these sectors have changed, prints a line with
/// the first of them, unless the bus stops. Does nothing after another fault or job, or without recorded checksums.
pub fn report_strays<'b, B: Bus + Drop, E: Write>(
    errors: &mut E,
    bus: &mut ProgressBus<'b, B>,
    fault: &JobFault<'_>,
    operation: &Operation<'_>,
)
    ensures { HasOnlyLooked (⟦<ProgressBus<'b, B> as Bus>⟧.state bus.old)
        (⟦<ProgressBus<'b, B> as Bus>⟧.state bus.new) }
{
    if !is_examined(fault, operation) {
        return;
    }
    let Some(notes) = bus.end_notes() else {
        return;
    };
    let terminal = bus.terminal();
    terminal.print(&EXAMINED);
    let found = find_strays(bus, &notes);
    terminal.end_line();
    match found {
        Ok(strays) if strays.count > 0 => {
            let _ = writeln!(errors, "{}", StraysLine(strays));
        }
        _ => {}
    }
}

const EXAMINED: &str = "Comparing the other sectors with those before the change.";

fn is_examined(fault: &JobFault<'_>, operation: &Operation<'_>) -> bool {
    let is_mismatch = matches!(
        fault,
        JobFault::Fault(Fault::Refused(Refusal::Mismatch { .. }))
            | JobFault::NotCompared {
                refusal: Refusal::Mismatch { .. }
            }
    );
    is_mismatch && matches!(operation.task, Task::Change(_))
}

fn find_strays<B: Bus>(bus: &mut B, notes: &Notes) -> Result<Changed, Stopped>
    ensures { HasOnlyLooked (B.state bus.old) (B.state bus.new) }
{
    let mut strays = Changed::default();
    let mut bytes = [0; SECTOR_LEN as usize];
    for sector in 0..SECTORS as u32 {
        if let Some(sum) = notes.before(sector as usize) {
            read_sector(bus, sector, &mut bytes)?;
            if sum_of(&bytes) != sum {
                strays.add(sector);
            }
        }
    }
    Ok(strays)
}

#[derive(Clone, Copy, Drop)]
struct StraysLine(Changed);

impl fmt::Display for StraysLine {
    fn fmt<W: fmt::Write>(&self, f: &mut fmt::Formatter<W>) -> fmt::Result {
        write!(
            f,
            "Also changed, though the journal doesn't save it: {}. A disturbed address on the wire has probably erased \
            or programmed it. After the restore, restore it from a backup.",
            Places(self.0)
        )
    }
}

#[derive(Clone, Copy, Drop)]
struct Places(Changed);

impl fmt::Display for Places {
    fn fmt<W: fmt::Write>(&self, f: &mut fmt::Formatter<W>) -> fmt::Result {
        let Changed { count, first } = self.0;
        f.write_str(if count == 1 {
            "the sector at"
        } else {
            "the sectors at"
        })?;
        for (i, sector) in first.iter().enumerate() {
            if i < count as usize {
                f.write_str(if i == 0 { " " } else { ", " })?;
                write!(f, "0x{:06x}", sector.saturating_mul(SECTOR_LEN))?;
            }
        }
        if count as usize > first.len() {
            write!(f, " and {} more", count as usize - first.len())?;
        }
        Ok(())
    }
}

/// Begins to record checksums of the sectors that are read (`Notes`), for a write or an erase with a journal, and for a
/// restore without `-N`. Does nothing for other operations. Prints a line if memory runs out.
pub fn begin_notes<'b, B: Bus + Drop, E: Write>(
    errors: &mut E,
    bus: &mut ProgressBus<'b, B>,
    operation: &Operation<'_>,
    alloc: Global,
)
    ensures { ⟦<ProgressBus<'b, B> as Bus>⟧.state bus.new ≡ ⟦<ProgressBus<'b, B> as Bus>⟧.state bus.old }
{
    match new_notes(operation, alloc) {
        Ok(Some(notes)) => bus.begin_notes(notes),
        Ok(None) => {}
        Err(_) => {
            let _ = writeln!(errors, "{NO_NOTES}");
        }
    }
}

const NO_NOTES: &str =
    "Out of memory: damage of sectors that the journal doesn't save may stay unnoticed.";

fn new_notes(operation: &Operation<'_>, alloc: Global) -> Result<Option<Notes>, AllocError> {
    match (noting_journal(operation), &operation.task) {
        (Some(journal), _) => {
            let name = sums_name(alloc, journal)?;
            Ok(Some(Notes::new(alloc, Some(name))?))
        }
        (None, Task::Restore { .. }) if operation.verifies_all => {
            Ok(Some(Notes::new(alloc, None)?))
        }
        _ => Ok(None),
    }
}

/// Ends a run whose job succeeded, and returns the exit status. If a sector that the journal of a restore doesn't save
/// has another checksum than before the session, prints only chip fault 5. Otherwise prints the answer and, if
/// checksums from before the session were needed but aren't known, the reason. After a session or a backup, also prints
/// file fault 2 if the journal is lost (`report_lost_journal`).
pub fn end_compared<'b, R: Store, B: Bus + Drop, O: Write, E: Write>(
    output: &mut O,
    errors: &mut E,
    files: &R,
    bus: &ProgressBus<'b, B>,
    answer: Answer,
    operation: &Operation<'_>,
    before: &Before,
) -> u8
    ensures few { result ≤ 1 }
    ensures printed { result ≡ 0
        → Prints (AreJobLines operation.now answer) (O.contents output.old) (O.contents output.new) }
    ensures same { result ≡ 0 → IsAsBefore before.now (notes_of bus.now) }
{
    let changed = changed_since(bus, before);
    if changed.count > 0 {
        let _ = writeln!(errors, "{}", ChangedText(changed));
        return 1;
    }
    let status = end_well(output, errors, answer, operation, bus.replies().status);
    report_unknown(errors, before, operation);
    report_lost_journal(errors, files, operation, status)
}

fn changed_since<B>(bus: &ProgressBus<'_, B>, before: &Before) -> Changed
    ensures { result.count ≡ 0 → IsAsBefore before.now (notes_of bus.now) }
{
    match (before, bus.notes()) {
        (Before::Known(sums), Some(notes)) => find_changed(sums, notes.after()),
        _ => Changed::default(),
    }
}

#[derive(Clone, Copy, Drop)]
struct ChangedText(Changed);

impl fmt::Display for ChangedText {
    fn fmt<W: fmt::Write>(&self, f: &mut fmt::Formatter<W>) -> fmt::Result {
        write!(
            f,
            "Chip fault 5: the journal was restored, but the chip differs from before the session in {}. The journal \
            doesn't save this. If a later session that you accepted or the running board (NVRAM, UEFI variables) has \
            written there, it is right: don't restore it. Otherwise a disturbed address on the wire has probably \
            changed it: restore it from a backup.",
            Places(self.0)
        )
    }
}

fn report_unknown<E: Write>(errors: &mut E, before: &Before, operation: &Operation<'_>) {
    if let Task::Restore { journal } = &operation.task
        && let Some(why) = before.why_unknown()
    {
        let _ = writeln!(
            errors,
            "{}",
            UnknownLine {
                journal: *journal,
                why
            }
        );
    }
}

/// Prints file fault 2 and returns exit status 1 if the journal that a session or a backup sealed was removed or
/// replaced, or has another length now. Otherwise returns `status`.
pub fn report_lost_journal<R: Store, E: Write>(
    errors: &mut E,
    files: &R,
    operation: &Operation<'_>,
    status: u8,
) -> u8
    ensures few { status ≤ 1 → result ≤ 1 }
    ensures failed { result ≡ 0 → status ≡ 0 }
{
    match new_journal_of(operation) {
        Some(name) if !files.is_kept(name) => {
            let fault = write_fault(name);
            let _ = writeln!(errors, "{fault}");
            let _ = writeln!(errors, "{IS_LOST}");
            1
        }
        _ => status,
    }
}

const IS_LOST: &str =
    "After this run sealed the journal, another program removed, replaced or changed it: don't \
    restore from a file with this name.";

/// Returns the name of the journal that a session or a backup creates, or `None` if the operation creates none.
pub fn new_journal_of<'a>(operation: &Operation<'a>) -> Option<&'a str> {
    let named = named_by(&operation.task);
    match &operation.task {
        Task::Change(_) => named.journal,
        _ if operation.is_backup => named.output,
        _ => None,
    }
}

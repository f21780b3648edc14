//! Restores a chip even if its board has changed QE, the reserved bit or LB1 to LB3 since the journal was made.
//! flashnor never changes these status bits.
ghost use Rattle.std.specs.Prelude.{◌≡◌, IfErr, IfOk};
ghost use Rattle.nor_jobs.specs.Restoring.{HasRestoredNamed};
ghost use Rattle.board_jobs.specs.BoardBits.{fitted_status, may_stay};
ghost use Rattle.board_jobs.specs.Fitting.{FailsToFit, HasRestoredAgain, HasRestoredFitting, IsEncodedFor};

use crate::status_lock::read_status;
use board_files::encode_with_status;
use board_progress::{Progress, Terminal};
use nor_args::Operation;
use nor_console::Outcome;
use nor_jobs::restore_named;
use nor_journal::Journal;
use nor_model::bits::{LB, QE};
use nor_probe::{ChipName, part_for};
use nor_session::Refusal;
use std::alloc::Global;
use std::fmt;

/// Restores the saved sectors and the protection bits from a journal, even if the software of the board has changed QE,
/// the reserved bit or LB1 to LB3 since the session. These bits stay as they are in the chip.
///
/// If the engine's restore returns error 17, reads the status, prints which of these bits differ, and restores from the
/// fitted journal (the journal with these bits as they were read). In these cases, returns error 17 instead:
///
/// - SRP0 or SRP1 differs from the journal.
/// - One of LB1 to LB3 is set in the journal, but clear in the chip.
/// - The table of chips has no row for the journal's ID, so the meaning of these bits is unknown.
/// - The journal has no unique ID, and `--replaced-chip` is not given.
///
/// Returns error 18 (out of memory), 12 (the bus stopped) or 13 (the chip stayed busy) if the second restore can't be
/// prepared. Other errors are those of `restore_named`.
pub fn restore_fitting<B: Progress>(
    bus: &mut B,
    terminal: Terminal<'_>,
    operation: &Operation<'_>,
    named: Option<ChipName>,
    journal: &Journal<'_>,
    alloc: Global,
) -> Outcome
    ensures { HasRestoredFitting operation.now.is_quick named journal.now (B.state bus.old) (B.state bus.new) result }
{
    match restore_saved(bus, terminal, named, journal, operation.is_quick) {
        Err(Refusal::StatusDiffers) => {
            restore_again(bus, terminal, operation, named, journal, alloc)
        }
        outcome => outcome,
    }
}

fn restore_saved<B: Progress>(
    bus: &mut B,
    terminal: Terminal<'_>,
    named: Option<ChipName>,
    journal: &Journal<'_>,
    quick: bool,
) -> Outcome
    ensures { HasRestoredNamed quick named journal.now (B.state bus.old) (B.state bus.new) result }
{
    if quick {
        bus.expect_reads(journal.count());
    }
    restore_named(bus, named, journal, quick, |announcement| {
        terminal.print_restore(announcement)
    })
}

fn restore_again<B: Progress>(
    bus: &mut B,
    terminal: Terminal<'_>,
    operation: &Operation<'_>,
    named: Option<ChipName>,
    journal: &Journal<'_>,
    alloc: Global,
) -> Outcome
    ensures { HasRestoredAgain operation.now.is_quick named journal.now (B.state bus.old) (B.state bus.new) result }
{
    let bytes = fit(bus, operation.is_replaced_chip, journal, alloc)?;
    let Ok(fitted) = Journal::read(&bytes) else {
        return Err(Refusal::StatusDiffers);
    };
    let line = KeptLine {
        saved: journal.status()[1],
        found: fitted.status()[1],
    };
    terminal.print_shown(&line);
    terminal.log().write_line(&line);
    restore_saved(bus, terminal, named, &fitted, operation.is_quick)
}

// Returns the encoding of the fitted journal, or error 17, 18, 12 or 13 (see `restore_fitting`).
fn fit<B: Progress>(
    bus: &mut B,
    is_replaced: bool,
    journal: &Journal<'_>,
    alloc: Global,
) -> Result<Vec<u8>, Refusal>
    ensures ok { IfOk result (λ bytes. IsEncodedFor journal.now (B.state bus.old) (B.state bus.new) bytes.items) }
    ensures err { IfErr result (FailsToFit (B.state bus.old) (B.state bus.new)) }
{
    if !is_for_known_device(journal, is_replaced) {
        return Err(Refusal::StatusDiffers);
    }
    let found = read_status(bus)?;
    let saved = journal.status();
    if !may_stay(saved, found) {
        return Err(Refusal::StatusDiffers);
    }
    match encode_with_status(alloc, journal, fitted_status(saved, found)) {
        Ok(bytes) => Ok(bytes),
        Err(_) => Err(Refusal::Memory),
    }
}

// Returns true if the table of chips has the journal's ID, and the journal has a unique ID or `is_replaced` is true.
fn is_for_known_device(journal: &Journal<'_>, is_replaced: bool) -> bool {
    let has_row = part_for(true, journal.id()).is_some();
    has_row && (is_replaced || journal.unique().is_some())
}

fn may_stay(saved: [u8; 2], found: [u8; 2]) -> bool
    ensures { result ≡ may_stay saved found }
{
    let are_locked_equally = saved[0] / 128 == found[0] / 128 && saved[1] % 2 == found[1] % 2;
    are_locked_equally && saved[1] & LB & found[1] == saved[1] & LB
}

fn fitted_status(saved: [u8; 2], found: [u8; 2]) -> [u8; 2]
    ensures { result ≡ fitted_status saved found }
{
    let two = saved[1] / 64 * 64 + found[1] % 64 / 2 * 2 + saved[1] % 2;
    [saved[0], two]
}

// The line with the names of the bits of status 2 that aren't restored.
#[derive(Clone, Copy, Drop)]
struct KeptLine {
    saved: u8,
    found: u8,
}

const BITS: [(u8, &str); 5] = [
    (0x02, "QE"),
    (0x04, "bit 2 of status 2"),
    (0x08, "LB1"),
    (0x10, "LB2"),
    (0x20, "LB3"),
];

impl fmt::Display for KeptLine {
    fn fmt<W: fmt::Write>(&self, f: &mut fmt::Formatter<W>) -> fmt::Result {
        f.write_str(
            "Not restored: the chip keeps these status bits, which differ from the journal:",
        )?;
        for (bit, name) in &BITS {
            if (self.saved ^ self.found) & *bit != 0 {
                let value = if self.found & *bit != 0 {
                    "set"
                } else {
                    "clear"
                };
                write!(f, " {name} ({value})")?;
            }
        }
        f.write_str(".")?;
        if self.saved & QE != 0 && self.found & QE == 0 {
            f.write_str(" A board that reads with four lines needs QE: set it with another tool.")?;
        }
        Ok(())
    }
}

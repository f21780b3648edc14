//! The hints for the status of a chip: its protection bits, and the bits SRP0 and SRP1 that lock the status.

use crate::circumstances::Circumstances;
use crate::saved::Saved;
use board_files::StatusBits;
use board_progress::Lock;
use nor_model::bits::{BP_TB_SEC, SRP0, SRP1};
use nor_probe::part_for;
use std::io::{self, Write};

/// Prints the hint for error 6.
pub fn print_unknown_protection<E: Write>(errors: &mut E, status: [u8; 2]) -> io::Result<()> {
    match status[0] {
        status1 if status1 & BP_TB_SEC != 0 => writeln!(
            errors,
            "Status 1 of this chip is {status1:02X}h. On nearly every chip its bits 2 to 6 protect sectors, but this \
            program doesn't know what they mean on this chip."
        ),
        _ => writeln!(
            errors,
            "This program doesn't know the protection bits of this chip."
        ),
    }
}

/// Prints the hint for error 9.
pub fn print_locked<E: Write>(errors: &mut E, status: [u8; 2]) -> io::Result<()> {
    writeln!(errors, "{}", Lock::of(status).advice())
}

/// Prints the hint for error 10, if the job has no `--unlock`.
pub fn print_protected<E: Write>(errors: &mut E, status: [u8; 2]) -> io::Result<()> {
    let advice = Lock::of(status).advice_to_unlock();
    writeln!(errors, "Include only regions that aren't protected{advice}")
}

/// Prints the hint for error 17.
pub fn print_other_status<E: Write>(errors: &mut E, known: &Circumstances<'_>) -> io::Result<()> {
    let Some(saved) = known.saved else {
        return Ok(());
    };
    let found = known.replies.status;
    writeln!(
        errors,
        "Status in the journal: {}. Status of the chip: {}.{}",
        StatusBits(saved.status),
        StatusBits(found),
        lock_advice(&saved, found)
    )
}

// Returns the advice after error 17 for a chip with the status `found`, which differs from the journal's status:
// - Without a row in the table of chips, if bits 2 to 5 of status 1 differ: none, as these bits may protect sectors.
// - With a row, if SRP0 differs, but SRP1 doesn't: set or clear SRP0 as in the journal.
// - With a row, if SRP1 is set in the chip, but not in the journal, and SRP0 is clear in both: disconnect the power.
// - Otherwise: write an image.
fn lock_advice(saved: &Saved, found: [u8; 2]) -> &'static str {
    if part_for(true, saved.id).is_none() {
        return match (saved.status[0] ^ found[0]) & 0x3C {
            0 => WRITE_IMAGE,
            _ => "",
        };
    }
    let [one, two] = saved.status;
    match ((one ^ found[0]) & SRP0, (two ^ found[1]) & SRP1) {
        (SRP0, 0) if one & SRP0 != 0 => " Set SRP0 (--wp-enable), and restore again.",
        (SRP0, 0) => " Clear SRP0 (--wp-disable), and restore again.",
        (0, SRP1) if one & SRP0 == 0 && two & SRP1 == 0 => {
            " A power cycle clears SRP1: disconnect the chip from power, and restore again."
        }
        _ => WRITE_IMAGE,
    }
}

const WRITE_IMAGE: &str =
    " If the journal is this board's, write an image from before the session instead (-w, with a new journal): -w \
    doesn't compare these bits, and leaves them as they are. See RECOVERY.";

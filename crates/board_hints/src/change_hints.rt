//! The hints for a chip that stayed busy, or did not store what was sent.

use crate::chip_after::ChipAfter;
use nor_args::{Change, Task, Wanted};
use std::io::{self, Write};

/// Prints the hint for error 13.
pub fn print_busy<E: Write>(errors: &mut E, left: ChipAfter<'_>) -> io::Result<()> {
    writeln!(
        errors,
        "The chip stayed busy. Check contacts and supply: a chip without contact looks busy.{left}"
    )
}

/// Prints the hint for error 14, if the job may have changed the chip: what to do before and after the restore of the
/// chip, which `left` advises.
pub fn print_not_stored<E: Write>(
    errors: &mut E,
    task: &Task<'_>,
    left: ChipAfter<'_>,
) -> io::Result<()> {
    let ChipAfter::Changed { .. } = left else {
        return Ok(());
    };
    let (before, after) = match task {
        Task::Restore { .. } => (".", IF_AGAIN),
        Task::Change(
            Change {
                wanted: Wanted::Write { .. },
                ..
            },
        ) => (COMPARE_FIRST, ""),
        _ => (SAVE_FIRST, ""),
    };
    writeln!(
        errors,
        "The chip did not store all bytes, or they were misread: lower the clock (spispeed=){before}{left}{after}"
    )
}

const IF_AGAIN: &str =
    " If error 14 occurs again, disconnect all power from the chip, and restore with --quick, then from a backup \
    without --quick: its erases may be others.";

const COMPARE_FIRST: &str =
    ", and compare the chip with the image (-v). If -v finds another address or none, the journal may be misread, \
    too: first save the chip (--backup left.journal).";

const SAVE_FIRST: &str =
    ". The journal may be misread, too: first save the chip (--backup left.journal).";

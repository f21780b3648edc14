//! The number of transactions that a call sends, computed from its steps.

use crate::cases::Case;
use crate::chips::Chip;
use crate::verdicts;
use crate::wanted::Work;
use nor_session::{Refusal, What};

fn sum(numbers: &[u64]) -> u64 {
    let mut sum = 0_u64;
    for number in numbers {
        sum = sum.saturating_add(*number);
    }
    sum
}

/// Returns the number of transactions of a probe: polls, the ID, and three reads of SFDP unless the ID is in the table
/// of chips or means that there is no chip.
pub fn probe(chip: &Chip) -> u64 {
    let polls = u64::from(chip.delays.now) + 1;
    let known = verdicts::is_in_table(&chip.config) || verdicts::is_no_chip(&chip.config);
    let parts = if known { 0 } else { 3 };
    sum(&[polls, 1, parts])
}

/// Returns the number of transactions of an identification: a probe, status 2 and the unique ID.
pub fn identity(chip: &Chip) -> u64 {
    sum(&[probe(chip), 1, 1])
}

pub fn included_sectors(case: &Case) -> u64 {
    let mut sectors = 0_u64;
    for sector in 0..case.chip.sectors() {
        sectors = sectors.saturating_add(u64::from(case.includes_in(sector)));
    }
    sectors
}

pub fn saving(case: &Case) -> u64 {
    let scanned = match case.request.what {
        What::WpRange { .. } => 0,
        What::Write | What::Erase => included_sectors(case),
    };
    sum(&[identity(&case.chip), scanned])
}

/// Counts the transactions of a refused session, which ends after the probe, the identification or the scan.
pub fn refused(case: &Case, refusal: Refusal) -> u64 {
    match refusal {
        Refusal::NoChip | Refusal::UnknownChip(_) | Refusal::OtherName => probe(&case.chip),
        Refusal::StatusLocked | Refusal::Protected { address: _ } => saving(case),
        _ => identity(&case.chip),
    }
}

/// Counts the transactions of the changes: a read of each touched sector that isn't erased, and the operations.
pub fn changes(chip: &Chip, work: Work) -> u64 {
    let operations = sum(&[work.erases, work.programs, work.status_writes]);
    let each = u64::from(chip.delays.each) + 3;
    let read = work.touched.saturating_sub(work.raised);
    sum(&[read, operations.saturating_mul(each)])
}

pub fn session(case: &Case, work: Work) -> u64 {
    let checked = if case.request.verify { work.touched } else { 0 };
    sum(&[saving(case), changes(&case.chip, work), checked])
}

/// Counts the transactions of an accepted restore, which always verifies the touched sectors.
pub fn restore(chip: &Chip, saved: u64, work: Work) -> u64 {
    sum(&[identity(chip), saved, changes(chip, work), work.touched])
}

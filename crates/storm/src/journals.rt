//! The journal that a session must write, computed by simple rules from the chip and the session's target.

use crate::cases::Case;
use crate::chips::Chip;
use crate::contents::sector_at;
use crate::fault::{Fault, agree, agree_all};
use crate::wanted::Wanted;
use crate::{guards, lengths};
use nor_journal::{Journal, MemVault};
use std::alloc::Global;

// The length of the end mark (four bytes) and of the SHA-256 (32 bytes).
const END_LEN: usize = 36;

/// Returns the header and the records that the journal has after the scan of the sectors below `below`.
pub fn begun(alloc: Global, case: &Case, wanted: &Wanted, below: u32) -> Result<Vec<u8>, Fault> {
    let mut text = Vec::new(alloc);
    put_head(&mut text, &case.chip)?;
    put_records(&mut text, &case.chip, wanted, below)?;
    Ok(text)
}

fn put_head(text: &mut Vec<u8>, chip: &Chip) -> Result<(), Fault> {
    let kept = guards::kept(chip.status);
    let size = chip.config.size.to_le_bytes();
    let parts: [&[u8]; 5] = [
        b"NORUNDO2",
        &chip.config.id,
        &chip.config.unique,
        &kept,
        &size,
    ];
    for part in parts {
        text.extend_from_slice(part)?;
    }
    Ok(())
}

fn put_records(text: &mut Vec<u8>, chip: &Chip, wanted: &Wanted, below: u32) -> Result<(), Fault> {
    for number in 0..below {
        if wanted.touches(number) {
            put_record(text, number, sector_at(chip.bytes.as_slice(), number))?;
        }
    }
    Ok(())
}

fn put_record(text: &mut Vec<u8>, number: u32, sector: &[u8]) -> Result<(), Fault> {
    text.extend_from_slice(&number.to_le_bytes())?;
    text.extend_from_slice(sector)?;
    Ok(())
}

/// Checks the vault of a session on a faulty bus: exactly `begun`, and if `sealed` also the end mark and the digest.
pub fn check_put(vault: &MemVault, begun: &[u8], sealed: bool) -> Result<(), Fault> {
    let held = vault.bytes();
    let same = if sealed {
        Journal::read(held)?;
        held.len().checked_sub(begun.len()) == Some(END_LEN) && held.starts_with(begun)
    } else {
        held == begun
    };
    agree_all(&[
        (vault.is_sealed() == sealed, "the seal on a faulty bus"),
        (same, "the journal on a faulty bus"),
    ])
}

/// Checks the vault of a session that was refused with error 9 or 10: exactly the header and all records.
pub fn check_refused(
    alloc: Global,
    case: &Case,
    wanted: &Wanted,
    held: &[u8],
) -> Result<(), Fault> {
    let whole = begun(alloc, case, wanted, case.chip.sectors())?;
    agree(
        held == whole.as_slice(),
        "the journal that a refusal leaves",
    )
}

/// Checks the vault of a session that stopped before its seal: it has the header and the records so far, or nothing.
pub fn check_stopped(
    alloc: Global,
    case: &Case,
    wanted: &Wanted,
    sent: u64,
    held: &[u8],
) -> Result<(), Fault> {
    let Some(scanned) = sent.checked_sub(lengths::identity(&case.chip)) else {
        return agree(held.is_empty(), "a vault before the chip is identified");
    };
    let begun = begun(alloc, case, wanted, below(case, scanned))?;
    agree(held == begun.as_slice(), "the journal that a stop leaves")
}

// Returns the sector number after the first `scanned` included sectors, or 0 if there are none.
fn below(case: &Case, scanned: u64) -> u32 {
    let mut below = 0;
    let mut left = scanned;
    for number in 0..case.chip.sectors() {
        if case.includes_in(number) && left > 0 {
            left = left.saturating_sub(1);
            below = number.saturating_add(1);
        }
    }
    below
}

//! The trace lines of the transactions that each call must send, in order. A wait is polls (05h) up to the first one
//! with BUSY clear. An operation is a write enable (06h), a command and a wait. A session or restore has these steps,
//! with sectors in ascending order:
//! 1. Find the chip: a wait, the ID, and three reads of SFDP unless the ID is in the table of chips or means no chip.
//! 2. Identify the device: status 2 and the unique ID.
//! 3. Read the sectors with an included address (session, unless it only sets a range) or the saved ones (restore).
//! 4. Clear the protection bits, if a touched sector is protected.
//! 5. Erase the raised sectors.
//! 6. Program the touched sectors. A sector that wasn't erased is read first.
//! 7. Set the protection bits of the target, if they differ.
//! 8. Verify: read the touched sectors again (for a session, only if the request asks for it).

use crate::cases::Case;
use crate::chips::Chip;
use crate::fault::Fault;
use crate::lines::Lines;
use crate::wanted::{Sector, Wanted};
use crate::{guards, verdicts};
use nor_chip::SECTOR_LEN;
use nor_session::{Refusal, What};
use std::alloc::Global;

pub fn session(alloc: Global, case: &Case, wanted: &Wanted) -> Result<Lines, Fault> {
    let mut lines = Lines::new(alloc, &case.chip);
    save(&mut lines, case, case.chip.sectors());
    change(&mut lines, &case.chip, wanted);
    if case.request.verify {
        read_touched(&mut lines, wanted.sectors.as_slice());
    }
    lines.whole()
}

// Appends steps 1 to 3 of a session. Step 3 reads only sectors below `below`.
fn save(lines: &mut Lines, case: &Case, below: u32) {
    find(lines, &case.chip);
    identify(lines);
    if !matches!(case.request.what, What::WpRange { .. }) {
        read_included(lines, case, below);
    }
}

/// Returns the lines of a refused session: errors 1 to 3 follow step 1, 4 to 8 step 2, and 9 and 10 step 3.
pub fn refused_session(alloc: Global, case: &Case, refusal: Refusal) -> Result<Lines, Fault> {
    let mut lines = Lines::new(alloc, &case.chip);
    match refusal.number() {
        1..=3 => find(&mut lines, &case.chip),
        4..=8 => save(&mut lines, case, 0),
        _ => save(&mut lines, case, case.chip.sectors()),
    }
    lines.whole()
}

pub fn restore(
    alloc: Global,
    chip: &Chip,
    saved: &[Sector],
    wanted: &Wanted,
) -> Result<Lines, Fault> {
    let mut lines = Lines::new(alloc, chip);
    scan_saved(&mut lines, chip, saved);
    change(&mut lines, chip, wanted);
    read_touched(&mut lines, wanted.sectors.as_slice());
    lines.whole()
}

/// Returns the lines of a refused restore: errors 1, 2 and 16 follow step 1, 17 and 20 step 2, and 9 step 3.
pub fn refused_restore(
    alloc: Global,
    chip: &Chip,
    saved: &[Sector],
    refusal: Refusal,
) -> Result<Lines, Fault> {
    let mut lines = Lines::new(alloc, chip);
    match refusal.number() {
        1 | 2 | 16 => find(&mut lines, chip),
        17 | 20 => scan_saved(&mut lines, chip, &[]),
        _ => scan_saved(&mut lines, chip, saved),
    }
    lines.whole()
}

fn scan_saved(lines: &mut Lines, chip: &Chip, saved: &[Sector]) {
    find(lines, chip);
    identify(lines);
    read_touched(lines, saved);
}

/// Returns the lines of a probe. The chip name that the caller requires doesn't change them.
pub fn probe(alloc: Global, chip: &Chip) -> Result<Lines, Fault> {
    let mut lines = Lines::new(alloc, chip);
    find(&mut lines, chip);
    lines.whole()
}

/// Returns the lines of a readout or a verification: step 1, and reads of the included sectors below `below`.
pub fn reading(alloc: Global, case: &Case, below: u32) -> Result<Lines, Fault> {
    let mut lines = Lines::new(alloc, &case.chip);
    find(&mut lines, &case.chip);
    read_included(&mut lines, case, below);
    lines.whole()
}

/// Returns the lines of a report on protection: step 1, and a read of status 2 if `is_found`.
pub fn protection(alloc: Global, chip: &Chip, is_found: bool) -> Result<Lines, Fault> {
    let mut lines = Lines::new(alloc, chip);
    find(&mut lines, chip);
    if is_found {
        lines.read_status2();
    }
    lines.whole()
}

// Appends step 1. The SFDP reads are the header, the first parameter header, and the table at the address in it.
fn find(lines: &mut Lines, chip: &Chip) {
    let config = &chip.config;
    lines.wait();
    lines.read_id(config.id);
    if verdicts::is_in_table(config) || verdicts::is_no_chip(config) {
        return;
    }
    let shown = &config.sfdp;
    let pointer = u32::from_le_bytes([shown[12], shown[13], shown[14], 0]);
    lines.read_parameters(0, 8);
    lines.read_parameters(8, 8);
    lines.read_parameters(pointer, 36);
}

fn identify(lines: &mut Lines) {
    lines.read_status2();
    lines.read_unique();
}

fn read_included(lines: &mut Lines, case: &Case, below: u32) {
    for number in 0..below {
        if case.includes_in(number) {
            lines.read_sector(number);
        }
    }
}

fn read_touched(lines: &mut Lines, sectors: &[Sector]) {
    for (number, sector) in (0_u32..).zip(sectors) {
        if sector.touched {
            lines.read_sector(number);
        }
    }
}

fn change(lines: &mut Lines, chip: &Chip, wanted: &Wanted) {
    prepare(lines, chip, wanted);
    for number in 0..chip.sectors() {
        if wanted.touches(number) {
            program_sector(lines, chip, wanted, number);
        }
    }
    protect(lines, chip, wanted);
}

pub fn prepare(lines: &mut Lines, chip: &Chip, wanted: &Wanted) {
    // The status write clears the protection bits, and leaves the other non-volatile status bits as they are.
    if wanted.first_guarded(chip).is_some() {
        lines.write_status(guards::with_code(chip.status, 0));
    }
    if wanted.raises_all(0, chip.sectors()) {
        lines.erase_chip();
    } else {
        erase_blocks(lines, chip, wanted);
    }
}

/// Appends step 7. If step 4 was sent, the protection bits are 0 before step 7.
pub fn protect(lines: &mut Lines, chip: &Chip, wanted: &Wanted) {
    let code = match wanted.first_guarded(chip) {
        Some(_) => 0,
        None => guards::code_of(chip.status),
    };
    if code != guards::code_of(wanted.status) {
        lines.write_status(wanted.status);
    }
}

// Appends erases of the largest aligned blocks (64 KiB, 32 KiB or a sector) that have only raised sectors. Uses only
// erase types that the chip has.
fn erase_blocks(lines: &mut Lines, chip: &Chip, wanted: &Wanted) {
    for block in 0..chip.sectors() / 16 {
        let first = block.saturating_mul(16);
        if chip.config.kinds.k64 && wanted.raises_all(first, 16) {
            lines.erase(0xD8, first.saturating_mul(SECTOR_LEN));
        } else {
            erase_half(lines, chip, wanted, first);
            erase_half(lines, chip, wanted, first.saturating_add(8));
        }
    }
}

fn erase_half(lines: &mut Lines, chip: &Chip, wanted: &Wanted, first: u32) {
    if chip.config.kinds.k32 && wanted.raises_all(first, 8) {
        lines.erase(0x52, first.saturating_mul(SECTOR_LEN));
        return;
    }
    for sector in first..first.saturating_add(8) {
        if wanted.raises_all(sector, 1) {
            lines.erase(0x20, sector.saturating_mul(SECTOR_LEN));
        }
    }
}

/// Appends step 6 for one sector. Each page that differs from the target, after the erase
/// if there was one, is one operation.
pub fn program_sector(lines: &mut Lines, chip: &Chip, wanted: &Wanted, number: u32) {
    let is_erased = wanted.raises_all(number, 1);
    if !is_erased {
        lines.read_sector(number);
    }
    let first = number.saturating_mul(16);
    for page in first..first.saturating_add(16) {
        let start = page.saturating_mul(256);
        let old = page_at(&chip.bytes, start);
        let new = page_at(&wanted.bytes, start);
        program_page(lines, start, (old, new), is_erased);
    }
}

fn program_page(lines: &mut Lines, start: u32, (old, new): (&[u8], &[u8]), is_erased: bool) {
    if let Some((first, last)) = span(old, new, is_erased) {
        let bytes = new.get(first..last.saturating_add(1)).unwrap_or(&[]);
        let first = u32::try_from(first).unwrap_or(0);
        lines.program(start.saturating_add(first), bytes);
    }
}

fn page_at(bytes: &Vec<u8>, start: u32) -> &[u8] {
    let start = start as usize;
    bytes
        .as_slice()
        .get(start..start.saturating_add(256))
        .unwrap_or(&[])
}

// Returns the first and last position at which `new` differs from FFh (if `is_erased`), or otherwise from `old`.
fn span(old: &[u8], new: &[u8], is_erased: bool) -> Option<(usize, usize)> {
    let mut found = None;
    for (place, (old, new)) in old.iter().zip(new).enumerate() {
        let old = if is_erased { 0xFF } else { *old };
        if old != *new {
            found = match found {
                None => Some((place, place)),
                Some((first, _)) => Some((first, place)),
            };
        }
    }
    found
}

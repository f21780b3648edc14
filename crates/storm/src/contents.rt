//! Random bytes of chips and images.

use crate::dice::Dice;
use nor_chip::SECTOR_LEN;

/// How the bytes of each sector change, in a run of adjacent sectors.
#[derive(Clone, Copy)]
enum Style {
    Erased,
    Cleared,
    Any,
    /// Bits of up to 40 bytes change from 1 to 0.
    Falls,
    /// Bits of up to 40 bytes change from 0 to 1.
    Rises,
    OneByte,
}

/// Draws a sector below `sectors`, most likely near the ends of the chip or of ranges that protection bits can select.
pub fn sector(dice: &mut Dice, sectors: u32) -> u32 {
    let last = sectors.saturating_sub(1);
    let near = dice.below(3);
    let parts = [
        sectors / 2,
        sectors / 4,
        sectors / 8,
        sectors / 16,
        sectors / 32,
    ];
    let part = dice.pick(sectors / 64, &parts);
    match dice.below(6) {
        0 => dice.below(17).min(last),
        1 => last.saturating_sub(dice.below(17)),
        2 => part.saturating_add(near).saturating_sub(1).min(last),
        3 => last.saturating_sub(part.saturating_add(near).saturating_sub(2)),
        _ => dice.below(sectors),
    }
}

pub fn sector_at(bytes: &[u8], number: u32) -> &[u8] {
    let start = number.saturating_mul(SECTOR_LEN) as usize;
    bytes
        .get(start..start.saturating_add(SECTOR_LEN as usize))
        .unwrap_or(&[])
}

/// Fills a chip with FFh, 00h or random bytes, and then changes up to eight runs of sectors.
pub fn paint(dice: &mut Dice, bytes: &mut [u8]) {
    let base = dice.pick(Style::Erased, &[Style::Erased, Style::Cleared]);
    let small = bytes.len() <= 262_144;
    if small && dice.hits(1, 5) {
        dice.fill(bytes);
    } else if matches!(base, Style::Cleared) {
        bytes.fill(0x00);
    } else {
        bytes.fill(0xFF);
    }
    let styles = [Style::Cleared, Style::Any, Style::Any, Style::Falls];
    for _ in 0..dice.below(9) {
        let style = dice.pick(Style::Erased, &styles);
        change_run(dice, bytes, style);
    }
}

/// Changes up to six runs of sectors in `image`, in some images after all bytes were replaced.
pub fn alter(dice: &mut Dice, image: &mut [u8]) {
    let small = image.len() <= 262_144;
    if small && dice.hits(1, 10) {
        image.fill(0xFF);
    } else if small && dice.hits(1, 10) {
        dice.fill(image);
    }
    let styles = [
        Style::Falls,
        Style::Rises,
        Style::OneByte,
        Style::OneByte,
        Style::Cleared,
        Style::Any,
    ];
    for _ in 0..dice.below(7) {
        let style = dice.pick(Style::Erased, &styles);
        change_run(dice, image, style);
    }
}

fn change_run(dice: &mut Dice, bytes: &mut [u8], style: Style) {
    let sectors = u32::try_from(bytes.len() / SECTOR_LEN as usize).unwrap_or(0);
    let (from, count) = run_for(dice, sectors);
    let run = bytes
        .chunks_mut(SECTOR_LEN as usize)
        .skip(from as usize)
        .take(count);
    for sector in run {
        change(dice, sector, style);
    }
}

// Draws a run of one to three sectors, or one of at least 32 or 64 KiB that begins at a multiple of this length.
fn run_for(dice: &mut Dice, sectors: u32) -> (u32, usize) {
    let from = sector(dice, sectors);
    match dice.below(4) {
        0 => (from / 8 * 8, dice.pick(8, &[9, 8])),
        1 => (from / 16 * 16, dice.pick(16, &[17, 24, 33])),
        _ => (from, dice.pick(1, &[1, 2, 3])),
    }
}

fn change(dice: &mut Dice, sector: &mut [u8], style: Style) {
    match style {
        Style::Erased => sector.fill(0xFF),
        Style::Cleared => sector.fill(0x00),
        Style::Any => dice.fill(sector),
        Style::OneByte => change_some(dice, sector, 1, style),
        Style::Falls | Style::Rises => {
            let places = dice.pick(1, &[2, 5, 40]);
            change_some(dice, sector, places, style);
        }
    }
}

fn change_some(dice: &mut Dice, sector: &mut [u8], places: u32, style: Style) {
    for _ in 0..places {
        let at = dice.below(SECTOR_LEN) as usize;
        let byte = dice.byte();
        if let Some(place) = sector.get_mut(at) {
            *place = match style {
                Style::Falls => *place & byte,
                Style::Rises => *place | byte,
                _ => byte,
            };
        }
    }
}

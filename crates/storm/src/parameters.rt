//! Random SFDP bytes, and a reference parser for them (JESD216).

use crate::dice::Dice;
use nor_probe::SfdpFault;

/// The first 256 SFDP bytes of a chip, as 5Ah returns them.
pub type Shown = [u8; 256];

/// The size of a chip and its erase types of 32 and 64 KiB, according to its SFDP bytes.
#[derive(Clone, Copy)]
pub struct Told {
    pub size: u32,
    pub k32: bool,
    pub k64: bool,
}

/// Draws SFDP bytes that describe this chip. Most bytes that don't matter to `read` are random or FFh.
pub fn show(dice: &mut Dice, told: Told) -> Shown {
    let mut shown = [0xFF; 256];
    let at = dice.pick(0x10, &[0x10, 0x30, 0x80]);
    let header = [
        0x53,
        0x46,
        0x44,
        0x50,
        dice.byte(),
        0x01,
        dice.byte(),
        dice.byte(),
    ];
    put(&mut shown, 0, &header);
    let length = dice.pick(9, &[9, 16]);
    put(
        &mut shown,
        8,
        &[0x00, dice.byte(), 0x01, length, at, 0x00, 0x00, dice.byte()],
    );
    let mut table = [0; 28];
    dice.fill(&mut table);
    let start = usize::from(at);
    put(&mut shown, start, &table);
    // Bit 2 is set: the write granularity is 64 bytes or more. Bit 18 is clear: three address bytes are accepted.
    let first = [
        dice.byte() | 0x04,
        dice.byte(),
        dice.byte() & 0xFB,
        dice.byte(),
    ];
    put(&mut shown, start, &first);
    put(
        &mut shown,
        start.saturating_add(4),
        &density(dice, told.size),
    );
    put_kinds(dice, &mut shown, start, told);
    shown
}

// Returns double word 2: the size in bits minus one or, with bit 31 set, the binary logarithm of the size in bits.
fn density(dice: &mut Dice, size: u32) -> [u8; 4] {
    let bits = size.saturating_mul(8);
    if dice.hits(1, 3) {
        (0x8000_0000 | bits.trailing_zeros()).to_le_bytes()
    } else {
        bits.saturating_sub(1).to_le_bytes()
    }
}

fn put_kinds(dice: &mut Dice, shown: &mut Shown, start: usize, told: Told) {
    let blank = dice.pick([0x00, 0x00], &[[0x0C, 0x21], [0x12, 0xDC], [0x00, 0x52]]);
    let half = if told.k32 { [0x0F, 0x52] } else { blank };
    let whole = if told.k64 { [0x10, 0xD8] } else { blank };
    let kinds = [[0x0C, 0x20], half, whole, blank];
    let turn = dice.below(4);
    for (kind, slot) in kinds.iter().zip(turn..) {
        let place = slot as usize % 4 * 2;
        put(shown, start.saturating_add(28).saturating_add(place), kind);
    }
}

/// Damages the bytes once or twice, so that `read` mostly returns a fault.
pub fn damage(dice: &mut Dice, shown: &mut Shown) {
    for _ in 0..dice.pick(1, &[1, 2]) {
        damage_once(dice, shown);
    }
}

fn damage_once(dice: &mut Dice, shown: &mut Shown) {
    let start = usize::from(shown[12]);
    match dice.below(9) {
        0 => put(shown, dice.below(4) as usize, &[0x00]),
        1 => put(shown, 5, &[dice.pick(0, &[2, 0xFF])]),
        2 => put(shown, dice.pick(8, &[10]), &[dice.pick(2, &[0xFF])]),
        3 => put(shown, 11, &[dice.pick(8, &[0])]),
        4 => put(shown, start.saturating_add(2), &[dice.pick(0x04, &[0x06])]),
        5 => put(shown, start, &[dice.byte() & 0xFB]),
        6 => put(shown, start.saturating_add(4), &wrong_density(dice)),
        7 => put(
            shown,
            start.saturating_add(28),
            &[0x0C, 0x21, 0x0D, 0x20, 0x00, 0x00, 0x20, 0x0C],
        ),
        _ => put(
            shown,
            12,
            &dice.pick(
                [0xF0, 0x00, 0x00],
                &[[0x00, 0x01, 0x00], [0x10, 0x00, 0xFF]],
            ),
        ),
    }
}

fn wrong_density(dice: &mut Dice) -> [u8; 4] {
    let wrong = [
        0x0003_FFFF,
        0x0008_0000,
        0x0FFF_FFFF,
        0x8000_001C,
        0x8000_0012,
        0xFFFF_FFFF,
        0x000B_FFFF,
    ];
    dice.pick(0_u32, &wrong).to_le_bytes()
}

pub fn put(shown: &mut Shown, at: usize, piece: &[u8]) {
    for (place, byte) in shown.iter_mut().skip(at).zip(piece) {
        *place = *byte;
    }
}

/// Returns what the bytes describe, or their first fault. The chip takes the table's address modulo its `size`.
pub fn read(shown: &Shown, size: u32) -> Result<Told, SfdpFault> {
    if shown[..4] != [0x53, 0x46, 0x44, 0x50] {
        return Err(SfdpFault::Signature);
    }
    if shown[5] != 1 {
        return Err(SfdpFault::Major);
    }
    if shown[8] != 0 || shown[10] != 1 {
        return Err(SfdpFault::FirstHeader);
    }
    if shown[11] < 9 {
        return Err(SfdpFault::Length);
    }
    let pointer = u32::from_le_bytes([shown[12], shown[13], shown[14], 0]);
    // The chip returns FFh after the bytes shown.
    let start = pointer.checked_rem(size).unwrap_or(0);
    let mut table = [0xFF; 36];
    for (place, byte) in table.iter_mut().zip(shown.iter().skip(start as usize)) {
        *place = *byte;
    }
    read_table(&table)
}

fn read_table(table: &[u8; 36]) -> Result<Told, SfdpFault> {
    // Bits 17 and 18 say which address bytes the chip accepts. The values 2 (only four) and 3 (reserved) are rejected.
    if table[2] / 2 % 4 >= 2 {
        return Err(SfdpFault::Address);
    }
    if table[0] & 0x04 == 0 {
        return Err(SfdpFault::Granularity);
    }
    let density = u32::from_le_bytes([table[4], table[5], table[6], table[7]]);
    let Some(size) = size_of(density) else {
        return Err(SfdpFault::Size);
    };
    let kinds = [
        [table[28], table[29]],
        [table[30], table[31]],
        [table[32], table[33]],
        [table[34], table[35]],
    ];
    if !kinds.contains(&[0x0C, 0x20]) {
        return Err(SfdpFault::NoSector);
    }
    Ok(Told {
        size,
        k32: kinds.contains(&[0x0F, 0x52]),
        k64: kinds.contains(&[0x10, 0xD8]),
    })
}

fn size_of(density: u32) -> Option<u32> {
    let bits = if density < 0x8000_0000 {
        Some(u64::from(density) + 1)
    } else {
        1_u64.checked_shl(density - 0x8000_0000)
    };
    let sizes = [
        65_536, 131_072, 262_144, 524_288, 1_048_576, 2_097_152, 4_194_304, 8_388_608, 16_777_216,
    ];
    sizes
        .iter()
        .find(|size| Some(u64::from(**size) * 8) == bits)
        .copied()
}

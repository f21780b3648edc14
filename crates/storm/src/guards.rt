//! The addresses that protection bits protect, by the table in the datasheets of W25Q64FV and W25Q128FV.

pub type Status = [u8; 2];

/// Returns the non-volatile bits: all except BUSY, WEL and SUS.
pub fn kept(status: Status) -> Status {
    [status[0] & 0b1111_1100, status[1] & 0b0111_1111]
}

/// Returns the non-volatile bits that are not protection bits.
pub fn fixed(status: Status) -> Status {
    [status[0] & 0b1000_0000, status[1] & 0b0011_1111]
}

pub fn is_locked(status: Status) -> bool {
    status[0] & 0b1000_0000 != 0 || status[1] & 0b0000_0001 != 0
}

/// Returns the protection bits as a number below 64, with these bits from the highest on: CMP, SEC, TB, BP2, BP1, BP0.
pub fn code_of(status: Status) -> u8 {
    let low = status[0] / 4 % 32;
    if status[1] & 0b0100_0000 == 0 {
        low
    } else {
        low + 32
    }
}

pub fn with_code(status: Status, code: u8) -> Status {
    let [fixed1, fixed2] = fixed(status);
    let high = if code / 32 % 2 == 0 { 0 } else { 0b0100_0000 };
    [fixed1 | (code % 32 * 4), fixed2 | high]
}

/// Returns whether the datasheets don't define these protection bits: SEC is set and BP is 110.
pub fn is_undefined(code: u8) -> bool {
    code / 16 % 2 == 1 && code % 8 == 6
}

fn part_len(code: u8, size: u32) -> u32 {
    let by_sectors = code / 16 % 2 == 1;
    match (by_sectors, code % 8) {
        (_, 0) => 0,
        (_, 7) => size,
        (false, 1) => size / 64,
        (false, 2) => size / 32,
        (false, 3) => size / 16,
        (false, 4) => size / 8,
        (false, 5) => size / 4,
        (false, _) => size / 2,
        (true, 1) => 4096,
        (true, 2) => 8192,
        (true, 3) => 16_384,
        (true, _) => 32_768,
    }
}

/// Returns the start and the length of the protected range: the whole chip for undefined protection bits.
pub fn guarded_places(code: u8, size: u32) -> (u32, u32) {
    if is_undefined(code) {
        return (0, size);
    }
    let len = part_len(code, size);
    let rest = size.saturating_sub(len);
    let at_start = code / 8 % 2 == 1;
    let complement = code / 32 % 2 == 1;
    match (at_start, complement) {
        (true, false) => (0, len),
        (false, false) => (rest, len),
        (true, true) => (len, rest),
        (false, true) => (0, rest),
    }
}

pub fn guards(code: u8, size: u32, address: u32) -> bool {
    let (start, len) = guarded_places(code, size);
    start <= address && address < start.saturating_add(len)
}

pub fn guards_some(code: u8, size: u32, sector: u32) -> bool {
    let start = sector.saturating_mul(4096);
    for address in start..start.saturating_add(4096) {
        if guards(code, size, address) {
            return true;
        }
    }
    false
}

/// Returns the least value of the protection bits with which exactly `len` bytes from `start` on are protected, or
/// `None`. If `len` is 0, `start` doesn't matter. Undefined values don't count.
pub fn least_code(start: u32, len: u32, size: u32) -> Option<u8> {
    (0..64).find(|code| !is_undefined(*code) && protects_exactly(*code, start, len, size))
}

fn protects_exactly(code: u8, start: u32, len: u32, size: u32) -> bool {
    let (first, count) = guarded_places(code, size);
    count == len && (len == 0 || first == start)
}

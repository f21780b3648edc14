//! Masks of bits of the status registers, as numbers. (W25Q64FV datasheet, status registers. `Status1` and `Status2`
//! name each bit.)

/// Bit 0 of status 1: an operation is in progress.
pub const BUSY: u8 = 0x01;

/// BP0 to BP2: bits 2 to 4 of status 1.
pub const BP: u8 = 0x1C;

/// BP0 to BP2, TB and SEC: bits 2 to 6 of status 1.
pub const BP_TB_SEC: u8 = 0x7C;

/// Bit 7 of status 1. With SRP1 it says how the status registers are locked.
pub const SRP0: u8 = 0x80;

/// Bit 0 of status 2.
pub const SRP1: u8 = 0x01;

/// Bit 1 of status 2: Quad Enable.
pub const QE: u8 = 0x02;

/// LB1 to LB3: bits 3 to 5 of status 2. No command clears them.
pub const LB: u8 = 0x38;

/// Bit 6 of status 2.
pub const CMP: u8 = 0x40;

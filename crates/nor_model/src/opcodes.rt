//! The opcodes of the modelled commands. (W25Q64FV datasheet, instruction set table.)

pub const WRITE_STATUS: u8 = 0x01;

pub const PAGE_PROGRAM: u8 = 0x02;

pub const READ_DATA: u8 = 0x03;

pub const WRITE_DISABLE: u8 = 0x04;

pub const READ_STATUS1: u8 = 0x05;

pub const WRITE_ENABLE: u8 = 0x06;

/// Erases a sector (4 KiB).
pub const ERASE_SECTOR: u8 = 0x20;

pub const READ_STATUS2: u8 = 0x35;

pub const READ_UNIQUE: u8 = 0x4B;

/// Erases a block of 32 KiB.
pub const ERASE_32K: u8 = 0x52;

pub const READ_SFDP: u8 = 0x5A;

pub const READ_ID: u8 = 0x9F;

pub const ERASE_CHIP: u8 = 0xC7;

/// Erases a block of 64 KiB.
pub const ERASE_64K: u8 = 0xD8;

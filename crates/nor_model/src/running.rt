//! The operation that a busy chip executes.

/// The operation in progress on a busy chip. A power failure interrupts this operation.
#[derive(Clone, Copy, Debug, PartialEq, Eq)]
pub enum Running {
    /// A program of the page with this number. Page 0 has the first 256 bytes of the chip.
    Program(u32),
    /// An erase, given by its first address and its length in bytes.
    Erase(u32, u32),
    /// A status write. The fields are the non-volatile bits from before the write: status 1 / 4 and status 2 % 128.
    StatusWrite(u8, u8),
    Unknown,
}

//! The replies of a programmer to its identification, and the reasons why a programmer cannot be used.
ghost use Rattle.std.specs.Prelude.{◌≡◌, ◌≤◌};

use crate::Failure;
use thiserror::Error;

/// The reason why a programmer cannot be used. `C` is the type for the cause of a failure of the port.
#[derive(Debug, Drop, Error)]
#[error_bound(C: std::fmt::Display)]
pub enum HandshakeFault<C> {
    #[error("{0}")]
    Failure(Failure<C>),
    #[error("the programmer speaks version {0} of serprog, and only version 1 is known")]
    Version(u16),
    /// The programmer lacks the command with this opcode: O_SPIOP (13h), S_SPI_FREQ (14h) if a clock was requested, or
    /// S_SPI_CS (16h) for `select_chip`.
    #[error("the programmer lacks command {0:02X}h, which is needed here")]
    Lacks(u8),
    /// The programmer doesn't support SPI, or it supports other types of bus, too, but lacks S_BUSTYPE, which selects
    /// one. The value lists the programmer's types of bus as flags: 1 parallel, 2 LPC, 4 FWH, 8 SPI.
    #[error("the programmer cannot be set to SPI: its types of bus are {0:02X}h")]
    NotSpi(u8),
    /// An O_SPIOP may send at most this number of bytes: fewer than 260, or for `AnyProgrammer` fewer than 5.
    #[error("the programmer sends at most {0} bytes in a transaction, too few for a page program")]
    WriteLimit(u32),
    /// An O_SPIOP may read at most this number of bytes, fewer than the 4,096 of a sector.
    #[error("the programmer reads at most {0} bytes in a transaction, and a sector needs 4096")]
    ReadLimit(u32),
    /// The programmer lacks Q_WRNMAXLEN, and its serial buffer, of this size in bytes, is too small for the frame of a
    /// page program (267 bytes) or, for `AnyProgrammer`, for the frame of a program of one byte (12 bytes).
    #[error("the serial buffer of the programmer has {0} bytes, too few for a page program")]
    SmallBuffer(u16),
}

/// The replies of a programmer to its identification. A transaction can send at least 5 bytes and read at least 1 byte;
/// use a `SplittingBus` (nor_buses) if a transaction cannot send a page program or read a sector.
#[derive(Clone, Copy, Debug, PartialEq, Eq)]
pub struct AnyProgrammer {
    pub(crate) name: [u8; 16],
    pub(crate) longest_write: u32,
    pub(crate) longest_read: u32,
    pub(crate) longest_part: u32,
    pub(crate) serial_buffer: u16,
    pub(crate) frequency: Option<u32>,
    pub(crate) selects: bool,
    ghost parts: { 5 ≤ longest_part },
    ghost reads: { 1 ≤ longest_read },
}

/// The replies of a programmer to its identification, if its transactions can send a page program and read a sector.
#[derive(Clone, Copy, Debug, PartialEq, Eq)]
pub struct Programmer {
    pub(crate) reported: AnyProgrammer,
    ghost writes: { 260 ≤ reported.longest_write },
    ghost reads: { 4096 ≤ reported.longest_read },
}

// The least limits that are accepted, in bytes: of a transaction (`write`, `read`) and of the serial buffer (`frame`).
#[derive(Clone, Copy)]
pub(crate) struct Least {
    pub(crate) write: u32,
    pub(crate) read: u32,
    pub(crate) frame: u16,
}

impl AnyProgrammer {
    /// Returns the name of the programmer, 16 bytes padded with zeros; all zeros if the programmer lacks Q_PGMNAME.
    pub fn name(&self) -> [u8; 16]
        ensures { result ≡ self.now.name }
    {
        self.name
    }

    /// Returns the greatest number of bytes that a transaction may send by Q_WRNMAXLEN, or 2^24 without a limit. The
    /// serial buffer may require fewer bytes (`longest_part`).
    pub fn longest_write(&self) -> u32
        ensures { result ≡ self.now.longest_write }
    {
        self.longest_write
    }

    /// Returns the greatest number of bytes that a transaction may send, at least 5. If the programmer has Q_SERBUF but
    /// lacks Q_WRNMAXLEN, the frame of the transaction must also fit into the serial buffer.
    pub fn longest_part(&self) -> u32
        ensures value { result ≡ self.now.longest_part }
        ensures enough { 5 ≤ result }
    {
        self.longest_part
    }

    /// Returns the greatest number of bytes that a transaction may read, at least 1, or 2^24 without a limit.
    pub fn longest_read(&self) -> u32
        ensures value { result ≡ self.now.longest_read }
        ensures enough { 1 ≤ result }
    {
        self.longest_read
    }

    /// Returns the size of the serial buffer in bytes (Q_SERBUF), or 0 if the programmer lacks the query.
    pub fn serial_buffer(&self) -> u16
        ensures { result ≡ self.now.serial_buffer }
    {
        self.serial_buffer
    }

    /// Returns the clock in hertz that the programmer set, or `None` if no clock was requested.
    pub fn frequency(&self) -> Option<u32>
        ensures { result ≡ self.now.frequency }
    {
        self.frequency
    }
}

impl Programmer {
    ghost use Rattle.nor_serprog.specs.Programmer.{programmer_name, writes_most, reads_most, buffer_of, frequency_of};

    /// Returns the name of the programmer, 16 bytes padded with zeros; all zeros if the programmer lacks Q_PGMNAME.
    pub fn name(&self) -> [u8; 16]
        ensures { result ≡ programmer_name self.now }
    {
        self.reported.name
    }

    /// Returns these replies as an `AnyProgrammer`.
    pub fn reported(&self) -> &AnyProgrammer
        ensures { result.now ≡ self.now.reported }
    {
        &self.reported
    }

    /// Returns the greatest number of bytes that a transaction may send by Q_WRNMAXLEN, at least 260, or 2^24 without a
    /// limit. The serial buffer may require fewer bytes (`AnyProgrammer::longest_part`).
    pub fn longest_write(&self) -> u32
        ensures value { result ≡ writes_most self.now }
        ensures enough { 260 ≤ result }
    {
        self.reported.longest_write
    }

    /// Returns the greatest number of bytes that a transaction may read, at least 4,096, or 2^24 without a limit.
    pub fn longest_read(&self) -> u32
        ensures value { result ≡ reads_most self.now }
        ensures enough { 4096 ≤ result }
    {
        self.reported.longest_read
    }

    /// Returns the size of the serial buffer in bytes (Q_SERBUF), or 0 if the programmer lacks the query.
    pub fn serial_buffer(&self) -> u16
        ensures { result ≡ buffer_of self.now }
    {
        self.reported.serial_buffer
    }

    /// Returns the clock in hertz that the programmer set, or `None` if no clock was requested.
    pub fn frequency(&self) -> Option<u32>
        ensures { result ≡ frequency_of self.now }
    {
        self.reported.frequency
    }
}

//! The faults that end a case.

use hex::FromHexError;
use nor_chip::{Stopped, WrongLength};
use std::alloc::{AllocError, AllocFailed};
use std::num::ParseIntError;

#[derive(Clone, Copy)]
pub enum Fault {
    /// The line can't be parsed, a value in it isn't allowed, or the case has no steps.
    Unread,
    /// The actual value, which is in `came`, isn't the expected one.
    Differs,
    /// The bus stopped a transaction that it must carry out.
    Stopped,
    /// The bus carried out a transaction that it must stop.
    Replied,
    Lost,
    Memory,
}

impl Fault {
    /// Returns the text that is printed for this fault. For `Differs` the actual value follows it.
    pub fn text(self) -> &'static str {
        match self {
            Fault::Unread => "can't be read",
            Fault::Differs => "came ",
            Fault::Stopped => "the bus stopped",
            Fault::Replied => "the bus did not stop",
            Fault::Lost => "a line of the trace is lost",
            Fault::Memory => "out of memory",
        }
    }
}

#[derive(Clone, Copy)]
pub struct LineFault {
    pub line: usize,
    pub fault: Fault,
}

impl From<ParseIntError> for Fault {
    fn from(_: ParseIntError) -> Fault {
        Fault::Unread
    }
}

impl From<FromHexError> for Fault {
    fn from(error: FromHexError) -> Fault {
        match error {
            FromHexError::OutOfMemory => Fault::Memory,
            _ => Fault::Unread,
        }
    }
}

impl From<WrongLength> for Fault {
    fn from(_: WrongLength) -> Fault {
        Fault::Unread
    }
}

impl From<AllocError> for Fault {
    fn from(_: AllocError) -> Fault {
        Fault::Memory
    }
}

impl<T: Drop> From<AllocFailed<T>> for Fault {
    fn from(_: AllocFailed<T>) -> Fault {
        Fault::Memory
    }
}

//! Faults. A fault in a case ends the cases of its seed, and any other fault ends the program.

use nor_chip::WrongLength;
use nor_journal::JournalFault;
use nor_layout::LayoutFault;
use std::alloc::{AllocError, AllocFailed};
use std::io;

#[derive(Debug, Drop)]
pub enum Fault {
    System(io::Error),
    Memory,
    /// A case can't be drawn or set up, or doesn't have what the reference implementation or `wrongs.rt` needs.
    Case,
    /// Something isn't as the test expects. The text says what.
    Differs(&'static str),
    /// The trace of the named call differs from the expected one, first in the line with this number, counted from 1.
    Sends(&'static str, u64),
    /// A comparison did not report the planted error that the text names, or reported another one.
    Untold(&'static str),
}

pub fn agree(agrees: bool, what: &'static str) -> Result<(), Fault> {
    if agrees {
        Ok(())
    } else {
        Err(Fault::Differs(what))
    }
}

/// Returns `Differs` for the first comparison that is false. A list is proved faster than several calls of `agree`.
pub fn agree_all(things: &[(bool, &'static str)]) -> Result<(), Fault> {
    for (agrees, what) in things {
        if !*agrees {
            return Err(Fault::Differs(*what));
        }
    }
    Ok(())
}

impl From<io::Error> for Fault {
    fn from(error: io::Error) -> Fault {
        Fault::System(error)
    }
}

impl From<AllocError> for Fault {
    fn from(_: AllocError) -> Fault {
        Fault::Memory
    }
}

impl<T: Drop> From<AllocFailed<T>> for Fault {
    fn from(_: AllocFailed<T>) -> Fault {
        Fault::Memory
    }
}

impl From<WrongLength> for Fault {
    fn from(_: WrongLength) -> Fault {
        Fault::Case
    }
}

impl From<LayoutFault> for Fault {
    fn from(_: LayoutFault) -> Fault {
        Fault::Case
    }
}

impl From<JournalFault> for Fault {
    fn from(_: JournalFault) -> Fault {
        Fault::Differs("the vault holds a journal")
    }
}

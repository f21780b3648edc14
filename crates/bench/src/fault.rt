//! The errors that end a run of the program.

use nor_chip::{Stopped, WrongLength};
use nor_driver::OperationError;
use nor_journal::{JournalFault, VaultFault};
use nor_session::Refusal;
use std::alloc::AllocError;
use std::io;

#[derive(Debug, Drop)]
pub enum Fault {
    /// The arguments or the clock can't be read, or a line can't be printed.
    System(io::Error),
    Memory,
    /// The simulated chip can't be created, its bus stopped, or a wait for the chip timed out.
    Chip,
    Vault(VaultFault),
    Journal(JournalFault),
    Refused(Refusal),
}

impl From<io::Error> for Fault {
    fn from(error: io::Error) -> Fault {
        Fault::System(error)
    }
}

impl From<AllocError> for Fault {
    fn from(_: AllocError) -> Fault {
        Fault::Memory
    }
}

impl From<WrongLength> for Fault {
    fn from(_: WrongLength) -> Fault {
        Fault::Chip
    }
}

impl From<Stopped> for Fault {
    fn from(_: Stopped) -> Fault {
        Fault::Chip
    }
}

impl From<OperationError> for Fault {
    fn from(_: OperationError) -> Fault {
        Fault::Chip
    }
}

impl From<VaultFault> for Fault {
    fn from(fault: VaultFault) -> Fault {
        Fault::Vault(fault)
    }
}

impl From<JournalFault> for Fault {
    fn from(fault: JournalFault) -> Fault {
        Fault::Journal(fault)
    }
}

impl From<Refusal> for Fault {
    fn from(refusal: Refusal) -> Fault {
        Fault::Refused(refusal)
    }
}

//! The errors of calls, with their numbers and texts.
ghost use Rattle.std.specs.Prelude.{◌≡◌, ◌↔◌, IsTrue, Some};
ghost use Rattle.nor_request.specs.declared.refusal.Refusal.TheVariants as Refusals;
ghost use Rattle.nor_request.specs.Refusal.{of_probe, of_operation};

use nor_driver::OperationError;
use nor_journal::{JournalFault, VaultFault};
use nor_model::Stopped;
use nor_probe::{ProbeFault, SfdpFault};
use std::error::Error;
use std::fmt;

/// The error of a failed call. On a modelled bus, if none of errors 11 to 13 occurs, a session returns the lowest of
/// errors 1 to 10 that applies, if any.
#[derive(Clone, Copy, Debug, PartialEq, Eq)]
pub enum Refusal {
    /// 1: the ID reads `FF FF FF` or `00 00 00`, as it does if nothing drives the bus.
    NoChip,
    /// 2: no row of the table of chips applies to the ID, and the chip's SFDP is refused for the given reason.
    UnknownChip(SfdpFault),
    /// 3: the name of the chip isn't the requested one.
    OtherName,
    /// 4: the image and the chip have different lengths. `chip` and `image` are the two lengths in bytes.
    ImageSize { chip: u32, image: usize },
    /// 5: an included address isn't on the chip.
    RegionOutside,
    /// 6: the chip has no block protection, but the call needs block protection.
    NoProtection,
    /// 7: the chip has block protection, and the datasheets don't define which range its protection bits select.
    UndefinedProtection,
    /// 8: no value that the datasheets define for the protection bits protects exactly the requested range.
    RangeNotOffered,
    /// 9: the status registers must be written, but SRP0 or SRP1 is set, so they count as locked.
    StatusLocked,
    /// 10: a touched sector has a protected address, and `unlock` isn't set. The first such sector is at `address`.
    Protected { address: u32 },
    /// 11: the vault refused a piece of the journal, or it refused to be sealed.
    Vault,
    /// 12: the bus stopped.
    Stopped,
    /// 13: 65,536 polls in a row showed BUSY. `address` is that of the operation before them (0 if there is none).
    Timeout { address: u32 },
    /// 14: bytes that were read differ from the expected ones. `address` is the first address at which they differ.
    Mismatch { address: u32 },
    /// 15: the given bytes aren't a journal, for the given reason.
    BadJournal(JournalFault),
    /// 16: the chip's ID or size differs from the journal's.
    OtherChip,
    /// 17: a non-volatile status bit differs from the journal's. (Protection bits count only without block protection.)
    StatusDiffers,
    /// 18: memory ran out.
    Memory,
    /// 19: the output failed after `written` bytes had been written.
    Output { written: u64 },
    /// 20: the chip's unique ID differs from the journal's, so the chip is another device.
    OtherUnit,
}

impl Refusal {
    ghost use Rattle.nor_request.specs.Refusal.{refusal_number};

    /// Returns the number of the error, from 1 to 20, which messages print.
    pub fn number(self) -> u8
        ensures { result ≡ refusal_number self }
    {
        match self {
            Refusal::NoChip => 1,
            Refusal::UnknownChip(_) => 2,
            Refusal::OtherName => 3,
            Refusal::ImageSize { .. } => 4,
            Refusal::RegionOutside => 5,
            Refusal::NoProtection => 6,
            Refusal::UndefinedProtection => 7,
            Refusal::RangeNotOffered => 8,
            Refusal::StatusLocked => 9,
            Refusal::Protected { .. } => 10,
            Refusal::Vault => 11,
            Refusal::Stopped => 12,
            Refusal::Timeout { .. } => 13,
            Refusal::Mismatch { .. } => 14,
            Refusal::BadJournal(_) => 15,
            Refusal::OtherChip => 16,
            Refusal::StatusDiffers => 17,
            Refusal::Memory => 18,
            Refusal::Output { .. } => 19,
            Refusal::OtherUnit => 20,
        }
    }

    pub fn is_stopped(self) -> bool
        ensures { IsTrue result ↔ (self ≡ Refusals.Stopped) }
    {
        matches!(self, Refusal::Stopped)
    }
}

// `Display` is implemented by hand, because a `Display` made by `derive(Error)` has no contract.
impl fmt::Display for Refusal {
    ghost use Rattle.nor_request.specs.Texts.{refusal_text};

    ghost output = { λ refusal. Some (refusal_text refusal) };

    #[tactic(auto, using(crate::proofs::Printed::padded_hex))]
    fn fmt<W: fmt::Write>(&self, f: &mut fmt::Formatter<W>) -> fmt::Result {
        match self {
            Refusal::NoChip => f.write_str("no chip"),
            Refusal::UnknownChip(fault) => write!(f, "unknown chip, SFDP fault {}", fault.number()),
            Refusal::OtherName => f.write_str("another chip than named"),
            Refusal::ImageSize { chip, image } => {
                write!(f, "image of {image} bytes, chip of {chip} bytes")
            }
            Refusal::RegionOutside => f.write_str("region outside the chip"),
            Refusal::NoProtection => f.write_str("no protection on this chip"),
            Refusal::UndefinedProtection => f.write_str("undefined protection"),
            Refusal::RangeNotOffered => f.write_str("range not offered"),
            Refusal::StatusLocked => f.write_str("status locked"),
            Refusal::Protected { address } => write!(f, "protected at 0x{address:06x}"),
            Refusal::Vault => f.write_str("journal not written"),
            Refusal::Stopped => f.write_str("stopped"),
            Refusal::Timeout { address } => write!(f, "timeout at 0x{address:06x}"),
            Refusal::Mismatch { address } => write!(f, "bytes differ at 0x{address:06x}"),
            Refusal::BadJournal(fault) => write!(f, "journal fault {}", fault.number()),
            Refusal::OtherChip => f.write_str("another chip than the journal's"),
            Refusal::StatusDiffers => f.write_str("status differs from the journal's"),
            Refusal::Memory => f.write_str("out of memory"),
            Refusal::Output { written } => write!(f, "output failed after {written} bytes"),
            Refusal::OtherUnit => f.write_str("another unit than the journal's"),
        }
    }
}

impl Error for Refusal {}

impl From<ProbeFault> for Refusal {
    ghost from_gives = { λ fault refusal. refusal ≡ of_probe fault };

    fn from(fault: ProbeFault) -> Refusal {
        match fault {
            ProbeFault::NoChip => Refusal::NoChip,
            ProbeFault::UnknownChip(fault) => Refusal::UnknownChip(fault),
            ProbeFault::OtherName => Refusal::OtherName,
            ProbeFault::Stopped => Refusal::Stopped,
            ProbeFault::Timeout => Refusal::Timeout { address: 0 },
        }
    }
}

impl From<OperationError> for Refusal {
    ghost from_gives = { λ error refusal. refusal ≡ of_operation error };

    fn from(error: OperationError) -> Refusal {
        match error {
            OperationError::Stopped => Refusal::Stopped,
            OperationError::Timeout { address } => Refusal::Timeout { address },
        }
    }
}

impl From<Stopped> for Refusal {
    ghost from_gives = { λ _ refusal. refusal ≡ Refusals.Stopped };

    fn from(_: Stopped) -> Refusal {
        Refusal::Stopped
    }
}

impl From<VaultFault> for Refusal {
    ghost from_gives = { λ _ refusal. refusal ≡ Refusals.Vault };

    fn from(_: VaultFault) -> Refusal {
        Refusal::Vault
    }
}

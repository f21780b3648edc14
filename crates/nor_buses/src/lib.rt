//! Buses that wrap another bus to the same chip, the *bus inside*. Each of them passes transactions on to that bus and
//! adds a feature, for example pauses or second reads. The program `flashnor-serprog` uses these buses; the program
//! `flashnor` does not.
//!
//! In contracts, the chip of each of these buses is that of the bus inside. The transactions that may modify the chip
//! (`sent`) and the result of the last poll (`polled_ready`) are those of the wrapping bus's own history, except for
//! `Accounted`, `Paced`, `ReadAhead` and `ReadTwice`, which have those of the bus inside. What was passed on (`passed`)
//! is that of the bus inside.
#![tactic(auto)]

mod accounted;
mod again;
mod ahead;
mod chip_ids;
mod counts;
mod kept_quad;
mod known;
mod known_status2;
mod layers;
mod other_makers;
mod paced;
mod parts;
mod same_chip;
mod splitting;
mod status;
mod twice;
mod watched;

pub use accounted::Accounted;
pub use ahead::ReadAhead;
pub use chip_ids::ChipIds;
pub use counts::ChangedByte;
pub use kept_quad::KeptQuad;
pub use known::CheckFault;
pub use known_status2::KnownStatus2;
pub use layers::{Layered, layers_are_well_behaved};
pub use other_makers::OtherMakers;
pub use paced::Paced;
pub use same_chip::{OtherChip, SameChip};
pub use splitting::SplittingBus;
pub use status::CheckedStatus;
pub use twice::ReadTwice;
pub use watched::Watched;

//! Identifies the chip on a bus: by the row that applies to its ID or, if no row applies, by the chip's SFDP (JESD216).
//! The crate sends only polls and reads of the ID and SFDP.
//!
//! ```rust
//! use nor_chip::{Config, Delays, Meter, SimBus};
//! use nor_probe::{ChipName, ProbeFault, probe};
//!
//! let idle = Delays { now: 0, each: 0 };
//! let erased = vec![in rt.alloc(); 0xFF; 8_388_608]?;
//! let mut bus = SimBus::new(Config::w25q64fv(), erased, [0x00, 0x00], idle)?;
//! bus.allow(u64::MAX);
//!
//! let found = probe(&mut bus, None)?;
//! assert_eq!(rt; (found.id, found.size), ([0xEF, 0x40, 0x17], 8_388_608));
//! let other = ChipName::of("W25Q128FV");
//! assert_eq!(rt; probe(&mut bus, Some(other)), Err(ProbeFault::OtherName));
//! ```
#![tactic(auto)]

mod laws;
mod probes;
mod sfdp;
mod table;

pub use laws::emulated_are_known;
pub use nor_model::Kinds;
pub use probes::{Found, ProbeFault, Probed, probe, probe_counted};
pub use sfdp::{Geometry, SfdpFault, read_sfdp};
pub use table::{ChipName, Part, chips, emulated_part, part_for, part_of};

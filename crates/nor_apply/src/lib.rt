//! Makes the changes of a session or restore to a flash chip, in this order: clears the protection bits if requested,
//! erases, programs, and writes the protection bits if they still differ from the target bits.
//!
//! ```rust
//! ghost use Rattle.std.specs.Prelude.{◌%◌, true, slice_index};
//!
//! use nor_apply::{Changes, Source, apply};
//! use nor_chip::{Config, Delays, Meter, SimBus, Status};
//! use nor_plan::SectorSet;
//!
//! // Each sector is to have these bytes.
//! #[derive(Drop)]
//! struct Same([u8; 4096]);
//!
//! impl Source for Same {
//!     ghost has = { λ _ _. true };
//!
//!     ghost wanted = { λ same a. slice_index same.0 (a % 4096) };
//!
//!     fn sector(&self, _sector: u32) -> &[u8; 4096] {
//!         &self.0
//!     }
//! }
//!
//! let idle = Delays { now: 0, each: 0 };
//! let erased = vec![in rt.alloc(); 0xFF; 65536]?;
//! let mut bus = SimBus::new(Config::tiny64(), erased, [0x00, 0x00], idle)?;
//! bus.allow(u64::MAX);
//!
//! let mut touched = SectorSet::new();
//! touched.insert(3);
//! let changes = Changes {
//!     touched,
//!     raised: SectorSet::new(),
//!     kinds: Config::tiny64().kinds,
//!     size: 65536,
//!     status: Status::of([0x00, 0x00]),
//!     unlock: false,
//!     code: 0,
//! };
//! let work = apply(&mut bus, &Same([0x5A; 4096]), &changes)?;
//! assert_eq!(rt; (work.erases, work.programs), (0, 16));
//! assert_eq!(rt; (bus.bytes()[0x2FFF], bus.bytes()[0x3000]), (0xFF, 0x5A));
//! ```
#![tactic(auto)]

mod changes;
mod erases;
mod programs;
mod source;
mod tally;

pub use changes::{Changes, Work, apply};
pub use source::Source;

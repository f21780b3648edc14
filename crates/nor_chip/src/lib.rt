//! Buses for emulation and tests: a bus to a simulated chip, a bus that logs transactions, and a faulty bus. This
//! crate also exports the items of nor_model, except `is_protected`, `Kinds` and the opcodes.
//!
//! ```rust
//! use nor_chip::{Bus, Config, Delays, Meter, SimBus};
//!
//! let idle = Delays { now: 0, each: 0 };
//! let erased = vec![in rt.alloc(); 0xFF; 65536]?;
//! let mut bus = SimBus::new(Config::tiny64(), erased, [0x00, 0x00], idle)?;
//! bus.allow(1);
//! let mut id = [0; 3];
//! bus.transfer(&[0x9F], &mut id)?;
//! assert_eq!(rt; id, [0xFE, 0x10, 0x10]);
//! ```
#![tactic(auto)]

mod sim;
mod spoilt;
mod trace;

pub use nor_geometry::{MOST_SECTORS, SECTOR_LEN};
pub use nor_model::{
    ALL_KINDS, Bus, Command, Config, History, Meter, Offered, Running, Status, Status1, Status2,
    Stopped, TINY64_SFDP, code_for, is_changing, offered, protected, protected_range,
    unit_protected,
};
pub use sim::{Delays, SimBus, WrongLength};
pub use spoilt::{Spoil, SpoiltBus};
pub use trace::TraceBus;

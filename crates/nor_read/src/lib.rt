//! Calls that only read a flash chip: they copy its bytes, compare them with an image, and report its block protection.
//! They send no modifying command. They allocate no memory, but the bus or the vault of `read_out` may allocate.
//!
//! ```rust
//! use nor_chip::{Config, Delays, Meter, SimBus};
//! use nor_journal::MemVault;
//! use nor_read::{read_out, verify};
//!
//! let idle = Delays { now: 0, each: 0 };
//! let erased = vec![in rt.alloc(); 0xFF; 65536]?;
//! let mut bus = SimBus::new(Config::tiny64(), erased, [0x00, 0x00], idle)?;
//! bus.allow(u64::MAX);
//!
//! let mut out = MemVault::new(rt.alloc());
//! let report = read_out(&mut bus, None, None, &mut out)?;
//! assert_eq!(rt; (out.bytes().len(), report.transactions), (65536, 21));
//! assert!(rt; verify(&mut bus, out.bytes(), None, None).is_ok());
//! ```
//!
//! `specs/Reading.antt`, `specs/Verifying.antt` and `specs/Protecting.antt` define what each call promises and what its
//! own errors mean. `specs/Finding.antt` defines the meaning of the errors that all calls share.
#![tactic(auto)]

mod finding;
mod protection;
mod reading;
mod verifying;

pub use protection::{Protection, wp_status};
pub use reading::read_out;
pub use verifying::verify;

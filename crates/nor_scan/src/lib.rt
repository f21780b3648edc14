//! The part of a session before the first modifying command: identifies the chip, checks the request, scans the
//! sectors of the request, and saves the touched ones in the journal. `save_whole` saves a whole chip, for backups.
//!
//! ```rust
//! use nor_chip::{Config, Delays, Meter, SimBus};
//! use nor_journal::MemVault;
//! use nor_request::Request;
//! use nor_scan::{identify, judge_identity, save};
//!
//! let idle = Delays { now: 0, each: 0 };
//! let erased = vec![in rt.alloc(); 0xFF; 65536]?;
//! let mut bus = SimBus::new(Config::tiny64(), erased, [0x00, 0x00], idle)?;
//! bus.allow(u64::MAX);
//!
//! let mut image = vec![in rt.alloc(); 0xFF; 65536]?;
//! image[0] = 0x5A;
//! let request = Request::write();
//! let mut vault = MemVault::new(rt.alloc());
//! let identity = identify(&mut bus, request.named)?;
//! let code = judge_identity(&request, &identity, image.len())?;
//! let saved = save(&mut bus, &mut vault, &mut image, &request, &identity, code)?;
//! assert!(rt; saved.scanned.touched.contains(0) && !saved.scanned.raised.contains(0));
//! assert!(rt; vault.is_sealed());
//! ```
#![tactic(auto)]

mod identifying;
mod identity;
mod judging;
mod saving;
mod scanning;
mod whole;

pub use identifying::{identify, read_on};
pub use identity::Identity;
pub use judging::{first_protected, judge_identity};
pub use saving::{SavedScan, save};
pub use scanning::Scanned;
pub use whole::save_whole;

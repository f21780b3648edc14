//! The model of an SPI NOR flash chip, and the contract of a bus that carries transactions to the chip.
//!
//! ```rust
//! use nor_model::{Config, code_for, protected};
//!
//! let chip = Config::w25q64fv();
//! // If only BP0 is set (status 1 is 04h), the last 128 KiB are protected.
//! assert_eq!(rt; code_for(0x7E0000, 0x20000, chip.size), Some(1));
//! assert!(rt; protected([0x04, 0x00], chip.size, 0x7E0000));
//! assert!(rt; !protected([0x04, 0x00], chip.size, 0x7DFFFF));
//! ```
#![tactic(auto)]

pub mod bits;
mod bus;
mod command;
mod config;
mod guard;
mod history;
pub mod opcodes;
mod running;
mod status;

pub use bus::{Bus, Meter, Stopped};
pub use command::{Command, is_changing};
pub use config::{ALL_KINDS, Config, Kinds, TINY64_SFDP};
pub use guard::walk::Offered;
pub use guard::{code_for, is_protected, offered, protected, protected_range, unit_protected};
pub use history::History;
pub use running::Running;
pub use status::{Status, Status1, Status2};

//! Sends commands to a flash chip, over any bus. A function for an operation (program, erase or status write) sends a
//! write enable and the command, and waits until the chip is ready.
//!
//! ```rust
//! use nor_chip::{Config, Delays, Meter, SimBus};
//! use nor_driver::{program_page, read_id, read_sector, wait};
//!
//! let idle = Delays { now: 0, each: 0 };
//! let erased = vec![in rt.alloc(); 0xFF; 65536]?;
//! let mut bus = SimBus::new(Config::tiny64(), erased, [0x00, 0x00], idle)?;
//! bus.allow(u64::MAX);
//!
//! assert_eq!(rt; wait(&mut bus, 0)?.polls, 1);
//! assert_eq!(rt; read_id(&mut bus)?, [0xFE, 0x10, 0x10]);
//! assert_eq!(rt; program_page(&mut bus, 0x100, &[0xA5])?, 3);
//! let mut sector = [0; 4096];
//! read_sector(&mut bus, 0, &mut sector)?;
//! assert_eq!(rt; sector[0x100], 0xA5);
//! ```
#![tactic(auto)]

mod operations;
mod reads;
mod units;
mod waits;

pub use operations::{erase, program_page, write_status};
pub use reads::{read_id, read_parameters, read_sector, read_status2, read_unique};
pub use units::{Erase, EraseBlock};
pub use waits::{OperationError, Waited, poll, wait};

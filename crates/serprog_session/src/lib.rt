//! Sessions, restores and backups of a chip at a serial programmer that speaks serprog. `specs/Headline.antt` states
//! their promises, for the programmer's chip and for a port that may fail at any call.
//!
//! ```rust
//! use nor_chip::{Config, Delays, SimBus};
//! use nor_journal::{Journal, MemVault};
//! use nor_serprog::{Link, Programmer, SerprogBus};
//! use nor_session::Request;
//! use serprog_session::{SimPort, restore_over, session_over};
//!
//! let idle = Delays { now: 0, each: 0 };
//! let before = vec![in rt.alloc(); 0xFF; 65536]?;
//! let chip = SimBus::new(Config::tiny64(), before.clone()?, [0x00, 0x00], idle)?;
//! let mut link = Link::new(SimPort::new(chip, u64::MAX));
//! let programmer = Programmer::identify(&mut link, None)?;
//! assert!(rt; link.port().is_idle());
//! let mut bus = SerprogBus::new(link, programmer, false);
//!
//! let mut image = before.clone()?;
//! image[0] = 0x5A;
//! let wanted = image.clone()?; // `session_over` may overwrite `image`
//! let mut vault = MemVault::new(rt.alloc());
//! session_over(&mut bus, &mut vault, &mut image, &Request::write())?;
//! assert_eq!(rt; bus.port().chip().bytes(), wanted.as_slice());
//! restore_over(&mut bus, &Journal::read(vault.bytes())?)?;
//! assert_eq!(rt; bus.port().chip().bytes(), before.as_slice());
//! ```
//!
//! - `calls.rt`, `laws.rt`: the calls over a `SerprogBus`, and laws (theorems) about what happens between them
//! - `sim_port.rt`: a simulated port to a simulated programmer with a simulated chip
//! - `padded_reads.rt`: replies of this chip that the model leaves open
//! - `stack.rt`, `stacked.rt`: the layers of nor_buses over a `BatchingBus`, and the calls over these layers
#![tactic(auto)]

mod calls;
mod laws;
mod padded_reads;
mod sim_port;
mod stack;
mod stacked;

pub use calls::{backup_over, restore_over, rewrite_over, session_over};
pub use laws::{disconnected_restores_chip, read_restores_chip};
pub use sim_port::{SimFailure, SimPort};
pub use stack::{Stack, stack_is_well_behaved};
pub use stacked::{
    backup_over_layers, restore_over_layers, rewrite_over_layers, session_over_layers,
};

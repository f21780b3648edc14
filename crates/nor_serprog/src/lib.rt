//! Buses to a SPI NOR chip at a serial programmer that speaks serprog, version 1, over any port. The program
//! `flashnor-serprog` uses this crate; the program `flashnor` does not.
//!
//! - `command.rt`: commands as bytes (frames), and the first byte of a reply
//! - `port.rt`, `wire.rt`: the contract of a port to a programmer, and the record of its calls, for contracts only
//! - `link.rt`, `skipping.rt`: exchanges of a frame and its reply, and synchronization
//! - `identification.rt`, `handshake.rt`, `programmer.rt`: identification of a programmer, its steps and results
//! - `bus.rt`: a bus that carries out each transaction with one O_SPIOP
//! - `batching.rt`, `batch.rt`: a bus that can send a write enable together with the page program that it enables
#![tactic(auto)]

mod batch;
mod batching;
mod bus;
mod command;
mod handshake;
mod identification;
mod link;
mod port;
mod programmer;
mod skipping;
mod wire;

pub use batching::BatchingBus;
pub use bus::SerprogBus;
pub use command::{Answer, Command, Frame, LONGEST_OUT, TooLong, frame_len};
pub use link::{Failure, Link, Sync};
pub use port::Port;
pub use programmer::{AnyProgrammer, HandshakeFault, Programmer};
pub use wire::Wire;

//! A chip on a board at a programmer that speaks serprog, over any port: how a program connects to it, and the bus to it.
//!
//! `connect_over` takes a port over which nothing was sent yet. If the port is well-behaved and its programmer idle, the
//! bus has the chip as it was (`specs/Reached.antt`). Jobs need only the traits of `board.rt`, which say nothing about
//! serprog's commands.
#![tactic(auto)]

mod board;
mod board_bus;
mod carrier;
mod connect;
mod contact;
mod long_frames;
mod overlaps;
mod port_fault;
mod programmer_fault;
mod reaching;
mod reader;
mod rules;
mod setting;
mod transactions;
mod trial_reads;
mod waking;
mod wrong_setting;

pub use board::{Board, Causes, ChipBus, Connector, Unconnected, board_in};
pub use board_bus::{BoardBus, Layers};
pub use connect::connect_over;
pub use port_fault::PortFault;
pub use programmer_fault::{FailureText, ProgrammerFault, ProgrammerLine};
pub use rules::{Checks, Rules};
pub use setting::{Setting, WrongSetting};

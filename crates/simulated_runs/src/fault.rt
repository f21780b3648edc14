//! The errors that end a simulation.

use nor_chip::WrongLength;
use std::alloc::AllocError;
use std::io;
use thiserror::Error;

#[derive(Debug, Drop, Error)]
pub enum Fault {
    #[error("the arguments are wrong")]
    Usage,
    #[error("the file of the chip has no simulated chip's length")]
    Length,
    #[error(transparent)]
    Chip(#[from] WrongLength),
    #[error(transparent)]
    System(#[from] io::Error),
    #[error(transparent)]
    Memory(#[from(alloc)] AllocError),
}

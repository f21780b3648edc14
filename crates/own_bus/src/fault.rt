//! The errors that end a run of the example.

use nor_chip::WrongLength;
use nor_files::CreateFault;
use nor_journal::{JournalFault, VaultFault};
use nor_probe::ProbeFault;
use nor_serprog::HandshakeFault;
use nor_session::Refusal;
use std::alloc::AllocError;
use std::io;
use thiserror::Error;

#[derive(Debug, Drop, Error)]
pub enum Fault {
    #[error("the name refers to no character device")]
    NoDevice,
    #[error("another program has locked the device")]
    InUse,
    #[error("no programmer: {0}")]
    Programmer(#[from] HandshakeFault<io::Error>),
    #[error("no chip is found: {0}")]
    Probe(#[from] ProbeFault),
    #[error("a call refused: {0}")]
    Refused(#[from] Refusal),
    #[error("no new file: {0}")]
    NewFile(#[from] CreateFault),
    #[error("the vault refused: {0}")]
    Vault(#[from] VaultFault),
    #[error("no journal: {0}")]
    Journal(#[from] JournalFault),
    #[error(transparent)]
    Chip(#[from] WrongLength),
    #[error(transparent)]
    System(#[from] io::Error),
    #[error(transparent)]
    Memory(#[from(alloc)] AllocError),
}

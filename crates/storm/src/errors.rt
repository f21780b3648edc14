//! Why a call over a faulty bus does not succeed.

use crate::fault::Fault;
use nor_session::Refusal;
use std::alloc::{AllocError, AllocFailed};

/// The error that a call must return, or a fault of the test.
#[derive(Drop)]
pub enum CallError {
    Refused(Refusal),
    Failed(Fault),
}

impl From<Fault> for CallError {
    fn from(fault: Fault) -> CallError {
        CallError::Failed(fault)
    }
}

impl From<AllocError> for CallError {
    fn from(_: AllocError) -> CallError {
        CallError::Failed(Fault::Memory)
    }
}

impl<T: Drop> From<AllocFailed<T>> for CallError {
    fn from(_: AllocFailed<T>) -> CallError {
        CallError::Failed(Fault::Memory)
    }
}

pub fn refuse(refusal: Option<Refusal>) -> Result<(), CallError> {
    match refusal {
        Some(refusal) => Err(CallError::Refused(refusal)),
        None => Ok(()),
    }
}

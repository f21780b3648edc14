//! Locks on files, so that no run changes a file that another run has locked.

use std::fs::{File, TryLockError};
use std::io;
use std::io::ErrorKind;

/// A file that can be locked against other runs until it is closed. On a file system without locks, both methods lock
/// nothing and return true.
pub trait LockFile {
    /// Locks the file exclusively, without waiting. Returns false if another process has locked it.
    fn lock_alone(&self) -> io::Result<bool>;

    /// Locks the file for reading, without waiting. Returns false if another process has locked it exclusively.
    fn lock_shared(&self) -> io::Result<bool>;
}

impl LockFile for File {
    fn lock_alone(&self) -> io::Result<bool> {
        is_locked(self.try_lock())
    }

    fn lock_shared(&self) -> io::Result<bool> {
        is_locked(self.try_lock_shared())
    }
}

fn is_locked(outcome: Result<(), TryLockError>) -> io::Result<bool> {
    match outcome {
        Ok(()) => Ok(true),
        Err(TryLockError::WouldBlock) => Ok(false),
        Err(TryLockError::Error(error)) => {
            if has_no_locks(&error) {
                Ok(true)
            } else {
                Err(error)
            }
        }
    }
}

// The number in Linux of the error "no locks available", for which `ErrorKind` has no variant.
const ENOLCK: i32 = 37;

fn has_no_locks(error: &io::Error) -> bool {
    error.kind() == ErrorKind::Unsupported || error.raw_os_error() == Some(ENOLCK)
}

//! The directory and the last part of a file's name, and syncing the directory.

use std::fs::{File, OpenFile};
use std::io;
use std::io::ErrorKind;
use std::path::Path;
use std::rt::Files;

/// Syncs the directory of this file, so that a host crash neither removes a file created in it nor restores a removed
/// one. Succeeds without a sync if the directory is missing, may not be opened for reading, or doesn't support syncs.
pub fn sync_folder<R: Files>(files: &R, name: &str) -> io::Result<()> {
    let folder = match File::open(files, folder_of(name)) {
        Ok(folder) => folder,
        Err(error) if cannot_open(error.kind()) => return Ok(()),
        Err(error) => return Err(error),
    };
    match folder.sync_all() {
        Err(error) if cannot_sync(error.kind()) => Ok(()),
        outcome => outcome,
    }
}

/// Returns the directory of this file, or `.` if its name contains no directory.
pub fn folder_of(name: &str) -> &str {
    match Path::new(name).parent() {
        Some(folder) if !folder.as_str().is_empty() => folder.as_str(),
        _ => ".",
    }
}

pub fn last_of(name: &str) -> Option<&str> {
    Path::new(name).file_name()
}

fn cannot_open(kind: ErrorKind) -> bool {
    matches!(
        kind,
        ErrorKind::NotFound | ErrorKind::NotADirectory | ErrorKind::PermissionDenied
    )
}

fn cannot_sync(kind: ErrorKind) -> bool {
    kind == ErrorKind::InvalidInput || kind == ErrorKind::Unsupported
}

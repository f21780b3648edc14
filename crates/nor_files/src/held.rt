//! The files that `hold`, `share` and `make` of a `Disk` keep open and locked until the `Disk` is dropped.

use crate::identity::is_same;
use crate::locks::LockFile;
use crate::store::LockFault;
use std::alloc::Global;
use std::fs::{Metadata, OpenFile, OpenOptions};
use std::io::{ErrorKind, Seek, Write};
use std::os::unix::fs::MetadataExt;
use std::rt::Files;
use std::{fs, io};

/// The name of a file that the run uses and, unless the file is recorded as missing, the open and locked file.
#[derive(Drop)]
pub struct Held<F> {
    pub name: String,
    pub file: Option<F>,
    /// The length that `check_under` requires, if the run set the file's length and hasn't written to the file since.
    pub len: Option<u64>,
}

/// Opens a file of the chip for reading and writing, and locks it exclusively. A missing file is recorded as missing.
/// Fails if the name refers to anything but a regular file, if the file can't be looked up, opened or locked, or if
/// memory runs out.
pub fn hold_chip<R: Files>(files: &R, alloc: Global, name: &str) -> Result<Held<R::File>, LockFault>
where
    R::File: LockFile,
{
    let owned = own(alloc, name)?;
    let file = if is_there(files, name)? {
        Some(open_alone(files, name)?)
    } else {
        None
    };
    Ok(Held {
        name: owned,
        file,
        len: None,
    })
}

/// Opens a journal that the run reads, and locks it for reading. If the name doesn't refer to a regular file, or can't
/// be looked up, the file is recorded as missing.
pub fn hold_journal<R: Files>(
    files: &R,
    alloc: Global,
    name: &str,
) -> Result<Held<R::File>, LockFault>
where
    R::File: LockFile,
{
    let owned = own(alloc, name)?;
    let file = match fs::metadata(files, name) {
        Ok(metadata) if metadata.is_file() => Some(open_shared(files, name)?),
        _ => None,
    };
    Ok(Held {
        name: owned,
        file,
        len: None,
    })
}

fn own(alloc: Global, name: &str) -> Result<String, LockFault> {
    match String::from_str(alloc, name) {
        Ok(owned) => Ok(owned),
        Err(error) => Err(LockFault::Unread(error.into())),
    }
}

fn is_there<R: Files>(files: &R, name: &str) -> Result<bool, LockFault> {
    match fs::metadata(files, name) {
        Ok(metadata) if metadata.is_file() => Ok(true),
        Ok(metadata) if metadata.is_dir() => {
            Err(LockFault::Unread(ErrorKind::IsADirectory.into()))
        }
        Ok(_) => Err(LockFault::Unheld),
        Err(error) if error.kind() == ErrorKind::NotFound => is_nowhere(files, name),
        Err(error) => Err(LockFault::Unread(error)),
    }
}

fn is_nowhere<R: Files>(files: &R, name: &str) -> Result<bool, LockFault> {
    match fs::symlink_metadata(files, name) {
        Ok(_) => Err(LockFault::Unheld),
        Err(error) if error.kind() == ErrorKind::NotFound => Ok(false),
        Err(error) => Err(LockFault::Unread(error)),
    }
}

fn open_alone<R: Files>(files: &R, name: &str) -> Result<R::File, LockFault>
where
    R::File: LockFile,
{
    let file = open_both(files, name)?;
    match file.metadata() {
        Ok(metadata) if metadata.is_file() => {}
        _ => return Err(LockFault::Unheld),
    }
    match file.lock_alone() {
        Ok(true) => Ok(file),
        Ok(false) => Err(LockFault::Busy),
        Err(_) => Err(LockFault::Unheld),
    }
}

fn open_both<R: Files>(files: &R, name: &str) -> Result<R::File, LockFault> {
    let opened = OpenOptions::new().read(true).write(true).open(files, name);
    match opened {
        Ok(file) => Ok(file),
        Err(_) => match fs::open(files, name) {
            Ok(_) => Err(LockFault::Unheld),
            Err(error) => Err(LockFault::Unread(error)),
        },
    }
}

fn open_shared<R: Files>(files: &R, name: &str) -> Result<R::File, LockFault>
where
    R::File: LockFile,
{
    let file = match fs::open(files, name) {
        Ok(file) => file,
        Err(error) => return Err(LockFault::Unread(error)),
    };
    match file.lock_shared() {
        Ok(true) => Ok(file),
        Ok(false) => Err(LockFault::Busy),
        Err(_) => Err(LockFault::Unheld),
    }
}

pub fn write_from_start<F: Write + Seek>(file: &mut F, bytes: &[u8]) -> io::Result<()> {
    file.rewind()?;
    file.write_all(bytes)
}

/// Syncs an open file, and then checks its name and length (`check_under`). If no file is open, returns `NotFound`.
pub fn sync_under<R: Files>(files: &R, held: &Held<R::File>) -> io::Result<()> {
    let Some(file) = &held.file else {
        return Err(ErrorKind::NotFound.into());
    };
    file.sync_all()?;
    check_under(files, held)
}

/// Checks that the name of an open file still refers to this file, and that the file has the length `len`, if `len` is
/// set. Otherwise, or if no file is open, returns `NotFound`, or the error of the look-up if the look-up fails.
pub fn check_under<R: Files>(files: &R, held: &Held<R::File>) -> io::Result<()> {
    let Some(file) = &held.file else {
        return Err(ErrorKind::NotFound.into());
    };
    let there = fs::metadata(files, held.name.as_str())?;
    if is_same(&there, &file.metadata()?) && there.len() == held.len.unwrap_or(there.len()) {
        Ok(())
    } else {
        Err(ErrorKind::NotFound.into())
    }
}

/// Returns the permissions for a new file: read and write for everyone, except the permissions that any of these open
/// files lacks. A file whose permissions can't be read counts as having 0600.
pub fn mode_beside<F: OpenFile>(held: &[Held<F>]) -> u32 {
    let mut mode = 0o666;
    for held in held {
        let Some(file) = &held.file else {
            continue;
        };
        mode &= mode_of(file.metadata());
    }
    mode
}

fn mode_of(metadata: io::Result<Metadata>) -> u32 {
    match metadata {
        Ok(metadata) => metadata.mode(),
        Err(_) => 0o600,
    }
}

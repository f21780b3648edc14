//! Creating and truncating the system's files, and the files that a log and a vault write to.
ghost use Rattle.std.specs.Io.{WritesAtMost};
ghost use Rattle.std.specs.Io.KnownBytes.{WriteAppends};

use crate::identity::is_same;
use crate::locks::LockFile;
use crate::store::CreateFault;
use nor_journal::{FIRST_MAGIC, MAGIC};
use std::cell::Cell;
use std::fs::{Metadata, OpenFile, OpenOptions};
use std::io::{ErrorKind, Read, Seek, SeekFrom, Write};
use std::os::unix::fs::OpenOptionsExt;
use std::rt::Files;
use std::{fs, io};

/// Creates the named file with the permissions `mode` (limited by the umask), and locks it. The error is `There` if a
/// file or link of this name exists, `Busy` if another process locks the file first, and `Unmade` if the file can't be
/// created or locked.
pub fn make_new<R: Files>(files: &R, name: &str, mode: u32) -> Result<R::File, CreateFault>
where
    R::File: LockFile,
{
    let mut options = OpenOptions::new();
    options.read(true).write(true);
    make_alone(files, name, &mut options, mode)
}

/// Creates and locks the file of `vault_in_new` (errors: see `make_new`). Each write appends to the file. If another
/// program truncates the file, the next write leaves no gap of zero bytes, so `VaultedFile::check` finds the file too
/// short.
pub fn make_journal<R: Files>(files: &R, name: &str, mode: u32) -> Result<R::File, CreateFault>
where
    R::File: LockFile,
{
    let mut options = OpenOptions::new();
    options.read(true).append(true);
    make_alone(files, name, &mut options, mode)
}

fn make_alone<R: Files>(
    files: &R,
    name: &str,
    options: &mut OpenOptions,
    mode: u32,
) -> Result<R::File, CreateFault>
where
    R::File: LockFile,
{
    let file = match options.create_new(true).mode(mode).open(files, name) {
        Ok(file) => file,
        Err(error) if error.kind() == ErrorKind::AlreadyExists => return Err(CreateFault::There),
        Err(error) => return Err(CreateFault::Unmade(error)),
    };
    lock(&file)?;
    Ok(file)
}

/// Creates or truncates the named file, but opens a FIFO, a device or a terminal as it is. Fails if `open_log` fails,
/// or with `Unmade` if the file can't be truncated.
pub fn make_empty<R: Files>(files: &R, name: &str) -> Result<R::File, CreateFault>
where
    R::File: LockFile,
{
    let mut log = open_log(files, name)?;
    match log.empty() {
        Ok(()) => Ok(log.file),
        Err(error) => Err(CreateFault::Unmade(error)),
    }
}

/// Creates or opens the named file for a log. A regular file is locked, and the `LogFile` may truncate it later. For a
/// journal, the error is `There`, because a journal may be the only way to restore a chip. A FIFO, a device or a
/// terminal is opened as it is, without a lock.
pub fn open_log<R: Files>(files: &R, name: &str) -> Result<LogFile<R::File>, CreateFault>
where
    R::File: LockFile,
{
    if is_special(files, name) {
        return match fs::create(files, name) {
            Ok(file) => Ok(LogFile {
                file,
                is_old: false,
            }),
            Err(error) => Err(CreateFault::Unmade(error)),
        };
    }
    let mut options = OpenOptions::new();
    let opened = options
        .read(true)
        .write(true)
        .create(true)
        .open(files, name);
    let mut file = match opened {
        Ok(file) => file,
        Err(error) => return Err(CreateFault::Unmade(error)),
    };
    lock(&file)?;
    match is_journal(&mut file) {
        Ok(false) => {}
        Ok(true) => return Err(CreateFault::There),
        Err(error) => return Err(CreateFault::Unmade(error)),
    }
    match file.rewind() {
        Ok(()) => Ok(LogFile { file, is_old: true }),
        Err(error) => Err(CreateFault::Unmade(error)),
    }
}

fn is_special<R: Files>(files: &R, name: &str) -> bool {
    match fs::metadata(files, name) {
        Ok(metadata) => !metadata.is_file(),
        Err(_) => false,
    }
}

fn lock<F: LockFile>(file: &F) -> Result<(), CreateFault> {
    match file.lock_alone() {
        Ok(true) => Ok(()),
        Ok(false) => Err(CreateFault::Busy),
        Err(error) => Err(CreateFault::Unmade(error)),
    }
}

fn is_journal<F: Read>(file: &mut F) -> io::Result<bool> {
    let mut start = [0; MAGIC.len()];
    match file.read_exact(&mut start) {
        Ok(()) => Ok(start == MAGIC || start == FIRST_MAGIC),
        Err(error) if error.kind() == ErrorKind::UnexpectedEof => Ok(false),
        Err(error) => Err(error),
    }
}

/// A file for a log. A regular file is truncated just before its first write or flush, unless `append` came first.
#[derive(Drop)]
pub struct LogFile<F> {
    file: F,
    is_old: bool,
}

impl<F: OpenFile> LogFile<F> {
    fn empty(&mut self) -> io::Result<()> {
        if self.is_old {
            self.file.set_len(0)?;
            self.is_old = false;
        }
        Ok(())
    }
}

impl<F: OpenFile + Read + Seek> LogFile<F> {
    /// Returns whether the file is empty, or begins with these bytes. A FIFO, a device or a terminal counts as empty,
    /// and so does a file after `append`, a write or a flush.
    pub fn is_empty_or_begins(&mut self, start: &[u8]) -> io::Result<bool> {
        if !self.is_old {
            return Ok(true);
        }
        self.file.rewind()?;
        for (at, byte) in start.iter().enumerate() {
            let mut found = [0];
            match self.file.read_exact(&mut found) {
                Ok(()) if found == [*byte] => {}
                Ok(()) => return Ok(false),
                Err(error) if error.kind() == ErrorKind::UnexpectedEof => return Ok(at == 0),
                Err(error) => return Err(error),
            }
        }
        self.file.rewind()?;
        Ok(true)
    }

    /// Makes writes append instead of truncating the file. The result is true only if the file has bytes.
    pub fn append(&mut self) -> io::Result<bool> {
        if !self.is_old {
            return Ok(false);
        }
        self.is_old = false;
        let length = self.file.seek(SeekFrom::End(0))?;
        Ok(length > 0)
    }
}

impl<F: OpenFile + Write> Write for LogFile<F> {
    fn write(&mut self, bytes: &[u8]) -> io::Result<usize> {
        self.empty()?;
        self.file.write(bytes)
    }

    fn flush(&mut self) -> io::Result<()> {
        self.empty()?;
        self.file.flush()
    }
}

/// A file that a vault writes to. If it has a name, a sync also checks that the name still refers to this file, and
/// that the length of the file is the number of bytes written.
#[derive(Drop)]
pub struct VaultedFile<'a, R: Files> {
    files: &'a R,
    file: R::File,
    name: Option<String>,
    written: u64,
    failed: Cell<Option<io::Error>>,
}

impl<'a, R: Files> VaultedFile<'a, R> {
    pub fn new(files: &'a R, file: R::File, name: Option<String>) -> VaultedFile<'a, R> {
        VaultedFile {
            files,
            file,
            name,
            written: 0,
            failed: Cell::new(None),
        }
    }

    /// Returns the error of the last write or sync of the file that failed, or `None` if none failed.
    pub fn error(&self) -> Option<io::Error> {
        self.failed.get()
    }

    fn sync_and_check(&self) -> io::Result<()> {
        self.file.sync_all()?;
        self.check()
    }

    /// Checks that a later run finds this file under its name, with the number of bytes written. If not, returns
    /// `NotFound` or the error of the look-up. A file without a name isn't checked.
    pub fn check(&self) -> io::Result<()> {
        let Some(name) = &self.name else {
            return Ok(());
        };
        let there = fs::metadata(self.files, name.as_str())?;
        let file = self.file.metadata()?;
        if is_same(&there, &file) && there.len() == self.written {
            Ok(())
        } else {
            Err(ErrorKind::NotFound.into())
        }
    }
}

fn write_again<F: Write>(file: &mut F, bytes: &[u8]) -> io::Result<usize>
    ensures bound { WritesAtMost result bytes.now }
    ensures bytes { WriteAppends (F.contents file.old) (F.contents file.new) result bytes.now }
{
    for _ in 0..u64::MAX {
        match file.write(bytes) {
            Err(error) if error.kind() == ErrorKind::Interrupted => {}
            outcome => return outcome,
        }
    }
    Err(ErrorKind::Interrupted.into())
}

impl<R: Files> Write for VaultedFile<'_, R> {
    // The contents of the file inside: known bytes of this file grow by exactly the bytes that a write returned as
    // taken.
    ghost contents = { λ vaulted. R.File.contents vaulted.file };

    // Retries a write that a signal interrupted, because a vault treats each error as a refusal.
    fn write(&mut self, bytes: &[u8]) -> io::Result<usize> {
        match write_again(&mut self.file, bytes) {
            Ok(taken) => {
                self.written = self.written.saturating_add(taken as u64);
                Ok(taken)
            }
            Err(error) => {
                self.failed.set(Some(error));
                Err(error)
            }
        }
    }

    fn flush(&mut self) -> io::Result<()> {
        self.file.flush()
    }
}

impl<R: Files> OpenFile for VaultedFile<'_, R> {
    fn metadata(&self) -> io::Result<Metadata> {
        self.file.metadata()
    }

    fn set_len(&self, size: u64) -> io::Result<()> {
        self.file.set_len(size)
    }

    fn sync_all(&self) -> io::Result<()> {
        match self.sync_and_check() {
            Ok(()) => Ok(()),
            Err(error) => {
                self.failed.set(Some(error));
                Err(error)
            }
        }
    }

    fn sync_data(&self) -> io::Result<()> {
        self.sync_all()
    }
}

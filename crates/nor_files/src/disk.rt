//! `Disk`: the files of the operating system, as an implementation of the trait `Store`.
ghost use Rattle.std.specs.Prelude.{◌≡◌, true, IfOk, IfSome, None, Some, take};
ghost use Rattle.std.proofs.lemmas.Bool.{false≢true};

use crate::folder::sync_folder;
use crate::held::{
    Held, check_under, hold_chip, hold_journal, mode_beside, sync_under, write_from_start,
};
use crate::identity::{is_one_file, is_stream, look_up_error, unseen_stream};
use crate::locks::LockFile;
use crate::making::{LogFile, VaultedFile, make_empty, make_journal, make_new, open_log};
use crate::store::{CreateFault, LockFault, Store, Stream};
use nor_journal::{FileVault, Vault};
use std::alloc::{AllocError, Global};
use std::cell::RefCell;
use std::fs::OpenFile;
use std::io::{ErrorKind, Read, Seek};
use std::os::unix::fs::FileTypeExt;
use std::rt::Files;
use std::{fs, io};

#[derive(Drop)]
struct Unseen {
    name: String,
    error: io::Error,
}

/// The system's files. That each call works on the named file and obeys the contract of `Store` is assumed, and tested.
///
/// A file opened by `hold`, `share` or `make` stays open (and locked, if the file system has locks) until the store is
/// dropped. Later reads, writes and syncs of its name work on this file. If the name then refers to another file,
/// `sync` returns `NotFound`.
///
/// `make` returns `NotFound` for a name that wasn't passed to `hold` or `share` before. `sync`, `write_over` and
/// `set_len` return `NotFound` for a name without an open file.
#[derive(Drop)]
pub struct Disk<'a, R: Files> {
    files: &'a R,
    held: Vec<Held<R::File>>,
    // Names that could not be looked up when `look_ahead` was called.
    unseen: RefCell<Vec<Unseen>>,
    // The file whose vault was taken back last, kept open so that it stays locked.
    vaulted: Option<VaultedFile<'a, R>>,
    sealed: bool,
}

impl<'a, R: Files + AllocGlobal> Disk<'a, R> {
    pub fn new(files: &'a R) -> Disk<'a, R> {
        Disk {
            files,
            held: Vec::new(files.alloc()),
            unseen: RefCell::new(Vec::new(files.alloc())),
            vaulted: None,
            sealed: false,
        }
    }

    fn held(&self, name: &str) -> Option<&Held<R::File>> {
        self.held.iter().find(|held| held.name.as_str() == name)
    }

    fn unseen_by(&self, name: &str) -> Option<io::Error> {
        match self.unseen.try_borrow() {
            Ok(unseen) => {
                let found = unseen.iter().find(|unseen| unseen.name.as_str() == name);
                found.map(|unseen| unseen.error)
            }
            Err(_) => None,
        }
    }

    fn keep(&mut self, held: Held<R::File>) -> Result<bool, LockFault> {
        let there = held.file.is_some();
        match self.held.push(held) {
            Ok(()) => Ok(there),
            Err(error) => Err(LockFault::Unread(error.into())),
        }
    }
}

impl<R: Files + AllocGlobal> Alloc for Disk<'_, R> {
    type A = Global;

    fn alloc(&self) -> Global {
        self.files.alloc()
    }
}

impl<'a, R: Files + AllocGlobal> Store for Disk<'a, R>
where
    R::File: LockFile,
{
    ghost use Rattle.nor_files.specs.Disk.{unknown};
    ghost use Rattle.nor_files.specs.Calls.{TakesBack};
    ghost use Rattle.nor_files.specs.Files.{Name, is_lawful};
    ghost use Rattle.nor_journal.specs.FileVault.{file_of, filed_by};

    ghost state = { λ _. unknown };

    ghost seen_may_stay = { λ _ _. tt };

    ghost names_of_one = { λ _ lawful. absurd (false≢true lawful) };

    type Filed = FileVault<VaultedFile<'a, R>>;

    type Log = LogFile<R::File>;

    fn is_one_file<'n>(&self, one: &'n str, other: &'n str) -> Result<bool, &'n str> {
        if one == other {
            return Ok(true);
        }
        is_one_file(self.files, one, other)
    }

    fn is_stream<'n>(&self, stream: Stream, name: &'n str) -> Result<bool, &'n str> {
        is_stream(self.files, stream, name)
    }

    fn look_up_error(&self, name: &str) -> Option<io::Error> {
        look_up_error(self.files, name)
    }

    fn unseen_stream(&self) -> Option<&'static str> {
        unseen_stream(self.files)
    }

    fn look_ahead(&self, name: &str) -> Result<(), AllocError> {
        if let Err(error) = fs::metadata(self.files, name) {
            let name = String::from_str(self.files.alloc(), name)?;
            if let Ok(mut unseen) = self.unseen.try_borrow_mut() {
                unseen.push(Unseen { name, error })?;
            }
        }
        Ok(())
    }

    fn is_there(&self, name: &str) -> bool {
        fs::symlink_metadata(self.files, name).is_ok()
    }

    fn is_waiting(&self, name: &str) -> bool {
        match fs::metadata(self.files, name) {
            Ok(metadata) => {
                let kind = metadata.file_type();
                kind.is_fifo() || kind.is_char_device()
            }
            Err(_) => false,
        }
    }

    fn read_named(&self, name: &str, most: u64) -> io::Result<Option<Vec<u8>>> {
        if let Some(
            Held {
                file: Some(file),
                ..
            },
        ) = self.held(name)
        {
            let mut file = file.try_clone()?;
            file.rewind()?;
            return Ok(Some(read_up_to(self.alloc(), file, most)?));
        }
        if let Some(error) = self.unseen_by(name) {
            return missing_or(error);
        }
        match fs::open(self.files, name) {
            Ok(file) => Ok(Some(read_up_to(self.alloc(), file, most)?)),
            Err(error) => missing_or(error),
        }
    }

    fn hold(&mut self, name: &str) -> Result<bool, LockFault> {
        let held = hold_chip(self.files, self.alloc(), name)?;
        self.keep(held)
    }

    fn share(&mut self, name: &str) -> Result<(), LockFault> {
        let held = hold_journal(self.files, self.alloc(), name)?;
        self.keep(held)?;
        Ok(())
    }

    fn sync(&mut self, name: &str) -> io::Result<()> {
        match self.held(name) {
            Some(held) => sync_under(self.files, held),
            None => Err(ErrorKind::NotFound.into()),
        }
    }

    fn sync_folder(&mut self, name: &str) -> io::Result<()> {
        sync_folder(self.files, name)
    }

    fn write_over(&mut self, name: &str, bytes: &[u8]) -> io::Result<()> {
        for held in self.held.iter_mut() {
            if held.name.as_str() == name
                && let Some(file) = &mut held.file
            {
                held.len = None;
                return write_from_start(file, bytes);
            }
        }
        Err(ErrorKind::NotFound.into())
    }

    fn set_len(&mut self, name: &str, len: u64) -> io::Result<()> {
        for held in self.held.iter_mut() {
            if held.name.as_str() == name
                && let Some(file) = &held.file
            {
                file.set_len(len)?;
                held.len = Some(len);
                return Ok(());
            }
        }
        Err(ErrorKind::NotFound.into())
    }

    fn still_has(&self, name: &str) -> bool {
        match self.held(name) {
            Some(held) => check_under(self.files, held).is_ok(),
            None => false,
        }
    }

    fn make(&mut self, name: &str) -> io::Result<()> {
        let mode = mode_beside(&self.held);
        for held in self.held.iter_mut() {
            if held.name.as_str() == name {
                held.file = Some(make_new(self.files, name, mode)?);
                return Ok(());
            }
        }
        Err(ErrorKind::NotFound.into())
    }

    fn vault_in_new(&mut self, name: &str) -> Result<FileVault<VaultedFile<'a, R>>, CreateFault> {
        let named = String::from_str(self.alloc(), name)?;
        let file = make_journal(self.files, name, mode_beside(&self.held))?;
        sync_folder(self.files, name)?;
        let vaulted = VaultedFile::new(self.files, file, Some(named));
        Ok(FileVault::new(vaulted))
    }

    fn vault_in(&mut self, name: &str) -> Result<FileVault<VaultedFile<'a, R>>, CreateFault> {
        let file = make_empty(self.files, name)?;
        Ok(FileVault::new(VaultedFile::new(self.files, file, None)))
    }

    // Keeps the file as the vault left it.
    fn return_vault(&mut self, vault: FileVault<VaultedFile<'a, R>>) -> bool
        ensures nature { unknown.view.nature ≡ unknown.view.nature }
        ensures sealed { result ≡ (filed_by vault.entry).sealed }
        ensures takes { is_lawful unknown.view ≡ true → (name : Name) → unknown.borrowed ≡ Some name
            → TakesBack name (filed_by vault.entry) unknown unknown }
        ensures kept { self.new.vaulted ≡ Some (file_of vault.entry) }
    {
        let sealed = vault.is_sealed();
        self.vaulted = Some(vault.into_inner());
        self.sealed = sealed;
        sealed
    }

    // Ignores `_name`, because the file of the vault knows the name that was given to `vault_in_new`.
    fn is_kept(&self, _name: &str) -> bool {
        match &self.vaulted {
            Some(file) if self.sealed => file.check().is_ok(),
            _ => true,
        }
    }

    fn vault_error(&self) -> Option<io::Error> {
        match &self.vaulted {
            Some(file) => file.error(),
            None => None,
        }
    }

    fn log_in(&mut self, name: &str) -> Result<LogFile<R::File>, CreateFault> {
        open_log(self.files, name)
    }
}

fn missing_or(error: io::Error) -> io::Result<Option<Vec<u8>>>
    ensures { IfOk result (λ found. found ≡ None) }
{
    if error.kind() == ErrorKind::NotFound {
        Ok(None)
    } else {
        Err(error)
    }
}

/// Reads the rest of `file`, but not more than `most` bytes.
pub fn read_up_to<F: Read + OpenFile + Drop>(
    alloc: Global,
    file: F,
    most: u64,
) -> io::Result<Vec<u8>>
    ensures { IfOk result (λ bytes. IfSome (F.remaining file) (λ all. bytes.items ≡ take most all)) }
{
    let length = match file.metadata() {
        Ok(metadata) => metadata.len().min(most),
        Err(_) => 0,
    };
    // One byte more than the expected length, so the read that finds the end of the file needs no further allocation.
    let room = (length as usize).saturating_add(1);
    let mut bytes = Vec::with_capacity(alloc, room)?;
    file.take(most).read_to_end(&mut bytes)?;
    Ok(bytes)
}

//! A file in memory, and what a host crash may leave of it.
ghost use Rattle.std.specs.Prelude.{◌≡◌, ◌&&◌, IfOk, is_some, not, option_map};
ghost use Rattle.nor_files.specs.Calls.{with_length, written_over};
ghost use Rattle.nor_files.specs.Stored.{Alters, FileForgets, FileBorrows, FileLoses, FileCreates, FilePlaces, FileSets};
ghost use Rattle.nor_files.specs.Stored.{FileIsDurable, FileSyncs, FileTakesBack, FileWrites, bytes_in, file_in, missing};
ghost use Rattle.nor_files.specs.Named.{is_named};
ghost use Rattle.nor_journal.specs.MemVault.{held_by};

use nor_journal::MemVault;
use std::alloc::{AllocError, Global};
use std::io::ErrorKind;
use std::{io, mem};

#[derive(Drop)]
pub enum Content {
    Plain(Vec<u8>),
    /// The bytes of a vault that was lent in this file and then taken back (`Store::return_vault`).
    Vaulted(MemVault),
}

#[derive(Drop)]
pub enum Change {
    /// These bytes overwrote the file in place, from its start. A failed write may have written only a prefix of them.
    Written(Vec<u8>),
    /// The length was set to this number of bytes.
    Cut(u64),
    /// The file was created or truncated, so it is empty, and a vault or a log in it was lent.
    Lent,
}

#[derive(Drop)]
pub struct Step {
    before: Option<Content>,
    change: Change,
}

/// The data that an interruption destroys.
#[derive(Clone, Copy, Debug, PartialEq, Eq)]
pub enum Loss {
    /// Nothing: only the process was killed.
    Nothing,
    /// The host crashed. Changes since the last sync are lost, and so is a created file whose directory wasn't synced.
    /// A file that was created for a vault or log, and never synced, keeps its bytes if its directory was synced. The
    /// comment on `Memory` says which other calls count as these syncs.
    Unsynced,
}

#[derive(Drop)]
pub struct Stored {
    name: Vec<u8>,
    content: Option<Content>,
    // The changes since the last sync, newest first.
    steps: Vec<Step>,
    // Whether a host crash may remove the file, because its directory wasn't synced after the file was created.
    unplaced: bool,
    // Whether a vault or a log in the file is borrowed.
    out: bool,
}

impl Content {
    fn as_slice(&self) -> &[u8]
        ensures { result.now ≡ bytes_in self.now }
    {
        match self {
            Content::Plain(bytes) => bytes.as_slice(),
            Content::Vaulted(vault) => vault.bytes(),
        }
    }
}

impl Stored {
    pub fn new(alloc: Global, name: Vec<u8>) -> Stored
        ensures name { result.name ≡ name }
        ensures file { file_in result ≡ missing }
    {
        Stored {
            name,
            content: None,
            steps: Vec::new(alloc),
            unplaced: false,
            out: false,
        }
    }

    pub fn is_named(&self, name: &[u8]) -> bool
        ensures { result ≡ is_named name.now self.now }
    {
        self.name.as_slice() == name
    }

    /// Returns whether the file exists, and no vault or log in it is borrowed.
    pub fn is_at_hand(&self) -> bool
        ensures { result ≡ (is_some self.now.content && not self.now.out) }
    {
        self.content.is_some() && !self.out
    }

    pub fn bytes(&self) -> Option<&[u8]>
        ensures { option_map (λ bytes. bytes.now) result ≡ (file_in self.now).seen }
    {
        match &self.content {
            Some(content) => Some(content.as_slice()),
            None => None,
        }
    }

    // Replaces the content, and records the change. Memory is reserved first, so that a failure changes nothing.
    fn change(&mut self, content: Content, change: Change) -> Result<(), AllocError>
        ensures { Alters result content change self.old self.new }
    {
        self.steps.reserve(1)?;
        let before = mem::replace(&mut self.content, Some(content));
        let _ = self.steps.insert(0, Step { before, change });
        Ok(())
    }

    /// Overwrites the file in place with `bytes`, from its start. If `bytes` has more than `most` bytes, writes only
    /// the first `most` and returns an error. Also fails if the file is missing (`NotFound`) or memory runs out.
    pub fn write(&mut self, alloc: Global, bytes: &[u8], most: usize) -> io::Result<()>
        ensures { FileWrites bytes.now result self.old self.new }
    {
        let most = most.min(bytes.len());
        let has = match self.bytes() {
            Some(had) => overwritten(alloc, had, &bytes[..most])?,
            None => return Err(ErrorKind::NotFound.into()),
        };
        let written = Change::Written(copy(alloc, bytes)?);
        self.change(Content::Plain(has), written)?;
        if most < bytes.len() {
            return Err(ErrorKind::Other.into());
        }
        Ok(())
    }

    pub fn set_len(&mut self, alloc: Global, len: u64) -> io::Result<()>
        ensures { FileSets len result self.old self.new }
    {
        let has = match self.bytes() {
            Some(had) => with_length(alloc, had, len as usize)?,
            None => return Err(ErrorKind::NotFound.into()),
        };
        self.change(Content::Plain(has), Change::Cut(len))?;
        Ok(())
    }

    pub fn sync(&mut self)
        ensures { FileSyncs self.old self.new }
    {
        self.steps.clear();
    }

    /// Records that the directory of the file was synced.
    pub fn place(&mut self)
        ensures { FilePlaces self.old self.new }
    {
        self.unplaced = false;
    }

    pub fn make(&mut self, alloc: Global) -> io::Result<()>
        ensures { FileCreates result self.old self.new }
    {
        if self.content.is_some() {
            return Err(ErrorKind::AlreadyExists.into());
        }
        self.content = Some(Content::Plain(Vec::new(alloc)));
        self.steps.clear();
        self.unplaced = true;
        Ok(())
    }

    /// Creates or truncates the file, to lend a vault or a log in it. With `is_new`, fails with `AlreadyExists` if the
    /// file exists, and a host crash can't remove a new file. Fails if memory runs out.
    pub fn lend(&mut self, alloc: Global, is_new: bool) -> io::Result<()>
        ensures { FileBorrows is_new result self.old self.new }
    {
        let was_there = self.content.is_some();
        if is_new && was_there {
            return Err(ErrorKind::AlreadyExists.into());
        }
        self.change(Content::Plain(Vec::new(alloc)), Change::Lent)?;
        self.unplaced = !is_new && (self.unplaced || !was_there);
        self.out = true;
        Ok(())
    }

    /// Creates or replaces the file durably, with these bytes.
    pub fn settle(&mut self, bytes: Vec<u8>)
        ensures { FileIsDurable bytes.items self.old self.new }
    {
        self.content = Some(Content::Plain(bytes));
        self.steps.clear();
        self.unplaced = false;
        self.out = false;
    }

    pub fn lose(&mut self, loss: Loss)
        ensures { FileLoses self.old self.new }
    {
        if loss == Loss::Unsynced {
            self.forget();
        }
        self.steps.clear();
        self.unplaced = false;
        self.out = false;
    }

    // Removes the file if a host crash may do so. Otherwise undoes `steps`, unless the file was missing before them.
    fn forget(&mut self)
        ensures { FileForgets self.old self.new }
    {
        if self.unplaced {
            self.content = None;
            return;
        }
        if let Some(oldest) = self.steps.pop() {
            if oldest.before.is_some() == self.content.is_some() {
                self.content = oldest.before;
            }
        }
    }

    pub fn take_contents(&mut self, vault: MemVault)
        ensures { FileTakesBack (held_by vault) self.old self.new }
    {
        if vault.is_sealed() {
            self.steps.clear();
            self.unplaced = false;
        }
        self.content = Some(Content::Vaulted(vault));
        self.out = false;
    }
}

pub fn copy(alloc: Global, bytes: &[u8]) -> Result<Vec<u8>, AllocError>
    ensures { IfOk result (λ copied. copied.items ≡ bytes.now) }
{
    let mut copied = Vec::new(alloc);
    copied.extend_from_slice(bytes)?;
    Ok(copied)
}

fn overwritten(alloc: Global, had: &[u8], bytes: &[u8]) -> Result<Vec<u8>, AllocError>
    ensures { IfOk result (λ has. has.items ≡ written_over bytes.now had.now) }
{
    let mut has = copy(alloc, bytes)?;
    if bytes.len() < had.len() {
        has.extend_from_slice(&had[bytes.len()..])?;
    }
    Ok(has)
}

fn with_length(alloc: Global, had: &[u8], len: usize) -> Result<Vec<u8>, AllocError>
    ensures { IfOk result (λ has. has.items ≡ with_length len had.now) }
{
    let mut has = copy(alloc, had)?;
    has.resize(len, 0)?;
    Ok(has)
}

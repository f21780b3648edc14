//! Files in memory that obey the contract of `Store`, for tests.
ghost use Rattle.std.specs.Prelude.{◌≡◌, ◌+◌, true, None, OnErr, OnOk, IfOk, IfSome, Some, option_map, position};
ghost use Rattle.nor_journal.specs.MemVault.{synced_by};
ghost use Rattle.nor_files.specs.Files.{AllStay, AreAtRest, IsDurable, Name, OthersStay, KeepsFile};
ghost use Rattle.nor_files.specs.Calls.{Counts};
ghost use Rattle.nor_files.specs.Named.{file_named, is_borrowed_there, is_named, is_there};

use crate::store::{CreateFault, LockFault, Store, Stream};
use crate::stored::{Loss, Stored, copy};
use nor_journal::MemVault;
use std::alloc::{AllocError, Global};
use std::io::{ErrorKind, Sink};
use std::{io, mem};

/// Files in memory that obey the contract of `Store`. At most `left` counted calls succeed. The counted calls are
/// `hold`, `sync`, `sync_folder`, `write_over`, `set_len`, `make`, `vault_in_new`, `vault_in` and `log_in`.
///
/// A host crash may leave each byte as it was at the last sync of the file, or as any later change made it. A file
/// whose vault or log was borrowed since that sync may have any bytes. A host crash may remove a file created by
/// `make`, `vault_in` or `log_in` only until its directory is synced. Taking back a sealed vault counts as a sync of
/// the file and of its directory, `make` as a sync of the file, and `vault_in_new` as a sync of the directory.
#[derive(Drop)]
pub struct Memory {
    alloc: Global,
    files: Vec<Stored>,
    // The name of the file whose vault was lent last and not yet taken back.
    borrowed: Option<Vec<u8>>,
    left: u64,
    // Whether `write_over` fails after half of its bytes, if it is the last call that is left.
    torn: bool,
    ghost borrowed_is_there: { is_borrowed_there files.items (option_map (λ name. name.items) borrowed) ≡ true },
}

impl Memory {
    ghost use Rattle.nor_files.specs.Memory.{memory_state};

    /// Returns a store without files, on which at most `left` counted calls succeed.
    pub fn new(alloc: Global, left: u64) -> Memory {
        Memory {
            alloc,
            files: Vec::new(alloc),
            borrowed: None,
            left,
            torn: false,
        }
    }

    /// Creates or replaces the named file durably. This doesn't count as a call. Fails if memory runs out.
    pub fn put(&mut self, name: &str, bytes: &[u8]) -> Result<(), AllocError>
        ensures left { self.new.left ≡ self.old.left }
        ensures puts { OnOk result (IsDurable name.now (Some bytes.now) (memory_state self.new)) }
        ensures others { OthersStay name.now (memory_state self.old) (memory_state self.new) }
    {
        let at = self.keep_place(name)?;
        let copied = copy(self.alloc, bytes)?;
        self.files[at].settle(copied);
        Ok(())
    }

    /// Makes the last counted call, if it is a non-empty `write_over`, write only the first half of its bytes and fail.
    pub fn tear(&mut self)
        ensures left { self.new.left ≡ self.old.left }
        ensures stay { AllStay (memory_state self.old) (memory_state self.new) }
    {
        self.torn = true;
    }

    /// Interrupts the run now, and returns the files that are left, on which at most `left` counted calls succeed. Each
    /// file is left as a host crash might have left it. Until a call changes the files, a host crash can't change them.
    /// If a sealed vault is borrowed, call `lose_lent` instead, because `lose` doesn't see the bytes of the vault.
    pub fn lose(self, loss: Loss, left: u64) -> Memory
        ensures left { (memory_state result).left ≡ left }
        ensures at_rest { AreAtRest (memory_state result) }
        ensures allowed { (name : Name) → (memory_state self).may_leave name ((memory_state result).view.seen name) }
        ensures durable { (name : Name) → IsDurable name ((memory_state result).view.seen name) (memory_state result) }
    {
        let Memory {
            alloc,
            mut files,
            ..
        } = self;
        for stored in files.iter_mut() {
            stored.lose(loss);
        }
        Memory {
            alloc,
            files,
            borrowed: None,
            left,
            torn: false,
        }
    }

    /// Interrupts the run as `lose` does, but while `vault`, which was lent last, is still borrowed. If the vault is
    /// sealed, its file is left with exactly its bytes. Otherwise its file is left as `lose` leaves it.
    pub fn lose_lent(mut self, vault: MemVault, loss: Loss, left: u64) -> Memory
        ensures left { (memory_state result).left ≡ left }
        ensures at_rest { AreAtRest (memory_state result) }
        ensures durable { (name : Name) → IsDurable name ((memory_state result).view.seen name) (memory_state result) }
        ensures synced { (name : Name) → (memory_state self).borrowed ≡ Some name
            → IfSome (synced_by vault) (λ bytes. (memory_state result).view.seen name ≡ Some bytes) }
    {
        if vault.is_sealed() {
            self.return_vault(vault);
            return self.lose(loss, left);
        }
        self.lose(loss, left)
    }

    /// Returns the bytes of the named file, or `None` if it is missing.
    pub fn bytes_of(&self, name: &str) -> Option<&[u8]>
        ensures { option_map (λ bytes. bytes.now) result ≡ (memory_state self.now).view.seen name.now }
    {
        match self.place(name.as_bytes()) {
            Some(at) => self.files[at].bytes(),
            None => None,
        }
    }

    fn place(&self, name: &[u8]) -> Option<usize>
        ensures { result ≡ position (is_named name.now) self.now.files.items }
    {
        self.files.iter().position(|file| file.is_named(name))
    }

    fn find(&self, name: &str) -> io::Result<usize>
        ensures { IfOk result (λ at. position (is_named name.now) self.now.files.items ≡ Some at) }
    {
        match self.place(name.as_bytes()) {
            Some(at) if self.files[at].is_at_hand() => Ok(at),
            _ => Err(ErrorKind::NotFound.into()),
        }
    }

    fn keep_place(&mut self, name: &str) -> Result<usize, AllocError>
        ensures at { IfOk result (λ at. position (is_named name.now) self.new.files.items ≡ Some at) }
        ensures same { (any : Name) → file_named self.new.files.items any ≡ file_named self.old.files.items any }
        ensures borrowed { self.new.borrowed ≡ self.old.borrowed }
        ensures left { self.new.left ≡ self.old.left }
    {
        if let Some(at) = self.place(name.as_bytes()) {
            return Ok(at);
        }
        let at = self.files.len();
        let stored = Stored::new(self.alloc, copy(self.alloc, name.as_bytes())?);
        self.files.push(stored)?;
        Ok(at)
    }

    fn lend(&mut self, name: &str, is_new: bool) -> io::Result<()>
        ensures counts { Counts result (memory_state self.old) (memory_state self.new) }
        ensures others { OthersStay name.now (memory_state self.old) (memory_state self.new) }
        ensures out { OnOk result ((file_named self.new.files.items name.now).out ≡ true) }
        ensures there { OnOk result (is_there self.new.files.items name.now ≡ true) }
        ensures missing { is_new ≡ true → OnOk result ((file_named self.old.files.items name.now).seen ≡ None) }
        ensures borrowed { self.new.borrowed ≡ self.old.borrowed }
        ensures stays { OnErr result (KeepsFile name.now (memory_state self.old) (memory_state self.new)) }
    {
        spend(&mut self.left)?;
        let at = self.keep_place(name)?;
        self.files[at].lend(self.alloc, is_new)
    }
}

fn spend(left: &mut u64) -> io::Result<()>
    ensures ok { OnOk result (left.old ≡ left.new + 1) }
    ensures err { OnErr result (left.new ≡ left.old) }
{
    if *left == 0 {
        return Err(ErrorKind::Other.into());
    }
    *left -= 1;
    Ok(())
}

impl Alloc for Memory {
    type A = Global;

    fn alloc(&self) -> Global {
        self.alloc
    }
}

impl Store for Memory {
    ghost use Rattle.nor_files.specs.Memory.{memory_state, names_of_one};
    ghost use Rattle.nor_files.specs.Stored as file;

    ghost state = { memory_state };

    ghost seen_may_stay = { λ memory name. file.seen_may_stay (file_named memory.files.items name) };

    ghost names_of_one = { λ memory.
        names_of_one memory.files.items memory.left (option_map (λ name. name.items) memory.borrowed) };

    type Filed = MemVault;

    type Log = Sink;

    fn is_one_file<'n>(&self, one: &'n str, other: &'n str) -> Result<bool, &'n str> {
        Ok(one == other)
    }

    fn is_stream<'n>(&self, _stream: Stream, _name: &'n str) -> Result<bool, &'n str> {
        Ok(false)
    }

    fn look_up_error(&self, _name: &str) -> Option<io::Error> {
        None
    }

    fn unseen_stream(&self) -> Option<&'static str> {
        None
    }

    fn look_ahead(&self, _name: &str) -> Result<(), AllocError> {
        Ok(())
    }

    fn is_there(&self, name: &str) -> bool {
        self.bytes_of(name).is_some()
    }

    fn is_waiting(&self, _name: &str) -> bool {
        false
    }

    fn read_named(&self, name: &str, most: u64) -> io::Result<Option<Vec<u8>>> {
        match self.bytes_of(name) {
            Some(bytes) => {
                let most = bytes.len().min(most as usize);
                Ok(Some(copy(self.alloc, &bytes[..most])?))
            }
            None => Ok(None),
        }
    }

    fn hold(&mut self, name: &str) -> Result<bool, LockFault> {
        match spend(&mut self.left) {
            Ok(()) => Ok(self.bytes_of(name).is_some()),
            Err(error) => Err(LockFault::Unread(error)),
        }
    }

    fn share(&mut self, _name: &str) -> Result<(), LockFault> {
        Ok(())
    }

    fn sync(&mut self, name: &str) -> io::Result<()> {
        spend(&mut self.left)?;
        let at = self.find(name)?;
        self.files[at].sync();
        Ok(())
    }

    fn sync_folder(&mut self, name: &str) -> io::Result<()> {
        spend(&mut self.left)?;
        match self.place(name.as_bytes()) {
            Some(at) => {
                self.files[at].place();
                Ok(())
            }
            None => Ok(()),
        }
    }

    fn write_over(&mut self, name: &str, bytes: &[u8]) -> io::Result<()> {
        spend(&mut self.left)?;
        let at = self.find(name)?;
        let most = if self.torn && self.left == 0 {
            bytes.len() / 2
        } else {
            bytes.len()
        };
        self.files[at].write(self.alloc, bytes, most)
    }

    fn set_len(&mut self, name: &str, len: u64) -> io::Result<()> {
        spend(&mut self.left)?;
        let at = self.find(name)?;
        self.files[at].set_len(self.alloc, len)
    }

    fn still_has(&self, _name: &str) -> bool {
        true
    }

    fn make(&mut self, name: &str) -> io::Result<()> {
        spend(&mut self.left)?;
        let at = self.keep_place(name)?;
        self.files[at].make(self.alloc)
    }

    fn vault_in_new(&mut self, name: &str) -> Result<MemVault, CreateFault> {
        if self.bytes_of(name).is_some() {
            return Err(CreateFault::There);
        }
        let borrowed = copy(self.alloc, name.as_bytes())?;
        self.lend(name, true)?;
        self.borrowed = Some(borrowed);
        Ok(MemVault::new(self.alloc))
    }

    fn vault_in(&mut self, name: &str) -> Result<MemVault, CreateFault> {
        let borrowed = copy(self.alloc, name.as_bytes())?;
        self.lend(name, false)?;
        self.borrowed = Some(borrowed);
        Ok(MemVault::new(self.alloc))
    }

    fn return_vault(&mut self, vault: MemVault) -> bool {
        let sealed = vault.is_sealed();
        let Some(name) = mem::replace(&mut self.borrowed, None) else {
            return sealed;
        };
        match self.place(&name) {
            Some(at) => {
                self.files[at].take_contents(vault);
                sealed
            }
            None => sealed,
        }
    }

    fn is_kept(&self, _name: &str) -> bool {
        true
    }

    fn vault_error(&self) -> Option<io::Error> {
        None
    }

    fn log_in(&mut self, name: &str) -> Result<Sink, CreateFault> {
        self.lend(name, false)?;
        Ok(io::sink())
    }
}

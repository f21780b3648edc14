//! The trait `Store`, the contract of files: what each call on files does, and how the call may fail.

use nor_journal::DurableVault;
use std::alloc::{AllocError, Global};
use std::error::Error;
use std::io::{ErrorKind, Write};
use std::{fmt, io};

/// The reason why `hold` or `share` can't open and lock a file.
#[derive(Debug, Drop)]
pub enum LockFault {
    /// The file can't be looked up, opened or read, or the program is out of memory.
    Unread(io::Error),
    /// A file or link of this name exists, but can't be overwritten or locked, for example a device or a dangling link.
    Unheld,
    /// Another process has locked the file.
    Busy,
}

impl fmt::Display for LockFault {
    fn fmt<W: fmt::Write>(&self, f: &mut fmt::Formatter<W>) -> fmt::Result {
        match self {
            LockFault::Unread(why) => write!(f, "the file can't be opened or read: {why}"),
            LockFault::Unheld => f.write_str("the file can't be written over or locked"),
            LockFault::Busy => f.write_str("another process has locked the file"),
        }
    }
}

impl Error for LockFault {}

/// The reason why a file can't be created or truncated.
#[derive(Debug, Drop)]
pub enum CreateFault {
    /// A file or link of this name exists although the file must be new, or the file is a journal (never truncated).
    There,
    /// Another process has locked the file.
    Busy,
    /// The file can't be created, read, truncated or locked, or its directory can't be synced.
    Unmade(io::Error),
    Memory,
}

impl fmt::Display for CreateFault {
    fn fmt<W: fmt::Write>(&self, f: &mut fmt::Formatter<W>) -> fmt::Result {
        match self {
            CreateFault::There => f.write_str("the file is there already, or is a journal"),
            CreateFault::Busy => f.write_str("another process has locked the file"),
            CreateFault::Unmade(why) => write!(f, "the file can't be made or emptied: {why}"),
            CreateFault::Memory => f.write_str("out of memory"),
        }
    }
}

impl Error for CreateFault {}

impl From<io::Error> for CreateFault {
    ghost use Rattle.std.specs.Prelude.{◌≡◌};
    ghost use Rattle.nor_files.specs.declared.store.CreateFault.TheVariants.{Unmade};

    ghost from_gives = { λ error fault. fault ≡ Unmade error };

    fn from(error: io::Error) -> CreateFault {
        CreateFault::Unmade(error)
    }
}

impl From<AllocError> for CreateFault {
    ghost use Rattle.std.specs.Prelude.{◌≡◌};
    ghost use Rattle.nor_files.specs.declared.store.CreateFault.TheVariants.{Memory};

    ghost from_gives = { λ _ fault. fault ≡ Memory };

    fn from(_: AllocError) -> CreateFault {
        CreateFault::Memory
    }
}

impl From<CreateFault> for io::Error {
    fn from(fault: CreateFault) -> io::Error {
        match fault {
            CreateFault::There => ErrorKind::AlreadyExists.into(),
            CreateFault::Busy => ErrorKind::WouldBlock.into(),
            CreateFault::Unmade(error) => error,
            CreateFault::Memory => ErrorKind::OutOfMemory.into(),
        }
    }
}

/// A stream to which the program prints: standard output or standard error.
#[derive(Clone, Copy)]
pub enum Stream {
    Output,
    Errors,
}

/// The files of a run, by their names.
///
/// Contracts see the files as a `FilesState`. If the state is lawful, the files obey the contract: each call has the
/// effect that its clauses give, and each counted call (see `left` of `FilesState`) fails and changes nothing if no
/// call is left. A clause proved for every lawful store therefore covers an interruption at each of these calls. For
/// files that aren't lawful, such as those of `Disk`, most clauses say nothing.
///
/// A file may have several names. On lawful files, names that are *apart* refer to different files, and a call on one
/// of them leaves the file of the other as it was. Names that aren't apart are names of one file, so a read of either
/// name returns the same (`names_of_one`). Except for this, only the clauses `stay` and `no_more` promise something
/// about other names of a file that a call changes.
pub trait Store: AllocGlobal {
    ghost use Rattle.std.specs.Prelude.{◌≡◌, ◌⊎◌, false, true, None, Err, IfErr, IfOk, IfSome, Ok, OnErr, OnOk};
    ghost use Rattle.std.specs.Prelude.{is_some, option_map};
    ghost use Rattle.nor_journal.specs.Vault.{IsFresh};
    ghost use Rattle.nor_files.specs.Files.{AreApart, AreUntouched, FilesState, IsKnownFile, KnownStay, Name};
    ghost use Rattle.nor_files.specs.Files.{OthersStay, KeepsFile, is_lawful};
    ghost use Rattle.nor_files.specs.Files.Failure.{Printed, Shared, There, Unread, Unwritten};
    ghost use Rattle.nor_files.specs.Calls.{Fails, Holds, LeaveNoMore, Borrows, BorrowsNone, Creates, Places};
    ghost use Rattle.nor_files.specs.Calls.{ReadsFile, SetsLength, Syncs, TakesBack, WorksOn, WritesOver};
    ghost use Rattle.nor_files.specs.Faults.{IsLockFault, IsCreateFault};
    ghost use Rattle.nor_files.specs.Disk.{IsStreamName};
    ghost use Rattle.nor_files.specs.OneFile.{NamesAreOfOne};

    ghost state: { Self → FilesState };

    /// A vault whose bytes are in a file. On lawful files the vault is faithful (`telling`), so as soon as it is
    /// sealed, before `return_vault` takes it back, `synced` is exactly the accepted bytes (`DurableVault`).
    type Filed: DurableVault + Drop;

    /// A file to which a run writes piece by piece.
    type Log: Write + Drop;

    /// Returns true if the two names are equal, if they refer to the same file of the system, or if neither file exists
    /// yet and the names have the same last part in the same existing directory. If one of two different names can't be
    /// looked up, returns this name as the error. If the result is false, the names are apart.
    fn is_one_file<'n>(&self, one: &'n str, other: &'n str) -> Result<bool, &'n str>
        ensures shared { IfOk result (λ is_one. is_one ≡ true
            → (state self.now).view.nature.fails (Shared one.now other.now) ≡ true) }
        ensures apart { IfOk result (λ is_one. is_one ≡ false
            → AreApart (state self.now).view.nature one.now other.now) }
        ensures differs { one.now ≡ other.now → result ≡ Ok true }
        ensures either { IfErr result (λ name. name.now ≡ one.now ⊎ name.now ≡ other.now) }
        ensures unseen { IfErr result (λ name. (state self.now).view.nature.fails (Unread name.now) ≡ true) };

    /// Returns whether the named file is a regular file to which this stream prints. If the stream isn't a regular file
    /// or can't be looked up, returns false. Otherwise, if the name can't be looked up, returns the name as the error.
    fn is_stream<'n>(&self, stream: Stream, name: &'n str) -> Result<bool, &'n str>
        ensures printed { IfOk result (λ is_stream. is_stream ≡ true
            → (state self.now).view.nature.fails (Printed name.now) ≡ true) }
        ensures unseen { IfErr result (λ unseen. (unseen.now ≡ name.now)
            × ((state self.now).view.nature.fails (Unread name.now) ≡ true)) };

    /// Returns the system's error if this name or, for a missing file, its directory can't be looked up, otherwise
    /// `None`. That the file or directory is missing isn't such an error. No clause says anything about the result.
    fn look_up_error(&self, name: &str) -> Option<io::Error>;

    /// Returns the name of a `Stream` that can't be looked up, or `None`. Such a stream can't be compared with files.
    fn unseen_stream(&self) -> Option<&'static str>
        ensures { IfSome result (λ name. IsStreamName name.now
            × ((state self.now).view.nature.fails (Unread name.now) ≡ true)) };

    /// Looks up a file before the run opens other files, so that a name such as `/dev/fd/6` can't refer to a file that
    /// the run opens itself. If the look-up fails, a later `read_named` of a `Disk` finds no file or returns this
    /// error, unless `hold`, `share` or `make` opened the file. Fails only if memory runs out.
    fn look_ahead(&self, name: &str) -> Result<(), AllocError>;

    /// Returns whether a look-up finds a file or a link of this name. If the look-up fails, returns false.
    fn is_there(&self, name: &str) -> bool
        ensures { result ≡ true → (state self.now).view.nature.fails (There name.now) ≡ true };

    /// Returns whether a read of the named file may block forever. A `Disk` assumes it of a FIFO or a character device.
    fn is_waiting(&self, name: &str) -> bool
        ensures { result ≡ true → (state self.now).view.nature.fails (Unread name.now) ≡ true };

    /// Returns at most the first `most` bytes of the named file, or `None` if it is missing. Fails if the file can't be
    /// opened or read, or if memory runs out.
    fn read_named(&self, name: &str, most: u64) -> io::Result<Option<Vec<u8>>>
        ensures read { IfOk result (λ found.
            ReadsFile name.now most (option_map (λ bytes. bytes.items) found) (state self.now).view) }
        ensures unread { OnErr result ((state self.now).view.nature.fails (Unread name.now) ≡ true) };

    /// Opens and locks the named file, if it exists, so that it can be overwritten later. Returns whether the file
    /// exists. A `Disk` keeps the lock until the store is dropped, if the file system has locks.
    fn hold(&mut self, name: &str) -> Result<bool, LockFault>
        ensures nature { (state self.new).view.nature ≡ (state self.old).view.nature }
        ensures holds { is_lawful (state self.old).view ≡ true
            → Holds name.now result (state self.old) (state self.new) }
        ensures fails { IfErr result (IsLockFault (state self.old).view.nature name.now) };

    /// Locks the named file for reading, if it exists, and changes no file. A `Disk` locks only a regular file, and
    /// keeps the lock until the store is dropped, if the file system has locks.
    fn share(&mut self, name: &str) -> Result<(), LockFault>
        ensures same { AreUntouched (state self.old) (state self.new) }
        ensures fails { IfErr result (IsLockFault (state self.old).view.nature name.now) };

    /// Syncs the bytes and the length of the named file. For lawful files without a borrowed vault or log, a host crash
    /// then leaves exactly these bytes, or no file if that was possible before. If the sync fails, it is unknown what a
    /// read returns, but a host crash can leave only what it could leave before.
    fn sync(&mut self, name: &str) -> io::Result<()>
        ensures nature { (state self.new).view.nature ≡ (state self.old).view.nature }
        ensures alone { is_lawful (state self.old).view ≡ true
            → WorksOn name.now result (state self.old) (state self.new) }
        ensures stay { OnOk result (KnownStay (state self.old) (state self.new)) }
        ensures no_more { is_lawful (state self.old).view ≡ true
            → LeaveNoMore (state self.old) (state self.new) }
        ensures syncs { IsKnownFile name.now (state self.old).view
            → Syncs name.now result (state self.old) (state self.new) }
        ensures fails { OnErr result ((state self.old).view.nature.fails (Unwritten name.now) ≡ true) };

    /// Syncs the directory of the named file. For lawful files without a borrowed vault or log, a read of each file
    /// returns the same as before and, after success, a host crash can neither remove the named file nor create it.
    fn sync_folder(&mut self, name: &str) -> io::Result<()>
        ensures nature { (state self.new).view.nature ≡ (state self.old).view.nature }
        ensures alone { is_lawful (state self.old).view ≡ true
            → WorksOn name.now result (state self.old) (state self.new) }
        ensures stay { KnownStay (state self.old) (state self.new) }
        ensures places { IsKnownFile name.now (state self.old).view
            → Places name.now result (state self.old) (state self.new) }
        ensures fails { OnErr result ((state self.old).view.nature.fails (Unwritten name.now) ≡ true) };

    /// Overwrites the named file in place with `bytes`, from its start, without truncating it. For lawful files without
    /// a borrowed vault or log, a failed call may have written some of the bytes, and until the next sync a host crash
    /// may leave any mix of old and new bytes.
    fn write_over(&mut self, name: &str, bytes: &[u8]) -> io::Result<()>
        ensures nature { (state self.new).view.nature ≡ (state self.old).view.nature }
        ensures alone { is_lawful (state self.old).view ≡ true
            → WorksOn name.now result (state self.old) (state self.new) }
        ensures writes { IsKnownFile name.now (state self.old).view
            → WritesOver name.now bytes.now result (state self.old) (state self.new) }
        ensures fails { OnErr result ((state self.old).view.nature.fails (Unwritten name.now) ≡ true) };

    /// Sets the length of the named file to `len` bytes. If the file grows, the added bytes are 0. For lawful files
    /// without a borrowed vault or log, a host crash before the next sync may leave any contents that it could leave
    /// before, either unchanged or with their length set to `len`.
    fn set_len(&mut self, name: &str, len: u64) -> io::Result<()>
        ensures nature { (state self.new).view.nature ≡ (state self.old).view.nature }
        ensures alone { is_lawful (state self.old).view ≡ true
            → WorksOn name.now result (state self.old) (state self.new) }
        ensures sets { IsKnownFile name.now (state self.old).view
            → SetsLength name.now len result (state self.old) (state self.new) }
        ensures fails { OnErr result ((state self.old).view.nature.fails (Unwritten name.now) ≡ true) };

    /// Returns false if the store detects that a later run would not find what this run wrote to the named file. A
    /// `Disk` checks that the name still refers to the file that `hold`, `share` or `make` opened, and that its length
    /// is that of the last `set_len`, unless a `write_over` followed. Without such a file, a `Disk` returns false.
    fn still_has(&self, name: &str) -> bool
        ensures { result ≡ false → (state self.now).view.nature.fails (Unwritten name.now) ≡ true };

    /// Creates the named file, which must not exist. The new file is empty, and a host crash may remove it until its
    /// directory is synced. For lawful files without a borrowed vault or log, a failure leaves the file as it was.
    fn make(&mut self, name: &str) -> io::Result<()>
        ensures nature { (state self.new).view.nature ≡ (state self.old).view.nature }
        ensures alone { is_lawful (state self.old).view ≡ true
            → WorksOn name.now result (state self.old) (state self.new) }
        ensures makes { IsKnownFile name.now (state self.old).view
            → Creates name.now result (state self.old) (state self.new) }
        ensures fails { OnErr result ((state self.old).view.nature.fails (Unwritten name.now) ≡ true) };

    /// Creates the named file, and lends a vault in it, which `return_vault` takes back. `Disk` syncs the directory. If
    /// the file exists, the error is `There` (a `Disk` may return another). After a failure for lawful files without a
    /// borrowed vault or log, a host crash can leave only what it could leave before, or an empty new file.
    fn vault_in_new(&mut self, name: &str) -> Result<Self::Filed, CreateFault>
        ensures nature { (state self.new).view.nature ≡ (state self.old).view.nature }
        ensures fresh { IfOk result (λ vault. IsFresh (Self.Filed.state vault)) }
        ensures telling { is_lawful (state self.old).view ≡ true
            → IfOk result (λ vault. (Self.Filed.state vault).telling ≡ true) }
        ensures borrows { is_lawful (state self.old).view ≡ true
            → OnOk result (Borrows name.now (state self.old) (state self.new)) }
        ensures missing { IsKnownFile name.now (state self.old).view
            → OnOk result ((state self.old).view.seen name.now ≡ None) }
        ensures exists { IsKnownFile name.now (state self.old).view
            → is_some ((state self.old).view.seen name.now) ≡ true → result ≡ Err CreateFault.There }
        ensures fails { is_lawful (state self.old).view ≡ true
            → OnErr result (BorrowsNone name.now (state self.old) (state self.new)) }
        ensures others { is_lawful (state self.old).view ≡ true
            → OthersStay name.now (state self.old) (state self.new) }
        ensures unmade { IfErr result (IsCreateFault (state self.old).view.nature name.now) };

    /// Creates or truncates the named file, and lends a vault in it, which `return_vault` takes back. A `Disk` refuses
    /// to truncate a journal, and opens a FIFO, a device or a terminal as it is.
    fn vault_in(&mut self, name: &str) -> Result<Self::Filed, CreateFault>
        ensures nature { (state self.new).view.nature ≡ (state self.old).view.nature }
        ensures fresh { IfOk result (λ vault. IsFresh (Self.Filed.state vault)) }
        ensures telling { is_lawful (state self.old).view ≡ true
            → IfOk result (λ vault. (Self.Filed.state vault).telling ≡ true) }
        ensures borrows { is_lawful (state self.old).view ≡ true
            → OnOk result (Borrows name.now (state self.old) (state self.new)) }
        ensures fails { is_lawful (state self.old).view ≡ true
            → OnErr result (Fails (state self.old) (state self.new)) }
        ensures others { is_lawful (state self.old).view ≡ true
            → OthersStay name.now (state self.old) (state self.new) }
        ensures unmade { IfErr result (IsCreateFault (state self.old).view.nature name.now) };

    /// Takes back the vault that was borrowed last, and returns whether it is sealed. On lawful files, the file then
    /// has exactly the bytes of the vault and, if the vault is sealed, a host crash can leave nothing else.
    fn return_vault(&mut self, vault: Self::Filed) -> bool
        ensures nature { (state self.new).view.nature ≡ (state self.old).view.nature }
        ensures sealed { result ≡ (Self.Filed.state vault).sealed }
        ensures takes { is_lawful (state self.old).view ≡ true → (name : Name) → (state self.old).borrowed ≡ Some name
            → TakesBack name (Self.Filed.state vault) (state self.old) (state self.new) };

    /// Returns false if the vault that was taken back last was sealed, but the store detects that a later run would not
    /// find its file. A `Disk` checks the file's name and length, but only if `vault_in_new` created the file.
    fn is_kept(&self, name: &str) -> bool
        ensures { result ≡ false → (state self.now).view.nature.fails (Unwritten name.now) ≡ true };

    /// Returns the system's error of the last failed write or sync of the vault that was taken back last, if any.
    fn vault_error(&self) -> Option<io::Error>;

    /// Creates or truncates the named file, and lends it as a log. A `Disk` refuses a journal, and lends any other file
    /// as a `LogFile`, which truncates a regular file just before the first write or flush, unless `append` is called.
    fn log_in(&mut self, name: &str) -> Result<Self::Log, CreateFault>
        ensures nature { (state self.new).view.nature ≡ (state self.old).view.nature }
        ensures alone { is_lawful (state self.old).view ≡ true
            → OthersStay name.now (state self.old) (state self.new) }
        ensures fails { is_lawful (state self.old).view ≡ true
            → OnErr result (Fails (state self.old) (state self.new)) }
        ensures unmade { IfErr result (IsCreateFault (state self.old).view.nature name.now) };

    // A law of every store: a host crash may leave exactly what a read returns. (A killed process always leaves this.)
    ghost seen_may_stay: { (files : Self) (name : Name)
        → (state files).may_leave name ((state files).view.seen name) };

    // A law of lawful files: names that aren't apart, or for which `is_one_file` may return true, are names of one
    // file. Without this law, a store could say that no two names are apart, and then change any file in each call.
    ghost names_of_one: { (files : Self) → NamesAreOfOne (state files) };
}

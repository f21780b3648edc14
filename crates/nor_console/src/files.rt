//! Reads, locks, creates and truncates the files of a run, and returns the faults of files.
ghost use Rattle.std.specs.Prelude.{◌≡◌, ◌↔◌, true, IfOk, IfErr, OnOk, OnErr, None, Some};
ghost use Rattle.std.specs.IoError.{error_kind};
ghost use Rattle.std.specs.declared.io.ErrorKind.TheVariants as Kinds;
ghost use Rattle.nor_files.specs.Calls.{Borrows, BorrowsNone};
ghost use Rattle.nor_files.specs.Faults.{IsCreateFault};
ghost use Rattle.nor_files.specs.Files.{AreUntouched, IsKnownFile, OthersStay, View, is_lawful};
ghost use Rattle.nor_journal.specs.Vault.{IsFresh};
ghost use Rattle.nor_console.specs.Stored.{IsRead};
ghost use Rattle.nor_console.specs.Files.{IsReadingFault, IsMaking, IsSharingFault, IsNotLocked, IsUnreadFault};
ghost use Rattle.nor_console.specs.Messages.{IsLostOutput};
ghost use Rattle.nor_console.specs.declared.causes.Cause.TheVariants as Causes;
ghost use Rattle.nor_console.specs.declared.messages.Fault.TheVariants as Faults;
ghost use Rattle.nor_console.specs.declared.messages.FileFault.TheVariants as FileFaults;
ghost use Rattle.nor_request.specs.declared.refusal.Refusal.TheVariants as Refusals;

use crate::causes::{Cause, SystemReason};
use crate::messages::{Fault, FileFault};
use nor_files::{CreateFault, LockFault, Store};
use nor_session::Refusal;
use std::io;
use std::io::{BufWriter, ErrorKind};

/// The most bytes read from an image: one more than the largest chip has, so that a longer image is detected.
pub const MOST_IMAGE_BYTES: u64 = 16_777_217;

/// The most bytes read from a journal: one more than the longest journal has, so that a longer file is detected.
pub const MOST_JOURNAL_BYTES: u64 = 16_793_662;

/// The greatest length of a layout file, in bytes.
pub const MOST_LAYOUT_BYTES: u64 = 16_777_216;

/// Reads up to `most` bytes of a file. Returns file fault 1 (missing or unreadable) or error 18 (out of memory).
#[tactic(auto, using(crate::proofs::FileFaults::unread_reading))]
pub fn read_file<'a, R: Store>(rt: &R, name: &'a str, most: u64) -> Result<Vec<u8>, Fault<'a>>
    ensures ok { IfOk result (λ bytes. IsRead ((R.state rt.now).view) name.now most bytes.items) }
    ensures err { IfErr result (IsReadingFault ((R.state rt.now).view) name.now most) }
{
    match rt.read_named(name, most) {
        Ok(Some(bytes)) => Ok(bytes),
        Ok(None) => Err(unread_by(name, Cause::System(SystemReason::Missing))),
        Err(error) => Err(reading(error, name)),
    }
}

/// Returns the fault of a file that can't be opened or read: error 18 if memory ran out, otherwise file fault 1.
pub fn reading(error: io::Error, name: &str) -> Fault<'_>
    ensures file { IsUnreadFault name.now result }
    ensures memory { result ≡ Faults.Refused Refusals.Memory ↔ error_kind error ≡ Kinds.OutOfMemory }
{
    match error.kind() {
        ErrorKind::OutOfMemory => Fault::Refused(Refusal::Memory),
        _ => unread_by(name, Cause::System(SystemReason::of_reading(&error))),
    }
}

pub fn read_fault(name: &str) -> Fault<'_>
    ensures { result ≡ Faults.File FileFaults.Read name.entry Causes.Unknown }
{
    unread_by(name, Cause::Unknown)
}

pub fn unread_by(name: &str, cause: Cause) -> Fault<'_>
    ensures { result ≡ Faults.File FileFaults.Read name.entry cause }
{
    let fault = FileFault::Read;
    Fault::File { fault, name, cause }
}

/// Creates or truncates the file `name`, and returns a vault that writes to it. Returns the faults of `making`.
pub fn create_output<'a, R: Store>(rt: &mut R, name: &'a str) -> Result<R::Filed, Fault<'a>>
    ensures nature { (R.state rt.new).view.nature ≡ (R.state rt.old).view.nature }
    ensures fresh { IfOk result (λ vault. IsFresh (R.Filed.state vault)) }
    ensures telling { is_lawful (R.state rt.old).view ≡ true
        → IfOk result (λ vault. (R.Filed.state vault).telling ≡ true) }
    ensures borrows { is_lawful (R.state rt.old).view ≡ true
        → OnOk result (Borrows name.now (R.state rt.old) (R.state rt.new)) }
    ensures others { is_lawful (R.state rt.old).view ≡ true
        → OthersStay name.now (R.state rt.old) (R.state rt.new) }
    ensures err { IfErr result (IsMaking (R.state rt.old).view name.now) }
{
    match rt.vault_in(name) {
        Ok(vault) => Ok(vault),
        Err(fault) => Err(making(fault, name, Cause::Journal)),
    }
}

/// Creates the file `name`, which must be missing, and returns a vault that writes to it. Returns faults of `making`.
pub fn create_journal<'a, R: Store>(rt: &mut R, name: &'a str) -> Result<R::Filed, Fault<'a>>
    ensures nature { (R.state rt.new).view.nature ≡ (R.state rt.old).view.nature }
    ensures fresh { IfOk result (λ vault. IsFresh (R.Filed.state vault)) }
    ensures telling { is_lawful (R.state rt.old).view ≡ true
        → IfOk result (λ vault. (R.Filed.state vault).telling ≡ true) }
    ensures borrows { is_lawful (R.state rt.old).view ≡ true
        → OnOk result (Borrows name.now (R.state rt.old) (R.state rt.new)) }
    ensures missing { IsKnownFile name.now (R.state rt.old).view
        → OnOk result ((R.state rt.old).view.seen name.now ≡ None) }
    ensures fails { is_lawful (R.state rt.old).view ≡ true
        → OnErr result (BorrowsNone name.now (R.state rt.old) (R.state rt.new)) }
    ensures others { is_lawful (R.state rt.old).view ≡ true
        → OthersStay name.now (R.state rt.old) (R.state rt.new) }
    ensures err { IfErr result (IsMaking (R.state rt.old).view name.now) }
{
    match rt.vault_in_new(name) {
        Ok(vault) => Ok(vault),
        Err(fault) => Err(making(fault, name, Cause::Exists)),
    }
}

/// Creates the file `name` or opens it to be truncated (`Store::log_in`), and returns a buffered writer to it. Returns
/// the faults of `making`. Error 18 is possible even after the file was created or truncated.
pub fn create_log<'a, R: Store>(rt: &mut R, name: &'a str) -> Result<BufWriter<R::Log>, Fault<'a>>
    ensures nature { (R.state rt.new).view.nature ≡ (R.state rt.old).view.nature }
    ensures others { is_lawful (R.state rt.old).view ≡ true
        → OthersStay name.now (R.state rt.old) (R.state rt.new) }
    ensures err { IfErr result (IsMaking (R.state rt.old).view name.now) }
{
    let file = match rt.log_in(name) {
        Ok(file) => file,
        Err(fault) => return Err(making(fault, name, Cause::Journal)),
    };
    BufWriter::new(rt.alloc(), file).map_err(|_| Fault::Refused(Refusal::Memory))
}

/// Returns the fault of a file that can't be created or truncated: error 18 for `Memory`, file fault 5 if another
/// process has locked the file, file fault 4 with the cause `there` if the file exists but must be new, or is a journal
/// (which `Disk` never truncates), and otherwise file fault 2.
pub fn making(fault: CreateFault, name: &str, there: Cause) -> Fault<'_>
    ensures { (view : View) → IsCreateFault view.nature name.now fault → IsMaking view name.now result }
{
    match fault {
        CreateFault::There => exists(name, there),
        CreateFault::Busy => taken_by(name, Cause::Locked),
        CreateFault::Unmade(error) => unmade_by(
            name,
            Cause::System(SystemReason::of_making(&error)),
        ),
        CreateFault::Memory => Fault::Refused(Refusal::Memory),
    }
}

pub fn exists(name: &str, cause: Cause) -> Fault<'_>
    ensures { result ≡ Faults.File FileFaults.Exists name.entry cause }
{
    let fault = FileFault::Exists;
    Fault::File { fault, name, cause }
}

pub fn taken_by(name: &str, cause: Cause) -> Fault<'_>
    ensures { result ≡ Faults.File FileFaults.Taken name.entry cause }
{
    let fault = FileFault::Taken;
    Fault::File { fault, name, cause }
}

pub fn write_fault(name: &str) -> Fault<'_>
    ensures { result ≡ Faults.File FileFaults.Write name.entry Causes.Unknown }
{
    unmade_by(name, Cause::Unknown)
}

pub fn unmade_by(name: &str, cause: Cause) -> Fault<'_>
    ensures { result ≡ Faults.File FileFaults.Write name.entry cause }
{
    let fault = FileFault::Write;
    Fault::File { fault, name, cause }
}

/// Returns the fault of a failed write to standard output: file fault 2 with the name `standard output`.
pub fn lost_output() -> Fault<'static>
    ensures { IsLostOutput result }
{
    write_fault("standard output")
}

/// Locks the file `journal` against changes by other runs, if it is a regular file and its file system has locks.
/// Returns up to `MOST_JOURNAL_BYTES` bytes of this file, even if these bytes are no journal.
///
/// Returns file fault 1 if the file is missing or can't be read, file fault 2 if it can't be locked, file fault 5 if
/// another process has locked it to change it, or error 18 if memory runs out.
pub fn read_journal<'a, R: Store>(rt: &mut R, journal: &'a str) -> Result<Vec<u8>, Fault<'a>>
    ensures same { AreUntouched (R.state rt.old) (R.state rt.new) }
    ensures ok { IfOk result (λ bytes. IsRead (R.state rt.old).view journal.now 16793662 bytes.items) }
    ensures err { IfErr result (IsSharingFault (R.state rt.old).view journal.now 16793662) }
{
    match rt.share(journal) {
        Ok(()) => {}
        Err(fault) => return Err(lock_fault(fault, journal)),
    }
    match read_file(rt, journal, MOST_JOURNAL_BYTES) {
        Ok(bytes) => Ok(bytes),
        Err(fault) => Err(fault),
    }
}

/// Returns the fault of a file that can't be opened or locked: error 18 if memory ran out, file fault 1 if the file
/// can't be looked up, opened or read, file fault 5 if another process has locked it, or file fault 2 if it exists but
/// can't be overwritten or locked.
pub fn lock_fault(fault: LockFault, name: &str) -> Fault<'_>
    ensures { IsNotLocked fault name.now result }
{
    match fault {
        LockFault::Unread(error) => reading(error, name),
        LockFault::Unheld => unmade_by(name, Cause::Unwritable),
        LockFault::Busy => taken_by(name, Cause::Locked),
    }
}

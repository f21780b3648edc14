//! Locks and reads the chip's files at the start of a run that changes the chip, and writes them back at its end.
ghost use Rattle.std.specs.Prelude.{◌≡◌, ◌+◌, true, false, List, ℕ, None, Some, IfErr, IfOk, IfSome, IsSomeAnd, OnErr};
ghost use Rattle.std.specs.Prelude.{OnOk, option_map, vec_len};
ghost use Rattle.nor_files.specs.Calls.{LeaveNoMore};
ghost use Rattle.nor_files.specs.Files.{AreAtRest, IsDurable, KnownStay, Name, OthersStay, KeepsFile, is_lawful};
ghost use Rattle.nor_files.specs.Files.Failure.{Unwritten as FailsWrite};
ghost use Rattle.flashnor.specs.Chips.{AreWrittenBack, FailsToHold, IsContentOf};
ghost use Rattle.nor_console.specs.Files.{IsLockingFault};
ghost use Rattle.flashnor.specs.Found.{emulated_part};
ghost use Rattle.flashnor.specs.Holding.{AreAmid, AreHeld, AreReady, IsHeld, IsReadyIfNamed, IsReadyFile};
ghost use Rattle.flashnor.specs.Holding.{LeavesAmid, LeavesFileAmid, MakesDurable, FillsMissing};
ghost use Rattle.nor_console.specs.Stored.{AreTwo, Happens, IsFileFound, IsNot, IsRead, IsReportedOf};
ghost use Rattle.flashnor.specs.Tasks.{journal_by};
ghost use Rattle.nor_console.specs.Files.{IsUnmadeFault};

use crate::chips::{Content, content_of, read_chip_file};
use crate::tasks::journal_by;
use nor_args::{Programmer, Task};
use nor_chip::{Bus, SimBus};
use nor_console::{Cause, Fault, SystemReason, lock_fault, unmade_by, unread_by};
use nor_files::{LockFault, Store};
use std::io;
use std::io::ErrorKind;

#[derive(Drop)]
pub struct Held {
    pub content: Content,
    pub image_there: bool,
    pub status_there: bool,
}

/// Locks the chip's files against other runs, reads them and syncs them. A missing or unnamed image is all FFh, and a
/// missing or unnamed status file two zeros. If the files were at rest (`AreAtRest`), what was read is durable.
///
/// Returns one of these faults:
///
/// - file fault 1 if a file can't be looked up or read, is a directory, or was locked but isn't found by the read
/// - file fault 2 if a file can't be opened for overwriting, locked or synced (a `Disk` refuses FIFOs, devices and
///   dangling links), if the sync finds that it was removed or replaced, or if its directory can't be synced
/// - file fault 3 if the image has another length than the chip, or the status file doesn't have two bytes
/// - file fault 5 if another process has locked a file
/// - error 18 if memory runs out
pub fn hold_content<'a, R: Store>(
    rt: &mut R,
    programmer: &Programmer<'a>,
) -> Result<Held, Fault<'a>>
    ensures nature { (R.state rt.new).view.nature ≡ (R.state rt.old).view.nature }
    ensures len { IfOk result (λ held. vec_len held.content.bytes ≡ (emulated_part programmer.now.chip).size) }
    ensures ok { IfOk result (λ held. IsContentOf (R.state rt.old).view programmer.now held.content) }
    ensures fills_missing { IfOk result (FillsMissing programmer.now) }
    ensures stay { OnOk result (KnownStay (R.state rt.old) (R.state rt.new)) }
    ensures held { AreAtRest (R.state rt.old)
        → IfOk result (λ held. AreHeld programmer.now held (R.state rt.old) (R.state rt.new)) }
    ensures no_more { AreAtRest (R.state rt.old) → LeaveNoMore (R.state rt.old) (R.state rt.new) }
    ensures err { IfErr result (FailsToHold (R.state rt.old).view programmer.now) }
{
    let size = programmer.chip.size();
    let image = hold_whole(rt, programmer.image, size)?;
    let status = hold_whole(rt, programmer.status, 2)?;
    let (image_there, status_there) = (image.is_some(), status.is_some());
    let content = content_of(rt.alloc(), size, image, status)?;
    Ok(Held {
        content,
        image_there,
        status_there,
    })
}

fn hold_whole<'a, R: Store>(
    rt: &mut R,
    name: Option<&'a str>,
    len: u32,
) -> Result<Option<Vec<u8>>, Fault<'a>>
    ensures nature { (R.state rt.new).view.nature ≡ (R.state rt.old).view.nature }
    ensures len { IfOk result (λ found. IfSome found (λ bytes. vec_len bytes ≡ len)) }
    ensures ok { IfOk result (λ found.
        IsFileFound (R.state rt.old).view name.entry len (option_map (λ bytes. bytes.items) found)) }
    ensures stay { OnOk result (KnownStay (R.state rt.old) (R.state rt.new)) }
    ensures held { AreAtRest (R.state rt.old) → IfOk result (λ found.
        IsHeld name.entry (option_map (λ bytes. bytes.items) found) (R.state rt.old) (R.state rt.new)) }
    ensures no_more { AreAtRest (R.state rt.old) → LeaveNoMore (R.state rt.old) (R.state rt.new) }
    ensures err { IfErr result (λ fault.
        IsSomeAnd name.entry (λ given. IsLockingFault (R.state rt.old).view given.now len fault)) }
{
    let Some(name) = name else {
        return Ok(None);
    };
    match rt.hold(name) {
        Ok(true) => Ok(Some(read_held(rt, name, len)?)),
        Ok(false) => match rt.sync_folder(name) {
            Ok(()) => Ok(None),
            Err(error) => Err(unsynced(&error, name)),
        },
        Err(fault) => Err(lock_fault(fault, name)),
    }
}

// Syncs the directory too: an earlier run may have been killed between creating the file and syncing the directory.
fn read_held<'a, R: Store>(rt: &mut R, name: &'a str, len: u32) -> Result<Vec<u8>, Fault<'a>>
    ensures nature { (R.state rt.new).view.nature ≡ (R.state rt.old).view.nature }
    ensures len { IfOk result (λ bytes. vec_len bytes ≡ len) }
    ensures ok { IfOk result (λ bytes. IsRead (R.state rt.old).view name.now (len + 1) bytes.items) }
    ensures stay { OnOk result (KnownStay (R.state rt.old) (R.state rt.new)) }
    ensures held { AreAtRest (R.state rt.old) → IfOk result (λ bytes.
        IsDurable name.now (Some bytes.items) (R.state rt.new)) }
    ensures no_more { AreAtRest (R.state rt.old) → LeaveNoMore (R.state rt.old) (R.state rt.new) }
    ensures err { IfErr result (IsLockingFault (R.state rt.old).view name.now len) }
{
    let Some(bytes) = read_chip_file(rt, Some(name), len)? else {
        return Err(unread_by(name, Cause::System(SystemReason::Missing)));
    };
    match rt.sync(name) {
        Ok(()) => {}
        Err(error) => return Err(unsynced(&error, name)),
    }
    match rt.sync_folder(name) {
        Ok(()) => Ok(bytes),
        Err(error) => Err(unsynced(&error, name)),
    }
}

fn unsynced<'a>(error: &io::Error, name: &'a str) -> Fault<'a>
    ensures { IsUnmadeFault name.now result }
{
    let cause = match error.kind() {
        ErrorKind::NotFound => Cause::Replaced,
        _ => Cause::System(SystemReason::of_making(error)),
    };
    unmade_by(name, cause)
}

/// The names of files that were not written or were lost in a run. The image or the status file is named if it could
/// not be written, and the trace is named if it lost a line. The image, the status file or the journal is also named if
/// it was removed or replaced, or its length changed, after it was written or sealed.
#[derive(Clone, Copy)]
pub struct Unwritten<'a> {
    pub image: Option<&'a str>,
    pub status: Option<&'a str>,
    pub trace: Option<&'a str>,
    pub journal: Option<&'a str>,
}

/// Returns the name of the journal that the task sealed, if a later run would not find it (see `Store::is_kept`).
pub fn lost_journal<'a, R: Store>(rt: &R, task: &Task<'a>) -> Option<&'a str>
    ensures { IsReportedOf (journal_by task.now) result (R.state rt.now).view }
{
    match journal_by(task) {
        Some(file) if !rt.is_kept(file) => Some(file),
        _ => None,
    }
}

/// Writes the chip's bytes and status bytes to the named files. Overwrites an existing file (`image_there`,
/// `status_there`) in place, and creates a missing one. Writes the status file even if writing the image failed.
///
/// Returns the names of the image and of the status file, each only if the file could not be written, or if a later run
/// won't find what was written (`Store::still_has`, which is checked after both files were written).
pub fn write_back<'a, R: Store>(
    rt: &mut R,
    programmer: &Programmer<'a>,
    image_there: bool,
    status_there: bool,
    bus: &SimBus,
) -> (Option<&'a str>, Option<&'a str>)
    ensures nature { (R.state rt.new).view.nature ≡ (R.state rt.old).view.nature }
    ensures others { is_lawful (R.state rt.old).view ≡ true → (any : Name)
        → IsNot (R.state rt.old).view.nature programmer.now.image any
        → IsNot (R.state rt.old).view.nature programmer.now.status any
        → KeepsFile any (R.state rt.old) (R.state rt.new) }
    ensures fails { IsReportedOf programmer.now.image result.0 (R.state rt.old).view
        × IsReportedOf programmer.now.status result.1 (R.state rt.old).view }
    ensures put { AreTwo (R.state rt.old).view.nature programmer.now.image programmer.now.status
        → (bytes bits : List ℕ) → AreReady programmer.now image_there status_there bytes bits
        (⟦<SimBus as Bus>⟧.state bus.now).chip (R.state rt.old)
        → AreWrittenBack programmer.now (⟦<SimBus as Bus>⟧.state bus.now).chip result.0 result.1 (R.state rt.new) }
    ensures amid { AreTwo (R.state rt.old).view.nature programmer.now.image programmer.now.status
        → (bytes bits : List ℕ) → AreReady programmer.now image_there status_there bytes bits
        (⟦<SimBus as Bus>⟧.state bus.now).chip (R.state rt.old)
        → AreAmid programmer.now image_there status_there bytes bits (⟦<SimBus as Bus>⟧.state bus.now).chip
        (R.state rt.new) }
{
    let image = write_if_named(rt, programmer.image, image_there, bus.bytes());
    let status = write_if_named(rt, programmer.status, status_there, &bus.status());
    let image = last_look(rt, programmer.image, image);
    let status = last_look(rt, programmer.status, status);
    (image, status)
}

fn last_look<'a, R: Store>(
    rt: &R,
    name: Option<&'a str>,
    failed: Option<&'a str>,
) -> Option<&'a str>
    ensures fails { IsReportedOf name.entry failed.entry (R.state rt.now).view
        → IsReportedOf name.entry result (R.state rt.now).view }
    ensures written { result ≡ None → failed.entry ≡ None }
{
    match (name, failed) {
        (_, Some(failed)) => Some(failed),
        (Some(name), None) if !rt.still_has(name) => Some(name),
        _ => None,
    }
}

fn write_if_named<'a, R: Store>(
    rt: &mut R,
    name: Option<&'a str>,
    there: bool,
    bytes: &[u8],
) -> Option<&'a str>
    ensures nature { (R.state rt.new).view.nature ≡ (R.state rt.old).view.nature }
    ensures others { is_lawful (R.state rt.old).view ≡ true → (any : Name)
        → IsNot (R.state rt.old).view.nature name.entry any → KeepsFile any (R.state rt.old) (R.state rt.new) }
    ensures fails { IfSome result (λ failed. (name.entry ≡ Some failed)
        × Happens (R.state rt.old).view (FailsWrite failed.now)) }
    ensures put { result ≡ None → (had : List ℕ) → IsReadyIfNamed name.entry there had bytes.now (R.state rt.old)
        → MakesDurable name.entry (Some bytes.now) (R.state rt.new) }
    ensures amid { (had : List ℕ) → IsReadyIfNamed name.entry there had bytes.now (R.state rt.old)
        → LeavesAmid name.entry there had bytes.now (R.state rt.new) }
{
    let name = name?;
    let put = if there {
        write_over(rt, name, bytes)
    } else {
        make_with(rt, name, bytes)
    };
    match put {
        Ok(()) => None,
        Err(_) => Some(name),
    }
}

fn write_over<R: Store>(rt: &mut R, name: &str, bytes: &[u8]) -> io::Result<()>
    ensures nature { (R.state rt.new).view.nature ≡ (R.state rt.old).view.nature }
    ensures others { is_lawful (R.state rt.old).view ≡ true → OthersStay name.now (R.state rt.old) (R.state rt.new) }
    ensures fails { OnErr result (Happens (R.state rt.old).view (FailsWrite name.now)) }
    ensures put { (had : List ℕ) → IsReadyFile name.now true had bytes.now (R.state rt.old)
        → OnOk result (IsDurable name.now (Some bytes.now) (R.state rt.new)) }
    ensures amid { (had : List ℕ) → IsReadyFile name.now true had bytes.now (R.state rt.old)
        → LeavesFileAmid name.now true had bytes.now (R.state rt.new) }
{
    rt.write_over(name, bytes)?;
    rt.set_len(name, bytes.len() as u64)?;
    rt.sync(name)
}

// Creates a file with these bytes. Until all bytes are synced, the file is empty or has one byte more than `bytes`. So
// if the files obey their contract, a host crash can leave a file as long as `bytes` only with exactly these bytes.
fn make_with<R: Store>(rt: &mut R, name: &str, bytes: &[u8]) -> io::Result<()>
    ensures nature { (R.state rt.new).view.nature ≡ (R.state rt.old).view.nature }
    ensures others { is_lawful (R.state rt.old).view ≡ true → OthersStay name.now (R.state rt.old) (R.state rt.new) }
    ensures fails { OnErr result (Happens (R.state rt.old).view (FailsWrite name.now)) }
    ensures put { (had : List ℕ) → IsReadyFile name.now false had bytes.now (R.state rt.old)
        → OnOk result (IsDurable name.now (Some bytes.now) (R.state rt.new)) }
    ensures amid { (had : List ℕ) → IsReadyFile name.now false had bytes.now (R.state rt.old)
        → LeavesFileAmid name.now false had bytes.now (R.state rt.new) }
{
    let len = bytes.len() as u64;
    rt.make(name)?;
    rt.set_len(name, len + 1)?;
    rt.sync(name)?;
    rt.write_over(name, bytes)?;
    rt.sync(name)?;
    rt.set_len(name, len)?;
    rt.sync(name)?;
    rt.sync_folder(name)
}

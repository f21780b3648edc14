//! The files that a task names. Checks whether two names refer to one file, and whether the program prints to a file.
ghost use Rattle.std.specs.Prelude.{◌≡◌, IfErr, IfOk, OnOk, IsSomeAnd, true};
ghost use Rattle.nor_files.specs.Files.Failure.{Printed};
ghost use Rattle.nor_console.specs.Roles.{FailsApart, FailsUnprinted, IsUnseenFile, IsUnseenStream};
ghost use Rattle.nor_console.specs.Tasks.{image_of, journal_of, layout_of, named_by};
ghost use Rattle.nor_console.specs.Stored.{AreTwo};
ghost use Rattle.nor_console.specs.declared.messages.Fault.TheVariants as Faults;
ghost use Rattle.nor_request.specs.declared.refusal.Refusal.TheVariants as Refusals;

use crate::causes::{Cause, SystemReason};
use crate::files::{taken_by, unread_by};
use crate::messages::Fault;
use nor_args::{Change, JournalUse, Regions, Task, Wanted};
use nor_files::{Store, Stream};

/// The purpose of a file of a job. The fault for one file in two roles contains the name given for the later role.
#[derive(Clone, Copy)]
pub enum Role {
    /// The image of the emulated chip.
    Image,
    /// The file with the status bits of the emulated chip.
    Status,
    Trace,
    Layout,
    /// The image to write, or to compare with the chip.
    Wanted,
    /// The file into which the chip is read.
    Output,
    Journal,
}

#[derive(Clone, Copy)]
pub struct FileNames<'a> {
    /// The layout's file, or `None` if the task has no layout, or reads the layout from the chip.
    pub layout: Option<&'a str>,
    pub wanted: Option<&'a str>,
    pub output: Option<&'a str>,
    pub journal: Option<&'a str>,
}

pub fn named_by<'a>(task: &Task<'a>) -> FileNames<'a>
    ensures { result ≡ named_by task.now }
{
    let none = FileNames {
        layout: None,
        wanted: None,
        output: None,
        journal: None,
    };
    match task {
        Task::Read { file, regions } => FileNames {
            layout: layout_of(*regions),
            output: Some(*file),
            ..none
        },
        Task::Verify { file, regions } => FileNames {
            layout: layout_of(*regions),
            wanted: Some(*file),
            ..none
        },
        Task::Change(change) => FileNames {
            layout: layout_of(change.regions),
            wanted: image_of(change),
            journal: journal_of(change),
            ..none
        },
        Task::Restore { journal } => FileNames {
            journal: Some(*journal),
            ..none
        },
        _ => none,
    }
}

fn layout_of<'a>(regions: Option<Regions<'a>>) -> Option<&'a str>
    ensures { result ≡ layout_of regions.entry }
{
    match regions {
        Some(Regions { layout, .. }) => layout,
        None => None,
    }
}

fn image_of<'a>(change: &Change<'a>) -> Option<&'a str>
    ensures { result ≡ image_of change.now.wanted }
{
    match change.wanted {
        Wanted::Write { image } => Some(image),
        Wanted::Erase | Wanted::Range { .. } => None,
    }
}

/// Returns the file name of a change's journal, or `None` if the change is a rehearsal.
pub fn journal_of<'a>(change: &Change<'a>) -> Option<&'a str>
    ensures { result ≡ journal_of change.now.journal_use }
{
    match &change.journal_use {
        JournalUse::Journal { file } => Some(*file),
        JournalUse::Rehearse { .. } => None,
    }
}

/// Checks that two names, if both are given, refer to different files. Returns file fault 5 with the name `later` if
/// they don't, or file fault 1 if a name can't be looked up.
pub fn are_two_files<'a, R: Store>(
    rt: &R,
    earlier: Option<&'a str>,
    later: Option<&'a str>,
) -> Result<(), Fault<'a>>
    ensures ok { OnOk result (AreTwo (R.state rt.now).view.nature earlier.entry later.entry) }
    ensures err { IfErr result (FailsApart (R.state rt.now).view.nature earlier.entry later.entry) }
{
    apart_as(rt, earlier, later, Cause::Unknown)
}

/// Checks that two names, if both are given, refer to different files. A returned file fault 5 has the given cause.
pub fn apart_as<'a, R: Store>(
    rt: &R,
    earlier: Option<&'a str>,
    later: Option<&'a str>,
    cause: Cause,
) -> Result<(), Fault<'a>>
    ensures ok { OnOk result (AreTwo (R.state rt.now).view.nature earlier.entry later.entry) }
    ensures err { IfErr result (FailsApart (R.state rt.now).view.nature earlier.entry later.entry) }
{
    let (Some(one), Some(other)) = (earlier, later) else {
        return Ok(());
    };
    match rt.is_one_file(one, other) {
        Ok(false) => Ok(()),
        Ok(true) => Err(taken_by(other, cause)),
        Err(name) => Err(unread_by(name, unseen_cause(rt, name))),
    }
}

fn unseen_cause<R: Store>(rt: &R, name: &str) -> Cause {
    match rt.look_up_error(name) {
        Some(error) => Cause::System(SystemReason::of_reading(&error)),
        None => Cause::Unknown,
    }
}

/// If `name` names a regular file, checks that the program doesn't print to this file. Returns file fault 5 if the
/// program prints to this file, or file fault 1 as `is_printed` does.
pub fn unprinted<'a, R: Store>(rt: &R, name: Option<&'a str>) -> Result<(), Fault<'a>>
    ensures { IfErr result (FailsUnprinted (R.state rt.now).view.nature name.entry) }
{
    let Some(named) = name else {
        return Ok(());
    };
    if is_printed(rt, Stream::Output, name)? || is_printed(rt, Stream::Errors, name)? {
        return Err(taken_by(named, Cause::Printed));
    }
    Ok(())
}

/// Returns whether a name is given and is that of a regular file to which `stream` prints. Returns file fault 1 if
/// `stream` is a regular file and the name can't be looked up.
pub fn is_printed<'a, R: Store>(
    rt: &R,
    stream: Stream,
    name: Option<&'a str>,
) -> Result<bool, Fault<'a>>
    ensures printed { IfOk result (λ is_printed. is_printed ≡ true → IsSomeAnd name.entry (λ given.
        (R.state rt.now).view.nature.fails (Printed given.now) ≡ true)) }
    ensures err { IfErr result (IsUnseenFile (R.state rt.now).view.nature name.entry) }
{
    let Some(name) = name else {
        return Ok(false);
    };
    match rt.is_stream(stream, name) {
        Ok(is_stream) => Ok(is_stream),
        Err(name) => Err(unread_by(name, unseen_cause(rt, name))),
    }
}

/// Looks up standard output and standard error. Returns file fault 1 with the name of one that can't be looked up.
pub fn found_streams<R: Store>(rt: &R) -> Result<(), Fault<'static>>
    ensures { IfErr result (IsUnseenStream (R.state rt.now).view.nature) }
{
    match rt.unseen_stream() {
        Some(name) => Err(unread_by(name, unseen_cause(rt, name))),
        None => Ok(()),
    }
}

/// Looks up the file `name`, if given. Call this before the run opens other files. Returns error 18 if memory runs out.
/// If the look-up fails on a `Disk`, a later `read_file` of this name returns file fault 1, even if the file exists by
/// then, unless a call such as `Store::hold` opened that file.
pub fn look_ahead<'a, R: Store>(rt: &R, name: Option<&'a str>) -> Result<(), Fault<'a>>
    ensures err { IfErr result (λ fault. fault ≡ Faults.Refused Refusals.Memory) }
{
    let Some(name) = name else {
        return Ok(());
    };
    Ok(rt.look_ahead(name)?)
}

//! Why a file fault occurred, in words for the user.
ghost use Rattle.std.specs.Prelude.{◌≡◌, Some};
ghost use Rattle.nor_console.specs.Causes.{role_text, system_text, verb_of};

use crate::escapes::Escaped;
use crate::messages::FileFault;
use crate::roles::Role;
use std::io::ErrorKind;
use std::{fmt, io};

const EIO: i32 = 5;

/// The system's reason why a call on a file failed.
#[derive(Clone, Copy)]
pub enum SystemReason {
    Missing,
    /// The file's directory is missing, or is no directory.
    NoDirectory,
    Directory,
    Denied,
    ReadOnly,
    /// The disk is full, or the user's share of it is used up.
    Full,
    /// Something else uses the file: EBUSY, or ETXTBSY for a program that is running.
    Busy,
    Loop,
    LongName,
    InputOutput,
    Other,
}

impl SystemReason {
    pub fn of_reading(error: &io::Error) -> SystemReason {
        match error.kind() {
            ErrorKind::NotFound => SystemReason::Missing,
            ErrorKind::NotADirectory => SystemReason::NoDirectory,
            ErrorKind::IsADirectory => SystemReason::Directory,
            ErrorKind::PermissionDenied => SystemReason::Denied,
            ErrorKind::ReadOnlyFilesystem => SystemReason::ReadOnly,
            ErrorKind::StorageFull | ErrorKind::QuotaExceeded => SystemReason::Full,
            ErrorKind::ResourceBusy | ErrorKind::ExecutableFileBusy => SystemReason::Busy,
            ErrorKind::FilesystemLoop => SystemReason::Loop,
            ErrorKind::InvalidFilename => SystemReason::LongName,
            _ if error.raw_os_error() == Some(EIO) => SystemReason::InputOutput,
            _ => SystemReason::Other,
        }
    }

    /// Returns the reason why a call that creates or writes a file failed: `NotFound` then means a missing directory.
    pub fn of_making(error: &io::Error) -> SystemReason {
        match SystemReason::of_reading(error) {
            SystemReason::Missing => SystemReason::NoDirectory,
            reason => reason,
        }
    }

    /// Returns the reason in words that complete `the file can't be read: ..`.
    pub fn as_str(self) -> &'static str
        ensures { result.now ≡ system_text self }
    {
        match self {
            SystemReason::Missing => "there is no such file",
            SystemReason::NoDirectory => "there is no such directory",
            SystemReason::Directory => "it is a directory",
            SystemReason::Denied => "permission denied",
            SystemReason::ReadOnly => "the file system is read-only",
            SystemReason::Full => "no space is left on the disk",
            SystemReason::Busy => "something else uses it",
            SystemReason::Loop => "too many links, or a loop of links",
            SystemReason::LongName => "the name is too long",
            SystemReason::InputOutput => "input/output error",
            SystemReason::Other => "the system refused it",
        }
    }
}

/// Why a file fault occurred, as far as the program knows.
#[derive(Clone, Copy)]
pub enum Cause {
    Unknown,
    System(SystemReason),
    /// A file or link of this name exists, but can't be opened for writing, is no regular file, or can't be locked.
    Unwritable,
    /// A read of the file might never end, because the file is, for example, a FIFO or a terminal.
    Endless,
    LongLayout,
    Length { wanted: u32, found: usize },
    /// The file has more than this number of bytes, which is the length that it must have.
    TooLong(u32),
    /// The file of a new journal, or of its checksums, exists already.
    Exists,
    /// The file is a journal, and would have been truncated.
    Journal,
    /// The file already has this role.
    Role(Role),
    Locked,
    /// Another program removed the file or replaced it, after this run locked it.
    Replaced,
    /// The program prints to the file.
    Printed,
}

/// The line with the cause of a file fault, with its line feed, or no text if the cause is unknown.
#[derive(Drop)]
pub struct CauseLine<'a> {
    pub fault: FileFault,
    pub name: &'a str,
    pub cause: Cause,
}

impl fmt::Display for CauseLine<'_> {
    ghost use Rattle.nor_console.specs.Causes.{cause_line};

    ghost output = { λ shown. Some (cause_line shown.fault shown.name.now shown.cause) };

    fn fmt<W: fmt::Write>(&self, f: &mut fmt::Formatter<W>) -> fmt::Result {
        let name = Escaped(self.name);
        match self.cause {
            Cause::Unknown => Ok(()),
            Cause::System(SystemReason::Missing) => writeln!(f, "error: there is no file '{name}'"),
            Cause::System(SystemReason::Directory) => writeln!(f, "error: '{name}' is a directory"),
            Cause::System(reason) => {
                let (verb, why) = (verb_of(self.fault), reason.as_str());
                writeln!(f, "error: '{name}' can't be {verb}: {why}")
            }
            Cause::Unwritable => writeln!(
                f,
                "error: '{name}' can't be overwritten: it is read-only, no regular file, or can't be locked"
            ),
            Cause::Endless => writeln!(f, "error: a read of '{name}' might never end"),
            Cause::LongLayout => writeln!(f, "error: the layout '{name}' has more than 16 MiB"),
            Cause::Length { wanted, found } => {
                writeln!(f, "error: '{name}' has {found} bytes instead of {wanted}")
            }
            Cause::TooLong(wanted) => {
                writeln!(
                    f,
                    "error: '{name}' has more than the {wanted} bytes that it must have"
                )
            }
            Cause::Exists => writeln!(
                f,
                "error: '{name}' exists already, and a journal never overwrites a file"
            ),
            Cause::Journal => writeln!(
                f,
                "error: '{name}' is a journal, which is never overwritten"
            ),
            Cause::Role(role) => {
                let used = role_text(role);
                writeln!(f, "error: '{name}' is already used as {used}")
            }
            Cause::Locked => writeln!(f, "error: another process has locked '{name}'"),
            Cause::Replaced => writeln!(f, "error: another program removed or replaced '{name}'"),
            Cause::Printed => writeln!(f, "error: the program prints to '{name}'"),
        }
    }
}

fn verb_of(fault: FileFault) -> &'static str
    ensures { result.now ≡ verb_of fault }
{
    match fault {
        FileFault::Read => "read",
        _ => "written",
    }
}

fn role_text(role: Role) -> &'static str
    ensures { result.now ≡ role_text role }
{
    match role {
        Role::Image => "image=",
        Role::Status => "status=",
        Role::Trace => "trace=",
        Role::Layout => "the layout of -l",
        Role::Wanted => "the image of -w or -v",
        Role::Output => "the file of -r",
        Role::Journal => "the journal",
    }
}

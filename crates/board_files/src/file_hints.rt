//! The line of advice that follows the line of a file fault, of error 15, or of an error while a file is written.

use crate::journals::advice;
use nor_console::{Cause, Fault, FileFault, SystemReason};
use nor_journal::JournalFault;
use nor_session::Refusal;
use std::io::Write;

/// Prints the advice that follows the line of a file fault or of error 15, if there is any.
pub fn print_hint<E: Write>(errors: &mut E, fault: &Fault<'_>) {
    if let Some(text) = hint_for(fault) {
        let _ = writeln!(errors, "{text}");
    }
}

fn hint_for(fault: &Fault<'_>) -> Option<&'static str> {
    match fault {
        Fault::File { fault, cause, .. } => file_fault_hint(*fault, *cause),
        Fault::Refused(Refusal::BadJournal(why)) => Some(advice(*why)),
        Fault::NoJournal => Some(advice(JournalFault::Magic)),
        _ => None,
    }
}

fn file_fault_hint(fault: FileFault, cause: Cause) -> Option<&'static str> {
    cause_hint(cause).or(file_hint(fault))
}

fn cause_hint(cause: Cause) -> Option<&'static str> {
    match cause {
        Cause::System(reason) => Some(reason_hint(reason)),
        Cause::Locked => Some("Another process has locked it: wait until that process has ended."),
        Cause::Printed => Some("This run prints to it: choose another file."),
        _ => None,
    }
}

/// Returns the advice for a file on which a system call failed for this reason.
pub fn reason_hint(reason: SystemReason) -> &'static str {
    match reason {
        SystemReason::Missing => "There is no such file: correct its name.",
        SystemReason::NoDirectory => "There is no such directory: correct its name.",
        SystemReason::Directory => "It is a directory: give the name of a file.",
        SystemReason::Denied => "Permission denied: correct its name or its permissions.",
        SystemReason::ReadOnly => "The file system is read-only: choose another directory.",
        SystemReason::Full => "No space is left on the disk: free some, or choose another disk.",
        SystemReason::Busy => {
            "Something else uses it: wait until that has ended, or choose another file."
        }
        SystemReason::Loop => "Its links form a loop, or are too many: correct its name.",
        SystemReason::LongName => "Its name is too long: shorten it.",
        SystemReason::InputOutput => "Input/output error: check the disk, or choose another disk.",
        SystemReason::Other => "The system refused it: choose another file or directory.",
    }
}

fn file_hint(fault: FileFault) -> Option<&'static str> {
    match fault {
        FileFault::Read => Some(
            "It is missing or can't be read: correct its name or its permissions.",
        ),
        FileFault::Write => Some(
            "It can't be created, written or locked: correct its name or permissions, or free disk \
            space.",
        ),
        FileFault::Exists => Some(
            "It exists already, and is never overwritten: choose a new name.",
        ),
        FileFault::Taken => Some(
            "It has two roles in this run, or another program uses it: give each role its own file, or wait for \
            that program.",
        ),
        _ => None,
    }
}

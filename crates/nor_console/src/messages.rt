//! The faults that end a run with exit status 1, and their texts.
ghost use Rattle.std.specs.Prelude.{◌≡◌, Some};
ghost use Rattle.nor_console.specs.Messages.{IsReportedAs};

use crate::causes::{Cause, CauseLine};
use crate::escapes::Escaped;
use crate::reasons::{JournalLine, LayoutLine, NO_JOURNAL, ReasonLine};
use nor_args::{Reason, UsageFault};
use nor_layout::LayoutFault;
use nor_maps::MapFault;
use nor_session::Refusal;
use std::alloc::AllocError;
use std::io::ErrorKind;
use std::{fmt, io};

/// A failure of a file. Its number is part of the message.
#[derive(Clone, Copy)]
pub enum FileFault {
    /// The file is missing, can't be looked up or read, is a layout of more than 16 MiB, is a file of the emulated chip
    /// whose read might never end, or is the output of a read but lacks bytes of a region that was read into it.
    Read = 1,
    /// The file can't be created, locked, written, truncated, or read before it is truncated; the file or its directory
    /// can't be synced; a file of the chip or a sealed journal was removed or replaced, or its length changed; or
    /// standard output can't be written.
    Write,
    /// A file of the emulated chip or of a region has a wrong length, or an image ends before the end of a region.
    Length,
    /// The file of a new journal, or of its checksums, already exists; a file that would be truncated is a journal; or
    /// the file for the log can't be read, or isn't empty and isn't a log.
    Exists,
    /// The run uses the file for another purpose, another process has locked it, or the program prints to it.
    Taken,
}

impl FileFault {
    ghost use Rattle.nor_console.specs.Messages.{file_number};

    pub fn number(self) -> u8
        ensures { result ≡ file_number self }
    {
        self as u8
    }
}

/// The fault that ends a run with exit status 1, or a request for help or the version. The requested text is printed to
/// standard output, with exit status 0 if printing succeeds.
#[derive(Drop)]
pub enum Fault<'a> {
    /// A usage fault and its reason, or a request for the help or the version.
    Usage {
        fault: UsageFault,
        reason: Reason<'a>,
    },
    /// The arguments are not UTF-8. This is printed as usage fault 1, as if the parser had rejected them.
    NoText,
    Layout(LayoutFault),
    /// An FMAP or a flash descriptor is missing or can't be used, or memory ran out while it was parsed. The fault's
    /// text is only the numbered line.
    Map(MapFault),
    /// Layout fault 8: `name` is the first given name that no region has.
    NoRegion {
        name: &'a str,
    },
    File {
        fault: FileFault,
        name: &'a str,
        cause: Cause,
    },
    /// The file has fewer than 8 bytes, and no journal begins with them. This is reported as error 15, journal fault 1.
    NoJournal,
    /// An error of the engine, returned by a call or detected by the program itself.
    Refused(Refusal),
}

impl Fault<'_> {
    ghost use Rattle.nor_console.specs.Messages.{IsOfArguments};
    ghost use Rattle.nor_console.specs.declared.messages.Fault.TheVariants as Faults;
    ghost use Rattle.nor_args.specs.declared.reasons.Reason.TheVariants as Reasons;
    ghost use Rattle.nor_args.specs.declared.words.UsageFault.TheVariants as Usage;

    /// Returns usage fault 10 if memory ran out, and `NoText` for any other error: the arguments are then not UTF-8.
    pub fn of_words(error: &io::Error) -> Fault<'static>
        ensures { IsOfArguments error.now result }
    {
        match error.kind() {
            ErrorKind::OutOfMemory => Fault::out_of_memory(),
            _ => Fault::NoText,
        }
    }

    pub fn out_of_memory() -> Fault<'static>
        ensures { result ≡ Faults.Usage Usage.Memory Reasons.Unsaid }
    {
        Fault::Usage {
            fault: UsageFault::Memory,
            reason: Reason::Unsaid,
        }
    }
}

/// Returns the result of a call to the engine, with the call's error as a fault of the run.
pub fn or_fault<'a, T>(outcome: Result<T, Refusal>) -> Result<T, Fault<'a>>
    ensures { IsReportedAs outcome result }
{
    match outcome {
        Ok(value) => Ok(value),
        Err(refusal) => Err(Fault::Refused(refusal)),
    }
}

impl From<AllocError> for Fault<'_> {
    ghost use Rattle.nor_console.specs.declared.messages.Fault.TheVariants.{Refused};
    ghost use Rattle.nor_request.specs.declared.refusal.Refusal.TheVariants.{Memory};

    ghost from_gives = { λ _ fault. fault ≡ Refused Memory };

    fn from(_: AllocError) -> Self {
        Fault::Refused(Refusal::Memory)
    }
}

#[derive(Clone, Copy)]
pub enum Wording {
    /// The line with the fault's number (`NumberedLine`), on which scripts rely.
    Numbered,
    /// The lines for the user that say what is wrong and why, if there are any, and then the numbered line.
    Explained,
}

impl fmt::Display for Fault<'_> {
    ghost use Rattle.nor_console.specs.FaultLines.{text_of};

    ghost output = { text_of };

    fn fmt<W: fmt::Write>(&self, f: &mut fmt::Formatter<W>) -> fmt::Result {
        write!(f, "{}{}", Explanation(self), NumberedLine(self))
    }
}

/// The line that says what is wrong, with its line feed, or no text if there is no such line.
#[derive(Drop)]
pub struct Explanation<'a>(pub &'a Fault<'a>);

impl fmt::Display for Explanation<'_> {
    ghost use Rattle.nor_console.specs.FaultLines.{explanation_of};

    ghost output = { λ shown. Some (explanation_of shown.0.now) };

    fn fmt<W: fmt::Write>(&self, f: &mut fmt::Formatter<W>) -> fmt::Result {
        match self.0 {
            Fault::Usage { reason, .. } => write!(f, "{}", ReasonLine(*reason)),
            Fault::Layout(fault) => write!(f, "{}", LayoutLine(*fault)),
            Fault::NoRegion { name } => {
                let name = Escaped(name);
                writeln!(f, "error: the layout has no region '{name}'")
            }
            Fault::NoJournal => f.write_str(NO_JOURNAL),
            Fault::Refused(refusal) => write!(f, "{}", JournalLine(refusal)),
            _ => Ok(()),
        }
    }
}

/// The line with the cause of a file fault, with its line feed, or no text for an unknown cause or any other fault.
#[derive(Drop)]
pub struct FaultCause<'a>(pub &'a Fault<'a>);

impl fmt::Display for FaultCause<'_> {
    ghost use Rattle.nor_console.specs.FaultLines.{cause_of};

    ghost output = { λ shown. Some (cause_of shown.0.now) };

    fn fmt<W: fmt::Write>(&self, f: &mut fmt::Formatter<W>) -> fmt::Result {
        let Fault::File { fault, name, cause } = self.0 else {
            return Ok(());
        };
        let (fault, name, cause) = (*fault, *name, *cause);
        write!(f, "{}", CauseLine { fault, name, cause })
    }
}

/// The line with the number of a fault, without a line feed at its end; for usage fault 1, the argument parser's text
/// and this line.
#[derive(Drop)]
pub struct NumberedLine<'a>(pub &'a Fault<'a>);

impl fmt::Display for NumberedLine<'_> {
    ghost use Rattle.nor_console.specs.FaultLines.{numbered_line};

    ghost output = { λ shown. numbered_line shown.0.now };

    fn fmt<W: fmt::Write>(&self, f: &mut fmt::Formatter<W>) -> fmt::Result {
        match self.0 {
            Fault::Usage { fault, .. } => write!(f, "{fault}"),
            Fault::NoText => f.write_str(
                "error: invalid UTF-8 was detected in one or more arguments\n\nUsage fault 1.",
            ),
            Fault::Layout(fault) => {
                let (number, place) = (fault.number(), Place(fault.line()));
                write!(f, "Layout fault {number}{place}.")
            }
            Fault::Map(fault) => write!(f, "Map fault {}.", fault.number()),
            Fault::NoRegion { .. } => f.write_str("Layout fault 8."),
            Fault::File { fault, name, .. } => {
                let name = Escaped(name);
                write!(f, "File fault {}: {name}.", fault.number())
            }
            Fault::NoJournal => f.write_str("Error 15: journal fault 1."),
            Fault::Refused(refusal) => {
                let number = refusal.number();
                write!(f, "Error {number}: {refusal}.")
            }
        }
    }
}

#[derive(Drop)]
struct Place(Option<usize>);

impl fmt::Display for Place {
    ghost use Rattle.nor_console.specs.FaultLines.{place};

    ghost output = { λ shown. Some (place shown.0) };

    fn fmt<W: fmt::Write>(&self, f: &mut fmt::Formatter<W>) -> fmt::Result {
        match self.0 {
            Some(line) => write!(f, " at line {line}"),
            None => Ok(()),
        }
    }
}

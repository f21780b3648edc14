//! Turns arguments into jobs, and defines the usage faults.
ghost use Rattle.std.specs.Prelude.{◌≡◌, IfOk, MatchResult, map, string_bytes, true};
ghost use Rattle.clap.specs.Words.{FailsBy, HasMatchesOf, app_of, fault_of, is_simple_and_free};
ghost use Rattle.nor_args.specs.Words.{AreWrong, AreWrongForHardware, IsFault, IsHardwareJob, IsJob};

use crate::given::{Given, chip_named, joined_names};
use crate::job::{HardwareJob, Job};
use crate::options::{Help, make_hardware_options, make_options};
use crate::reasons::WrongArguments;
use crate::tips::{Program, reword};
use clap::error::ErrorKind;
use clap::{ArgMatches, Command, Error as WordsError};
use std::alloc::{AllocError, Global};
use std::fmt;
use thiserror::Error;

/// A usage fault: the one with the lowest number from 1 to 9 that applies, or 10 if memory runs out.
#[derive(Debug, Drop, Error)]
pub enum UsageFault {
    /// 1: `clap` rejects the arguments, or they ask for the help or the version. The error contains the text to print.
    Words(WordsError),
    /// 2: both `-p` and `-L` are missing. For a program for hardware: `-p`, `-L` and `--check-journal` are missing.
    NoProgrammer,
    /// 3: the value of `-p` doesn't describe a programmer.
    Programmer,
    TwoOperations,
    /// 5: `--wp-range` or `--progress` has a wrong value, or an option of a program for hardware names the file `-`.
    Range,
    /// 6: a change without exactly one of `--journal` and `--rehearse`, or any of these two options without a change.
    Journal,
    /// 7: a layout without `-i`; `-i` without a layout; both without any of `-r`, `-v`, `-w`, `-E`; or several layouts.
    Layout,
    /// 8: an option without the operation that it needs (see `Reason`).
    Unneeded,
    /// 9: the value of `--rehearse` isn't 1 to 64 numbers, or both `--rehearse` and a `stop=` of `-p` are given.
    Stops,
    Memory,
}

impl UsageFault {
    ghost use Rattle.nor_args.specs.Faults.{usage_fault_number};

    /// Returns the number of the fault, 1 to 10, which its message contains.
    pub fn number(&self) -> u8
        ensures { result ≡ usage_fault_number self.now }
    {
        match self {
            UsageFault::Words(_) => 1,
            UsageFault::NoProgrammer => 2,
            UsageFault::Programmer => 3,
            UsageFault::TwoOperations => 4,
            UsageFault::Range => 5,
            UsageFault::Journal => 6,
            UsageFault::Layout => 7,
            UsageFault::Unneeded => 8,
            UsageFault::Stops => 9,
            UsageFault::Memory => 10,
        }
    }
}

impl fmt::Display for UsageFault {
    ghost use Rattle.nor_args.specs.Faults.{usage_fault_text};

    ghost output = { usage_fault_text };

    fn fmt<W: fmt::Write>(&self, f: &mut fmt::Formatter<W>) -> fmt::Result {
        if let UsageFault::Words(why) = self {
            write!(f, "{why}")?;
        }
        write!(f, "Usage fault {}.", self.number())
    }
}

impl From<AllocError> for UsageFault {
    ghost use Rattle.nor_args.specs.declared.words.UsageFault.TheVariants.{Memory};

    ghost from_gives = { λ _ fault. fault ≡ Memory };

    fn from(_: AllocError) -> UsageFault {
        UsageFault::Memory
    }
}

impl From<WordsError> for UsageFault {
    ghost use Rattle.nor_args.specs.Words.{BecomesFault};

    ghost from_gives = { BecomesFault };

    fn from(error: WordsError) -> UsageFault {
        if error.kind() == ErrorKind::OutOfMemory {
            UsageFault::Memory
        } else {
            UsageFault::Words(error)
        }
    }
}

/// Returns the job that the arguments after the program's name ask for, or a usage fault (see `UsageFault`).
pub fn request_of<'a>(alloc: Global, words: &'a [String]) -> Result<Job<'a>, UsageFault>
    ensures { MatchResult result (IsJob (map string_bytes words.now)) (IsFault (map string_bytes words.now)) }
{
    match explained_request_of(alloc, words) {
        Ok(job) => Ok(job),
        Err(wrong) => Err(wrong.fault),
    }
}

/// Returns the job that the arguments after the program's name ask for, or a usage fault with its reason.
pub fn explained_request_of<'a>(
    alloc: Global,
    words: &'a [String],
) -> Result<Job<'a>, WrongArguments<'a>>
    ensures { MatchResult result (IsJob (map string_bytes words.now)) (AreWrong (map string_bytes words.now)) }
{
    let matches = parse_words(alloc, Program::Flashnor, make_options(alloc)?, words)?;
    let given = Given::of(&matches);
    match given.job() {
        Ok(job) => Ok(job),
        Err(fault) => Err(given.explained(fault)),
    }
}

/// Returns the job that `words`, the arguments of a program for hardware after its name, ask for. Unless this returns
/// fault 1 or 10, `names` is set to the values of all `-i`, joined with commas, or to `None` without `-i`.
///
/// The error is a fault and its reason: fault 1 or 10; fault 2 if `-p`, `--check-journal` and `-L` are all missing; or
/// a fault from 4 to 8 with `--check-journal` or `-L`. Without these two options, such a fault is part of the job.
pub fn operation_of<'a>(
    alloc: Global,
    help: Help,
    words: &'a [String],
    names: &'a mut Option<String>,
) -> Result<HardwareJob<'a>, WrongArguments<'a>>
    ensures { MatchResult result (IsHardwareJob help.program.now (map string_bytes words.now))
        (AreWrongForHardware help.program.now (map string_bytes words.now)) }
{
    let matches = parse_words(
        alloc,
        Program::Hardware,
        make_hardware_options(alloc, help)?,
        words,
    )?;
    let named = chip_named(alloc, &matches)?;
    *names = joined_names(alloc, &matches)?;
    Given::of_hardware(&matches, names.as_deref()).hardware_job(named)
}

fn parse_words<'a>(
    alloc: Global,
    program: Program,
    mut options: Command<'a>,
    words: &'a [String],
) -> Result<ArgMatches<'a>, WordsError>
    ensures matches { IfOk result (HasMatchesOf (app_of options.entry) (map string_bytes words.now)) }
    ensures kinds { is_simple_and_free (app_of options.entry) ≡ true
        → FailsBy (fault_of (app_of options.entry) (map string_bytes words.now)) result }
{
    match options.try_get_matches_from_mut(words) {
        Ok(matches) => Ok(matches),
        Err(error) => Err(reword(alloc, program, &mut options, error)?),
    }
}

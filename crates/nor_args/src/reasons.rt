//! The reason of a usage fault: what is wrong with the arguments.
ghost use Rattle.std.specs.Prelude.{◌≡◌};

use crate::words::UsageFault;
use clap::Error as WordsError;
use std::alloc::AllocError;

/// An option that a reason may name.
#[derive(Clone, Copy)]
pub enum OptionName {
    List,
    FlashSize,
    FlashName,
    WpStatus,
    WpList,
    Read,
    Verify,
    Write,
    Erase,
    WpRange,
    Restore,
    Backup,
    CheckJournal,
    ExtractImage,
    WpEnable,
    WpDisable,
    Journal,
    Rehearse,
    Layout,
    Include,
    FmapFile,
    IfdFile,
    Fmap,
    Ifd,
    Quick,
    ReplacedChip,
    NoVerify,
    Unlock,
    Output,
}

impl OptionName {
    ghost use Rattle.nor_args.specs.Reasons.{option_text};

    /// Returns the option as you type it.
    pub fn as_str(self) -> &'static str
        ensures { result.now ≡ option_text self }
    {
        match self {
            OptionName::List => "-L",
            OptionName::FlashSize => "--flash-size",
            OptionName::FlashName => "--flash-name",
            OptionName::WpStatus => "--wp-status",
            OptionName::WpList => "--wp-list",
            OptionName::Read => "-r",
            OptionName::Verify => "-v",
            OptionName::Write => "-w",
            OptionName::Erase => "-E",
            OptionName::WpRange => "--wp-range",
            OptionName::Restore => "--restore",
            OptionName::Backup => "--backup",
            OptionName::CheckJournal => "--check-journal",
            OptionName::ExtractImage => "--extract-image",
            OptionName::WpEnable => "--wp-enable",
            OptionName::WpDisable => "--wp-disable",
            OptionName::Journal => "--journal",
            OptionName::Rehearse => "--rehearse",
            OptionName::Layout => "-l",
            OptionName::Include => "-i",
            OptionName::FmapFile => "--fmap-file",
            OptionName::IfdFile => "--ifd-file",
            OptionName::Fmap => "--fmap",
            OptionName::Ifd => "--ifd",
            OptionName::Quick => "--quick",
            OptionName::ReplacedChip => "--replaced-chip",
            OptionName::NoVerify => "-n",
            OptionName::Unlock => "--unlock",
            OptionName::Output => "-o",
        }
    }
}

/// The flaw of a setting of `-p`: an unknown key, a wrong value, or a key that another setting has, too.
#[derive(Clone, Copy)]
pub enum Flaw {
    Key,
    Value,
    Twice,
}

impl Flaw {
    ghost use Rattle.nor_args.specs.Reasons.{flaw_by};

    /// Returns the flaw of a wrong setting. `known`: its key is known. `valid`: its key is known and its value correct.
    pub fn of(known: bool, valid: bool) -> Flaw
        ensures { result ≡ flaw_by known valid }
    {
        match (known, valid) {
            (false, _) => Flaw::Key,
            (true, false) => Flaw::Value,
            (true, true) => Flaw::Twice,
        }
    }
}

/// The reason of a usage fault. A number at a variant is the number of the fault.
#[derive(Clone, Copy)]
pub enum Reason<'a> {
    /// No reason is given. For 1, `clap`'s message contains the reason; 10 means that memory ran out.
    Unsaid,
    NoProgrammer,
    /// 3: the value of `-p` doesn't begin with `dummy:`.
    NoPrefix,
    /// 3: `setting` is the first setting of `-p` that has a flaw, and `flaw` is this flaw.
    Setting { setting: &'a str, flaw: Flaw },
    /// 3: no setting of `-p` has a flaw, but `emulate=` is missing.
    NoChip,
    /// For 4: the first and the last given operation, in the order of the help, but with `--flash-name` after
    /// `--flash-size`. For 7: the first and the last given option for a layout, in the order `-l`, `--fmap-file`,
    /// `--ifd-file`, `--fmap`, `--ifd`.
    Operations { first: OptionName, last: OptionName },
    /// 5: this value of `--wp-range` isn't a start and a length.
    Range(&'a str),
    /// 5: this value of `--progress` isn't a mode.
    Progress(&'a str),
    /// 5: this option of a program for hardware names the file `-`.
    Dash(OptionName),
    /// 6: this option asks for a change, but neither `--journal` nor `--rehearse` is given.
    NoJournal(OptionName),
    JournalAndRehearse,
    /// 6: this option (`--journal` or `--rehearse`) is given without any of `-w`, `-E` and `--wp-range`.
    NoChange(OptionName),
    /// 7: this option gives a layout, but `-i` is missing.
    NoNames(OptionName),
    /// 7: `-i` is given, but an option that gives a layout is missing.
    NoLayout,
    /// 7: this option gives a layout and `-i` is given, but without any of `-r`, `-v`, `-w` and `-E`.
    NoRegions(OptionName),
    /// 8: this option is given with neither `-w` nor `-E`.
    NoContent(OptionName),
    /// 8: `-N` is given with none of `-w`, `-E` and `--restore`.
    NoComparison,
    /// 8: this option (`--quick` or `--replaced-chip`) is given without `--restore`.
    NoRestore(OptionName),
    /// 8: `--extract-image` is given without `--check-journal`.
    NoCheck,
    /// 9: this is the first part of the value of `--rehearse` that `read_number` rejects.
    Stop(&'a str),
    /// 9: the value of `--rehearse` has more than 64 numbers.
    ManyStops,
    /// 9: both `--rehearse` and a `stop=` of `-p` are given.
    StopAndRehearse,
}

/// A usage fault with its reason.
#[derive(Drop)]
pub struct WrongArguments<'a> {
    pub fault: UsageFault,
    pub reason: Reason<'a>,
}

impl From<AllocError> for WrongArguments<'_> {
    ghost use Rattle.nor_args.specs.Reasons.{IsOutOfMemory};

    ghost from_gives = { λ _ wrong. IsOutOfMemory wrong };

    fn from(error: AllocError) -> Self {
        let reason = Reason::Unsaid;
        WrongArguments {
            fault: UsageFault::from(error),
            reason,
        }
    }
}

impl From<WordsError> for WrongArguments<'_> {
    ghost use Rattle.nor_args.specs.Words.{BecomesWrong};

    ghost from_gives = { BecomesWrong };

    fn from(error: WordsError) -> Self {
        let reason = Reason::Unsaid;
        WrongArguments {
            fault: UsageFault::from(error),
            reason,
        }
    }
}

//! The types of the jobs that the arguments may ask for.
ghost use Rattle.std.specs.Prelude.{◌≡◌};

use crate::programmer::Programmer;
use crate::reasons::WrongArguments;
use crate::stops::MOST_STOPS;
use arrayvec::ArrayVec;
use nor_probe::ChipName;

/// The job that the arguments of flashnor ask for.
#[derive(Drop)]
pub enum Job<'a> {
    List,
    /// Without `-L`: identify a chip, and perform at most one operation on it.
    Chip(ChipJob<'a>),
}

/// A job of flashnor on the emulated chip that `-p` names.
#[derive(Drop)]
pub struct ChipJob<'a> {
    pub programmer: Programmer<'a>,
    /// `-c NAME`: the name that the chip must have.
    pub named: Option<ChipName>,
    pub task: Task<'a>,
}

/// The job that the arguments of a program for hardware ask for.
#[derive(Drop)]
pub enum HardwareJob<'a> {
    /// `--check-journal FILE`: describe the journal and, with `--extract-image`, write its image to the file `image`.
    /// Ignores `-p`.
    CheckJournal {
        file: &'a str,
        image: Option<&'a str>,
    },
    /// `-L`: list the known chips. Ignores `-p`.
    List,
    Chip(ProgrammerJob<'a>),
}

/// A job of a program for hardware on the chip of a programmer.
#[derive(Drop)]
pub struct ProgrammerJob<'a> {
    /// The value of `-p` as you typed it. This crate doesn't parse it.
    pub programmer: &'a str,
    /// The operation that the options ask for, or the first of the usage faults 4 to 8 that they have, with its reason.
    /// If the value of `-p` is wrong, the program must report usage fault 3 instead.
    pub operation: Result<Operation<'a>, WrongArguments<'a>>,
}

/// An operation of a program for hardware, and how the program performs and shows it.
#[derive(Drop)]
pub struct Operation<'a> {
    pub named: Option<ChipName>,
    /// True without `-N`: after a restore, also check the sectors that the journal doesn't save; after a verified write
    /// or erase, compare the whole chip.
    pub verifies_all: bool,
    /// True with `--quick`: a restore writes only the saved sectors that differ.
    pub is_quick: bool,
    /// True with `--replaced-chip`: a restore accepts a journal of a whole chip for another device of the same type.
    pub is_replaced_chip: bool,
    /// True with `--backup`: `task` is `Task::Read`, and its file is a new journal that saves the whole chip.
    pub is_backup: bool,
    /// True with `--flash-name`: `task` is `Task::Probe`, and the program prints the name of the identified chip.
    pub is_flash_name: bool,
    /// `--wp-enable` (true) or `--wp-disable` (false): `task` is `Task::Probe`. Sets or clears SRP0, bit 7 of status 1.
    pub srp0: Option<bool>,
    pub progress: ProgressMode,
    pub is_verbose: bool,
    /// `-o FILE`: the name of the file into which the log of the run is written.
    pub log: Option<&'a str>,
    pub task: Task<'a>,
}

/// How a program for hardware shows the progress of its job (`--progress MODE`).
#[derive(Clone, Copy)]
pub enum ProgressMode {
    /// `auto`, the default: one rewritten line on a terminal, lines below each other on another character device, and
    /// at most one line per minute on any other standard error.
    Auto,
    /// `plain`: lines below each other, even if standard error is a file or a pipe.
    Plain,
    Hidden,
}

impl ProgressMode {
    ghost use Rattle.nor_args.specs.Given.{progress_of};

    /// Returns the mode that `auto`, `plain` or `none` names, or `None` for any other text.
    pub fn read(text: &str) -> Option<ProgressMode>
        ensures { result ≡ progress_of text.now }
    {
        if text == "auto" {
            Some(ProgressMode::Auto)
        } else if text == "plain" {
            Some(ProgressMode::Plain)
        } else if text == "none" {
            Some(ProgressMode::Hidden)
        } else {
            None
        }
    }
}

/// An operation on a chip.
#[derive(Drop)]
pub enum Task<'a> {
    /// Identify the chip. In a program for hardware, `is_flash_name` and `srp0` of `Operation` may ask for more.
    Probe,
    FlashSize,
    WpStatus,
    WpList,
    /// `-r FILE`, or `--backup FILE` (`Operation::is_backup`): read the chip into the named file.
    Read {
        file: &'a str,
        regions: Option<Regions<'a>>,
    },
    Verify {
        file: &'a str,
        regions: Option<Regions<'a>>,
    },
    Change(Change<'a>),
    Restore {
        journal: &'a str,
    },
}

/// The regions to which an operation is limited: a layout, and the names of the included regions.
#[derive(Clone, Copy)]
pub struct Regions<'a> {
    /// The file that `-l`, `--fmap-file` or `--ifd-file` names, or `None` if the layout is read from the chip.
    pub layout: Option<&'a str>,
    pub form: LayoutForm,
    /// `-i NAMES`: the names of the regions, separated by commas; in a program for hardware also `NAME:FILE`.
    pub names: &'a str,
}

#[derive(Clone, Copy)]
pub enum LayoutForm {
    /// `-l` of flashnor: lines `START:END NAME`.
    Lines,
    /// `-l` of a program for hardware: lines `START:END NAME` with any blanks around the two words, as in flashrom.
    Words,
    /// `--fmap-file` and `--fmap`: an image or the bytes of the chip, with an FMAP.
    Fmap,
    /// `--ifd-file` and `--ifd`: an image or the bytes of the chip, which begin with an Intel flash descriptor.
    Descriptor,
}

/// A write, an erase or a change of protection, either with a journal or as a rehearsal.
#[derive(Drop)]
pub struct Change<'a> {
    pub wanted: Wanted<'a>,
    /// The regions to which the change is limited, or `None` for the whole chip.
    pub regions: Option<Regions<'a>>,
    /// True with `--unlock`: lift protection that is in the way, and set it again at the end.
    pub unlock: bool,
    /// True without `-n`: read back what was written, and compare it.
    pub verify: bool,
    pub journal_use: JournalUse<'a>,
}

/// The target of a change.
#[derive(Clone, Copy)]
pub enum Wanted<'a> {
    Write { image: &'a str },
    /// `-E`: FFh for each included byte.
    Erase,
    /// `--wp-range S,L`: protection of the `len` bytes from address `start` on, and of no others.
    Range { start: u32, len: u32 },
}

/// What is done with the journal of a change.
#[derive(Drop)]
pub enum JournalUse<'a> {
    Journal { file: &'a str },
    /// `--rehearse N,N,..`: the most transactions that the change, then the first restore, then the second, and so on
    /// may send. A restore without a number isn't stopped.
    Rehearse { stops: ArrayVec<u64, MOST_STOPS> },
}

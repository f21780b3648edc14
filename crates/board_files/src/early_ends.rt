//! The reasons why a run ends before its job starts, and the lines that are printed for these reasons.
ghost use Rattle.std.specs.Prelude.{◌≡◌};

use crate::images::NotWhole;
use crate::layout_lines::NamesLine;
use crate::region_faults::RegionFault;
use nor_console::Fault;
use std::fmt;

/// The reason why a run ends before its job starts, except faults of the programmer.
#[derive(Drop)]
pub enum EarlyEnd<'a> {
    Fault(Fault<'a>),
    Region(RegionFault<'a>),
    NotWhole(NotWhole<'a>),
    /// Layout fault 8: `-i` contains this name, but no region in `known` has it.
    NoRegion { name: &'a str, known: NamesLine<'a> },
}

impl<'a> From<Fault<'a>> for EarlyEnd<'a> {
    ghost use Rattle.board_files.specs.declared.early_ends.EarlyEnd.TheVariants as early;

    ghost from_gives = { λ fault ended. ended ≡ early.Fault fault };

    fn from(fault: Fault<'a>) -> EarlyEnd<'a> {
        EarlyEnd::Fault(fault)
    }
}

impl<'a> From<RegionFault<'a>> for EarlyEnd<'a> {
    ghost use Rattle.board_files.specs.declared.early_ends.EarlyEnd.TheVariants as early;

    ghost from_gives = { λ fault ended. ended ≡ early.Region fault };

    fn from(fault: RegionFault<'a>) -> EarlyEnd<'a> {
        EarlyEnd::Region(fault)
    }
}

impl<'a> From<NotWhole<'a>> for EarlyEnd<'a> {
    ghost use Rattle.board_files.specs.declared.early_ends.EarlyEnd.TheVariants as early;

    ghost from_gives = { λ fault ended. ended ≡ early.NotWhole fault };

    fn from(fault: NotWhole<'a>) -> EarlyEnd<'a> {
        EarlyEnd::NotWhole(fault)
    }
}

impl fmt::Display for EarlyEnd<'_> {
    fn fmt<W: fmt::Write>(&self, f: &mut fmt::Formatter<W>) -> fmt::Result {
        match self {
            EarlyEnd::Fault(fault) => write!(f, "{fault}"),
            EarlyEnd::Region(fault) => write!(f, "{fault}"),
            EarlyEnd::NotWhole(fault) => write!(f, "{fault}"),
            EarlyEnd::NoRegion { name, known } => {
                write!(f, "{}\n{known}", Fault::NoRegion { name: *name })
            }
        }
    }
}

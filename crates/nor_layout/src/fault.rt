//! The faults of layout texts and of names of regions.

ghost use Rattle.std.specs.Prelude.{◌≡◌};
ghost use Rattle.nor_layout.specs.Faults.{layout_fault_number, line_of_fault};
ghost use Rattle.nor_layout.specs.declared.fault.LayoutFault.TheVariants.{Memory};

use crate::region::REGIONS;
use std::alloc::{AllocError, AllocFailed};
use std::error::Error;
use std::fmt;

/// A fault of one line of a layout text. The variants are in the order in which they are checked.
#[derive(Clone, Copy, Debug, PartialEq, Eq)]
pub enum LineFault {
    /// The line has no `:`, or no space after the first `:`.
    Line = 1,
    /// The start or the end isn't an address.
    Address,
    Backwards,
    /// The name is empty, is longer than 32 bytes, or contains `,`, `:` or a byte that is no visible ASCII character.
    Name,
    /// An earlier line has the same name.
    Twice,
}

impl fmt::Display for LineFault {
    fn fmt<W: fmt::Write>(&self, f: &mut fmt::Formatter<W>) -> fmt::Result {
        f.write_str(match self {
            LineFault::Line => "the line isn't `start:end name`",
            LineFault::Address => "the start or the end is no address",
            LineFault::Backwards => "the end lies below the start",
            LineFault::Name => "the name is empty, too long, or has a byte that no name may have",
            LineFault::Twice => "an earlier line gave the same name",
        })
    }
}

impl Error for LineFault {}

/// A fault of a layout text or of the names given to `Layout::include`, or `Memory` if an allocation failed.
#[derive(Clone, Copy, Debug, PartialEq, Eq)]
pub enum LayoutFault {
    /// A line has a fault. Lines are counted from 1, including empty lines.
    InLine { line: usize, fault: LineFault },
    /// The text has more than 64 regions.
    TooMany,
    Memory,
    /// A name given to `Layout::include` isn't the name of a region.
    NoRegion,
}

impl LayoutFault {
    /// Returns the number of the fault, 1 to 8, which messages print.
    pub fn number(self) -> u8
        ensures { result ≡ layout_fault_number self }
    {
        match self {
            LayoutFault::InLine { fault, .. } => fault as u8,
            LayoutFault::TooMany => 6,
            LayoutFault::Memory => 7,
            LayoutFault::NoRegion => 8,
        }
    }

    /// Returns the number of the line with the fault, counted from 1, or `None` if the fault isn't `InLine`.
    pub fn line(self) -> Option<usize>
        ensures { result ≡ line_of_fault self }
    {
        match self {
            LayoutFault::InLine { line, .. } => Some(line),
            LayoutFault::TooMany | LayoutFault::Memory | LayoutFault::NoRegion => None,
        }
    }
}

impl fmt::Display for LayoutFault {
    fn fmt<W: fmt::Write>(&self, f: &mut fmt::Formatter<W>) -> fmt::Result {
        match self {
            LayoutFault::InLine { line, fault } => write!(f, "line {line}: {fault}"),
            LayoutFault::TooMany => write!(f, "the layout has more than {REGIONS} regions"),
            LayoutFault::Memory => f.write_str("memory was refused"),
            LayoutFault::NoRegion => f.write_str("no region has one of the names"),
        }
    }
}

impl Error for LayoutFault {}

impl From<AllocError> for LayoutFault {
    ghost from_gives = { λ _ e. e ≡ Memory };

    fn from(_e: AllocError) -> LayoutFault {
        LayoutFault::Memory
    }
}

impl<T: Drop> From<AllocFailed<T>> for LayoutFault {
    ghost from_gives = { λ _ e. e ≡ Memory };

    fn from(_e: AllocFailed<T>) -> LayoutFault {
        LayoutFault::Memory
    }
}

//! Layouts that are made by adding regions, such as those of a table in an image, instead of reading a layout text.

ghost use Rattle.std.specs.Prelude.{◌≡◌, ◌≤◌};
ghost use Rattle.nor_layout.specs.Adding.{region_fault_number};
ghost use Rattle.nor_layout.specs.declared.layout.adding.RegionFault.TheVariants.{Memory};

use crate::layout::{Layout, is_named};
use crate::line::is_name;
use crate::region::{REGIONS, Region};
use std::alloc::{AllocFailed, Global};
use std::error::Error;
use std::fmt;

/// The reason why a region can't be added to a layout. The variants are in the order in which they are checked.
#[derive(Clone, Copy, Debug, PartialEq, Eq)]
pub enum RegionFault {
    /// The name is empty, or contains `,`, `:` or a byte that is no visible ASCII character.
    Name = 1,
    /// The layout has a region with the same name.
    Twice,
    /// The layout has 64 regions already.
    TooMany,
    Memory,
}

impl RegionFault {
    /// Returns the number of the fault, 1 to 4 in the order of the variants.
    pub fn number(self) -> u8
        ensures { result ≡ region_fault_number self }
    {
        self as u8
    }
}

impl fmt::Display for RegionFault {
    fn fmt<W: fmt::Write>(&self, f: &mut fmt::Formatter<W>) -> fmt::Result {
        f.write_str(match self {
            RegionFault::Name => "the name is empty, or has a byte that no name may have",
            RegionFault::Twice => "the layout has a region of the same name",
            RegionFault::TooMany => "the layout has 64 regions already",
            RegionFault::Memory => "memory was refused",
        })
    }
}

impl Error for RegionFault {}

impl<T: Drop> From<AllocFailed<T>> for RegionFault {
    ghost from_gives = { λ _ e. e ≡ Memory };

    fn from(_e: AllocFailed<T>) -> RegionFault {
        RegionFault::Memory
    }
}

impl Layout {
    ghost use Rattle.std.specs.Prelude.{[]};
    ghost use Rattle.nor_layout.specs.Adding.{Adds};

    /// Returns a layout without regions. Allocates nothing.
    pub fn new(alloc: Global) -> Layout
        ensures { result ≡ [] }
    {
        Layout {
            regions: Vec::new(alloc),
        }
    }

    /// Adds a region after the others, which it may overlap. `region.end`, which is included, must not be below
    /// `region.start`. Returns `Memory` if an allocation fails. After an error the layout is unchanged.
    pub fn add(&mut self, region: Region) -> Result<(), RegionFault>
        requires { region.start ≤ region.end }
        ensures { Adds self.old self.new region result }
    {
        if !is_name(&region.name) {
            return Err(RegionFault::Name);
        }
        if is_named(&self.regions, &region.name) {
            return Err(RegionFault::Twice);
        }
        if self.regions.len() >= REGIONS {
            return Err(RegionFault::TooMany);
        }
        self.regions.push(region)?;
        Ok(())
    }
}

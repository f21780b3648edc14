//! The faults of flash descriptors and FMAPs.

ghost use Rattle.std.specs.Prelude.{◌≡◌};
ghost use Rattle.nor_maps.specs.Faults.{map_fault_number};

use nor_layout::RegionFault;
use std::error::Error;
use std::fmt;

/// The reason why no layout can be read from an image. `record` is the number of the record with the fault: the entries
/// of a descriptor are counted from 0, and the areas of an FMAP from 1.
#[derive(Clone, Copy, Debug, PartialEq, Eq)]
pub enum MapFault {
    /// The image has no flash descriptor, or no FMAP.
    Missing,
    /// For a descriptor: the image has fewer than 4,096 bytes, or the region table runs past the end of the descriptor.
    /// For an FMAP: the image ends before the last area does.
    Short,
    /// A region reaches past the end of the chip.
    Outside { record: u16 },
    /// A region can't be added to the layout, for the given reason.
    Region { record: u16, fault: RegionFault },
}

impl MapFault {
    /// Returns the number of the fault, 1 to 7, which messages print. For `Region` it is 3 plus the number of `fault`.
    pub fn number(self) -> u8
        ensures { result ≡ map_fault_number self }
    {
        match self {
            MapFault::Missing => 1,
            MapFault::Short => 2,
            MapFault::Outside { .. } => 3,
            MapFault::Region { fault, .. } => 3 + fault.number(),
        }
    }
}

impl fmt::Display for MapFault {
    fn fmt<W: fmt::Write>(&self, f: &mut fmt::Formatter<W>) -> fmt::Result {
        match self {
            MapFault::Missing => f.write_str("the image has no table of regions"),
            MapFault::Short => f.write_str("the table of regions is cut short"),
            MapFault::Outside { record } => write!(
                f,
                "region {record} of the table lies outside the chip"
            ),
            MapFault::Region { record, fault } => write!(
                f,
                "region {record} of the table: {fault}"
            ),
        }
    }
}

impl Error for MapFault {}

//! A region of a chip: its addresses and its name.

use arrayvec::ArrayVec;

/// The greatest length of a region's name, in bytes.
pub const NAME_LEN: usize = 32;

/// The greatest number of regions in a layout.
pub const REGIONS: usize = 64;

/// A named region of a chip: the addresses from `start` to `end`, both included, in bytes from the chip's beginning.
#[derive(Debug, Drop)]
pub struct Region {
    pub start: u32,
    pub end: u32,
    pub name: ArrayVec<u8, NAME_LEN>,
}

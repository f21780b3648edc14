//! A list of chip IDs that a bus owns.
use arrayvec::ArrayVec;

/// The greatest number of IDs of `ChipIds`: the number of chips that have a row in nor_probe's table.
const MOST_CHIP_IDS: usize = 9;

/// IDs of chips: the three bytes that 9Fh returns.
pub type ChipIds = ArrayVec<[u8; 3], MOST_CHIP_IDS>;

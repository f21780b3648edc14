//! The types of erase blocks and of erases.

ghost use Rattle.std.specs.Prelude.{◌≡◌, ◌*◌};
ghost use Rattle.nor_driver.specs.Units.{opcode_of, is_aligned};

use nor_geometry::SECTOR_LEN;
use nor_model::opcodes::{ERASE_32K, ERASE_64K, ERASE_CHIP, ERASE_SECTOR};

/// The kind of block that one erase command sets to FFh.
#[derive(Clone, Copy, Debug, PartialEq, Eq)]
pub enum EraseBlock {
    /// A sector of 4 KiB (20h).
    Sector,
    /// An aligned block of 32 KiB (52h).
    Block32,
    /// An aligned block of 64 KiB (D8h).
    Block64,
    /// The whole chip (C7h).
    Chip,
}

impl EraseBlock {
    pub(crate) fn opcode(self) -> u8
        ensures { result ≡ opcode_of self }
    {
        match self {
            EraseBlock::Sector => ERASE_SECTOR,
            EraseBlock::Block32 => ERASE_32K,
            EraseBlock::Block64 => ERASE_64K,
            EraseBlock::Chip => ERASE_CHIP,
        }
    }
}

/// An erase of one block.
#[derive(Clone, Copy, Debug, PartialEq, Eq)]
pub struct Erase {
    pub unit: EraseBlock,
    /// The number of the first sector of the block.
    pub sector: u16,
}

impl Erase {
    /// Returns the first address of the erased block.
    pub fn address(self) -> u32
        ensures { result ≡ 4096 * self.sector }
    {
        SECTOR_LEN * u32::from(self.sector)
    }

    /// Returns whether the block is aligned: 32 and 64 KiB blocks to their size, and the whole chip to sector 0.
    pub fn is_aligned(self) -> bool
        ensures { result ≡ is_aligned self.unit self.sector }
    {
        match self.unit {
            EraseBlock::Sector => true,
            EraseBlock::Block32 => self.sector % 8 == 0,
            EraseBlock::Block64 => self.sector % 16 == 0,
            EraseBlock::Chip => self.sector == 0,
        }
    }
}

//! The lengths of sectors and pages, and the sizes that a chip may have.
ghost use Rattle.std.specs.Prelude.{◌≡◌};
ghost use Rattle.nor_geometry.specs.Size.{is_chip_size};

/// The length of a sector, the smallest erase block, in bytes.
pub const SECTOR_LEN: u32 = 4096;

/// The greatest number of sectors of a chip. Three address bytes reach 16 MiB.
pub const MOST_SECTORS: u32 = 4096;

/// The length of a page in bytes. One program command writes within one page.
pub const PAGE_LEN: usize = 256;

/// Returns whether a chip may have `size` bytes: a power of two from 64 KiB to 16 MiB.
pub fn is_chip_size(size: u32) -> bool
    ensures { result ≡ is_chip_size size }
{
    matches!(size, 0x1_0000..=0x100_0000) && size.is_power_of_two()
}

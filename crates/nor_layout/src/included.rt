//! The addresses that a request includes: those in its ranges or, if it has no ranges, all addresses of the chip.

ghost use Rattle.std.specs.Prelude.{◌≡◌, ◌<◌, ◌+◌, ◌*◌, ℕ, length, slice_index};
ghost use Rattle.std.specs.Prelude.{MatchBool, if◌then◌else◌, option_copied};
ghost use Rattle.nor_layout.specs.Sectors.{includes, SomeInSector, NoneInSector, has_in_sector};
ghost use Rattle.nor_layout.specs.Sectors.{ReachesPast, FitsInto, merged_byte, AreOfSector};

use crate::ranges::Ranges;
use nor_geometry::SECTOR_LEN;

const ERASED: u8 = 0xFF;

/// Returns true if `address` is in the ranges, or if there are no ranges (`None`).
pub fn includes(included: Option<&Ranges>, address: u32) -> bool
    ensures { result ≡ includes (option_copied included.entry) address }
{
    match included {
        Some(ranges) => ranges.contains(address),
        None => true,
    }
}

/// Returns true if some address of the given sector is in the ranges, or if there are no ranges (`None`).
pub fn includes_in_sector(included: Option<&Ranges>, sector: u32) -> bool
    ensures test { result ≡ has_in_sector (includes (option_copied included.entry)) sector }
    ensures cases { MatchBool result
        (SomeInSector (includes (option_copied included.entry)) sector)
        (NoneInSector (includes (option_copied included.entry)) sector) }
{
    match included {
        Some(ranges) => ranges.has_in_sector(sector),
        None => true,
    }
}

/// Returns true if some address in the ranges is past the end of a chip of `size` bytes. Without ranges returns false.
pub fn reaches_past(included: Option<&Ranges>, size: u32) -> bool
    ensures { MatchBool result
        (ReachesPast (option_copied included.entry) size) (FitsInto (option_copied included.entry) size) }
{
    match included {
        Some(ranges) => ranges.reaches(size),
        None => false,
    }
}

/// Copies from `other` to `bytes` the bytes of `sector` whose addresses aren't included. Both must have 4,096 bytes.
pub fn fill_excluded(included: Option<&Ranges>, sector: u32, bytes: &mut [u8], other: &[u8])
    requires long { length bytes.old ≡ 4096 }
    requires other_long { length other.now ≡ 4096 }
    ensures bytes { (i : ℕ) → i < 4096 → slice_index bytes.new i
        ≡ (if includes (option_copied included.entry) (4096 * sector + i)
        then slice_index bytes.old i else slice_index other.now i) }
    ensures wanted { (image content : ℕ → ℕ)
        → AreOfSector image sector bytes.old → AreOfSector content sector other.now
        → AreOfSector (merged_byte (includes (option_copied included.entry)) image content) sector bytes.new }
{
    if let Some(ranges) = included {
        ranges.fill_excluded(sector, bytes, other);
    }
}

/// Sets the bytes at those addresses of `sector` that aren't included to FFh. `bytes` must have 4,096 bytes.
pub fn blank_excluded(included: Option<&Ranges>, sector: u32, bytes: &mut [u8])
    requires long { length bytes.old ≡ 4096 }
    ensures { (i : ℕ) → i < 4096 → slice_index bytes.new i
        ≡ (if includes (option_copied included.entry) (4096 * sector + i)
        then slice_index bytes.old i else 255) }
{
    fill_excluded(included, sector, bytes, &[ERASED; SECTOR_LEN as usize]);
}

//! The trait `Source`, which has the target bytes of a change.
ghost use Rattle.std.specs.Prelude.{◌≡◌, ◌<◌, ◌+◌, ◌*◌, ℕ, Bool, true, slice_index};

use nor_geometry::SECTOR_LEN;

/// A source of target bytes for some sectors, for example an image or the records of a journal.
pub trait Source {
    ghost has: { Self → ℕ → Bool };

    // The target byte at an address, which must be in a sector that the source has.
    ghost wanted: { Self → ℕ → ℕ };

    /// Returns the 4,096 target bytes of a sector that the source has.
    fn sector(&self, sector: u32) -> &[u8; SECTOR_LEN as usize]
        requires { has self.now sector ≡ true }
        ensures bytes { (i : ℕ) → i < 4096 → slice_index result.now i ≡ wanted self.now (4096 * sector + i) };
}

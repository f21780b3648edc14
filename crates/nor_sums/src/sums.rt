//! A table of the checksums of a chip's sectors.
ghost use Rattle.std.specs.Prelude.{◌≡◌, ◌≢◌, ◌<◌, ℕ, IfOk, None, Some, length, slice_get};
ghost use Rattle.nor_sums.specs.Sums.{entry_of, sum_of};

use sha2::{Digest, Sha256};
use std::alloc::{AllocError, Global};

/// The number of entries in a table of checksums, which is the number of sectors of the largest chip (16 MiB).
pub const SECTORS: usize = 4096;

/// Returns the checksum of a sector with these bytes: the first eight bytes of their SHA-256.
#[tactic(auto, unfolding(crate::specs::Sums::sum_of))]
pub fn sum_of(bytes: &[u8]) -> [u8; 8]
    ensures { result ≡ sum_of bytes.now }
{
    let digest = Sha256::digest(bytes);
    let mut sum = [0; 8];
    sum.copy_from_slice(&digest[..8]);
    sum
}

/// The checksums of a chip's sectors, indexed by the sector's number. `None` means that the checksum isn't known.
#[derive(Drop)]
pub struct Sums {
    pub entries: Vec<Option<[u8; 8]>>,
}

impl Sums {
    /// Returns a table in which no checksum is known, or an error if memory runs out.
    pub fn new(alloc: Global) -> Result<Sums, AllocError>
        ensures { IfOk result (λ sums. length sums.entries.items ≡ 4096) }
    {
        let entries = vec![in alloc; None; SECTORS]?;
        Ok(Sums { entries })
    }

    /// Records the checksum of a sector with these bytes. Ignores a sector that isn't in the table.
    pub fn record(&mut self, sector: usize, bytes: &[u8])
        ensures size { length self.new.entries.items ≡ length self.old.entries.items }
        ensures here { sector < length self.old.entries.items
            → slice_get self.new.entries.items sector ≡ Some (Some (sum_of bytes.now)) }
        ensures others { (s : ℕ) → s ≢ sector
            → slice_get self.new.entries.items s ≡ slice_get self.old.entries.items s }
    {
        self.set(sector, sum_of(bytes));
    }

    /// Sets the checksum of a sector. Ignores a sector that isn't in the table.
    pub fn set(&mut self, sector: usize, sum: [u8; 8])
        ensures size { length self.new.entries.items ≡ length self.old.entries.items }
        ensures here { sector < length self.old.entries.items
            → slice_get self.new.entries.items sector ≡ Some (Some sum) }
        ensures others { (s : ℕ) → s ≢ sector
            → slice_get self.new.entries.items s ≡ slice_get self.old.entries.items s }
    {
        if sector < self.entries.len() {
            self.entries[sector] = Some(sum);
        }
    }

    /// Removes the checksum of a sector. Ignores a sector that isn't in the table.
    pub fn forget(&mut self, sector: usize)
        ensures size { length self.new.entries.items ≡ length self.old.entries.items }
        ensures here { sector < length self.old.entries.items
            → slice_get self.new.entries.items sector ≡ Some None }
        ensures others { (s : ℕ) → s ≢ sector
            → slice_get self.new.entries.items s ≡ slice_get self.old.entries.items s }
    {
        if sector < self.entries.len() {
            self.entries[sector] = None;
        }
    }

    pub fn get(&self, sector: usize) -> Option<[u8; 8]>
        ensures { result ≡ entry_of self.now.entries.items sector }
    {
        if sector < self.entries.len() {
            self.entries[sector]
        } else {
            None
        }
    }
}

//! Finds the sectors whose checksum differs, or is missing, in a second table of checksums.
ghost use Rattle.std.specs.Prelude.{◌≡◌, ◌<◌, ℕ, false};
ghost use Rattle.nor_sums.specs.Sums.{Agree, entry_of};

use crate::sums::{SECTORS, Sums};

const NAMED: usize = 4;

#[derive(Clone, Copy, Default)]
pub struct Changed {
    pub count: u32,
    /// The numbers of the first sectors given to `add`. If `count` is less than 4, entries from `count` on are unused.
    pub first: [u32; NAMED],
}

impl Changed {
    pub fn add(&mut self, sector: u32)
        ensures { 0 < self.new.count }
    {
        if let Some(place) = self.first.get_mut(self.count as usize) {
            *place = sector;
        }
        self.count = self.count.saturating_add(1);
    }
}

/// Finds the sectors that have a checksum in `before`, and another checksum or none in `after`.
pub fn find_changed(before: &Sums, after: &Sums) -> Changed
    ensures { result.count ≡ 0 → (s : ℕ) → s < 4096
        → Agree (entry_of before.now.entries.items s) (entry_of after.now.entries.items s) }
{
    let mut changed = Changed::default();
    for sector in 0..SECTORS {
        if differ(before.get(sector), after.get(sector)) {
            changed.add(sector as u32);
        }
    }
    changed
}

fn differ(before: Option<[u8; 8]>, after: Option<[u8; 8]>) -> bool
    ensures { result ≡ false → Agree before after }
{
    match (before, after) {
        (None, _) => false,
        (Some(one), Some(other)) => one != other,
        (Some(_), None) => true,
    }
}

//! Sets of sectors. A set is a bitmap of 512 bytes in a fixed array, so copying it is cheap.

/// A set of sector numbers below 4,096, stored as a bitmap of 512 bytes.
#[derive(Clone, Copy, Debug, PartialEq, Eq)]
pub struct SectorSet {
    words: [u64; 64],
}

impl SectorSet {
    ghost use Rattle.std.specs.Prelude.{◌≡◌, ◌<◌};
    ghost use Rattle.nor_plan.specs.SectorSet.{has, IsEmpty, Inserts};

    /// Returns the empty set.
    pub fn new() -> Self
        ensures { IsEmpty result }
    {
        SectorSet { words: [0; 64] }
    }

    /// Inserts `sector`, which must be below 4,096.
    pub fn insert(&mut self, sector: u32)
        requires { sector < 4096 }
        ensures { Inserts self.old self.new sector }
    {
        self.words[sector as usize / 64] |= 1 << (sector % 64);
    }

    /// Returns whether `sector` is in the set. The result is false if `sector` is 4,096 or greater.
    #[tactic(auto, unfolding(crate::specs::SectorSet::has))]
    pub fn contains(&self, sector: u32) -> bool
        ensures { result ≡ has self.now sector }
    {
        match self.words.get(sector as usize / 64) {
            Some(word) => (word >> (sector % 64)) & 1 == 1,
            None => false,
        }
    }
}

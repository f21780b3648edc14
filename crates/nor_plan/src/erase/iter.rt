//! The iterator over planned erases.

ghost use Rattle.std.specs.Prelude.{◌≡◌};
ghost use Rattle.std.specs.Iterator.{YieldsFirst, item_count};
ghost use Rattle.nor_plan.specs.Erases.{erases_left};
ghost use Rattle.nor_plan.specs.Planned.{planned_from};
ghost use Rattle.nor_plan.specs.SectorSet.{has};

use super::next_erase;
use crate::set::SectorSet;
use nor_driver::Erase;
use nor_model::Kinds;

/// An iterator over the planned erases of a set, in ascending order.
#[derive(Drop)]
pub struct Erases {
    set: SectorSet,
    kinds: Kinds,
    whole: bool,
    from: u32,
}

impl Erases {
    // Returns the iterator over the erases of `set`. `whole` must be true if and only if the set has all sectors of the
    // chip.
    #[tactic(auto, unfolding(crate::specs::Erases::erases_left))]
    pub(super) fn new(set: SectorSet, kinds: Kinds, whole: bool) -> Self
        ensures { erases_left result ≡ planned_from whole kinds (has set) 0 }
    {
        Erases {
            set,
            kinds,
            whole,
            from: 0,
        }
    }
}

impl Iterator for Erases {
    type Item = Erase;

    ghost next_gives = { YieldsFirst erases_left };

    ghost remaining = { item_count erases_left };

    #[tactic(auto, unfolding(crate::specs::Erases::erases_left))]
    fn next(&mut self) -> Option<Erase> {
        let (erase, from) = next_erase(&self.set, self.kinds, self.whole, self.from)?;
        self.from = from;
        Some(erase)
    }
}

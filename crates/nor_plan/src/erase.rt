//! Finds the fewest erases for a set of sectors.

ghost use Rattle.std.specs.Prelude.{◌≡◌, ◌+◌, ◌*◌, ◌/◌, ◌^◌, ◌<◌, ◌≤◌, ℕ, Bool};
ghost use Rattle.std.specs.Prelude.{true, List, length};
ghost use Rattle.nor_model.specs.declared.config.Kinds.{Kinds};
ghost use Rattle.nor_geometry.specs.Below.{count_below};
ghost use Rattle.nor_plan.specs.Erase.{Covers};
ghost use Rattle.nor_plan.specs.Planned.{holds_block, holds_run, planned_block, planned, fewest_erases};
ghost use Rattle.nor_plan.specs.Planned.{HeadsPlanned, IsLeastLength};
ghost use Rattle.nor_plan.specs.Erases.{erases_left};
ghost use Rattle.nor_plan.specs.SectorSet.{has, LiesBelow, member_count};

use crate::set::SectorSet;
use nor_driver::{Erase, EraseBlock};
use nor_geometry::{MOST_SECTORS, SECTOR_LEN};
use nor_model::Kinds;

mod iter;

pub use iter::Erases;

/// Returns the fewest erases that together erase exactly the sectors of `set`, on a chip of `size` bytes with the erase
/// types `kinds`. All sectors of `set` must lie on the chip. If the set contains all sectors of the chip, the result is
/// one chip erase (C7h). Otherwise the erases are in ascending order: D8h (if in `kinds`) for each aligned 64 KiB block
/// in the set, 52h (if in `kinds`) for each aligned 32 KiB block of the other sectors, and 20h for each sector left.
pub fn erases(set: &SectorSet, kinds: Kinds, size: u32) -> Erases
    requires { LiesBelow set.now (size / 4096) }
    ensures covers { Covers kinds (size / 4096) (erases_left result) (has set.now) }
    ensures fewest { (others : List Erase) → Covers kinds (size / 4096) others (has set.now)
        → length (erases_left result) ≤ length others }
    ensures few { length (erases_left result) ≤ member_count set.now }
    ensures counted { (end : ℕ) → LiesBelow set.now end
        → length (erases_left result) ≤ count_below end (has set.now) }
    ensures planned { erases_left result ≡ planned kinds (size / 4096) (has set.now) }
{
    let whole = is_run(set, 0, size / SECTOR_LEN);
    Erases::new(*set, kinds, whole)
}

/// States that `fewest_erases` is the length of a shortest list of erases that the chip supports and that together
/// erase exactly the sectors of a set, if all sectors of the set lie on the chip, which has at most 4,096 sectors.
#[tactic(auto, using(crate::proofs::Fewest::fewest_least))]
pub fn fewest_is_least()
    ensures { (kinds : Kinds) (total : ℕ) (set : ℕ → Bool) → total ≤ 4096
        → ((s : ℕ) → set s ≡ true → s < total)
        → IsLeastLength kinds total set (fewest_erases kinds total set) }
{}

fn next_erase(set: &SectorSet, kinds: Kinds, whole: bool, from: u32) -> Option<(Erase, u32)>
    ensures { HeadsPlanned whole kinds (has set.now) from result }
{
    for sector in from..MOST_SECTORS {
        if set.contains(sector) {
            let unit = block_of(set, kinds, whole, sector as u16);
            let erase = Erase {
                unit,
                sector: sector as u16,
            };
            if erase.is_aligned() {
                return Some((erase, sector + 1));
            }
        }
    }
    None
}

#[tactic(auto, unfolding(crate::specs::Planned::planned_block))]
fn block_of(set: &SectorSet, kinds: Kinds, whole: bool, sector: u16) -> EraseBlock
    ensures { result ≡ planned_block whole kinds (has set.now) sector }
{
    if whole {
        EraseBlock::Chip
    } else if kinds.k64 && is_block(set, 16, sector) {
        EraseBlock::Block64
    } else if kinds.k32 && is_block(set, 8, sector) {
        EraseBlock::Block32
    } else {
        EraseBlock::Sector
    }
}

fn is_block(set: &SectorSet, count: u16, sector: u16) -> bool
    requires { 0 < count }
    ensures { result ≡ holds_block (has set.now) count sector }
{
    is_run(set, u32::from(sector - sector % count), u32::from(count))
}

#[tactic(auto, unfolding(crate::specs::Planned::holds_run))]
fn is_run(set: &SectorSet, from: u32, count: u32) -> bool
    requires { from + count < 2 ^ 32 }
    ensures { result ≡ holds_run (has set.now) from count }
{
    (from..from + count).all(|sector| set.contains(sector))
}

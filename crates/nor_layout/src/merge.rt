//! Completes a copy of a sector: all bytes outside given positions are taken from a second copy.

ghost use Rattle.std.specs.Prelude.{◌≡◌, ◌<◌, ◌≤◌, ℕ, length, slice_index, if◌then◌else◌};
ghost use Rattle.nor_layout.specs.Positions.{is_covered, AreRisingFrom, positions_left};

use crate::positions::PositionsIn;

fn copy_part(to: &mut [u8], from: &[u8], start: usize, end: usize)
    requires forward { start ≤ end }
    requires to_fits { end ≤ length to.old }
    requires from_fits { end ≤ length from.now }
    ensures part { (at : ℕ) → start ≤ at → at < end → slice_index to.new at ≡ slice_index from.now at }
    ensures below { (at : ℕ) → at < start → slice_index to.new at ≡ slice_index to.old at }
    ensures above { (at : ℕ) → end ≤ at → slice_index to.new at ≡ slice_index to.old at }
{
    to[start..end].copy_from_slice(&from[start..end]);
}

pub(crate) fn fill_around(positions: PositionsIn<'_>, bytes: &mut [u8], other: &[u8])
    requires long { length bytes.old ≡ 4096 }
    requires other_long { length other.now ≡ 4096 }
    requires rising { AreRisingFrom 0 (positions_left positions) }
    ensures { (at : ℕ) → at < 4096 → slice_index bytes.new at
        ≡ (if is_covered (positions_left positions.entry) at
        then slice_index bytes.old at else slice_index other.now at) }
{
    let mut done = 0;
    for part in positions {
        copy_part(bytes, other, done, part.start);
        done = part.end;
    }
    copy_part(bytes, other, done, other.len());
}

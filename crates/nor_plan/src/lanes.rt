//! Compares two slices of equal length: 32 bytes at a time, and the remaining bytes one by one.

ghost use Rattle.std.specs.Prelude.{◌≡◌, ◌==◌, ◌+◌, ◌*◌, ◌/◌, ◌≤◌, not, bit_and, length, slice_index};
ghost use Rattle.std.specs.Prelude.{MatchBool, MatchOption, IfNone, IfSome};
ghost use Rattle.nor_plan.specs.Mask.{IsMask, ShowsDifferences};
ghost use Rattle.nor_plan.specs.Bytes.{AllAgree, AgreeWithin, SomeDiffer, NoneRises, SomeRise, IsFirstDifference, IsLastDifference};

use std::simd::prelude::*;

const LANES: usize = 32;

const BLOCK: usize = 8 * LANES;

/// Returns whether `a` and `b` differ in some byte. The slices must have equal lengths.
pub fn differs(a: &[u8], b: &[u8]) -> bool
    requires { length a.now ≡ length b.now }
    ensures { MatchBool result (SomeDiffer a.now b.now) (AllAgree a.now b.now) }
{
    blocks_differ(a, b) || first_from(a, b, a.len() / BLOCK * BLOCK).is_some()
}

// Compares the whole 256-byte blocks. Tests the combined differences once, at the end, instead of once per block.
fn blocks_differ(a: &[u8], b: &[u8]) -> bool
    requires { length a.now ≡ length b.now }
    ensures { MatchBool result (SomeDiffer a.now b.now) (AgreeWithin a.now b.now 0 (length a.now / 256 * 256)) }
{
    let mut changes = u8x32::splat(0);
    for block in 0..a.len() / BLOCK {
        changes |= changes_256(a, b, block * BLOCK);
    }
    changes.reduce_or() != 0
}

/// Returns the positions of the first and last differing byte, or `None` if no byte differs. The lengths must be equal.
pub fn bounds(old: &[u8], target: &[u8]) -> Option<(usize, usize)>
    requires { length old.now ≡ length target.now }
    ensures none { IfNone result (AllAgree old.now target.now) }
    ensures first { IfSome result (λ bounds. IsFirstDifference old.now target.now bounds.0) }
    ensures last { IfSome result (λ bounds. IsLastDifference old.now target.now bounds.1) }
{
    let first = first_difference(old, target)?;
    let last = last_difference(old, target)?;
    Some((first, last))
}

fn first_difference(a: &[u8], b: &[u8]) -> Option<usize>
    requires { length a.now ≡ length b.now }
    ensures { MatchOption result (AllAgree a.now b.now) (IsFirstDifference a.now b.now) }
{
    first_from(a, b, agreeing(a, b))
}

fn first_from(a: &[u8], b: &[u8], from: usize) -> Option<usize>
    requires same_length { length a.now ≡ length b.now }
    requires within { from ≤ length a.now }
    requires agree { AgreeWithin a.now b.now 0 from }
    ensures { MatchOption result (AllAgree a.now b.now) (IsFirstDifference a.now b.now) }
{
    for block in from / LANES..a.len() / LANES {
        let at = block * LANES;
        let mask = differing(a, b, at);
        if mask != 0 {
            return Some(at + mask.trailing_zeros() as usize);
        }
    }
    for at in a.len() / LANES * LANES..a.len() {
        if a[at] != b[at] {
            return Some(at);
        }
    }
    None
}

fn agreeing(a: &[u8], b: &[u8]) -> usize
    requires { length a.now ≡ length b.now }
    ensures within { result ≤ length a.now }
    ensures agree { AgreeWithin a.now b.now 0 result }
{
    for block in 0..a.len() / BLOCK {
        if changes_256(a, b, block * BLOCK).reduce_or() != 0 {
            return block * BLOCK;
        }
    }
    a.len() / BLOCK * BLOCK
}

fn last_difference(a: &[u8], b: &[u8]) -> Option<usize>
    requires { length a.now ≡ length b.now }
    ensures { MatchOption result (AllAgree a.now b.now) (IsLastDifference a.now b.now) }
{
    for at in (a.len() / LANES * LANES..a.len()).rev() {
        if a[at] != b[at] {
            return Some(at);
        }
    }
    for block in (0..a.len() / LANES).rev() {
        let at = block * LANES;
        let mask = differing(a, b, at);
        if mask != 0 {
            return Some(at + mask.ilog2() as usize);
        }
    }
    None
}

/// Returns whether some bit is 1 in `target` and 0 in `old`, which needs an erase. The slices must have equal lengths.
pub fn raises(old: &[u8], target: &[u8]) -> bool
    requires { length old.now ≡ length target.now }
    ensures { MatchBool result (SomeRise old.now target.now) (NoneRises old.now target.now) }
{
    for block in 0..old.len() / LANES {
        if rising(old, target, block * LANES) != 0 {
            return true;
        }
    }
    for at in old.len() / LANES * LANES..old.len() {
        if target[at] & old[at] != target[at] {
            return true;
        }
    }
    false
}

#[inline(always)]
fn changes_256(a: &[u8], b: &[u8], at: usize) -> u8x32
    requires a_within { at + 256 ≤ length a.now }
    requires b_within { at + 256 ≤ length b.now }
    ensures { ShowsDifferences a.now b.now at 256 result }
{
    let mut changes = u8x32::splat(0);
    for part in 0..BLOCK / LANES {
        changes |= changes_32(a, b, at + part * LANES);
    }
    changes
}

#[inline(always)]
fn changes_32(a: &[u8], b: &[u8], at: usize) -> u8x32
    requires a_within { at + 32 ≤ length a.now }
    requires b_within { at + 32 ≤ length b.now }
    ensures { ShowsDifferences a.now b.now at 32 result }
{
    u8x32::from_slice(&a[at..]) ^ u8x32::from_slice(&b[at..])
}

#[inline(always)]
fn differing(a: &[u8], b: &[u8], at: usize) -> u64
    requires a_within { at + 32 ≤ length a.now }
    requires b_within { at + 32 ≤ length b.now }
    ensures { IsMask result (λ i. not (slice_index a.now (at + i) == slice_index b.now (at + i))) }
{
    u8x32::from_slice(&a[at..])
        .simd_ne(u8x32::from_slice(&b[at..]))
        .to_bitmask()
}

#[inline(always)]
fn rising(old: &[u8], target: &[u8], at: usize) -> u64
    requires old_within { at + 32 ≤ length old.now }
    requires target_within { at + 32 ≤ length target.now }
    ensures { IsMask result (λ i.
        not (bit_and (slice_index target.now (at + i)) (slice_index old.now (at + i))
        == slice_index target.now (at + i))) }
{
    let target = u8x32::from_slice(&target[at..]);
    let kept = target & u8x32::from_slice(&old[at..]);
    kept.simd_ne(target).to_bitmask()
}

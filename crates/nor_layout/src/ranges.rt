//! Sets of addresses, which are stored as at most 64 sorted spans.

ghost use Rattle.std.specs.Prelude.{◌≡◌, ◌≤◌, ◌<◌, ◌+◌, ◌||◌, ◌*◌, ℕ, false, MatchBool, MatchOption, length, nat_lt, [], slice_index, if◌then◌else◌};
ghost use Rattle.nor_layout.specs.Ranges.{is_in_span, contains, has_backwards, AreDisjoint, AreRanges, IsSetOf, MakeNoSet};
ghost use Rattle.nor_layout.specs.Sectors.{SomeInSector, NoneInSector, has_in_sector, ReachesPast};
ghost use Rattle.nor_layout.specs.Positions.{AreIncludedIn, positions_left};
ghost use Rattle.nor_layout.specs.Steps.{join, sooner, IsNextOrNone};

use crate::merge::fill_around;
use crate::positions::PositionsIn;
use crate::region::REGIONS;
use arrayvec::ArrayVec;
use nor_geometry::SECTOR_LEN;
use std::marker::Model;

/// Consecutive addresses from `first` to `last`, both included, in bytes from the chip's beginning.
#[derive(Clone, Copy, Debug, Default, PartialEq, Eq)]
pub struct Span {
    pub first: u32,
    pub last: u32,
}

// One span more than a set may have, because the number of spans is checked only after a span was added.
const ROOM: usize = REGIONS + 1;

/// A set of addresses: at most 64 spans in ascending order, neither overlapping nor adjacent.
#[derive(Clone, Debug, Drop)]
pub struct Ranges {
    spans: ArrayVec<Span, ROOM>,
}

impl Model for Ranges {
    ghost use Rattle.std.specs.Prelude.{List};
    ghost use Rattle.nor_layout.specs.declared.ranges.Span.{Span};
    ghost use Rattle.nor_layout.specs.Ranges.{AreRanges};

    ghost Value = { List Span };

    ghost view = { λ r. r.spans.items };

    ghost invariant = { λ r. AreRanges r.spans.items };
}

impl Span {
    fn is_apart_below(&self, other: &Span) -> bool
        ensures { result ≡ nat_lt (self.now.last + 1) other.now.first }
    {
        self.last < other.first && other.first - self.last > 1
    }

    fn joined(&self, other: &Span) -> Span
        ensures { result ≡ join self.now other.now }
    {
        Span {
            first: self.first.min(other.first),
            last: self.last.max(other.last),
        }
    }
}

fn has_backwards(spans: &[Span]) -> bool
    ensures { result ≡ has_backwards spans.now }
{
    spans.iter().any(|span| span.last < span.first)
}

fn sooner(next: Option<Span>, span: &Span, done: u64) -> Option<Span>
    ensures { result ≡ sooner next span.now done }
{
    match next {
        _ if u64::from(span.last) < done => next,
        Some(other) if other.first <= span.first => next,
        _ => Some(*span),
    }
}

fn next_span(spans: &[Span], done: u64) -> Option<Span>
    requires { has_backwards spans.now ≡ false }
    ensures { IsNextOrNone done spans.now result }
{
    let mut next = None;
    for span in spans {
        next = sooner(next, span, done);
    }
    next
}

fn with_span(spans: &[Span], added: Span) -> ArrayVec<Span, ROOM>
    requires room { length spans.now ≤ 64 }
    requires forward { added.first ≤ added.last }
    requires apart { AreDisjoint spans.now }
    ensures apart { AreDisjoint result.items }
    ensures union { (address : ℕ)
        → contains result.items address ≡ (is_in_span added address || contains spans.now address) }
    ensures room { length result.items ≤ length spans.now + 1 }
{
    let mut all = ArrayVec::new();
    let mut last = added;
    for span in spans {
        if span.is_apart_below(&last) {
            all.push(*span);
        } else if last.is_apart_below(span) {
            all.push(last);
            last = *span;
        } else {
            last = last.joined(span);
        }
    }
    all.push(last);
    all
}

impl Ranges {
    /// Returns the set of the addresses in the given spans, which may be in any order, and may be adjacent or overlap.
    /// Returns `None` if a span ends before it begins, or if more than 64 spans are left after joining.
    pub fn of(spans: &[Span]) -> Option<Ranges>
        ensures { MatchOption result (MakeNoSet spans.now)
            (λ ranges. (has_backwards spans.now ≡ false) × IsSetOf spans.now ranges) }
    {
        if has_backwards(spans) {
            return None;
        }
        let mut all = ArrayVec::new();
        let mut done = 0;
        while let Some(next) = next_span(spans, done) {
            all = with_span(&all, next);
            if all.len() > REGIONS {
                return None;
            }
            done = u64::from(next.last) + 1;
        }
        Some(Ranges { spans: all })
    }

    pub(crate) fn new() -> Ranges
        ensures empty { result ≡ [] }
        ensures ranges { AreRanges result }
    {
        Ranges {
            spans: ArrayVec::new(),
        }
    }

    pub(crate) fn with(&self, added: Span) -> Ranges
        requires room { length self.now < 64 }
        requires forward { added.first ≤ added.last }
        ensures union { (address : ℕ)
            → contains result address ≡ (is_in_span added address || contains self.now address) }
        ensures room { length result ≤ length self.now + 1 }
        ensures ranges { AreRanges result }
    {
        Ranges {
            spans: with_span(&self.spans, added),
        }
    }

    /// Returns the spans in ascending order: at most 64, neither overlapping nor adjacent.
    pub fn spans(&self) -> &[Span]
        ensures same { result.now ≡ self.now }
        ensures ranges { AreRanges self.now }
    {
        self.spans.as_slice()
    }

    pub fn contains(&self, address: u32) -> bool
        ensures { result ≡ contains self.now address }
    {
        self.spans
            .iter()
            .any(|span| span.first <= address && address <= span.last)
    }

    pub(crate) fn has_in_sector(&self, sector: u32) -> bool
        ensures test { result ≡ has_in_sector (contains self.now) sector }
        ensures cases { MatchBool result
            (SomeInSector (contains self.now) sector) (NoneInSector (contains self.now) sector) }
    {
        self.spans.iter().any(|span| span.first / SECTOR_LEN <= sector
            && sector <= span.last / SECTOR_LEN)
    }

    /// Returns true if some address in the set is `size` or greater.
    pub fn reaches(&self, size: u32) -> bool
        ensures { MatchBool result (ReachesPast (Some self.now) size) (¬ ReachesPast (Some self.now) size) }
    {
        self.spans.iter().any(|span| size <= span.last)
    }

    pub(crate) fn positions_in(&self, sector: u32) -> PositionsIn<'_>
        ensures { AreIncludedIn self.now sector (positions_left result) }
    {
        PositionsIn::new(self.spans(), sector)
    }

    pub(crate) fn fill_excluded(&self, sector: u32, bytes: &mut [u8], other: &[u8])
        requires long { length bytes.old ≡ 4096 }
        requires other_long { length other.now ≡ 4096 }
        ensures { (at : ℕ) → at < 4096 → slice_index bytes.new at
            ≡ (if contains self.now (4096 * sector + at)
            then slice_index bytes.old at else slice_index other.now at) }
    {
        fill_around(self.positions_in(sector), bytes, other)
    }
}

//! The positions in one sector, in bytes from its beginning, whose addresses are in a set.

ghost use Rattle.std.specs.Prelude.{◌≡◌};
ghost use Rattle.std.specs.Iterator.{YieldsFirst, item_count};
ghost use Rattle.nor_layout.specs.Positions.{part_in_sector, parts_in_sector, positions_left};

use crate::ranges::Span;
use nor_geometry::SECTOR_LEN;

/// Consecutive positions in a sector from `start` to `end`, excluding `end`.
#[derive(Clone, Copy, Debug, PartialEq, Eq)]
pub struct Positions {
    pub start: usize,
    pub end: usize,
}

/// An iterator over the ranges of positions in one sector whose addresses are in a set, in ascending order.
#[derive(Debug, Drop)]
pub struct PositionsIn<'a> {
    spans: &'a [Span],
    sector: u32,
}

impl<'a> PositionsIn<'a> {
    pub(crate) fn new(spans: &'a [Span], sector: u32) -> PositionsIn<'a>
        ensures { positions_left result ≡ parts_in_sector sector spans.now }
    {
        PositionsIn { spans, sector }
    }
}

fn part_of(span: &Span, sector: u32) -> Option<Positions>
    ensures { result ≡ part_in_sector sector span.now }
{
    let (first, last) = (span.first / SECTOR_LEN, span.last / SECTOR_LEN);
    if sector < first || last < sector {
        return None;
    }
    let start = if first < sector {
        0
    } else {
        span.first % SECTOR_LEN
    };
    let end = if sector < last {
        SECTOR_LEN
    } else {
        span.last % SECTOR_LEN + 1
    };
    Some(Positions {
        start: start as usize,
        end: end as usize,
    })
}

impl<'a> Iterator for PositionsIn<'a> {
    type Item = Positions;

    ghost next_gives = { YieldsFirst positions_left };

    ghost remaining = { item_count positions_left };

    fn next(&mut self) -> Option<Positions> {
        while let Some((first, others)) = self.spans.split_first() {
            self.spans = others;
            let positions = part_of(first, self.sector);
            if positions.is_some() {
                return positions;
            }
        }
        None
    }
}

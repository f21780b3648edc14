//! Finds the spans of a sector: for each page that differs, the bytes that one page program writes.

ghost use Rattle.std.specs.Prelude.{◌≡◌, ◌*◌, ◌<◌, length};
ghost use Rattle.nor_plan.specs.Span.{page_span, spans_of, HeadsSpans};
ghost use Rattle.nor_plan.specs.SpanFacts.{AreSpans};
ghost use Rattle.nor_plan.specs.Spans.{spans_left};

use crate::lanes::bounds;
use nor_geometry::PAGE_LEN;

mod iter;

pub use iter::Spans;

/// The bytes of one page from `first` to `last`, inclusive. Both are positions in the slices that `spans` compares.
#[derive(Clone, Copy, Debug, PartialEq, Eq)]
pub struct PageSpan {
    pub first: usize,
    pub last: usize,
}

/// Returns the spans of two slices of equal length, in ascending order: for each page of 256 bytes (the last may be
/// shorter) that differs, from its first to its last differing byte.
pub fn spans<'a>(old: &'a [u8], target: &'a [u8]) -> Spans<'a>
    requires { length old.now ≡ length target.now }
    ensures pages { spans_left result ≡ spans_of old.now target.now }
    ensures spans { AreSpans old.now target.now (spans_left result) }
{
    Spans::new(old, target)
}

#[tactic(auto, using(crate::proofs::PageSpans::page_steps))]
fn next_span(old: &[u8], target: &[u8], page: usize) -> Option<(PageSpan, usize)>
    requires { length old.now ≡ length target.now }
    ensures { HeadsSpans old.now target.now page result }
{
    for page in page..old.len().div_ceil(PAGE_LEN) {
        if let Some(span) = span_of(old, target, page) {
            return Some((span, page + 1));
        }
    }
    None
}

fn span_of(old: &[u8], target: &[u8], page: usize) -> Option<PageSpan>
    requires same_length { length old.now ≡ length target.now }
    requires there { page * 256 < length old.now }
    ensures { result ≡ page_span old.now target.now page }
{
    let start = page * PAGE_LEN;
    let count = PAGE_LEN.min(old.len() - start);
    let old = &old[start..start + count];
    let target = &target[start..start + count];
    let (first, last) = bounds(old, target)?;
    Some(PageSpan {
        first: start + first,
        last: start + last,
    })
}

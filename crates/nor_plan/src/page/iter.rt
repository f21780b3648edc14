//! The iterator over spans.

ghost use Rattle.std.specs.Prelude.{◌≡◌, length};
ghost use Rattle.std.specs.Iterator.{YieldsFirst, item_count};

use super::{PageSpan, next_span};

/// An iterator over the spans of two slices, in ascending order.
#[derive(Drop)]
pub struct Spans<'a> {
    old: &'a [u8],
    target: &'a [u8],
    page: usize,
    ghost same_length: { length old.now ≡ length target.now },
}

impl<'a> Spans<'a> {
    ghost use Rattle.nor_plan.specs.Span.{spans_of};
    ghost use Rattle.nor_plan.specs.Spans.{spans_left};

    #[tactic(auto, unfolding(crate::specs::Spans::spans_left))]
    pub(super) fn new(old: &'a [u8], target: &'a [u8]) -> Self
        requires { length old.now ≡ length target.now }
        ensures { spans_left result ≡ spans_of old.now target.now }
    {
        Spans {
            old,
            target,
            page: 0,
        }
    }
}

impl Iterator for Spans<'_> {
    ghost use Rattle.nor_plan.specs.Spans.{spans_left};

    type Item = PageSpan;

    ghost next_gives = { YieldsFirst spans_left };

    ghost remaining = { item_count spans_left };

    #[tactic(auto, unfolding(crate::specs::Spans::spans_left))]
    fn next(&mut self) -> Option<PageSpan> {
        let (span, page) = next_span(self.old, self.target, self.page)?;
        self.page = page;
        Some(span)
    }
}

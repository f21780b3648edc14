//! Sets of addresses from spans in any order: adjacent, overlapping, backwards, or too many.
use crate::held::{assert_held, assert_that};
use nor_layout::{Ranges, Span};

// A list of spans (first and last address), and the spans of the set, or `None` if `Ranges::of` rejects the list.
const SETS: &[(&[(u32, u32)], Option<&[(u32, u32)]>)] = &[
    (&[], Some(&[])),
    (&[(7, 7)], Some(&[(7, 7)])),
    (&[(5, 4)], None),
    (&[(0, 9), (5, 4)], None),
    (&[(8, 9), (0, 6)], Some(&[(0, 6), (8, 9)])),
    (&[(7, 9), (0, 6)], Some(&[(0, 9)])),
    (&[(0, 6), (7, 7)], Some(&[(0, 7)])),
    (&[(2, 3), (0, 9)], Some(&[(0, 9)])),
    (
        &[(15, 30), (40, 40), (10, 20), (0, 5), (6, 9)],
        Some(&[(0, 30), (40, 40)]),
    ),
    (
        &[(u32::MAX, u32::MAX), (0, 0)],
        Some(&[(0, 0), (u32::MAX, u32::MAX)]),
    ),
    (&[(1, u32::MAX), (0, 0)], Some(&[(0, u32::MAX)])),
];

fn set_of(ends: &[(u32, u32)]) -> Option<Ranges> {
    let mut spans = [Span::default(); 8];
    for (slot, (first, last)) in spans.iter_mut().zip(ends) {
        *slot = Span {
            first: *first,
            last: *last,
        };
    }
    Ranges::of(spans.get(..ends.len())?)
}

fn are_same(spans: &[Span], wanted: &[(u32, u32)]) -> bool {
    let mut pairs = spans.iter().zip(wanted);
    spans.len() == wanted.len() && pairs.all(|(span, ends)| (span.first, span.last) == *ends)
}

#[test]
fn spans_make_their_set(rt: HostRuntime) {
    for (number, (spans, set)) in SETS.iter().enumerate() {
        let holds = match (set_of(spans), set) {
            (Some(made), Some(wanted)) => are_same(made.spans(), wanted),
            (made, wanted) => made.is_none() && wanted.is_none(),
        };
        assert_held(&rt, holds, number as u64);
    }
}

// Makes a set from `more` and the addresses 2, 4, .., 2 * `addresses` (at most 65 addresses), in falling order. Returns
// the number of its spans, or `None` if it is rejected.
fn count_of(addresses: u32, more: Span) -> Option<usize> {
    let mut spans = [more; 66];
    for (slot, above) in spans.iter_mut().zip(0..addresses) {
        let address = addresses.saturating_sub(above).saturating_mul(2);
        *slot = Span {
            first: address,
            last: address,
        };
    }
    Some(Ranges::of(&spans)?.spans().len())
}

#[test]
fn a_set_has_at_most_64_spans_once_they_are_joined(rt: HostRuntime) {
    let zero = Span { first: 0, last: 0 };
    let two = Span { first: 2, last: 2 };
    let all_but_two = Span {
        first: 3,
        last: 129,
    };
    assert_that!(&rt; count_of(64, two) == Some(64));
    assert_that!(&rt; count_of(65, two).is_none());
    assert_that!(&rt; count_of(63, zero) == Some(64));
    assert_that!(&rt; count_of(64, zero).is_none());
    assert_that!(&rt; count_of(65, all_but_two) == Some(1));
}

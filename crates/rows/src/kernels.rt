//! Comparisons of `nor_plan` on slices that are equal or differ in one byte.
use crate::held::assert_held;
use nor_plan::{PageSpan, bounds, differs, raises, spans};

const LENGTHS: [usize; 7] = [0, 1, 31, 32, 33, 256, 4096];

const LONGEST: usize = 4096;

const PAGE: usize = 256;

fn is_same_to_itself(length: usize) -> bool {
    let bytes = [0xA5u8; LONGEST];
    match bytes.get(..length) {
        Some(slice) => {
            !differs(slice, slice)
                && !raises(slice, slice)
                && bounds(slice, slice).is_none()
                && spans(slice, slice).next().is_none()
        }
        None => false,
    }
}

// Returns whether the comparisons find the only difference: bit 1 of byte `place`, clear in `lower`, set in `higher`.
fn differs_at(length: usize, place: usize) -> bool {
    let lower = [0xA5u8; LONGEST];
    let mut higher = [0xA5u8; LONGEST];
    if let Some(byte) = higher.get_mut(place) {
        *byte = 0xA7;
    }
    let (Some(old), Some(target)) = (lower.get(..length), higher.get(..length)) else {
        return false;
    };
    if old.len() != target.len() {
        return false;
    }
    let span = PageSpan {
        first: place,
        last: place,
    };
    let mut found = spans(old, target);
    differs(old, target)
        && differs(target, old)
        && bounds(old, target) == Some((place, place))
        && bounds(target, old) == Some((place, place))
        && raises(old, target)
        && !raises(target, old)
        && found.next() == Some(span)
        && found.next().is_none()
}

#[test]
fn equal_slices_of_each_length(rt: HostRuntime) {
    for length in LENGTHS {
        assert_held(&rt, is_same_to_itself(length), length as u64);
    }
}

#[test]
fn a_difference_in_the_first_place(rt: HostRuntime) {
    for length in LENGTHS {
        let holds = length == 0 || differs_at(length, 0);
        assert_held(&rt, holds, length as u64);
    }
}

#[test]
fn a_difference_in_the_last_place(rt: HostRuntime) {
    for length in LENGTHS {
        let holds = match length.checked_sub(1) {
            Some(last) => differs_at(length, last),
            None => true,
        };
        assert_held(&rt, holds, length as u64);
    }
}

#[test]
fn a_difference_on_each_side_of_a_page(rt: HostRuntime) {
    for place in [PAGE - 1, PAGE, 2 * PAGE - 1, LONGEST - PAGE] {
        assert_held(&rt, differs_at(LONGEST, place), place as u64);
    }
}

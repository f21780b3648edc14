//! Stops of sessions and restores before, inside or after a transaction, on chips that keep their power or lose it.
use crate::held::assert_that;
use crate::row::{Row, Start};
use crate::runs::Runs;
use std::alloc::Global;
use std::process::Abort;

// The greatest numbers of bytes that a stop still sends, for calls that send at most six bytes in a transaction.
const SHORT: [u32; 7] = [0, 1, 2, 3, 4, 5, 6];

// The greatest numbers of bytes that a stop still sends, for the row that programs pages in transactions of 260 bytes.
const LONG: [u32; 10] = [0, 1, 2, 3, 4, 5, 6, 132, 259, 260];

fn starts() -> [Start; 5] {
    [
        Start::IDLE,
        Start::SLOW,
        Start::losing(0x00),
        Start::losing(0x5A),
        Start::losing(0xFF),
    ]
}

// With an even fill an interrupted status write is undone, with an odd fill it is completed.
fn few_starts() -> [Start; 3] {
    [Start::IDLE, Start::losing(0x5A), Start::losing(0xFF)]
}

#[derive(Clone, Copy, PartialEq, Eq)]
struct Stops {
    kept: u64,
    lost: u64,
}

impl Stops {
    const NONE: Stops = Stops { kept: 0, lost: 0 };

    fn with(self, start: Start, more: u64) -> Stops {
        let Stops { kept, lost } = self;
        if start.fill.is_some() {
            let lost = lost.saturating_add(more);
            Stops { kept, lost }
        } else {
            let kept = kept.saturating_add(more);
            Stops { kept, lost }
        }
    }

    fn and(self, others: Stops) -> Stops {
        Stops {
            kept: self.kept.saturating_add(others.kept),
            lost: self.lost.saturating_add(others.lost),
        }
    }
}

fn stop_sessions(
    rt: &impl Abort,
    alloc: Global,
    (row, first): (Row, u64),
    starts: &[Start],
    counts: &[u32],
) -> Stops {
    let mut stops = Stops::NONE;
    for start in starts {
        for count in counts {
            let torn = Runs::new(rt, alloc, row, start.torn(*count));
            stops = stops.with(*start, torn.stop_sessions(rt, first));
        }
    }
    stops
}

fn stop_restores(rt: &impl Abort, torn: &Runs, row: Row, start: Start) -> Stops {
    let mut stops = Stops::NONE;
    for n in row.sealed_at(start)..row.ends_at(start) {
        stops = stops.with(start, torn.stop_restores(rt, n));
    }
    stops
}

fn stop_all(rt: &impl Abort, alloc: Global, row: Row, counts: &[u32]) -> Stops {
    let mut stops = Stops::NONE;
    for start in starts() {
        for count in counts {
            let torn = Runs::new(rt, alloc, row, start.torn(*count));
            stops = stops.and(stop_restores(rt, &torn, row, start));
        }
    }
    stops
}

// The numbers of stops on chips that keep their power, and on chips that lose it. On each chip except the idle one an
// operation has two more polls, and on the slow chip the first wait has three more.
const SESSIONS: [(Row, u64, u64); 6] = [
    (Row::AByteIsProgrammed, 7 * 61, 7 * 3 * 30),
    (Row::ABitRises, 7 * 67, 7 * 3 * 34),
    (Row::ABitFalls, 7 * 61, 7 * 3 * 30),
    (Row::TwoPagesAreProgrammed, 7 * 69, 7 * 3 * 35),
    (Row::NineSectorsAreErased, 7 * 83, 7 * 3 * 42),
    (Row::TheChipIsErased, 7 * 89, 7 * 3 * 44),
];

#[test]
fn each_cut_of_a_session(rt: HostRuntime) {
    for (row, kept, lost) in SESSIONS {
        let stops = stop_sessions(&rt, rt.alloc(), (row, 0), &starts(), &SHORT);
        assert_that!(&rt; stops == Stops { kept, lost });
    }
}

// The session has 57 transactions on an idle chip, 92 on the slow chip, and 89 on a chip that loses its power.
const SESSIONS_OF_PAGES: Stops = Stops {
    kept: 10 * 149,
    lost: 10 * 3 * 89,
};

#[test]
fn each_cut_of_a_session_that_programs_pages(rt: HostRuntime) {
    let row = Row::TheRestOfASectorStays;
    let stops = stop_sessions(&rt, rt.alloc(), (row, 0), &starts(), &LONG);
    assert_that!(&rt; stops == SESSIONS_OF_PAGES);
}

// The first stop is three transactions before the seal. If the chip loses its power, each operation has two more polls.
const SESSIONS_OF_LARGE_ERASES: Stops = Stops {
    kept: 7 * 44,
    lost: 7 * 50,
};

#[test]
fn each_cut_of_a_session_with_large_erases(rt: HostRuntime) {
    let row = Row::ThirtyTwoSectorsAreErased;
    let starts = [Start::IDLE, Start::losing(0x5A)];
    let stops = stop_sessions(&rt, rt.alloc(), (row, 68), &starts, &SHORT);
    assert_that!(&rt; stops == SESSIONS_OF_LARGE_ERASES);
}

// The 8 stops (10 on a chip that loses its power) begin three transactions before the seal.
const SESSIONS_BELOW_THE_RANGE: Stops = Stops {
    kept: 7 * 8,
    lost: 7 * 2 * 10,
};

// The 14 stops (20 on a chip that loses its power) begin three transactions before the seal.
const SESSIONS_IN_THE_RANGE: Stops = Stops {
    kept: 7 * 14,
    lost: 7 * 2 * 20,
};

#[test]
fn each_cut_of_a_session_on_a_protected_chip(rt: HostRuntime) {
    let below = (Row::AByteBelowTheGuardIsProgrammed, 2049);
    let stops = stop_sessions(&rt, rt.alloc(), below, &few_starts(), &SHORT);
    assert_that!(&rt; stops == SESSIONS_BELOW_THE_RANGE);
    let inside = (Row::AGuardedByteIsProgrammed, 2049);
    let stops = stop_sessions(&rt, rt.alloc(), inside, &few_starts(), &SHORT);
    assert_that!(&rt; stops == SESSIONS_IN_THE_RANGE);
}

// The numbers of stopped restores on chips that keep their power, and on chips that lose it. Each restore is stopped at
// each of its transactions, so these are sums of numbers of transactions. For the first row they were also calculated
// by hand: 344 on the idle chip, 585 on the slow chip, and 1,656 on the three chips that lose their power.
const RESTORES: [(Row, u64, u64); 4] = [
    (Row::AByteIsProgrammed, 344 + 585, 3 * 432 + 10 * 36),
    (Row::ABitRises, 1688, 3402),
    (Row::ABitFalls, 1127, 2126),
    (Row::TwoPagesAreProgrammed, 1684, 3126),
];

#[test]
fn each_cut_of_a_restore(rt: HostRuntime) {
    for (row, kept, lost) in RESTORES {
        let stops = stop_all(&rt, rt.alloc(), row, &SHORT);
        assert_that!(&rt; stops == Stops { kept, lost });
    }
}

// The session's stop sends no data byte of a page program, one or both. The restore's stop sends 0 to 6 bytes.
const RESTORES_OF_TWO_PAGES: Stops = Stops {
    kept: 5_152,
    lost: 9_492,
};

#[test]
fn each_cut_of_a_restore_after_a_part_of_a_page(rt: HostRuntime) {
    let row = Row::TwoPagesAreProgrammed;
    let mut stops = Stops::NONE;
    for start in starts() {
        for first in [4, 5, 6] {
            for second in SHORT {
                let torn = Runs::new(&rt, rt.alloc(), row, start.torn(first));
                let torn = torn.with_restores_torn(second);
                stops = stops.and(stop_restores(&rt, &torn, row, start));
            }
        }
    }
    assert_that!(&rt; stops == RESTORES_OF_TWO_PAGES);
}

const RESTORES_OF_PAGES: Stops = Stops {
    kept: 60_106,
    lost: 127_387,
};

#[test]
fn each_cut_of_a_restore_that_programs_pages(rt: HostRuntime) {
    let row = Row::TheRestOfASectorStays;
    let stops = stop_all(&rt, rt.alloc(), row, &LONG);
    assert_that!(&rt; stops == RESTORES_OF_PAGES);
}

// The session is stopped at the two status writes and the page program. No transaction sends more than five bytes.
const RESTORES_IN_THE_RANGE: Stops = Stops {
    kept: 172,
    lost: 408,
};

#[test]
fn each_cut_of_a_restore_on_a_protected_chip(rt: HostRuntime) {
    let row = Row::AGuardedByteIsProgrammed;
    let mut stops = Stops::NONE;
    for start in few_starts() {
        let each = u64::from(start.delays.each);
        for count in 0..=5 {
            let torn = Runs::new(&rt, rt.alloc(), row, start.torn(count));
            for (polls, others) in [(0, 1), (each, 5), (each.saturating_mul(2), 8)] {
                let n = row.sealed_at(start).saturating_add(others);
                let stopped = torn.stop_restores(&rt, n.saturating_add(polls));
                stops = stops.with(start, stopped);
            }
        }
    }
    assert_that!(&rt; stops == RESTORES_IN_THE_RANGE);
}

//! Runs over the ten layers of `flashnor-serprog` that are stopped twice: a session or a restore at each of its stops,
//! and then, if the vault is sealed, the next restore at each of its stops. A restore without a stop follows.
use crate::held::{assert_held, assert_that};
use crate::row::Row;
use crate::serprog_layers::{Bench, Left, MOST_CALLS, Stop, Undo, stops_at};
use crate::serprog_layers_stops::{Played, Run, STOPS_OF_A_FRAME, Stopped, stop_at_each};
use nor_chip::SimBus;
use nor_journal::MemVault;
use std::alloc::Global;
use std::process::Abort;

// The row has one included sector, which its session erases and programs.
const ROW: Row = Row::ABitOf64BytesRises;

// A lower bound on the frames of a restore: seven transactions identify the chip, and one reads the sector.
const FRAMES_OF_A_RESTORE: u64 = 8;

#[derive(Clone, Copy)]
enum First<'a> {
    Change,
    // A restore of this chip from a sealed vault.
    Restore(&'a SimBus, &'a MemVault),
}

// The stops of the first run, and the number of stops of the restores after these stops.
#[derive(Clone, Copy)]
struct Twice {
    first: Played,
    second: u64,
}

// Returns the number of stops of the restore after a stopped run, or 0 if the run succeeded or its vault isn't sealed.
fn stop_next(
    rt: &impl Abort,
    alloc: Global,
    bench: &Bench,
    left: &Left,
    vault: &MemVault,
    calls: u64,
) -> u64 {
    if left.ended {
        return 0;
    }
    if !vault.is_sealed() {
        bench.assert_as_before(rt, &left.chip, calls);
        return 0;
    }
    let run = Run::Undo(Undo::Restore, &left.chip, vault);
    let played = stop_at_each(rt, alloc, bench, run);
    assert_held(rt, played.ended, calls);
    let least = FRAMES_OF_A_RESTORE.saturating_mul(STOPS_OF_A_FRAME);
    assert_held(rt, played.sealed >= least, calls);
    played.sealed
}

fn stop_session(rt: &impl Abort, alloc: Global, bench: &Bench, stop: Stop) -> (Stopped, u64) {
    let mut vault = MemVault::new(alloc);
    let left = bench.change(rt, bench.chip(rt), &mut vault, stop);
    let second = stop_next(rt, alloc, bench, &left, &vault, stop.calls);
    let stopped = Stopped {
        is_sealed: vault.is_sealed(),
        ended: left.ended,
        tears: left.tears,
    };
    (stopped, second)
}

fn stop_restore(
    rt: &impl Abort,
    alloc: Global,
    bench: &Bench,
    chip: &SimBus,
    vault: &MemVault,
    stop: Stop,
) -> (Stopped, u64) {
    let left = bench.undo(rt, bench.copy(rt, chip), vault, Undo::Restore, stop);
    let second = stop_next(rt, alloc, bench, &left, vault, stop.calls);
    let stopped = Stopped {
        is_sealed: true,
        ended: left.ended,
        tears: left.tears,
    };
    (stopped, second)
}

fn stop_first(
    rt: &impl Abort,
    alloc: Global,
    bench: &Bench,
    first: First<'_>,
    stop: Stop,
) -> (Stopped, u64) {
    match first {
        First::Change => stop_session(rt, alloc, bench, stop),
        First::Restore(chip, vault) => stop_restore(rt, alloc, bench, chip, vault, stop),
    }
}

fn add(rt: &impl Abort, twice: Twice, (stopped, second): (Stopped, u64), calls: u64) -> Twice {
    Twice {
        first: twice.first.add(rt, stopped, calls),
        second: twice.second.saturating_add(second),
    }
}

fn stop_twice_at(
    rt: &impl Abort,
    alloc: Global,
    bench: &Bench,
    first: First<'_>,
    (calls, twice): (u64, Twice),
) -> Twice {
    let [none, address, all] = stops_at(calls);
    let (stopped, second) = stop_first(rt, alloc, bench, first, none);
    let twice = add(rt, twice, (stopped, second), calls);
    if stopped.ended || !stopped.tears {
        return twice;
    }
    let twice = add(
        rt,
        twice,
        stop_first(rt, alloc, bench, first, address),
        calls,
    );
    add(rt, twice, stop_first(rt, alloc, bench, first, all), calls)
}

fn stop_twice(rt: &impl Abort, alloc: Global, bench: &Bench, first: First<'_>) -> Twice {
    let mut twice = Twice {
        first: Played::NONE,
        second: 0,
    };
    for calls in 0..MOST_CALLS {
        twice = stop_twice_at(rt, alloc, bench, first, (calls, twice));
        if twice.first.ended {
            return twice;
        }
    }
    twice
}

// The session sends 8 transactions before the seal and 7 after it, of which 2 are write enables.
#[test]
fn each_stop_of_a_session_with_each_stop_of_its_restore(rt: HostRuntime) {
    let alloc = rt.alloc();
    let bench = Bench::new(&rt, alloc, ROW);
    let twice = stop_twice(&rt, alloc, &bench, First::Change);
    assert_that!(&rt; twice.first.ended);
    assert_that!(&rt; twice.first.unsealed >= 8 * STOPS_OF_A_FRAME);
    assert_that!(&rt; twice.first.sealed >= 5 * STOPS_OF_A_FRAME);
    let least = 5 * STOPS_OF_A_FRAME * FRAMES_OF_A_RESTORE * STOPS_OF_A_FRAME;
    assert_that!(&rt; twice.second >= least);
}

// The first restore follows a session that succeeded, so it also programs the page, polls and verifies the sector.
#[test]
fn each_stop_of_a_restore_with_each_stop_of_the_next(rt: HostRuntime) {
    let alloc = rt.alloc();
    let bench = Bench::new(&rt, alloc, ROW);
    let mut vault = MemVault::new(alloc);
    let changed = bench.change(&rt, bench.chip(&rt), &mut vault, Stop::NEVER);
    assert_that!(&rt; changed.ended && vault.is_sealed());
    let first = First::Restore(&changed.chip, &vault);
    let twice = stop_twice(&rt, alloc, &bench, first);
    assert_that!(&rt; twice.first.ended && twice.first.unsealed == 0);
    assert_that!(&rt; twice.first.sealed >= 10 * STOPS_OF_A_FRAME);
    let least = 10 * STOPS_OF_A_FRAME * FRAMES_OF_A_RESTORE * STOPS_OF_A_FRAME;
    assert_that!(&rt; twice.second >= least);
}

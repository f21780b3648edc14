//! Sessions, restores, rewrites and backups over the ten layers of `flashnor-serprog`, whose port fails at each call in
//! turn. Each transaction is sent by a call of its own, except a write enable, which may be sent together with the page
//! program after it.
use crate::held::{assert_held, assert_that};
use crate::row::Row;
use crate::serprog_layers::{Bench, Left, MOST_CALLS, Stop, Undo, stops_at};
use nor_chip::SimBus;
use nor_journal::MemVault;
use std::alloc::Global;
use std::process::Abort;

/// The least number of stops of a frame: three when it is sent, and at least one when its reply is received.
pub const STOPS_OF_A_FRAME: u64 = 4;

/// A run over the layers, which may be stopped.
#[derive(Clone, Copy)]
pub enum Run<'a> {
    Change,
    BackUp,
    /// A restore or a rewrite of this chip from a sealed vault.
    Undo(Undo, &'a SimBus, &'a MemVault),
}

/// The result of one run over the layers.
#[derive(Clone, Copy)]
pub struct Stopped {
    pub is_sealed: bool,
    pub ended: bool,
    /// True if the call that failed sends a frame.
    pub tears: bool,
}

/// The numbers of stops that left the vault unsealed, and of those that left it sealed.
#[derive(Clone, Copy)]
pub struct Played {
    pub unsealed: u64,
    pub sealed: u64,
    /// True if the last run was not stopped.
    pub ended: bool,
}

impl Played {
    pub const NONE: Played = Played {
        unsealed: 0,
        sealed: 0,
        ended: false,
    };

    /// Adds a run. Asserts that it left a sealed vault if it succeeded, or if an earlier stop left a sealed one.
    pub fn add(self, rt: &impl Abort, run: Stopped, calls: u64) -> Played {
        let Stopped {
            is_sealed,
            ended,
            ..
        } = run;
        assert_held(rt, is_sealed || self.sealed == 0 && !ended, calls);
        let stops = u64::from(!ended);
        let (unsealed, sealed) = if is_sealed { (0, stops) } else { (stops, 0) };
        Played {
            unsealed: self.unsealed.saturating_add(unsealed),
            sealed: self.sealed.saturating_add(sealed),
            ended,
        }
    }
}

fn stop_session(rt: &impl Abort, alloc: Global, bench: &Bench, stop: Stop) -> Stopped {
    let mut vault = MemVault::new(alloc);
    let left = bench.change(rt, bench.chip(rt), &mut vault, stop);
    bench.assert_restored(rt, left.chip, &vault, stop.calls);
    Stopped {
        is_sealed: vault.is_sealed(),
        ended: left.ended,
        tears: left.tears,
    }
}

fn stop_backup(rt: &impl Abort, alloc: Global, bench: &Bench, stop: Stop) -> Stopped {
    let mut vault = MemVault::new(alloc);
    let left = bench.back_up(rt, bench.chip(rt), &mut vault, stop);
    bench.assert_as_before(rt, &left.chip, stop.calls);
    Stopped {
        is_sealed: vault.is_sealed(),
        ended: left.ended,
        tears: left.tears,
    }
}

fn stop_undo(
    rt: &impl Abort,
    bench: &Bench,
    undo: Undo,
    chip: &SimBus,
    vault: &MemVault,
    stop: Stop,
) -> Stopped {
    let Left {
        chip: after,
        ended,
        tears,
    } = bench.undo(rt, bench.copy(rt, chip), vault, undo, stop);
    if ended {
        bench.assert_as_before(rt, &after, stop.calls);
    } else {
        bench.assert_restored(rt, after, vault, stop.calls);
    }
    Stopped {
        is_sealed: true,
        ended,
        tears,
    }
}

fn stop_run(rt: &impl Abort, alloc: Global, bench: &Bench, run: Run<'_>, stop: Stop) -> Stopped {
    match run {
        Run::Change => stop_session(rt, alloc, bench, stop),
        Run::BackUp => stop_backup(rt, alloc, bench, stop),
        Run::Undo(undo, chip, vault) => stop_undo(rt, bench, undo, chip, vault, stop),
    }
}

fn stop_at(
    rt: &impl Abort,
    alloc: Global,
    bench: &Bench,
    run: Run<'_>,
    (calls, played): (u64, Played),
) -> Played {
    let [none, address, all] = stops_at(calls);
    let first = stop_run(rt, alloc, bench, run, none);
    let played = played.add(rt, first, calls);
    if first.ended || !first.tears {
        return played;
    }
    let played = played.add(rt, stop_run(rt, alloc, bench, run, address), calls);
    played.add(rt, stop_run(rt, alloc, bench, run, all), calls)
}

/// Stops the run at each call of the port in turn, until it succeeds, but at most at `MOST_CALLS` calls. Asserts that
/// each stop leaves the chip as before, or a sealed vault that restores it.
pub fn stop_at_each(rt: &impl Abort, alloc: Global, bench: &Bench, run: Run<'_>) -> Played {
    let mut played = Played::NONE;
    for calls in 0..MOST_CALLS {
        played = stop_at(rt, alloc, bench, run, (calls, played));
        if played.ended {
            return played;
        }
    }
    played
}

// Stops the session at each call. `unsealed` and `sealed` are lower bounds on the frames before and after the seal.
fn stop_sessions(
    rt: &impl Abort,
    alloc: Global,
    row: Row,
    (unsealed, sealed): (u64, u64),
) -> Played {
    let played = stop_at_each(rt, alloc, &Bench::new(rt, alloc, row), Run::Change);
    assert_that!(rt; played.ended);
    assert_that!(rt; played.unsealed >= unsealed.saturating_mul(STOPS_OF_A_FRAME));
    assert_that!(rt; played.sealed >= sealed.saturating_mul(STOPS_OF_A_FRAME));
    played
}

// Runs the row's session, and stops its restore or rewrite, which must send at least `frames` frames, at each call.
fn stop_undos(rt: &impl Abort, alloc: Global, row: Row, undo: Undo, frames: u64) -> Played {
    let bench = Bench::new(rt, alloc, row);
    let mut vault = MemVault::new(alloc);
    let changed = bench.change(rt, bench.chip(rt), &mut vault, Stop::NEVER);
    assert_that!(rt; changed.ended && vault.is_sealed());
    let run = Run::Undo(undo, &changed.chip, &vault);
    let played = stop_at_each(rt, alloc, &bench, run);
    assert_that!(rt; played.ended);
    assert_that!(rt; played.sealed >= frames.saturating_mul(STOPS_OF_A_FRAME));
    played
}

// The session sends 23 transactions before the seal and 7 after it, of which 2 are write enables.
#[test]
fn each_call_of_the_port_fails_in_a_session_over_all_layers(rt: HostRuntime) {
    let played = stop_sessions(&rt, rt.alloc(), Row::ABitRises, (23, 5));
    assert_that!(&rt; played.unsealed > played.sealed);
}

// The page program has enough bytes to be sent together with its write enable.
#[test]
fn each_call_of_the_port_fails_in_a_session_of_one_sector(rt: HostRuntime) {
    let played = stop_sessions(&rt, rt.alloc(), Row::ABitOf64BytesRises, (8, 5));
    assert_that!(&rt; played.unsealed != 0);
}

// The session sends 5 transactions before the seal and 11 after it, of which 3 are write enables.
#[test]
fn each_call_of_the_port_fails_in_a_session_of_a_protected_sector(rt: HostRuntime) {
    let row = Row::AGuardedByteOfASectorIsProgrammed;
    let played = stop_sessions(&rt, rt.alloc(), row, (5, 8));
    assert_that!(&rt; played.unsealed != 0);
}

// Each entry has a row and a lower bound on the frames of its restore and of its rewrite.
const UNDONE: [(Row, u64); 3] = [
    (Row::ABitRises, 10),
    (Row::ABitOf64BytesRises, 10),
    (Row::AGuardedByteOfASectorIsProgrammed, 11),
];

#[test]
fn each_call_of_the_port_fails_in_a_restore_over_all_layers(rt: HostRuntime) {
    for (row, frames) in UNDONE {
        let played = stop_undos(&rt, rt.alloc(), row, Undo::Restore, frames);
        assert_that!(&rt; played.unsealed == 0);
    }
}

#[test]
fn each_call_of_the_port_fails_in_a_rewrite_over_all_layers(rt: HostRuntime) {
    for (row, frames) in UNDONE {
        let played = stop_undos(&rt, rt.alloc(), row, Undo::Rewrite, frames);
        assert_that!(&rt; played.unsealed == 0);
    }
}

// 7 transactions identify the chip, and 16 read its sectors. A backup seals its vault only if it succeeds.
#[test]
fn each_call_of_the_port_fails_in_a_backup_over_all_layers(rt: HostRuntime) {
    let alloc = rt.alloc();
    let bench = Bench::new(&rt, alloc, Row::NineSectorsAreErased);
    let played = stop_at_each(&rt, alloc, &bench, Run::BackUp);
    assert_that!(&rt; played.ended && played.sealed == 0);
    assert_that!(&rt; played.unsealed >= 23 * STOPS_OF_A_FRAME);
}

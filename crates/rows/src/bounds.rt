//! Tests that reading calls, sessions and restores send no more transactions than their bounds on faulty buses, and
//! that a session and its restore send no more than theirs on the slowest chip.
ghost use Rattle.std.specs.Prelude.{◌≡◌, false};

use crate::held::{assert_held, assert_that};
use crate::row::{Row, Start};
use crate::runs::Runs;
use crate::spoilt::{Lied, lies, most, spoilt};
use nor_chip::{SimBus, Spoil, SpoiltBus};
use nor_journal::{MemVault, Vault};
use nor_probe::probe;
use nor_read::{read_out, verify, wp_status};
use std::alloc::Global;
use std::process::Abort;

#[derive(Clone, Copy)]
enum Reading {
    Probe,
    Protection,
    ReadOut,
    Verify,
}

const READINGS: [Reading; 4] = [
    Reading::Probe,
    Reading::Protection,
    Reading::ReadOut,
    Reading::Verify,
];

impl Reading {
    // Returns the bound of a reading call: 65,540 transactions to identify the chip, and the reads after that.
    fn most(self, sectors: u32) -> u64 {
        match self {
            Reading::Probe => 65_540,
            Reading::Protection => 65_541,
            Reading::ReadOut | Reading::Verify => 65_540 + u64::from(sectors),
        }
    }

    fn ends(self, bus: &mut SpoiltBus<SimBus>, out: &mut MemVault, image: &[u8]) -> bool
        requires { (⟦<MemVault as Vault>⟧.state out.old).sealed ≡ false }
    {
        match self {
            Reading::Probe => probe(bus, None).is_ok(),
            Reading::Protection => wp_status(bus, None).is_ok(),
            Reading::ReadOut => read_out(bus, None, None, out).is_ok(),
            Reading::Verify => verify(bus, image, None, None).is_ok(),
        }
    }

    fn sent(self, rt: &impl Abort, alloc: Global, row: Row, spoil: Spoil) -> u64 {
        let mut bus = spoilt(row.bus(rt, alloc, Start::IDLE), spoil);
        let mut out = MemVault::new(alloc);
        let image = row.wanted(rt, alloc);
        let _ = self.ends(&mut bus, &mut out, &image);
        let sent = bus.sent();
        let bus = bus.into_inner();
        let before = row.before(rt, alloc);
        assert_that!(rt; bus.bytes() == before.as_slice());
        assert_that!(rt; bus.status() == row.status());
        sent
    }
}

fn read_each(rt: &impl Abort, alloc: Global, row: Row, spoil: Spoil) -> u64 {
    let mut runs: u64 = 0;
    for reading in READINGS {
        let sent = reading.sent(rt, alloc, row, spoil);
        assert_held(rt, 0 < sent && sent <= reading.most(16), sent);
        runs = runs.saturating_add(1);
    }
    runs
}

// Without a fault, `read_out` and `verify` send 21 transactions.
#[test]
fn readings_on_faulty_buses(rt: HostRuntime) {
    let row = Row::ABitRises;
    let mut runs: u64 = 0;
    for n in 0..=22 {
        for spoil in lies(n) {
            runs = runs.saturating_add(read_each(&rt, rt.alloc(), row, spoil));
        }
    }
    assert_that!(&rt; runs == 23 * 4 * 4);
}

fn session_each(rt: &impl Abort, alloc: Global, row: Row, n: u8) -> u64 {
    let mut runs: u64 = 0;
    for spoil in lies(n) {
        let _ = Lied::session(rt, alloc, row, spoil);
        runs = runs.saturating_add(1);
    }
    runs
}

// Without a fault, the sessions send 30 and 57 transactions.
#[test]
fn sessions_on_faulty_buses(rt: HostRuntime) {
    let mut runs: u64 = 0;
    for n in 0..=58 {
        for row in [Row::ABitRises, Row::TheRestOfASectorStays] {
            runs = runs.saturating_add(session_each(&rt, rt.alloc(), row, n));
        }
    }
    assert_that!(&rt; runs == 2 * 59 * 4);
}

// Runs restores on faulty buses after a session that was stopped after ten transactions.
fn restore_each(rt: &impl Abort, stopped: &Runs, n: u8) -> u64 {
    let mut runs: u64 = 0;
    for spoil in lies(n) {
        let _ = Lied::restore(rt, stopped.cut(rt, 10), spoil);
        runs = runs.saturating_add(1);
    }
    runs
}

// The session is stopped after its erase, so the restore sends 58 transactions on a bus without a fault.
#[test]
fn restores_on_faulty_buses(rt: HostRuntime) {
    let row = Row::TheRestOfASectorStays;
    let stopped = Runs::new(&rt, rt.alloc(), row, Start::IDLE);
    let mut runs: u64 = 0;
    for n in 0..=59 {
        runs = runs.saturating_add(restore_each(&rt, &stopped, n));
    }
    assert_that!(&rt; runs == 60 * 4);
}

fn assert_written(rt: &impl Abort, alloc: Global, row: Row, bus: &SimBus) {
    let wanted = row.wanted(rt, alloc);
    assert_that!(rt; bus.bytes() == wanted.as_slice());
}

// The session performs 271 operations and the restore 241, each with 65,536 polls. The restore reads sixteen sectors,
// reads fifteen of them again before it programs these, and reads all sixteen to verify them.
#[test]
fn the_slowest_session_and_its_restore(rt: HostRuntime) {
    let row = Row::EachPageIsProgrammed;
    let runs = Runs::new(&rt, rt.alloc(), row, Start::SLOWEST);
    let length = row.ends_at(Start::SLOWEST);
    let restored = 7 + 16 + 241 * 65_538 + 15 + 16;
    assert_that!(&rt; length == 65_542 + 16 + 271 * 65_538 + 1 + 16);
    assert_that!(&rt; restored < length && length < most(16));
    let mut cut = runs.cut(&rt, length);
    assert_written(&rt, rt.alloc(), row, &cut.bus);
    let sent = cut.restore(&rt, u64::MAX);
    assert_that!(&rt; sent == Some(restored));
    runs.assert_as_before(&rt, &cut.bus);
}

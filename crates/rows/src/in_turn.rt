//! Two successive sessions on one chip, and then their restores in reverse order. The first session is stopped after
//! its seal, or succeeds. The second session is stopped after each number of transactions.
use crate::held::assert_held;
use crate::row::{Row, Start};
use crate::runs::{AMPLE, Cut, Runs};
use nor_chip::{Meter, SimBus};
use nor_journal::MemVault;
use nor_session::{Refusal, session};
use std::alloc::Global;
use std::process::Abort;

fn write_again(rt: &impl Abort, alloc: Global, bus: SimBus, row: Row, allowed: u64) -> (Cut, bool) {
    let mut bus = bus;
    bus.allow(allowed);
    let mut vault = MemVault::new(alloc);
    let mut image = row.wanted(rt, alloc);
    let refusal = session(&mut bus, &mut vault, &mut image, &row.request(rt, alloc)).err();
    let stopped = matches!(refusal, None | Some(Refusal::Stopped));
    assert_held(rt, stopped, allowed);
    (Cut { bus, vault }, refusal.is_none())
}

fn undo_both(rt: &impl Abort, second: Cut, first: MemVault, allowed: u64) -> SimBus {
    let mut second = second;
    if second.vault.is_sealed() && second.restore(rt, allowed).is_none() {
        second
            .restore(rt, AMPLE)
            .expect(rt, "the second journal restores");
    }
    let mut first = Cut {
        bus: second.bus,
        vault: first,
    };
    first
        .restore(rt, AMPLE)
        .expect(rt, "the first journal restores");
    first.bus
}

fn stop_second(rt: &impl Abort, alloc: Global, runs: &Runs, other: Row, n: u64) -> u64 {
    for m in 0..AMPLE {
        let Cut { bus, vault } = runs.cut(rt, n);
        let (second, ended) = write_again(rt, alloc, bus, other, m);
        let bus = undo_both(rt, second, vault, m % 16);
        runs.assert_as_before(rt, &bus);
        if ended {
            return m;
        }
    }
    panic!(rt; "no session after {n} ended")
}

// The number of transactions of the second session, after a first session that stopped after 23 to 29 transactions or
// (in the last entry) succeeded. 23 precede the seal, each erase and program takes three, and one verifies. If the
// first session stopped after 25 to 27, byte 0 is FFh, and a second read of the sector replaces the erase.
const LENGTHS: [u64; 8] = [33, 33, 31, 31, 31, 33, 33, 33];

// The numbers for the second session if each stop still sends the whole next transaction, and only its reply is lost.
const LENGTHS_AFTER_A_LOST_REPLY: [u64; 8] = [33, 31, 31, 31, 33, 33, 33, 33];

#[test]
fn two_sessions_are_undone_in_turn(rt: HostRuntime) {
    let starts = [
        (Start::IDLE, LENGTHS),
        (Start::IDLE.torn(u32::MAX), LENGTHS_AFTER_A_LOST_REPLY),
    ];
    for (start, lengths) in starts {
        let runs = Runs::new(&rt, rt.alloc(), Row::ABitRises, start);
        for (n, length) in (23..).zip(lengths) {
            let sent = stop_second(&rt, rt.alloc(), &runs, Row::TwoPagesAreProgrammed, n);
            assert_held(&rt, sent == length, n);
        }
    }
}

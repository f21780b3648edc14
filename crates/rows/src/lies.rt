//! Sessions and restores on faulty buses, and restores after them on a well-behaved bus.
use crate::held::{assert_held, assert_that};
use crate::row::{Row, Start};
use crate::runs::Runs;
use crate::spoilt::Lied;
use nor_chip::Spoil;
use nor_journal::Journal;
use nor_probe::SfdpFault;
use nor_session::Refusal;
use std::alloc::Global;
use std::process::Abort;

const TIMEOUT: Refusal = Refusal::Timeout { address: 0 };

const MISMATCH: Refusal = Refusal::Mismatch { address: 0 };

fn assert_lied(rt: &impl Abort, alloc: Global, row: Row, lied: Lied, told: (Refusal, u64)) {
    let (refusal, sent) = told;
    assert_that!(rt; lied.refusal == Some(refusal) && lied.sent == sent);
    lied.assert_undone(rt, alloc, row);
}

// Each row has the session, the fault, and the expected error and number of transactions. `BusyFrom` and `Drop` name
// a transaction, counted from 1. On a TINY64, transactions 1 to 7 identify the chip, and 8 to 23 scan it.
// - `ABitRises`: 24 to 26 erase (write enable, command, poll), 27 to 29 program, and 30 verifies.
// - `AByteIsProgrammed`: 24 reads the sector, 25 to 27 program, and 28 verifies.
// - `NineSectorsAreErased`: 25 erases sectors 0 to 7, 28 erases sector 8, and 30 to 38 verify.
// - `AGuardedByteIsProgrammed` (W25Q64FV): 1 to 4 identify, 5 to 2,052 scan, and 2,053 to 2,055 lift the protection.
const SESSIONS: [(Row, Spoil, (Refusal, u64)); 10] = [
    (Row::ABitRises, Spoil::Fill(0xFF), (TIMEOUT, 65_536)),
    (Row::ABitRises, Spoil::Fill(0x00), (Refusal::NoChip, 2)),
    (Row::ABitRises, Spoil::BusyFrom(26), (TIMEOUT, 25 + 65_536)),
    (Row::ABitRises, Spoil::Drop(24), (MISMATCH, 30)),
    (
        Row::ABitRises,
        Spoil::Low(0),
        (Refusal::UnknownChip(SfdpFault::Signature), 5),
    ),
    (
        Row::AByteIsProgrammed,
        Spoil::BusyFrom(27),
        (Refusal::Timeout { address: 0x100 }, 26 + 65_536),
    ),
    (
        Row::AByteIsProgrammed,
        Spoil::Drop(26),
        (Refusal::Mismatch { address: 0x100 }, 28),
    ),
    (Row::NineSectorsAreErased, Spoil::Drop(25), (MISMATCH, 30)),
    (
        Row::NineSectorsAreErased,
        Spoil::Drop(28),
        (Refusal::Mismatch { address: 0x8000 }, 38),
    ),
    (
        Row::AGuardedByteIsProgrammed,
        Spoil::BusyFrom(2055),
        (TIMEOUT, 2054 + 65_536),
    ),
];

#[test]
fn a_session_that_changes(rt: HostRuntime) {
    for (row, spoil, told) in SESSIONS {
        let lied = Lied::session(&rt, rt.alloc(), row, spoil);
        assert_lied(&rt, rt.alloc(), row, lied, told);
    }
}

// Each row has the fault, and the expected error and number of transactions of a restore after a session that was
// stopped after its erase. Transactions 1 to 7 identify the chip, 8 and 9 read the sector, and 10 to 12 program it.
const RESTORES: [(Spoil, (Refusal, u64)); 12] = [
    (Spoil::Fill(0xFF), (TIMEOUT, 65_536)),
    (Spoil::Fill(0x00), (Refusal::NoChip, 2)),
    (Spoil::BusyFrom(12), (TIMEOUT, 11 + 65_536)),
    (Spoil::Drop(2), (Refusal::NoChip, 2)),
    (
        Spoil::Drop(3),
        (Refusal::UnknownChip(SfdpFault::Signature), 5),
    ),
    (
        Spoil::Drop(4),
        (Refusal::UnknownChip(SfdpFault::FirstHeader), 5),
    ),
    (
        Spoil::Drop(5),
        (Refusal::UnknownChip(SfdpFault::Address), 5),
    ),
    (Spoil::Drop(6), (Refusal::StatusDiffers, 7)),
    (Spoil::Drop(7), (Refusal::OtherUnit, 7)),
    (Spoil::Drop(10), (MISMATCH, 13)),
    (Spoil::Drop(11), (MISMATCH, 13)),
    (
        Spoil::Low(0),
        (Refusal::UnknownChip(SfdpFault::Signature), 5),
    ),
];

#[test]
fn a_restore_that_programs(rt: HostRuntime) {
    let row = Row::ABitRises;
    let runs = Runs::new(&rt, rt.alloc(), row, Start::IDLE);
    for (spoil, told) in RESTORES {
        let lied = Lied::restore(&rt, runs.cut(&rt, 25), spoil);
        assert_lied(&rt, rt.alloc(), row, lied, told);
    }
}

// Transactions 8 to 23 scan the chip. Only sector 0 is saved. If the bus drops transaction 8, byte 0 is saved as FFh.
#[test]
fn a_lie_before_the_seal_leaves_a_journal(rt: HostRuntime) {
    for n in 8..=23 {
        let lied = Lied::session(&rt, rt.alloc(), Row::ABitRises, Spoil::Drop(n));
        let journal = Journal::read(lied.cut.vault.bytes()).expect(&rt, "a journal");
        let first = if n == 8 { 0xFF } else { 0x00 };
        let saved = journal.find(0).and_then(|bytes| bytes.first().copied());
        let holds = lied.cut.vault.is_sealed() && journal.count() == 1;
        assert_held(&rt, holds && saved == Some(first), n);
    }
}

fn is_fitting(spoil: Spoil, refusal: Option<Refusal>) -> bool {
    match refusal {
        None => true,
        Some(Refusal::Mismatch { .. }) => matches!(spoil, Spoil::Drop(_)),
        Some(Refusal::Timeout { .. }) => matches!(spoil, Spoil::BusyFrom(_)),
        Some(_) => false,
    }
}

fn lie_past_the_seal(rt: &impl Abort, alloc: Global, row: Row) -> u64 {
    let mut runs: u64 = 0;
    for n in row.sealed_at(Start::IDLE)..row.ends_at(Start::IDLE) {
        for spoil in [Spoil::Drop(n + 1), Spoil::BusyFrom(n + 1)] {
            let lied = Lied::session(rt, alloc, row, spoil);
            let holds = is_fitting(spoil, lied.refusal) && lied.cut.vault.is_sealed();
            assert_held(rt, holds, n);
            lied.assert_undone(rt, alloc, row);
            runs = runs.saturating_add(1);
        }
    }
    runs
}

// Each row has a session and the number of its runs: two for each transaction after the seal.
const PAST_THE_SEAL: [(Row, u64); 6] = [
    (Row::AByteIsProgrammed, 2 * 5),
    (Row::ABitRises, 2 * 7),
    (Row::TwoPagesAreProgrammed, 2 * 8),
    (Row::NineSectorsAreErased, 2 * 15),
    (Row::TheRestOfASectorStays, 2 * 49),
    (Row::AGuardedByteIsProgrammed, 2 * 11),
];

#[test]
fn any_lie_past_the_seal_is_undone(rt: HostRuntime) {
    for (row, runs) in PAST_THE_SEAL {
        assert_that!(&rt; lie_past_the_seal(&rt, rt.alloc(), row) == runs);
    }
}

fn lie_to_restores(rt: &impl Abort, alloc: Global, row: Row, stop: u64, length: u64) {
    let runs = Runs::new(rt, alloc, row, Start::IDLE);
    let sent = runs.cut(rt, stop).restore(rt, length);
    assert_held(rt, sent == Some(length), stop);
    for n in 0..length {
        for spoil in [Spoil::Drop(n + 1), Spoil::BusyFrom(n + 1)] {
            let lied = Lied::restore(rt, runs.cut(rt, stop), spoil);
            lied.assert_undone(rt, alloc, row);
        }
    }
}

// Each row has a session, the number of transactions after which it is stopped, and the number of transactions of the
// restore after this stop.
const BEHIND: [(Row, u64, u64); 5] = [
    (Row::ABitRises, 25, 13),
    (Row::AByteIsProgrammed, 26, 12),
    (Row::TheRestOfASectorStays, 10, 58),
    (Row::AGuardedByteIsProgrammed, 2054, 8),
    (Row::AGuardedByteIsProgrammed, 2061, 15),
];

#[test]
fn any_lie_to_a_restore_is_undone(rt: HostRuntime) {
    for (row, stop, length) in BEHIND {
        lie_to_restores(&rt, rt.alloc(), row, stop, length);
    }
}

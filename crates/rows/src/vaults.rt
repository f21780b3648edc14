//! Sessions whose vault refuses one of its calls.
use crate::held::{assert_held, assert_that};
use crate::row::{Row, Start};
use crate::runs::{assert_untouched, keep};
use nor_chip::Meter;
use nor_journal::{BrokenVault, Journal, MemVault};
use nor_session::Refusal;
use std::alloc::Global;
use std::process::Abort;

// Runs the session with a vault that refuses call `nth`. Asserts that the chip is changed only if the session succeeds.
fn refuse(
    rt: &impl Abort,
    alloc: Global,
    row: Row,
    nth: u64,
    kept: usize,
) -> (Option<Refusal>, u64, bool, bool) {
    let mut bus = row.bus(rt, alloc, Start::IDLE);
    bus.allow(u64::MAX);
    let mut vault = BrokenVault::new(MemVault::new(alloc), nth, kept);
    let refusal = keep(rt, alloc, row, &mut bus, &mut vault).err();
    if refusal.is_some() {
        assert_untouched(rt, alloc, row, &bus);
    } else {
        assert_that!(rt; bus.bytes() == row.wanted(rt, alloc).as_slice());
    }
    let held = vault.inner();
    let holds_journal = Journal::read(held.bytes()).is_ok();
    (refusal, vault.failures(), held.is_sealed(), holds_journal)
}

// Refuses each of the vault's `calls` calls in turn. Asserts error 11 and an unsealed vault, which contains a whole
// journal if and only if call `whole_from` or a later one was refused.
fn refuse_each(rt: &impl Abort, alloc: Global, row: Row, calls: u64, kept: usize, whole_from: u64) {
    for nth in 1..=calls {
        let left = refuse(rt, alloc, row, nth, kept);
        let told = (Some(Refusal::Vault), 1, false, nth >= whole_from);
        assert_held(rt, left == told, nth);
    }
    let left = refuse(rt, alloc, row, calls.saturating_add(1), kept);
    assert_that!(rt; left == (None, 0, true, true));
}

// The calls are the header, each record, the end mark, the digest and the seal. A vault that keeps 4,095 bytes of a
// refused piece keeps the whole digest, and then holds a whole journal.
const ROWS: [(Row, u64); 2] = [
    (Row::ABitRises, 1 + 1 + 2 + 1),
    (Row::NineSectorsAreErased, 1 + 9 + 2 + 1),
];

#[test]
fn each_call_of_a_vault_is_refused(rt: HostRuntime) {
    let alloc = rt.alloc();
    for (row, calls) in ROWS {
        refuse_each(&rt, alloc, row, calls, 0, calls);
        refuse_each(&rt, alloc, row, calls, 1, calls);
        refuse_each(&rt, alloc, row, calls, 4095, calls - 1);
    }
}

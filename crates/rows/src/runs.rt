//! Runs of a row: its session, which may be stopped, and the restores after it.
ghost use Rattle.nor_journal.specs.Vault.{IsFresh};

use crate::held::{assert_held, assert_that};
use crate::row::{Row, Start};
use nor_chip::{Bus, Meter, SimBus};
use nor_journal::{Journal, MemVault, Vault};
use nor_session::{Refusal, Report, restore, session};
use std::alloc::Global;
use std::process::Abort;

/// Enough transactions for a restore of any row with any start except `Start::SLOWEST`.
pub const AMPLE: u64 = 10_000;

/// Runs a row's session on the given bus, with a fresh vault (empty and unsealed). Returns the session's result.
pub fn keep<B: Bus, V: Vault>(
    rt: &impl Abort,
    alloc: Global,
    row: Row,
    bus: &mut B,
    vault: &mut V,
) -> Result<Report, Refusal>
    requires { IsFresh (V.state vault.old) }
{
    let mut image = row.wanted(rt, alloc);
    let request = row.request(rt, alloc);
    session(bus, vault, &mut image, &request)
}

/// The bus to the chip, and the vault, as a session or restore left them.
#[derive(Drop)]
pub struct Cut {
    pub bus: SimBus,
    pub vault: MemVault,
}

impl Cut {
    /// Restores with the allowance `allowed`. Returns the number of transactions if this succeeds, and `None` after a
    /// stop. On success, asserts that the chip is idle, and that its write enable latch is clear or as before.
    pub fn restore(&mut self, rt: &impl Abort, allowed: u64) -> Option<u64> {
        let journal = Journal::read(self.vault.bytes()).expect(rt, "a journal");
        self.bus.allow(allowed);
        let before = self.bus.status()[0] & 0x02;
        let sent = ended(rt, restore(&mut self.bus, &journal));
        let latch_and_busy = self.bus.status()[0] & 0x03;
        assert_held(
            rt,
            sent.is_none() || latch_and_busy == 0 || latch_and_busy == before,
            allowed,
        );
        sent
    }
}

fn ended(rt: &impl Abort, answer: Result<Report, Refusal>) -> Option<u64> {
    match answer {
        Ok(report) => Some(report.transactions),
        Err(refusal) => {
            assert_that!(rt; matches!(refusal, Refusal::Stopped));
            None
        }
    }
}

/// A row with its start. The methods run its session and its restores.
#[derive(Drop)]
pub struct Runs {
    alloc: Global,
    row: Row,
    start: Start,
    before: Vec<u8>,
    // The greatest number of bytes of the failed transaction that a stop of a restore still sends.
    torn: Option<u32>,
}

impl Runs {
    /// Returns the runs of a row. Stops of its session and of its restores send at most `start.torn` bytes.
    pub fn new(rt: &impl Abort, alloc: Global, row: Row, start: Start) -> Runs {
        Runs {
            alloc,
            row,
            start,
            before: row.before(rt, alloc),
            torn: start.torn,
        }
    }

    pub fn with_restores_torn(self, count: u32) -> Runs {
        Runs {
            torn: Some(count),
            ..self
        }
    }

    /// Runs the session on a new chip, with the allowance `allowed`. Asserts that the session succeeds if and only if
    /// `allowed` is at least `ends_at`, and that the vault is sealed if and only if `allowed` is at least `sealed_at`.
    pub fn cut(&self, rt: &impl Abort, allowed: u64) -> Cut {
        let mut bus = self.row.bus(rt, self.alloc, self.start);
        bus.allow(allowed);
        let mut vault = MemVault::new(self.alloc);
        let answer = keep(rt, self.alloc, self.row, &mut bus, &mut vault);
        let told = (ended(rt, answer), vault.is_sealed());
        assert_held(rt, told == self.expected_at(allowed), allowed);
        assert_held(rt, told.0.is_none() || bus.status()[0] & 0x03 == 0, allowed);
        Cut { bus, vault }
    }

    fn expected_at(&self, allowed: u64) -> (Option<u64>, bool) {
        let length = self.row.ends_at(self.start);
        let sealed = allowed >= self.row.sealed_at(self.start);
        let sent = if allowed >= length {
            Some(length)
        } else {
            None
        };
        (sent, sealed)
    }

    /// Asserts that the chip has the same contents and non-volatile status bits as before the session.
    pub fn assert_as_before(&self, rt: &impl Abort, bus: &SimBus) {
        let [one, two] = bus.status();
        assert_that!(rt; bus.bytes() == self.before.as_slice());
        assert_that!(rt; [one & 0xFC, two & 0x7F] == self.row.status());
    }

    /// Runs the session with each allowance from `first` to `ends_at`, and restores if the vault is sealed. Asserts
    /// that the chip is then as before the session. Returns the number of sessions.
    pub fn stop_at_each(&self, rt: &impl Abort, first: u64) -> u64 {
        let mut runs: u64 = 0;
        for n in first..=self.row.ends_at(self.start) {
            let mut cut = self.cut(rt, n);
            if cut.vault.is_sealed() {
                cut.restore(rt, AMPLE).expect(rt, "the restore ends");
            }
            self.assert_as_before(rt, &cut.bus);
            runs = runs.saturating_add(1);
        }
        runs
    }

    /// Runs the session with each allowance from `first` to `ends_at`. If the vault is sealed, stops its restore after
    /// each number of transactions, and restores again. Returns the number of unsealed sessions plus
    /// that of the restores that directly follow a session.
    pub fn stop_restores_at_each(&self, rt: &impl Abort, first: u64) -> u64 {
        let mut runs: u64 = 0;
        for n in first..=self.row.ends_at(self.start) {
            runs = runs.saturating_add(self.stop_restores_after(rt, n));
        }
        runs
    }

    /// Stops the session after each number of transactions from `first` on, and restores if the vault is sealed. If
    /// it isn't, asserts that the write enable latch is clear. Returns the number of stops.
    pub fn stop_sessions(&self, rt: &impl Abort, first: u64) -> u64 {
        let mut stops: u64 = 0;
        for n in first..self.row.ends_at(self.start) {
            let mut cut = self.cut(rt, n);
            if cut.vault.is_sealed() {
                cut.restore(rt, AMPLE).expect(rt, "the restore ends");
            } else {
                assert_held(rt, cut.bus.status()[0] & 0x02 == 0, n);
            }
            self.assert_as_before(rt, &cut.bus);
            stops = stops.saturating_add(1);
        }
        stops
    }

    /// Stops the session after `n` transactions. If its vault is sealed, stops its restore after each number of
    /// transactions, and then restores again. Returns the number of stopped restores.
    pub fn stop_restores(&self, rt: &impl Abort, n: u64) -> u64 {
        self.stop_restores_after(rt, n).saturating_sub(1)
    }

    // Does what `stop_restores` does, but also counts a restore that isn't stopped. Returns 1 without a seal.
    fn stop_restores_after(&self, rt: &impl Abort, n: u64) -> u64 {
        for m in 0..AMPLE {
            let mut cut = self.cut(rt, n);
            cut.bus.tear(self.torn);
            let is_last = ends_within(rt, &mut cut, m);
            self.assert_as_before(rt, &cut.bus);
            if is_last {
                return m + 1;
            }
        }
        panic!(rt; "no restore after {n} ended")
    }
}

// Restores if the vault is sealed, and again after a stop. Returns false only if the first restore was stopped.
fn ends_within(rt: &impl Abort, cut: &mut Cut, allowed: u64) -> bool {
    if !cut.vault.is_sealed() {
        return true;
    }
    let sent = cut.restore(rt, allowed);
    if sent.is_none() {
        cut.restore(rt, AMPLE).expect(rt, "the second restore ends");
        return false;
    }
    assert_that!(rt; sent == Some(allowed));
    true
}

/// Asserts that the chip is as before the row's session, idle, and with a clear write enable latch.
pub fn assert_untouched(rt: &impl Abort, alloc: Global, row: Row, bus: &SimBus) {
    Runs::new(rt, alloc, row, Start::IDLE).assert_as_before(rt, bus);
    assert_that!(rt; bus.status() == row.status());
}

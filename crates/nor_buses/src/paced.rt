//! A bus that pauses between polls of a busy chip.
ghost use Rattle.std.specs.Prelude.{◌≡◌, ◌≤◌, not, true, ℕ, OnOk, OnErr, IfSome};
ghost use Rattle.nor_model.specs.Bus.{Transfers};
ghost use Rattle.nor_model.specs.PolledReady.{polled_ready_after};
ghost use Rattle.nor_buses.specs.Pace.{pause_before, pauses, typical_of, typical_after, busy_row_after};

use nor_model::opcodes::{
    ERASE_32K, ERASE_64K, ERASE_CHIP, ERASE_SECTOR, PAGE_PROGRAM, READ_STATUS1, WRITE_STATUS,
};
use nor_model::{Bus, Stopped};
use std::thread;
use std::time::{Clock, Duration, Instant};

// The first poll of a wait is delayed only if the operation typically takes at most this number of microseconds.
const FIRST_POLL: u64 = 1000;

// The shortest pause before the third and each later poll of a wait, in microseconds.
const SHORTEST: u64 = 100;

// The longest pause before the third and each later poll of a wait, in microseconds.
const LONGEST: u64 = 6250;

/// A bus that pauses between polls that show BUSY. A poll of a chip that is certainly still busy costs time on the
/// wire, and without pauses a fast bus may use up the 65,536 polls of a wait before an erase ends.
///
/// The pause before a transaction depends on how many polls in a row showed BUSY before it:
///
/// - none: no pause, except before a poll after an operation that typically takes at most 1 ms (a page program). That
///   pause ends when the typical duration has passed since the command, so the poll often finds the chip ready.
/// - one: the typical duration of the operation that began last, minus the time since its command. A page program
///   typically takes 0.7 ms, a status write 10 ms, an erase of 4 KiB 45 ms, of 32 KiB 120 ms, of 64 KiB 150 ms
///   (W25Q64FV datasheet, AC characteristics). An erase of the whole chip counts as one of 64 KiB.
/// - two or more: a sixteenth of the typical duration, but at least 0.1 ms and at most 6.25 ms. After every 16 polls
///   this pause doubles, up to 6.25 ms.
///
/// If all 65,536 polls of a wait show BUSY, their pauses last 400 to 410 s in total. The longest operation of the known
/// chips, the erase of a whole W25Q128FV, takes at most 200 s (datasheet, AC characteristics). It is not proved that
/// `Clock::sleep` is called, or that it waits for the requested time. If the clock fails, the time since a command
/// counts as 0. This bus is well-behaved if and only if the bus inside is.
#[derive(Drop)]
pub struct Paced<B, C> {
    bus: B,
    clock: C,
    // The typical duration in microseconds of the operation that began last; 0 if no operation began.
    typical: u64,
    // The time of the last command that began an operation; `None` if there was none, or if the clock failed.
    sent: Option<Instant>,
    busy_polls: u64,
    ghost typical_is_short: { typical ≤ 150000 },
}

impl<B: Bus + Drop, C: Clock + Drop> Paced<B, C> {
    ghost use Rattle.nor_buses.specs.Paced.{paced_of, busy_row, typical_in};

    /// Returns a bus over `bus` that measures time and pauses with `clock`.
    pub fn new(bus: B, clock: C) -> Paced<B, C>
        ensures bus { paced_of result ≡ bus }
        ensures none_yet { busy_row result ≡ 0 }
        ensures no_operation { typical_in result ≡ 0 }
        ensures lasts { (typical elapsed : ℕ) → 400000000 ≤ pauses typical elapsed 65536 }
        ensures ends { (typical elapsed : ℕ) → typical ≤ 150000 → pauses typical elapsed 65536 ≤ 410000000 }
    {
        Paced {
            bus,
            clock,
            typical: 0,
            sent: None,
            busy_polls: 0,
        }
    }

    /// Returns the bus inside, which carries out the transactions of this bus.
    pub fn inner(&self) -> &B
        ensures { result.now ≡ paced_of self.now }
    {
        &self.bus
    }

    /// Returns the bus inside.
    pub fn into_inner(self) -> B
        ensures { result ≡ paced_of self }
    {
        let Paced {
            bus,
            clock: _,
            typical: _,
            sent: _,
            busy_polls: _,
        } = self;
        bus
    }
}

impl<B, C: Clock> Paced<B, C> {
    fn pause(&self) {
        let micros = pause_micros(self.typical, self.elapsed(), self.busy_polls);
        if micros > 0 {
            thread::sleep(&self.clock, Duration::from_micros(micros));
        }
    }

    fn elapsed(&self) -> u64 {
        let Some(sent) = self.sent else {
            return 0;
        };
        match sent.elapsed(&self.clock) {
            Ok(time) => u64::try_from(time.as_micros()).unwrap_or(u64::MAX),
            Err(_) => 0,
        }
    }
}

impl<B: Bus, C: Clock> Bus for Paced<B, C> {
    ghost use Rattle.nor_buses.specs.Paced.{paced_of, busy_row, typical_in};

    ghost state = { λ paced. B.state paced.bus };

    ghost reaches = { λ paced honest. B.reaches paced.bus honest };

    fn transfer(&mut self, out: &[u8], reply: &mut [u8]) -> Result<(), Stopped>
        ensures law { Transfers out.now reply.old reply.new result
            (B.state (paced_of self.old)) (B.state (paced_of self.new)) }
        ensures row { OnOk result (busy_row self.new ≡ busy_row_after out.now reply.new (busy_row self.old)) }
        ensures operation { OnOk result (typical_in self.new ≡ typical_after out.now (typical_in self.old)) }
        ensures stopped { OnErr result (busy_row self.new ≡ busy_row self.old) }
        ensures stopped_operation { OnErr result (typical_in self.new ≡ typical_in self.old) }
        ensures short { (elapsed : ℕ) → pause_before (typical_in self.old) elapsed (busy_row self.old) ≤ 150000 }
    {
        if self.busy_polls > 0 || matches!(out, [READ_STATUS1]) {
            self.pause();
        }
        let begun = typical_micros(out);
        let sent = match begun {
            Some(_) => Instant::now(&self.clock).ok(),
            None => self.sent,
        };
        self.bus.transfer(out, reply)?;
        self.typical = begun.unwrap_or(self.typical);
        self.sent = sent;
        self.busy_polls = if shows_busy(out, reply) {
            self.busy_polls.saturating_add(1)
        } else {
            0
        };
        Ok(())
    }

    fn has_further_types(&self) -> bool {
        self.bus.has_further_types()
    }
}

// Returns whether a transaction is a poll (only 05h is sent) and the last byte of its reply shows BUSY.
fn shows_busy(out: &[u8], reply: &[u8]) -> bool
    ensures { result ≡ not (polled_ready_after out.now reply.now true) }
{
    match reply.last() {
        Some(status) if matches!(out, [READ_STATUS1]) => status % 2 != 0,
        _ => false,
    }
}

fn typical_micros(out: &[u8]) -> Option<u64>
    ensures typical { result ≡ typical_of out.now }
    ensures short { IfSome result (λ typical. typical ≤ 150000) }
{
    match out {
        [PAGE_PROGRAM, ..] => Some(700),
        [WRITE_STATUS, ..] => Some(10_000),
        [ERASE_SECTOR, ..] => Some(45_000),
        [ERASE_32K, ..] => Some(120_000),
        [ERASE_64K | ERASE_CHIP, ..] => Some(150_000),
        _ => None,
    }
}

fn pause_micros(typical: u64, elapsed: u64, busy_polls: u64) -> u64
    ensures { result ≡ pause_before typical elapsed busy_polls }
{
    match busy_polls {
        0 if typical > FIRST_POLL => 0,
        0 | 1 => typical.saturating_sub(elapsed),
        _ => {
            let doublings = (busy_polls / 16).min(6);
            let first = (typical / 16).clamp(SHORTEST, LONGEST);
            (first << doublings).min(LONGEST)
        }
    }
}

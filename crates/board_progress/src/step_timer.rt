//! Counts and times the operations of a job, for its progress line.

use crate::steps::{Step, StepLine, Total};
use crate::tallies::{Tallies, Tally};
use crate::terminal::Transfer;
use nor_model::opcodes::READ_STATUS1;
use std::time::Instant;

// The least number of microseconds between two drawings of the progress line, except the last drawing of a step.
const BETWEEN: u64 = 100_000;

/// Counts and times the operations of a job, for its progress line. A read counts when its reply was received, any
/// other operation when a poll shows that the chip is ready.
#[derive(Clone, Copy)]
pub struct StepTimer {
    tallies: Tallies,
    running: Option<(Step, u64)>,
    // when the last operation was counted, or `new` or `restart` was called, whichever was latest
    last: Option<Instant>,
    drawn: Option<Instant>,
}

impl StepTimer {
    /// Returns a timer that has counted nothing, and measures the time of the first operation from `now` on.
    pub fn new(now: Option<Instant>) -> StepTimer {
        StepTimer {
            tallies: Tallies::default(),
            running: None,
            last: now,
            drawn: None,
        }
    }

    /// Measures the time of the next operation from `now` on.
    pub fn restart(&mut self, now: Option<Instant>) {
        self.last = now;
    }

    pub fn restart_scan(&mut self) {
        self.tallies.set(Step::Scan, Tally::default());
    }

    /// Counts a transaction of this step before it is passed on. Returns the number of the step's transactions.
    pub fn begin(&mut self, step: Step) -> u64 {
        let mut tally = self.tallies.of(step);
        tally.begin();
        self.tallies.set(step, tally);
        tally.begun
    }

    pub fn begun(&self, step: Step) -> u64 {
        self.tallies.of(step).begun
    }

    /// Records a transaction that ended before `now`. Returns the step whose line has changed, if there is one.
    pub fn record(
        &mut self,
        step: Option<Step>,
        out: &[u8],
        reply: &[u8],
        now: Option<Instant>,
    ) -> Option<Step> {
        match step {
            Some(Step::Erase | Step::Program | Step::Protect) => {
                let step = step?;
                self.running = Some((step, data_len(step, out, reply)));
                Some(step)
            }
            Some(step) => {
                self.count(step, data_len(step, out, reply), now);
                Some(step)
            }
            None => self.record_poll(out, reply, now),
        }
    }

    fn record_poll(&mut self, out: &[u8], reply: &[u8], now: Option<Instant>) -> Option<Step> {
        let (step, bytes) = self.running?;
        let ([READ_STATUS1, ..], Some(status)) = (out, reply.last()) else {
            return None;
        };
        if status % 2 == 0 {
            self.running = None;
            self.count(step, bytes, now);
        }
        Some(step)
    }

    fn count(&mut self, step: Step, bytes: u64, now: Option<Instant>) {
        let mut tally = self.tallies.of(step);
        tally.finish(bytes, micros_between(self.last, now));
        self.tallies.set(step, tally);
        self.last = now;
    }

    pub fn scanned(&self) -> Transfer {
        let Tally { bytes, micros, .. } = self.tallies.of(Step::Scan);
        Transfer { bytes, micros }
    }

    /// Returns the line of a step. The time in it includes the time of an operation that the chip is still performing.
    pub fn line(&self, step: Step, total: Total, now: Option<Instant>) -> StepLine {
        let mut tally = self.tallies.of(step);
        if self.running.is_some() {
            let running = micros_between(self.last, now);
            tally.micros = tally.micros.saturating_add(running);
        }
        StepLine { step, tally, total }
    }

    /// Returns whether the progress line may be drawn again: no drawing was recorded in the last tenth of a second.
    pub fn is_due(&self, now: Option<Instant>) -> bool {
        self.drawn.is_none() || micros_between(self.drawn, now) >= BETWEEN
    }

    pub fn record_drawing(&mut self, now: Option<Instant>) {
        self.drawn = now;
    }
}

fn data_len(step: Step, out: &[u8], reply: &[u8]) -> u64 {
    match step {
        Step::Program => (out.len() as u64).saturating_sub(4),
        Step::Scan | Step::ReadBack | Step::Compare => reply.len() as u64,
        Step::Identify | Step::Erase | Step::Protect => 0,
    }
}

/// Returns the number of microseconds from one time to another, or 0 if one of them isn't known.
pub fn micros_between(from: Option<Instant>, to: Option<Instant>) -> u64 {
    match (from, to) {
        (Some(from), Some(to)) => {
            u64::try_from(to.duration_since(from).as_micros()).unwrap_or(u64::MAX)
        }
        _ => 0,
    }
}

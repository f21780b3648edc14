//! The tally of each step of a job.

use crate::steps::Step;

/// The transactions of a step, and its finished operations.
#[derive(Clone, Copy, Default)]
pub struct Tally {
    /// The number of transactions, including one that the bus stopped.
    pub begun: u64,
    /// The number of finished operations, their data bytes, and the microseconds that they took.
    pub done: u64,
    pub bytes: u64,
    pub micros: u64,
}

impl Tally {
    pub fn begin(&mut self) {
        self.begun = self.begun.saturating_add(1);
    }

    pub fn finish(&mut self, bytes: u64, micros: u64) {
        self.done = self.done.saturating_add(1);
        self.bytes = self.bytes.saturating_add(bytes);
        self.micros = self.micros.saturating_add(micros);
    }
}

#[derive(Clone, Copy, Default)]
pub struct Tallies {
    identify: Tally,
    scan: Tally,
    erase: Tally,
    program: Tally,
    protect: Tally,
    read_back: Tally,
    compare: Tally,
}

impl Tallies {
    pub fn of(&self, step: Step) -> Tally {
        match step {
            Step::Identify => self.identify,
            Step::Scan => self.scan,
            Step::Erase => self.erase,
            Step::Program => self.program,
            Step::Protect => self.protect,
            Step::ReadBack => self.read_back,
            Step::Compare => self.compare,
        }
    }

    pub fn set(&mut self, step: Step, tally: Tally) {
        match step {
            Step::Identify => self.identify = tally,
            Step::Scan => self.scan = tally,
            Step::Erase => self.erase = tally,
            Step::Program => self.program = tally,
            Step::Protect => self.protect = tally,
            Step::ReadBack => self.read_back = tally,
            Step::Compare => self.compare = tally,
        }
    }
}

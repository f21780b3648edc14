//! Implements `Progress` for a `ProgressBus` over a `ReadAhead`.

use super::{Progress, ProgressBus};
use crate::steps::{Phase, Step};
use nor_buses::ReadAhead;
use nor_model::Bus;

impl<B: Bus + Drop> Progress for ProgressBus<'_, ReadAhead<B>> {
    fn expect_reads(&mut self, sectors: usize) {
        let known = self.expected.unwrap_or(0);
        if known > 0 && self.timer.begun(Step::Scan) >= known as u64 && sectors > known {
            // All reads that were recorded before are done, so the further reads are a second scan.
            self.expected = Some(sectors - known);
            self.timer.restart_scan();
        } else {
            // A job may record the same reads again, or only the remaining reads, so the greatest number counts.
            self.expected = Some(sectors.max(known));
        }
    }

    fn expect_comparison(&mut self, sectors: usize) {
        self.show_duration();
        self.expected = Some(sectors);
        self.phase = Phase::After;
        self.timer.restart(self.terminal.now());
    }

    fn end_blocks_at(&mut self, address: u32) {
        self.bus.end_blocks_at(address);
    }
}

//! The last lines of a change: the final numbers of its erases, programs and reads, and the time that the change took.

use super::ProgressBus;
use crate::estimates::Minutes;
use crate::step_lines::Took;
use crate::step_timer::micros_between;
use crate::steps::{Phase, Step, Total};
use crate::terminal::ProgressStyle;
use std::time::Instant;

impl<B> ProgressBus<'_, B> {
    // Does nothing before the first modifying command, or after a comparison began.
    pub(super) fn show_duration(&self) {
        if self.phase != Phase::Changing {
            return;
        }
        self.show_last(Step::Erase);
        self.show_last(Step::Program);
        self.show_last(Step::ReadBack);
        let now = self.terminal.now();
        if self.terminal.style() == ProgressStyle::Line {
            self.terminal.clear_line();
            self.draw_last(Step::Program, now);
            self.draw_last(Step::ReadBack, now);
        }
        self.terminal
            .print_time(&Took(Minutes(micros_between(self.changed, now))));
    }

    // Shows the final number of a step's transactions, unless it is 0, or `show` has shown a line with this number.
    fn show_last(&self, step: Step) {
        let count = self.timer.begun(step);
        if count > 0 && count % step.stride() != 1 {
            self.show_step(step, count);
        }
    }

    fn draw_last(&self, step: Step, now: Option<Instant>) {
        let line = self.timer.line(step, Total::Done, now);
        if line.tally.done > 0 {
            self.terminal.draw_last(&line);
        }
    }
}

//! Prints a line at most once per minute, in the progress style `Minutes`.
ghost use Rattle.std.specs.Prelude.{◌≡◌};

use super::ProgressBus;
use crate::step_timer::micros_between;
use crate::terminal::ProgressStyle;
use std::fmt;

const MINUTE: u64 = 60_000_000;

impl<B> ProgressBus<'_, B> {
    pub(super) fn print_each_minute<T: fmt::Display>(&mut self, line: &T)
        ensures { self.new.bus ≡ self.old.bus }
    {
        if self.terminal.style() != ProgressStyle::Minutes {
            return;
        }
        let now = self.terminal.now();
        if micros_between(self.said, now) >= MINUTE {
            self.said = now;
            self.terminal.print_shown(line);
        }
    }
}

//! The steps of a job, and the lines that show them.
ghost use Rattle.std.specs.Prelude.{◌≤◌};

use crate::estimates::{Minutes, Rate, percent, tenths_of_kib, time_for};
use crate::tallies::Tally;
use nor_model::opcodes::{
    ERASE_32K, ERASE_64K, ERASE_CHIP, ERASE_SECTOR, PAGE_PROGRAM, READ_DATA, READ_ID, WRITE_STATUS,
};
use std::fmt;

/// The steps of a job. A job may omit a step, and the order varies. A read of a sector is a `Scan` until the change is
/// announced, then a `ReadBack`, and a `Compare` in the comparison after a change or restore.
#[derive(Clone, Copy, PartialEq)]
pub enum Step {
    Identify,
    Scan,
    Erase,
    Program,
    Protect,
    ReadBack,
    Compare,
}

/// The phase of a job in which a transaction is made.
#[derive(Clone, Copy, PartialEq)]
pub enum Phase {
    /// No modifying command was sent, and no comparison has begun.
    Before,
    /// A modifying command was sent, and no comparison has begun.
    Changing,
    /// The change or restore has ended, and the comparison after it has begun.
    After,
}

/// Returns the step to which a transaction belongs, or `None` if it belongs to none, such as a poll or a write enable.
pub fn step_of(out: &[u8], phase: Phase) -> Option<Step> {
    match out {
        [READ_ID, ..] => Some(Step::Identify),
        [READ_DATA, ..] => Some(match phase {
            Phase::Before => Step::Scan,
            Phase::Changing => Step::ReadBack,
            Phase::After => Step::Compare,
        }),
        [ERASE_SECTOR | ERASE_32K | ERASE_64K | ERASE_CHIP, ..] => Some(Step::Erase),
        [PAGE_PROGRAM, ..] => Some(Step::Program),
        [WRITE_STATUS, ..] => Some(Step::Protect),
        _ => None,
    }
}

impl Step {
    /// Returns the number of transactions of this step from one line of `ProgressStyle::Plain` to the next. The number
    /// is smaller for erases, because one erase can take seconds (64 KiB: up to 2 seconds, W25Q64FV datasheet).
    pub fn stride(self) -> u64
        ensures { 1 ≤ result }
    {
        match self {
            Step::Erase => 16,
            _ => 256,
        }
    }

    pub fn name(self) -> &'static str {
        match self {
            Step::Identify => "identify",
            Step::Scan => "scan",
            Step::Erase => "erase",
            Step::Program => "program",
            Step::Protect => "protect",
            Step::ReadBack => "read back",
            Step::Compare => "compare",
        }
    }

    fn nouns(self) -> (&'static str, &'static str) {
        match self {
            Step::Identify => ("ID", "IDs"),
            Step::Erase => ("erase", "erases"),
            Step::Program => ("page", "pages"),
            Step::Protect => ("status write", "status writes"),
            Step::Scan | Step::ReadBack | Step::Compare => ("sector", "sectors"),
        }
    }

    pub fn is_reading(self) -> bool {
        !matches!(self, Step::Erase | Step::Program | Step::Protect)
    }

    /// Returns the noun for `number` operations of this step, in the singular or the plural.
    pub fn unit(self, number: u64) -> &'static str {
        let (one, several) = self.nouns();
        if number == 1 { one } else { several }
    }
}

/// The number of all operations of a step, as far as it is known.
#[derive(Clone, Copy, PartialEq)]
pub enum Total {
    Unknown,
    AtMost(u64),
    Exactly(u64),
    /// The step has ended, so the number is that of the finished operations.
    Done,
}

impl Total {
    fn unless_exceeded(self, done: u64) -> Total {
        match self {
            Total::AtMost(total) | Total::Exactly(total) if done > total => Total::Unknown,
            _ => self,
        }
    }
}

/// The line that shows a step. During the step, the line has the percentage and the rate if the total is known exactly
/// and isn't exceeded, otherwise the number of finished operations, and then the time that is left or has passed. After
/// the step, it has the number of operations, the rate and the duration. A rate is shown only if data was transferred.
#[derive(Clone, Copy, Drop)]
pub struct StepLine {
    pub step: Step,
    pub tally: Tally,
    pub total: Total,
}

impl StepLine {
    pub fn is_complete(&self) -> bool {
        self.total == Total::Exactly(self.tally.done)
    }
}

impl fmt::Display for StepLine {
    fn fmt<W: fmt::Write>(&self, f: &mut fmt::Formatter<W>) -> fmt::Result {
        let name = self.step.name();
        let Tally { done, micros, .. } = self.tally;
        let so_far = Minutes(micros);
        match self.total.unless_exceeded(done) {
            Total::Exactly(all) if all == done => write!(
                f,
                "{name}: 100 %, {done} of {all} {}{}, took {so_far}",
                self.step.unit(all),
                RateOf(self.tally)
            ),
            Total::Exactly(all) => {
                let share = percent(done, all).unwrap_or(100);
                write!(f, "{name}: {share} %{}", RateOf(self.tally))?;
                match time_for(all.saturating_sub(done), done, micros) {
                    Some(left) => write!(f, ", {} left", Minutes(left)),
                    None => write!(f, ", {so_far} so far"),
                }
            }
            Total::AtMost(most) => {
                write!(f, "{name}: {done} {}", self.step.unit(done))?;
                match time_for(most.saturating_sub(done), done, micros) {
                    Some(left) => write!(f, ", at most {} left", Minutes(left)),
                    None => write!(f, ", {so_far} so far"),
                }
            }
            Total::Done => write!(
                f,
                "{name}: {done} {}{}, took {so_far}",
                self.step.unit(done),
                RateOf(self.tally)
            ),
            Total::Unknown => write!(
                f,
                "{name}: {done} {}, {so_far} so far",
                self.step.unit(done)
            ),
        }
    }
}

#[derive(Clone, Copy, Drop)]
struct RateOf(Tally);

impl fmt::Display for RateOf {
    fn fmt<W: fmt::Write>(&self, f: &mut fmt::Formatter<W>) -> fmt::Result {
        let Tally { bytes, micros, .. } = self.0;
        match tenths_of_kib(bytes, micros) {
            Some(tenths) if bytes > 0 => write!(f, ", {}", Rate(tenths)),
            _ => Ok(()),
        }
    }
}

//! The plain lines of the steps, and the line that says how long a change took.

use crate::estimates::Minutes;
use crate::steps::Step;
use std::fmt;

/// The line of a step, as `ProgressStyle::Plain` prints it and the log receives it.
#[derive(Clone, Copy, Drop)]
pub struct PlainLine {
    pub step: Step,
    /// The number of transactions of the step so far.
    pub count: u64,
    /// The number of sectors that a scan or a comparison reads, if known.
    pub expected: Option<u64>,
}

impl fmt::Display for PlainLine {
    fn fmt<W: fmt::Write>(&self, f: &mut fmt::Formatter<W>) -> fmt::Result {
        let PlainLine { step, count, .. } = *self;
        let name = step.name();
        match (step, self.expected) {
            (Step::Identify, _) => f.write_str(name),
            (_, Some(expected)) if count <= expected => {
                write!(f, "{name}: sector {count} of {expected}")
            }
            _ => write!(f, "{name}: {count} {}", step.unit(count)),
        }
    }
}

/// The line that says how long a change took. `ProgressStyle::Line` prints it, and the log receives it.
#[derive(Clone, Copy, Drop)]
pub struct Took(pub Minutes);

impl fmt::Display for Took {
    fn fmt<W: fmt::Write>(&self, f: &mut fmt::Formatter<W>) -> fmt::Result {
        write!(f, "The change took {}.", self.0)
    }
}

//! Plays a case: performs its actions on a simulated chip, and then makes its checks.

use crate::actions;
use crate::answers::{Answers, Left};
use crate::fault::{Fault, LineFault};
use crate::setup::Setup;
use crate::word::Word;
use std::alloc::Global;

/// A case: its name, the settings in its line `chip`, and the lines after that.
#[derive(Clone, Copy)]
pub struct Case<'a> {
    pub name: &'a str,
    settings: &'a str,
    steps: &'a str,
    // the number of the first line in `steps`
    first: usize,
}

impl<'a> Case<'a> {
    /// Splits the text of a case, whose name is in the line `number` of the input. Without a line `chip`, `play` fails.
    pub fn of(text: &'a str, number: usize) -> Case<'a> {
        let (name, rest) = text.split_once('\n').unwrap_or((text, ""));
        let (chip, steps) = rest.split_once('\n').unwrap_or((rest, ""));
        Case {
            name,
            settings: chip.strip_prefix("chip ").unwrap_or(""),
            steps,
            first: number.saturating_add(2),
        }
    }

    /// Plays the case on a chip of its own, and returns the first failure. A case without actions and checks fails.
    pub fn play(self, alloc: Global, came: &mut String) -> Result<(), LineFault> {
        let setup = match self.setup() {
            Ok(setup) => setup,
            Err(fault) => return at(self.first.saturating_sub(1), Err(fault)),
        };
        let mut log = Vec::new(alloc);
        let left = self.act(alloc, came, &setup, &mut log)?;
        self.ask(alloc, came, Answers::new(setup.config, left, &log))
    }

    fn setup(self) -> Result<Setup, Fault> {
        if is_blank(self.steps) {
            Err(Fault::Unread)
        } else {
            Setup::read(self.settings)
        }
    }

    // Performs all actions on a new bus. Fails with the first fault, or with `Lost` if a line of the trace was lost.
    fn act(
        self,
        alloc: Global,
        came: &mut String,
        setup: &Setup,
        log: &mut Vec<u8>,
    ) -> Result<Left, LineFault> {
        let mut bus = match setup.bus(alloc, log) {
            Ok(bus) => bus,
            Err(fault) => return Err(LineFault {
                line: self.first,
                fault,
            }),
        };
        for (number, line) in (self.first..).zip(self.steps.split('\n')) {
            let (word, rest) = step_of(line);
            came.clear();
            if word.is_action() {
                at(number, actions::take(alloc, &mut bus, came, word, rest))?;
            }
        }
        let lost = bus.lost();
        let spoilt = bus.into_inner();
        let left = Left {
            sent: spoilt.sent(),
            chip: spoilt.into_inner(),
        };
        if lost {
            Err(LineFault {
                line: self.first,
                fault: Fault::Lost,
            })
        } else {
            Ok(left)
        }
    }

    fn ask(
        self,
        alloc: Global,
        came: &mut String,
        mut answers: Answers<'_>,
    ) -> Result<(), LineFault> {
        for (number, line) in (self.first..).zip(self.steps.split('\n')) {
            let (word, rest) = step_of(line);
            came.clear();
            if word.is_check() {
                at(number, answers.check(alloc, came, word, rest))?;
            }
        }
        came.clear();
        at(self.first, answers.end(came))
    }
}

fn step_of(line: &str) -> (Word, &str) {
    let line = line.trim();
    if line.starts_with('#') {
        return (Word::Nothing, "");
    }
    let (word, rest) = line.split_once(' ').unwrap_or((line, ""));
    (Word::of(word), rest)
}

pub fn is_blank(text: &str) -> bool {
    for line in text.split('\n') {
        if !matches!(step_of(line).0, Word::Nothing) {
            return false;
        }
    }
    true
}

fn at(line: usize, outcome: Result<(), Fault>) -> Result<(), LineFault> {
    match outcome {
        Ok(()) => Ok(()),
        Err(fault) => Err(LineFault { line, fault }),
    }
}

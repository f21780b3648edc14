//! Counts what the cases tested: sessions, restores, rehearsals, readings and stops.

use crate::model::Stop;
use nor_session::Refusal;
use std::fmt;

/// Returns the least count that is sufficient after `cases` cases: 5 from 500 cases on, otherwise 0.
pub fn least(cases: u64) -> u64 {
    if cases < 500 { 0 } else { 5 }
}

#[derive(Clone, Copy)]
pub struct Tally {
    /// The number of accepted sessions. Each was also run with a stop and, if then sealed, undone by restores.
    pub accepted: u64,
    /// The numbers of refused sessions, by the number of the error.
    pub refused: [u64; 21],
    /// The number of the random chips of `restores.rt` whose restore was accepted.
    pub restored: u64,
    /// The numbers of the random chips of `restores.rt` whose restore was refused, by the number of the error.
    pub kept_away: [u64; 21],
    pub rehearsed: u64,
    pub read: u64,
    /// The number of sessions that were also run on a faulty bus.
    pub lied: u64,
    pub cuts: Cuts,
}

/// The numbers of stops in `stops::check` that still sent a drawn number of bytes, from none to a whole transaction.
#[derive(Clone, Copy)]
pub struct Cuts {
    pub sessions: u64,
    pub restores: u64,
    /// The number of these stops, in sessions and restores, at which the chip lost its power.
    pub losses: u64,
}

impl Cuts {
    pub const NONE: Cuts = Cuts {
        sessions: 0,
        restores: 0,
        losses: 0,
    };

    /// Adds a session's stop. A session that `ended` before its stop, or a stop between two transactions, adds nothing.
    pub fn with_session(self, stop: Stop, ended: bool) -> Cuts {
        let more = u64::from(!ended && stop.cut.is_some());
        Cuts {
            sessions: self.sessions.wrapping_add(more),
            ..self.with_loss(stop, more)
        }
    }

    pub fn with_restore(self, stop: Stop, ended: bool) -> Cuts {
        let more = u64::from(!ended && stop.cut.is_some());
        Cuts {
            restores: self.restores.wrapping_add(more),
            ..self.with_loss(stop, more)
        }
    }

    fn with_loss(self, stop: Stop, more: u64) -> Cuts {
        let more = if stop.fill.is_some() { more } else { 0 };
        Cuts {
            losses: self.losses.wrapping_add(more),
            ..self
        }
    }

    fn are_sufficient(self, least: u64) -> bool {
        self.sessions >= least && self.restores >= least && self.losses >= least
    }
}

impl Tally {
    pub const NONE: Tally = Tally {
        accepted: 0,
        refused: [0; 21],
        restored: 0,
        kept_away: [0; 21],
        rehearsed: 0,
        read: 0,
        lied: 0,
        cuts: Cuts::NONE,
    };

    /// Returns whether accepted sessions, accepted restores, readings, the three counts of stops, and sessions with
    /// each of errors 1 to 10 reach `least(cases)`. Also demands that no session has another error.
    pub fn is_sufficient(&self, cases: u64) -> bool {
        let least = least(cases);
        let mut refused = self.refused.iter().enumerate();
        self.accepted >= least
            && self.restored >= least
            && self.read >= least
            && self.cuts.are_sufficient(least)
            && refused.all(|(number, count)| if 1 <= number && number <= 10 {
                *count >= least
            } else {
                *count == 0
            })
    }

    pub fn count_session(&mut self, refusal: Option<Refusal>) {
        match refusal {
            None => self.accepted = self.accepted.wrapping_add(1),
            Some(refusal) => count(&mut self.refused, refusal),
        }
    }

    pub fn count_restore(&mut self, refusal: Option<Refusal>) {
        match refusal {
            None => self.restored = self.restored.wrapping_add(1),
            Some(refusal) => count(&mut self.kept_away, refusal),
        }
    }

    pub fn count_rehearsal(&mut self) {
        self.rehearsed = self.rehearsed.wrapping_add(1);
    }

    pub fn count_reading(&mut self) {
        self.read = self.read.wrapping_add(1);
    }

    pub fn count_cuts(&mut self, cuts: Cuts) {
        self.cuts = Cuts {
            sessions: self.cuts.sessions.wrapping_add(cuts.sessions),
            restores: self.cuts.restores.wrapping_add(cuts.restores),
            losses: self.cuts.losses.wrapping_add(cuts.losses),
        };
    }

    pub fn count_lie(&mut self) {
        self.lied = self.lied.wrapping_add(1);
    }
}

fn count(numbers: &mut [u64; 21], refusal: Refusal) {
    if let Some(number) = numbers.get_mut(usize::from(refusal.number())) {
        *number = number.wrapping_add(1);
    }
}

impl fmt::Display for Tally {
    fn fmt<W: fmt::Write>(&self, f: &mut fmt::Formatter<W>) -> fmt::Result {
        write!(f, "sessions: {} accepted", self.accepted)?;
        write_numbers(f, &self.refused)?;
        write!(f, "\nrestores on other chips: {} accepted", self.restored)?;
        write_numbers(f, &self.kept_away)?;
        self.write_others(f)
    }
}

impl fmt::Display for Cuts {
    fn fmt<W: fmt::Write>(&self, f: &mut fmt::Formatter<W>) -> fmt::Result {
        let Cuts {
            sessions,
            restores,
            losses,
        } = self;
        write!(
            f,
            "stops inside a transaction: {sessions} of sessions, {restores} of restores, {losses} that lost the power"
        )
    }
}

impl Tally {
    fn write_others<W: fmt::Write>(&self, f: &mut fmt::Formatter<W>) -> fmt::Result {
        let Tally {
            rehearsed,
            read,
            lied,
            cuts,
            ..
        } = self;
        write!(
            f,
            "\nrehearsals: {rehearsed}\nchips read: {read}\nsessions on a faulty bus: {lied}\n{cuts}"
        )
    }
}

fn write_numbers<W: fmt::Write>(f: &mut fmt::Formatter<W>, numbers: &[u64; 21]) -> fmt::Result {
    for (number, count) in numbers.iter().enumerate() {
        if *count > 0 {
            write!(f, ", {count} refused with {number}")?;
        }
    }
    Ok(())
}

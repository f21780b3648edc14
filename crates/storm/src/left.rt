//! Runs successive calls on a chip and on its model, and compares the two after each call.

use crate::cases::Case;
use crate::checks::{self, Ran};
use crate::chips::Chip;
use crate::fault::{Fault, agree};
use crate::lines::{self, Lines};
use crate::model::{Model, Stop};
use crate::restores::{self, Restored};
use crate::verdicts::Saved;
use crate::wanted::Wanted;
use crate::{traces, transactions};
use nor_chip::SimBus;
use nor_journal::{Journal, MemVault};
use nor_session::Refusal;
use std::alloc::Global;

#[derive(Clone, Copy)]
pub struct Accepted<'a> {
    pub case: &'a Case,
    pub wanted: &'a Wanted,
    pub lines: &'a str,
}

/// A chip, and its model, after a call that succeeded or was stopped.
#[derive(Drop)]
pub struct Left {
    pub bus: SimBus,
    pub sent: Vec<u8>,
    pub ended: bool,
    model: Model,
}

#[derive(Clone, Copy)]
struct Call<'a> {
    whole: &'a str,
    stop: Stop,
}

impl<'a> Call<'a> {
    fn ends(self) -> bool {
        self.stop.after >= lines::count(self.whole)
    }

    fn lines(self) -> &'a str {
        lines::first(self.whole, self.stop.after)
    }
}

fn restore_lines_on(alloc: Global, accepted: Accepted<'_>, chip: &Chip) -> Result<Lines, Fault> {
    let saved = Saved {
        chip: &accepted.case.chip,
        sectors: accepted.wanted.sectors.as_slice(),
    };
    let restored = restores::restored_of(alloc, chip, saved)?;
    transactions::restore(alloc, chip, saved.sectors, &restored)
}

/// Runs an accepted session with a stop. Checks its result, its transactions, and that the chip equals the model.
pub fn run(alloc: Global, accepted: Accepted<'_>, stop: Stop) -> Result<(Left, MemVault), Fault> {
    let ran = checks::run(alloc, accepted.case, stop)?;
    let call = Call {
        whole: accepted.lines,
        stop,
    };
    check_session(call, &ran)?;
    let model = model_after(alloc, &accepted.case.chip, call, &ran.bus)?;
    let left = Left {
        bus: ran.bus,
        sent: ran.sent,
        ended: call.ends(),
        model,
    };
    Ok((left, ran.vault))
}

fn model_after(alloc: Global, chip: &Chip, call: Call<'_>, bus: &SimBus) -> Result<Model, Fault> {
    let mut model = Model::of(alloc, chip)?;
    model.call(call.whole, call.stop);
    model.check(bus)?;
    Ok(model)
}

fn check_session(call: Call<'_>, ran: &Ran) -> Result<(), Fault> {
    if call.ends() {
        agree(
            ran.answer.is_ok(),
            "a session with just enough transactions",
        )?;
    } else {
        agree(
            ran.answer == Err(Refusal::Stopped),
            "a session with too few transactions",
        )?;
    }
    traces::check_trace(ran.sent.as_slice(), call.lines(), "a stopped session")
}

/// Restores the chip of `left`, with a stop. Checks the result, the transactions, and that the chip equals the model.
pub fn restore(
    alloc: Global,
    accepted: Accepted<'_>,
    journal: &Journal<'_>,
    left: Left,
    stop: Stop,
) -> Result<Left, Fault> {
    let whole = restore_lines_on(alloc, accepted, &left.model.chip)?;
    let call = Call {
        whole: whole.text(),
        stop,
    };
    restore_under(alloc, accepted, journal, left, call)
}

fn restore_under(
    alloc: Global,
    accepted: Accepted<'_>,
    journal: &Journal<'_>,
    left: Left,
    call: Call<'_>,
) -> Result<Left, Fault> {
    let Left {
        mut bus,
        mut model,
        ..
    } = left;
    bus.lose(call.stop.fill);
    bus.tear(call.stop.cut);
    model.call(call.whole, call.stop);
    let ran = restores::run(alloc, bus, journal, call.stop.after)?;
    check_restore(accepted, call, &ran)?;
    model.check(&ran.bus)?;
    Ok(Left {
        bus: ran.bus,
        sent: ran.sent,
        ended: call.ends(),
        model,
    })
}

fn check_restore(accepted: Accepted<'_>, call: Call<'_>, ran: &Restored) -> Result<(), Fault> {
    if call.ends() {
        agree(
            ran.answer.is_ok(),
            "a restore with just enough transactions",
        )?;
        agree(
            checks::is_same(&ran.bus, &accepted.case.chip),
            "the chip after a restore",
        )?;
    } else {
        agree(
            ran.answer == Err(Refusal::Stopped),
            "a restore with too few transactions",
        )?;
    }
    traces::check_trace(ran.sent.as_slice(), call.lines(), "a restore after a stop")
}

//! Runs the cases of a seed in order.

use crate::cases::Case;
use crate::checks::{self, Ran};
use crate::dice::Dice;
use crate::fault::{Fault, agree};
use crate::left::Accepted;
use crate::model::Stop;
use crate::tally::Tally;
use crate::wanted::Wanted;
use crate::words::Job;
use crate::{
    damages, journals, lies, lines, readings, rehearsals, restores, stops, transactions, verdicts,
};
use nor_session::Refusal;
use std::alloc::Global;

#[derive(Drop)]
pub struct FailedCase {
    pub case: u64,
    pub fault: Fault,
}

pub fn run(alloc: Global, job: Job, seed: u64) -> (Tally, Option<FailedCase>) {
    let mut tally = Tally::NONE;
    for case in job.first..job.first.saturating_add(job.count) {
        if let Err(fault) = run_case(alloc, seed, case, &mut tally) {
            return (tally, Some(FailedCase { case, fault }));
        }
    }
    (tally, None)
}

// Checks a case: its session, one time in four also on a faulty bus, and one time in eight the reading calls.
fn run_case(alloc: Global, seed: u64, number: u64, tally: &mut Tally) -> Result<(), Fault> {
    let mut dice = Dice::new(seed, number);
    let case = Case::next(alloc, &mut dice)?;
    if dice.hits(1, 8) {
        readings::check(alloc, &mut Dice::new(!seed, number), &case)?;
        tally.count_reading();
    }
    check_case(
        alloc,
        &mut dice,
        &mut Dice::new(seed, !number),
        &case,
        tally,
    )
}

fn check_case(
    alloc: Global,
    dice: &mut Dice,
    other: &mut Dice,
    case: &Case,
    tally: &mut Tally,
) -> Result<(), Fault> {
    let ran = checks::run(alloc, case, Stop::NEVER)?;
    if other.hits(1, 4) {
        lies::check_session(alloc, other, case, lines::count(ran.lines()?))?;
        tally.count_lie();
    }
    check_session(alloc, dice, case, &ran, tally)
}

// Checks a session. Errors 1 to 8 come before the scan, 9 and 10 after it. A request for a range has no scan.
fn check_session(
    alloc: Global,
    dice: &mut Dice,
    case: &Case,
    ran: &Ran,
    tally: &mut Tally,
) -> Result<(), Fault> {
    if let Some(refusal) = verdicts::of_opening(case) {
        tally.count_session(Some(refusal));
        checks::check_refused(alloc, case, refusal, ran)?;
        agree(ran.vault.bytes().is_empty(), "a vault that is not used")?;
        return stops::check_refused(alloc, dice, case, refusal);
    }
    let wanted = Wanted::of_case(alloc, case)?;
    match verdicts::of_changes(case, &wanted) {
        Some(refusal) => {
            tally.count_session(Some(refusal));
            check_late(alloc, dice, case, (&wanted, refusal), ran)
        }
        None => check_accepted(alloc, dice, case, &wanted, ran, tally),
    }
}

fn check_late(
    alloc: Global,
    dice: &mut Dice,
    case: &Case,
    (wanted, refusal): (&Wanted, Refusal),
    ran: &Ran,
) -> Result<(), Fault> {
    checks::check_refused(alloc, case, refusal, ran)?;
    journals::check_refused(alloc, case, wanted, ran.vault.bytes())?;
    stops::check_refused(alloc, dice, case, refusal)
}

fn check_accepted(
    alloc: Global,
    dice: &mut Dice,
    case: &Case,
    wanted: &Wanted,
    ran: &Ran,
    tally: &mut Tally,
) -> Result<(), Fault> {
    let whole = transactions::session(alloc, case, wanted)?;
    let accepted = Accepted {
        case,
        wanted,
        lines: whole.text(),
    };
    go_on(alloc, dice, accepted, ran, tally)
}

// Checks an accepted session and the same session with a stop; sometimes also a rehearsal, and sometimes a damaged
// journal and restores of a random chip.
fn go_on(
    alloc: Global,
    dice: &mut Dice,
    accepted: Accepted<'_>,
    ran: &Ran,
    tally: &mut Tally,
) -> Result<(), Fault> {
    let Accepted {
        case,
        wanted,
        lines,
    } = accepted;
    checks::check_ended(case, wanted, lines, ran)?;
    tally.count_session(None);
    tally.count_cuts(stops::check(alloc, dice, accepted)?);
    if dice.hits(1, 4) {
        rehearsals::check(alloc, dice, accepted)?;
        tally.count_rehearsal();
    }
    if dice.hits(1, 3) {
        damages::check(alloc, dice, ran.vault.bytes())?;
        let refusal = restores::check(alloc, dice, case, wanted, ran)?;
        tally.count_restore(refusal);
    }
    Ok(())
}

//! Tests of the random test itself: its comparisons must detect a wrong byte and a wrong line.

use crate::cases::Case;
use crate::checks::{self, Ran};
use crate::dice::Dice;
use crate::fault::Fault;
use crate::model::{Model, Stop};
use crate::wanted::Wanted;
use crate::{lines, traces, transactions, verdicts};
use nor_chip::SimBus;
use nor_session::Refusal;
use std::alloc::Global;

/// Plants errors in targets, traces and models. Returns `Untold` if one isn't detected.
pub fn check(alloc: Global) -> Result<(), Fault> {
    check_places()?;
    check_session(alloc)?;
    check_cut(alloc)?;
    check_refusal(alloc)
}

fn must_tell(told: Result<(), Fault>, what: &'static str) -> Result<(), Fault> {
    match told {
        Err(Fault::Differs(found)) if found == what => Ok(()),
        _ => Err(Fault::Untold(what)),
    }
}

fn check_places() -> Result<(), Fault> {
    let rows = [
        ("05 > 00\n9f > fe1010\n", None),
        ("05 > 00\n9f > fe1011\n", Some(2)),
        ("05 > 01\n9f > fe1010\n", Some(1)),
        ("05 > 00\n", Some(2)),
        ("05 > 00\n9f > fe1010\n06\n", Some(3)),
        ("", Some(1)),
    ];
    for (sent, number) in rows {
        let told = match traces::check_lines(sent, "05 > 00\n9f > fe1010\n", "a list") {
            Err(Fault::Sends(_, number)) => Some(number),
            _ => None,
        };
        if told != number {
            return Err(Fault::Untold("the place of a wrong line"));
        }
    }
    Ok(())
}

// Checks that a wrong byte of the target, a modifying command before the seal, and an additional erase are detected.
fn check_session(alloc: Global) -> Result<(), Fault> {
    let case = Case::next(alloc, &mut Dice::new(1, 0))?;
    let ran = checks::run(alloc, &case, Stop::NEVER)?;
    check_accepted(alloc, &case, &ran)
}

fn check_accepted(alloc: Global, case: &Case, ran: &Ran) -> Result<(), Fault> {
    let mut wanted = Wanted::of_case(alloc, case)?;
    let whole = transactions::session(alloc, case, &wanted)?;
    check_more(alloc, case, &wanted, whole.text(), ran)?;
    check_byte(case, &mut wanted, whole.text(), ran)
}

fn check_more(
    alloc: Global,
    case: &Case,
    wanted: &Wanted,
    lines: &str,
    ran: &Ran,
) -> Result<(), Fault> {
    checks::check_ended(case, wanted, lines, ran)?;
    let sent = ran.lines()?;
    let what = "a changing command before the seal";
    check_joined(alloc, case, wanted, ("06\n", sent), what)?;
    let what = "the sectors that are erased";
    check_joined(alloc, case, wanted, (sent, "c7\n"), what)
}

fn check_joined(
    alloc: Global,
    case: &Case,
    wanted: &Wanted,
    (first, second): (&str, &str),
    what: &'static str,
) -> Result<(), Fault> {
    let sent = join(alloc, first, second)?;
    must_tell(traces::check_ended(case, wanted, sent.as_str()), what)
}

fn check_byte(case: &Case, wanted: &mut Wanted, lines: &str, ran: &Ran) -> Result<(), Fault> {
    if let Some(byte) = wanted.bytes.as_mut_slice().first_mut() {
        *byte ^= 0x10;
    }
    let told = checks::check_ended(case, wanted, lines, ran);
    must_tell(told, "the bytes at the end")
}

fn check_cut(alloc: Global) -> Result<(), Fault> {
    let case = Case::next(alloc, &mut Dice::new(1, 0))?;
    let wanted = Wanted::of_case(alloc, &case)?;
    check_cut_in(
        alloc,
        &case,
        transactions::session(alloc, &case, &wanted)?.text(),
    )
}

fn check_cut_in(alloc: Global, case: &Case, lines: &str) -> Result<(), Fault> {
    match lines.split_once("\n02") {
        Some((before, _)) => check_cut_after(alloc, case, lines, lines::count(before)),
        None => Err(Fault::Case),
    }
}

// Compares a chip that received five bytes of a program with a model that received four.
fn check_cut_after(alloc: Global, case: &Case, lines: &str, after: u64) -> Result<(), Fault> {
    let stop = Stop {
        cut: Some(5),
        ..Stop::after(after)
    };
    let less = Stop {
        cut: Some(4),
        ..stop
    };
    let ran = checks::run(alloc, case, stop)?;
    check_model(alloc, case, lines, stop, &ran.bus)?;
    let told = check_model(alloc, case, lines, less, &ran.bus);
    must_tell(told, "the bytes after a call")
}

fn check_model(
    alloc: Global,
    case: &Case,
    lines: &str,
    stop: Stop,
    bus: &SimBus,
) -> Result<(), Fault> {
    let mut model = Model::of(alloc, &case.chip)?;
    model.call(lines, stop);
    model.check(bus)
}

// Checks that an additional line and a modifying command in the trace of a refused session are detected.
fn check_refusal(alloc: Global) -> Result<(), Fault> {
    let case = Case::next(alloc, &mut Dice::new(1, 18))?;
    let Some(refusal) = verdicts::of_opening(&case) else {
        return Err(Fault::Case);
    };
    let ran = checks::run(alloc, &case, Stop::NEVER)?;
    check_refused(alloc, &case, refusal, ran.lines()?)
}

fn check_refused(alloc: Global, case: &Case, refusal: Refusal, lines: &str) -> Result<(), Fault> {
    traces::check_refused(case, refusal, lines)?;
    let what = "the transactions before a refusal";
    check_refused_joined(alloc, case, refusal, (lines, "05 > 00\n"), what)?;
    let Some((_, rest)) = lines.split_once('\n') else {
        return Err(Fault::Case);
    };
    let what = "a changing command before a refusal";
    check_refused_joined(alloc, case, refusal, ("06\n", rest), what)
}

fn check_refused_joined(
    alloc: Global,
    case: &Case,
    refusal: Refusal,
    (first, second): (&str, &str),
    what: &'static str,
) -> Result<(), Fault> {
    let sent = join(alloc, first, second)?;
    must_tell(traces::check_refused(case, refusal, sent.as_str()), what)
}

fn join(alloc: Global, first: &str, second: &str) -> Result<String, Fault> {
    let mut text = String::from_str(alloc, first)?;
    text.push_str(second)?;
    Ok(text)
}

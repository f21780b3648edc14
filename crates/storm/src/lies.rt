//! Calls on faulty buses, compared with the reference implementation on a bus with the same fault.

use crate::cases::Case;
use crate::chips::Chip;
use crate::dice::Dice;
use crate::errors::CallError;
use crate::fault::{Fault, agree};
use crate::high::{High, HighBus};
use crate::model::Stop;
use crate::readings::{self, Reading};
use crate::told::{Caller, Put};
use crate::verdicts::Saved;
use crate::{journals, lines, traces};
use nor_chip::{SimBus, Spoil, SpoiltBus, TraceBus};
use nor_journal::{Journal, MemVault};
use nor_session::{Refusal, Report, Request, restore, session};
use std::alloc::Global;

#[derive(Drop)]
struct Ran {
    answer: Result<Report, Refusal>,
    sent: Vec<u8>,
}

#[derive(Drop)]
struct Told {
    answer: Result<(), CallError>,
    sent: Vec<u8>,
}

/// Checks a session on a faulty bus. `count` is the session's number of transactions on a bus without a fault.
pub fn check_session(alloc: Global, dice: &mut Dice, case: &Case, count: u64) -> Result<(), Fault> {
    let lie = lie_for(dice, count);
    let mut image = case.image.to_vec(alloc)?;
    let bus = liar(alloc, &case.chip, lie)?;
    let (ran, vault) = run_session(alloc, bus, image.as_mut_slice(), &case.request);
    compare_session(alloc, case, lie, &ran, &vault)
}

fn run_session(alloc: Global, bus: Faulty, image: &mut [u8], request: &Request) -> (Ran, MemVault) {
    let mut sent = Vec::new(alloc);
    let mut bus = TraceBus::new(bus, &mut sent);
    let mut vault = MemVault::new(alloc);
    let answer = session(&mut bus, &mut vault, image, request);
    drop(bus);
    (Ran { answer, sent }, vault)
}

fn compare_session(
    alloc: Global,
    case: &Case,
    lie: Lie,
    ran: &Ran,
    vault: &MemVault,
) -> Result<(), Fault> {
    let bus = liar(alloc, &case.chip, lie)?;
    let (told, put) = tell_session(alloc, bus, case);
    check(ran, told, "a session on a faulty bus")?;
    journals::check_put(vault, put.begun.as_slice(), put.sealed)
}

fn tell_session(alloc: Global, bus: Faulty, case: &Case) -> (Told, Put) {
    let mut sent = Vec::new(alloc);
    let bus = TraceBus::new(bus, &mut sent);
    let mut caller = Caller::new(alloc, bus);
    let answer = caller.session(case);
    let Caller { bus, put, alloc: _ } = caller;
    drop(bus);
    (Told { answer, sent }, put)
}

pub fn check_restore(
    alloc: Global,
    dice: &mut Dice,
    chip: &Chip,
    (journal, saved): (&Journal<'_>, Saved<'_>),
    count: u64,
) -> Result<(), Fault> {
    let lie = lie_for(dice, count);
    let bus = liar(alloc, chip, lie)?;
    let ran = run_restore(alloc, bus, journal);
    compare_restore(alloc, chip, saved, lie, &ran)
}

fn run_restore(alloc: Global, bus: Faulty, journal: &Journal<'_>) -> Ran {
    let mut sent = Vec::new(alloc);
    let mut bus = TraceBus::new(bus, &mut sent);
    let answer = restore(&mut bus, journal);
    drop(bus);
    Ran { answer, sent }
}

fn compare_restore(
    alloc: Global,
    chip: &Chip,
    saved: Saved<'_>,
    lie: Lie,
    ran: &Ran,
) -> Result<(), Fault> {
    let bus = liar(alloc, chip, lie)?;
    let told = tell_restore(alloc, bus, saved);
    check(ran, told, "a restore on a faulty bus")
}

fn tell_restore(alloc: Global, bus: Faulty, saved: Saved<'_>) -> Told {
    let mut sent = Vec::new(alloc);
    let bus = TraceBus::new(bus, &mut sent);
    let mut caller = Caller::new(alloc, bus);
    let answer = caller.restore(saved);
    drop(caller);
    Told { answer, sent }
}

// Checks the trace and the result. Errors must agree including the address; a report must count the transactions.
fn check(ran: &Ran, told: Told, call: &'static str) -> Result<(), Fault> {
    let count = check_sent(ran.sent.as_slice(), told.sent.as_slice(), call)?;
    check_answer(ran.answer, told.answer, count)
}

fn check_sent(sent: &[u8], told: &[u8], call: &'static str) -> Result<u64, Fault> {
    let sent = traces::text(sent)?;
    traces::check_lines(sent, traces::text(told)?, call)?;
    Ok(lines::count(sent))
}

fn check_answer(
    answer: Result<Report, Refusal>,
    told: Result<(), CallError>,
    count: u64,
) -> Result<(), Fault> {
    match (answer, told) {
        (_, Err(CallError::Failed(fault))) => Err(fault),
        (Err(refusal), Err(CallError::Refused(wanted))) => {
            agree(refusal == wanted, "the refusal on a faulty bus")
        }
        (Ok(report), Ok(())) => agree(
            report.transactions == count,
            "the transactions on a faulty bus",
        ),
        (_, _) => Err(Fault::Differs("whether a call ends on a faulty bus")),
    }
}

#[derive(Drop)]
struct Read {
    answer: Result<readings::Told, Refusal>,
    sent: Vec<u8>,
}

// The trace of the reference implementation, and an error or the case with the chip that the replies describe.
#[derive(Drop)]
struct Known {
    answer: Result<Case, CallError>,
    sent: Vec<u8>,
}

pub fn check_reading(
    alloc: Global,
    dice: &mut Dice,
    case: &Case,
    reading: Reading,
    count: u64,
) -> Result<(), Fault> {
    let lie = lie_for(dice, count);
    let bus = liar(alloc, &case.chip, lie)?;
    let read = run_reading(alloc, bus, case, reading);
    compare_reading(alloc, case, reading, lie, &read)
}

fn run_reading(alloc: Global, bus: Faulty, case: &Case, reading: Reading) -> Read {
    let mut sent = Vec::new(alloc);
    let mut bus = TraceBus::new(bus, &mut sent);
    let answer = reading.call(alloc, case, &mut bus);
    drop(bus);
    Read { answer, sent }
}

fn compare_reading(
    alloc: Global,
    case: &Case,
    reading: Reading,
    lie: Lie,
    read: &Read,
) -> Result<(), Fault> {
    let bus = liar(alloc, &case.chip, lie)?;
    let known = tell_reading(alloc, bus, case, reading);
    check_read(alloc, read, known)
}

fn tell_reading(alloc: Global, bus: Faulty, case: &Case, reading: Reading) -> Known {
    let mut sent = Vec::new(alloc);
    let bus = TraceBus::new(bus, &mut sent);
    let mut caller = Caller::new(alloc, bus);
    let answer = caller.reading(reading, case);
    drop(caller);
    Known { answer, sent }
}

fn check_read(alloc: Global, read: &Read, known: Known) -> Result<(), Fault> {
    let call = "a reading on a faulty bus";
    check_sent(read.sent.as_slice(), known.sent.as_slice(), call)?;
    check_known(alloc, &read.answer, known.answer)
}

fn check_known(
    alloc: Global,
    read: &Result<readings::Told, Refusal>,
    known: Result<Case, CallError>,
) -> Result<(), Fault> {
    match (read, known) {
        (_, Err(CallError::Failed(fault))) => Err(fault),
        (Err(refusal), Err(CallError::Refused(wanted))) => agree(
            *refusal == wanted,
            "the refusal of a reading on a faulty bus",
        ),
        (Ok(told), Ok(known)) => readings::check_known(alloc, &known, told),
        (_, _) => Err(Fault::Differs("whether a reading ends on a faulty bus")),
    }
}

#[derive(Clone, Copy)]
enum Lie {
    Spoilt(Spoil),
    Sets(High),
}

type Faulty = HighBus<SpoiltBus<SimBus>>;

// Draws a fault. Some faults that would clear a bit in each reply set this bit in the replies to one opcode instead.
fn lie_for(dice: &mut Dice, count: u64) -> Lie {
    let opcodes = [0x35, 0x05, 0x35, 0x9F, 0x35, 0x03, 0x35, 0x4B];
    let high = usize::try_from(count / 4 % 8)
        .ok()
        .and_then(|at| opcodes.get(at));
    match (spoil_for(dice, count), high) {
        (Spoil::Low(bit), Some(opcode)) if count % 4 != 0 => Lie::Sets(High {
            opcode: *opcode,
            bit,
        }),
        (spoil, _) => Lie::Spoilt(spoil),
    }
}

// Draws a fault. At least half of the time the transaction number of `Drop` or `BusyFrom` is `count / 4 * 3` or more.
fn spoil_for(dice: &mut Dice, count: u64) -> Spoil {
    let late = count / 4 * 3;
    let number = if dice.hits(1, 2) {
        dice.up_to(count)
    } else {
        late.saturating_add(dice.up_to(count.saturating_sub(late)))
    };
    match dice.below(12) {
        0 => Spoil::Fill(dice.pick(0xFF, &[0x00, 0x02, 0x7C])),
        1 => Spoil::Low(u8::try_from(dice.below(8)).unwrap_or(0)),
        2..5 => Spoil::BusyFrom(number),
        _ => Spoil::Drop(number),
    }
}

fn liar(alloc: Global, chip: &Chip, lie: Lie) -> Result<Faulty, Fault> {
    let bus = chip.bus(alloc, Stop::NEVER)?;
    let (spoil, high) = match lie {
        Lie::Spoilt(spoil) => (spoil, None),
        Lie::Sets(high) => (Spoil::Low(8), Some(high)),
    };
    Ok(HighBus::new(SpoiltBus::new(bus, spoil), high))
}

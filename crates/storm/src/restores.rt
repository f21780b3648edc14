//! Restores of random chips from the journal of a session, compared with the reference implementation.

use crate::cases::Case;
use crate::checks::{self, Ran};
use crate::chips::{self, Chip};
use crate::dice::Dice;
use crate::fault::{Fault, agree};
use crate::lines::{self, Lines};
use crate::model::{Model, Stop};
use crate::verdicts::{self, Saved};
use crate::wanted::{Wanted, touched_in};
use crate::{contents, guards, lengths, lies, traces, transactions};
use nor_chip::{Meter, SECTOR_LEN, SimBus, TraceBus};
use nor_journal::Journal;
use nor_session::{Refusal, Report, restore};
use std::alloc::Global;

#[derive(Drop)]
pub struct Restored {
    pub answer: Result<Report, Refusal>,
    pub bus: SimBus,
    pub sent: Vec<u8>,
}

pub fn run(
    alloc: Global,
    bus: SimBus,
    journal: &Journal<'_>,
    allowed: u64,
) -> Result<Restored, Fault> {
    let mut sent = Vec::new(alloc);
    let mut traced = TraceBus::new(bus, &mut sent);
    traced.allow(allowed);
    let answer = restore(&mut traced, journal);
    let lost = traced.lost();
    let bus = traced.into_inner();
    let restored = Restored { answer, bus, sent };
    if lost {
        Err(Fault::Memory)
    } else {
        Ok(restored)
    }
}

// The chip of a restore, its journal and the journal's contents (`saved`), and the target and the error, if any, that
// the reference implementation computes.
#[derive(Clone, Copy)]
struct Whole<'a> {
    chip: &'a Chip,
    journal: &'a Journal<'a>,
    saved: Saved<'a>,
    wanted: &'a Wanted,
    refusal: Option<Refusal>,
}

/// Checks restores of a random chip: without a stop, with a stop, and on a faulty bus. Returns the error, if refused.
pub fn check(
    alloc: Global,
    dice: &mut Dice,
    case: &Case,
    wanted: &Wanted,
    ran: &Ran,
) -> Result<Option<Refusal>, Fault> {
    let saved = Saved {
        chip: &case.chip,
        sectors: wanted.sectors.as_slice(),
    };
    let chip = other_chip(alloc, dice, &case.chip)?;
    let wanted = restored_of(alloc, &chip, saved)?;
    let journal = Journal::read(ran.vault.bytes())?;
    let whole = Whole {
        chip: &chip,
        journal: &journal,
        saved,
        wanted: &wanted,
        refusal: verdicts::of_restore(&chip, saved, &wanted),
    };
    check_whole(alloc, dice, whole)
}

fn check_whole(alloc: Global, dice: &mut Dice, whole: Whole<'_>) -> Result<Option<Refusal>, Fault> {
    let lines = lines_of(alloc, whole)?;
    check_lines(alloc, dice, whole, lines.text())?;
    Ok(whole.refusal)
}

fn lines_of(alloc: Global, whole: Whole<'_>) -> Result<Lines, Fault> {
    let sectors = whole.saved.sectors;
    match whole.refusal {
        Some(refusal) => transactions::refused_restore(alloc, whole.chip, sectors, refusal),
        None => transactions::restore(alloc, whole.chip, sectors, whole.wanted),
    }
}

fn check_lines(alloc: Global, dice: &mut Dice, whole: Whole<'_>, lines: &str) -> Result<(), Fault> {
    check_unstopped(alloc, whole, lines)?;
    check_stopped(alloc, dice, whole, lines)?;
    let from = (whole.journal, whole.saved);
    lies::check_restore(alloc, dice, whole.chip, from, lines::count(lines))
}

fn check_unstopped(alloc: Global, whole: Whole<'_>, lines: &str) -> Result<(), Fault> {
    let bus = whole.chip.bus(alloc, Stop::NEVER)?;
    let ran = run(alloc, bus, whole.journal, u64::MAX)?;
    check_ran(whole, lines, &ran)
}

fn check_ran(whole: Whole<'_>, lines: &str, ran: &Restored) -> Result<(), Fault> {
    match whole.refusal {
        Some(refusal) => {
            agree(ran.answer == Err(refusal), "the refusal of a restore")?;
            agree(
                checks::is_same(&ran.bus, whole.chip),
                "the chip after a refused restore",
            )?;
        }
        None => check_ended(whole, ran)?,
    }
    traces::check_trace(ran.sent.as_slice(), lines, "a restore")
}

fn check_ended(whole: Whole<'_>, ran: &Restored) -> Result<(), Fault> {
    let Ok(report) = ran.answer else {
        return Err(Fault::Differs("an accepted restore ends"));
    };
    let work = whole.wanted.work(whole.chip);
    checks::check_report(whole.chip, work, &report)?;
    let sent = lengths::restore(whole.chip, touched_in(whole.saved.sectors), work);
    agree(report.transactions == sent, "the transactions of a restore")?;
    checks::check_wanted(whole.wanted, &ran.bus)
}

// Checks the result of a restore with a stop, its transactions, and that the chip equals the model.
fn check_stopped(
    alloc: Global,
    dice: &mut Dice,
    whole: Whole<'_>,
    lines: &str,
) -> Result<(), Fault> {
    let stop = Stop {
        cut: dice.cut(),
        ..Stop::after(dice.up_to(lines::count(lines)))
    };
    let bus = whole.chip.bus(alloc, stop)?;
    let ran = run(alloc, bus, whole.journal, stop.after)?;
    let wanted = if stop.after < lines::count(lines) {
        Some(Refusal::Stopped)
    } else {
        whole.refusal
    };
    check_stop(wanted, lines::first(lines, stop.after), &ran)?;
    check_left(alloc, whole.chip, lines, stop, &ran)
}

fn check_left(
    alloc: Global,
    chip: &Chip,
    lines: &str,
    stop: Stop,
    ran: &Restored,
) -> Result<(), Fault> {
    let mut model = Model::of(alloc, chip)?;
    model.call(lines, stop);
    model.check(&ran.bus)
}

fn check_stop(wanted: Option<Refusal>, lines: &str, ran: &Restored) -> Result<(), Fault> {
    agree(
        ran.answer.err() == wanted,
        "what a restore under a stop is refused with",
    )?;
    traces::check_trace(ran.sent.as_slice(), lines, "a restore under a stop")
}

// Draws an unrelated small chip, or a copy of the original chip whose bytes, status bits or unique ID may differ.
fn other_chip(alloc: Global, dice: &mut Dice, chip: &Chip) -> Result<Chip, Fault> {
    if dice.hits(1, 12) {
        return chips::small(alloc, dice);
    }
    let mut other = chip.copy(alloc)?;
    contents::alter(dice, other.bytes.as_mut_slice());
    let [status1, status2] = chip.status;
    let [code1, code2] = guards::with_code([status1, status2], dice.byte() % 64);
    match dice.below(8) {
        0 => other.status = chips::protection(dice),
        1 => other.config = chip.config.with_unique([dice.byte(); 8]),
        2 | 3 => other.status = [code1, code2],
        _ => {}
    }
    Ok(other)
}

/// Returns the target of a restore: the bytes and status of `chip`, with the saved sectors and protection bits.
pub fn restored_of(alloc: Global, chip: &Chip, saved: Saved<'_>) -> Result<Wanted, Fault> {
    let mut bytes = chip.bytes.to_vec(alloc)?;
    take_saved(bytes.as_mut_slice(), saved);
    let code = guards::code_of(saved.chip.status);
    Wanted::new(alloc, chip, bytes, guards::with_code(chip.status, code))
}

fn take_saved(bytes: &mut [u8], saved: Saved<'_>) {
    let old = saved
        .sectors
        .iter()
        .zip(saved.chip.bytes.chunks(SECTOR_LEN as usize));
    for (now, (sector, old)) in bytes.chunks_mut(SECTOR_LEN as usize).zip(old) {
        if sector.touched {
            take_over(now, old);
        }
    }
}

fn take_over(now: &mut [u8], old: &[u8]) {
    for (byte, old) in now.iter_mut().zip(old) {
        *byte = *old;
    }
}

//! Sessions that are stopped, and the restores after them.

use crate::cases::Case;
use crate::checks::{self, Ran};
use crate::chips::Chip;
use crate::contents::sector_at;
use crate::dice::Dice;
use crate::fault::{Fault, agree, agree_all};
use crate::left::{self, Accepted, Left};
use crate::model::Stop;
use crate::tally::Cuts;
use crate::wanted::Wanted;
use crate::{guards, journals, lengths, lines, traces, transactions};
use nor_chip::SimBus;
use nor_journal::{Journal, MemVault};
use nor_session::Refusal;
use std::alloc::Global;

/// Runs an accepted session with a random stop. If its vault was sealed, runs up to four restores with stops, and then
/// one without, until a restore succeeds. Checks each call. Counts the stops that sent a drawn number of bytes.
pub fn check(alloc: Global, dice: &mut Dice, accepted: Accepted<'_>) -> Result<Cuts, Fault> {
    let stop = Stop {
        after: stop_for(dice, accepted.case, accepted.wanted),
        cut: dice.cut(),
        fill: fill_for(dice, accepted.case),
    };
    let (left, vault) = left::run(alloc, accepted, stop)?;
    check_stop(alloc, accepted, stop, &left.bus, &vault)?;
    let cuts = Cuts::NONE.with_session(stop, left.ended);
    if vault.is_sealed() {
        give_back(alloc, dice, accepted, (left, vault.bytes()), (stop, cuts))
    } else {
        Ok(cuts)
    }
}

fn check_stop(
    alloc: Global,
    accepted: Accepted<'_>,
    stop: Stop,
    bus: &SimBus,
    vault: &MemVault,
) -> Result<(), Fault> {
    let (case, wanted) = (accepted.case, accepted.wanted);
    let sealed = stop.after >= lengths::saving(case);
    agree(
        vault.is_sealed() == sealed,
        "whether a stopped session sealed",
    )?;
    if sealed {
        check_within(case, wanted, bus)?;
        check_gentle(case, wanted, bus, stop.fill)
    } else {
        journals::check_stopped(alloc, case, wanted, stop.after, vault.bytes())?;
        agree(checks::is_same(bus, &case.chip), "the chip before the seal")
    }
}

/// Runs a refused session with a random stop. The vault must be unsealed, and the chip as before.
pub fn check_refused(
    alloc: Global,
    dice: &mut Dice,
    case: &Case,
    refusal: Refusal,
) -> Result<(), Fault> {
    let whole = transactions::refused_session(alloc, case, refusal)?;
    let stop = Stop {
        cut: dice.cut(),
        ..Stop::after(dice.up_to(lines::count(whole.text())))
    };
    let ran = checks::run(alloc, case, stop)?;
    check_refusal(case, refusal, (whole.text(), stop.after), &ran)
}

fn check_refusal(
    case: &Case,
    refusal: Refusal,
    (whole, stop): (&str, u64),
    ran: &Ran,
) -> Result<(), Fault> {
    let answer = if stop < lines::count(whole) {
        Refusal::Stopped
    } else {
        refusal
    };
    let same = checks::is_same(&ran.bus, &case.chip);
    agree_all(&[
        (
            ran.answer == Err(answer),
            "the refusal of a stopped session",
        ),
        (
            !ran.vault.is_sealed(),
            "the vault of a refused session that was stopped",
        ),
        (same, "the chip of a refused session that was stopped"),
    ])?;
    let first = lines::first(whole, stop);
    traces::check_lines(ran.lines()?, first, "a refused session that was stopped")
}

/// Draws after how many transactions a session stops. At least three times in four this is after its seal.
pub fn stop_for(dice: &mut Dice, case: &Case, wanted: &Wanted) -> u64 {
    let whole = lengths::session(case, wanted.work(&case.chip));
    if dice.hits(1, 4) {
        return dice.up_to(whole);
    }
    let saving = lengths::saving(case);
    let changes = dice.up_to(whole.saturating_sub(saving));
    saving.saturating_add(changes)
}

/// Draws the fill byte of a power failure, for half of the chips that were idle at the start.
pub fn fill_for(dice: &mut Dice, case: &Case) -> Option<u8> {
    if case.chip.is_idle() && dice.hits(1, 2) {
        Some(dice.pick(0x5A, &[0x00, 0xFF, 0xA5]))
    } else {
        None
    }
}

// Checks that untouched sectors, and status bits that flashnor never changes on this chip, are as before.
fn check_within(case: &Case, wanted: &Wanted, bus: &SimBus) -> Result<(), Fault> {
    check_outside(&case.chip, wanted, bus.bytes())?;
    let (before, after) = (guards::kept(case.chip.status), guards::kept(bus.status()));
    let fixed = guards::fixed(before) == guards::fixed(after);
    let free = case.chip.config.scheme && !guards::is_locked(case.chip.status);
    agree_all(&[
        (fixed, "the fixed bits at a stop"),
        (free || before == after, "the kept bits at a stop"),
    ])
}

fn check_outside(chip: &Chip, wanted: &Wanted, bytes: &[u8]) -> Result<(), Fault> {
    for number in 0..chip.sectors() {
        let old = sector_at(chip.bytes.as_slice(), number);
        agree(
            wanted.touches(number) || old == sector_at(bytes, number),
            "the sectors that aren't saved",
        )?;
    }
    Ok(())
}

// Checks, if the chip kept its power, that sectors that need no erase changed only in bits that are 0 in the target.
fn check_gentle(case: &Case, wanted: &Wanted, bus: &SimBus, fill: Option<u8>) -> Result<(), Fault> {
    if fill.is_some() {
        return Ok(());
    }
    for number in 0..case.chip.sectors() {
        let old = sector_at(case.chip.bytes.as_slice(), number);
        let new = sector_at(wanted.bytes.as_slice(), number);
        let now = sector_at(bus.bytes(), number);
        agree(
            wanted.raises_all(number, 1) || is_gentle(old, new, now),
            "the bits that fell at a stop",
        )?;
    }
    Ok(())
}

fn is_gentle(old: &[u8], new: &[u8], now: &[u8]) -> bool {
    old.iter()
        .zip(new)
        .zip(now)
        .all(|((old, new), now)| *new & !*now == 0 && *now & !*old == 0)
}

// Restores up to four times with stops and, if none succeeds, once without. The stops are power failures if `first` is.
fn give_back(
    alloc: Global,
    dice: &mut Dice,
    accepted: Accepted<'_>,
    (left, journal): (Left, &[u8]),
    (first, cuts): (Stop, Cuts),
) -> Result<Cuts, Fault> {
    let journal = Journal::read(journal)?;
    let (mut left, mut cuts) = (left, cuts);
    for _ in 0..dice.below(5) {
        let stop = next_stop(dice, accepted, first);
        left = give_some(alloc, accepted, &journal, left, stop)?;
        cuts = cuts.with_restore(stop, left.ended);
        if left.ended {
            return Ok(cuts);
        }
    }
    let left = left::restore(alloc, accepted, &journal, left, Stop::NEVER)?;
    agree(left.ended, "a restore that nothing stops")?;
    Ok(cuts)
}

fn next_stop(dice: &mut Dice, accepted: Accepted<'_>, first: Stop) -> Stop {
    let (case, wanted) = (accepted.case, accepted.wanted);
    let most = lengths::session(case, wanted.work(&case.chip));
    Stop {
        after: stop_of_restore(dice, most),
        cut: dice.cut(),
        fill: first.fill,
    }
}

fn give_some(
    alloc: Global,
    accepted: Accepted<'_>,
    journal: &Journal<'_>,
    left: Left,
    stop: Stop,
) -> Result<Left, Fault> {
    let (case, wanted) = (accepted.case, accepted.wanted);
    let left = left::restore(alloc, accepted, journal, left, stop)?;
    if !left.ended {
        check_within(case, wanted, &left.bus)?;
    }
    Ok(left)
}

/// Draws after how many transactions a restore stops: at most `most`, and at least half of the time at most 40.
pub fn stop_of_restore(dice: &mut Dice, most: u64) -> u64 {
    let most = if dice.hits(1, 2) { most } else { most.min(40) };
    dice.up_to(most)
}

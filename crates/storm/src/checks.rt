//! Runs sessions, and compares those that are not stopped with the reference implementation.

use crate::cases::Case;
use crate::chips::Chip;
use crate::contents::sector_at;
use crate::fault::{Fault, agree_all};
use crate::model::Stop;
use crate::pace::Pace;
use crate::wanted::{Wanted, Work};
use crate::{guards, lengths, traces, transactions, verdicts};
use nor_chip::{SimBus, TraceBus};
use nor_journal::{Journal, MemVault};
use nor_probe::Found;
use nor_session::{Refusal, Report, Request, session};
use std::alloc::Global;

#[derive(Drop)]
pub struct Ran {
    pub answer: Result<Report, Refusal>,
    pub bus: SimBus,
    pub vault: MemVault,
    pub sent: Vec<u8>,
}

impl Ran {
    pub fn lines(&self) -> Result<&str, Fault> {
        traces::text(self.sent.as_slice())
    }
}

pub fn run(alloc: Global, case: &Case, stop: Stop) -> Result<Ran, Fault> {
    let mut image = case.image.to_vec(alloc)?;
    let bus = case.chip.bus(alloc, stop)?;
    run_on(alloc, bus, image.as_mut_slice(), &case.request)
}

fn run_on(alloc: Global, bus: SimBus, image: &mut [u8], request: &Request) -> Result<Ran, Fault> {
    let mut sent = Vec::new(alloc);
    let mut traced = TraceBus::new(bus, &mut sent);
    let mut vault = MemVault::new(alloc);
    let answer = session(&mut traced, &mut vault, image, request);
    let lost = traced.lost();
    let bus = traced.into_inner();
    let ran = Ran {
        answer,
        bus,
        vault,
        sent,
    };
    if lost { Err(Fault::Memory) } else { Ok(ran) }
}

pub fn is_same(bus: &SimBus, chip: &Chip) -> bool {
    bus.bytes() == chip.bytes.as_slice() && guards::kept(bus.status()) == guards::kept(chip.status)
}

fn is_quiet(bus: &SimBus, chip: &Chip) -> bool {
    let now = bus.status()[0];
    now & 0x01 == 0 && (now & 0x02 == 0 || chip.status[0] & 0x02 != 0)
}

/// Checks a refused session: its error and transactions, and that the chip is unchanged and idle. Also checks that
/// the vault is unsealed.
pub fn check_refused(alloc: Global, case: &Case, refusal: Refusal, ran: &Ran) -> Result<(), Fault> {
    agree_all(&[
        (ran.answer == Err(refusal), "the refusal of a session"),
        (is_same(&ran.bus, &case.chip), "the chip after a refusal"),
        (is_quiet(&ran.bus, &case.chip), "the latch after a refusal"),
        (!ran.vault.is_sealed(), "the vault after a refusal"),
    ])?;
    let sent = ran.lines()?;
    traces::check_refused(case, refusal, sent)?;
    let lines = transactions::refused_session(alloc, case, refusal)?;
    traces::check_lines(sent, lines.text(), "a refused session")
}

/// Checks an accepted session: its transactions, the target on the chip, its report, and its sealed journal.
pub fn check_ended(case: &Case, wanted: &Wanted, lines: &str, ran: &Ran) -> Result<(), Fault> {
    let Ok(report) = ran.answer else {
        return Err(Fault::Differs("an accepted session ends"));
    };
    let work = wanted.work(&case.chip);
    check_report(&case.chip, work, &report)?;
    let count = lengths::session(case, work);
    agree_all(&[
        (
            report.transactions == count,
            "the transactions of a session",
        ),
        (ran.vault.is_sealed(), "the vault after a session"),
    ])?;
    check_wanted(wanted, &ran.bus)?;
    let sent = ran.lines()?;
    traces::check_ended(case, wanted, sent)?;
    check_vault(&case.chip, wanted, &ran.vault)?;
    traces::check_lines(sent, lines, "a session")
}

pub fn check_report(chip: &Chip, work: Work, report: &Report) -> Result<(), Fault> {
    check_found(chip, &report.found)?;
    let touched = u64::from(report.touched) == work.touched;
    agree_all(&[
        (touched, "the touched sectors"),
        (u64::from(report.erases) == work.erases, "the erases"),
        (u64::from(report.programs) == work.programs, "the programs"),
    ])
}

/// Checks that `found` describes `chip`, with status 1 as the first poll without BUSY returns it.
pub fn check_found(chip: &Chip, found: &Found) -> Result<(), Fault> {
    let config = &chip.config;
    let named = found.name == verdicts::name_of(config);
    let sized = found.id == config.id && found.size == config.size;
    let kinds = found.kinds == config.kinds;
    let kinds = kinds && found.scheme == config.scheme;
    let [status1, _] = guards::kept(chip.status);
    let seen = found.status1 == status1 | Pace::of(chip).waited().bits();
    agree_all(&[
        (named && sized, "the chip that was found"),
        (kinds, "the kinds that were found"),
        (seen, "the status that was found"),
    ])
}

pub fn check_wanted(wanted: &Wanted, bus: &SimBus) -> Result<(), Fault> {
    let bytes = bus.bytes() == wanted.bytes.as_slice();
    let kept = guards::kept(bus.status()) == guards::kept(wanted.status);
    let idle = bus.status()[0] & 0x01 == 0;
    agree_all(&[
        (bytes, "the bytes at the end"),
        (kept, "the kept bits at the end"),
        (idle, "the chip is idle at the end"),
    ])
}

fn check_vault(chip: &Chip, wanted: &Wanted, vault: &MemVault) -> Result<(), Fault> {
    let journal = Journal::read(vault.bytes())?;
    check_head(chip, wanted, &journal)?;
    for number in 0..chip.sectors() {
        check_record(chip, wanted, number, &journal)?;
    }
    Ok(())
}

fn check_head(chip: &Chip, wanted: &Wanted, journal: &Journal<'_>) -> Result<(), Fault> {
    let config = &chip.config;
    let unit = journal.id() == config.id && journal.unique() == Some(config.unique);
    let head = unit && journal.size() == config.size;
    let status = journal.status() == guards::kept(chip.status);
    let count = u64::try_from(journal.count()) == Ok(wanted.work(chip).touched);
    agree_all(&[
        (head, "the head of the journal"),
        (status, "the status of the journal"),
        (count, "the number of saved sectors"),
    ])
}

fn check_record(
    chip: &Chip,
    wanted: &Wanted,
    number: u32,
    journal: &Journal<'_>,
) -> Result<(), Fault> {
    let old = sector_at(chip.bytes.as_slice(), number);
    let saved = journal.find(number);
    let touched = saved.is_some() == wanted.touches(number);
    agree_all(&[
        (touched, "which sectors are saved"),
        (saved.is_none_or(|bytes| bytes == old), "the saved bytes"),
    ])
}

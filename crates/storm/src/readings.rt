//! Checks the results and the transactions of the calls that only read.

use crate::cases::Case;
use crate::dice::Dice;
use crate::fault::{Fault, agree, agree_all};
use crate::lines::{self, Lines};
use crate::model::Stop;
use crate::pace::Pace;
use crate::{checks, guards, lengths, lies, traces, transactions, verdicts};
use nor_chip::{Bus, SimBus, TraceBus};
use nor_journal::{BrokenVault, MemVault};
use nor_probe::probe;
use nor_read::{Protection, read_out, verify, wp_status};
use nor_session::{Refusal, Report};
use std::alloc::Global;

#[derive(Clone, Copy)]
pub enum Reading {
    Probe,
    Protection,
    Copy,
    Comparison,
}

#[derive(Drop)]
pub enum Told {
    Found,
    Protection(Protection),
    Copy(Report, MemVault),
    Comparison(Report),
}

#[derive(Drop)]
struct Ran {
    answer: Result<Told, Refusal>,
    bus: SimBus,
    sent: Vec<u8>,
}

/// Checks each reading call on a case's chip: without a stop, with one, and on a faulty bus. Also checks a readout into
/// a vault that refuses a call.
pub fn check(alloc: Global, dice: &mut Dice, case: &Case) -> Result<(), Fault> {
    for reading in [
        Reading::Probe,
        Reading::Protection,
        Reading::Copy,
        Reading::Comparison,
    ] {
        reading.check(alloc, dice, case)?;
    }
    check_refused_copy(alloc, dice, case)
}

impl Reading {
    pub fn refusal(self, case: &Case) -> Option<Refusal> {
        let early = self.early_refusal(case);
        match self {
            Reading::Probe | Reading::Copy => early,
            Reading::Protection if !case.chip.config.scheme => {
                early.or(Some(Refusal::NoProtection))
            }
            Reading::Protection => early,
            Reading::Comparison if early.is_none() => first_difference(case),
            Reading::Comparison => early,
        }
    }

    pub fn early_refusal(self, case: &Case) -> Option<Refusal> {
        let found = verdicts::of_probe(&case.chip.config, case.request.named);
        match self {
            Reading::Probe | Reading::Protection => found,
            Reading::Copy => found.or(verdicts::of_places(case)),
            Reading::Comparison => found
                .or(verdicts::of_image(case))
                .or(verdicts::of_places(case)),
        }
    }

    fn lines(self, alloc: Global, case: &Case) -> Result<Lines, Fault> {
        let is_found = self.early_refusal(case).is_none();
        match self {
            Reading::Probe => transactions::probe(alloc, &case.chip),
            Reading::Protection => transactions::protection(alloc, &case.chip, is_found),
            Reading::Copy | Reading::Comparison => {
                let below = if is_found { case.chip.sectors() } else { 0 };
                transactions::reading(alloc, case, below)
            }
        }
    }

    fn check(self, alloc: Global, dice: &mut Dice, case: &Case) -> Result<(), Fault> {
        let whole = self.lines(alloc, case)?;
        self.check_lines(alloc, dice, case, whole.text())
    }

    fn check_lines(
        self,
        alloc: Global,
        dice: &mut Dice,
        case: &Case,
        whole: &str,
    ) -> Result<(), Fault> {
        let enough = lines::count(whole);
        self.check_under(alloc, case, whole, u64::MAX)?;
        self.check_under(alloc, case, whole, dice.up_to(enough))?;
        lies::check_reading(alloc, dice, case, self, enough)
    }

    fn check_under(
        self,
        alloc: Global,
        case: &Case,
        whole: &str,
        allowed: u64,
    ) -> Result<(), Fault> {
        let refusal = if allowed < lines::count(whole) {
            Some(Refusal::Stopped)
        } else {
            self.refusal(case)
        };
        let bus = case.chip.bus(alloc, Stop::after(allowed))?;
        let ran = self.run(alloc, case, bus)?;
        check_ran(alloc, case, refusal, lines::first(whole, allowed), &ran)
    }

    fn run(self, alloc: Global, case: &Case, bus: SimBus) -> Result<Ran, Fault> {
        let mut sent = Vec::new(alloc);
        let mut bus = TraceBus::new(bus, &mut sent);
        let answer = self.call(alloc, case, &mut bus);
        let lost = bus.lost();
        let bus = bus.into_inner();
        let ran = Ran { answer, bus, sent };
        if lost { Err(Fault::Memory) } else { Ok(ran) }
    }

    pub fn call<B: Bus>(self, alloc: Global, case: &Case, bus: &mut B) -> Result<Told, Refusal> {
        let named = case.request.named;
        let included = case.request.included.as_ref();
        match self {
            Reading::Probe => {
                probe(bus, named)?;
                Ok(Told::Found)
            }
            Reading::Protection => Ok(Told::Protection(wp_status(bus, named)?)),
            Reading::Copy => {
                let mut out = MemVault::new(alloc);
                let report = read_out(bus, included, named, &mut out)?;
                Ok(Told::Copy(report, out))
            }
            Reading::Comparison => {
                let image = case.image.as_slice();
                Ok(Told::Comparison(verify(bus, image, included, named)?))
            }
        }
    }
}

fn check_ran(
    alloc: Global,
    case: &Case,
    refusal: Option<Refusal>,
    first: &str,
    ran: &Ran,
) -> Result<(), Fault> {
    let pace = Pace::of(&case.chip).after_lines(first);
    let shown = ran.bus.status()[0] & 0b0000_0011;
    let same = checks::is_same(&ran.bus, &case.chip);
    agree_all(&[
        (same, "the chip after it was read"),
        (shown == pace.bits(), "BUSY and the latch after a reading"),
    ])?;
    check_answer(alloc, case, refusal, &ran.answer)?;
    traces::check_trace(ran.sent.as_slice(), first, "a reading")
}

fn check_answer(
    alloc: Global,
    case: &Case,
    refusal: Option<Refusal>,
    answer: &Result<Told, Refusal>,
) -> Result<(), Fault> {
    match answer {
        Ok(told) if refusal.is_none() => check_told(alloc, case, told),
        Ok(_) => Err(Fault::Differs("a reading that is to be refused")),
        Err(other) => agree(refusal == Some(*other), "the refusal of a reading"),
    }
}

fn first_difference(case: &Case) -> Option<Refusal> {
    let bytes = case.chip.bytes.iter().zip(case.image.iter());
    for (address, (byte, new)) in (0_u32..).zip(bytes) {
        if *byte != *new && case.includes(address) {
            return Some(Refusal::Mismatch { address });
        }
    }
    None
}

/// Checks a report on protection or a copy from a faulty bus against the chip that the replies described.
pub fn check_known(alloc: Global, known: &Case, told: &Told) -> Result<(), Fault> {
    match told {
        Told::Found | Told::Comparison(_) => Ok(()),
        Told::Protection(protection) => check_protection(known, *protection),
        Told::Copy(_, out) => check_copy(alloc, known, out, "the copy of what is known"),
    }
}

fn check_told(alloc: Global, case: &Case, told: &Told) -> Result<(), Fault> {
    match told {
        Told::Found => Ok(()),
        Told::Protection(protection) => check_protection(case, *protection),
        Told::Comparison(report) => check_report(case, report),
        Told::Copy(report, out) => {
            check_report(case, report)?;
            agree(!out.is_sealed(), "the copy isn't sealed")?;
            check_copy(alloc, case, out, "the copy")
        }
    }
}

fn check_copy(alloc: Global, case: &Case, out: &MemVault, what: &'static str) -> Result<(), Fault> {
    let copy = copy_of(alloc, case)?;
    agree(out.bytes() == copy.as_slice(), what)
}

fn copy_of(alloc: Global, case: &Case) -> Result<Vec<u8>, Fault> {
    let mut copy = case.chip.bytes.to_vec(alloc)?;
    for (address, byte) in (0_u32..).zip(copy.iter_mut()) {
        if !case.includes(address) {
            *byte = 0xFF;
        }
    }
    Ok(copy)
}

// Checks a report on protection: an empty range must be 0, 0, and undefined protection bits have no range. Also checks
// the reported lock and size.
fn check_protection(case: &Case, told: Protection) -> Result<(), Fault> {
    let code = guards::code_of(case.chip.status);
    let size = case.chip.config.size;
    let places = guards::guarded_places(code, size);
    let range = if guards::is_undefined(code) {
        None
    } else if places.1 == 0 {
        Some((0, 0))
    } else {
        Some(places)
    };
    let locked = told.locked == guards::is_locked(case.chip.status);
    agree_all(&[
        (told.range == range, "the protected range"),
        (locked && told.size == size, "the lock of the status"),
    ])
}

fn check_report(case: &Case, report: &Report) -> Result<(), Fault> {
    checks::check_found(&case.chip, &report.found)?;
    let idle = report.touched == 0 && report.erases == 0 && report.programs == 0;
    let sent = lengths::probe(&case.chip).saturating_add(lengths::included_sectors(case));
    agree_all(&[
        (idle, "the work of a reading"),
        (report.transactions == sent, "the transactions of a reading"),
    ])
}

#[derive(Drop)]
struct Copied {
    answer: Result<Report, Refusal>,
    out: BrokenVault<MemVault>,
    sent: Vec<u8>,
}

// Checks a readout whose vault refuses a call. A readout that fails for another reason must return that error. Other
// readouts must return error 19 with the number of bytes in the vault, including those of the refused piece.
fn check_refused_copy(alloc: Global, dice: &mut Dice, case: &Case) -> Result<(), Fault> {
    let nth = u64::from(dice.below(case.chip.sectors() / 16)).saturating_add(1);
    let kept = dice.pick(0, &[1, 4095, 65_535]);
    let bus = case.chip.bus(alloc, Stop::NEVER)?;
    let copied = copy_out(alloc, case, bus, (nth, kept));
    match (Reading::Copy.refusal(case), &copied.answer) {
        (None, Err(Refusal::Output { written })) => check_part(alloc, case, *written, &copied),
        (Some(refusal), Err(other)) => agree(refusal == *other, "the refusal of a copy"),
        _ => Err(Fault::Differs("the refusal of a copy")),
    }
}

fn copy_out(alloc: Global, case: &Case, bus: SimBus, (nth, kept): (u64, usize)) -> Copied {
    let mut sent = Vec::new(alloc);
    let mut bus = TraceBus::new(bus, &mut sent);
    let mut out = BrokenVault::new(MemVault::new(alloc), nth, kept);
    let request = &case.request;
    let answer = read_out(&mut bus, request.included.as_ref(), request.named, &mut out);
    drop(bus);
    Copied { answer, out, sent }
}

// Checks that the vault has the first `written` bytes of the copy, and that no sector after the refused piece was read.
fn check_part(alloc: Global, case: &Case, written: u64, copied: &Copied) -> Result<(), Fault> {
    check_first(alloc, case, written, copied.out.inner().bytes())?;
    let piece = u32::try_from(written / 65_536).unwrap_or(u32::MAX);
    let below = piece.saturating_add(1).saturating_mul(16);
    let lines = transactions::reading(alloc, case, below)?;
    traces::check_trace(copied.sent.as_slice(), lines.text(), "a refused copy")
}

fn check_first(alloc: Global, case: &Case, written: u64, out: &[u8]) -> Result<(), Fault> {
    let copy = copy_of(alloc, case)?;
    let went_in = usize::try_from(written).unwrap_or(usize::MAX);
    agree(
        Some(out) == copy.as_slice().get(..went_in),
        "the bytes of a refused copy",
    )
}

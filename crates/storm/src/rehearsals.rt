//! Rehearsals of accepted sessions, compared with the same calls made one by one.

use crate::cases::Case;
use crate::dice::Dice;
use crate::fault::{Fault, agree, agree_all};
use crate::left::{self, Accepted, Left};
use crate::model::Stop;
use crate::{checks, lengths, stops, traces};
use nor_chip::{SimBus, TraceBus};
use nor_journal::{Journal, MemVault};
use nor_session::{Refusal, Rehearsal, Request, rehearse};
use std::alloc::Global;

#[derive(Clone, Copy)]
struct Plan {
    stops: [u64; 3],
    // The greatest number of bytes of the interrupted transaction that each stop still sends, if any.
    cut: Option<u32>,
    // The fill byte, if the chip loses its power at each stop.
    fill: Option<u8>,
}

impl Plan {
    fn stop(self, after: u64) -> Stop {
        Stop {
            after,
            cut: self.cut,
            fill: self.fill,
        }
    }
}

#[derive(Drop)]
struct Ran {
    answer: Result<Rehearsal, Refusal>,
    bus: SimBus,
    vault: MemVault,
    sent: Vec<u8>,
}

/// Rehearses an accepted session with three stops, one for the session and two for restores, and checks the result.
pub fn check(alloc: Global, dice: &mut Dice, accepted: Accepted<'_>) -> Result<(), Fault> {
    let plan = plan_for(dice, accepted);
    let ran = run(alloc, accepted.case, plan)?;
    check_ran(alloc, accepted, plan, &ran)
}

fn plan_for(dice: &mut Dice, accepted: Accepted<'_>) -> Plan {
    let whole = whole_of(accepted);
    let stops = [
        stops::stop_for(dice, accepted.case, accepted.wanted),
        stops::stop_of_restore(dice, whole),
        stops::stop_of_restore(dice, whole),
    ];
    let fill = stops::fill_for(dice, accepted.case);
    let cut = dice.cut();
    Plan { stops, cut, fill }
}

fn whole_of(accepted: Accepted<'_>) -> u64 {
    let case = accepted.case;
    lengths::session(case, accepted.wanted.work(&case.chip))
}

fn run(alloc: Global, case: &Case, plan: Plan) -> Result<Ran, Fault> {
    let mut image = case.image.to_vec(alloc)?;
    // `rehearse` replaces the allowance 0 of this bus. The plan's `cut` and `fill` stay, and apply to every stop.
    let bus = case.chip.bus(alloc, plan.stop(0))?;
    run_on(alloc, bus, image.as_mut_slice(), &case.request, plan.stops)
}

fn run_on(
    alloc: Global,
    bus: SimBus,
    image: &mut [u8],
    request: &Request,
    stops: [u64; 3],
) -> Result<Ran, Fault> {
    let mut sent = Vec::new(alloc);
    let mut traced = TraceBus::new(bus, &mut sent);
    let mut vault = MemVault::new(alloc);
    let answer = rehearse(&mut traced, &mut vault, image, request, &stops);
    let lost = traced.lost();
    let bus = traced.into_inner();
    let ran = Ran {
        answer,
        bus,
        vault,
        sent,
    };
    if lost { Err(Fault::Memory) } else { Ok(ran) }
}

fn check_ran(alloc: Global, accepted: Accepted<'_>, plan: Plan, ran: &Ran) -> Result<(), Fault> {
    let Ok(rehearsal) = ran.answer else {
        return Err(Fault::Differs("an accepted rehearsal ends"));
    };
    let [first, _, _] = plan.stops;
    let ended = first >= whole_of(accepted);
    let sealed = first >= lengths::saving(accepted.case);
    let same = checks::is_same(&ran.bus, &accepted.case.chip);
    agree_all(&[
        (same, "the chip after a rehearsal"),
        (
            rehearsal.ended == ended,
            "whether a rehearsed session ended",
        ),
        (
            rehearsal.sealed == sealed,
            "whether a rehearsed session sealed",
        ),
        (ran.vault.is_sealed() == sealed, "the vault of a rehearsal"),
    ])?;
    check_restores(alloc, accepted, plan, rehearsal.restores, &ran.sent)
}

fn check_restores(
    alloc: Global,
    accepted: Accepted<'_>,
    plan: Plan,
    restores: u32,
    sent: &[u8],
) -> Result<(), Fault> {
    let mut lines = Vec::new(alloc);
    let count = run_each(alloc, accepted, plan, &mut lines)?;
    agree(restores == count, "the restores of a rehearsal")?;
    traces::check_trace(sent, traces::text(lines.as_slice())?, "a rehearsal")
}

fn run_each(
    alloc: Global,
    accepted: Accepted<'_>,
    plan: Plan,
    sent: &mut Vec<u8>,
) -> Result<u32, Fault> {
    let [first, second, third] = plan.stops;
    let (left, vault) = left::run(alloc, accepted, plan.stop(first))?;
    sent.extend_from_slice(left.sent.as_slice())?;
    if vault.is_sealed() {
        let stops = [plan.stop(second), plan.stop(third), Stop::NEVER];
        restore_each(alloc, accepted, vault.bytes(), left, stops, sent)
    } else {
        Ok(0)
    }
}

fn restore_each(
    alloc: Global,
    accepted: Accepted<'_>,
    journal: &[u8],
    left: Left,
    stops: [Stop; 3],
    sent: &mut Vec<u8>,
) -> Result<u32, Fault> {
    let journal = Journal::read(journal)?;
    let mut left = left;
    for (count, stop) in (1_u32..).zip(stops) {
        left = left::restore(alloc, accepted, &journal, left, stop)?;
        sent.extend_from_slice(left.sent.as_slice())?;
        if left.ended {
            return Ok(count);
        }
    }
    Err(Fault::Differs("a restore that nothing stops"))
}

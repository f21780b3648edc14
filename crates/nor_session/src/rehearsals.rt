//! Rehearsals, which run a session that may be stopped on purpose, and then undo it from its journal.
ghost use Rattle.std.specs.Prelude.{◌≡◌, ◌≤◌, ◌+◌, ◌∷◌, true, length, drop, IfOk, IfErr, OnOk, OnErr};
ghost use Rattle.nor_model.specs.Chip.{IsSame};
ghost use Rattle.nor_driver.specs.OnlyReads.{IsSteadyOrIdle};
ghost use Rattle.nor_journal.specs.Vault.{IsFresh};
ghost use Rattle.nor_journal.specs.MemVault.{held_by};
ghost use Rattle.nor_probe.specs.Known.{IsModelled};
ghost use Rattle.nor_session.specs.Bounds.{most_of};
ghost use Rattle.nor_session.specs.Rehearsing.{LeavesSession, RunsSession, RefusesSession, LeavesRestores, RunsRestore, RunsRestores};
ghost use Rattle.nor_session.specs.Rehearsing.{LeavesUndo, StopsRestores};
ghost use Rattle.nor_session.specs.Rehearsal.{RehearsalAlways, RehearsalModelled, IsNoBusError, AllowsStops, first_allowance};

use crate::restores::restore;
use crate::sessions::session;
use crate::{Refusal, Request};
use nor_geometry::MOST_SECTORS;
use nor_journal::{Journal, MemVault, Vault};
use nor_model::{Bus, Meter};

/// The result of a rehearsal: whether the session succeeded (`ended`) or was stopped, whether its vault was sealed, and
/// the number of restores that were run. The last restore, if any, succeeded, and all others were stopped.
#[derive(Clone, Copy, Debug, PartialEq, Eq)]
pub struct Rehearsal {
    pub ended: bool,
    pub sealed: bool,
    pub restores: u32,
}

/// Runs a session and, if its vault is sealed, restores from its journal until one succeeds. `stops` has the allowances
/// of the session, the first restore, and so on. A call without an entry has an allowance that is enough on a
/// well-behaved, punctual bus. The rehearsal ends at the first error; a stop of a call with an entry isn't an error.
///
/// `stops` must have at most 64 entries, `vault` must be empty and unsealed, and `image` and `request` are as for
/// `session`.
///
/// On a modelled, punctual bus that is steady, or whose chip was idle at the start, the chip's contents and
/// non-volatile status bits are at every exit as they were before the call.
///
/// On every bus the session programs only target bytes (see `session`), and each restore only bytes that the journal in
/// `vault` saves.
///
/// Returns an error of the session or, if the vault was sealed, of a restore. On a well-behaved, punctual bus errors 12
/// and 13 do not occur.
pub fn rehearse<B: Meter>(
    bus: &mut B,
    vault: &mut MemVault,
    image: &mut [u8],
    request: &Request,
    stops: &[u64],
) -> Result<Rehearsal, Refusal>
    requires few { length stops.now ≤ 64 }
    requires fresh { IsFresh (held_by vault.old) }
    ensures restores_original { IsModelled (B.state bus.old) → (B.state bus.old).punctual ≡ true
        → IsSteadyOrIdle (B.state bus.old)
        → IsSame (B.state bus.old).chip (B.state bus.new).chip }
    ensures always { RehearsalAlways request.now image.old stops.now (B.state bus.old) (B.state bus.new)
        (held_by vault.old) (held_by vault.new) result }
    ensures honest { (B.state bus.old).honest ≡ true → (B.state bus.old).punctual ≡ true → IfErr result IsNoBusError }
    ensures modelled { IsModelled (B.state bus.old) → (B.state bus.old).punctual ≡ true
        → RehearsalModelled request.now image.old stops.now
        (B.state bus.old) (B.state bus.new) (held_by vault.old) (held_by vault.new) result }
{
    let ended = stopped_session(bus, vault, image, request, stops)?;
    if !vault.is_sealed() {
        return Ok(Rehearsal {
            ended,
            sealed: false,
            restores: 0,
        });
    }
    let restores = undo(bus, vault.bytes(), later(stops))?;
    Ok(Rehearsal {
        ended,
        sealed: true,
        restores,
    })
}

// A bound on the transactions of an identification: a probe, and one read each of status 2 and of the unique ID.
const IDENTIFICATION: u64 = 65_542;

// A bound on the transactions of an operation: write enable, the command, and at most 65,536 polls.
const OPERATION: u64 = 65_538;

fn most_needed() -> u64
    ensures { result ≡ most_of 4096 }
{
    let sectors = u64::from(MOST_SECTORS);
    IDENTIFICATION + 3 * sectors + OPERATION * (17 * sectors + 2)
}

fn first_allowed(stops: &[u64]) -> u64
    ensures { result ≡ first_allowance stops.now }
{
    stops.first().copied().unwrap_or_else(most_needed)
}

fn later(stops: &[u64]) -> &[u64]
    ensures { result.now ≡ drop 1 stops.now }
{
    stops.get(1..).unwrap_or(&[])
}

fn stopped_session<B: Meter>(
    bus: &mut B,
    vault: &mut MemVault,
    image: &mut [u8],
    request: &Request,
    stops: &[u64],
) -> Result<bool, Refusal>
    requires { IsFresh (held_by vault.old) }
    ensures leaves { LeavesSession request.now image.old (B.state bus.old) (B.state bus.new) (held_by vault.new) }
    ensures allowed { (B.state bus.new).allowances ≡ first_allowance stops.now ∷ (B.state bus.old).allowances }
    ensures whole { length stops.now ≡ 0 → IfOk result (λ ended. ended ≡ true) }
    ensures shows { IfOk result
        (RunsSession request.now image.old (first_allowance stops.now) (B.state bus.old) (B.state bus.new)
        (held_by vault.new)) }
    ensures refuses { IfErr result
        (RefusesSession request.now image.old (B.state bus.old) (B.state bus.new) (held_by vault.old)
        (held_by vault.new)) }
{
    bus.allow(first_allowed(stops));
    match session(bus, vault, image, request) {
        Ok(_) => Ok(true),
        Err(refusal) if refusal.is_stopped() && !stops.is_empty() => Ok(false),
        Err(refusal) => Err(refusal),
    }
}

fn undo<B: Meter>(bus: &mut B, text: &[u8], stops: &[u64]) -> Result<u32, Refusal>
    requires few { length stops.now ≤ 64 }
    ensures { LeavesUndo text.now stops.now (B.state bus.old) (B.state bus.new) result }
{
    match Journal::read(text) {
        Ok(journal) => restore_in_turn(bus, &journal, stops),
        Err(fault) => Err(Refusal::BadJournal(fault)),
    }
}

fn restore_in_turn<B: Meter>(
    bus: &mut B,
    journal: &Journal<'_>,
    stops: &[u64],
) -> Result<u32, Refusal>
    requires few { length stops.now ≤ 64 }
    ensures leaves { LeavesRestores journal.now (length stops.now + 1) (B.state bus.old) (B.state bus.new) }
    ensures shows { IfOk result (RunsRestores journal.now stops.now (B.state bus.old) (B.state bus.new)) }
    ensures polled_ready { OnOk result ((B.state bus.new).polled_ready ≡ true) }
    ensures refuses { IfErr result (StopsRestores journal.now (B.state bus.old) (B.state bus.new)) }
    ensures tried { OnErr result (AllowsStops stops.now 1 (length stops.now + 1) (B.state bus.old) (B.state bus.new)) }
{
    let mut restores = 0;
    for stop in stops {
        restores += 1;
        if ends_under(bus, journal, *stop)? {
            return Ok(restores);
        }
    }
    if ends_under(bus, journal, most_needed())? {
        return Ok(restores + 1);
    }
    Err(Refusal::Stopped)
}

fn ends_under<B: Meter>(bus: &mut B, journal: &Journal<'_>, allowance: u64) -> Result<bool, Refusal>
    ensures leaves { LeavesRestores journal.now 1 (B.state bus.old) (B.state bus.new) }
    ensures allowed { (B.state bus.new).allowances ≡ allowance ∷ (B.state bus.old).allowances }
    ensures shows { IfOk result (RunsRestore journal.now allowance (B.state bus.old) (B.state bus.new)) }
    ensures polled_ready { IfOk result (λ ended. ended ≡ true → (B.state bus.new).polled_ready ≡ true) }
    ensures refuses { IfErr result (StopsRestores journal.now (B.state bus.old) (B.state bus.new)) }
{
    bus.allow(allowance);
    match restore(bus, journal) {
        Ok(_) => Ok(true),
        Err(refusal) if refusal.is_stopped() => Ok(false),
        Err(refusal) => Err(refusal),
    }
}

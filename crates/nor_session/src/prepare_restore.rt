//! The steps of a restore or rewrite before it changes anything.
ghost use Rattle.std.specs.Prelude.{◌≡◌, ◌<◌, ◌≤◌, ℕ, true, None, length, IfOk, IfErr, OnOk, OnErr, MatchBool};
ghost use Rattle.nor_driver.specs.OnlyReads.{OnlyReads, HasStopped};
ghost use Rattle.nor_plan.specs.SectorSet.{has};
ghost use Rattle.nor_scan.specs.Identity.{ReadsIdentity, most_identity};
ghost use Rattle.nor_request.specs.declared.refusal.Refusal.TheVariants as Refusals;
ghost use Rattle.nor_session.specs.Bounds.{most_reads};
ghost use Rattle.nor_journal.specs.Saved.{is_saved};
ghost use Rattle.nor_session.specs.Restore.{Choice, differing, every_saved, IsOfTypeFound, HasUniqueRead, HasFixedRead};
ghost use Rattle.nor_session.specs.PrepareRestore.{IsDeviceRefusal, FitsIdentity, ShowsFixed};
ghost use Rattle.nor_session.specs.PrepareRestore.{AcceptsDevice, RefusesDevice, PlansSaved, MarksChosen, MarksSaved, plan_of_rewritten};
ghost use Rattle.nor_session.specs.PrepareRestore.{AreChanges, MakesChanges, RefusesShut, HasPrepared, PrepareErrors};

use crate::sources::as_sector;
use nor_apply::Changes;
use nor_driver::read_sector;
use nor_geometry::SECTOR_LEN;
use nor_journal::Journal;
use nor_model::{Bus, Status, Stopped};
use nor_plan::{Plan, SectorPlan};
use nor_probe::{Found, probe_counted};
use nor_request::Refusal;
use nor_scan::{Identity, Scanned, first_protected, read_on};

#[derive(Clone, Copy)]
pub(crate) struct PreparedRestore {
    pub found: Found,
    pub changes: Changes,
    pub touched: u32,
    pub transactions: u64,
}

/// Identifies the chip, checks it against the journal, and reads the saved sectors to find those that differ. Returns
/// error 1, 2, 16, 20, 17 or 9 (checked in this order), 12 or 13.
#[tactic(auto, using(crate::proofs::SavedBytes::saved_room))]
pub(crate) fn prepare_restore<B: Bus>(
    bus: &mut B,
    journal: &Journal<'_>,
) -> Result<PreparedRestore, Refusal>
    ensures room { length journal.now.saved ≤ 4096 }
    ensures leaves { OnlyReads (most_reads (length journal.now.saved)) (B.state bus.old) (B.state bus.new) }
    ensures prepares { IfOk result (HasPrepared differing journal.now (B.state bus.old) (B.state bus.new)) }
    ensures errors { IfErr result (PrepareErrors differing journal.now (most_reads (length journal.now.saved))
        (B.state bus.old) (B.state bus.new)) }
{
    let sectors = journal.count();
    let identity = identify_saved(bus, journal)?;
    let scanned = scan_saved(bus, journal)?;
    let changes = judge_changes(journal, &identity, &scanned)?;
    Ok(PreparedRestore {
        found: identity.found,
        changes,
        touched: scanned.count,
        transactions: identity.transactions + sectors as u64,
    })
}

/// Identifies and checks the chip, and marks all saved sectors for an erase. Returns the errors of `prepare_restore`.
pub(crate) fn prepare_rewrite<B: Bus>(
    bus: &mut B,
    journal: &Journal<'_>,
) -> Result<PreparedRestore, Refusal>
    ensures leaves { OnlyReads most_identity (B.state bus.old) (B.state bus.new) }
    ensures prepares { IfOk result (HasPrepared every_saved journal.now (B.state bus.old) (B.state bus.new)) }
    ensures every { IfOk result (λ prepared. (s : ℕ) → has prepared.changes.raised s ≡ is_saved journal.now s) }
    ensures errors { IfErr result
        (PrepareErrors every_saved journal.now most_identity (B.state bus.old) (B.state bus.new)) }
{
    let identity = identify_saved(bus, journal)?;
    let scanned = mark_saved(journal);
    let changes = judge_changes(journal, &identity, &scanned)?;
    Ok(PreparedRestore {
        found: identity.found,
        changes,
        touched: scanned.count,
        transactions: identity.transactions,
    })
}

fn identify_saved<B: Bus>(bus: &mut B, journal: &Journal<'_>) -> Result<Identity, Refusal>
    ensures leaves { OnlyReads most_identity (B.state bus.old) (B.state bus.new) }
    ensures identifies { IfOk result (ReadsIdentity None (B.state bus.old) (B.state bus.new)) }
    ensures kind { IfOk result (λ identity. IsOfTypeFound journal.now identity.found) }
    ensures fits { IfOk result (FitsIdentity journal.now) }
    ensures device { IfOk result (HasUniqueRead journal.now) }
    ensures fixed { IfOk result (HasFixedRead journal.now) }
    ensures errors { (choice : Choice)
        → IfErr result (PrepareErrors choice journal.now most_identity (B.state bus.old) (B.state bus.new)) }
{
    let identity = identify_type(bus, journal)?;
    judge_device(journal, &identity)?;
    Ok(identity)
}

fn identify_type<B: Bus>(bus: &mut B, journal: &Journal<'_>) -> Result<Identity, Refusal>
    ensures leaves { OnlyReads most_identity (B.state bus.old) (B.state bus.new) }
    ensures identifies { IfOk result (ReadsIdentity None (B.state bus.old) (B.state bus.new)) }
    ensures kind { IfOk result (λ identity. IsOfTypeFound journal.now identity.found) }
    ensures errors { (choice : Choice)
        → IfErr result (PrepareErrors choice journal.now most_identity (B.state bus.old) (B.state bus.new)) }
{
    let probed = probe_counted(bus, None)?;
    if !is_of_type(journal, &probed.found) {
        return Err(Refusal::OtherChip);
    }
    let identity = read_on(bus, probed)?;
    Ok(identity)
}

fn is_of_type(journal: &Journal<'_>, found: &Found) -> bool
    ensures { MatchBool result (IsOfTypeFound journal.now found.now) (¬ IsOfTypeFound journal.now found.now) }
{
    journal.id() == found.id && journal.size() == found.size
}

fn judge_device(journal: &Journal<'_>, identity: &Identity) -> Result<(), Refusal>
    ensures faults { IfErr result IsDeviceRefusal }
    ensures fits { AcceptsDevice journal.now identity.now result }
    ensures device { OnOk result (HasUniqueRead journal.now identity.now) }
    ensures fixed { OnOk result (HasFixedRead journal.now identity.now) }
    ensures errors { RefusesDevice journal.now identity.now result }
{
    if let Some(unique) = journal.unique()
        && unique != identity.unique
    {
        return Err(Refusal::OtherUnit);
    }
    if has_fixed(journal, identity) {
        Ok(())
    } else {
        Err(Refusal::StatusDiffers)
    }
}

// Returns whether the status bits that a restore can't write are those of the journal. On a chip with block protection
// these are the bits that flashnor never changes, on any other chip all non-volatile status bits.
fn has_fixed(journal: &Journal<'_>, identity: &Identity) -> bool
    ensures shows { ShowsFixed journal.now identity.now result }
    ensures fixed { result ≡ true → HasFixedRead journal.now identity.now }
{
    let saved = Status::of(journal.status());
    let read = identity.status();
    saved.kept() == read.kept() || identity.found.scheme && saved.fixed() == read.fixed()
}

fn scan_saved<B: Bus>(bus: &mut B, journal: &Journal<'_>) -> Result<Scanned, Stopped>
    ensures leaves { OnlyReads (length journal.now.saved) (B.state bus.old) (B.state bus.new) }
    ensures scans { IfOk result (MarksChosen differing journal.now (B.state bus.old) (B.state bus.new)) }
    ensures stops { OnErr result (HasStopped (length journal.now.saved) (B.state bus.old) (B.state bus.new)) }
{
    let mut scanned = Scanned::none();
    let mut bytes = [0; SECTOR_LEN as usize];
    for i in 0..journal.count() {
        let (sector, saved) = journal.sector(i);
        let plan = plan_saved(bus, sector, as_sector(saved), &mut bytes)?;
        scanned.mark(sector, plan);
    }
    Ok(scanned)
}

fn mark_saved(journal: &Journal<'_>) -> Scanned
    ensures { MarksSaved journal.now result }
{
    let mut scanned = Scanned::none();
    for i in 0..journal.count() {
        let (sector, saved) = journal.sector(i);
        let plan = plan_rewritten(as_sector(saved));
        scanned.mark(sector, plan);
    }
    scanned
}

fn plan_rewritten(_saved: &[u8; SECTOR_LEN as usize]) -> SectorPlan
    ensures { result ≡ plan_of_rewritten }
{
    SectorPlan {
        touched: true,
        raised: true,
    }
}

fn plan_saved<B: Bus>(
    bus: &mut B,
    sector: u32,
    saved: &[u8; SECTOR_LEN as usize],
    bytes: &mut [u8; SECTOR_LEN as usize],
) -> Result<SectorPlan, Stopped>
    requires { sector < 4096 }
    ensures leaves { OnlyReads 1 (B.state bus.old) (B.state bus.new) }
    ensures plans { IfOk result (PlansSaved sector saved.now bytes.new (B.state bus.old) (B.state bus.new)) }
    ensures stops { OnErr result (HasStopped 1 (B.state bus.old) (B.state bus.new)) }
{
    read_sector(bus, sector, &mut *bytes)?;
    Ok(Plan::of(&*bytes, saved))
}

fn judge_changes(
    journal: &Journal<'_>,
    identity: &Identity,
    scanned: &Scanned,
) -> Result<Changes, Refusal>
    ensures changes { IfOk result (AreChanges journal.now identity.now scanned.now) }
    ensures locked { IfErr result (λ refusal. refusal ≡ Refusals.StatusLocked) }
    ensures accepts { MakesChanges journal.now identity.now (has scanned.now.touched) result }
    ensures errors { RefusesShut journal.now identity.now (has scanned.now.touched) result }
{
    let code = Status::of(journal.status()).code();
    let unlock = first_protected(&scanned.touched, identity).is_some();
    let writes = unlock || identity.status().code() != code;
    if writes && identity.status().is_locked() {
        return Err(Refusal::StatusLocked);
    }
    Ok(Changes {
        touched: scanned.touched,
        raised: scanned.raised,
        kinds: identity.found.kinds,
        size: identity.found.size,
        status: identity.status(),
        unlock,
        code,
    })
}

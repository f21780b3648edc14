//! The calls `restore` and `rewrite`, which write the saved sectors and protection bits of a journal to the chip.
ghost use Rattle.std.specs.Prelude.{◌≡◌, ◌≤◌, ℕ, true, OnOk};
ghost use Rattle.nor_model.specs.Bus.{BusState};
ghost use Rattle.nor_plan.specs.SectorSet.{has};
ghost use Rattle.nor_journal.specs.Saved.{is_saved};
ghost use Rattle.nor_probe.specs.Known.{IsModelled};
ghost use Rattle.nor_apply.specs.Applying.{AreConsistent, ErasesFirst};
ghost use Rattle.nor_session.specs.Bounds.{most_reads};
ghost use Rattle.nor_session.specs.Headline.{RestoresOriginal, RewritesOriginal};
ghost use Rattle.nor_session.specs.Restore.{Choice, RestoreAlways, RestoreHonest, RestoreModelled};
ghost use Rattle.nor_session.specs.Restore.{RewriteAlways, RewriteHonest, RewriteModelled};
ghost use Rattle.nor_session.specs.PrepareRestore.{HasPrepared, KeepsPromises};
ghost use Rattle.nor_session.specs.Announcing.{Announces};

use crate::announcement::{Announcement, announce_changes};
use crate::kept::{Kept, Restorer};
use crate::prepare_restore::{PreparedRestore, prepare_restore, prepare_rewrite};
use crate::sources::Saved;
use nor_journal::Journal;
use nor_model::Bus;
use nor_request::{Refusal, Report};

/// Restores the saved sectors and the protection bits of `journal`, and verifies the changed sectors. A sector that is
/// read with its saved bytes is not written. After success on any bus, each saved sector was read with its saved bytes
/// (`read_back`): a changed sector after all writes, any other sector before the first. Page programs send only saved
/// bytes, each for its own address (`programs`). The last status write, if any was sent, had the saved protection bits.
/// If none was sent, the identification read them (`protects`).
///
/// On a modelled bus a restore that is stopped can be run again: if the journal could restore a chip at the start, it
/// can restore that chip at every exit. In this case success leaves that chip, and the only possible error is 12.
///
/// Before anything is modified, returns error 1 (no chip), 2 (unknown chip), 16 (another ID or size), 20 (another
/// unique ID; a journal of format 1 has none), 17 (other status bits, see `FitsStatus`) or 9 (the status is locked, but
/// would have to be written), checked in this order. Also returns 12 (the bus stopped), 13 (the chip stayed busy; not
/// on a well-behaved bus) or 14 (the bytes that were read back differ; not on a modelled bus).
pub fn restore<B: Bus>(bus: &mut B, journal: &Journal<'_>) -> Result<Report, Refusal>
    ensures restores_original { IsModelled (B.state bus.old)
        → RestoresOriginal journal.now (B.state bus.old) (B.state bus.new) result }
    ensures always { RestoreAlways journal.now (B.state bus.old) (B.state bus.new) result }
    ensures honest { (B.state bus.old).honest ≡ true
        → RestoreHonest journal.now (B.state bus.old) (B.state bus.new) result }
    ensures modelled { IsModelled (B.state bus.old)
        → RestoreModelled journal.now (B.state bus.old) (B.state bus.new) result }
{
    restore_announced(bus, journal, |_| ())
}

/// Runs a restore as `restore` does. Before the first modifying command `announce`, which must accept every
/// announcement, receives the numbers of touched sectors and of erases, even if both are 0. A restore that refuses the
/// chip announces nothing.
///
/// The clause `announces` states that an announcement was made or no modifying command was sent. No clause states that
/// the announcement comes first.
pub fn restore_announced<B: Bus, F: FnOnce(Announcement) + Drop>(
    bus: &mut B,
    journal: &Journal<'_>,
    announce: F,
) -> Result<Report, Refusal>
    requires { F.IsAlwaysCallable announce }
    ensures restores_original { IsModelled (B.state bus.old)
        → RestoresOriginal journal.now (B.state bus.old) (B.state bus.new) result }
    ensures always { RestoreAlways journal.now (B.state bus.old) (B.state bus.new) result }
    ensures honest { (B.state bus.old).honest ≡ true
        → RestoreHonest journal.now (B.state bus.old) (B.state bus.new) result }
    ensures modelled { IsModelled (B.state bus.old)
        → RestoreModelled journal.now (B.state bus.old) (B.state bus.new) result }
    ensures announces { Announces (λ announcement. F.post announce announcement tt)
        (B.state bus.old) (B.state bus.new) result }
{
    let prepared = prepare_restore(bus, journal)?;
    change_chip(bus, journal, &prepared, announce)
}

/// Restores the saved sectors and the protection bits of `journal` as `restore` does, but erases and rewrites every
/// saved sector, even if the sector has its saved bytes already, and then verifies all of them.
///
/// After an erase or a program was interrupted, a memory cell may be read correctly once and wrongly later. `restore`
/// can leave such a cell, because it doesn't write a sector that is read with its saved bytes.
///
/// If a rewrite is stopped on a modelled bus, and the journal could restore a chip at the start, `rewrite` can be run
/// again, or `restore` instead. The errors are those of `restore`, in the same order. Error 9 is also returned if a
/// locked status protects a saved sector that has its saved bytes. The journal of a session on a modelled bus saves no
/// such sector (`session_can_be_rewritten`).
pub fn rewrite<B: Bus>(bus: &mut B, journal: &Journal<'_>) -> Result<Report, Refusal>
    ensures restores_original { IsModelled (B.state bus.old)
        → RewritesOriginal journal.now (B.state bus.old) (B.state bus.new) result }
    ensures always { RewriteAlways journal.now (B.state bus.old) (B.state bus.new) result }
    ensures honest { (B.state bus.old).honest ≡ true
        → RewriteHonest journal.now (B.state bus.old) (B.state bus.new) result }
    ensures modelled { IsModelled (B.state bus.old)
        → RewriteModelled journal.now (B.state bus.old) (B.state bus.new) result }
    ensures thorough { OnOk result (ErasesFirst (is_saved journal.now) (B.state bus.old) (B.state bus.new)) }
{
    rewrite_announced(bus, journal, |_| ())
}

/// Runs a restore as `rewrite` does. Before the first modifying command `announce`, which must accept every
/// announcement, receives the numbers of saved sectors and of erases. The clause `announces` is as for
/// `restore_announced`.
pub fn rewrite_announced<B: Bus, F: FnOnce(Announcement) + Drop>(
    bus: &mut B,
    journal: &Journal<'_>,
    announce: F,
) -> Result<Report, Refusal>
    requires { F.IsAlwaysCallable announce }
    ensures restores_original { IsModelled (B.state bus.old)
        → RewritesOriginal journal.now (B.state bus.old) (B.state bus.new) result }
    ensures always { RewriteAlways journal.now (B.state bus.old) (B.state bus.new) result }
    ensures honest { (B.state bus.old).honest ≡ true
        → RewriteHonest journal.now (B.state bus.old) (B.state bus.new) result }
    ensures modelled { IsModelled (B.state bus.old)
        → RewriteModelled journal.now (B.state bus.old) (B.state bus.new) result }
    ensures thorough { OnOk result (ErasesFirst (is_saved journal.now) (B.state bus.old) (B.state bus.new)) }
    ensures announces { Announces (λ announcement. F.post announce announcement tt)
        (B.state bus.old) (B.state bus.new) result }
{
    let prepared = prepare_rewrite(bus, journal)?;
    change_chip(bus, journal, &prepared, announce)
}

fn change_chip<B: Bus, F: FnOnce(Announcement) + Drop>(
    bus: &mut B,
    journal: &Journal<'_>,
    prepared: &PreparedRestore,
    announce: F,
) -> Result<Report, Refusal>
    requires callable { F.IsAlwaysCallable announce }
    requires consistent { AreConsistent prepared.now.changes }
    requires saved { (s : ℕ) → has prepared.now.changes.touched s ≡ true → is_saved journal.now s ≡ true }
    requires fits { prepared.now.transactions ≤ most_reads 4096 }
    ensures keeps { (choice : Choice) (old : BusState)
        → HasPrepared choice journal.now old (B.state bus.old) prepared.now
        → KeepsPromises choice journal.now old (B.state bus.new) result }
    ensures thorough { OnOk result
        (ErasesFirst (has prepared.now.changes.raised) (B.state bus.old) (B.state bus.new)) }
    ensures announces { Announces (λ announcement. F.post announce announcement tt)
        (B.state bus.old) (B.state bus.new) result }
{
    announce_changes(announce, &prepared.changes, prepared.touched);
    let kept = Kept {
        bus,
        source: &Saved { journal },
        changes: &prepared.changes,
        undone_by: Restorer::in_journal(journal),
    };
    let work = kept.finish(true)?;
    Ok(Report {
        found: prepared.found,
        touched: prepared.touched,
        erases: work.erases,
        programs: work.programs,
        transactions: prepared.transactions + work.transactions,
    })
}

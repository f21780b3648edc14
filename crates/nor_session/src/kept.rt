//! The two states of a session or restore after its journal is complete: `Kept` and `Done`.
ghost use Rattle.std.specs.Prelude.{◌≡◌, ◌≤◌, ℕ, Bool, true, IfOk, IfErr};
ghost use Rattle.nor_driver.specs.OnlyReads.{OnlyReads};
ghost use Rattle.nor_plan.specs.SectorSet.{has, LiesBelow};
ghost use Rattle.nor_apply.specs.Applying.{AreConsistent, most_applied};
ghost use Rattle.nor_session.specs.Changing.{touched_count, LeavesChange, DoesChange, ChangeErrors, FitsReadBack, NamesTouchedSector, DoesCheck, CheckRefuses};

use crate::checks::check_all;
use nor_apply::{Changes, Source, Work, apply};
use nor_journal::{Journal, Vault};
use nor_model::Bus;
use nor_request::Refusal;

/// Evidence that the journal's vault is sealed, or that the journal was read. Only this module constructs a `Restorer`.
pub(crate) struct Restorer(());

impl Restorer {
    /// Returns the evidence for a sealed vault, to which the caller must have written the journal.
    pub(crate) fn in_vault<V: Vault>(_vault: &V) -> Restorer
        requires { (V.state _vault.now).sealed ≡ true }
    {
        Restorer(())
    }

    pub(crate) fn in_journal(_journal: &Journal<'_>) -> Restorer {
        Restorer(())
    }
}

/// The state of a session after its vault was sealed, or of a restore after its journal was read. In this crate only
/// `finish` changes a chip. A `Kept` can't be dropped, so `finish` must consume it.
pub(crate) struct Kept<'a, B: Bus, S: Source> {
    pub(crate) bus: &'a mut B,
    pub(crate) source: &'a S,
    pub(crate) changes: &'a Changes,
    pub(crate) undone_by: Restorer,
}

impl<'a, B: Bus, S: Source> Kept<'a, B, S> {
    pub(crate) fn finish(self, verify: bool) -> Result<Work, Refusal>
        requires consistent { AreConsistent self.changes.now }
        requires sourced { (s : ℕ) → has self.changes.now.touched s ≡ true → S.has self.source.now s ≡ true }
        ensures leaves { LeavesChange self.entry.changes.now (S.wanted self.entry.source.now)
            (B.state self.entry.bus.now) (B.state self.exit.0.now) }
        ensures does { IfOk result (DoesChange self.entry.changes.now (S.wanted self.entry.source.now) verify
            (B.state self.entry.bus.now) (B.state self.exit.0.now)) }
        ensures errors { IfErr result (ChangeErrors self.entry.changes.now (S.wanted self.entry.source.now)
            (B.state self.entry.bus.now) (B.state self.exit.0.now)) }
        ensures names { IfErr result (NamesTouchedSector self.entry.changes.now) }
        ensures read_back { FitsReadBack self.entry.changes.now (S.wanted self.entry.source.now) verify
            (B.state self.entry.bus.now).history (B.state self.exit.0.now).history result }
    {
        let Kept {
            bus,
            source,
            changes,
            undone_by: Restorer(()),
        } = self;
        let work = apply(bus, source, changes)?;
        let done = Done {
            bus,
            source,
            changes,
            work,
        };
        done.check(verify)
    }
}

/// The state after all changes were made. Only `Kept::finish` constructs a `Done`, which can't be dropped.
pub(crate) struct Done<'a, B: Bus, S: Source> {
    bus: &'a mut B,
    source: &'a S,
    changes: &'a Changes,
    work: Work,
}

impl<'a, B: Bus, S: Source> Done<'a, B, S> {
    fn check(self, verify: bool) -> Result<Work, Refusal>
        requires fits { self.work.transactions ≤ most_applied 4096 }
        requires sourced { (s : ℕ) → has self.changes.now.touched s ≡ true → S.has self.source.now s ≡ true }
        ensures leaves { OnlyReads (touched_count self.entry.changes.now) (B.state self.entry.bus.now)
            (B.state self.exit.0.now) }
        ensures does { IfOk result
            (DoesCheck self.entry.changes.now (S.wanted self.entry.source.now) verify self.entry.work
            (B.state self.entry.bus.now) (B.state self.exit.0.now)) }
        ensures errors { IfErr result (CheckRefuses self.entry.changes.now (S.wanted self.entry.source.now)
            (B.state self.entry.bus.now) (B.state self.exit.0.now)) }
        ensures names { IfErr result (NamesTouchedSector self.entry.changes.now) }
        ensures read_back { LiesBelow self.entry.changes.now.touched 4096
            → FitsReadBack self.entry.changes.now (S.wanted self.entry.source.now) verify
            (B.state self.entry.bus.now).history (B.state self.exit.0.now).history result }
    {
        let Done {
            bus,
            source,
            changes,
            work,
        } = self;
        if !verify {
            return Ok(work);
        }
        let reads = check_all(bus, source, &changes.touched)?;
        Ok(Work {
            transactions: work.transactions + reads,
            ..work
        })
    }
}

//! Changes the chip in a session with its journal in a file, or rehearses the change.
ghost use Rattle.std.specs.Prelude.{◌≡◌, ◌≤◌, ◌⊎◌, true, IfOk, IfErr, None, OnErr, length};
ghost use Rattle.nor_files.specs.Files.{Name, KeepsFile, is_lawful};
ghost use Rattle.nor_driver.specs.OnlyReads.{IsSteadyOrIdle};
ghost use Rattle.nor_journal.specs.Vault.{IsFresh};
ghost use Rattle.nor_probe.specs.Known.{IsModelled};
ghost use Rattle.flashnor.specs.Changes.{HasMadeChange, HasRehearsed};
ghost use Rattle.nor_jobs.specs.Sources.{IsImage};
ghost use Rattle.nor_console.specs.Requests.{AreRangesOf};
ghost use Rattle.flashnor.specs.Run.{ChangesChip, FailsToKeep, FailsToReadImage};
ghost use Rattle.nor_console.specs.Tasks.{journal_of};
ghost use Rattle.nor_console.specs.Stored.{IsNot, MakesNothing};

use nor_args::{Change, Emulated, JournalUse, Wanted};
use nor_chip::Meter;
use nor_console::{Answer, Fault, Outcome, request_for, session_in_file};
use nor_files::Store;
use nor_jobs::{Sources, asked_bytes};
use nor_journal::{MemVault, Vault};
use nor_probe::ChipName;
use nor_session::{Request, rehearse};

/// Changes the chip with the journal in a new file, or rehearses the change with the journal in memory. The outer error
/// is a fault of creating the journal's file, or error 18 if memory runs out.
#[tactic(auto, using(crate::proofs::Doing::does_change))]
pub fn change_or_rehearse<'a, R: Store, B: Meter>(
    rt: &mut R,
    bus: &mut B,
    chip: Emulated,
    named: Option<ChipName>,
    change: &Change<'a>,
    sources: Sources,
) -> Result<Outcome, Fault<'a>>
    requires ranges { AreRangesOf (R.state rt.old).view None change.now.regions sources.included }
    requires image { IsImage (R.state rt.old).view change.now.wanted sources.bytes.items }
    ensures nature { (R.state rt.new).view.nature ≡ (R.state rt.old).view.nature }
    ensures others { is_lawful (R.state rt.old).view ≡ true → (name : Name)
        → IsNot (R.state rt.old).view.nature (journal_of change.now.journal_use) name
        → KeepsFile name (R.state rt.old) (R.state rt.new) }
    ensures unmade { is_lawful (R.state rt.old).view ≡ true
        → OnErr result (MakesNothing (journal_of change.now.journal_use) (R.state rt.old) (R.state rt.new)) }
    ensures ok { IsModelled (B.state bus.old) → (B.state bus.old).punctual ≡ true → IsSteadyOrIdle (B.state bus.old)
        → IfOk result (ChangesChip (R.state rt.old).view (R.state rt.new) chip named change.now
        (B.state bus.old) (B.state bus.new)) }
    ensures err { IfErr result (λ fault. FailsToReadImage (R.state rt.old).view change.now.wanted fault
        ⊎ FailsToKeep (R.state rt.old).view change.now.journal_use fault) }
{
    let Sources { included, bytes } = sources;
    let request = request_for(change, named, included);
    let mut image = asked_bytes(rt.alloc(), change.wanted, chip.size(), bytes)?;
    change_with(rt, bus, &mut image, &request, &change.journal_use)
}

fn change_with<'a, R: Store, B: Meter>(
    rt: &mut R,
    bus: &mut B,
    image: &mut [u8],
    request: &Request,
    journal_use: &JournalUse<'a>,
) -> Result<Outcome, Fault<'a>>
    ensures nature { (R.state rt.new).view.nature ≡ (R.state rt.old).view.nature }
    ensures others { is_lawful (R.state rt.old).view ≡ true → (name : Name)
        → IsNot (R.state rt.old).view.nature (journal_of journal_use.now) name
        → KeepsFile name (R.state rt.old) (R.state rt.new) }
    ensures unmade { is_lawful (R.state rt.old).view ≡ true
        → OnErr result (MakesNothing (journal_of journal_use.now) (R.state rt.old) (R.state rt.new)) }
    ensures ok { IsModelled (B.state bus.old) → (B.state bus.old).punctual ≡ true → IsSteadyOrIdle (B.state bus.old)
        → IfOk result (HasMadeChange request.now image.old journal_use.now (B.state bus.old) (B.state bus.new)
        (R.state rt.old).view (R.state rt.new)) }
    ensures err { IfErr result (FailsToKeep (R.state rt.old).view journal_use.now) }
{
    match journal_use {
        JournalUse::Journal { file } => session_in_file(rt, bus, *file, image, request, |_| ()),
        JournalUse::Rehearse { stops } => {
            let mut vault = MemVault::new(rt.alloc());
            Ok(rehearse_change(bus, &mut vault, image, request, stops.as_slice()))
        }
    }
}

fn rehearse_change<B: Meter>(
    bus: &mut B,
    vault: &mut MemVault,
    image: &mut [u8],
    request: &Request,
    stops: &[u64],
) -> Outcome
    requires few { length stops.now ≤ 64 }
    requires fresh { IsFresh (⟦<MemVault as Vault>⟧.state vault.old) }
    ensures { IsModelled (B.state bus.old) → (B.state bus.old).punctual ≡ true → IsSteadyOrIdle (B.state bus.old)
        → HasRehearsed request.now image.old stops.now (B.state bus.old) (B.state bus.new)
        (⟦<MemVault as Vault>⟧.state vault.old) (⟦<MemVault as Vault>⟧.state vault.new) result }
{
    let rehearsal = rehearse(bus, vault, image, request, stops)?;
    Ok(Answer::Rehearsed(rehearsal))
}

//! The identification of a chip at the start of a session, restore or backup.
ghost use Rattle.std.specs.Prelude.{◌≡◌, ◌<◌, ◌≤◌, true, IfOk, IfErr, OnErr, IsTrue};
ghost use Rattle.nor_model.specs.Size.{is_chip_size};
ghost use Rattle.nor_driver.specs.OnlyReads.{OnlyReads, HasStopped};
ghost use Rattle.nor_probe.specs.Found.{most_probe};
ghost use Rattle.nor_scan.specs.Identity.{ReadsIdentity, ReadsRest, most_identity, needed_to_identify};
ghost use Rattle.nor_request.specs.declared.refusal.Refusal.TheVariants as Refusals;
ghost use Rattle.nor_request.specs.Errors.{IdentificationErrors};

use crate::identity::Identity;
use nor_driver::{read_status2, read_unique};
use nor_model::{Bus, Stopped};
use nor_probe::{ChipName, Probed, probe_counted};
use nor_request::Refusal;

/// Waits until the chip is ready, identifies it by its ID or SFDP, and reads status 2 and the unique ID. Sends at most
/// 65,542 transactions on a punctual bus.
///
/// Returns error 1 (no chip), 2 (unknown chip), 3 (the chip's name isn't `named`), 12 (the bus stopped) or 13 with
/// address 0 (the chip stayed busy; not on a well-behaved bus).
pub fn identify<B: Bus>(bus: &mut B, named: Option<ChipName>) -> Result<Identity, Refusal>
    ensures leaves { OnlyReads most_identity (B.state bus.old) (B.state bus.new) }
    ensures identifies { IfOk result (ReadsIdentity named (B.state bus.old) (B.state bus.new)) }
    ensures errors { IfErr result (IdentificationErrors most_identity named (B.state bus.old) (B.state bus.new)) }
    ensures exact { (B.state bus.old).honest ≡ true → (B.state bus.old).punctual ≡ true
        → IfErr result (λ refusal. refusal ≡ Refusals.Stopped
        → (B.state bus.old).left < needed_to_identify (B.state bus.old).further (B.state bus.old).chip) }
{
    let probed = probe_counted(bus, named)?;
    let identity = read_on(bus, probed)?;
    Ok(identity)
}

/// Reads status 2 and the unique ID of the chip that a probe found, with two transactions. Returns `Stopped` if the bus
/// stopped; a well-behaved, punctual bus then had fewer than two transactions left.
pub fn read_on<B: Bus>(bus: &mut B, probed: Probed) -> Result<Identity, Stopped>
    requires few { probed.transactions ≤ most_probe }
    requires sized { IsTrue (is_chip_size probed.found.size) }
    ensures leaves { OnlyReads 2 (B.state bus.old) (B.state bus.new) }
    ensures reads { IfOk result (ReadsRest probed (B.state bus.old) (B.state bus.new)) }
    ensures stops { OnErr result (HasStopped 2 (B.state bus.old) (B.state bus.new)) }
{
    let status2 = read_status2(bus)?;
    let unique = read_unique(bus)?;
    Ok(Identity {
        found: probed.found,
        status2,
        unique,
        transactions: probed.transactions + 2,
    })
}

//! The verification at the end of a session or restore.
ghost use Rattle.std.specs.Prelude.{◌≡◌, ◌<◌, ℕ, true, IfOk, IfErr, OnOk};
ghost use Rattle.nor_driver.specs.OnlyReads.{OnlyReads};
ghost use Rattle.nor_plan.specs.SectorSet.{has, LiesBelow};
ghost use Rattle.nor_session.specs.declared.checks.CheckFault.TheVariants as Faults;
ghost use Rattle.nor_geometry.specs.Counts.{sector_count};
ghost use Rattle.nor_session.specs.Checking.{DoesChecks, CheckErrors, NamesDifference, ChecksReply, ChecksReplies, of_check};
ghost use Rattle.nor_apply.specs.Change.{only, byte_of};

use nor_apply::Source;
use nor_driver::read_sector;
use nor_geometry::{MOST_SECTORS, SECTOR_LEN};
use nor_model::{Bus, Stopped};
use nor_plan::{SectorSet, bounds};
use nor_request::Refusal;

#[derive(Clone, Copy, Debug, PartialEq, Eq)]
pub(crate) enum CheckFault {
    Stopped,
    Mismatch { address: u32 },
}

impl From<Stopped> for CheckFault {
    ghost from_gives = { λ _ fault. fault ≡ Faults.Stopped };

    fn from(_: Stopped) -> CheckFault {
        CheckFault::Stopped
    }
}

impl From<CheckFault> for Refusal {
    ghost from_gives = { λ fault refusal. refusal ≡ of_check fault };

    fn from(fault: CheckFault) -> Refusal {
        match fault {
            CheckFault::Stopped => Refusal::Stopped,
            CheckFault::Mismatch { address } => Refusal::Mismatch { address },
        }
    }
}

pub(crate) fn check_all<B: Bus, S: Source>(
    bus: &mut B,
    source: &S,
    touched: &SectorSet,
) -> Result<u64, CheckFault>
    requires sourced { (s : ℕ) → has touched.now s ≡ true → S.has source.now s ≡ true }
    ensures leaves { OnlyReads (sector_count (has touched.now)) (B.state bus.old) (B.state bus.new) }
    ensures does { IfOk result
        (DoesChecks (has touched.now) (S.wanted source.now) (B.state bus.old) (B.state bus.new)) }
    ensures errors { IfErr result
        (CheckErrors (has touched.now) (S.wanted source.now) (B.state bus.old) (B.state bus.new)) }
    ensures names { IfErr result (NamesDifference (has touched.now)) }
    ensures replies { LiesBelow touched.now 4096 → ChecksReplies (has touched.now) (S.wanted source.now)
        (B.state bus.old).history (B.state bus.new).history result }
{
    let mut sent = 0;
    let mut bytes = [0; SECTOR_LEN as usize];
    for sector in 0..MOST_SECTORS {
        if touched.contains(sector) {
            check_sector(bus, sector, source.sector(sector), &mut bytes)?;
            sent += 1;
        }
    }
    Ok(sent)
}

fn check_sector<B: Bus>(
    bus: &mut B,
    sector: u32,
    wanted: &[u8; SECTOR_LEN as usize],
    bytes: &mut [u8; SECTOR_LEN as usize],
) -> Result<(), CheckFault>
    requires reachable { sector < 4096 }
    ensures leaves { OnlyReads 1 (B.state bus.old) (B.state bus.new) }
    ensures does { OnOk result
        (DoesChecks (only sector) (byte_of sector wanted.now) (B.state bus.old) (B.state bus.new) 1) }
    ensures errors { IfErr result
        (CheckErrors (only sector) (byte_of sector wanted.now) (B.state bus.old) (B.state bus.new)) }
    ensures names { IfErr result (NamesDifference (only sector)) }
    ensures replies { ChecksReply sector wanted.now (B.state bus.old).history (B.state bus.new).history result }
{
    read_sector(bus, sector, &mut *bytes)?;
    match bounds(&*bytes, wanted) {
        None => Ok(()),
        Some((first, _)) => {
            let address = SECTOR_LEN * sector + first as u32;
            Err(CheckFault::Mismatch { address })
        }
    }
}

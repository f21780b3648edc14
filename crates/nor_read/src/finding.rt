//! Identifies the chip, and makes the report of `read_out` and `verify`.
ghost use Rattle.std.specs.Prelude.{◌≡◌, ◌≤◌, ◌+◌, IfOk, IfErr};
ghost use Rattle.nor_driver.specs.OnlyReads.{OnlyReads};
ghost use Rattle.nor_probe.specs.Found.{most_probe};
ghost use Rattle.nor_request.specs.Errors.{IdentificationErrors};
ghost use Rattle.nor_read.specs.Finding.{HasFound};

use nor_model::Bus;
use nor_probe::{ChipName, Probed, probe_counted};
use nor_request::{Refusal, Report};

/// Waits until the chip is ready, and identifies it by its ID or SFDP. Sends at most 65,540 transactions on a punctual
/// bus.
///
/// Returns error 1 (no chip), 2 (unknown chip), 3 (the chip's name isn't `named`), 12 (the bus stopped) or 13 with
/// address 0 (the chip stayed busy; not on a well-behaved bus).
pub fn find<B: Bus>(bus: &mut B, named: Option<ChipName>) -> Result<Probed, Refusal>
    ensures leaves { OnlyReads most_probe (B.state bus.old) (B.state bus.new) }
    ensures finds { IfOk result (HasFound named (B.state bus.old) (B.state bus.new)) }
    ensures errors { IfErr result (IdentificationErrors most_probe named (B.state bus.old) (B.state bus.new)) }
{
    let probed = probe_counted(bus, named)?;
    Ok(probed)
}

/// Returns the report of a call that found the chip in `probed` and then read `reads` sectors.
pub fn report(probed: Probed, reads: u32) -> Report
    requires { probed.transactions ≤ most_probe }
    ensures found { result.found ≡ probed.found }
    ensures touched { result.touched ≡ 0 }
    ensures erases { result.erases ≡ 0 }
    ensures programs { result.programs ≡ 0 }
    ensures transactions { result.transactions ≡ probed.transactions + reads }
{
    Report {
        found: probed.found,
        touched: 0,
        erases: 0,
        programs: 0,
        transactions: probed.transactions + u64::from(reads),
    }
}

//! The erases of a set of sectors.
ghost use Rattle.std.specs.Prelude.{◌≤◌, ◌*◌, ◌/◌, IfOk, IfErr};
ghost use Rattle.nor_driver.specs.Operations.{most_operation};
ghost use Rattle.nor_plan.specs.SectorSet.{has, LiesBelow};
ghost use Rattle.nor_geometry.specs.Counts.{sector_count};
ghost use Rattle.nor_driver.specs.Waits.{OperationFails};
ghost use Rattle.nor_apply.specs.Spending.{NamesTimeoutIn};
ghost use Rattle.nor_apply.specs.Erasing.{LeavesErases, DoesErases};

use crate::tally::Tally;
use nor_driver::{OperationError, erase};
use nor_model::{Bus, Kinds};
use nor_plan::{SectorSet, erases};

/// Erases the raised sectors, which must lie on the chip of `size` bytes (at most 16 MiB), with the fewest erases.
/// Returns `Stopped` if the bus stopped, and `Timeout` with an address in a raised sector if the chip stayed busy for
/// 65,536 polls.
pub fn erase_all<B: Bus>(
    bus: &mut B,
    raised: &SectorSet,
    kinds: Kinds,
    size: u32,
) -> Result<Tally, OperationError>
    requires inside { LiesBelow raised.now (size / 4096) }
    requires small { size ≤ 16777216 }
    ensures leaves { LeavesErases (has raised.now) kinds size (B.state bus.old) (B.state bus.new) }
    ensures does { IfOk result (DoesErases (has raised.now) kinds size (B.state bus.old) (B.state bus.new)) }
    ensures fails { IfErr result
        (OperationFails (most_operation * sector_count (has raised.now)) (B.state bus.old) (B.state bus.new)) }
    ensures names { IfErr result (NamesTimeoutIn (has raised.now)) }
{
    let mut tally = Tally::NONE;
    for unit in erases(raised, kinds, size) {
        let sent = erase(bus, unit)?;
        tally.count += 1;
        tally.transactions += u64::from(sent);
    }
    Ok(tally)
}

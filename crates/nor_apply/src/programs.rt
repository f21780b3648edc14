//! The page programs of a set of sectors.
ghost use Rattle.std.specs.Prelude.{◌≡◌, ◌<◌, ◌*◌, ℕ, true, IfOk, IfErr, OnErr};
ghost use Rattle.nor_plan.specs.SectorSet.{has};
ghost use Rattle.nor_geometry.specs.Counts.{sector_count};
ghost use Rattle.nor_driver.specs.Waits.{OperationFails};
ghost use Rattle.nor_apply.specs.Spending.{NamesTimeoutIn};
ghost use Rattle.nor_apply.specs.Change.{only};
ghost use Rattle.nor_driver.specs.OnlyReads.{OnlyReads, HasStopped};
ghost use Rattle.nor_apply.specs.Programming.{CanProgramSpans, CanProgramSector, LeavesSector, DoesSector, LoadsOk};
ghost use Rattle.nor_apply.specs.Programming.{LeavesPrograms, DoesPrograms, most_pages, most_sector};

use crate::Source;
use crate::tally::Tally;
use nor_driver::{OperationError, program_page, read_sector};
use nor_geometry::{MOST_SECTORS, SECTOR_LEN};
use nor_model::{Bus, Stopped};
use nor_plan::{SectorSet, spans};

/// Programs the touched sectors with the bytes of `source`, which must have every touched sector. Pages that already
/// have these bytes are left out. A raised sector isn't read: `program_all` assumes that its bytes are FFh.
///
/// Returns `Stopped` if the bus stopped, and `Timeout` with an address in a touched sector if the chip stayed busy for
/// 65,536 polls.
pub fn program_all<B: Bus, S: Source>(
    bus: &mut B,
    source: &S,
    touched: &SectorSet,
    raised: &SectorSet,
) -> Result<Tally, OperationError>
    requires sourced { (s : ℕ) → has touched.now s ≡ true → S.has source.now s ≡ true }
    ensures leaves { LeavesPrograms (has touched.now) (has raised.now) (S.wanted source.now)
        (B.state bus.old) (B.state bus.new) }
    ensures does { IfOk result
        (DoesPrograms (has touched.now) (has raised.now) (S.wanted source.now) (B.state bus.old) (B.state bus.new)) }
    ensures fails { IfErr result
        (OperationFails (most_sector * sector_count (has touched.now)) (B.state bus.old) (B.state bus.new)) }
    ensures names { IfErr result (NamesTimeoutIn (has touched.now)) }
{
    let mut tally = Tally::NONE;
    for sector in 0..MOST_SECTORS {
        if !touched.contains(sector) {
            continue;
        }
        let more = program_sector(bus, sector, source.sector(sector), raised.contains(sector))?;
        tally.count += more.count;
        tally.transactions += more.transactions;
    }
    Ok(tally)
}

fn program_sector<B: Bus>(
    bus: &mut B,
    sector: u32,
    wanted: &[u8; SECTOR_LEN as usize],
    erased: bool,
) -> Result<Tally, OperationError>
    requires { sector < 4096 }
    ensures leaves { LeavesSector most_sector (CanProgramSector sector wanted.now erased) sector wanted.now
        (B.state bus.old) (B.state bus.new) }
    ensures does { IfOk result (DoesSector 1 (CanProgramSector sector wanted.now erased) sector wanted.now
        (B.state bus.old) (B.state bus.new)) }
    ensures fails { IfErr result (OperationFails most_sector (B.state bus.old) (B.state bus.new)) }
    ensures names { IfErr result (NamesTimeoutIn (only sector)) }
{
    let mut old = [0xFF; SECTOR_LEN as usize];
    let reads = load(bus, sector, erased, &mut old)?;
    let tally = program_spans(bus, sector, &old, wanted)?;
    Ok(Tally {
        count: tally.count,
        transactions: tally.transactions + reads,
    })
}

fn load<B: Bus>(
    bus: &mut B,
    sector: u32,
    erased: bool,
    bytes: &mut [u8; SECTOR_LEN as usize],
) -> Result<u64, Stopped>
    requires { sector < 4096 }
    ensures leaves { OnlyReads 1 (B.state bus.old) (B.state bus.new) }
    ensures loads { IfOk result (LoadsOk sector erased bytes.old bytes.new (B.state bus.old) (B.state bus.new)) }
    ensures stops { OnErr result (HasStopped 1 (B.state bus.old) (B.state bus.new)) }
{
    if erased {
        return Ok(0);
    }
    read_sector(bus, sector, &mut *bytes)?;
    Ok(1)
}

fn program_spans<B: Bus>(
    bus: &mut B,
    sector: u32,
    old: &[u8; SECTOR_LEN as usize],
    wanted: &[u8; SECTOR_LEN as usize],
) -> Result<Tally, OperationError>
    requires { sector < 4096 }
    ensures leaves { LeavesSector most_pages (CanProgramSpans sector old.now wanted.now) sector wanted.now
        (B.state bus.old) (B.state bus.new) }
    ensures does { IfOk result (DoesSector 0 (CanProgramSpans sector old.now wanted.now) sector wanted.now
        (B.state bus.old) (B.state bus.new)) }
    ensures fails { IfErr result (OperationFails most_pages (B.state bus.old) (B.state bus.new)) }
    ensures names { IfErr result (NamesTimeoutIn (only sector)) }
{
    let mut tally = Tally::NONE;
    for span in spans(old, wanted) {
        let address = SECTOR_LEN * sector + span.first as u32;
        let sent = program_page(bus, address, &wanted[span.first..span.last + 1])?;
        tally.count += 1;
        tally.transactions += u64::from(sent);
    }
    Ok(tally)
}

//! The call `read_out`, which copies a chip to a vault.
ghost use Rattle.std.specs.Prelude.{◌≡◌, ◌<◌, ◌/◌, true, false, length, IfOk, IfErr, OnOk, OnErr, IsTrue, option_copied};
ghost use Rattle.nor_model.specs.Size.{is_chip_size};
ghost use Rattle.nor_driver.specs.OnlyReads.{OnlyReads, HasStopped};
ghost use Rattle.nor_journal.specs.Vault.{Took};
ghost use Rattle.nor_read.specs.Finding.{IsModelled};
ghost use Rattle.nor_read.specs.Reading.{ReadOutAlways, ReadOutHonest, ReadOutModelled};
ghost use Rattle.nor_read.specs.Reading.{ReadsPart, ReadsPiece, ReadsPieces, CopyErrors, PutErrors};

use crate::finding::{find, report};
use nor_driver::read_sector;
use nor_geometry::SECTOR_LEN;
use nor_journal::Vault;
use nor_layout::{Ranges, blank_excluded, includes_in_sector, reaches_past};
use nor_model::{Bus, Stopped};
use nor_probe::ChipName;
use nor_request::{Refusal, Report};

const PIECE_LEN: usize = 65_536;

/// Appends a copy of the whole chip to `out`: the chip's byte at each included address (at every address if `included`
/// is `None`), and FFh at all others. Reads each sector that has an included address once. The vault must be unsealed,
/// and the call does not seal it.
///
/// On any bus, the bytes that a faithful `out` (`telling`) accepts at included addresses are those of the bus's replies
/// during this call. If the bus is modelled, success leaves the copy of the chip in a faithful `out`, after the bytes
/// that `out` held before.
///
/// Returns error 1 (no chip), 2 (unknown chip), 3 (other name), 5 (an included address isn't on the chip), 12 (the bus
/// stopped), 13 (the chip stayed busy; not on a well-behaved bus) or 19 (the vault failed, with the number of bytes
/// that a faithful vault accepted during this call).
pub fn read_out<B: Bus, V: Vault>(
    bus: &mut B,
    included: Option<&Ranges>,
    named: Option<ChipName>,
    out: &mut V,
) -> Result<Report, Refusal>
    requires unsealed { (V.state out.old).sealed ≡ false }
    ensures always { ReadOutAlways named (option_copied included.entry)
        (B.state bus.old) (B.state bus.new) (V.state out.old) (V.state out.new) result }
    ensures honest { (B.state bus.old).honest ≡ true → ReadOutHonest named (option_copied included.entry)
        (B.state bus.old) (B.state bus.new) result }
    ensures modelled { IsModelled (B.state bus.old) → ReadOutModelled named (option_copied included.entry)
        (B.state bus.old) (B.state bus.new) (V.state out.old) (V.state out.new) result }
{
    let probed = find(bus, named)?;
    if reaches_past(included, probed.found.size) {
        return Err(Refusal::RegionOutside);
    }
    let reads = copy_all(bus, included, probed.found.size, out)?;
    Ok(report(probed, reads))
}

fn copy_all<B: Bus, V: Vault>(
    bus: &mut B,
    included: Option<&Ranges>,
    size: u32,
    out: &mut V,
) -> Result<u32, Refusal>
    requires sized { IsTrue (is_chip_size size) }
    requires unsealed { (V.state out.old).sealed ≡ false }
    ensures leaves { OnlyReads (size / 4096) (B.state bus.old) (B.state bus.new) }
    ensures reads { IfOk result (ReadsPieces (option_copied included.entry) size (size / 65536)
        (B.state bus.old) (B.state bus.new) (V.state out.old) (V.state out.new)) }
    ensures errors { IfErr result (CopyErrors (option_copied included.entry) size
        (B.state bus.old) (B.state bus.new) (V.state out.old) (V.state out.new)) }
{
    let mut reads = 0;
    let mut bytes = [0; PIECE_LEN];
    for piece in 0..size / PIECE_LEN as u32 {
        reads += read_piece(bus, included, piece, &mut bytes)?;
        put_piece(out, piece, &bytes)?;
    }
    Ok(reads)
}

fn read_piece<B: Bus>(
    bus: &mut B,
    included: Option<&Ranges>,
    piece: u32,
    bytes: &mut [u8; PIECE_LEN],
) -> Result<u32, Stopped>
    requires { piece < 256 }
    ensures leaves { OnlyReads 16 (B.state bus.old) (B.state bus.new) }
    ensures reads { IfOk result
        (ReadsPiece (option_copied included.entry) piece 16 bytes.new (B.state bus.old) (B.state bus.new)) }
    ensures stops { OnErr result (HasStopped 16 (B.state bus.old) (B.state bus.new)) }
{
    let mut reads = 0;
    for k in 0..16 {
        let start = (SECTOR_LEN * k) as usize;
        let part = &mut bytes[start..start + SECTOR_LEN as usize];
        reads += read_part(bus, included, 16 * piece + k, part)?;
    }
    Ok(reads)
}

fn read_part<B: Bus>(
    bus: &mut B,
    included: Option<&Ranges>,
    sector: u32,
    bytes: &mut [u8],
) -> Result<u32, Stopped>
    requires reachable { sector < 4096 }
    requires whole { length bytes.old ≡ 4096 }
    ensures leaves { OnlyReads 1 (B.state bus.old) (B.state bus.new) }
    ensures reads { IfOk result
        (ReadsPart (option_copied included.entry) sector bytes.new (B.state bus.old) (B.state bus.new)) }
    ensures stops { OnErr result (HasStopped 1 (B.state bus.old) (B.state bus.new)) }
{
    if !includes_in_sector(included, sector) {
        bytes.fill(0xFF);
        return Ok(0);
    }
    read_sector(bus, sector, &mut *bytes)?;
    blank_excluded(included, sector, &mut *bytes);
    Ok(1)
}

fn put_piece<V: Vault>(out: &mut V, piece: u32, bytes: &[u8; PIECE_LEN]) -> Result<(), Refusal>
    requires reachable { piece < 256 }
    requires unsealed { (V.state out.old).sealed ≡ false }
    ensures takes { OnOk result (Took (V.state out.old) bytes.now (V.state out.new)) }
    ensures errors { IfErr result (PutErrors piece bytes.now (V.state out.old) (V.state out.new)) }
{
    out.put(bytes).map_err(|fault| Refusal::Output {
        written: PIECE_LEN as u64 * u64::from(piece) + fault.kept as u64,
    })
}

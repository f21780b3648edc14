//! The call `verify`, which compares a chip with an image.
ghost use Rattle.std.specs.Prelude.{◌≡◌, ◌<◌, ◌≤◌, ◌+◌, ◌*◌, ◌/◌, ℕ, true, length, IfOk, OnErr, IsTrue, option_copied};
ghost use Rattle.nor_model.specs.Size.{is_chip_size};
ghost use Rattle.nor_driver.specs.OnlyReads.{OnlyReads, HasStopped};
ghost use Rattle.nor_layout.specs.Sectors.{AreOfSector};
ghost use Rattle.nor_read.specs.Finding.{IsModelled};
ghost use Rattle.nor_read.specs.Verifying.{VerifyAlways, VerifyHonest, VerifyModelled};
ghost use Rattle.nor_read.specs.Verifying.{ComparesPart, ComparesBelow, FindsFirst};

use crate::finding::{find, report};
use nor_driver::read_sector;
use nor_geometry::SECTOR_LEN;
use nor_layout::{Ranges, fill_excluded, includes_in_sector, reaches_past};
use nor_model::{Bus, Stopped};
use nor_plan::bounds;
use nor_probe::ChipName;
use nor_request::{Refusal, Report};

#[derive(Clone, Copy)]
struct Compared {
    first: Option<u32>,
    reads: u32,
}

/// Compares the chip with an image at the included addresses (at every address if `included` is `None`). Reads each
/// sector that has an included address once, even after a difference was found. On any bus success means that the
/// replies have the image's byte at each included address; on a modelled bus the chip then has these bytes.
///
/// Returns error 1 (no chip), 2 (unknown chip), 3 (other name), 4 (the image isn't as long as the chip), 5 (an included
/// address isn't on the chip), 12 (the bus stopped), 13 (the chip stayed busy; not on a well-behaved bus), or 14 with
/// the first included address at which the bytes that were read and the image differ.
pub fn verify<B: Bus>(
    bus: &mut B,
    image: &[u8],
    included: Option<&Ranges>,
    named: Option<ChipName>,
) -> Result<Report, Refusal>
    ensures always { VerifyAlways named (option_copied included.entry) image.now
        (B.state bus.old) (B.state bus.new) result }
    ensures honest { (B.state bus.old).honest ≡ true → VerifyHonest named (option_copied included.entry)
        (B.state bus.old) (B.state bus.new) result }
    ensures modelled { IsModelled (B.state bus.old) → VerifyModelled named (option_copied included.entry) image.now
        (B.state bus.old) (B.state bus.new) result }
{
    let probed = find(bus, named)?;
    let size = probed.found.size;
    if image.len() != size as usize {
        return Err(Refusal::ImageSize {
            chip: size,
            image: image.len(),
        });
    }
    if reaches_past(included, size) {
        return Err(Refusal::RegionOutside);
    }
    let compared = compare_all(bus, image, included, size)?;
    match compared.first {
        None => Ok(report(probed, compared.reads)),
        Some(address) => Err(Refusal::Mismatch { address }),
    }
}

fn compare_all<B: Bus>(
    bus: &mut B,
    image: &[u8],
    included: Option<&Ranges>,
    size: u32,
) -> Result<Compared, Stopped>
    requires sized { IsTrue (is_chip_size size) }
    requires whole { length image.now ≡ size }
    ensures leaves { OnlyReads (size / 4096) (B.state bus.old) (B.state bus.new) }
    ensures compares { IfOk result
        (ComparesBelow (option_copied included.entry) image.now size (size / 4096)
        (B.state bus.old) (B.state bus.new)) }
    ensures stops { OnErr result (HasStopped (size / 4096) (B.state bus.old) (B.state bus.new)) }
{
    let mut first = None;
    let mut reads = 0;
    let mut bytes = [0; SECTOR_LEN as usize];
    for sector in 0..size / SECTOR_LEN {
        let part = compare_part(bus, image, included, sector, &mut bytes)?;
        first = first.or(part.first);
        reads += part.reads;
    }
    Ok(Compared { first, reads })
}

fn compare_part<B: Bus>(
    bus: &mut B,
    image: &[u8],
    included: Option<&Ranges>,
    sector: u32,
    bytes: &mut [u8; SECTOR_LEN as usize],
) -> Result<Compared, Stopped>
    requires reachable { sector < 4096 }
    requires inside { 4096 * sector + 4096 ≤ length image.now }
    ensures leaves { OnlyReads 1 (B.state bus.old) (B.state bus.new) }
    ensures compares { IfOk result
        (ComparesPart (option_copied included.entry) image.now sector (B.state bus.old) (B.state bus.new)) }
    ensures stops { OnErr result (HasStopped 1 (B.state bus.old) (B.state bus.new)) }
{
    if !includes_in_sector(included, sector) {
        return Ok(Compared {
            first: None,
            reads: 0,
        });
    }
    read_sector(bus, sector, &mut *bytes)?;
    let first = first_other(image, included, sector, bytes);
    Ok(Compared { first, reads: 1 })
}

// Returns the sector's first included address, if any, at which `bytes` and the image differ. Overwrites the bytes at
// excluded addresses.
fn first_other(
    image: &[u8],
    included: Option<&Ranges>,
    sector: u32,
    bytes: &mut [u8; SECTOR_LEN as usize],
) -> Option<u32>
    requires reachable { sector < 4096 }
    requires inside { 4096 * sector + 4096 ≤ length image.now }
    ensures { (content : ℕ → ℕ) → AreOfSector content sector bytes.old
        → FindsFirst (option_copied included.entry) image.now content (4096 * sector) (4096 * (sector + 1)) result }
{
    let start = (SECTOR_LEN * sector) as usize;
    let part = &image[start..start + SECTOR_LEN as usize];
    fill_excluded(included, sector, &mut *bytes, part);
    let (first, _) = bounds(&*bytes, part)?;
    Some(SECTOR_LEN * sector + first as u32)
}

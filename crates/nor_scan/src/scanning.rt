//! The scan for a write or an erase: it reads the sectors with an included address, and journals the touched ones.
ghost use Rattle.std.specs.Prelude.{◌≡◌, ◌≢◌, ◌<◌, ◌≤◌, ◌+◌, ◌*◌, ◌/◌, ℕ, Bool, true, false, length, IfOk, IfErr, OnOk, OnErr, IsTrue};
ghost use Rattle.nor_model.specs.Size.{is_chip_size};
ghost use Rattle.nor_model.specs.History.{KeepsReplies, begins_with};
ghost use Rattle.nor_driver.specs.ReadBack.{bytes_read};
ghost use Rattle.nor_driver.specs.OnlyReads.{OnlyReads, HasStopped, IsOpen};
ghost use Rattle.nor_journal.specs.Text.{Content};
ghost use Rattle.nor_journal.specs.Writer.{vault_of, vault_seen, HasPutSectors};
ghost use Rattle.nor_plan.specs.SectorSet.{has, none};
ghost use Rattle.nor_request.specs.Request.{scanned_sectors, is_data};
ghost use Rattle.nor_plan.specs.Content.{is_touched};
ghost use Rattle.nor_scan.specs.Scanning.{HasMarked, IsBlank, ScansSector, Scans, ScanErrors, ScanPuts};
ghost use Rattle.nor_scan.specs.Scanning.{HoldsCut, HasKeptBelow, wanted_at};
ghost use Rattle.nor_request.specs.declared.refusal.Refusal.TheVariants as Refusals;

use nor_driver::read_sector;
use nor_geometry::SECTOR_LEN;
use nor_journal::{Vault, Writer};
use nor_layout::{fill_excluded, includes_in_sector};
use nor_model::{Bus, Stopped};
use nor_plan::{Plan, SectorPlan, SectorSet};
use nor_request::{Refusal, Request, What};

/// The result of a scan: the touched and the raised sectors, the number of touched sectors (`count`), and the number of
/// sectors that were read (`reads`). A rewrite scans no sector, and sets both numbers to the number of saved sectors.
#[derive(Clone, Copy)]
pub struct Scanned {
    pub touched: SectorSet,
    pub raised: SectorSet,
    pub count: u32,
    pub reads: u32,
}

impl Scanned {
    pub fn none() -> Scanned
        ensures { IsBlank result }
    {
        Scanned {
            touched: SectorSet::new(),
            raised: SectorSet::new(),
            count: 0,
            reads: 0,
        }
    }

    /// Adds `sector` to the touched and to the raised sectors, as `plan` says. Increments `reads` and, if the sector is
    /// touched, `count`. `sector` and `reads` must be below 4,096, and `count` must be at most `reads`.
    pub fn mark(&mut self, sector: u32, plan: SectorPlan)
        requires reachable { sector < 4096 }
        requires room { self.old.count ≤ self.old.reads }
        requires few { self.old.reads < 4096 }
        ensures { HasMarked sector plan self.old self.new }
    {
        if plan.touched {
            self.touched.insert(sector);
            self.count += 1;
        }
        if plan.raised {
            self.raised.insert(sector);
        }
        self.reads += 1;
    }
}

fn scan_sector<B: Bus>(
    bus: &mut B,
    request: &Request,
    sector: u32,
    part: &mut [u8],
    bytes: &mut [u8; SECTOR_LEN as usize],
    size: u32,
) -> Result<SectorPlan, Stopped>
    requires inside { 4096 * sector + 4096 ≤ size }
    requires small { size ≤ 16777216 }
    requires whole { length part.old ≡ 4096 }
    requires data { is_data request.now.what ≡ true }
    ensures leaves { OnlyReads 1 (B.state bus.old) (B.state bus.new) }
    ensures scans { IfOk result
        (ScansSector request.now size sector part.old part.new bytes.new (B.state bus.old) (B.state bus.new)) }
    ensures stops { OnErr result (HasStopped 1 (B.state bus.old) (B.state bus.new)) }
{
    read_sector(bus, sector, &mut *bytes)?;
    if let What::Erase = request.what {
        part.fill(0xFF);
    }
    fill_excluded(request.included.as_ref(), sector, &mut *part, &*bytes);
    Ok(Plan::of(&*bytes, &*part))
}

/// Reads each sector with an included address, in ascending order, sets the sector's part of the image to the target
/// bytes, and writes the touched sectors to the journal. For a protection range no sector is read.
///
/// `size` must be a valid chip size in bytes, and for a write or an erase the length of the image. The vault must be
/// unsealed. Returns error 11 (the vault failed) or 12 (the bus stopped).
pub fn scan_all<B: Bus, V: Vault>(
    bus: &mut B,
    writer: &mut Writer<'_, V>,
    image: &mut [u8],
    request: &Request,
    size: u32,
) -> Result<Scanned, Refusal>
    requires sized { IsTrue (is_chip_size size) }
    requires whole { is_data request.now.what ≡ true → length image.old ≡ size }
    requires unsealed { (vault_seen V.state writer.old).sealed ≡ false }
    ensures leaves { OnlyReads (scanned_sectors request.now size) (B.state bus.old) (B.state bus.new) }
    ensures scans { IfOk result (Scans request.now size image.old image.new (B.state bus.old) (B.state bus.new)) }
    ensures same_vault { (vault_of writer.new).ghost_name ≡ (vault_of writer.old).ghost_name }
    ensures puts { ScanPuts result (vault_seen V.state writer.old) (vault_seen V.state writer.new) }
    ensures errors { IfErr result (ScanErrors (scanned_sectors request.now size) (B.state bus.old) (B.state bus.new)) }
    ensures keeps { IsOpen size (B.state bus.old) → (head : Content) → head.size ≡ size
        → HasPutSectors V.state writer.old head (B.state bus.old).chip.bytes none 0
        → IfOk result (λ scanned. HasPutSectors V.state writer.new head (B.state bus.old).chip.bytes
        (has scanned.touched) (size / 4096)) }
    ensures begins { IsOpen size (B.state bus.old) → (head : Content) → head.size ≡ size
        → HasPutSectors V.state writer.old head (B.state bus.old).chip.bytes none 0
        → IfErr result (λ refusal. refusal ≢ Refusals.Vault
        → HasKeptBelow V.state writer.new head (B.state bus.old).chip.bytes (is_touched (B.state bus.old).chip.bytes
        (wanted_at request.now image.old size (B.state bus.old).chip.bytes)) (size / 4096)) }
    ensures cut { IsOpen size (B.state bus.old) → (head : Content) → head.size ≡ size
        → HasPutSectors V.state writer.old head (B.state bus.old).chip.bytes none 0
        → OnErr result (HoldsCut (vault_seen V.state writer.new) head (B.state bus.old).chip.bytes
        (is_touched (B.state bus.old).chip.bytes
        (wanted_at request.now image.old size (B.state bus.old).chip.bytes)) (size / 4096)) }
    ensures writes { (head : Content) (bytes : ℕ → ℕ) → head.size ≡ size
        → HasPutSectors V.state writer.old head bytes none 0
        → IfErr result (λ refusal. refusal ≢ Refusals.Vault → (read : ℕ → ℕ) × (sectors : ℕ → Bool)
        × HasPutSectors V.state writer.new head read sectors (size / 4096)) }
    ensures replies { OnOk result
        (KeepsReplies (begins_with 0x03) (B.state bus.old).history (B.state bus.new).history) }
    ensures replied { (head : Content) → head.size ≡ size
        → HasPutSectors V.state writer.old head (bytes_read (B.state bus.new).history) none 0
        → IfOk result (λ scanned. HasPutSectors V.state writer.new head (bytes_read (B.state bus.new).history)
        (has scanned.touched) (size / 4096)) }
{
    let mut scanned = Scanned::none();
    let mut bytes = [0; SECTOR_LEN as usize];
    let sectors = if request.is_data() {
        size / SECTOR_LEN
    } else {
        0
    };
    for sector in 0..sectors {
        if includes_in_sector(request.included.as_ref(), sector) {
            let start = (SECTOR_LEN * sector) as usize;
            let part = &mut image[start..start + SECTOR_LEN as usize];
            let plan = scan_sector(bus, request, sector, part, &mut bytes, size)?;
            if plan.touched {
                writer.add(sector, &bytes)?;
            }
            scanned.mark(sector, plan);
        }
    }
    Ok(scanned)
}

//! The call `save_whole`, which saves a whole chip in a journal, and doesn't change the chip.
ghost use Rattle.std.specs.Prelude.{◌≡◌, ◌/◌, ℕ, true, false, IfErr, OnOk, OnErr, IsTrue};
ghost use Rattle.nor_model.specs.Size.{is_chip_size};
ghost use Rattle.nor_model.specs.History.{KeepsReplies, begins_with};
ghost use Rattle.nor_driver.specs.OnlyReads.{OnlyReads, IsOpen};
ghost use Rattle.nor_driver.specs.ReadsInTurn.{HasOnlyRead};
ghost use Rattle.nor_journal.specs.Text.{Content};
ghost use Rattle.nor_journal.specs.Saved.{JournalSaves};
ghost use Rattle.nor_journal.specs.Vault.{IsFresh, Accepted, Completed};
ghost use Rattle.nor_journal.specs.Writer.{vault_of, vault_seen, HasPutSectors};
ghost use Rattle.nor_plan.specs.SectorSet.{none};
ghost use Rattle.nor_driver.specs.ReadBack.{bytes_read};
ghost use Rattle.nor_scan.specs.Saving.{header_found};
ghost use Rattle.nor_scan.specs.Scanning.{HoldsCut, sectors_below};
ghost use Rattle.nor_scan.specs.SavedWhole.{HasWholeChip, BeginsWholeChip, SaveWholeErrors};

use crate::identity::Identity;
use nor_driver::read_sector;
use nor_geometry::SECTOR_LEN;
use nor_journal::{Vault, Writer};
use nor_model::Bus;
use nor_request::Refusal;

/// Saves every sector of the identified chip in a journal, and seals the vault. Sends at most one read for each sector,
/// and no other transaction. The vault must be empty and unsealed before the call.
///
/// After success on any bus, a faithful vault (`telling`) holds a journal of all sectors of a chip of the size that was
/// found. Each record has the bytes of the last reply to a read of its sector.
///
/// Returns error 11 (the vault failed) or 12 (the bus stopped). After an error the vault is unsealed; if the bus is
/// well-behaved with an idle chip that `identity` describes, a faithful vault holds a prefix of the chip's journal.
pub fn save_whole<B: Bus, V: Vault>(
    bus: &mut B,
    vault: &mut V,
    identity: &Identity,
) -> Result<(), Refusal>
    requires fresh { IsFresh (V.state vault.old) }
    ensures leaves { OnlyReads (identity.now.found.size / 4096) (B.state bus.old) (B.state bus.new) }
    ensures reads { OnOk result (HasOnlyRead (identity.now.found.size / 4096) (B.state bus.old) (B.state bus.new)) }
    ensures seals { OnOk result (Completed (V.state vault.old) (V.state vault.new)) }
    ensures replies { OnOk result
        (KeepsReplies (begins_with 0x03) (B.state bus.old).history (B.state bus.new).history) }
    ensures replied { OnOk result ((V.state vault.new).telling ≡ true
        → JournalSaves (header_found identity.now) (bytes_read (B.state bus.new).history)
        (sectors_below (identity.now.found.size / 4096)) (V.state vault.new).bytes) }
    ensures saves { OnOk result (HasWholeChip identity.now (B.state bus.old) (V.state vault.new)) }
    ensures cut { OnErr result (BeginsWholeChip identity.now (B.state bus.old) (V.state vault.new)) }
    ensures errors { IfErr result (SaveWholeErrors (identity.now.found.size / 4096) (B.state bus.old) (B.state bus.new)
        (V.state vault.old) (V.state vault.new)) }
{
    let size = identity.found.size;
    let mut writer = Writer::on(vault);
    writer.header(
        identity.found.id,
        identity.unique,
        identity.status().kept().bytes(),
        size,
    )?;
    add_sectors(bus, &mut writer, size)?;
    writer.end()?;
    Ok(())
}

fn add_sectors<B: Bus, V: Vault>(
    bus: &mut B,
    writer: &mut Writer<'_, V>,
    size: u32,
) -> Result<(), Refusal>
    requires sized { IsTrue (is_chip_size size) }
    requires unsealed { (vault_seen V.state writer.old).sealed ≡ false }
    ensures leaves { OnlyReads (size / 4096) (B.state bus.old) (B.state bus.new) }
    ensures reads { OnOk result (HasOnlyRead (size / 4096) (B.state bus.old) (B.state bus.new)) }
    ensures same_vault { (vault_of writer.new).ghost_name ≡ (vault_of writer.old).ghost_name }
    ensures errors { IfErr result (SaveWholeErrors (size / 4096) (B.state bus.old) (B.state bus.new)
        (vault_seen V.state writer.old) (vault_seen V.state writer.new)) }
    ensures accepts { OnOk result (Accepted (vault_seen V.state writer.old) (vault_seen V.state writer.new)) }
    ensures keeps { IsOpen size (B.state bus.old) → (head : Content) → head.size ≡ size
        → HasPutSectors V.state writer.old head (B.state bus.old).chip.bytes none 0
        → OnOk result (HasPutSectors V.state writer.new head (B.state bus.old).chip.bytes
        (sectors_below (size / 4096)) (size / 4096)) }
    ensures cut { IsOpen size (B.state bus.old) → (head : Content) → head.size ≡ size
        → HasPutSectors V.state writer.old head (B.state bus.old).chip.bytes none 0
        → OnErr result (HoldsCut (vault_seen V.state writer.new) head (B.state bus.old).chip.bytes
        (sectors_below (size / 4096)) (size / 4096)) }
    ensures replies { OnOk result
        (KeepsReplies (begins_with 0x03) (B.state bus.old).history (B.state bus.new).history) }
    ensures replied { (head : Content) → head.size ≡ size
        → HasPutSectors V.state writer.old head (bytes_read (B.state bus.new).history) none 0
        → OnOk result (HasPutSectors V.state writer.new head (bytes_read (B.state bus.new).history)
        (sectors_below (size / 4096)) (size / 4096)) }
{
    let mut bytes = [0; SECTOR_LEN as usize];
    for sector in 0..size / SECTOR_LEN {
        read_sector(bus, sector, &mut bytes)?;
        writer.add(sector, &bytes)?;
    }
    Ok(())
}

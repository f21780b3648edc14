//! The call `backup`, which saves the whole chip in a journal and doesn't change the chip.
ghost use Rattle.std.specs.Prelude.{◌≡◌, true};
ghost use Rattle.nor_journal.specs.Vault.{IsFresh};
ghost use Rattle.nor_probe.specs.Known.{IsModelled};
ghost use Rattle.nor_session.specs.Backup.{BackupAlways, BackupHonest, BackupModelled};

use nor_geometry::SECTOR_LEN;
use nor_journal::Vault;
use nor_model::Bus;
use nor_probe::ChipName;
use nor_request::{Refusal, Report};
use nor_scan::{identify, save_whole};

/// Saves every sector of the chip, its non-volatile status bits and its unique ID to `vault`. Doesn't change the chip.
/// `vault` must be empty and unsealed. If `named` is given, the chip must have that name.
///
/// After success on a modelled bus, a `telling` vault holds a journal from which `restore` can restore the chip, even
/// after changes at any address that a restore can write (`backup_restores_any`). `rewrite` can do so too, unless a
/// locked status protects a sector (error 9).
///
/// On any bus the vault is sealed if and only if the call succeeds, and the journal of a sealed `telling` vault
/// contains what the bus replied.
///
/// Returns error 1 (no chip), 2 (unknown chip), 3 (other name), 11 (the vault failed), 12 (the bus stopped) or 13 (the
/// chip stayed busy during the identification; not on a well-behaved bus).
pub fn backup<B: Bus, V: Vault>(
    bus: &mut B,
    vault: &mut V,
    named: Option<ChipName>,
) -> Result<Report, Refusal>
    requires { IsFresh (V.state vault.old) }
    ensures always { BackupAlways named (B.state bus.old) (B.state bus.new) (V.state vault.old)
        (V.state vault.new) result }
    ensures honest { (B.state bus.old).honest ≡ true → BackupHonest named (B.state bus.old) (B.state bus.new) result }
    ensures modelled { IsModelled (B.state bus.old)
        → BackupModelled named (B.state bus.old) (B.state bus.new) (V.state vault.new) result }
{
    let identity = identify(bus, named)?;
    save_whole(bus, vault, &identity)?;
    let sectors = identity.found.size / SECTOR_LEN;
    Ok(Report {
        found: identity.found,
        touched: 0,
        erases: 0,
        programs: 0,
        transactions: identity.transactions + u64::from(sectors),
    })
}

//! The call `save`, which scans the chip, checks the request against the touched sectors, and seals the vault.
ghost use Rattle.std.specs.Prelude.{◌≡◌, ◌/◌, true, length, IfOk, IfErr, OnOk, OnErr};
ghost use Rattle.nor_model.specs.History.{KeepsReplies, begins_with};
ghost use Rattle.nor_journal.specs.Saved.{JournalSaves};
ghost use Rattle.nor_driver.specs.ReadBack.{bytes_read};
ghost use Rattle.nor_driver.specs.OnlyReads.{OnlyReads};
ghost use Rattle.nor_journal.specs.Vault.{IsFresh};
ghost use Rattle.nor_plan.specs.SectorSet.{has};
ghost use Rattle.nor_request.specs.Request.{scanned_sectors, is_data};
ghost use Rattle.nor_scan.specs.Saving.{header_found};
ghost use Rattle.nor_scan.specs.SavedScan.{HasSaved, SaveErrors, SavePuts, HoldsJournal, IsJournalOf, SaveBegins, SaveCuts};

use crate::identity::Identity;
use crate::judging::judge_scan;
use crate::scanning::{Scanned, scan_all};
use nor_journal::{Vault, Writer};
use nor_model::Bus;
use nor_request::{Refusal, Request};

/// The result of a successful `save`, which has sealed the vault.
#[derive(Clone, Copy)]
pub struct SavedScan {
    pub scanned: Scanned,
    /// True if protection must be lifted before the changes.
    pub unlock: bool,
}

/// Scans the chip, writes the touched sectors to a journal in `vault`, checks the request against these sectors, and
/// seals `vault`. Sends no modifying command. `vault` must be empty and unsealed before the call. `code` is the result
/// of `judge_identity`. For a write or an erase, `image` must be as long as the chip that was found.
///
/// After success on any bus, a faithful vault (`telling`) holds a journal of exactly the sectors in `scanned.touched`.
/// Each record has the bytes of the last reply to a read of its sector. On a well-behaved bus with an idle chip that
/// `identity` describes, `scanned.touched` has exactly the sectors that the request touches, and `image` has their
/// target bytes.
///
/// Returns error 9 (the status registers must be written and are locked), 10 (a touched sector is protected, and the
/// request doesn't unlock), 11 (the vault failed) or 12 (the bus stopped). After an error the vault is unsealed; if the
/// bus and its chip are as above, a faithful vault holds a prefix of the journal of the touched sectors.
pub fn save<B: Bus, V: Vault>(
    bus: &mut B,
    vault: &mut V,
    image: &mut [u8],
    request: &Request,
    identity: &Identity,
    code: u8,
) -> Result<SavedScan, Refusal>
    requires whole { is_data request.now.what ≡ true → length image.old ≡ identity.now.found.size }
    requires fresh { IsFresh (V.state vault.old) }
    ensures leaves { OnlyReads (scanned_sectors request.now identity.now.found.size)
        (B.state bus.old) (B.state bus.new) }
    ensures puts { SavePuts result (V.state vault.old) (V.state vault.new) }
    ensures holds { HoldsJournal (V.state vault.new) }
    ensures saves { IfOk result (λ saved. (V.state vault.new).telling ≡ true
        → IsJournalOf (header_found identity.now) (has saved.scanned.touched) (V.state vault.new).bytes) }
    ensures replies { OnOk result
        (KeepsReplies (begins_with 0x03) (B.state bus.old).history (B.state bus.new).history) }
    ensures replied { IfOk result (λ saved. (V.state vault.new).telling ≡ true
        → JournalSaves (header_found identity.now) (bytes_read (B.state bus.new).history)
        (has saved.scanned.touched) (V.state vault.new).bytes) }
    ensures keeps { IfOk result
        (HasSaved request.now identity.now code image.old image.new
        (B.state bus.old) (B.state bus.new) (V.state vault.new)) }
    ensures begins { IfErr result
        (SaveBegins request.now identity.now image.old (B.state bus.old) (V.state vault.new)) }
    ensures cut { OnErr result (SaveCuts request.now identity.now image.old (B.state bus.old) (V.state vault.new)) }
    ensures errors { IfErr result
        (SaveErrors request.now identity.now code image.old (B.state bus.old) (B.state bus.new)) }
{
    let size = identity.found.size;
    let mut writer = Writer::on(vault);
    writer.header(
        identity.found.id,
        identity.unique,
        identity.status().kept().bytes(),
        size,
    )?;
    let scanned = scan_all(bus, &mut writer, image, request, size)?;
    let unlock = judge_scan(request, identity, &scanned.touched, code)?;
    writer.end()?;
    Ok(SavedScan { scanned, unlock })
}

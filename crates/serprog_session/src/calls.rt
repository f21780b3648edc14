//! A session, two kinds of restore, and a backup of the chip at a programmer, over a `SerprogBus`.
ghost use Rattle.std.specs.Prelude.{◌≡◌, true, IfErr, OnOk};
ghost use Rattle.nor_journal.specs.Saved.{is_saved};
ghost use Rattle.nor_journal.specs.Vault.{IsFresh, Completed};
ghost use Rattle.nor_apply.specs.Applying.{ErasesFirst};
ghost use Rattle.nor_session.specs.Backup.{BackupReturns};
ghost use Rattle.nor_session.specs.Session.{SendsSaved, SessionReturns, IsSavedCode};
ghost use Rattle.nor_serprog.specs.Bus.{has_further, port_in, sent_of, serprog_state};
ghost use Rattle.serprog_session.specs.Headline.{ReachesGenuine, KeepsOriginalChip, RefusesUnsent, RestoresOriginalChip};
ghost use Rattle.serprog_session.specs.Headline.{SessionResults, RewritesOriginalChip, SavesChipOver};

use nor_journal::{Journal, Vault};
use nor_probe::ChipName;
use nor_serprog::{Port, SerprogBus};
use nor_session::{Refusal, Report, Request, backup, restore, rewrite, session};

/// Runs `session` of nor_session on the chip at a programmer: saves each sector that the session will touch to `vault`,
/// and then changes the chip as `request` asks. `vault` must be empty and unsealed. The call may overwrite `image`.
///
/// - On every port, no modifying command is sent before the vault is sealed. After an error from 1 to 11 the vault
///   isn't sealed. Errors 12, 13 and 14 are also possible.
/// - On a well-behaved port whose chip was idle at the start, an exit before the seal leaves the chip's contents and
///   non-volatile status bits as they were.
/// - On a well-behaved port to a genuine chip, the journal in a sealed faithful vault can restore the original chip at
///   every exit. Success leaves the target bytes and protection bits. An error is the verdict on the request, 11 (the
///   vault failed), or 12 (the port failed).
pub fn session_over<P: Port + Drop, V: Vault>(
    bus: &mut SerprogBus<P>,
    vault: &mut V,
    image: &mut [u8],
    request: &Request,
) -> Result<Report, Refusal>
    requires { IsFresh (V.state vault.old) }
    ensures keeps { KeepsOriginalChip (has_further bus.old) (P.state (port_in bus.old)) (P.state (port_in bus.new))
        (sent_of bus.old) (sent_of bus.new) (V.state vault.new) }
    ensures results { ReachesGenuine (has_further bus.old) (P.state (port_in bus.old))
        → SessionResults (has_further bus.old) request.now image.old
        (P.state (port_in bus.old)) (P.state (port_in bus.new)) (V.state vault.old) (V.state vault.new) result }
    ensures answers { IfErr result (SessionReturns (V.state vault.old) (V.state vault.new)) }
{
    session(bus, vault, image, request)
}

/// Runs `restore` of nor_session on the chip at a programmer: writes back the sectors and the protection bits that
/// differ from those in `journal`, and verifies the written sectors. If the port fails, connect again and run the
/// restore again.
///
/// - On every port, the modifying commands that are sent fit the journal (`SendsSaved`). A restore that returns another
///   error than 12, 13 or 14 has sent no modifying command.
/// - On a well-behaved port to a genuine chip, success leaves the saved bytes and non-volatile status bits. An error is
///   12 (the port failed), or a verdict on the journal, which leaves the chip as it was.
/// - If in addition the journal can restore an original chip at the start, it still can at every exit. Success restores
///   that chip, and the only possible error is 12.
pub fn restore_over<P: Port + Drop>(
    bus: &mut SerprogBus<P>,
    journal: &Journal<'_>,
) -> Result<Report, Refusal>
    ensures restores_original { ReachesGenuine (has_further bus.old) (P.state (port_in bus.old))
        → RestoresOriginalChip (has_further bus.old) journal.now
        (P.state (port_in bus.old)) (P.state (port_in bus.new)) result }
    ensures sends { SendsSaved (IsSavedCode journal.now) 1 journal.now
        (serprog_state bus.old) (serprog_state bus.new) }
    ensures refuses { IfErr result (RefusesUnsent (sent_of bus.old) (sent_of bus.new)) }
{
    restore(bus, journal)
}

/// Runs `rewrite` of nor_session on the chip at a programmer: a restore that erases and rewrites every saved sector,
/// even if the sector has its saved bytes already. On every port, after success each saved sector was the target of an
/// erase, and all erases were sent before the first page program (`thorough`). The other promises are those of
/// `restore_over`, but error 9 is also possible if a locked status protects a saved sector of the original chip.
pub fn rewrite_over<P: Port + Drop>(
    bus: &mut SerprogBus<P>,
    journal: &Journal<'_>,
) -> Result<Report, Refusal>
    ensures restores_original { ReachesGenuine (has_further bus.old) (P.state (port_in bus.old))
        → RewritesOriginalChip (has_further bus.old) journal.now
        (P.state (port_in bus.old)) (P.state (port_in bus.new)) result }
    ensures sends { SendsSaved (IsSavedCode journal.now) 1 journal.now
        (serprog_state bus.old) (serprog_state bus.new) }
    ensures refuses { IfErr result (RefusesUnsent (sent_of bus.old) (sent_of bus.new)) }
    ensures thorough { OnOk result
        (ErasesFirst (is_saved journal.now) (serprog_state bus.old) (serprog_state bus.new)) }
{
    rewrite(bus, journal)
}

/// Runs `backup` of nor_session on the chip at a programmer: saves every sector, the non-volatile status bits and the
/// unique ID of the chip to `vault`, which must be empty and unsealed. If `named` is given, the chip must have that
/// name.
///
/// - On every port, no modifying command is sent, and the vault is sealed if and only if the call succeeds. An error is
///   1 (no chip), 2 (unknown chip), 3 (other name), 11 (vault failed), 12 (port failed) or 13 (chip stayed busy).
/// - On a well-behaved port to a genuine chip, success leaves the chip as it was, and a faithful vault then holds a
///   journal that saves the whole chip and can restore it. Error 13 does not occur.
pub fn backup_over<P: Port + Drop, V: Vault>(
    bus: &mut SerprogBus<P>,
    vault: &mut V,
    named: Option<ChipName>,
) -> Result<Report, Refusal>
    requires { IsFresh (V.state vault.old) }
    ensures unsent { sent_of bus.new ≡ sent_of bus.old }
    ensures results { ReachesGenuine (has_further bus.old) (P.state (port_in bus.old))
        → SavesChipOver (has_further bus.old) named
        (P.state (port_in bus.old)) (P.state (port_in bus.new)) (V.state vault.new) result }
    ensures sealed { OnOk result (Completed (V.state vault.old) (V.state vault.new)) }
    ensures answers { IfErr result (BackupReturns (V.state vault.old) (V.state vault.new)) }
{
    backup(bus, vault, named)
}

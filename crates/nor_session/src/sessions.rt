//! The call `session`, which saves each sector that it will change, and then changes the chip.
ghost use Rattle.std.specs.Prelude.{◌≡◌, ℕ, Bool, List, true};
ghost use Rattle.nor_model.specs.Chip.{Chip};
ghost use Rattle.nor_journal.specs.Vault.{IsFresh};
ghost use Rattle.nor_request.specs.declared.request.Request.{Request};
ghost use Rattle.nor_request.specs.declared.refusal.Refusal.{Refusal};
ghost use Rattle.nor_probe.specs.Known.{IsModelled};
ghost use Rattle.nor_session.specs.Headline.{KeepsOriginal};
ghost use Rattle.nor_scan.specs.Verdict.{IsVerdict, IsAccepted};
ghost use Rattle.nor_session.specs.Session.{SessionAlways, SessionHonest, SessionModelled};
ghost use Rattle.nor_session.specs.Announcing.{Announces};

use crate::announcement::Announcement;
use crate::judged::Judged;
use nor_journal::Vault;
use nor_model::Bus;
use nor_request::{Refusal, Report, Request};
use nor_scan::{identify, judge_identity};

/// Saves to `vault` each sector that the session will touch (in which a byte differs from its target), and then changes
/// the chip as `request` asks.
///
/// `vault` must be empty and unsealed. For a write or an erase, `image` must be as long as the chip. For a write, the
/// image holds the target byte at each included address; its other bytes may have any value. After the call the
/// contents of `image` are unspecified.
///
/// On every bus no modifying command is sent before the vault is sealed, and the journal of a sealed `telling` vault
/// contains what the bus replied. On a modelled bus that journal can restore the original chip at every exit, even if
/// the bus stopped inside a transaction, and success leaves the target bytes and protection bits.
///
/// On every bus, even a faulty one, page programs send only target bytes of touched sectors, each for its own address.
/// Targets and touched sectors follow from what the bus replied before the first modifying command (`programs`).
///
/// If the request asks for verification, success on any bus means that every scanned sector was read with its target
/// bytes (`read_back`). For a touched sector, that read followed all writes. Which bytes are the target, and which
/// sectors are touched, depends on what was read before the first modifying command.
///
/// Success on any bus also means that the last status write, if any was sent, had the target protection bits. If none
/// was sent, the identification read them (`protects`).
///
/// Returns an error from 1 to 8 before the vault is used, and one from 9 to 11 before the vault is sealed (`Refusal`
/// has their meanings). On a modelled bus an error from 1 to 10 is the verdict on the request (`IsVerdict`). Returns 12
/// (the bus stopped) or 13 (the chip stayed busy; not on a well-behaved bus) before or after the seal, and after it 14
/// (the verification read other bytes; not on a modelled bus).
pub fn session<B: Bus, V: Vault>(
    bus: &mut B,
    vault: &mut V,
    image: &mut [u8],
    request: &Request,
) -> Result<Report, Refusal>
    requires { IsFresh (V.state vault.old) }
    ensures keeps { KeepsOriginal (B.state bus.old) (B.state bus.new) (V.state vault.new) }
    ensures always { SessionAlways request.now image.old (B.state bus.old) (B.state bus.new) (V.state vault.old)
        (V.state vault.new) result }
    ensures honest { (B.state bus.old).honest ≡ true
        → SessionHonest request.now image.old (B.state bus.old) (B.state bus.new) result }
    ensures modelled { IsModelled (B.state bus.old) → SessionModelled request.now image.old
        (B.state bus.old) (B.state bus.new) (V.state vault.old) (V.state vault.new) result }
{
    session_announced(bus, vault, image, request, |_| ())
}

/// Runs a session as `session` does. After the vault is sealed, and before the first modifying command, `announce`,
/// which must accept every announcement, receives the numbers of touched sectors and of erases, even if both are 0. The
/// clause `announces` is as for `restore_announced`.
pub fn session_announced<B: Bus, V: Vault, F: FnOnce(Announcement) + Drop>(
    bus: &mut B,
    vault: &mut V,
    image: &mut [u8],
    request: &Request,
    announce: F,
) -> Result<Report, Refusal>
    requires fresh { IsFresh (V.state vault.old) }
    requires callable { F.IsAlwaysCallable announce }
    ensures keeps { KeepsOriginal (B.state bus.old) (B.state bus.new) (V.state vault.new) }
    ensures always { SessionAlways request.now image.old (B.state bus.old) (B.state bus.new) (V.state vault.old)
        (V.state vault.new) result }
    ensures honest { (B.state bus.old).honest ≡ true
        → SessionHonest request.now image.old (B.state bus.old) (B.state bus.new) result }
    ensures modelled { IsModelled (B.state bus.old) → SessionModelled request.now image.old
        (B.state bus.old) (B.state bus.new) (V.state vault.old) (V.state vault.new) result }
    ensures announces { Announces (λ announcement. F.post announce announcement tt)
        (B.state bus.old) (B.state bus.new) result }
{
    let identity = identify(bus, request.named)?;
    let code = judge_identity(request, &identity, image.len())?;
    let judged = Judged {
        bus,
        vault,
        image,
        request,
        identity,
        code,
    };
    judged.answer(announce)
}

/// States that no error is the verdict on a request that is accepted for the same image and the same chip.
#[tactic(auto, using(nor_scan::proofs::OneVerdict::accepted_only))]
pub fn accepted_alone()
    ensures { (further : Bool) (request : Request) (image : List ℕ) (chip : Chip) (refusal : Refusal)
        → IsAccepted further request image chip → ¬ IsVerdict further request image chip refusal }
{}

//! The state of a session after its request was checked against the identification.
ghost use Rattle.std.specs.Prelude.{length};
ghost use Rattle.nor_journal.specs.Vault.{IsFresh};
ghost use Rattle.nor_session.specs.Judged.{IsJudged, SinceIdentity, KeepsPromise};
ghost use Rattle.nor_session.specs.Announcing.{Announces};

use crate::announcement::{Announcement, announce_changes};
use crate::kept::{Kept, Restorer};
use crate::sources::Image;
use nor_apply::Changes;
use nor_journal::Vault;
use nor_model::Bus;
use nor_request::{Refusal, Report, Request};
use nor_scan::{Identity, save};

/// The state of a session whose request was checked against the identification, and in which nothing is saved yet.
pub(crate) struct Judged<'a, B: Bus, V: Vault> {
    pub(crate) bus: &'a mut B,
    pub(crate) vault: &'a mut V,
    pub(crate) image: &'a mut [u8],
    pub(crate) request: &'a Request,
    pub(crate) identity: Identity,
    pub(crate) code: u8,
}

impl<'a, B: Bus, V: Vault> Judged<'a, B, V> {
    /// Runs the rest of the session. The clause `keeps` has the promises of the whole session, for every bus state in
    /// which the identification can have started.
    pub(crate) fn answer<F: FnOnce(Announcement) + Drop>(
        self,
        announce: F,
    ) -> Result<Report, Refusal>
        requires fresh { IsFresh (V.state self.vault.now) }
        requires judged { IsJudged self.request.now (length self.image.now) self.identity self.code }
        requires callable { F.IsAlwaysCallable announce }
        ensures keeps { SinceIdentity self.entry.request.now.named self.entry.identity (B.state self.entry.bus.now)
            (λ first. KeepsPromise self.entry.request.now self.entry.image.now first (B.state self.exit.0.now)
            (V.state self.entry.vault.now) (V.state self.exit.1.0.now) result) }
        ensures announces { Announces (λ announcement. F.post announce announcement tt)
            (B.state self.entry.bus.now) (B.state self.exit.0.now) result }
    {
        let Judged {
            bus,
            vault,
            image,
            request,
            identity,
            code,
        } = self;
        let saved = save(bus, vault, image, request, &identity, code)?;
        let changes = Changes {
            touched: saved.scanned.touched,
            raised: saved.scanned.raised,
            kinds: identity.found.kinds,
            size: identity.found.size,
            status: identity.status(),
            unlock: saved.unlock,
            code,
        };
        announce_changes(announce, &changes, saved.scanned.count);
        let kept_chip = Kept {
            bus,
            source: &Image { bytes: image },
            changes: &changes,
            undone_by: Restorer::in_vault(vault),
        };
        let work = kept_chip.finish(request.verify)?;
        Ok(Report {
            found: identity.found,
            touched: saved.scanned.count,
            erases: work.erases,
            programs: work.programs,
            transactions: identity.transactions
                + u64::from(saved.scanned.reads)
                + work.transactions,
        })
    }
}

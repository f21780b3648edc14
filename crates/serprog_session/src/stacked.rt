//! The calls of `calls.rt` over the layers of `Stack`.
ghost use Rattle.std.specs.Prelude.{◌≡◌, false, IfErr, OnOk};
ghost use Rattle.nor_journal.specs.Saved.{is_saved};
ghost use Rattle.nor_journal.specs.Vault.{IsFresh, Completed};
ghost use Rattle.nor_apply.specs.Applying.{ErasesFirst};
ghost use Rattle.nor_session.specs.Backup.{BackupReturns};
ghost use Rattle.nor_session.specs.Session.{SendsSaved, SessionReturns, IsSavedCode};
ghost use Rattle.serprog_session.specs.Headline.{ReachesGenuine, KeepsOriginalChip, RefusesUnsent, SessionResults};
ghost use Rattle.serprog_session.specs.Headline.{RestoresOriginalChip, RewritesOriginalChip, SavesChipOver, uncounted};
ghost use Rattle.nor_serprog.specs.Batching.{has_further};
ghost use Rattle.serprog_session.specs.Stack.{IsFit, batching_below, port_below};

use crate::{Stack, stack_is_well_behaved};
use nor_journal::{Journal, Vault};
use nor_model::Bus;
use nor_probe::ChipName;
use nor_serprog::Port;
use nor_session::{Refusal, Report, Request, backup, restore, rewrite, session};
use std::time::Clock;

/// Runs a session over the layers of `Stack`, with the promises of `session_over`. On every port, no modifying command
/// is sent to the layers before the vault is sealed.
///
/// The promises about the programmer's chip hold if the stack fits the programmer and its chip, and holds back no
/// write enable at the start (`IsFit`). The layers may send several transactions for one, so they may stop at any
/// transaction, and error 12 does not show that the port had few calls left (`uncounted`).
pub fn session_over_layers<P: Port + Drop, C: Clock + Drop, V: Vault>(
    bus: &mut Stack<P, C>,
    vault: &mut V,
    image: &mut [u8],
    request: &Request,
) -> Result<Report, Refusal>
    requires { IsFresh (V.state vault.old) }
    ensures unsent { (V.state vault.new).sealed ≡ false
        → (⟦<Stack<P, C> as Bus>⟧.state bus.new).sent ≡ (⟦<Stack<P, C> as Bus>⟧.state bus.old).sent }
    ensures keeps { IsFit bus.old
        → KeepsOriginalChip (has_further (batching_below bus.old)) (uncounted (P.state (port_below bus.old)))
        (P.state (port_below bus.new))
        (⟦<Stack<P, C> as Bus>⟧.state bus.old).sent (⟦<Stack<P, C> as Bus>⟧.state bus.new).sent
        (V.state vault.new) }
    ensures results { IsFit bus.old
        → ReachesGenuine (has_further (batching_below bus.old)) (P.state (port_below bus.old))
        → SessionResults (has_further (batching_below bus.old)) request.now image.old
        (uncounted (P.state (port_below bus.old)))
        (P.state (port_below bus.new)) (V.state vault.old) (V.state vault.new) result }
    ensures answers { IfErr result (SessionReturns (V.state vault.old) (V.state vault.new)) }
{
    stack_is_well_behaved(bus);
    session(bus, vault, image, request)
}

/// Runs a restore over the layers of `Stack`, with the promises of `restore_over`, limited as in `session_over_layers`.
pub fn restore_over_layers<P: Port + Drop, C: Clock + Drop>(
    bus: &mut Stack<P, C>,
    journal: &Journal<'_>,
) -> Result<Report, Refusal>
    ensures restores_original { IsFit bus.old
        → ReachesGenuine (has_further (batching_below bus.old)) (P.state (port_below bus.old))
        → RestoresOriginalChip (has_further (batching_below bus.old)) journal.now
        (uncounted (P.state (port_below bus.old)))
        (P.state (port_below bus.new)) result }
    ensures sends { SendsSaved (IsSavedCode journal.now) 1 journal.now
        (⟦<Stack<P, C> as Bus>⟧.state bus.old) (⟦<Stack<P, C> as Bus>⟧.state bus.new) }
    ensures refuses { IfErr result (RefusesUnsent (⟦<Stack<P, C> as Bus>⟧.state bus.old).sent
        (⟦<Stack<P, C> as Bus>⟧.state bus.new).sent) }
{
    stack_is_well_behaved(bus);
    restore(bus, journal)
}

/// Runs a rewrite over the layers of `Stack`, with the promises of `rewrite_over`, limited as in `session_over_layers`.
pub fn rewrite_over_layers<P: Port + Drop, C: Clock + Drop>(
    bus: &mut Stack<P, C>,
    journal: &Journal<'_>,
) -> Result<Report, Refusal>
    ensures restores_original { IsFit bus.old
        → ReachesGenuine (has_further (batching_below bus.old)) (P.state (port_below bus.old))
        → RewritesOriginalChip (has_further (batching_below bus.old)) journal.now
        (uncounted (P.state (port_below bus.old)))
        (P.state (port_below bus.new)) result }
    ensures sends { SendsSaved (IsSavedCode journal.now) 1 journal.now
        (⟦<Stack<P, C> as Bus>⟧.state bus.old) (⟦<Stack<P, C> as Bus>⟧.state bus.new) }
    ensures refuses { IfErr result (RefusesUnsent (⟦<Stack<P, C> as Bus>⟧.state bus.old).sent
        (⟦<Stack<P, C> as Bus>⟧.state bus.new).sent) }
    ensures thorough { OnOk result (ErasesFirst (is_saved journal.now)
        (⟦<Stack<P, C> as Bus>⟧.state bus.old) (⟦<Stack<P, C> as Bus>⟧.state bus.new)) }
{
    stack_is_well_behaved(bus);
    rewrite(bus, journal)
}

/// Runs a backup over the layers of `Stack`, with the promises of `backup_over`, limited as in `session_over_layers`.
pub fn backup_over_layers<P: Port + Drop, C: Clock + Drop, V: Vault>(
    bus: &mut Stack<P, C>,
    vault: &mut V,
    named: Option<ChipName>,
) -> Result<Report, Refusal>
    requires { IsFresh (V.state vault.old) }
    ensures unsent { (⟦<Stack<P, C> as Bus>⟧.state bus.new).sent
        ≡ (⟦<Stack<P, C> as Bus>⟧.state bus.old).sent }
    ensures results { IsFit bus.old
        → ReachesGenuine (has_further (batching_below bus.old)) (P.state (port_below bus.old))
        → SavesChipOver (has_further (batching_below bus.old)) named (uncounted (P.state (port_below bus.old)))
        (P.state (port_below bus.new))
        (V.state vault.new) result }
    ensures sealed { OnOk result (Completed (V.state vault.old) (V.state vault.new)) }
    ensures answers { IfErr result (BackupReturns (V.state vault.old) (V.state vault.new)) }
{
    stack_is_well_behaved(bus);
    backup(bus, vault, named)
}

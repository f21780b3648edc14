//! The layers of the bus to a chip on a board that split transactions, check the status, and read twice.
ghost use Rattle.std.specs.Prelude.{◌≡◌, ◌&&◌, ◌≤◌, ◌-◌, [], true, List, Option, option_map, ℕ};
ghost use Rattle.nor_buses.specs.Checked.{bus_of, history_of as checked_history};
ghost use Rattle.nor_buses.specs.Splitting.{split_of, takes_whole};
ghost use Rattle.nor_buses.specs.Twice.{expected_of, history_of, twice_of};
ghost use Rattle.serprog_board.specs.BoardBus.{IsOver, PassesOn};
ghost use Rattle.serprog_board.specs.Unused.{IsUnused};

use crate::board::Causes;
use crate::carrier::Carrier;
use crate::rules::Checks;
use nor_buses::{ChangedByte, CheckedStatus, ReadTwice, SplittingBus};
use nor_model::Bus;

/// A bus whose replies are confirmed, and whose status writes are checked.
pub trait Reader: Bus {
    // The image that the bus expects, if any. Sectors that equal it at their addresses are read once, other data twice.
    ghost expected: { Self → Option (List ℕ) };

    // The bytes that the port was asked to send: one list for each call, with the last call first.
    ghost asked: { Self → List (List ℕ) };

    /// Returns whether a modifying command may have been sent.
    fn has_begun(&self) -> bool;

    /// Returns the change of received bytes that the port seems to make, or `None`.
    fn changed_byte(&self) -> Option<ChangedByte>;

    /// Returns the causes of a stop that this bus and the layers below it know.
    fn causes(&self) -> Causes<'_>;

    // A law: what the bus passed on is what its port was asked.
    ghost passes: { (reader : Self) → PassesOn (asked reader) (Self.state reader).passed };
}

/// The layers over the bus `S` that split transactions, check the status, and read twice.
pub type ReadingLayers<S> = ReadTwice<CheckedStatus<SplittingBus<S>>>;

impl<S: Carrier + Drop> Reader for ReadingLayers<S> {
    ghost expected = { λ twice. option_map (λ image. image.items) (expected_of twice) };

    ghost asked = { λ twice. S.asked (split_of (bus_of (twice_of twice))) };

    ghost passes = { λ twice. S.passes (split_of (bus_of (twice_of twice))) };

    fn has_begun(&self) -> bool {
        self.inner().has_begun()
    }

    fn changed_byte(&self) -> Option<ChangedByte> {
        self.inner().changed_byte()
    }

    fn causes(&self) -> Causes<'_> {
        let carrier = self.inner().inner().inner();
        Causes {
            other: None,
            failure: carrier.failure(),
            status: self.inner().fault(),
            is_lost: carrier.is_lost(),
            differed: self.differed(),
        }
    }
}

/// Returns the layers over `carrier`. A transaction sends at most `longest_write` bytes and reads at most
/// `longest_read`. Sectors that equal `image` at their addresses are read once, other data twice.
pub fn reading<S: Carrier + Drop>(
    carrier: S,
    longest_write: u32,
    longest_read: u32,
    checks: Checks,
    image: Option<Vec<u8>>,
) -> ReadingLayers<S>
    requires writes { 5 ≤ longest_write }
    requires reads { 1 ≤ longest_read }
    ensures fresh { IsUnused (⟦<ReadingLayers<S> as Bus>⟧.state result) }
    ensures over { IsOver (S.state carrier) (⟦<ReadingLayers<S> as Bus>⟧.state result) }
    ensures honest { (⟦<ReadingLayers<S> as Bus>⟧.state result).honest
        ≡ ((S.state carrier).honest && takes_whole longest_write longest_read) }
    ensures longer { (S.state carrier).unlimited ≡ true
        → (⟦<ReadingLayers<S> as Bus>⟧.state result).longer ≡ longest_read - 4096 }
    ensures asked { ⟦<ReadingLayers<S> as Reader>⟧.asked result ≡ S.asked carrier }
    ensures expected { ⟦<ReadingLayers<S> as Reader>⟧.expected result ≡ option_map (λ image. image.items) image }
{
    let splitting = SplittingBus::new(carrier, longest_write, longest_read);
    reading_twice(checking(splitting, checks), image)
}

fn checking<B: Bus + Drop>(bus: B, checks: Checks) -> CheckedStatus<B>
    ensures bus { bus_of result ≡ bus }
    ensures history { checked_history result ≡ [] }
{
    match checks {
        Checks::Protection => CheckedStatus::new(bus),
        Checks::Guarded => CheckedStatus::guarding(bus),
        Checks::Lock => CheckedStatus::locking(bus),
    }
}

fn reading_twice<B: Bus + Drop>(bus: B, image: Option<Vec<u8>>) -> ReadTwice<B>
    ensures bus { twice_of result ≡ bus }
    ensures history { history_of result ≡ [] }
    ensures expected { expected_of result ≡ image }
{
    match image {
        Some(image) => ReadTwice::expecting(bus, image),
        None => ReadTwice::new(bus),
    }
}

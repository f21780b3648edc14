//! The layers around a bus to a programmer, and the conditions under which they are together a well-behaved bus.
ghost use Rattle.std.specs.Prelude.{◌≡◌, true};
ghost use Rattle.nor_buses.specs.Ahead.{ahead_of, longest_of};
ghost use Rattle.nor_buses.specs.Checked.{bus_of};
ghost use Rattle.nor_buses.specs.KeptQuad.{kept_by, rows_of, hides_of};
ghost use Rattle.nor_buses.specs.KnownStatus2.{known_by, ids_of, before_of};
ghost use Rattle.nor_buses.specs.Layers.{FitsLayers};
ghost use Rattle.nor_buses.specs.OtherMakers.{adapted_by, rows_of as listed_by};
ghost use Rattle.nor_buses.specs.Paced.{paced_of};
ghost use Rattle.nor_buses.specs.SameChip.{checked_by};
ghost use Rattle.nor_buses.specs.Splitting.{split_of, sends_most, receives_most};
ghost use Rattle.nor_buses.specs.Twice.{twice_of};
ghost use Rattle.nor_buses.specs.Watched.{watched_by};

use crate::{
    CheckedStatus, KeptQuad, KnownStatus2, OtherMakers, Paced, ReadAhead, ReadTwice, SameChip,
    SplittingBus, Watched,
};
use nor_model::Bus;
use std::time::Clock;

/// The ten buses of this crate around a bus to a programmer, in the order in which `flashnor-serprog` nests them.
pub type Layered<B, C> = ReadAhead<
    SameChip<OtherMakers<KeptQuad<KnownStatus2<CheckedTwice<B, C>>>>>,
>;

/// The inner layers of `Layered`, up to and including `ReadTwice`.
pub type CheckedTwice<B, C> = ReadTwice<CheckedStatus<SplittingBus<Watched<Paced<B, C>>>>>;

/// States that the layers are together a well-behaved bus if the bus to the programmer is well-behaved, and its limits
/// and its chip fit the layers (`FitsLayers`). This holds for any settings of the layers (`guarding`, `locking`,
/// `expecting`). The chip is that of the bus to the programmer.
///
/// The chip must have an ID that `KnownStatus2` knows, an ID of the `rows` of `OtherMakers` and, if `KeptQuad` hides
/// QE, an ID of the `rows` of `KeptQuad`. The chip's unique ID must not be eight bytes FFh or 00h.
#[tactic(auto, using(crate::proofs::Fitting::layers_fit))]
pub fn layers_are_well_behaved<B: Bus + Drop, C: Clock + Drop>(bus: &Layered<B, C>)
    ensures honest { let other = checked_by (ahead_of bus.now) in
        let kept = adapted_by other in
        let known = kept_by kept in
        let splitting = bus_of (twice_of (known_by known)) in
        FitsLayers (longest_of bus.now) (sends_most splitting) (receives_most splitting) (ids_of known)
        (before_of known) (rows_of kept) (hides_of kept) (listed_by other)
        (B.state (paced_of (watched_by (split_of splitting))))
        → (⟦<Layered<B, C> as Bus>⟧.state bus.now).honest ≡ true }
    ensures chip { let known = kept_by (adapted_by (checked_by (ahead_of bus.now))) in
        let splitting = bus_of (twice_of (known_by known)) in
        (⟦<Layered<B, C> as Bus>⟧.state bus.now).chip
        ≡ (B.state (paced_of (watched_by (split_of splitting)))).chip }
{
    let _ = bus;
}

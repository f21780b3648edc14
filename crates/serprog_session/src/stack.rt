//! The layers of `flashnor-serprog` over a port, and the premises under which they are a well-behaved bus.
ghost use Rattle.std.specs.Prelude.{◌≡◌, ◌≤◌, ◌+◌, true};
ghost use Rattle.nor_buses.specs.Ahead.{longest_of};
ghost use Rattle.nor_buses.specs.Adapted.{keeps_replies};
ghost use Rattle.nor_buses.specs.Bit6.{keeps_bit6};
ghost use Rattle.nor_buses.specs.KeptQuad.{rows_of, hides_of};
ghost use Rattle.nor_buses.specs.KnownStatus2.{ids_of, before_of};
ghost use Rattle.nor_buses.specs.Listed.{is_listed_chip};
ghost use Rattle.nor_buses.specs.OtherMakers.{rows_of as listed_by};
ghost use Rattle.nor_buses.specs.Splitting.{sends_most, receives_most, reads_longer, takes_whole};
ghost use Rattle.nor_serprog.specs.Batching.{waits_of};
ghost use Rattle.nor_serprog.specs.Enabled.{enabled};
ghost use Rattle.serprog_session.specs.Stack.{other_below, kept_below, known_in, splitting_in, batching_below, port_below};

use nor_buses::{Layered, layers_are_well_behaved};
use nor_model::Bus;
use nor_serprog::{BatchingBus, Port};
use std::time::Clock;

/// The layers of `flashnor-serprog` over a `BatchingBus`, in the program's order.
pub type Stack<P, C> = Layered<BatchingBus<P>, C>;

/// States that the layers are together a well-behaved bus if the port is well-behaved, and the programmer and its chip
/// fit.
///
/// The programmer must take a page program, a read of a sector and a read of the longest block of `ReadAhead`. The chip
/// must have an ID that `KnownStatus2` and `OtherMakers` know and, if `KeptQuad` hides QE, one that `KeptQuad` knows.
/// The chip's unique ID must not be eight bytes FFh or 00h. The chip of this bus is the programmer's chip, but with the
/// write enable latch set if a write enable is held back and the chip is idle.
pub fn stack_is_well_behaved<P: Port + Drop, C: Clock + Drop>(bus: &Stack<P, C>)
    ensures honest { let port = P.state (port_below bus.now) in
        let splitting = splitting_in bus.now in
        let known = known_in bus.now in
        port.honest ≡ true → takes_whole (sends_most splitting) (receives_most splitting) ≡ true
        → longest_of bus.now ≤ 4096 + reads_longer (receives_most splitting) true 0
        → is_listed_chip (ids_of known) (before_of known) port.device.chip.config ≡ true
        → keeps_bit6 (rows_of (kept_below bus.now)) (hides_of (kept_below bus.now)) port.device.chip.config ≡ true
        → keeps_replies (listed_by (other_below bus.now)) port.device.chip.config ≡ true
        → (⟦<Stack<P, C> as Bus>⟧.state bus.now).honest ≡ true }
    ensures chip { (⟦<Stack<P, C> as Bus>⟧.state bus.now).chip
        ≡ enabled (waits_of (batching_below bus.now)) (P.state (port_below bus.now)).device.chip }
{
    layers_are_well_behaved(bus);
}

//! The layers of the bus to a chip on a board that know the programmer's port.
ghost use Rattle.std.specs.Prelude.{◌≡◌, List, ℕ};
ghost use Rattle.nor_serprog.specs.Batch.{IsSettledFor};
ghost use Rattle.nor_serprog.specs.Batching.{port_in, waits_of};
ghost use Rattle.nor_serprog.specs.Link.{port_of};
ghost use Rattle.nor_serprog.specs.Programmer.{any_buffer_of};
ghost use Rattle.nor_buses.specs.Paced.{paced_of};
ghost use Rattle.nor_buses.specs.Watched.{watched_by};
ghost use Rattle.serprog_board.specs.BoardBus.{IsOverPort, PassesOn};
ghost use Rattle.serprog_board.specs.Unused.{IsUnused};

use crate::port_fault::PortFault;
use nor_buses::{Paced, Watched};
use nor_model::Bus;
use nor_serprog::{AnyProgrammer, BatchingBus, Failure, Link, Port};
use std::time::Clock;

/// A bus that knows its port: what the port was asked, and why it failed.
pub trait Carrier: Bus {
    // The bytes that the port was asked to send: one list for each call, with the last call first.
    ghost asked: { Self → List (List ℕ) };

    /// Returns the cause of the last transaction that failed, or `None`.
    fn failure(&self) -> Option<&Failure<PortFault>>;

    /// Returns whether the chip lost its contact or its supply while a job waited for it.
    fn is_lost(&self) -> bool;

    // A law: what the bus passed on is what its port was asked.
    ghost passes: { (carrier : Self) → PassesOn (asked carrier) (Self.state carrier).passed };
}

/// The layers over the port `P` that know this port.
pub type PortLayers<P, C> = Watched<Paced<BatchingBus<P>, C>>;

impl<P: Port<Cause = PortFault> + Drop, C: Clock + Drop> Carrier for PortLayers<P, C> {
    ghost use Rattle.std.proofs.Common.{refl};

    ghost asked = { λ watched. (P.state (port_in (paced_of (watched_by watched)))).asked };

    ghost passes = { λ watched. record { waits = waits_of (paced_of (watched_by watched)); is = refl } };

    fn failure(&self) -> Option<&Failure<PortFault>> {
        self.inner().inner().cause()
    }

    fn is_lost(&self) -> bool {
        self.is_lost()
    }
}

/// Returns the layers over the port of `link`, with a clock for the pauses between polls. The premise is that of
/// `BatchingBus::over`.
pub fn over_port<P: Port<Cause = PortFault> + Drop, C: Clock + Drop>(
    link: Link<P>,
    clock: C,
    programmer: AnyProgrammer,
) -> PortLayers<P, C>
    requires settled { IsSettledFor (any_buffer_of programmer) P.state link }
    ensures fresh { IsUnused (⟦<PortLayers<P, C> as Bus>⟧.state result) }
    ensures over { IsOverPort (P.state (port_of link)) (⟦<PortLayers<P, C> as Bus>⟧.state result) }
    ensures asked { ⟦<PortLayers<P, C> as Carrier>⟧.asked result ≡ (P.state (port_of link)).asked }
{
    Watched::new(Paced::new(BatchingBus::over(link, programmer), clock))
}

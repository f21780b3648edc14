//! A bus whose modifying commands are accounted for.
ghost use Rattle.std.specs.Prelude.{◌≡◌};
ghost use Rattle.nor_model.specs.Bus.{Transfers};
ghost use Rattle.nor_model.specs.Passed.{ArePassedOn};

use nor_model::{Bus, Stopped};

/// A bus that passed on only what it was asked for. Each command that was passed on below all layers and that may
/// modify a chip is one that this bus was asked for, in this order and at most once, or it belongs to a page program
/// that this bus was asked for: a part of it, or a write enable (`ArePassedOn`). This holds for each value of the type,
/// so after any transactions.
///
/// `Accounted` itself passes on each transaction.
#[derive(Drop)]
pub struct Accounted<B: Bus> {
    bus: B,
    ghost accounted: { ∥ ArePassedOn (B.state bus).sent (B.state bus).passed ∥₁ },
}

impl<B: Bus> Accounted<B> {
    ghost use Rattle.nor_buses.specs.Accounted.{accounted_by};

    /// Wraps a bus for which this holds, for example a new bus whose port was asked for no modifying command yet.
    pub fn new(bus: B) -> Accounted<B>
        requires { ∥ ArePassedOn (B.state bus).sent (B.state bus).passed ∥₁ }
        ensures { accounted_by result ≡ bus }
    {
        Accounted { bus }
    }

    /// Returns the inner bus.
    pub fn inner(&self) -> &B
        ensures { result.now ≡ accounted_by self.now }
    {
        &self.bus
    }
}

impl<B: Bus> Bus for Accounted<B> {
    ghost use Rattle.nor_buses.specs.Accounted.{accounted_state};

    ghost state = { accounted_state };

    ghost reaches = { λ accounted honest. B.reaches accounted.bus honest };

    fn transfer(&mut self, out: &[u8], reply: &mut [u8]) -> Result<(), Stopped>
        ensures { Transfers out.now reply.old reply.new result
            (accounted_state self.old) (accounted_state self.new) }
    {
        self.bus.transfer(out, reply)
    }

    fn has_further_types(&self) -> bool {
        self.bus.has_further_types()
    }
}

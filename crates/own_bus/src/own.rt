//! A bus for a programmer that does not speak serprog, over wires that you implement.
ghost use Rattle.std.specs.Prelude.{true};
ghost use Rattle.std.proofs.lemmas.Bool.{false≢true};
ghost use Rattle.nor_model.specs.Bus.{unknown_bus};

use nor_chip::{Bus, History, Stopped};

/// The wires to a chip. Implement this trait for your hardware.
pub trait Wires {
    /// The reason why a transaction failed.
    type Cause: Drop;

    /// Makes one transaction: pulls chip select low, sends `out`, reads until `reply` is full, and releases chip
    /// select, even after an error. The engine sends at most 260 bytes and reads at most 4,096 in one transaction, and
    /// ends its call after an error.
    fn transact(&mut self, out: &[u8], reply: &mut [u8]) -> Result<(), Self::Cause>;
}

/// A bus over `wires`. It doesn't count as well-behaved (`honest`), so only the contract clauses for any bus apply.
/// `cause` contains the cause of the last failure, because error 12 contains none.
#[derive(Drop)]
pub struct OwnBus<W: Wires + Drop> {
    pub wires: W,
    pub cause: Option<W::Cause>,
    history: History,
}

impl<W: Wires + Drop> OwnBus<W> {
    pub fn new(wires: W) -> OwnBus<W> {
        OwnBus {
            wires,
            cause: None,
            history: History::new(),
        }
    }
}

impl<W: Wires + Drop> Bus for OwnBus<W> {
    ghost state = { λ own. record (unknown_bus own.history.exchanges) { further = true } };

    ghost reaches = { λ own honest. absurd (false≢true honest) };

    fn transfer(&mut self, out: &[u8], reply: &mut [u8]) -> Result<(), Stopped> {
        match self.wires.transact(out, reply) {
            Ok(()) => {
                self.history = self.history.replied(out, reply);
                Ok(())
            }
            Err(cause) => {
                self.history = self.history.stopped(out);
                self.cause = Some(cause);
                Err(Stopped)
            }
        }
    }

    fn has_further_types(&self) -> bool {
        true
    }
}

//! The record of what a port was asked to send and of what it returned, which exists only in proofs.
ghost use Rattle.std.specs.Prelude.{◌≡◌, ◌∷◌, ◌++◌, []};

use nor_model::History;

/// The record of what each call of a port was asked to send, and of the bytes that were received. It takes no memory.
#[derive(Drop)]
pub struct Wire {
    sent: History,
    received: History,
}

impl Wire {
    ghost use Rattle.nor_serprog.specs.Wire.{asked_on, received_on};

    /// Returns the record of a port that was not used yet.
    pub fn new() -> Wire
        ensures asked { asked_on result ≡ [] }
        ensures received { received_on result ≡ [] }
    {
        Wire {
            sent: History::new(),
            received: History::new(),
        }
    }

    /// Adds a call of `send`, which was asked to send `bytes`.
    pub fn asked(&mut self, bytes: &[u8])
        ensures asked { asked_on self.new ≡ bytes.now ∷ asked_on self.old }
        ensures received { received_on self.new ≡ received_on self.old }
    {
        self.sent = self.sent.replied(bytes, &[]);
    }

    /// Adds the bytes that a call of `receive` received.
    pub fn received(&mut self, bytes: &[u8])
        ensures asked { asked_on self.new ≡ asked_on self.old }
        ensures received { received_on self.new ≡ received_on self.old ++ bytes.now }
    {
        self.received = self.received.replied(bytes, &[]);
    }
}

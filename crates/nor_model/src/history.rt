//! The history of a bus, which exists only in proofs.
ghost use Rattle.std.specs.Prelude.{◌≡◌, ℕ, List, [], ◌∷◌};
ghost use base.Fml.{ftrue};
ghost use Rattle.nor_model.specs.Exchange.{Exchange, exchanges_code, numbers_code};

use crate::Stopped;
use std::marker::Model;

/// The history of a bus: its transactions, each with its reply or stop, and the allowances that were set. Both lists
/// begin with the last one. Only contracts can read a history. It takes no memory and does nothing at run time.
#[derive(Drop)]
pub struct History {
    pub ghost exchanges: { List Exchange } by { exchanges_code },
    pub ghost allowances: { List ℕ } by { numbers_code },
}

impl Model for History {
    ghost also_owns = { λ _. ftrue };
}

#[derive(Clone, Copy)]
enum Event<'a> {
    Replied(&'a [u8], &'a [u8]),
    Stopped(&'a [u8]),
    Allowed(u64),
}

impl History {
    ghost use Rattle.nor_model.specs.History.{replied, stopped, exchange_of, exchanges_with, allowances_with};

    /// Returns the history of a new bus: nothing was sent over it, and no allowance was set.
    pub fn new() -> History
        ensures { (result.exchanges ≡ []) × (result.allowances ≡ []) }
    {
        History {}
    }

    /// Returns this history with one more transaction, which sent `out` and received `reply`.
    pub fn replied(&self, out: &[u8], reply: &[u8]) -> History
        ensures exchanges { result.exchanges ≡ replied out.now reply.now ∷ self.now.exchanges }
        ensures allowances { result.allowances ≡ self.now.allowances }
    {
        self.with(&Event::Replied(out, reply))
    }

    /// Returns this history with one more transaction, which was to send `out`, and at which the bus stopped.
    pub fn stopped(&self, out: &[u8]) -> History
        ensures exchanges { result.exchanges ≡ stopped out.now ∷ self.now.exchanges }
        ensures allowances { result.allowances ≡ self.now.allowances }
    {
        self.with(&Event::Stopped(out))
    }

    /// Returns this history with the transaction that ended with `outcome`, as `replied` or `stopped` does.
    pub fn ended(&self, out: &[u8], reply: &[u8], outcome: Result<(), Stopped>) -> History
        ensures exchanges { result.exchanges ≡ exchange_of out.now reply.now outcome ∷ self.now.exchanges }
        ensures allowances { result.allowances ≡ self.now.allowances }
    {
        match outcome {
            Ok(()) => self.replied(out, reply),
            Err(Stopped) => self.stopped(out),
        }
    }

    /// Returns this history with one more allowance, which is `n`.
    pub fn allowed(&self, n: u64) -> History
        ensures exchanges { result.exchanges ≡ self.now.exchanges }
        ensures allowances { result.allowances ≡ n ∷ self.now.allowances }
    {
        self.with(&Event::Allowed(n))
    }

    #[inline(always)]
    fn with(&self, _event: &Event<'_>) -> History
        ensures { (result.exchanges ≡ exchanges_with _event.now self.now.exchanges)
            × (result.allowances ≡ allowances_with _event.now self.now.allowances) }
    {
        History {}
    }
}

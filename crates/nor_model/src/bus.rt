//! The traits of a bus to a chip.
ghost use Rattle.std.specs.Prelude.{◌≡◌, true};
ghost use Rattle.nor_model.specs.Chip.{IsChip};
ghost use Rattle.nor_model.specs.Bus.{BusState, Transfers, Allows};

use std::fmt;

/// The error of a failed transaction. The chip may have carried out all of the transaction, a part of it, or nothing.
#[derive(Clone, Copy, Debug, PartialEq, Eq)]
pub struct Stopped;

impl fmt::Display for Stopped {
    fn fmt<W: fmt::Write>(&self, f: &mut fmt::Formatter<W>) -> fmt::Result {
        f.write_str("the bus stopped")
    }
}

impl std::error::Error for Stopped {}

/// A bus to a chip. A transaction sends the bytes `out`, and then fills `reply` with the bytes that it reads.
///
/// Contracts see a bus as a `BusState`. Their clauses depend on these properties:
///
/// - A *well-behaved* bus (`honest`) stops at a transaction that it takes, or carries it out like the modelled chip.
/// - A well-behaved bus is *punctual* if it stops when, and only when, it has no transaction left.
/// - A well-behaved bus is *steady* if a stop sends no byte of the transaction and leaves the chip its power.
/// - A well-behaved bus is *unlimited* if it takes transactions of any length (its contract covers them). Otherwise it
///   takes those that send at most 260 bytes (a page program) and read at most 4,096 (a sector) plus `longer`.
pub trait Bus {
    ghost state: { Self → BusState };

    /// Sends `out`, then reads `reply`. Returns `Stopped` if the transaction failed. After a failure, `reply` is
    /// unchanged if the bus is well-behaved and punctual and takes a transaction of this length.
    fn transfer(&mut self, out: &[u8], reply: &mut [u8]) -> Result<(), Stopped>
        ensures { Transfers out.now reply.old reply.new result (state self.old) (state self.new) };

    /// Returns whether the chip may be of a further type, which only programs for real chips know. A bus to a real chip
    /// must return true. A bus that wraps another bus returns what the inner bus returns. No transaction changes this.
    fn has_further_types(&self) -> bool
        ensures { result ≡ (state self.now).further };

    ghost reaches: { (bus : Self) → (state bus).honest ≡ true → IsChip (state bus).chip };
}

/// A bus with an allowance: the number of transactions that a well-behaved, punctual bus carries out before it stops.
pub trait Meter: Bus {
    /// Sets the allowance to `n` and records it. A well-behaved and punctual bus then has `n` transactions left.
    fn allow(&mut self, n: u64)
        ensures { Allows n (Self.state self.old) (Self.state self.new) };
}

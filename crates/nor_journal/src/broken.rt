//! A vault that refuses a chosen call, for tests of sessions whose vault fails.
ghost use Rattle.std.specs.Prelude.{◌≡◌, ◌≢◌, ◌↔◌, ◌-◌, IsTrue, false, IsErr, IsErrAnd};
ghost use Rattle.nor_journal.specs.Vault.{Puts, Seals, one_more_failure};
ghost use Rattle.nor_journal.specs.BrokenVault.{inner_vault, calls_left, kept_of, Broke};

use crate::vault::{Vault, VaultFault};

/// A vault that passes calls on to an inner vault, but refuses the call that was chosen, if any.
#[derive(Drop)]
pub struct BrokenVault<V: Vault> {
    inner: V,
    // the number of calls up to and including the refused one, or 0 if no further call is to be refused
    calls_left: u64,
    kept: usize,
    failures: u64,
}

impl<V: Vault> BrokenVault<V> {
    /// Returns a vault over `inner` that refuses its `nth` call (none if `nth` is 0), and each call that `inner`
    /// refuses. Calls of `put` and `seal` are counted together, from 1. If the `nth` call is a `put`, it first puts the
    /// first `kept` bytes of the piece in `inner`, or all of a shorter piece.
    pub fn new(inner: V, nth: u64, kept: usize) -> BrokenVault<V>
        ensures state { ⟦<BrokenVault<V> as Vault>⟧.state result ≡ record (V.state inner) { failures = 0 } }
        ensures inner { inner_vault result ≡ inner }
        ensures nth { calls_left result ≡ nth }
        ensures kept { kept_of result ≡ kept }
    {
        BrokenVault {
            inner,
            calls_left: nth,
            kept,
            failures: 0,
        }
    }

    pub fn inner(&self) -> &V
        ensures { result.now ≡ inner_vault self.now }
    {
        &self.inner
    }

    pub fn into_inner(self) -> V
        ensures { result ≡ inner_vault self }
    {
        let BrokenVault { inner, .. } = self;
        inner
    }

    /// Returns the number of calls since `new` that this vault or the inner vault refused, modulo 2^64.
    pub fn failures(&self) -> u64
        ensures { result ≡ (⟦<BrokenVault<V> as Vault>⟧.state self.now).failures }
    {
        self.failures
    }

    fn breaks(&mut self) -> bool
        ensures now { IsTrue result ↔ calls_left self.old ≡ 1 }
        ensures counted { self.new ≡ record self.old { calls_left = calls_left self.old - 1 } }
    {
        let breaks = self.calls_left == 1;
        self.calls_left = self.calls_left.saturating_sub(1);
        breaks
    }

    fn refusal(&mut self, kept: usize) -> VaultFault
        ensures returned { result.kept ≡ kept }
        ensures counted { self.new ≡ record self.old { failures = one_more_failure self.old.failures } }
    {
        self.failures = self.failures.wrapping_add(1);
        VaultFault { kept }
    }

    fn pass_on(&mut self, piece: &[u8]) -> Result<(), VaultFault>
        requires { (V.state (inner_vault self.old)).sealed ≡ false }
        ensures law { Puts (⟦<BrokenVault<V> as Vault>⟧.state self.old) piece.now result
            (⟦<BrokenVault<V> as Vault>⟧.state self.new) }
        ensures inner { Puts (V.state (inner_vault self.old)) piece.now result (V.state (inner_vault self.new)) }
        ensures calls { calls_left self.new ≡ calls_left self.old }
        ensures kept { kept_of self.new ≡ kept_of self.old }
    {
        if let Err(fault) = self.inner.put(piece) {
            return Err(self.refusal(fault.kept));
        }
        Ok(())
    }
}

impl<V: Vault> Vault for BrokenVault<V> {
    ghost state = { λ v. record (V.state v.inner) { failures = v.failures } };

    fn put(&mut self, piece: &[u8]) -> Result<(), VaultFault>
        requires { (⟦<BrokenVault<V> as Vault>⟧.state self.old).sealed ≡ false }
        ensures law { Puts (⟦<BrokenVault<V> as Vault>⟧.state self.old) piece.now result
            (⟦<BrokenVault<V> as Vault>⟧.state self.new) }
        ensures breaks { calls_left self.old ≡ 1
            → IsErrAnd result
            (Broke (kept_of self.old) (V.state (inner_vault self.old)) piece.now (V.state (inner_vault self.new))) }
        ensures passes { calls_left self.old ≢ 1
            → Puts (V.state (inner_vault self.old)) piece.now result (V.state (inner_vault self.new)) }
        ensures calls { calls_left self.new ≡ calls_left self.old - 1 }
        ensures kept { kept_of self.new ≡ kept_of self.old }
    {
        if !self.breaks() {
            return self.pass_on(piece);
        }
        let kept = self.kept.min(piece.len());
        self.pass_on(&piece[..kept])?;
        Err(self.refusal(kept))
    }

    fn seal(&mut self) -> Result<(), VaultFault>
        requires { (⟦<BrokenVault<V> as Vault>⟧.state self.old).sealed ≡ false }
        ensures law { Seals (⟦<BrokenVault<V> as Vault>⟧.state self.old) result
            (⟦<BrokenVault<V> as Vault>⟧.state self.new) }
        ensures breaks { calls_left self.old ≡ 1 → IsErr result × (inner_vault self.new ≡ inner_vault self.old) }
        ensures passes { calls_left self.old ≢ 1
            → Seals (V.state (inner_vault self.old)) result (V.state (inner_vault self.new)) }
        ensures calls { calls_left self.new ≡ calls_left self.old - 1 }
        ensures kept { kept_of self.new ≡ kept_of self.old }
    {
        if self.breaks() {
            return Err(self.refusal(0));
        }
        if self.inner.seal().is_err() {
            return Err(self.refusal(0));
        }
        Ok(())
    }
}

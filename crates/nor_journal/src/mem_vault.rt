//! A vault in memory.
ghost use Rattle.std.specs.Prelude.{◌≡◌, ◌<◌, ◌+◌, Some, refl, true, false, length, IsOk, OnErr};
ghost use Rattle.nor_journal.specs.Vault.{new_vault, Puts, Seals};
ghost use Rattle.nor_journal.specs.MemVault.{held_by, room_of};

use crate::vault::{DurableVault, Vault, VaultFault};
use std::alloc::Global;

/// A faithful vault in memory. `put` fails only if an allocation fails, and the vault then accepts no byte of the
/// piece. `seal` never fails.
#[derive(Drop)]
pub struct MemVault {
    bytes: Vec<u8>,
    sealed: bool,
    failures: u64,
}

impl MemVault {
    /// Returns an empty, unsealed vault. Allocates nothing before the first `put`.
    pub fn new(alloc: Global) -> MemVault
        ensures { ⟦<MemVault as Vault>⟧.state result ≡ new_vault true }
    {
        MemVault {
            bytes: Vec::new(alloc),
            sealed: false,
            failures: 0,
        }
    }

    pub fn bytes(&self) -> &[u8]
        ensures { result.now ≡ (⟦<MemVault as Vault>⟧.state self.now).bytes }
    {
        self.bytes.as_slice()
    }

    pub fn is_sealed(&self) -> bool
        ensures { result ≡ (⟦<MemVault as Vault>⟧.state self.now).sealed }
    {
        self.sealed
    }
}

impl Vault for MemVault {
    ghost state = { held_by };

    fn put(&mut self, piece: &[u8]) -> Result<(), VaultFault>
        requires { (held_by self.old).sealed ≡ false }
        ensures law { Puts (held_by self.old) piece.now result (held_by self.new) }
        ensures grows { OnErr result (room_of self.old < length (held_by self.old).bytes + length piece.now) }
    {
        if self.bytes.extend_from_slice(piece).is_err() {
            self.failures = self.failures.wrapping_add(1);
            return Err(VaultFault { kept: 0 });
        }
        Ok(())
    }

    fn seal(&mut self) -> Result<(), VaultFault>
        requires { (held_by self.old).sealed ≡ false }
        ensures law { Seals (held_by self.old) result (held_by self.new) }
        ensures ok { IsOk result }
    {
        self.sealed = true;
        Ok(())
    }
}

/// A model of a file that `seal` syncs. Contracts don't know what a host crash would leave of an unsealed vault.
impl DurableVault for MemVault {
    ghost use Rattle.nor_journal.specs.MemVault.{held_by, synced_by};
    ghost use Rattle.nor_journal.specs.Vault.{synced_if_sealed};

    ghost contents = { λ vault. Some (held_by vault).bytes };

    ghost synced = { synced_by };

    ghost holds = { λ vault telling. refl };

    ghost is_synced = { λ vault. synced_if_sealed vault.sealed (Some vault.bytes.items) };
}

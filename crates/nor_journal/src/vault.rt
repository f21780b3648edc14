//! The contract of a vault, which receives the bytes of a journal.
ghost use Rattle.std.specs.Prelude.{◌≡◌, false};

use std::error::Error;
use std::fmt;

/// The error that a vault returns if it refuses a piece or the seal.
#[derive(Clone, Copy, Debug, PartialEq, Eq)]
pub struct VaultFault {
    /// The number of bytes of the piece that the vault accepted before it refused. It is 0 for a refused seal.
    pub kept: usize,
}

impl fmt::Display for VaultFault {
    fn fmt<W: fmt::Write>(&self, f: &mut fmt::Formatter<W>) -> fmt::Result {
        write!(
            f,
            "the vault refused, and kept {} bytes of the piece",
            self.kept
        )
    }
}

impl Error for VaultFault {}

/// A sink that receives the bytes of a journal piece by piece, and is then sealed. The clauses say which bytes a
/// faithful (`telling`) vault holds, but not which bytes any other vault holds.
pub trait Vault {
    ghost use Rattle.nor_journal.specs.Vault.{VaultState, Puts, Seals};

    ghost state: { Self → VaultState };

    /// Appends `piece` to the vault, which must be unsealed. If the call fails, the vault accepted the first bytes of
    /// `piece`, possibly none or all. The error contains the number of these bytes (`kept`).
    fn put(&mut self, piece: &[u8]) -> Result<(), VaultFault>
        requires { (state self.old).sealed ≡ false }
        ensures { Puts (state self.old) piece.now result (state self.new) };

    /// Seals the vault, which must be unsealed. If the call fails, the vault stays unsealed. A vault that stores
    /// journals permanently must first make its bytes durable, as `DurableVault` requires.
    fn seal(&mut self) -> Result<(), VaultFault>
        requires { (state self.old).sealed ≡ false }
        ensures { Seals (state self.old) result (state self.new) };
}

/// A vault in a file that is durable as soon as the vault is sealed. `synced` is what a host crash would leave of the
/// file.
///
/// The laws hold for each value of the vault, so at each moment between two calls: once a faithful (`telling`) vault is
/// sealed, `synced` is exactly the accepted bytes. No law says that the system keeps these bytes: that `seal` of a
/// `FileVault` syncs its file, and that nothing is written to the file afterwards, are clauses of `FileVault`.
pub trait DurableVault: Vault {
    ghost use Rattle.std.specs.Prelude.{◌≡◌, ℕ, List, Option, Some, true};
    ghost use Rattle.nor_journal.specs.Vault.{IsSyncedIfSealed};

    // The contents of the file, or `None` if contracts don't know them.
    ghost contents: { Self → Option (List ℕ) };

    // The contents that a host crash at this moment would leave of the file, or `None` if contracts don't know them.
    ghost synced: { Self → Option (List ℕ) };

    // A law: the file of a faithful vault has exactly the accepted bytes.
    ghost holds: { (vault : Self) → (Self.state vault).telling ≡ true
        → contents vault ≡ Some (Self.state vault).bytes };

    // A law: if the vault is sealed, known contents are durable.
    ghost is_synced: { (vault : Self) → IsSyncedIfSealed (Self.state vault).sealed (contents vault) (synced vault) };
}

//! A vault in a file.
ghost use Rattle.std.specs.Prelude.{◌≡◌, false, []};
ghost use Rattle.nor_journal.specs.Vault.{new_vault, one_more_failure, Puts, Seals};
ghost use Rattle.nor_journal.specs.FileVault.{file_of, filed_by, FileTakes, SyncsFile};

use crate::file::VaultFile;
use crate::vault::{DurableVault, Vault, VaultFault};

/// A vault that appends its bytes to a file opened for writing, and syncs the file when it is sealed. `put` fails if a
/// write fails or writes no bytes, and `seal` fails if the sync fails.
///
/// Contracts don't treat the vault as faithful (`telling`), because they don't know what a file of the system contains:
/// that the file holds exactly the accepted bytes is assumed.
#[derive(Drop)]
pub struct FileVault<F: VaultFile> {
    file: F,
    // true if a byte was written to the file
    used: bool,
    sealed: bool,
    failures: u64,
}

impl<F: VaultFile> FileVault<F> {
    /// Returns an unsealed vault that appends to `file`, which should be empty.
    pub fn new(file: F) -> FileVault<F>
        ensures state { ⟦<FileVault<F> as Vault>⟧.state result ≡ new_vault false }
        ensures file { file_of result ≡ file }
    {
        FileVault {
            file,
            used: false,
            sealed: false,
            failures: 0,
        }
    }

    pub fn is_sealed(&self) -> bool
        ensures { result ≡ (⟦<FileVault<F> as Vault>⟧.state self.now).sealed }
    {
        self.sealed
    }

    pub fn into_inner(self) -> F
        ensures { result ≡ file_of self }
    {
        let FileVault { file, .. } = self;
        file
    }

    fn refusal(&mut self, kept: usize) -> VaultFault
        ensures returned { result.kept ≡ kept }
        ensures counted { self.new ≡ record self.old { failures = one_more_failure self.old.failures } }
    {
        self.failures = self.failures.wrapping_add(1);
        VaultFault { kept }
    }
}

impl<F: VaultFile> Vault for FileVault<F> {
    ghost state = { filed_by };

    fn put(&mut self, piece: &[u8]) -> Result<(), VaultFault>
        requires { (⟦<FileVault<F> as Vault>⟧.state self.old).sealed ≡ false }
        ensures law { Puts (⟦<FileVault<F> as Vault>⟧.state self.old) piece.now result
            (⟦<FileVault<F> as Vault>⟧.state self.new) }
        ensures file { FileTakes (F.contents (file_of self.old)) (F.contents (file_of self.new)) piece.now result }
    {
        let mut kept = 0;
        while kept < piece.len() {
            match self.file.append(&piece[kept..]) {
                Ok(0) | Err(_) => return Err(self.refusal(kept)),
                Ok(taken) => {
                    kept += taken;
                    self.used = true;
                }
            }
        }
        Ok(())
    }

    fn seal(&mut self) -> Result<(), VaultFault>
        requires { (⟦<FileVault<F> as Vault>⟧.state self.old).sealed ≡ false }
        ensures law { Seals (⟦<FileVault<F> as Vault>⟧.state self.old) result
            (⟦<FileVault<F> as Vault>⟧.state self.new) }
        ensures file { SyncsFile (F.contents (file_of self.old)) (F.contents (file_of self.new))
            (F.synced (file_of self.new)) result }
    {
        if self.file.sync().is_err() {
            return Err(self.refusal(0));
        }
        self.sealed = true;
        Ok(())
    }
}

impl<F: VaultFile> DurableVault for FileVault<F> {
    ghost use Rattle.std.proofs.lemmas.Bool.{false≢true};
    ghost use Rattle.nor_journal.specs.Vault.{synced_from_seal, synced_if_sealed};

    ghost contents = { λ vault. F.contents vault.file };

    // From the seal on, the contents: `seal` has synced the file (`file`), and no call writes to it afterwards.
    ghost synced = { λ vault. synced_from_seal vault.sealed (F.contents vault.file) };

    ghost holds = { λ _ telling. absurd (false≢true telling) };

    ghost is_synced = { λ vault. synced_if_sealed vault.sealed (F.contents vault.file) };
}

//! Writing a journal to a vault, piece by piece.
ghost use Rattle.std.specs.Prelude.{◌≡◌, ◌+◌, ◌/◌, ◌<◌, ◌≤◌, ◌++◌, List, ℕ, Bool, []};
ghost use Rattle.std.specs.Prelude.{IsTrue, false, true, Some, OnOk, OnErr, IfOk, IfErr};
ghost use Rattle.std.specs.Borrow.{sem, RestsIfErr};
ghost use Rattle.nor_journal.specs.Vault.{PutRefused, Refused, Accepted, PutsOn, Completes, HoldsPrefix, IsFresh};
ghost use Rattle.nor_geometry.specs.Size.{is_chip_size};
ghost use Rattle.nor_journal.specs.Text.{Content, IsContent, MayFollow, empty_content, with_sector, front, text};
ghost use Rattle.nor_journal.specs.Saved.{IsWholeSector, HasOneMore, JournalSaves};
ghost use Rattle.nor_journal.specs.Writer.{vault_of, vault_seen, HasPut, HasWritten, HasPutSectors};
ghost use Rattle.nor_journal.specs.Writer.{lent_by, outcome_of};

use crate::head::head_bytes;
use crate::records::{END_MARK, record_bytes};
use crate::vault::{Vault, VaultFault};
use nor_geometry::SECTOR_LEN;
use sha2::{Digest, Sha256};

/// A writer of a journal of format 2: first the header, then the sectors in ascending order, then the end mark and the
/// digest. The writer borrows the vault. A call fails only if the vault refuses a piece or the seal.
#[derive(Drop)]
pub struct Writer<'a, V: Vault> {
    vault: &'a mut V,
    hasher: Sha256,
}

#[derive(Drop)]
enum Attempt<'a, V: Vault> {
    Accepted(Writer<'a, V>),
    Refused(&'a mut V, VaultFault),
}

impl<'a, V: Vault> Writer<'a, V> {
    /// Returns a writer that writes to `vault`, which must be empty and unsealed. Nothing is written yet.
    pub fn on(vault: &'a mut V) -> Writer<'a, V>
        requires { IsFresh (V.state vault.old) }
        ensures same_vault { (vault_of result).ghost_name ≡ vault.entry.ghost_name }
        ensures vault { vault_seen V.state result ≡ V.state vault.old }
        ensures nothing { HasPut V.state result [] }
    {
        Writer {
            vault,
            hasher: Sha256::new(),
        }
    }

    /// Writes the header to `vault`, which must be empty and unsealed, and returns the writer. `status` has status 1
    /// and 2. `size` is in bytes, and must be a power of two from 64 KiB to 16 MiB. If the call fails, a faithful vault
    /// holds a prefix of the header. A caller that must prove this calls `on` and `header` instead, because Rattle
    /// can't use the clause `refused` in the caller's proof.
    pub fn start(
        vault: &'a mut V,
        id: [u8; 3],
        unique: [u8; 8],
        status: [u8; 2],
        size: u32,
    ) -> Result<Writer<'a, V>, VaultFault>
        requires fresh { IsFresh (V.state vault.old) }
        requires size { IsTrue (is_chip_size size) }
        ensures* refused { sem 𝓛 (RestsIfErr V.row vault.entry (λ writer. (vault_of writer).ghost_name) result
            (λ last. Refused (V.state vault.old) (V.state last)
            × HoldsPrefix (V.state last) (front (empty_content id (Some unique) status size)))) }
        ensures same_vault { IfOk result (λ writer. (vault_of writer).ghost_name ≡ vault.entry.ghost_name) }
        ensures vault { IfOk result (λ writer. Accepted (V.state vault.old) (vault_seen V.state writer)) }
        ensures written { IfOk result (λ writer. HasWritten V.state writer
            (empty_content id (Some unique) status size)) }
    {
        Self::into_result(Self::try_start(vault, id, unique, status, size))
    }

    fn try_start(
        vault: &'a mut V,
        id: [u8; 3],
        unique: [u8; 8],
        status: [u8; 2],
        size: u32,
    ) -> Attempt<'a, V>
        requires fresh { IsFresh (V.state vault.old) }
        requires size { IsTrue (is_chip_size size) }
        ensures same_vault { (lent_by result).ghost_name ≡ vault.entry.ghost_name }
        ensures refused { OnErr (outcome_of result) (Refused (V.state vault.old) (V.state (lent_by result).now)
            × HoldsPrefix (V.state (lent_by result).now)
            (front (empty_content id (Some unique) status size))) }
        ensures vault { IfOk (outcome_of result)
            (λ writer. Accepted (V.state vault.old) (vault_seen V.state writer)) }
        ensures written { IfOk (outcome_of result) (λ writer. HasWritten V.state writer
            (empty_content id (Some unique) status size)) }
    {
        let mut writer = Writer::on(vault);
        match writer.header(id, unique, status, size) {
            Ok(()) => Attempt::Accepted(writer),
            Err(fault) => {
                let Writer { vault, .. } = writer;
                Attempt::Refused(vault, fault)
            }
        }
    }

    fn into_result(attempt: Attempt<'a, V>) -> Result<Writer<'a, V>, VaultFault>
        ensures* refused { sem 𝓛 (RestsIfErr V.row (lent_by attempt.entry) (λ writer. (vault_of writer).ghost_name)
            result (λ last. last ≡ (lent_by attempt.entry).now)) }
        ensures outcome { result ≡ outcome_of attempt.entry }
    {
        match attempt {
            Attempt::Accepted(writer) => Ok(writer),
            Attempt::Refused(_, fault) => Err(fault),
        }
    }

    /// Appends the sector `number` to the journal, as `add` does, and returns the writer. If the call fails, the writer
    /// is lost. A caller that must prove what the vault then holds calls `add` instead.
    pub fn sector(
        mut self,
        number: u32,
        bytes: &[u8; SECTOR_LEN as usize],
    ) -> Result<Writer<'a, V>, VaultFault>
        requires { (vault_seen V.state self).sealed ≡ false }
        ensures* refused { sem 𝓛 (RestsIfErr V.row (vault_of self.entry) (λ writer. (vault_of writer).ghost_name) result
            (λ last. Refused (vault_seen V.state self.entry) (V.state last)
            × ((c : Content) → HasWritten V.state self.entry c
            → HoldsPrefix (V.state last) (front (with_sector c number bytes.now))))) }
        ensures same_vault { IfOk result
            (λ writer. (vault_of writer).ghost_name ≡ (vault_of self.entry).ghost_name) }
        ensures vault { IfOk result (λ writer. Accepted (vault_seen V.state self.entry) (vault_seen V.state writer)) }
        ensures written { (c : Content) → HasWritten V.state self.entry c → MayFollow c number
            → IfOk result (λ writer. HasWritten V.state writer (with_sector c number bytes.now)) }
    {
        Self::into_result(self.try_sector(number, bytes))
    }

    fn try_sector(mut self, number: u32, bytes: &[u8; SECTOR_LEN as usize]) -> Attempt<'a, V>
        requires { (vault_seen V.state self).sealed ≡ false }
        ensures same_vault { (lent_by result).ghost_name ≡ (vault_of self.entry).ghost_name }
        ensures refused { OnErr (outcome_of result)
            (Refused (vault_seen V.state self.entry) (V.state (lent_by result).now)
            × ((c : Content) → HasWritten V.state self.entry c
            → HoldsPrefix (V.state (lent_by result).now) (front (with_sector c number bytes.now)))) }
        ensures vault { IfOk (outcome_of result)
            (λ writer. Accepted (vault_seen V.state self.entry) (vault_seen V.state writer)) }
        ensures written { (c : Content) → HasWritten V.state self.entry c → MayFollow c number
            → IfOk (outcome_of result) (λ writer. HasWritten V.state writer (with_sector c number bytes.now)) }
    {
        match self.add(number, bytes) {
            Ok(()) => Attempt::Accepted(self),
            Err(fault) => {
                let Writer { vault, .. } = self;
                Attempt::Refused(vault, fault)
            }
        }
    }

    fn piece(&mut self, bytes: &[u8]) -> Result<(), VaultFault>
        requires { (vault_seen V.state self.old).sealed ≡ false }
        ensures same_vault { (vault_of self.new).ghost_name ≡ (vault_of self.old).ghost_name }
        ensures vault { PutsOn (vault_seen V.state self.old) result (vault_seen V.state self.new) }
        ensures put { (m : List ℕ) → HasPut V.state self.old m
            → OnOk result (HasPut V.state self.new (m ++ bytes.now)) }
        ensures refused { IfErr result (λ fault. PutRefused (vault_seen V.state self.old) bytes.now fault.kept
            (vault_seen V.state self.new)) }
    {
        self.vault.put(bytes)?;
        self.hasher.update(bytes);
        Ok(())
    }

    /// Writes the header. The arguments are those of `start`, except `vault`. For a valid journal, call `header` once,
    /// before any sector is written. If the call fails, a faithful vault that was empty holds a prefix of the header.
    pub fn header(
        &mut self,
        id: [u8; 3],
        unique: [u8; 8],
        status: [u8; 2],
        size: u32,
    ) -> Result<(), VaultFault>
        requires unsealed { (vault_seen V.state self.old).sealed ≡ false }
        requires size { IsTrue (is_chip_size size) }
        ensures same_vault { (vault_of self.new).ghost_name ≡ (vault_of self.old).ghost_name }
        ensures vault { PutsOn (vault_seen V.state self.old) result (vault_seen V.state self.new) }
        ensures written { HasPut V.state self.old []
            → OnOk result (HasWritten V.state self.new (empty_content id (Some unique) status size)) }
        ensures cut { HasPut V.state self.old []
            → OnErr result (HoldsPrefix (vault_seen V.state self.new)
            (front (empty_content id (Some unique) status size))) }
        ensures content { IsContent (empty_content id (Some unique) status size) }
    {
        self.piece(&head_bytes(id, unique, status, size))
    }

    /// Appends a record with a sector's number and its 4,096 bytes. For a valid journal, `number` must be greater than
    /// the numbers before it, and less than the chip's number of sectors. If the call fails after a header and
    /// ascending sectors of the chip, a faithful vault has a prefix of the header and all records, including this one.
    pub fn add(&mut self, number: u32, bytes: &[u8; SECTOR_LEN as usize]) -> Result<(), VaultFault>
        requires { (vault_seen V.state self.old).sealed ≡ false }
        ensures same_vault { (vault_of self.new).ghost_name ≡ (vault_of self.old).ghost_name }
        ensures vault { PutsOn (vault_seen V.state self.old) result (vault_seen V.state self.new) }
        ensures written { (c : Content) → HasWritten V.state self.old c → MayFollow c number
            → OnOk result (HasWritten V.state self.new (with_sector c number bytes.now)) }
        ensures kept { (head : Content) (old : ℕ → ℕ) (saved more : ℕ → Bool) (n : ℕ)
            → HasPutSectors V.state self.old head old saved n → n ≤ number → number < head.size / 4096
            → IsWholeSector old number bytes.now → HasOneMore saved number more
            → OnOk result (HasPutSectors V.state self.new head old more (number + 1)) }
        ensures cut { (c : Content) → HasWritten V.state self.old c
            → OnErr result (HoldsPrefix (vault_seen V.state self.new) (front (with_sector c number bytes.now))) }
    {
        self.piece(&record_bytes(number, bytes))
    }

    /// Writes the end mark and the digest, and seals the vault. After a header and ascending sectors of the chip, a
    /// faithful vault then holds exactly the journal or, if the call fails, a prefix of the journal, which may be all
    /// of it.
    pub fn end(self) -> Result<(), VaultFault>
        requires { (vault_seen V.state self).sealed ≡ false }
        ensures vault { Completes (vault_seen V.state self.entry) result (V.state self.exit.0.now) }
        ensures written { (c : Content) → HasWritten V.state self.entry c
            → OnOk result ((V.state self.exit.0.now).telling ≡ true
            → (V.state self.exit.0.now).bytes ≡ text c) }
        ensures kept { (head : Content) (old : ℕ → ℕ) (saved : ℕ → Bool) (n : ℕ)
            → HasPutSectors V.state self.entry head old saved n
            → OnOk result ((V.state self.exit.0.now).telling ≡ true
            → JournalSaves head old saved (V.state self.exit.0.now).bytes) }
        ensures cut { (c : Content) → HasWritten V.state self.entry c
            → OnErr result (HoldsPrefix (V.state self.exit.0.now) (text c)) }
    {
        let Writer { vault, mut hasher } = self;
        vault.put(&END_MARK)?;
        hasher.update(&END_MARK);
        vault.put(&hasher.finalize())?;
        vault.seal()
    }
}

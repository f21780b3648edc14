//! Vaults and files that accept a whole journal, refuse a call, accept only a part of a write, or fail to sync.
ghost use Rattle.std.specs.Prelude.{take, Some};
ghost use Rattle.nor_journal.specs.Vault.{IsFresh};

use crate::held::{assert_held, assert_that};
use nor_chip::SECTOR_LEN;
use nor_journal::{
    BrokenVault, FileVault, Journal, MemVault, Vault, VaultFault, VaultFile, Writer,
};
use std::alloc::Global;
use std::cell::Cell;
use std::fs::{Metadata, OpenFile};
use std::io;
use std::io::Write;
use std::process::Abort;

/// A journal of a TINY64 with unique ID 0 that saves no sector. Its digest was computed with `sha256sum`.
const EMPTY: [u8; 61] = [
    0x4E, 0x4F, 0x52, 0x55, 0x4E, 0x44, 0x4F, 0x32, 0xFE, 0x10, 0x10, 0x00, 0x00, 0x00, 0x00, 0x00,
    0x00, 0x00, 0x00, 0x00, 0x00, 0x00, 0x00, 0x01, 0x00, 0xFF, 0xFF, 0xFF, 0xFF, 0x5E, 0x7F, 0x67,
    0xC0, 0x89, 0xBD, 0x91, 0x98, 0x34, 0xDD, 0x72, 0x0B, 0xC3, 0x25, 0xCF, 0x61, 0x40, 0xD7, 0x01,
    0x49, 0x14, 0x8D, 0x80, 0x5E, 0xBA, 0x45, 0xE9, 0x65, 0x9B, 0xB9, 0xB3, 0xB8,
];

/// The digest of the journal that `save` writes for a TINY64, computed with `sha256sum`.
const DIGEST: [u8; 32] = [
    0xD3, 0xCE, 0x40, 0xC1, 0xB1, 0xE6, 0x74, 0x4A, 0x9B, 0xAC, 0x95, 0x55, 0x42, 0xB9, 0xCC, 0xC9,
    0x83, 0xD5, 0xFA, 0x75, 0xB9, 0xC2, 0x79, 0x2D, 0x91, 0x66, 0x46, 0xFB, 0x18, 0x8C, 0x93, 0x13,
];

/// Writes a journal with the ID, status and size of `chip`, the unique ID 0, and sector 0, whose bytes are FFh.
fn save<V: Vault>(vault: &mut V, chip: &Journal<'_>) -> Result<(), VaultFault>
    requires { IsFresh (V.state vault.old) }
{
    let writer = Writer::start(vault, chip.id(), [0; 8], chip.status(), chip.size())?;
    let writer = writer.sector(0, &[0xFF; SECTOR_LEN as usize])?;
    writer.end()
}

fn is_whole(bytes: &[u8]) -> bool {
    bytes.len() == 4161 && bytes.ends_with(&DIGEST) && Journal::read(bytes).is_ok()
}

/// This test fails for a `MemVault` that refuses every call.
#[test]
fn mem_vault_refuses(rt: HostRuntime) {
    let mut vault = MemVault::new(rt.alloc());
    let at_first = vault.is_sealed();
    let puts = [
        vault.put(b"jour"),
        vault.put(b""),
        vault.put(b"nal"),
        vault.seal(),
    ];
    assert_that!(&rt; !at_first && vault.is_sealed());
    assert_that!(&rt; puts == [Ok(()); 4]);
    assert_that!(&rt; vault.bytes() == b"journal".as_slice());
}

// Each row has the number of a call, and the position and length of the bytes that the call writes. Call 5 is the seal.
const CALLS: [(u64, usize, usize); 5] = [
    (1, 0, 25),
    (2, 25, 4100),
    (3, 4125, 4),
    (4, 4129, 32),
    (5, 4161, 0),
];

// Asserts what `save` leaves in a vault that refuses call `broken.0` and keeps at most `broken.1` bytes of its piece.
// `told` is the result, the number of refusals, and whether the vault is sealed. `beginning` is the vault's contents.
fn assert_broken(
    rt: &impl Abort,
    alloc: Global,
    broken: (u64, usize),
    told: (Result<(), VaultFault>, u64, bool),
    beginning: Option<&[u8]>,
) {
    let chip = Journal::read(&EMPTY).expect(rt, "a journal");
    let (nth, kept) = broken;
    let mut vault = BrokenVault::new(MemVault::new(alloc), nth, kept);
    let answer = save(&mut vault, &chip);
    let held = vault.inner();
    let left = (answer, vault.failures(), held.is_sealed());
    let holds = left == told && beginning == Some(held.bytes());
    assert_held(rt, holds, nth);
}

fn refuse_each(rt: &impl Abort, alloc: Global, right: &[u8], kept: usize) {
    for (nth, before, piece) in CALLS {
        let put = piece.min(kept);
        let told = (Err(VaultFault { kept: put }), 1, false);
        let beginning = right.get(0..put.saturating_add(before));
        assert_broken(rt, alloc, (nth, kept), told, beginning);
    }
}

// A vault that would refuse call 0 or call 6 accepts the whole journal, which takes five calls.
#[test]
fn each_call_of_a_writer_is_refused(rt: HostRuntime) {
    let alloc = rt.alloc();
    let chip = Journal::read(&EMPTY).expect(&rt, "a journal");
    let mut vault = MemVault::new(alloc);
    assert_that!(&rt; save(&mut vault, &chip).is_ok());
    let right = vault.bytes();
    assert_that!(&rt; vault.is_sealed() && is_whole(right));
    for kept in [0, 1, 4095, 5000] {
        refuse_each(&rt, alloc, right, kept);
    }
    let told = (Ok(()), 0, true);
    assert_broken(&rt, alloc, (0, 0), told, Some(right));
    assert_broken(&rt, alloc, (6, 0), told, Some(right));
}

/// A file in memory that accepts at most `most` bytes per write and `writes` writes. If `syncs` is true, `sync_all`
/// succeeds and `sync_data` fails; otherwise it is the reverse. `resized` is true if `set_len` was called.
#[derive(Drop)]
struct SmallFile {
    bytes: Vec<u8>,
    most: usize,
    writes: u32,
    syncs: bool,
    resized: Cell<bool>,
}

impl SmallFile {
    fn new(alloc: Global, most: usize, writes: u32, syncs: bool) -> SmallFile {
        SmallFile {
            bytes: Vec::new(alloc),
            most,
            writes,
            syncs,
            resized: Cell::new(false),
        }
    }
}

impl Write for SmallFile {
    fn write(&mut self, buf: &[u8]) -> io::Result<usize> {
        if self.writes == 0 {
            return Err(io::Error::from(io::ErrorKind::Other));
        }
        self.writes -= 1;
        let taken = buf.len().min(self.most);
        self.bytes.extend_from_slice(&buf[..taken])?;
        Ok(taken)
    }

    fn flush(&mut self) -> io::Result<()> {
        Ok(())
    }
}

impl OpenFile for SmallFile {
    fn metadata(&self) -> io::Result<Metadata> {
        Err(io::Error::from(io::ErrorKind::Unsupported))
    }

    fn set_len(&self, _size: u64) -> io::Result<()> {
        self.resized.set(true);
        Err(io::Error::from(io::ErrorKind::Unsupported))
    }

    fn sync_all(&self) -> io::Result<()> {
        if self.syncs {
            Ok(())
        } else {
            Err(io::Error::from(io::ErrorKind::Other))
        }
    }

    fn sync_data(&self) -> io::Result<()> {
        if self.syncs {
            Err(io::Error::from(io::ErrorKind::Other))
        } else {
            Ok(())
        }
    }
}

// Each row has `most`, `writes` and `syncs` of a `SmallFile`, the expected result, and the expected length of the file.
const FILES: [(usize, u32, bool, Result<(), VaultFault>, usize); 9] = [
    (1, u32::MAX, true, Ok(()), 4161),
    (4096, u32::MAX, true, Ok(()), 4161),
    (usize::MAX, 4, true, Ok(()), 4161),
    // In the next row no write succeeds, and in the row after it each write accepts no bytes.
    (2, 0, true, Err(VaultFault { kept: 0 }), 0),
    (0, u32::MAX, true, Err(VaultFault { kept: 0 }), 0),
    // The second write of the first piece fails.
    (2, 1, true, Err(VaultFault { kept: 2 }), 2),
    // The third write fails, inside the record.
    (2050, 2, true, Err(VaultFault { kept: 2050 }), 2075),
    // In the next row the write of the digest fails, and in the last row the sync.
    (usize::MAX, 3, true, Err(VaultFault { kept: 0 }), 4129),
    (usize::MAX, 4, false, Err(VaultFault { kept: 0 }), 4161),
];

fn saved(chip: &Journal<'_>, file: SmallFile) -> (Result<(), VaultFault>, usize, bool, bool) {
    let mut vault = FileVault::new(file);
    let told = save(&mut vault, chip);
    let file = vault.into_inner();
    (
        told,
        file.bytes.len(),
        is_whole(&file.bytes),
        file.resized.get(),
    )
}

#[test]
fn files_that_refuse(rt: HostRuntime) {
    let chip = Journal::read(&EMPTY).expect(&rt, "a journal");
    for (most, writes, syncs, answer, length) in FILES {
        let file = SmallFile::new(rt.alloc(), most, writes, syncs);
        let left = saved(&chip, file);
        let wanted = (answer, length, length == 4161, false);
        assert_held(&rt, left == wanted, most as u64);
    }
}

#[derive(Drop)]
struct KnownFile {
    bytes: Vec<u8>,
    synced: usize,
}

impl KnownFile {
    fn is_synced_with(&self, bytes: &[u8]) -> bool {
        self.bytes.as_slice() == bytes && self.synced == bytes.len()
    }
}

impl VaultFile for KnownFile {
    ghost contents = { λ file. Some file.bytes.items };

    ghost synced = { λ file. Some (take file.synced file.bytes.items) };

    fn append(&mut self, piece: &[u8]) -> io::Result<usize> {
        self.bytes.extend_from_slice(piece)?;
        Ok(piece.len())
    }

    fn sync(&mut self) -> io::Result<()> {
        self.synced = self.bytes.len();
        Ok(())
    }
}

fn assert_taken(rt: &impl Abort, alloc: Global, length: usize) {
    let piece = vec![in alloc; 0x5A; length].expect(rt, "memory");
    let mut memory = MemVault::new(alloc);
    let bytes = Vec::new(alloc);
    let mut vault = FileVault::new(KnownFile { bytes, synced: 0 });
    let told = [memory.put(&piece), vault.put(&piece), vault.seal()];
    let file = vault.into_inner();
    assert_held(rt, told == [Ok(()); 3], length as u64);
    assert_held(rt, memory.bytes() == piece.as_slice(), length as u64);
    assert_held(rt, file.is_synced_with(&piece), length as u64);
}

#[test]
fn pieces_of_all_lengths(rt: HostRuntime) {
    for length in [1, 2, 255, 4095, 4096, 4097, 4100, 65537, 100_001, 1 << 20] {
        assert_taken(&rt, rt.alloc(), length);
    }
}

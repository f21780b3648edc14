//! Vaults over a file on which one call fails: the vault must report the failure, and must not repeat the call.
ghost use Rattle.std.specs.Prelude.{None};

use crate::held::{assert_held, assert_that};
use crate::row::{Row, Start};
use crate::runs::{self, assert_untouched};
use nor_chip::Meter;
use nor_journal::{FileVault, Journal, Vault, VaultFault, VaultFile};
use nor_session::Refusal;
use std::alloc::Global;
use std::io;
use std::process::Abort;

#[derive(Clone, Copy, PartialEq, Eq)]
enum Failure {
    Write(usize),
    // After this number of writes, the next one accepts no bytes.
    Nothing(usize),
    Sync,
}

// A file in memory on which at most one call fails. It records its length before each write and at the last sync.
#[derive(Drop)]
struct OnceFile {
    failure: Option<Failure>,
    most: usize,
    bytes: Vec<u8>,
    writes: Vec<usize>,
    syncs: Syncs,
}

#[derive(Clone, Copy, PartialEq, Eq)]
struct Syncs {
    count: usize,
    length: usize,
}

impl Syncs {
    const NONE: Syncs = Syncs {
        count: 0,
        length: 0,
    };

    const fn once(length: usize) -> Syncs {
        Syncs { count: 1, length }
    }
}

impl OnceFile {
    fn new(alloc: Global, most: usize, failure: Option<Failure>) -> OnceFile {
        OnceFile {
            failure,
            most,
            bytes: Vec::new(alloc),
            writes: Vec::new(alloc),
            syncs: Syncs::NONE,
        }
    }

    fn has(&self, writes: &[usize], syncs: Syncs, bytes: &[u8]) -> bool {
        self.writes.as_slice() == writes && self.syncs == syncs && self.bytes.as_slice() == bytes
    }

    fn is_whole(&self, writes: usize, length: usize) -> bool {
        let lengths = (self.writes.len(), self.bytes.len());
        lengths == (writes, length)
            && self.syncs == Syncs::once(length)
            && Journal::read(&self.bytes).is_ok()
    }

    // Returns whether the last call was write `n`, counted from 0, and everything before it is as in the file `right`.
    fn ends_before(&self, right: &OnceFile, n: usize) -> bool {
        let (Some(writes), Some(before)) = (
            right.writes.get(0..n.saturating_add(1)),
            right.writes.get(n),
        ) else {
            return false;
        };
        let Some(bytes) = right.bytes.get(0..*before) else {
            return false;
        };
        self.has(writes, Syncs::NONE, bytes)
    }
}

impl VaultFile for OnceFile {
    ghost contents = { λ file. None };

    ghost synced = { λ file. None };

    fn append(&mut self, piece: &[u8]) -> io::Result<usize> {
        let before = self.writes.len();
        self.writes.push(self.bytes.len())?;
        if self.failure == Some(Failure::Write(before)) {
            return Err(io::Error::from(io::ErrorKind::Other));
        }
        if self.failure == Some(Failure::Nothing(before)) {
            return Ok(0);
        }
        let taken = piece.len().min(self.most);
        self.bytes.extend_from_slice(&piece[..taken])?;
        Ok(taken)
    }

    fn sync(&mut self) -> io::Result<()> {
        let is_first = self.syncs == Syncs::NONE;
        self.syncs.count = self.syncs.count.saturating_add(1);
        self.syncs.length = self.bytes.len();
        if is_first && self.failure == Some(Failure::Sync) {
            return Err(io::Error::from(io::ErrorKind::Other));
        }
        Ok(())
    }
}

fn keep(
    rt: &impl Abort,
    alloc: Global,
    row: Row,
    most: usize,
    failure: Option<Failure>,
) -> (Option<Refusal>, OnceFile) {
    let mut bus = row.bus(rt, alloc, Start::IDLE);
    bus.allow(u64::MAX);
    let mut vault = FileVault::new(OnceFile::new(alloc, most, failure));
    let refusal = runs::keep(rt, alloc, row, &mut bus, &mut vault).err();
    if refusal.is_some() {
        assert_untouched(rt, alloc, row, &bus);
    }
    (refusal, vault.into_inner())
}

fn fail(rt: &impl Abort, alloc: Global, row: Row, most: usize, failure: Failure) -> OnceFile {
    let (refusal, file) = keep(rt, alloc, row, most, Some(failure));
    assert_that!(rt; refusal == Some(Refusal::Vault));
    file
}

fn fail_write(rt: &impl Abort, alloc: Global, row: Row, right: &OnceFile, n: usize) {
    for failure in [Failure::Write(n), Failure::Nothing(n)] {
        let file = fail(rt, alloc, row, right.most, failure);
        assert_held(rt, file.ends_before(right, n), n as u64);
    }
}

fn fail_at_each(rt: &impl Abort, alloc: Global, row: Row, most: usize, counted: (usize, usize)) {
    let (writes, length) = counted;
    let (refusal, right) = keep(rt, alloc, row, most, None);
    assert_that!(rt; refusal.is_none() && right.is_whole(writes, length));
    for n in 0..writes {
        fail_write(rt, alloc, row, &right, n);
    }
    let file = fail(rt, alloc, row, most, Failure::Sync);
    assert_that!(rt; file.has(&right.writes, right.syncs, &right.bytes));
}

// Each row has a session, the greatest number of bytes that a write accepts, and the numbers of writes and bytes of the
// session's journal.
const ROWS: [(Row, usize, (usize, usize)); 3] = [
    (Row::ABitRises, 5000, (1 + 1 + 2, 61 + 4100)),
    (Row::ABitRises, 1000, (1 + 5 + 2, 61 + 4100)),
    (
        Row::NineSectorsAreErased,
        4096,
        (1 + 2 * 9 + 2, 61 + 4100 * 9),
    ),
];

#[test]
fn a_file_that_fails_once_ends_the_session(rt: HostRuntime) {
    for (row, most, counted) in ROWS {
        fail_at_each(&rt, rt.alloc(), row, most, counted);
    }
}

fn put_half(rt: &impl Abort, alloc: Global, failure: Failure) {
    let mut vault = FileVault::new(OnceFile::new(alloc, 2, Some(failure)));
    let told = vault.put(b"piece");
    let file = vault.into_inner();
    assert_that!(rt; told == Err(VaultFault { kept: 2 }));
    assert_that!(rt; file.has(&[0, 2], Syncs::NONE, b"pi"));
}

fn put_all(rt: &impl Abort, alloc: Global) {
    let mut vault = FileVault::new(OnceFile::new(alloc, 5, Some(Failure::Sync)));
    let told = [vault.put(b"piece"), vault.seal()];
    let file = vault.into_inner();
    assert_that!(rt; told == [Ok(()), Err(VaultFault { kept: 0 })]);
    assert_that!(rt; file.has(&[0], Syncs::once(5), b"piece"));
}

#[test]
fn a_failure_is_returned_at_once(rt: HostRuntime) {
    let alloc = rt.alloc();
    put_half(&rt, alloc, Failure::Write(1));
    put_half(&rt, alloc, Failure::Nothing(1));
    put_all(&rt, alloc);
}

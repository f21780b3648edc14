//! Changes of files in memory (`Memory`) that are interrupted, as by a killed process or a host crash.
use crate::held::{assert_held, assert_that};
use nor_files::{Loss, Memory, Store};
use nor_journal::Vault;
use std::alloc::Global;
use std::io;
use std::process::Abort;

fn change<S: Store>(files: &mut S) -> io::Result<()> {
    let mut journal = files.vault_in_new("journal")?;
    let _ = journal.put(b"abcd");
    let _ = journal.seal();
    if files.return_vault(journal) {
        files.write_over("image", b"wxyz")?;
        files.sync("image")?;
    }
    Ok(())
}

// Runs `change` on files with the limit `left`, and returns what the files contain after `loss`.
fn left_of(rt: &impl Abort, alloc: Global, left: u64, is_torn: bool, loss: Loss) -> Memory {
    let mut files = Memory::new(alloc, left);
    files.put("image", b"abcd").expect(rt, "memory");
    if is_torn {
        files.tear();
    }
    let _ = change(&mut files);
    files.lose(loss, 9)
}

fn has(files: &Memory, name: &str, bytes: &[u8]) -> bool {
    files.bytes_of(name) == Some(bytes)
}

#[test]
fn changes_are_lost_until_they_are_synced(rt: HostRuntime) {
    let alloc = rt.alloc();
    for left in 0..5 {
        let killed = left_of(&rt, alloc, left, false, Loss::Nothing);
        let lost = left_of(&rt, alloc, left, false, Loss::Unsynced);
        let torn = left_of(&rt, alloc, left, true, Loss::Nothing);
        let image: &[u8] = if left < 2 { b"abcd" } else { b"wxyz" };
        assert_held(&rt, has(&killed, "image", image), left);
        let image: &[u8] = if left < 3 { b"abcd" } else { b"wxyz" };
        assert_held(&rt, has(&lost, "image", image), left);
        let image: &[u8] = match left {
            0 | 1 => b"abcd",
            2 => b"wxcd",
            _ => b"wxyz",
        };
        assert_held(&rt, has(&torn, "image", image), left);
        for files in [&killed, &lost, &torn] {
            assert_held(&rt, has(files, "journal", b"abcd") == (left > 0), left);
        }
    }
}

#[test]
fn a_torn_write_fails(rt: HostRuntime) {
    for is_torn in [false, true] {
        let mut files = Memory::new(rt.alloc(), 1);
        files.put("image", b"abcd").expect(&rt, "memory");
        if is_torn {
            files.tear();
        }
        let written = files.write_over("image", b"wxyz");
        assert_that!(&rt; written.is_err() == is_torn);
    }
}

// The host crash loses all bytes that weren't synced.
#[test]
fn a_sealed_vault_is_durable(rt: HostRuntime) {
    for is_sealed in [false, true] {
        let mut files = Memory::new(rt.alloc(), 9);
        files.put("copy", b"old").expect(&rt, "memory");
        let mut vault = files.vault_in("copy").expect(&rt, "a vault");
        let _ = vault.put(b"new");
        if is_sealed {
            let _ = vault.seal();
        }
        assert_that!(&rt; files.return_vault(vault) == is_sealed);
        let files = files.lose(Loss::Unsynced, 0);
        let kept: &[u8] = if is_sealed { b"new" } else { b"old" };
        assert_that!(&rt; has(&files, "copy", kept));
    }
}

fn fill<S: Store>(files: &mut S) -> io::Result<()> {
    files.make("status")?;
    files.sync_folder("status")?;
    files.set_len("status", 3)?;
    files.write_over("status", b"12")?;
    files.sync("status")?;
    files.log_in("trace")?;
    Ok(())
}

#[test]
fn a_name_is_lost_until_its_folder_is_synced(rt: HostRuntime) {
    let steps: [(Option<&[u8]>, Option<&[u8]>); 7] = [
        (None, None),
        (Some(b""), None),
        (Some(b""), Some(b"")),
        (Some(b"\0\0\0"), Some(b"")),
        (Some(b"12\0"), Some(b"")),
        (Some(b"12\0"), Some(b"12\0")),
        (Some(b"12\0"), Some(b"12\0")),
    ];
    for (left, (seen, kept)) in steps.into_iter().enumerate() {
        for (loss, found) in [(Loss::Nothing, seen), (Loss::Unsynced, kept)] {
            let mut files = Memory::new(rt.alloc(), left as u64);
            assert_that!(&rt; fill(&mut files).is_ok() == (left == 6));
            let mut files = files.lose(loss, 1);
            assert_that!(&rt; files.bytes_of("status") == found);
            assert_that!(&rt; files.hold("status").ok() == Some(found.is_some()));
            assert_that!(&rt; files.hold("status").is_err());
        }
    }
}

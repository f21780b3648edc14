//! Checksums of the sectors that a run reads before the first modifying command, and of those that it reads in the
//! comparison after a restore.
ghost use Rattle.std.specs.Prelude.{◌≡◌, ◌+◌, ◌*◌, ◌/◌};

use crate::replies::Replies;
use crate::steps::Phase;
use crate::terminal::Terminal;
use nor_console::Escaped;
use nor_files::{Disk, Store};
use nor_journal::Vault;
use nor_model::opcodes::{ERASE_32K, ERASE_64K, ERASE_CHIP, ERASE_SECTOR, PAGE_PROGRAM, READ_DATA};
use nor_sums::{SECTORS, SHEET_LEN, Sums, encode};
use std::alloc::{AllocError, Global};
use std::fmt;

/// Checksums (`nor_sums`) of sectors that a run reads. `before` is for the sectors that were read before the first
/// modifying command and were not erased or programmed later. `after` is for the sectors that were read in the
/// comparison after a restore. In each of them, a later checksum of a sector replaces an earlier one.
#[derive(Drop)]
pub struct Notes {
    before: Sums,
    after: Sums,
    // the name of the file for `before`, and memory for the bytes of this file; `None` if no file is written
    file: Option<(String, Vec<u8>)>,
}

impl Notes {
    ghost use Rattle.board_progress.specs.Notes.{after_of};

    /// Returns `Notes` without checksums. `name` is the file that `write` creates, if any. Fails if memory runs out.
    pub fn new(alloc: Global, name: Option<String>) -> Result<Notes, AllocError> {
        let file = match name {
            Some(name) => Some((name, Vec::with_capacity(alloc, SHEET_LEN)?)),
            None => None,
        };
        Ok(Notes {
            before: Sums::new(alloc)?,
            after: Sums::new(alloc)?,
            file,
        })
    }

    /// Records a transaction that was carried out in this phase. For a read of a whole sector, stores the checksum of
    /// the reply: in `before` in the phase `Before`, and in `after` in the phase `After` if `new` received no name. For
    /// an erase or a program, removes the checksums of the addressed sectors from `before`.
    pub fn note(&mut self, phase: Phase, out: &[u8], reply: &[u8]) {
        match (phase, read_sector_of(out, reply)) {
            (Phase::Before, Some(sector)) => self.before.record(sector, reply),
            (Phase::After, Some(sector)) if self.file.is_none() => {
                self.after.record(sector, reply);
            }
            _ => self.forget(out),
        }
    }

    fn forget(&mut self, out: &[u8]) {
        let (first, count) = match out {
            [PAGE_PROGRAM | ERASE_SECTOR, high, middle, ..] => (sector_at(*high, *middle), 1),
            [ERASE_32K, high, middle, ..] => (sector_at(*high, *middle) / 8 * 8, 8),
            [ERASE_64K, high, middle, ..] => (sector_at(*high, *middle) / 16 * 16, 16),
            [ERASE_CHIP, ..] => (0, SECTORS),
            _ => return,
        };
        for sector in first..first + count {
            self.before.forget(sector);
        }
    }

    /// Returns the checksum of the sector in `before`, if there is one.
    pub fn before(&self, sector: usize) -> Option<[u8; 8]> {
        self.before.get(sector)
    }

    /// Returns the checksums of the sectors that were read in the comparison after a restore.
    pub fn after(&self) -> &Sums
        ensures { result.now ≡ after_of self.now }
    {
        &self.after
    }

    /// If `new` received a name, writes `before` with the chip's ID and unique ID to a new file of this name, and syncs
    /// the file. Must be called before the first modifying command. If the file can't be created, written or synced,
    /// prints and logs a line.
    pub fn write(&mut self, terminal: Terminal<'_>, replies: Replies) {
        let Some((name, room)) = &mut self.file else {
            return;
        };
        let id = replies.id.unwrap_or([0; 3]);
        let unique = replies.unique.unwrap_or([0; 8]);
        let is_written = match encode(id, unique, &self.before, &mut *room) {
            Ok(()) => store(
                &mut Disk::new(terminal.rt()),
                name.as_str(),
                room.as_slice(),
            ),
            Err(_) => false,
        };
        if !is_written {
            let line = UnwrittenLine(name.as_str());
            terminal.end_line();
            let _ = eprintln!(terminal.rt(); "{line}");
            terminal.log().write_line(&line);
        }
    }
}

fn store<R: Store>(files: &mut R, name: &str, bytes: &[u8]) -> bool {
    let Ok(mut vault) = files.vault_in_new(name) else {
        return false;
    };
    let is_put = vault.put(bytes).is_ok() && vault.seal().is_ok();
    files.return_vault(vault);
    is_put
}

#[derive(Clone, Copy, Drop)]
struct UnwrittenLine<'a>(&'a str);

impl fmt::Display for UnwrittenLine<'_> {
    fn fmt<W: fmt::Write>(&self, f: &mut fmt::Formatter<W>) -> fmt::Result {
        write!(
            f,
            "{} can't be written, so a restore won't find out whether another sector was damaged. The journal is \
            sealed.",
            Escaped(self.0)
        )
    }
}

fn read_sector_of(out: &[u8], reply: &[u8]) -> Option<usize> {
    match out {
        [READ_DATA, high, middle, 0] if middle % 16 == 0 && reply.len() == 4096 => {
            Some(sector_at(*high, *middle))
        }
        _ => None,
    }
}

fn sector_at(high: u8, middle: u8) -> usize
    ensures { result ≡ 16 * high + middle / 16 }
{
    16 * usize::from(high) + usize::from(middle) / 16
}

//! The sums file `JOURNAL.sectors`: checksums (`nor_sums`) of the chip's sectors before the session with this journal.

use crate::file_hints::print_hint;
use crate::tasks::changes_bytes;
use nor_args::{Change, JournalUse, Operation, Task};
use nor_console::{Cause, Escaped, exists};
use nor_files::Store;
use nor_journal::Journal;
use nor_sums::{SHEET_LEN, Sheet, Sums, decode};
use std::alloc::{AllocError, Global};
use std::fmt;
use std::io::Write;

const SUFFIX: &str = ".sectors";

/// Returns the name of the sums file of this journal, or an error if memory runs out.
pub fn sums_name(alloc: Global, journal: &str) -> Result<String, AllocError> {
    let mut name = String::from_str(alloc, journal)?;
    name.push_str(SUFFIX)?;
    Ok(name)
}

/// Returns the name of the journal of a write or an erase, or `None` without a journal or for another operation.
pub fn noting_journal<'a>(operation: &Operation<'a>) -> Option<&'a str> {
    match &operation.task {
        Task::Change(
            Change {
                wanted,
                journal_use: JournalUse::Journal { file },
                ..
            },
        ) if changes_bytes(*wanted) => Some(*file),
        _ => None,
    }
}

/// Returns false and prints file fault 4 if the journal of a write or an erase doesn't exist yet, but its sums file
/// does. Otherwise returns true, even if memory runs out. (A journal that exists already is reported later.)
pub fn is_new<R: Store, E: Write>(files: &R, operation: &Operation<'_>, errors: &mut E) -> bool {
    let Some(journal) = noting_journal(operation) else {
        return true;
    };
    let Ok(name) = sums_name(files.alloc(), journal) else {
        return true;
    };
    if files.is_there(journal) || !files.is_there(name.as_str()) {
        return true;
    }
    let fault = exists(name.as_str(), Cause::Exists);
    let _ = writeln!(errors, "{fault}");
    print_hint(errors, &fault);
    false
}

/// The contents of the sums file of a restore's journal, or the reason why they aren't used.
#[derive(Drop)]
pub enum Before {
    /// The job isn't a restore or has `-N`, or its journal is invalid or saves all sectors.
    Unneeded,
    /// The file is missing, and the journal saves no sector, as after a session of `--wp-range`.
    Unwritten,
    /// The file is missing, and the journal saves a sector.
    Missing,
    /// The file can't be read or has other contents than a session writes, or memory ran out.
    Damaged,
    /// The file doesn't fit the journal: the ID, the unique ID or the checksum of a saved sector differs or is missing.
    Other,
    /// The checksums of sectors that the journal doesn't save, from before the session.
    Known(Sums),
}

/// Reads the sums file of a restore's journal. `bytes` are the bytes of this journal.
pub fn read_before<R: Store>(files: &R, operation: &Operation<'_>, bytes: &[u8]) -> Before {
    match &operation.task {
        Task::Restore { journal } if operation.verifies_all => match Journal::read(bytes) {
            Ok(saved) if saved.count() < saved.size() as usize / 4096 => {
                match read_beside(files, *journal, &saved) {
                    Before::Missing if saved.count() == 0 => Before::Unwritten,
                    before => before,
                }
            }
            _ => Before::Unneeded,
        },
        _ => Before::Unneeded,
    }
}

fn read_beside<R: Store>(files: &R, name: &str, journal: &Journal<'_>) -> Before {
    let Ok(name) = sums_name(files.alloc(), name) else {
        return Before::Damaged;
    };
    match files.read_named(name.as_str(), SHEET_LEN as u64 + 1) {
        Ok(Some(bytes)) => match decode(files.alloc(), &bytes) {
            Ok(Some(sheet)) => before_of(sheet, journal),
            _ => Before::Damaged,
        },
        Ok(None) => Before::Missing,
        Err(_) => Before::Damaged,
    }
}

fn before_of(sheet: Sheet, journal: &Journal<'_>) -> Before {
    if !sheet.fits(journal) {
        return Before::Other;
    }
    let mut sums = sheet.sums;
    for i in 0..journal.count() {
        let (number, _) = journal.sector(i);
        sums.forget(number as usize);
    }
    Before::Known(sums)
}

/// The line that a restore prints if its sums file can't be used. `journal` names its journal, and `why` is the reason.
#[derive(Clone, Copy, Drop)]
pub struct UnknownLine<'a> {
    pub journal: &'a str,
    pub why: &'static str,
}

impl fmt::Display for UnknownLine<'_> {
    fn fmt<W: fmt::Write>(&self, f: &mut fmt::Formatter<W>) -> fmt::Result {
        let (name, why) = (Escaped(self.journal), self.why);
        write!(
            f,
            "{name}{SUFFIX} {why}, so it isn't known whether the session damaged another sector. To find out, compare \
            the chip with an image (-v), or restore from a backup (--quick)."
        )
    }
}

impl Before {
    /// Returns why the checksums are lacking, or `None` if they are known or not needed.
    pub fn why_unknown(&self) -> Option<&'static str> {
        match self {
            Before::Missing => Some("is missing"),
            Before::Unwritten => Some("isn't written by a session that saves no sector"),
            Before::Damaged => Some("is damaged"),
            Before::Other => Some("belongs to another journal"),
            Before::Unneeded | Before::Known(_) => None,
        }
    }
}

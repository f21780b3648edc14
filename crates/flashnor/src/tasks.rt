//! Whether a task writes the chip's contents back to the chip's files, and which journal a task creates.
ghost use Rattle.std.specs.Prelude.{◌≡◌};
ghost use Rattle.flashnor.specs.Tasks.{journal_by, writes_back};

use nor_args::{Change, JournalUse, Task};
use nor_console::journal_of;

/// Returns true for a restore or a change that isn't a rehearsal: the chip is then written back to its files.
pub fn writes_back(task: &Task<'_>) -> bool
    ensures { result ≡ writes_back task.now }
{
    match task {
        Task::Change(Change { journal_use, .. }) => match journal_use {
            JournalUse::Journal { .. } => true,
            JournalUse::Rehearse { .. } => false,
        },
        Task::Restore { .. } => true,
        _ => false,
    }
}

/// Returns the name of the journal that the task creates in a file, or `None` if it creates none.
pub fn journal_by<'a>(task: &Task<'a>) -> Option<&'a str>
    ensures { result ≡ journal_by task.now }
{
    match task {
        Task::Change(change) => journal_of(change),
        _ => None,
    }
}

//! Properties of a task: whether it is a session, what it changes, and which journal it creates.
ghost use Rattle.std.specs.Prelude.{◌≡◌};
ghost use Rattle.board_files.specs.Tasks.{changes_bytes, is_compared};

use nor_args::{Change, JournalUse, Operation, Task, Wanted};

/// Returns whether the whole chip is compared after this change: after a write or an erase without `-n` and `-N`.
pub fn is_compared(operation: &Operation<'_>, change: &Change<'_>) -> bool
    ensures { result ≡ is_compared operation.now change.now }
{
    changes_bytes(change.wanted) && (change.verify && operation.verifies_all)
}

/// Returns whether the task is a write, an erase or a change of protection, or a rehearsal of one of these.
pub fn is_session(task: &Task<'_>) -> bool {
    matches!(task, Task::Change(_))
}

/// Returns the name of the session's journal, or `None` for a rehearsal or another task.
pub fn journal_of<'a>(task: &Task<'a>) -> Option<&'a str> {
    match task {
        Task::Change(
            Change {
                journal_use: JournalUse::Journal { file },
                ..
            },
        ) => Some(*file),
        _ => None,
    }
}

/// Returns true for a write or an erase.
pub fn changes_bytes(wanted: Wanted<'_>) -> bool
    ensures { result ≡ changes_bytes wanted.entry }
{
    !matches!(wanted, Wanted::Range { .. })
}

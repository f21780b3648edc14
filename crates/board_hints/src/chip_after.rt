//! The state of the chip after a job that failed.

use board_files::Quoted;
use nor_console::Escaped;
use std::fmt;

/// The state of the chip after a job that failed, displayed as at most two sentences, each after a space.
#[derive(Clone, Copy, Drop)]
pub enum ChipAfter<'a> {
    Reading,
    /// The job was a session that sent no modifying command.
    Unchanged,
    /// The job was a restore, or a session that may have sent a modifying command. `journal` names the journal's file.
    Changed {
        journal: Option<&'a str>,
        /// True if a session with `--unlock` may have lifted the chip's protection.
        may_be_unprotected: bool,
    },
    /// The session or the restore succeeded. Only the comparison afterwards failed.
    Completed,
    /// The job was a change of SRP0 that may have sent its status write, so SRP0 may have either value.
    EitherLock,
}

impl fmt::Display for ChipAfter<'_> {
    fn fmt<W: fmt::Write>(&self, f: &mut fmt::Formatter<W>) -> fmt::Result {
        let ChipAfter::Changed {
            journal,
            may_be_unprotected,
        } = *self
        else {
            return match self {
                ChipAfter::Unchanged => f.write_str(" The chip was not changed."),
                ChipAfter::EitherLock => {
                    f.write_str(
                        " Then repeat the run: until it succeeds, SRP0 may have either value.",
                    )
                }
                _ => Ok(()),
            };
        };
        match journal {
            Some(name) => write!(
                f,
                " Then restore the chip with --restore {}.",
                JournalName(name)
            )?,
            None => f.write_str(" Then restore the chip with --restore and the journal.")?,
        }
        if may_be_unprotected {
            f.write_str(" Until then it may be unprotected.")?;
        }
        Ok(())
    }
}

#[derive(Clone, Copy, Drop)]
struct JournalName<'a>(&'a str);

impl fmt::Display for JournalName<'_> {
    fn fmt<W: fmt::Write>(&self, f: &mut fmt::Formatter<W>) -> fmt::Result {
        match Quoted::new(self.0) {
            Some(name) => write!(f, "{name}"),
            None => write!(
                f,
                "and the journal, whose name can't be copied: {}",
                Escaped(self.0)
            ),
        }
    }
}

//! The line that follows the line of error 12: the cause and, in most cases, what to do and how the job left the chip.

use board_hints::ChipAfter;
use board_progress::{DIFFERED, OtherLine, StatusLine, keeps_srp0};
use nor_buses::CheckFault;
use serprog_board::{Causes, FailureText};
use std::fmt;

/// The line that follows the line of error 12.
#[derive(Drop)]
pub struct StopLine<'a> {
    pub causes: Causes<'a>,
    pub left: ChipAfter<'a>,
}

impl fmt::Display for StopLine<'_> {
    fn fmt<W: fmt::Write>(&self, f: &mut fmt::Formatter<W>) -> fmt::Result {
        let causes = self.causes;
        if let Some(other) = causes.other {
            return write!(f, "{}{}", OtherLine(other), self.left);
        }
        match (causes.failure, causes.status) {
            (Some(failure), _) => write!(f, "Cause: {}. {POWER_CYCLE}", FailureText(failure))?,
            (None, Some(fault)) => {
                write!(f, "{}", StatusLine(fault))?;
                if is_ignored(fault) && matches!(self.left, ChipAfter::EitherLock) {
                    return Ok(());
                }
            }
            (None, None) if causes.is_lost => f.write_str(LOST)?,
            (None, None) if causes.differed => f.write_str(DIFFERED)?,
            (None, None) => f.write_str("Cause: unknown.")?,
        }
        write!(f, "{}", self.left)
    }
}

fn is_ignored(fault: CheckFault) -> bool {
    match fault {
        CheckFault::NotStored { sent, found } => keeps_srp0(sent, found),
        _ => false,
    }
}

const LOST: &str =
    "Cause: the chip has no contact or no supply any more: its status and its ID are FFh in all bits. Check contacts \
    and supply.";

const POWER_CYCLE: &str =
    "Disconnect the programmer from power for a second before the next run: it may wait for the rest of \
    a command, which the next run would complete.";

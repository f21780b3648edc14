//! The faults with which a job ends, and the lines that are printed for these faults.
ghost use Rattle.std.specs.Prelude.{◌≡◌};

use crate::status_bits::status_bits;
use board_progress::StatusLine;
use nor_buses::CheckFault;
use nor_console::{Fault, Outcome};
use nor_driver::OperationError;
use nor_session::Refusal;
use std::alloc::AllocError;
use std::fmt;

/// The fault with which a job ends, displayed as one or more lines.
#[derive(Drop)]
pub enum JobFault<'a> {
    Fault(Fault<'a>),
    /// Chip fault 1, before a write or an erase: the chip's block protection is unknown, and a bit of the chip's
    /// status 1 that may protect sectors is set. Nothing was changed, and no journal was created.
    Protected { status1: u8, id: [u8; 3] },
    /// Chip fault 3 after a change of SRP0: the status bytes `sent` were written, but the bytes `found`, which were
    /// read back, differ from `sent` in a non-volatile bit.
    NotStored { sent: [u8; 2], found: [u8; 2] },
    /// The comparison after a successful session returned this error. Error 14 is printed as chip fault 4.
    NotCompared { refusal: Refusal },
    /// After a restore, the comparison of the sectors that the journal doesn't save returned error 12 or 14. Error
    /// 14 is printed as chip fault 4. If `outcome`, the restore's result, is an error, this error is printed first.
    RestNotCompared { outcome: Outcome, refusal: Refusal },
}

impl<'a> From<Fault<'a>> for JobFault<'a> {
    ghost use Rattle.board_jobs.specs.declared.chip_faults.JobFault.TheVariants as ended;

    ghost from_gives = { λ fault of_job. of_job ≡ ended.Fault fault };

    fn from(fault: Fault<'a>) -> JobFault<'a> {
        JobFault::Fault(fault)
    }
}

impl From<Refusal> for JobFault<'_> {
    ghost use Rattle.board_jobs.specs.declared.chip_faults.JobFault.TheVariants as ended;
    ghost use Rattle.nor_console.specs.declared.messages.Fault.TheVariants.{Refused};

    ghost from_gives = { λ refusal of_job. of_job ≡ ended.Fault (Refused refusal) };

    fn from(refusal: Refusal) -> Self {
        JobFault::Fault(Fault::Refused(refusal))
    }
}

impl From<OperationError> for JobFault<'_> {
    ghost use Rattle.board_jobs.specs.declared.chip_faults.JobFault.TheVariants as ended;
    ghost use Rattle.nor_console.specs.declared.messages.Fault.TheVariants.{Refused};
    ghost use Rattle.nor_request.specs.Refusal.{of_operation};

    ghost from_gives = { λ error of_job. of_job ≡ ended.Fault (Refused (of_operation error)) };

    fn from(error: OperationError) -> Self {
        JobFault::from(Refusal::from(error))
    }
}

impl From<AllocError> for JobFault<'_> {
    ghost use Rattle.board_jobs.specs.declared.chip_faults.JobFault.TheVariants as ended;
    ghost use Rattle.nor_console.specs.declared.messages.Fault.TheVariants.{Refused};
    ghost use Rattle.nor_request.specs.declared.refusal.Refusal.TheVariants.{Memory};

    ghost from_gives = { λ _ of_job. of_job ≡ ended.Fault (Refused Memory) };

    fn from(error: AllocError) -> Self {
        JobFault::Fault(Fault::from(error))
    }
}

impl JobFault<'_> {
    /// Returns whether the job ended with error 12 (the bus stopped).
    pub fn is_stop(&self) -> bool {
        matches!(
            self,
            JobFault::Fault(Fault::Refused(Refusal::Stopped))
                | JobFault::NotCompared {
                    refusal: Refusal::Stopped
                }
                | JobFault::RestNotCompared {
                    refusal: Refusal::Stopped,
                    ..
                }
        )
    }

    /// Returns whether the change or the restore succeeded, and only the comparison after it failed.
    pub fn follows_completion(&self) -> bool {
        matches!(
            self,
            JobFault::NotCompared { .. } | JobFault::RestNotCompared { outcome: Ok(_), .. }
        )
    }

    /// Returns a further line if the comparison after a change or restore failed with another error than 14.
    pub fn note(&self) -> Option<&'static str> {
        match self {
            JobFault::NotCompared {
                refusal: Refusal::Mismatch { .. },
            } => None,
            JobFault::NotCompared { .. } => Some(NOT_COMPARED),
            JobFault::RestNotCompared {
                refusal: Refusal::Mismatch { .. },
                ..
            } => None,
            JobFault::RestNotCompared { .. } => Some(REST_NOT_COMPARED),
            _ => None,
        }
    }
}

const NOT_COMPARED: &str =
    "The change was made, and its sectors were verified. Only the comparison \
    of the whole chip is missing.";

const REST_NOT_COMPARED: &str =
    "The sectors that the journal doesn't save were not compared after the restore. \
    Compare the chip with a backup.";

impl fmt::Display for JobFault<'_> {
    fn fmt<W: fmt::Write>(&self, f: &mut fmt::Formatter<W>) -> fmt::Result {
        match self {
            JobFault::Fault(fault) => write!(f, "{fault}"),
            JobFault::Protected { status1, id } => {
                let bits = status_bits(*id, *status1);
                write!(
                    f,
                    "Chip fault 1: status 1 of this chip is {status1:02X}h. {} Nothing was changed. {}",
                    bits.meaning, bits.advice
                )
            }
            JobFault::NotStored { sent, found } => {
                let (sent, found) = (*sent, *found);
                write!(f, "{}", StatusLine(CheckFault::NotStored { sent, found }))
            }
            JobFault::NotCompared {
                refusal: Refusal::Mismatch { address },
            } => write!(
                f,
                "Chip fault 4: the chip differs from its target at 0x{address:06x}. {DIFFERS}"
            ),
            JobFault::NotCompared { refusal } => write_error(f, refusal),
            JobFault::RestNotCompared { outcome, refusal } => {
                if let Err(error) = outcome {
                    write_error(f, error)?;
                    f.write_str("\n")?;
                }
                match refusal {
                    Refusal::Mismatch { address } => write!(
                        f,
                        "Chip fault 4: the chip differs at 0x{address:06x} from what was read \
                        before this restore. {REST_DIFFERS}"
                    ),
                    _ => write_error(f, refusal),
                }
            }
        }
    }
}

fn write_error<W: fmt::Write>(f: &mut fmt::Formatter<W>, error: &Refusal) -> fmt::Result {
    write!(f, "Error {}: {error}.", error.number())
}

const DIFFERS: &str = "The sectors of this change were verified, so this address is probably in \
    another sector, which a disturbed address on the wire has erased or programmed. Restore the chip \
    with --restore and the journal, then compare it with a backup.";

const REST_DIFFERS: &str = "The journal doesn't save this sector, which a disturbed address on the \
    wire has probably erased or programmed. Restore this sector from a backup. Repeating this restore \
    won't report it again, because the next run compares with what the sector holds now.";

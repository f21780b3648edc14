//! The details of an error: the values that its check compared, or the system's reason why a file can't be written.
ghost use Rattle.std.specs.Prelude.{Some};

use nor_args::{ChipJob, Emulated, Task};
use nor_chip::SimBus;
use nor_console::{Digits, MOST_JOURNAL_BYTES, Outcome, SystemReason, read_file};
use nor_files::Store;
use nor_journal::Journal;
use nor_probe::ChipName;
use nor_session::Refusal;
use std::fmt;
use std::io::ErrorKind;

/// The details of an error: the values that its check compared, or the system's reason for the error.
#[derive(Clone, Copy)]
pub enum Detail {
    Unsaid,
    /// Error 3: `-c` has a name that no known chip has.
    NoName,
    /// Error 3: the name given with `-c`, and the name of the chip.
    Name {
        named: ChipName,
        found: ChipName,
    },
    /// Error 16: the ID and the size in a journal, and those of the chip.
    Chip {
        journal: [u8; 3],
        journal_size: u32,
        chip: [u8; 3],
        chip_size: u32,
    },
    /// Error 17: the two status bytes in a journal, and those of the chip.
    Status {
        journal: [u8; 2],
        chip: [u8; 2],
    },
    /// Error 20: the unique ID in a journal, and that of the chip.
    Unit {
        journal: u64,
        chip: u64,
    },
    /// Error 11: the system's reason why the journal can't be written.
    Journal(SystemReason),
    /// Error 19: the system's reason why the output can't be written.
    Output(SystemReason),
}

/// Returns the details of the error of a call, or `Unsaid` if there are none. `bus` is the bus after the call.
pub fn detail_of<R: Store>(rt: &R, job: &ChipJob<'_>, outcome: &Outcome, bus: &SimBus) -> Detail {
    let Err(refusal) = outcome else {
        return Detail::Unsaid;
    };
    match (refusal, &job.task) {
        (Refusal::OtherName, _) => name_detail(job),
        (Refusal::Vault, _) => match unwritten_by(rt) {
            Some(reason) => Detail::Journal(reason),
            None => Detail::Unsaid,
        },
        (Refusal::Output { .. }, _) => match unwritten_by(rt) {
            Some(reason) => Detail::Output(reason),
            None => Detail::Unsaid,
        },
        (_, Task::Restore { journal }) => journal_detail(rt, *journal, refusal, job, bus),
        _ => Detail::Unsaid,
    }
}

fn unwritten_by<R: Store>(rt: &R) -> Option<SystemReason> {
    let error = rt.vault_error()?;
    match error.kind() {
        ErrorKind::NotFound => None,
        _ => Some(SystemReason::of_making(&error)),
    }
}

fn name_detail(job: &ChipJob<'_>) -> Detail {
    match job.named {
        Some(ChipName::Other) => Detail::NoName,
        Some(named) => Detail::Name {
            named,
            found: job.programmer.chip.part.name,
        },
        None => Detail::Unsaid,
    }
}

fn journal_detail<R: Store>(
    rt: &R,
    name: &str,
    refusal: &Refusal,
    job: &ChipJob<'_>,
    bus: &SimBus,
) -> Detail {
    let Ok(bytes) = read_file(rt, name, MOST_JOURNAL_BYTES) else {
        return Detail::Unsaid;
    };
    let Ok(journal) = Journal::read(&bytes) else {
        return Detail::Unsaid;
    };
    match (refusal, journal.unique()) {
        (Refusal::OtherChip, _) => chip_detail(&journal, job.programmer.chip),
        (Refusal::StatusDiffers, _) => {
            let (journal, chip) = (journal.status(), bus.status());
            Detail::Status { journal, chip }
        }
        (Refusal::OtherUnit, Some(unique)) => {
            let chip = job.programmer.unique.unwrap_or([0; 8]);
            Detail::Unit {
                journal: u64::from_be_bytes(unique),
                chip: u64::from_be_bytes(chip),
            }
        }
        _ => Detail::Unsaid,
    }
}

fn chip_detail(saved: &Journal<'_>, chip: Emulated) -> Detail {
    let (journal, chip_id) = (saved.id(), chip.part.id);
    Detail::Chip {
        journal,
        journal_size: saved.size(),
        chip: chip_id,
        chip_size: chip.part.size,
    }
}

/// The text that is printed for this detail: one line with its line feed, or nothing for `Unsaid`.
#[derive(Drop)]
pub struct DetailLine(pub Detail);

impl fmt::Display for DetailLine {
    ghost use Rattle.flashnor.specs.Details.{detail_line};

    ghost output = { λ shown. Some (detail_line shown.0) };

    fn fmt<W: fmt::Write>(&self, f: &mut fmt::Formatter<W>) -> fmt::Result {
        match self.0 {
            Detail::Unsaid => Ok(()),
            Detail::NoName => f.write_str("error: no known chip has the name of -c (see -L)\n"),
            Detail::Name { named, found } => {
                let (named, found) = (named.as_str(), found.as_str());
                writeln!(f, "error: -c names {named}, and the chip is {found}")
            }
            Detail::Chip {
                journal,
                journal_size,
                chip,
                chip_size,
            } => {
                let (journal, chip) = (Digits(journal), Digits(chip));
                writeln!(
                    f,
                    "error: the journal's chip has the ID {journal} and {journal_size} bytes, and this one {chip} and \
                    {chip_size}"
                )
            }
            Detail::Status { journal, chip } => write!(f, "{}", StatusLine { journal, chip }),
            Detail::Unit { journal, chip } => write!(f, "{}", UnitLine { journal, chip }),
            Detail::Journal(reason) => {
                let why = reason.as_str();
                writeln!(f, "error: the journal can't be written: {why}")
            }
            Detail::Output(reason) => {
                let why = reason.as_str();
                writeln!(f, "error: the output can't be written: {why}")
            }
        }
    }
}

#[derive(Drop)]
struct StatusLine {
    journal: [u8; 2],
    chip: [u8; 2],
}

impl fmt::Display for StatusLine {
    ghost use Rattle.flashnor.specs.Details.{status_line};

    ghost output = { λ shown. Some (status_line shown.journal shown.chip) };

    fn fmt<W: fmt::Write>(&self, f: &mut fmt::Formatter<W>) -> fmt::Result {
        let (journal, chip) = (StatusBytes(self.journal), StatusBytes(self.chip));
        writeln!(
            f,
            "error: the journal's status is {journal}, and the chip's {chip}"
        )
    }
}

#[derive(Drop)]
struct UnitLine {
    journal: u64,
    chip: u64,
}

impl fmt::Display for UnitLine {
    ghost use Rattle.flashnor.specs.Details.{unit_line};

    ghost output = { λ shown. Some (unit_line shown.journal shown.chip) };

    fn fmt<W: fmt::Write>(&self, f: &mut fmt::Formatter<W>) -> fmt::Result {
        let (journal, chip) = (UniqueId(self.journal), UniqueId(self.chip));
        writeln!(
            f,
            "error: the journal's unique ID is {journal}, and the chip's {chip}"
        )
    }
}

#[derive(Drop)]
struct UniqueId(u64);

impl fmt::Display for UniqueId {
    ghost use Rattle.flashnor.specs.Details.{unique_text};

    ghost output = { λ shown. Some (unique_text shown.0) };

    #[tactic(auto, using(nor_request::proofs::Printed::padded_hex), unfolding(crate::specs::Details::unique_text))]
    fn fmt<W: fmt::Write>(&self, f: &mut fmt::Formatter<W>) -> fmt::Result {
        let id = self.0;
        write!(f, "{id:016x}")
    }
}

#[derive(Drop)]
struct StatusBytes([u8; 2]);

impl fmt::Display for StatusBytes {
    ghost use Rattle.flashnor.specs.Details.{status_text};

    ghost output = { λ shown. Some (status_text shown.0) };

    #[tactic(auto, using(nor_request::proofs::Printed::padded_hex), unfolding(crate::specs::Details::status_text))]
    fn fmt<W: fmt::Write>(&self, f: &mut fmt::Formatter<W>) -> fmt::Result {
        let (one, two) = (self.0[0], self.0[1]);
        write!(f, "{one:02x} {two:02x}")
    }
}

//! The reasons why bytes aren't a journal.
ghost use Rattle.std.specs.Prelude.{◌≡◌};
ghost use Rattle.nor_journal.specs.Fault.{journal_fault_number};

use std::error::Error;
use std::fmt;

/// The first fault found when bytes are read as a journal, part by part from the beginning.
#[derive(Clone, Copy, Debug, PartialEq, Eq)]
pub enum JournalFault {
    /// The bytes end before the header, a record, the end mark or the digest is complete.
    Short = 1,
    /// The first eight bytes aren't the magic of a format.
    Magic,
    /// The chip's size isn't a power of two from 64 KiB to 16 MiB.
    Size,
    /// The number of a record is neither the end mark nor the number of a sector of the chip.
    Place,
    /// The number of a record isn't greater than that of the record before it.
    Order,
    /// Bytes follow the digest.
    Long,
    /// The digest isn't the SHA-256 of the bytes before it.
    Digest,
}

impl JournalFault {
    /// Returns the number of the fault, 1 to 7, which messages print.
    pub fn number(self) -> u8
        ensures { result ≡ journal_fault_number self }
    {
        self as u8
    }
}

impl fmt::Display for JournalFault {
    fn fmt<W: fmt::Write>(&self, f: &mut fmt::Formatter<W>) -> fmt::Result {
        f.write_str(match self {
            JournalFault::Short => "the journal is cut short",
            JournalFault::Magic => "the first bytes aren't those of a journal",
            JournalFault::Size => "the size in the journal is that of no chip",
            JournalFault::Place => "the journal saves a sector that its chip lacks",
            JournalFault::Order => "the sectors of the journal don't rise",
            JournalFault::Long => "bytes follow the end of the journal",
            JournalFault::Digest => "the digest isn't that of the journal's bytes",
        })
    }
}

impl Error for JournalFault {}

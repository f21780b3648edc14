//! The result of a job.

use nor_model::Offered;
use nor_probe::Found;
use nor_read::Protection;
use nor_session::{Refusal, Rehearsal, Report};

pub type Outcome = Result<Answer, Refusal>;

/// The answer of a job that succeeded.
#[derive(Drop)]
pub enum Answer {
    /// The chips that `-L` of flashnor lists.
    Chips,
    Found(Found),
    /// The size of the chip in bytes.
    Size(u32),
    /// The report on a chip that was read into a file, or saved in a backup.
    Read(Report),
    /// The report on a chip whose included bytes equal the image.
    Verified(Report),
    /// The report on a change or a restore.
    Done(Report),
    Rehearsed(Rehearsal),
    Protection(Protection),
    /// The ranges of the chip that can be protected, as an iterator.
    Ranges(Offered),
}

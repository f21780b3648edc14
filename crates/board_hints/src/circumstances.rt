//! The facts about a chip and a job on which a hint depends.

use crate::chip_after::ChipAfter;
use crate::saved::Saved;
use board_files::Farthest;
use board_progress::Replies;
use nor_console::SystemReason;

/// The facts about a chip and a job that may be printed in the line after the line of a fault.
#[derive(Clone, Copy, Drop)]
pub struct Circumstances<'a> {
    pub saved: Option<Saved>,
    pub replies: Replies,
    /// True if the chip's SFDP says that its pages have fewer than 256 bytes.
    pub has_small_pages: bool,
    pub left: ChipAfter<'a>,
    /// The system's reason why a write or sync of the journal or of the output failed, if known.
    pub unwritten: Option<SystemReason>,
    pub farthest: Option<Farthest<'a>>,
}

impl Circumstances<'_> {
    /// Returns what is known before the first transaction of an operation.
    pub fn before() -> Circumstances<'static> {
        Circumstances {
            saved: None,
            replies: Replies::default(),
            has_small_pages: false,
            left: ChipAfter::Reading,
            unwritten: None,
            farthest: None,
        }
    }
}

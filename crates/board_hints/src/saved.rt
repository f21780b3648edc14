//! The facts about a chip that its journal contains, for the lines that follow the line of a fault.

use nor_journal::Journal;

/// The facts about a chip that its journal contains.
#[derive(Clone, Copy)]
pub struct Saved {
    pub id: [u8; 3],
    pub size: u32,
    /// `None` for a journal of format 1, which doesn't contain the unique ID.
    pub unique: Option<[u8; 8]>,
    /// Status 1 and status 2.
    pub status: [u8; 2],
}

impl Saved {
    /// Returns the facts about the chip in the journal with these bytes, or `None` if the bytes are no valid journal.
    pub fn read(bytes: &[u8]) -> Option<Saved> {
        match Journal::read(bytes) {
            Ok(journal) => Some(Saved {
                id: journal.id(),
                size: journal.size(),
                unique: journal.unique(),
                status: journal.status(),
            }),
            Err(_) => None,
        }
    }
}

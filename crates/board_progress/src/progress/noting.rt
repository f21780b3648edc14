//! Records checksums of the sectors that are read over a `ProgressBus`.
ghost use Rattle.std.specs.Prelude.{◌≡◌, option_copied};

use super::ProgressBus;
use crate::notes::Notes;

impl<B> ProgressBus<'_, B> {
    ghost use Rattle.board_progress.specs.ProgressBus.{notes_of, shown_bus};

    /// Begins to record each transaction in `notes` (`Notes::note`).
    pub fn begin_notes(&mut self, notes: Notes)
        ensures { shown_bus self.new ≡ shown_bus self.old }
    {
        self.notes = Some(notes);
    }

    /// Ends the recording, and returns the recorded checksums, or `None` if checksums weren't being recorded.
    pub fn end_notes(&mut self) -> Option<Notes>
        ensures { shown_bus self.new ≡ shown_bus self.old }
    {
        self.notes.take()
    }

    /// Returns the recorded checksums, or `None` if checksums aren't recorded.
    pub fn notes(&self) -> Option<&Notes>
        ensures { option_copied result ≡ notes_of self.now }
    {
        self.notes.as_ref()
    }

    // Records a transaction. Must be called in the phase in which the transaction was carried out.
    pub(super) fn note(&mut self, out: &[u8], reply: &[u8])
        ensures { self.new.bus ≡ self.old.bus }
    {
        if let Some(notes) = &mut self.notes {
            notes.note(self.phase, out, reply);
        }
    }

    pub(super) fn write_notes(&mut self)
        ensures { self.new.bus ≡ self.old.bus }
    {
        let (terminal, replies) = (self.terminal, self.replies);
        if let Some(notes) = &mut self.notes {
            notes.write(terminal, replies);
        }
    }
}

//! The file that a vault writes to.
use std::fs::OpenFile;
use std::io;
use std::io::Write;

/// A file to which pieces are appended, and which is synced at the end.
pub trait VaultFile {
    ghost use Rattle.std.specs.Prelude.{ℕ, List, Option};
    ghost use Rattle.std.specs.Io.KnownBytes.{WriteAppends};
    ghost use Rattle.std.specs.Io.{WritesAtMost};
    ghost use Rattle.nor_journal.specs.FileVault.{SyncsFile};

    // The contents of the file, or `None` if contracts don't know them.
    ghost contents: { Self → Option (List ℕ) };

    // Directly after a successful `sync`, the durable contents, if known. No clause uses this value at other times.
    ghost synced: { Self → Option (List ℕ) };

    /// Appends a prefix of `piece`, and returns its length, which may be 0. If the call fails, known contents don't
    /// change.
    fn append(&mut self, piece: &[u8]) -> io::Result<usize>
        ensures bound { WritesAtMost result piece.now }
        ensures bytes { WriteAppends (contents self.old) (contents self.new) result piece.now };

    /// Makes the contents and the length of the file durable. Known contents don't change, even if the sync fails.
    fn sync(&mut self) -> io::Result<()>
        ensures { SyncsFile (contents self.old) (contents self.new) (synced self.new) result };
}

/// Files of the operating system. That `sync_all` makes the contents and the length durable is assumed, not proved.
impl<F: Write + OpenFile> VaultFile for F {
    ghost contents = { F.contents };

    ghost synced = { F.contents };

    fn append(&mut self, piece: &[u8]) -> io::Result<usize> {
        self.write(piece)
    }

    fn sync(&mut self) -> io::Result<()> {
        self.sync_all()
    }
}

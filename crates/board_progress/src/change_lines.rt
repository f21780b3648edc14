//! The lines that announce what a session or a restore will change and how long this will take, and the line that is
//! printed after a journal was sealed.

use crate::estimates::{Minutes, Rate, change_micros, tenths_of_kib, time_for};
use crate::terminal::Transfer;
use nor_console::Escaped;
use nor_journal::journal_len;
use nor_session::Announcement;
use std::fmt;

/// The line that says what a session will change, and how long its journal is.
#[derive(Clone, Copy, Drop)]
pub struct SessionText(pub Announcement);

impl fmt::Display for SessionText {
    fn fmt<W: fmt::Write>(&self, f: &mut fmt::Formatter<W>) -> fmt::Result {
        let Announcement { touched, erases } = self.0;
        let len = journal_len(touched);
        write!(
            f,
            "Sectors to change: {touched}. Erases: {erases}. Bytes of journal: {len}."
        )
    }
}

/// The line that says what a restore will change.
#[derive(Clone, Copy, Drop)]
pub struct RestoreText(pub Announcement);

impl fmt::Display for RestoreText {
    fn fmt<W: fmt::Write>(&self, f: &mut fmt::Formatter<W>) -> fmt::Result {
        let Announcement { touched, erases } = self.0;
        write!(f, "Sectors to change: {touched}. Erases: {erases}.")
    }
}

/// The line with the estimated time of a change: the typical time of its erases and programs. If data was read before
/// the change, the estimate includes the time to send and read back the touched sectors at the rate of those reads.
#[derive(Clone, Copy, Drop)]
pub struct ExpectedTime {
    pub announcement: Announcement,
    pub read: Transfer,
}

// The number of data bytes that are transferred for a touched sector: its 4,096 bytes are sent and read back.
const SECTOR_TRANSFER: u64 = 2 * 4096;

const SECOND: u64 = 1_000_000;

impl fmt::Display for ExpectedTime {
    fn fmt<W: fmt::Write>(&self, f: &mut fmt::Formatter<W>) -> fmt::Result {
        let Announcement { touched, erases } = self.announcement;
        let Transfer { bytes, micros } = self.read;
        let chip = change_micros(touched, erases);
        let wire = time_for(u64::from(touched) * SECTOR_TRANSFER, bytes, micros);
        let all = chip.saturating_add(wire.unwrap_or(0));
        if all < SECOND {
            return f.write_str("The change takes less than a second.");
        }
        let all = Minutes(all);
        write!(
            f,
            "The change takes about {all} at the chip's typical times"
        )?;
        match tenths_of_kib(bytes, micros) {
            Some(tenths) if bytes > 0 => write!(f, " and {}.", Rate(tenths)),
            _ => f.write_str("."),
        }
    }
}

/// The line before the first modifying command of a session, with the name of the journal's file if it is known. The
/// line asks you to disconnect the programmer from power after an interruption: the programmer may still wait for the
/// rest of a frame, and would mistake the first bytes of the next run for this rest.
#[derive(Clone, Copy, Drop)]
pub struct SealedLine<'a>(pub Option<&'a str>);

impl fmt::Display for SealedLine<'_> {
    fn fmt<W: fmt::Write>(&self, f: &mut fmt::Formatter<W>) -> fmt::Result {
        f.write_str(
            "SEALED: the chip is changed from here on. If this run is interrupted, disconnect the programmer from \
             power before the next run",
        )?;
        match self.0 {
            Some(name) => write!(f, ", and restore with the journal {}.", Escaped(name)),
            None => f.write_str("."),
        }
    }
}

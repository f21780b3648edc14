//! The log of a run (`-o`): a file that receives what the run prints, its progress as plain lines, and the lines of
//! `-V`.
ghost use Rattle.std.specs.Prelude.{◌≡◌, IfErr, IsSomeAnd, false};
ghost use Rattle.nor_console.specs.Files.{IsMaking};
ghost use Rattle.board_progress.specs.Logging.{BeginsNoLog, CreatesLog, IsExistingLog};

use nor_console::{Cause, Fault, SystemReason, create_log, exists};
use nor_files::{LogFile, Store};
use std::cell::{Cell, RefCell};
use std::fs::File;
use std::io::{BufWriter, Write};
use std::{fmt, io};

// The first bytes of a log. An existing regular file is overwritten only if it is empty or begins with these bytes.
const FIRST: &str = "Log of flashnor-serprog";

/// The version of the program, which is in the first line of a log.
pub const VERSION: &str = "1.0";

pub type LogWriter = BufWriter<LogFile<File>>;

/// The log of a run (`-o`): what the run prints, its progress as plain lines, and the lines of `-V`. Without a file,
/// the log drops each line. After a line that can't be written, nothing more is written, and `lost` returns the reason.
#[derive(Drop)]
pub struct RunLog {
    file: RefCell<Option<LogWriter>>,
    lost: Cell<Option<SystemReason>>,
    is_refused: Cell<bool>,
}

impl RunLog {
    /// Returns a log without a file.
    pub fn new() -> RunLog {
        RunLog {
            file: RefCell::new(None),
            lost: Cell::new(None),
            is_refused: Cell::new(false),
        }
    }

    /// Starts the log in this file by writing its first line. If the file already contains a log, first truncates the
    /// file or, if `appends` is true, appends an empty line. If the file is a regular file that can't be read or has
    /// other contents, leaves it as it is, and `is_refused` returns true afterwards.
    pub fn start(&self, file: LogWriter, appends: bool) {
        let mut file = file;
        match file.get_mut().is_empty_or_begins(FIRST.as_bytes()) {
            Ok(true) => {}
            _ => {
                self.is_refused.set(true);
                let _ = file.get_mut().append();
                return;
            }
        }
        let begun = begin(&mut file, appends);
        let _ = self.file.try_replace(Some(file));
        self.end_if_failed(begun);
    }

    /// Returns whether `start` left the file as it was, because the file can't be read or isn't a log.
    pub fn is_refused(&self) -> bool {
        self.is_refused.get()
    }

    /// Returns the system's reason why a write to the log failed, or `None` if no write failed.
    pub fn lost(&self) -> Option<SystemReason> {
        self.lost.get()
    }

    /// Returns whether the log has a file.
    pub fn is_open(&self) -> bool {
        match self.file.try_borrow() {
            Ok(file) => file.is_some(),
            Err(_) => false,
        }
    }

    /// Writes a line and passes it to the system, so the file contains the line even if the run is killed afterwards.
    pub fn write_line<T: fmt::Display>(&self, text: &T) {
        self.end_if_failed(self.try_line(text));
    }

    /// Writes a part of a line. If the part ends with a newline, passes the line to the system.
    pub fn write_piece(&self, bytes: &[u8]) {
        self.end_if_failed(self.try_piece(bytes));
    }

    fn try_line<T: fmt::Display>(&self, text: &T) -> io::Result<()> {
        let Ok(mut file) = self.file.try_borrow_mut() else {
            return Ok(());
        };
        let Some(file) = &mut *file else {
            return Ok(());
        };
        writeln!(file, "{text}")?;
        file.flush()
    }

    fn try_piece(&self, bytes: &[u8]) -> io::Result<()> {
        let Ok(mut file) = self.file.try_borrow_mut() else {
            return Ok(());
        };
        let Some(file) = &mut *file else {
            return Ok(());
        };
        file.write_all(bytes)?;
        if bytes.ends_with(b"\n") {
            file.flush()
        } else {
            Ok(())
        }
    }

    fn end_if_failed(&self, written: io::Result<()>) {
        if let Err(error) = written {
            self.lost.set(Some(SystemReason::of_making(&error)));
            let _ = self.file.try_replace(None);
        }
    }
}

fn begin(file: &mut LogWriter, appends: bool) -> io::Result<()> {
    if appends && file.get_mut().append()? {
        writeln!(file)?;
    }
    writeln!(file, "{FIRST} {VERSION}")?;
    file.flush()
}

/// A writer that writes to `inner` and also to the log of the run. In contracts its contents are those of `inner`.
#[derive(Drop)]
pub struct Logged<'a, W> {
    inner: W,
    log: &'a RunLog,
}

impl<'a, W> Logged<'a, W> {
    ghost use Rattle.board_progress.specs.Logged.{written_by};

    pub fn new(inner: W, log: &'a RunLog) -> Logged<'a, W>
        ensures { written_by result ≡ inner }
    {
        Logged { inner, log }
    }
}

impl<W: Write> Write for Logged<'_, W> {
    ghost contents = { λ logged. W.contents logged.inner };

    // The log receives the bytes that `inner` wrote or, if `inner` fails, all bytes.
    fn write(&mut self, bytes: &[u8]) -> io::Result<usize> {
        let written = self.inner.write(bytes);
        match &written {
            Ok(count) => self.log.write_piece(bytes.get(..*count).unwrap_or(bytes)),
            Err(_) => self.log.write_piece(bytes),
        }
        written
    }

    fn flush(&mut self) -> io::Result<()> {
        self.inner.flush()
    }
}

/// Checks that the log's file may be created or overwritten. Returns file fault 4 if the file isn't empty and doesn't
/// begin as a log of this program. Accepts a FIFO or character device, which isn't read, and a file that can't be read.
pub fn check_log<'a, R: Store>(rt: &R, name: Option<&'a str>) -> Result<(), Fault<'a>>
    ensures { IfErr result (λ fault. IsSomeAnd name.entry (λ name.
        IsExistingLog (R.state rt.now).view name fault)) }
{
    let Some(name) = name else {
        return Ok(());
    };
    if rt.is_waiting(name) {
        return Ok(());
    }
    match rt.read_named(name, FIRST.len() as u64) {
        Ok(Some(start)) if !may_begin_log(&start) => { Err(exists(name, Cause::Unknown)) }
        _ => Ok(()),
    }
}

fn may_begin_log(start: &[u8]) -> bool
    ensures { result ≡ false → BeginsNoLog start.now }
{
    start.is_empty() || start == FIRST.as_bytes()
}

/// Starts the log in the file `name`, if a name is given. Creates the file if it is missing. Truncates a log or, if
/// `appends` is true, appends to it. If `start` leaves the file as it is, `check_started` returns a fault afterwards.
///
/// Returns a fault of `create_log`: file fault 4 if the file is a journal, file fault 5 if another process has locked
/// it, error 18 if memory runs out, or file fault 2 if it can't be created or truncated for another reason.
pub fn start_log<'a, R: Store<Log = LogFile<File>>>(
    files: &mut R,
    log: &RunLog,
    name: Option<&'a str>,
    appends: bool,
) -> Result<(), Fault<'a>>
    ensures creates { CreatesLog name.entry (R.state files.old) (R.state files.new) }
    ensures err { IfErr result (λ fault.
        IsSomeAnd name.entry (λ name. IsMaking (R.state files.old).view name.now fault)) }
{
    let Some(name) = name else {
        return Ok(());
    };
    match create_log(files, name) {
        Ok(file) => {
            log.start(file, appends);
            Ok(())
        }
        Err(fault) => Err(fault),
    }
}

/// Returns file fault 4 if `start_log` left the file as it was, because the file can't be read or isn't a log.
pub fn check_started<'a>(log: &RunLog, name: Option<&'a str>) -> Result<(), Fault<'a>> {
    match name {
        Some(name) if log.is_refused() => Err(exists(name, Cause::Unknown)),
        _ => Ok(()),
    }
}

//! The two outputs of progress: standard error, on which a job's progress is shown, and the log of the run.

use crate::change_lines::{ExpectedTime, RestoreText, SessionText};
use crate::log::{CommandText, EventText, command_name};
use crate::run_log::RunLog;
use crate::step_timer::micros_between;
use nor_args::ProgressMode;
use nor_session::Announcement;
use std::cell::Cell;
use std::io::IsTerminal;
use std::os::unix::fs::FileTypeExt;
use std::time::Instant;
use std::{env, fmt, fs};

// The greatest number of columns that `draw` fills, even on a wider terminal. On a terminal of 40 columns, the last one
// stays free, because some terminals wrap a line that fills it, and a wrapped line can't be rewritten.
const COLUMNS: usize = 39;

// Erases from the cursor to the end of the line (ECMA-48, EL).
const ERASE_TO_END: &str = "\x1b[K";

const WAITING: &str =
    "Waiting for the programmer. No reply in 10 s? Ctrl-C; see flashnor-serprog(8).";

/// The data that all copies of a `Terminal` share.
#[derive(Drop)]
pub struct Screen {
    state: Cell<ScreenState>,
    log: RunLog,
}

#[derive(Clone, Copy)]
struct ScreenState {
    has_waited: bool,
    row: Row,
    has_journal: bool,
    announced: Option<Announcement>,
    read: Transfer,
}

#[derive(Clone, Copy, PartialEq)]
enum Row {
    Empty,
    Waiting,
    Progress,
}

/// A number of bytes, and the number of microseconds in which they were transferred.
#[derive(Clone, Copy, Default)]
pub struct Transfer {
    pub bytes: u64,
    pub micros: u64,
}

impl Screen {
    /// Returns a `Screen` without a progress line and without a file for the log.
    pub fn new() -> Screen {
        Screen {
            state: Cell::new(ScreenState {
                has_waited: false,
                row: Row::Empty,
                has_journal: false,
                announced: None,
                read: Transfer::default(),
            }),
            log: RunLog::new(),
        }
    }

    pub fn log(&self) -> &RunLog {
        &self.log
    }
}

/// How the progress is shown.
#[derive(Clone, Copy, PartialEq)]
pub enum ProgressStyle {
    Hidden,
    /// Lines below each other.
    Plain,
    /// One line, which is rewritten.
    Line,
    /// At most one line per minute.
    Minutes,
}

/// Standard error, the way in which it shows the progress of a job, and the log of the run.
#[derive(Clone, Copy)]
pub struct Terminal<'a> {
    rt: &'a HostRuntime,
    screen: &'a Screen,
    style: ProgressStyle,
    columns: usize,
    is_verbose: bool,
    started: Option<Instant>,
}

impl<'a> Terminal<'a> {
    /// Returns a `Terminal` for standard error. The mode `Auto` selects the style `Line` on a terminal, `Plain` on
    /// another character device, and otherwise `Minutes`. `is_verbose` is true with `-V`.
    pub fn new(
        rt: &'a HostRuntime,
        screen: &'a Screen,
        mode: ProgressMode,
        is_verbose: bool,
    ) -> Terminal<'a> {
        let style = match mode {
            ProgressMode::Hidden => ProgressStyle::Hidden,
            ProgressMode::Plain => ProgressStyle::Plain,
            ProgressMode::Auto if rt.stderr().is_terminal() => ProgressStyle::Line,
            ProgressMode::Auto if is_device(rt) => ProgressStyle::Plain,
            ProgressMode::Auto => ProgressStyle::Minutes,
        };
        Terminal {
            rt,
            screen,
            style,
            columns: columns_of(rt),
            is_verbose,
            started: Instant::now(rt).ok(),
        }
    }

    pub fn rt(&self) -> &'a HostRuntime {
        self.rt
    }

    pub fn log(&self) -> &'a RunLog {
        self.screen.log()
    }

    pub fn style(&self) -> ProgressStyle {
        self.style
    }

    /// Returns the time at which this `Terminal` was created, or `None` if the clock failed.
    pub fn started(&self) -> Option<Instant> {
        self.started
    }

    /// Returns the time, or `None` if the clock fails.
    pub fn now(&self) -> Option<Instant> {
        Instant::now(self.rt).ok()
    }

    /// Returns the last announcement of `print_session` or `print_restore`, or `None` if there was none.
    pub fn announced(&self) -> Option<Announcement> {
        self.screen.state.get().announced
    }

    /// Records that this run created the journal of a session.
    pub fn record_journal(&self) {
        let state = self.screen.state.get();
        self.screen.state.set(ScreenState {
            has_journal: true,
            ..state
        });
    }

    pub fn has_journal(&self) -> bool {
        self.screen.state.get().has_journal
    }

    pub fn record_reads(&self, read: Transfer) {
        let state = self.screen.state.get();
        self.screen.state.set(ScreenState { read, ..state });
    }

    /// Rewrites the progress line with the first `columns` characters of this ASCII text. Shows nothing if memory runs
    /// out.
    pub fn draw<T: fmt::Display>(&self, text: &T) {
        let Ok(text) = format!(in self.rt.alloc(); "{text}") else {
            return;
        };
        let line = fit(text.as_str(), self.columns);
        let _ = eprint!(self.rt; "\r{line}{ERASE_TO_END}");
        self.set_row(Row::Progress);
    }

    /// Rewrites the progress line for the last time, with this text, and ends it.
    pub fn draw_last<T: fmt::Display>(&self, text: &T) {
        let _ = eprintln!(self.rt; "\r{text}{ERASE_TO_END}");
        self.set_row(Row::Empty);
    }

    /// Ends the progress line with a newline, or clears the line of `print_waiting`, if one of these lines is shown.
    pub fn end_line(&self) {
        match self.screen.state.get().row {
            Row::Empty => {}
            Row::Waiting => self.clear_line(),
            Row::Progress => {
                let _ = eprintln!(self.rt);
                self.set_row(Row::Empty);
            }
        }
    }

    /// If the transaction `out` is a modifying command, writes its line to the log (`-o`) and, with `-V`, to standard
    /// error. Must be called before the transaction is passed on.
    pub fn log_command(&self, out: &[u8]) {
        if self.is_logging()
            && let Some(name) = command_name(out)
        {
            let micros = self.elapsed();
            self.log_line(&CommandText { micros, name, out });
        }
    }

    /// Writes a line for the start of a step that only reads to the log (`-o`) and, with `-V`, to standard error.
    pub fn log_step(&self, name: &'static str) {
        if self.is_logging() {
            let micros = self.elapsed();
            self.log_line(&EventText { micros, name });
        }
    }

    /// Writes the line for a stop of the bus to the log (`-o`) and, with `-V`, to standard error.
    pub fn log_stop(&self) {
        if self.is_logging() {
            let micros = self.elapsed();
            let name = "stopped";
            self.log_line(&EventText { micros, name });
        }
    }

    fn elapsed(&self) -> u64 {
        micros_between(self.started, self.now())
    }

    fn is_logging(&self) -> bool {
        self.is_verbose || self.log().is_open()
    }

    fn log_line<T: fmt::Display>(&self, text: &T) {
        if self.is_verbose {
            self.clear_line();
            let _ = eprintln!(self.rt; "{text}");
        }
        self.log().write_line(text);
    }

    /// Clears the progress line or the line of `print_waiting`, if one is shown.
    pub fn clear_line(&self) {
        if self.screen.state.get().row != Row::Empty {
            let _ = eprint!(self.rt; "\r{ERASE_TO_END}");
            self.set_row(Row::Empty);
        }
    }

    fn set_row(&self, row: Row) {
        let state = self.screen.state.get();
        self.screen.state.set(ScreenState { row, ..state });
    }

    /// Writes a line to the log. With `ProgressStyle::Plain` and `ProgressStyle::Line`, also prints it.
    pub fn print<T: fmt::Display>(&self, text: &T) {
        let is_shown = matches!(self.style, ProgressStyle::Plain | ProgressStyle::Line);
        self.print_if(is_shown, text);
    }

    /// Prints a line in any style, and doesn't write it to the log.
    pub fn print_shown<T: fmt::Display>(&self, text: &T) {
        self.end_line();
        let _ = eprintln!(self.rt; "{text}");
    }

    /// Writes a line to the log. With `ProgressStyle::Plain`, also prints it.
    pub fn print_plain<T: fmt::Display>(&self, text: &T) {
        self.print_if(self.style == ProgressStyle::Plain, text);
    }

    /// Logs that the run waits for its programmer, because a read from a port that isn't set up may wait forever. On
    /// the first call, also prints this line with `ProgressStyle::Plain` and `ProgressStyle::Line`. With
    /// `ProgressStyle::Line`, later output of this `Terminal` replaces the line.
    pub fn print_waiting(&self) {
        self.log().write_line(&WAITING);
        let state = self.screen.state.get();
        if state.has_waited {
            return;
        }
        self.screen.state.set(ScreenState {
            has_waited: true,
            ..state
        });
        match self.style {
            ProgressStyle::Plain => {
                let _ = eprintln!(self.rt; "{WAITING}");
            }
            ProgressStyle::Line => {
                self.end_line();
                let _ = eprint!(self.rt; "\r{WAITING}{ERASE_TO_END}");
                self.set_row(Row::Waiting);
            }
            ProgressStyle::Hidden | ProgressStyle::Minutes => {}
        }
    }

    /// Writes a line to the log that says how long the change will take or took. With `ProgressStyle::Line`, also
    /// prints this line.
    pub fn print_time<T: fmt::Display>(&self, text: &T) {
        self.print_if(self.style == ProgressStyle::Line, text);
    }

    // Writes a line to the log in any case, and prints it if `is_shown`.
    fn print_if<T: fmt::Display>(&self, is_shown: bool, text: &T) {
        if is_shown {
            self.print_shown(text);
        }
        self.log().write_line(text);
    }

    /// Shows what a session will change, the journal's length and, if a sector is touched, the estimated time.
    pub fn print_session(&self, announcement: Announcement) {
        self.print(&SessionText(announcement));
        self.announce(announcement);
    }

    /// Shows what a restore will change and, if a sector is touched, the estimated time.
    pub fn print_restore(&self, announcement: Announcement) {
        self.print(&RestoreText(announcement));
        self.announce(announcement);
    }

    fn announce(&self, announcement: Announcement) {
        let state = self.screen.state.get();
        self.screen.state.set(ScreenState {
            announced: Some(announcement),
            ..state
        });
        if announcement.touched > 0 {
            self.print_time(&ExpectedTime {
                announcement,
                read: state.read,
            });
        }
    }
}

fn fit(text: &str, columns: usize) -> &str {
    match text.get(..columns) {
        Some(head) => head,
        None => text,
    }
}

fn columns_of(rt: &HostRuntime) -> usize {
    let Ok(columns) = env::var(rt, "COLUMNS") else {
        return COLUMNS;
    };
    match columns.as_str().parse::<usize>() {
        Ok(columns) if columns > 1 => COLUMNS.min(columns - 1),
        _ => COLUMNS,
    }
}

fn is_device(rt: &HostRuntime) -> bool {
    match fs::metadata(rt, "/proc/self/fd/2") {
        Ok(metadata) => metadata.file_type().is_char_device(),
        Err(_) => false,
    }
}

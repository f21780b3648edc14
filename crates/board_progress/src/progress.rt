//! A bus that shows the progress of a job on standard error: the steps of the job, and what the user must know before
//! the first modifying command.
ghost use Rattle.std.specs.Prelude.{◌≡◌};

mod durations;
mod expecting;
mod minutes;
mod noting;

use crate::change_lines::SealedLine;
use crate::lock_bits::Lock;
use crate::notes::Notes;
use crate::replies::Replies;
use crate::status_line::{are_equally_protected, protects};
use crate::step_lines::PlainLine;
use crate::step_timer::StepTimer;
use crate::steps::{Phase, Step, Total, step_of};
use crate::terminal::{ProgressStyle, Terminal};
use nor_model::bits::{BUSY, QE};
use nor_model::opcodes::READ_STATUS1;
use nor_model::{Bus, Stopped, is_changing};
use std::time::Instant;

// The line before the first modifying command of a restore or of a change of SRP0. A session prints a `SealedLine`.
const CHANGED: &str = "The chip is changed from here on.";

// The line before `CHANGED` or `SealedLine` if SRP1 is set without SRP0 (W25Q64FV datasheet, Status Register Protect).
const POWER_LOCKED: &str =
    "Keep its power on: a loss of power clears SRP1, and a restore then ends with error 17.";

// The line before `CHANGED` or `SealedLine` if QE is set and the job may write the status.
const QUAD: &str =
    "Keep its power on: a status write that is cut off may clear QE, and a restore doesn't set it again.";

const BUSY_CHIP: &str =
    "The chip shows BUSY. If no erase is running, it has no contact or no supply: press Ctrl-C, and check both. \
    (The run gives up after 400 seconds.)";

// The number of polls that show BUSY before the ID is read, after which `BUSY_CHIP` is logged and, with
// `ProgressStyle::Plain` and `ProgressStyle::Line`, printed. Without contact, replies are often FFh, which shows BUSY.
const POLLS_UNTIL_LINE: u32 = 256;

/// A bus that shows the progress of a job. The functions of this trait don't change the bus state used in contracts.
pub trait Progress: Bus {
    /// Records that the job reads `sectors` sectors before it changes anything. If this is called again, the greatest
    /// number counts. If that number is greater than before and the earlier reads are done, a second scan begins, with
    /// only the additional sectors.
    fn expect_reads(&mut self, sectors: usize)
        ensures { Self.state self.new ≡ Self.state self.old };

    /// Records that the comparison after a change or restore begins, and that it will read `sectors` sectors.
    fn expect_comparison(&mut self, sectors: usize)
        ensures { Self.state self.new ≡ Self.state self.old };

    /// Limits the reads ahead: from now on, each block that is read ends at `address` or before, unless the read itself
    /// needs more bytes. `u32::MAX` removes this limit.
    fn end_blocks_at(&mut self, address: u32)
        ensures { Self.state self.new ≡ Self.state self.old };
}

/// A bus that shows the progress of a job on standard error, as the `ProgressStyle` of its `Terminal` requires:
/// - `ProgressStyle::Line` rewrites a `StepLine` at most ten times a second. If the step's total is known exactly, the
///   last operation of the step rewrites and ends the line. A completed change ends with lines for programs and reads.
/// - `ProgressStyle::Plain` prints a line for the first transaction of a step, for every `Step::stride` transactions
///   after it, and for the last erase, program and read back of a completed change.
/// - `ProgressStyle::Minutes` prints a line, usually a `StepLine`, at most once per minute.
/// - `ProgressStyle::Hidden` prints none of these lines.
///
/// The lines of `-V` are printed in any style. The log (`-o`) receives the lines of `ProgressStyle::Plain` and `-V`,
/// and how long the change takes and took. In contracts, the state of a `ProgressBus` is the state of `bus`.
#[derive(Drop)]
pub struct ProgressBus<'a, B> {
    bus: B,
    terminal: Terminal<'a>,
    in_session: bool,
    // the name of the journal's file, if known
    journal: Option<String>,
    phase: Phase,
    // the number of sectors that the present scan or comparison reads, if known
    expected: Option<usize>,
    timer: StepTimer,
    // when the first modifying command was passed on
    changed: Option<Instant>,
    status_write: StatusWrite,
    replies: Replies,
    // the number of polls that showed BUSY before the ID was read
    busy_polls: u32,
    // when `print_each_minute` last printed a line or, before its first line, when the terminal was created
    said: Option<Instant>,
    notes: Option<Notes>,
}

/// Whether a job may write the status registers.
#[derive(Clone, Copy)]
pub enum StatusWrite {
    Never,
    /// Only on a chip whose protection bits may protect an address.
    IfProtected,
    OnAnyChip,
    /// Only on a chip whose protection bits may protect an address, or differ from those in these status bytes.
    Restoring([u8; 2]),
}

impl<'a, B: Bus + Drop> ProgressBus<'a, B> {
    ghost use Rattle.board_progress.specs.ProgressBus.{shown_bus};

    /// Returns a bus that shows the progress of the job on `bus`. `status_write` applies until `begin_job` replaces it.
    pub fn new(bus: B, terminal: Terminal<'a>, status_write: StatusWrite) -> ProgressBus<'a, B>
        ensures { shown_bus result ≡ bus }
    {
        ProgressBus {
            bus,
            terminal,
            in_session: false,
            journal: None,
            phase: Phase::Before,
            expected: None,
            timer: StepTimer::new(terminal.now()),
            changed: None,
            status_write,
            replies: Replies::default(),
            busy_polls: 0,
            said: terminal.started(),
            notes: None,
        }
    }

    pub fn inner(&self) -> &B {
        &self.bus
    }

    pub fn terminal(&self) -> Terminal<'a> {
        self.terminal
    }

    pub fn replies(&self) -> Replies {
        self.replies
    }

    /// Records facts for the lines that are printed before the job's first modifying command. `journal` names the
    /// journal's file.
    pub fn begin_job(
        &mut self,
        in_session: bool,
        journal: Option<String>,
        status_write: StatusWrite,
    )
        ensures { shown_bus self.new ≡ shown_bus self.old }
    {
        self.in_session = in_session;
        self.journal = journal;
        self.status_write = status_write;
    }

    /// Ends the progress line. Must be called after the last transaction of the job, before any other line is printed.
    /// After a change that succeeded without a comparison, first shows the change's final numbers and its duration.
    pub fn end_progress(&self, succeeded: bool) {
        if succeeded {
            self.show_duration();
        }
        self.terminal.end_line();
    }
}

impl<B> ProgressBus<'_, B> {
    fn show(&mut self, out: &[u8])
        ensures { self.new.bus ≡ self.old.bus }
    {
        if is_changing(out) && self.phase == Phase::Before {
            self.begin_change();
        }
        let Some(step) = self.step_of(out) else {
            return;
        };
        let count = self.timer.begin(step);
        if count == 1 && step.is_reading() {
            self.terminal.log_step(step.name());
        }
        if count % step.stride() == 1 {
            self.show_step(step, count);
        }
    }

    fn begin_change(&mut self)
        ensures { self.new.bus ≡ self.old.bus }
    {
        self.phase = Phase::Changing;
        self.changed = self.terminal.now();
        self.timer.restart(self.changed);
        if self.has_power_lock() {
            self.terminal.print(&POWER_LOCKED);
        }
        if self.may_clear_quad() {
            self.terminal.print(&QUAD);
        }
        self.write_notes();
        if self.in_session {
            self.terminal.print(&SealedLine(self.journal.as_deref()));
        } else {
            self.terminal.print(&CHANGED);
        }
    }

    fn has_power_lock(&self) -> bool {
        Lock::of(self.replies.status) == Lock::Power
    }

    fn may_clear_quad(&self) -> bool {
        let writes = match self.status_write {
            StatusWrite::Never => false,
            StatusWrite::IfProtected => protects(self.replies.status),
            StatusWrite::OnAnyChip => true,
            StatusWrite::Restoring(saved) => {
                protects(self.replies.status) || !are_equally_protected(self.replies.status, saved)
            }
        };
        writes && self.replies.status[1] & QE != 0
    }

    fn remember(&mut self, out: &[u8], reply: &[u8])
        ensures { self.new.bus ≡ self.old.bus }
    {
        if self.phase != Phase::Before {
            return;
        }
        self.replies.remember(out, reply);
        if let ([READ_STATUS1, ..], [status1, ..]) = (out, reply) {
            self.count_busy(*status1);
        }
    }

    fn count_busy(&mut self, status1: u8)
        ensures { self.new.bus ≡ self.old.bus }
    {
        if self.replies.id.is_some() || status1 & BUSY == 0 {
            return;
        }
        self.busy_polls = self.busy_polls.saturating_add(1);
        if self.busy_polls == POLLS_UNTIL_LINE {
            self.terminal.print(&BUSY_CHIP);
        }
        self.print_each_minute(&BUSY_CHIP);
    }

    fn show_step(&self, step: Step, count: u64) {
        let expected = match step {
            Step::Scan | Step::Compare => self.expected.map(|sectors| sectors as u64),
            _ => None,
        };
        self.terminal.print_plain(&PlainLine {
            step,
            count,
            expected,
        });
    }

    // A read after the announcement of a change and before the first modifying command isn't part of the scan.
    fn step_of(&self, out: &[u8]) -> Option<Step> {
        match step_of(out, self.phase) {
            Some(Step::Scan) if self.terminal.announced().is_some() => Some(Step::ReadBack),
            step => step,
        }
    }

    fn measure(&mut self, out: &[u8], reply: &[u8])
        ensures { self.new.bus ≡ self.old.bus }
    {
        let is_timed = matches!(
            self.terminal.style(),
            ProgressStyle::Line | ProgressStyle::Minutes
        );
        if !is_timed && !self.terminal.log().is_open() {
            return;
        }
        let now = self.terminal.now();
        let step = self.step_of(out);
        let Some(step) = self.timer.record(step, out, reply, now) else {
            return;
        };
        self.terminal.record_reads(self.timer.scanned());
        self.draw(step, now);
        let total = self.total_of(step);
        let line = self.timer.line(step, total, now);
        self.print_each_minute(&line);
    }

    fn draw(&mut self, step: Step, now: Option<Instant>)
        ensures { self.new.bus ≡ self.old.bus }
    {
        if self.terminal.style() != ProgressStyle::Line {
            return;
        }
        let total = self.total_of(step);
        let line = self.timer.line(step, total, now);
        if line.is_complete() {
            self.terminal.draw_last(&line);
        } else if self.timer.is_due(now) {
            self.terminal.draw(&line);
            self.timer.record_drawing(now);
        }
    }

    // Each touched sector has 16 pages, so at most 16 programs.
    fn total_of(&self, step: Step) -> Total {
        match (step, self.expected, self.terminal.announced()) {
            (Step::Scan | Step::Compare, Some(sectors), _) => Total::Exactly(sectors as u64),
            (Step::Erase, _, Some(announced)) => Total::Exactly(u64::from(announced.erases)),
            (Step::Program, _, Some(announced)) => Total::AtMost(16 * u64::from(announced.touched)),
            _ => Total::Unknown,
        }
    }
}

impl<B: Bus> Bus for ProgressBus<'_, B> {
    ghost state = { λ shown. B.state shown.bus };

    ghost reaches = { λ shown honest. B.reaches shown.bus honest };

    fn transfer(&mut self, out: &[u8], reply: &mut [u8]) -> Result<(), Stopped> {
        self.show(out);
        self.terminal.log_command(out);
        match self.bus.transfer(out, reply) {
            Ok(()) => {
                self.note(out, reply);
                self.remember(out, reply);
                self.measure(out, reply);
                Ok(())
            }
            Err(Stopped) => {
                self.terminal.log_stop();
                Err(Stopped)
            }
        }
    }

    fn has_further_types(&self) -> bool {
        self.bus.has_further_types()
    }
}

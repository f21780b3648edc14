//! The modelled chip in memory, and the effect of transactions on it.
ghost use Rattle.std.specs.Prelude.{◌≡◌, ◌%◌, ◌<◌, ◌+◌, ◌/◌, ◌^◌, ◌==◌, ◌&&◌, ◌-◌, not, if◌then◌else◌, false, ℕ, [], length, slice_index, bit_and, bit_or};
ghost use Rattle.nor_model.specs.Power.{RunsInside};

use super::cells;
use nor_geometry::PAGE_LEN;
use nor_model::{Command, Config, Running, Status, is_protected};

// A simulated chip. `busy` is the number of polls that will still show BUSY; an operation sets `busy` to `each`.
#[derive(Drop)]
pub(crate) struct Flash {
    pub(crate) config: Config,
    pub(crate) bytes: Vec<u8>,
    pub(crate) kept: Status,
    pub(crate) latch: bool,
    pub(crate) busy: u16,
    pub(crate) each: u16,
    pub(crate) running: Running,
    ghost filled: { length bytes.items ≡ config.size },
    ghost kept_alone: { kept.one.0 % 4 ≡ 0 },
    ghost kept1_in: { kept.one.0 / 4 < 64 },
    ghost kept2_in: { kept.two.0 < 128 },
    ghost busy_in: { busy < 65536 },
    ghost bytes_in: { (a : ℕ) → slice_index bytes.items a < 256 },
    ghost runs_in: { RunsInside config.size running },
}

impl Flash {
    ghost use Rattle.nor_chip.specs.Flash.{chip_of, Begins, CutsOff, IsWholeReply, Paces};
    ghost use Rattle.nor_model.specs.Power.{PowerLostWith};
    ghost use Rattle.nor_model.specs.Chip.{status_of};
    ghost use Rattle.nor_model.specs.Status.{bytes_of};
    ghost use Rattle.nor_model.specs.Addresses.{HasValidAddress, IsSectorRange};
    ghost use Rattle.nor_model.specs.Chip.{is_locked};
    ghost use Rattle.nor_model.specs.Guard.{code_of, is_protected, is_block_protected};
    ghost use Rattle.nor_model.specs.Step.{is_carried_out, done_of, reply_byte, Does, Step};

    pub(crate) fn status(&self) -> Status
        ensures { bytes_of result ≡ status_of (chip_of self.now) }
    {
        Status {
            one: self.kept.one.with(self.latch, self.busy != 0),
            two: self.kept.two,
        }
    }

    fn is_locked(&self) -> bool
        ensures { result ≡ is_locked (chip_of self.now).kept }
    {
        self.kept.is_locked()
    }

    fn is_protected(&self, at: u32) -> bool
        ensures { result ≡ is_protected (chip_of self.now) at }
    {
        self.config.scheme && is_protected(self.config.size, self.kept.code(), at)
    }

    fn is_block_protected(&self, start: u32, len: u32) -> bool
        requires { start + len < 2 ^ 32 }
        ensures { result ≡ is_block_protected (chip_of self.now) start len }
    {
        self.is_protected(start) || self.is_protected((start + len).saturating_sub(1))
    }

    fn is_ready(&self) -> bool
        ensures { result ≡ (((chip_of self.now).busy == 0) && self.now.latch) }
    {
        self.busy == 0 && self.latch
    }

    fn carries_out(&self, command: Command) -> bool
        requires { HasValidAddress self.now.config.size command }
        ensures { result ≡ is_carried_out (chip_of self.now) command }
    {
        match command {
            Command::Poll | Command::ReadStatus2 => true,
            Command::WriteStatus(..) => self.is_ready() && !self.is_locked(),
            Command::Program(at) => self.is_ready() && !self.is_protected(at),
            Command::Erase(start, len) => self.is_ready() && !self.is_block_protected(start, len),
            Command::Ignored => false,
            _ => self.busy == 0,
        }
    }

    pub(crate) fn command(&self, out: &[u8], replies: usize) -> Command
        ensures done { result ≡ done_of (chip_of self.now) out.now replies }
        ensures targeted { HasValidAddress self.now.config.size result }
    {
        let command = Command::of(&self.config, out, replies);
        if self.carries_out(command) {
            command
        } else {
            Command::Ignored
        }
    }

    fn answer(&self, command: Command, reply: &mut [u8])
        requires { HasValidAddress self.now.config.size command }
        ensures { (i : ℕ) → i < length reply.new → slice_index reply.new i ≡ reply_byte (chip_of self.now) command i }
    {
        match command {
            Command::Poll => reply.fill(self.status().bytes()[0]),
            Command::ReadStatus2 => reply.fill(self.status().bytes()[1]),
            Command::ReadData(at) => cells::read_round(&self.bytes, at as usize, reply),
            Command::ReadId => cells::read_padded(&self.config.id, 0, reply),
            Command::ReadSfdp(at) => cells::read_padded(&self.config.sfdp, at as usize, reply),
            Command::ReadUnique => cells::read_padded(&self.config.unique, 0, reply),
            _ => reply.fill(0xFF),
        }
    }

    fn begin(&mut self, running: Running)
        requires { RunsInside self.old.config.size running }
        ensures begins { Begins running self.old.each (chip_of self.old) (chip_of self.new) }
        ensures pace { self.new.each ≡ self.old.each }
    {
        self.running = running;
        self.busy = self.each;
        self.latch = self.each != 0;
    }

    fn tick(&mut self)
        ensures does { Does Command.Poll [] (chip_of self.old) [] (chip_of self.new) }
        ensures paces { Paces Command.Poll self.old self.new }
    {
        if self.busy == 1 {
            self.latch = false;
        }
        self.busy = self.busy.saturating_sub(1);
    }

    fn write_status(&mut self, one: u8, two: u8)
        ensures does { Does (Command.WriteStatus one two) [] (chip_of self.old) [] (chip_of self.new) }
        ensures paces { Paces (Command.WriteStatus one two) self.old self.new }
    {
        let [one_before, two_before] = self.kept.bytes();
        let running = Running::StatusWrite(one_before >> 2, two_before);
        self.kept = self.kept.written(Status::of([one, two]));
        self.begin(running);
    }

    fn program(&mut self, at: u32, sent: &[u8])
        requires { at < self.old.config.size }
        ensures does { Does (Command.Program at) sent.now (chip_of self.old) [] (chip_of self.new) }
        ensures paces { Paces (Command.Program at) self.old self.new }
    {
        cells::program(&mut self.bytes, at as usize, sent);
        self.begin(Running::Program(at / PAGE_LEN as u32));
    }

    fn erase(&mut self, start: u32, len: u32)
        requires { IsSectorRange self.old.config.size start len }
        ensures does { Does (Command.Erase start len) [] (chip_of self.old) [] (chip_of self.new) }
        ensures paces { Paces (Command.Erase start len) self.old self.new }
    {
        cells::fill(&mut self.bytes, start as usize, len as usize, 0xFF);
        self.begin(Running::Erase(start, len));
    }

    fn change(&mut self, command: Command, sent: &[u8])
        requires { HasValidAddress self.old.config.size command }
        ensures does { Does command sent.now (chip_of self.old) [] (chip_of self.new) }
        ensures paces { Paces command self.old self.new }
    {
        match command {
            Command::Poll => self.tick(),
            Command::WriteEnable => self.latch = true,
            Command::WriteDisable => self.latch = false,
            Command::WriteStatus(one, two) => self.write_status(one, two),
            Command::Program(at) => self.program(at, sent),
            Command::Erase(start, len) => self.erase(start, len),
            _ => {}
        }
    }

    pub(crate) fn lose_power(&mut self, fill: u8)
        ensures cut { PowerLostWith fill (chip_of self.old) (chip_of self.new) }
        ensures pace { self.new.each ≡ self.old.each }
    {
        if self.busy != 0 {
            self.cut(fill);
        }
        self.latch = false;
        self.busy = 0;
    }

    fn cut(&mut self, fill: u8)
        ensures cut { CutsOff fill (chip_of self.old) (chip_of self.new) }
        ensures pace { self.new.each ≡ self.old.each }
    {
        match self.running {
            Running::Program(page) => {
                let start = page as usize * PAGE_LEN;
                cells::fill(&mut self.bytes, start, PAGE_LEN, fill);
            }
            Running::Erase(start, len) => {
                cells::fill(&mut self.bytes, start as usize, len as usize, fill);
            }
            Running::StatusWrite(one, two) if fill % 2 == 0 => self.kept = Status::of([
                one << 2,
                two,
            ]),
            Running::StatusWrite(..) | Running::Unknown => {}
        }
    }

    pub(crate) fn step(&mut self, out: &[u8], reply: &mut [u8]) -> Command
        ensures steps { Step (chip_of self.old) out.now reply.new (chip_of self.new) }
        ensures replied { IsWholeReply out.now reply.new (chip_of self.old) }
        ensures done { result ≡ done_of (chip_of self.old) out.now (length reply.new) }
        ensures targeted { HasValidAddress self.old.config.size result }
        ensures paces { Paces result self.old self.new }
    {
        let command = self.command(out, reply.len());
        self.answer(command, reply);
        self.change(command, out.get(4..).unwrap_or(&[]));
        command
    }
}

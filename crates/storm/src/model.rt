//! A reference model of the chip: the effect of each line of a trace, and of a stop.

use crate::chips::Chip;
use crate::fault::{Fault, agree_all};
use crate::guards::{self, Status};
use crate::lines::{self, byte_at};
use crate::pace::Pace;
use nor_chip::SimBus;
use std::alloc::Global;

/// The transaction at which a bus stops, and the effect of the stop.
#[derive(Clone, Copy)]
pub struct Stop {
    pub after: u64,
    /// The greatest number of bytes of the next transaction that are still sent. `None` sends none.
    pub cut: Option<u32>,
    /// With `Some`, the stop is a power failure. Each byte of the page or block in progress becomes this byte; a status
    /// write in progress is undone if this byte is even.
    pub fill: Option<u8>,
}

impl Stop {
    pub const NEVER: Stop = Stop {
        after: u64::MAX,
        cut: None,
        fill: None,
    };

    /// Returns a stop between two transactions, at which the chip keeps its power.
    pub const fn after(after: u64) -> Stop {
        Stop {
            after,
            cut: None,
            fill: None,
        }
    }
}

/// The model: a chip, and the operation that it performs while it is busy.
#[derive(Drop)]
pub struct Model {
    pub chip: Chip,
    work: Work,
}

#[derive(Clone, Copy)]
enum Work {
    // No operation began since the model was made. If the chip is busy, its operation began before.
    Unknown,
    // A program or an erase, with the first address and the number of bytes of its page or block.
    Bytes(u32, u32),
    // A status write, with the non-volatile status bits before it.
    Status(Status),
}

impl Model {
    pub fn of(alloc: Global, chip: &Chip) -> Result<Model, Fault> {
        Ok(Model {
            chip: chip.copy(alloc)?,
            work: Work::Unknown,
        })
    }

    /// Carries out the transactions of a call, whose lines are `whole`, up to the stop, and then the stop.
    pub fn call(&mut self, whole: &str, stop: Stop) {
        let first = lines::first(whole, stop.after);
        for line in first.lines() {
            self.carry_out(sent_by(line));
        }
        if let Some(rest) = whole.get(first.len()..)
            && let Some(next) = rest.lines().next()
        {
            self.stop(sent_by(next), stop);
        }
    }

    /// Returns a fault unless the chip on the bus has the model's bytes, non-volatile status bits, BUSY and WEL.
    pub fn check(&self, bus: &SimBus) -> Result<(), Fault> {
        let now = bus.status();
        let shown = now[0] & 0b0000_0011;
        agree_all(&[
            (
                bus.bytes() == self.chip.bytes.as_slice(),
                "the bytes after a call",
            ),
            (
                guards::kept(now) == guards::kept(self.chip.status),
                "the non-volatile status bits after a call",
            ),
            (
                shown == self.pace().bits(),
                "BUSY and the latch after a call",
            ),
        ])
    }

    fn stop(&mut self, sent: &str, stop: Stop) {
        if let Some(count) = stop.cut {
            let digits = (count as usize).saturating_mul(2);
            self.carry_out(sent.get(..digits).unwrap_or(sent));
        }
        if let Some(fill) = stop.fill {
            self.lose_power(fill);
        }
    }

    // Only polls and modifying commands change the model.
    fn carry_out(&mut self, sent: &str) {
        let opcode = byte_at(sent, 0);
        match (opcode, sent.len() / 2) {
            (0x05, 1) => self.pass(opcode),
            (0x06, 1) if self.pace().busy == 0 => self.pass(opcode),
            (0x01, 3) => self.write_status(byte_at(sent, 1), byte_at(sent, 2)),
            (0x20, 4) => self.erase_unit(opcode, 4096, sent),
            (0x52, 4) if self.chip.config.kinds.k32 => self.erase_unit(opcode, 32_768, sent),
            (0xD8, 4) if self.chip.config.kinds.k64 => self.erase_unit(opcode, 65_536, sent),
            (0xC7, 1) => self.erase(opcode, 0, self.chip.config.size),
            (0x02, count) if count > 4 => self.program(sent),
            _ => {}
        }
    }

    fn pace(&self) -> Pace {
        Pace::of(&self.chip)
    }

    fn pass(&mut self, opcode: u8) {
        self.set_pace(self.pace().after(opcode));
    }

    fn set_pace(&mut self, pace: Pace) {
        self.chip.delays.now = pace.busy;
        self.chip.status[0] = guards::kept(self.chip.status)[0] | pace.bits();
    }

    fn takes(&self, start: u32, len: u32) -> bool {
        let Chip { config, status, .. } = &self.chip;
        let (first, count) = guards::guarded_places(guards::code_of(*status), config.size);
        let guarded = config.scheme
            && start < first.saturating_add(count)
            && first < start.saturating_add(len);
        self.is_ready() && !guarded
    }

    fn is_ready(&self) -> bool {
        self.pace().bits() == 0b0000_0010
    }

    // Carries out a status write if the chip accepts it. LB bits that are set stay set; the reserved bit stays.
    fn write_status(&mut self, one: u8, two: u8) {
        let before = guards::kept(self.chip.status);
        if !self.is_ready() || guards::is_locked(before) {
            return;
        }
        let stays = before[1] & 0b0011_1100;
        self.chip.status = [one & 0b1111_1100, two & 0b0111_1011 | stays];
        self.work = Work::Status(before);
        self.pass(0x01);
    }

    fn erase_unit(&mut self, opcode: u8, len: u32, sent: &str) {
        let address = self.address_of(sent);
        self.erase(opcode, aligned(address, len), len);
    }

    fn erase(&mut self, opcode: u8, start: u32, len: u32) {
        if self.takes(start, len) {
            self.fill(start, len, 0xFF);
            self.work = Work::Bytes(start, len);
            self.pass(opcode);
        }
    }

    fn fill(&mut self, start: u32, len: u32, byte: u8) {
        for place in self
            .chip
            .bytes
            .iter_mut()
            .skip(start as usize)
            .take(len as usize)
        {
            *place = byte;
        }
    }

    // Carries out a program if the chip accepts it. Bits change only from 1 to 0; a page's first byte follows its last.
    fn program(&mut self, sent: &str) {
        let address = self.address_of(sent);
        if !self.takes(address, 1) {
            return;
        }
        let page = aligned(address, 256);
        for place in 4..sent.len() / 2 {
            let at = (address as usize).saturating_add(place.saturating_sub(4)) % 256;
            self.lower((page as usize).saturating_add(at), byte_at(sent, place));
        }
        self.work = Work::Bytes(page, 256);
        self.pass(0x02);
    }

    fn lower(&mut self, at: usize, byte: u8) {
        if let Some(old) = self.chip.bytes.get_mut(at) {
            *old &= byte;
        }
    }

    fn address_of(&self, sent: &str) -> u32 {
        let digits = sent.get(2..8).unwrap_or("");
        let address = u32::from_str_radix(digits, 16).unwrap_or(0);
        address.checked_rem(self.chip.config.size).unwrap_or(0)
    }

    fn lose_power(&mut self, fill: u8) {
        let pace = self.pace();
        if pace.busy > 0 {
            self.cut_off(fill);
        }
        self.set_pace(pace.without_power());
    }

    fn cut_off(&mut self, fill: u8) {
        match self.work {
            Work::Bytes(start, len) => self.fill(start, len, fill),
            Work::Status(before) if fill % 2 == 0 => self.chip.status = before,
            Work::Status(_) | Work::Unknown => {}
        }
    }
}

fn sent_by(line: &str) -> &str {
    match line.split_once(' ') {
        Some((sent, _)) => sent,
        None => line,
    }
}

fn aligned(address: u32, len: u32) -> u32 {
    address.saturating_sub(address.checked_rem(len).unwrap_or(0))
}

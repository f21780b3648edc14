//! A simulated serprog programmer with a simulated chip.

ghost use Rattle.std.proofs.lemmas.Bool.{false≢true};
ghost use Rattle.nor_serprog.specs.Device.{unknown_port};
ghost use Rattle.nor_serprog.specs.Wire.{asked_on, received_on};

use arrayvec::ArrayVec;
use nor_chip::{Bus, Config, Delays, Meter, SimBus};
use nor_serprog::{Port, Wire, frame_len};
use std::alloc::Global;
use std::process::Abort;
use std::{fmt, mem};

// The capacities in bytes of `begun` (an incomplete frame) and of `pending` (replies that the host hasn't received).
const MOST_BEGUN: usize = 300;

const MOST_PENDING: usize = 5000;

/// A fault of the model at one O_SPIOP command.
#[derive(Clone, Copy, PartialEq, Eq)]
pub enum Fault {
    /// Replies NAK, and doesn't carry out the command.
    Nak,
    /// Carries out the command, and sends no reply.
    Silent,
    /// Carries out the command, and sends only ACK and the first half of the reply bytes.
    Short,
    /// Carries out the command, and replies with a byte that is neither ACK nor NAK.
    Strange,
    /// Carries out the command, and flips a bit of the first reply byte.
    Flip,
    /// Receives the header of the command, and then the port fails.
    Cut,
}

/// Why the port failed: not enough reply bytes had arrived (`Silent`), or the fault `Fault::Cut` occurred.
#[derive(Clone, Copy, PartialEq, Eq)]
pub enum Cause {
    Silent,
    Cut,
}

impl fmt::Display for Cause {
    fn fmt<W: fmt::Write>(&self, f: &mut fmt::Formatter<W>) -> fmt::Result {
        f.write_str(match self {
            Cause::Silent => "silent",
            Cause::Cut => "cut",
        })
    }
}

/// A programmer that, except for its fault, follows flashrom's Documentation/serprog-protocol.txt. The fields from
/// `version` to `buffer` are replies to queries; `operations` counts complete O_SPIOP commands.
#[derive(Drop)]
pub struct Model {
    pub chip: SimBus,
    pub version: u8,
    pub buses: u8,
    pub longest_write: [u8; 3],
    pub longest_read: [u8; 3],
    pub buffer: [u8; 2],
    /// The opcode of a command that the reply to Q_CMDMAP leaves out.
    pub lacks: Option<u8>,
    /// The number of the O_SPIOP command, counted from 0, at which `fault` occurs.
    pub fault_at: u32,
    pub fault: Option<Fault>,
    pub operations: u32,
    pub received: u32,
    begun: ArrayVec<u8, MOST_BEGUN>,
    pub pending: ArrayVec<u8, MOST_PENDING>,
    wire: Wire,
}

impl Model {
    /// Returns a programmer without faults, with an erased chip of 64 KiB that carries out `u64::MAX` transactions.
    pub fn new(rt: &impl Abort, alloc: Global) -> Model {
        let idle = Delays { now: 0, each: 0 };
        let erased = vec![in alloc; 0xFF; 65536].expect(rt, "memory");
        let mut chip = SimBus::new(Config::tiny64(), erased, [0x00, 0x00], idle).expect(
            rt, "a size",
        );
        chip.allow(u64::MAX);
        Model {
            chip,
            version: 1,
            buses: 0x08,
            longest_write: [0, 0, 0],
            longest_read: [0, 0, 0],
            buffer: [0xFF, 0xFF],
            lacks: None,
            fault_at: 0,
            fault: None,
            operations: 0,
            received: 0,
            begun: ArrayVec::new(),
            pending: ArrayVec::new(),
            wire: Wire::new(),
        }
    }

    fn take(&mut self, bytes: &[u8]) -> Result<(), Cause> {
        let cut = self.fault == Some(Fault::Cut) && self.operations == self.fault_at;
        for byte in bytes {
            self.received = self.received.saturating_add(1);
            let _ = self.begun.try_push(*byte);
            let len = self.begun.len();
            if cut && len == 7 && self.begun.first() == Some(&0x13) {
                return Err(Cause::Cut);
            }
            if frame_len(&self.begun) == Some(len) {
                self.carry_out();
            }
        }
        Ok(())
    }

    fn reply(&mut self, bytes: &[u8]) {
        let _ = self.pending.try_extend_from_slice(bytes);
    }

    fn carry_out(&mut self) {
        let frame = mem::replace(&mut self.begun, ArrayVec::new());
        match frame.as_slice() {
            [0x00 | 0x12 | 0x15, ..] => self.reply(&[0x06]),
            [0x10] => self.reply(&[0x15, 0x06]),
            [0x01] => self.reply(&[0x06, self.version, 0]),
            [0x02] => self.reply_map(),
            [0x03] => self.reply(b"\x06in memory\0\0\0\0\0\0\0"),
            [0x04] => self.reply(&[0x06, self.buffer[0], self.buffer[1]]),
            [0x05] => self.reply(&[0x06, self.buses]),
            [0x08] => {
                let [low, middle, high] = self.longest_write;
                self.reply(&[0x06, low, middle, high]);
            }
            [0x11] => {
                let [low, middle, high] = self.longest_read;
                self.reply(&[0x06, low, middle, high]);
            }
            [0x14, a, b, c, d] => self.reply(&[0x06, *a, *b, *c, *d]),
            [0x13, _, _, _, low, middle, _, out @ ..] => {
                self.operate(out, u16::from_le_bytes([*low, *middle]))
            }
            _ => self.reply(&[0x15]),
        }
    }

    fn reply_map(&mut self) {
        let mut answer = [0; 33];
        answer[0] = 0x06;
        for opcode in [
            0x00_u8, 0x01, 0x02, 0x03, 0x04, 0x05, 0x08, 0x10, 0x11, 0x12, 0x13, 0x14, 0x15,
        ] {
            let index = 1 + usize::from(opcode / 8);
            if Some(opcode) != self.lacks
                && let Some(byte) = answer.get_mut(index)
            {
                *byte |= 1 << (opcode % 8);
            }
        }
        self.reply(&answer);
    }

    // Carries out an O_SPIOP command. Replies NAK instead if the fault is `Nak`, or if the command exceeds a limit.
    fn operate(&mut self, out: &[u8], replies: u16) {
        let fault = if self.operations == self.fault_at {
            self.fault
        } else {
            None
        };
        self.operations = self.operations.saturating_add(1);
        if fault == Some(Fault::Nak)
            || exceeds(out.len(), self.longest_write)
            || exceeds(usize::from(replies), self.longest_read)
        {
            return self.reply(&[0x15]);
        }
        let mut reply = [0; 4096];
        let len = usize::from(replies).min(4096);
        let reply = &mut reply[..len];
        let _ = self.chip.transfer(out, &mut *reply);
        match fault {
            Some(Fault::Silent) => return,
            Some(Fault::Strange) => return self.reply(&[0x99]),
            Some(Fault::Short) => {
                self.reply(&[0x06]);
                return self.reply(&reply[..len / 2]);
            }
            Some(Fault::Flip) => {
                if let Some(first) = reply.first_mut() {
                    *first ^= 0x01;
                }
            }
            _ => {}
        }
        self.reply(&[0x06]);
        self.reply(reply);
    }
}

// Returns whether a length exceeds a limit. A limit of 0 means that there is none.
fn exceeds(len: usize, limit: [u8; 3]) -> bool {
    let [low, middle, high] = limit;
    let limit = u32::from_le_bytes([low, middle, high, 0]) as usize;
    limit != 0 && len > limit
}

impl Port for Model {
    type Cause = Cause;

    ghost state = { λ port. unknown_port (asked_on port.wire) (received_on port.wire) };

    ghost reaches = { λ _ honest. absurd (false≢true honest) };

    fn send(&mut self, bytes: &[u8]) -> Result<(), Cause> {
        let mut wire = mem::replace(&mut self.wire, Wire::new());
        wire.asked(bytes);
        let sent = self.take(bytes);
        self.wire = wire;
        sent
    }

    fn receive(&mut self, bytes: &mut [u8]) -> Result<(), Cause> {
        let len = bytes.len();
        if self.pending.len() < len {
            return Err(Cause::Silent);
        }
        let mut rest = ArrayVec::new();
        let (taken, later) = self.pending.as_slice().split_at(len);
        bytes.copy_from_slice(taken);
        let _ = rest.try_extend_from_slice(later);
        self.pending = rest;
        self.wire.received(bytes);
        Ok(())
    }
}

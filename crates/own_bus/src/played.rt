//! A simulated programmer and simulated wires, each with a simulated chip, so that the example needs no hardware.
ghost use Rattle.std.proofs.lemmas.Bool.{false≢true};
ghost use Rattle.nor_serprog.specs.Device.{unknown_port};
ghost use Rattle.nor_serprog.specs.Wire.{asked_on, received_on};

use crate::own::Wires;
use arrayvec::ArrayVec;
use nor_chip::{Bus, SimBus, is_changing};
use nor_serprog::{Port, Wire, frame_len};
use std::io::ErrorKind;
use std::{fmt, io, mem};

// The length of the longest frame, a page program: a header of 7 bytes, an opcode, three address and 256 data bytes.
const MOST_BEGUN: usize = 267;

// The length of the longest reply: ACK and the 4,096 bytes of a sector.
const MOST_PENDING: usize = 4097;

const ACK: u8 = 0x06;

const NAK: u8 = 0x15;

// The reply to Q_CMDMAP: ACK, and the map with the commands 00h, 01h, 02h, 10h, 12h and 13h.
const COMMANDS: [u8; 33] = [
    ACK, 0x07, 0, 0x0D, 0, 0, 0, 0, 0, 0, 0, 0, 0, 0, 0, 0, 0, 0, 0, 0, 0, 0, 0, 0, 0, 0, 0, 0, 0,
    0, 0, 0, 0,
];

#[derive(Drop)]
pub struct PlayedPort {
    chip: SimBus,
    // The bytes of an incomplete command, and the reply bytes that the host has not received yet.
    begun: ArrayVec<u8, MOST_BEGUN>,
    pending: ArrayVec<u8, MOST_PENDING>,
    wire: Wire,
}

impl PlayedPort {
    pub fn new(chip: SimBus) -> PlayedPort {
        PlayedPort {
            chip,
            begun: ArrayVec::new(),
            pending: ArrayVec::new(),
            wire: Wire::new(),
        }
    }

    fn take(&mut self, bytes: &[u8]) -> io::Result<()> {
        for byte in bytes {
            self.begun
                .try_push(*byte)
                .map_err(|_| ErrorKind::OutOfMemory)?;
            if frame_len(&self.begun) == Some(self.begun.len()) {
                let frame = mem::replace(&mut self.begun, ArrayVec::new());
                self.carry_out(&frame)?;
            }
        }
        Ok(())
    }

    fn reply(&mut self, bytes: &[u8]) -> io::Result<()> {
        self.pending
            .try_extend_from_slice(bytes)
            .map_err(|_| ErrorKind::OutOfMemory.into())
    }

    // Carries out one frame as flashrom's Documentation/serprog-protocol.txt specifies, for reads of up to 4,096 bytes.
    fn carry_out(&mut self, frame: &[u8]) -> io::Result<()> {
        match frame {
            [0x00 | 0x12, ..] => self.reply(&[ACK]),
            [0x01] => self.reply(&[ACK, 1, 0]),
            [0x02] => self.reply(&COMMANDS),
            [0x10] => self.reply(&[NAK, ACK]),
            [0x13, _, _, _, low, middle, _, out @ ..] => {
                self.operate(out, u16::from_le_bytes([*low, *middle]))
            }
            _ => self.reply(&[NAK]),
        }
    }

    fn operate(&mut self, out: &[u8], replies: u16) -> io::Result<()> {
        let mut reply = [0; 4096];
        let len = usize::from(replies).min(4096);
        let reply = &mut reply[..len];
        if self.chip.transfer(out, &mut *reply).is_err() {
            return self.reply(&[NAK]);
        }
        self.reply(&[ACK])?;
        self.reply(reply)
    }
}

impl Port for PlayedPort {
    type Cause = io::Error;

    ghost state = { λ port. unknown_port (asked_on port.wire) (received_on port.wire) };

    ghost reaches = { λ _ honest. absurd (false≢true honest) };

    fn send(&mut self, bytes: &[u8]) -> io::Result<()> {
        let mut wire = mem::replace(&mut self.wire, Wire::new());
        wire.asked(bytes);
        let sent = self.take(bytes);
        self.wire = wire;
        sent
    }

    fn receive(&mut self, bytes: &mut [u8]) -> io::Result<()> {
        let len = bytes.len();
        if self.pending.len() < len {
            return Err(ErrorKind::UnexpectedEof.into());
        }
        let mut rest = ArrayVec::new();
        let (received, later) = self.pending.as_slice().split_at(len);
        bytes.copy_from_slice(received);
        let _ = rest.try_extend_from_slice(later);
        self.pending = rest;
        self.wire.received(bytes);
        Ok(())
    }
}

#[derive(Clone, Copy, Debug, PartialEq, Eq)]
pub struct Cut;

impl fmt::Display for Cut {
    fn fmt<W: fmt::Write>(&self, f: &mut fmt::Formatter<W>) -> fmt::Result {
        f.write_str("the wires were cut")
    }
}

/// Wires to a simulated chip, which are cut after a given number of transactions.
#[derive(Drop)]
pub struct PlayedWires {
    chip: SimBus,
    left: u64,
    /// The number of modifying commands that were sent before the wires were cut.
    pub modifying: u64,
}

impl PlayedWires {
    pub fn new(chip: SimBus, left: u64) -> PlayedWires {
        PlayedWires {
            chip,
            left,
            modifying: 0,
        }
    }
}

impl Wires for PlayedWires {
    type Cause = Cut;

    fn transact(&mut self, out: &[u8], reply: &mut [u8]) -> Result<(), Cut> {
        self.left = self.left.checked_sub(1).ok_or(Cut)?;
        if is_changing(out) {
            self.modifying = self.modifying.saturating_add(1);
        }
        self.chip.transfer(out, reply).map_err(|_| Cut)
    }
}

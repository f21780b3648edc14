//! A faulty bus that sets a bit in the replies to one opcode.
ghost use Rattle.std.proofs.lemmas.Bool.{false≢true};
ghost use Rattle.nor_model.specs.Bus.{unknown_bus};

use nor_chip::{Bus, History, Stopped};

/// The opcode, and the bit that the bus sets in each byte of the replies to it.
#[derive(Clone, Copy)]
pub struct High {
    pub opcode: u8,
    pub bit: u8,
}

#[derive(Drop)]
pub struct HighBus<B> {
    bus: B,
    high: Option<High>,
    history: History,
}

impl<B: Bus> HighBus<B> {
    pub fn new(bus: B, high: Option<High>) -> HighBus<B> {
        HighBus {
            bus,
            high,
            history: History::new(),
        }
    }
}

impl<B: Bus> Bus for HighBus<B> {
    ghost state = { λ high.
        record (unknown_bus high.history.exchanges) { further = (B.state high.bus).further } };

    ghost reaches = { λ high honest. absurd (false≢true honest) };

    fn transfer(&mut self, out: &[u8], reply: &mut [u8]) -> Result<(), Stopped> {
        if let Err(stopped) = self.bus.transfer(out, reply) {
            self.history = self.history.stopped(out);
            return Err(stopped);
        }
        if let (Some(high), [opcode, ..]) = (self.high, out)
            && high.opcode == *opcode
        {
            set_bit(reply, high.bit);
        }
        self.history = self.history.replied(out, reply);
        Ok(())
    }

    fn has_further_types(&self) -> bool {
        self.bus.has_further_types()
    }
}

fn set_bit(bytes: &mut [u8], bit: u8) {
    let mask = [0x01, 0x02, 0x04, 0x08, 0x10, 0x20, 0x40, 0x80];
    let mask = mask.get(usize::from(bit)).copied().unwrap_or(0);
    for byte in bytes.iter_mut() {
        *byte |= mask;
    }
}

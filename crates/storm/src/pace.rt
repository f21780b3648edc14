//! BUSY and the write enable latch of a chip.

use crate::chips::Chip;
use crate::lines::byte_at;

#[derive(Clone, Copy)]
pub struct Pace {
    /// The number of polls that will still show BUSY.
    pub busy: u16,
    latch: bool,
    each: u16,
}

impl Pace {
    pub fn of(chip: &Chip) -> Pace {
        Pace {
            busy: chip.delays.now,
            latch: chip.status[0] & 0b0000_0010 != 0,
            each: chip.delays.each,
        }
    }

    pub fn bits(self) -> u8 {
        u8::from(self.busy > 0) | u8::from(self.latch) << 1
    }

    /// Returns the pace after a transaction with this opcode. For a modifying command the chip must be idle and, except
    /// for a write enable, its write enable latch must be set.
    pub fn after(self, opcode: u8) -> Pace {
        match opcode {
            0x05 => self.after_poll(),
            0x06 => Pace {
                latch: true,
                ..self
            },
            0x01 | 0x02 | 0x20 | 0x52 | 0xD8 | 0xC7 => Pace {
                busy: self.each,
                latch: self.each > 0,
                each: self.each,
            },
            _ => self,
        }
    }

    fn after_poll(self) -> Pace {
        let busy = self.busy.saturating_sub(1);
        Pace {
            busy,
            latch: self.latch && (self.busy == 0 || busy > 0),
            each: self.each,
        }
    }

    pub fn waited(self) -> Pace {
        let mut pace = self;
        for _ in 0..self.busy {
            pace = pace.after_poll();
        }
        pace
    }

    pub fn after_lines(self, lines: &str) -> Pace {
        let mut pace = self;
        for line in lines.lines() {
            pace = pace.after(byte_at(line, 0));
        }
        pace
    }

    pub fn without_power(self) -> Pace {
        Pace {
            busy: 0,
            latch: false,
            each: self.each,
        }
    }
}

//! The lines of a trace, one for each transaction.

use crate::chips::Chip;
use crate::fault::Fault;
use crate::guards::{self, Status};
use crate::pace::Pace;
use nor_chip::SECTOR_LEN;
use std::alloc::Global;
use std::fmt::Write;

/// The trace lines of the transactions so far (incomplete if `lost`), and the chip's status bits after these lines.
#[derive(Drop)]
pub struct Lines {
    text: String,
    lost: bool,
    // The chip's non-volatile status bits after the transactions in `text`.
    status: Status,
    pace: Pace,
}

impl Lines {
    pub fn new(alloc: Global, chip: &Chip) -> Lines {
        Lines {
            text: String::new(alloc),
            lost: false,
            status: guards::kept(chip.status),
            pace: Pace::of(chip),
        }
    }

    pub fn whole(self) -> Result<Lines, Fault> {
        if self.lost {
            Err(Fault::Memory)
        } else {
            Ok(self)
        }
    }

    pub fn text(&self) -> &str {
        self.text.as_str()
    }

    pub fn wait(&mut self) {
        for _ in 0..=self.pace.busy {
            let status1 = self.status[0] | self.pace.bits();
            self.put("05 > ");
            self.put_bytes(&[status1]);
            self.put("\n");
            self.pace = self.pace.after(0x05);
        }
    }

    pub fn read_id(&mut self, id: [u8; 3]) {
        self.put("9f > ");
        self.put_bytes(&id);
        self.put("\n");
    }

    /// Appends a read of `count` SFDP bytes from `address` on (5Ah), with a dummy byte 00h.
    pub fn read_parameters(&mut self, address: u32, count: u32) {
        self.lost |= writeln!(self.text, "5a{address:06x}00 > {count} bytes").is_err();
    }

    pub fn read_status2(&mut self) {
        self.put("35 > ");
        self.put_bytes(&[self.status[1]]);
        self.put("\n");
    }

    /// Appends a read of the unique ID (4Bh), with four dummy bytes 00h.
    pub fn read_unique(&mut self) {
        self.put("4b00000000 > 8 bytes\n");
    }

    pub fn read_sector(&mut self, number: u32) {
        self.put_address(0x03, number.saturating_mul(SECTOR_LEN));
        self.put(" > 4096 bytes\n");
    }

    pub fn erase(&mut self, opcode: u8, address: u32) {
        self.enable();
        self.put_address(opcode, address);
        self.put("\n");
        self.finish(opcode);
    }

    pub fn erase_chip(&mut self) {
        self.enable();
        self.put("c7\n");
        self.finish(0xC7);
    }

    pub fn program(&mut self, address: u32, bytes: &[u8]) {
        self.enable();
        self.put_address(0x02, address);
        self.put_bytes(bytes);
        self.put("\n");
        self.finish(0x02);
    }

    pub fn write_status(&mut self, status: Status) {
        self.enable();
        self.put("01");
        self.put_bytes(&status);
        self.put("\n");
        self.status = status;
        self.finish(0x01);
    }

    fn put(&mut self, text: &str) {
        self.lost |= self.text.push_str(text).is_err();
    }

    fn put_bytes(&mut self, bytes: &[u8]) {
        for byte in bytes {
            self.lost |= write!(self.text, "{byte:02x}").is_err();
        }
    }

    fn put_address(&mut self, opcode: u8, address: u32) {
        let [_, high, middle, low] = address.to_be_bytes();
        self.put_bytes(&[opcode, high, middle, low]);
    }

    fn enable(&mut self) {
        self.put("06\n");
        self.pace = self.pace.after(0x06);
    }

    fn finish(&mut self, opcode: u8) {
        self.pace = self.pace.after(opcode);
        self.wait();
    }
}

pub fn first(lines: &str, count: u64) -> &str {
    let count = usize::try_from(count).unwrap_or(usize::MAX);
    let mut end = 0_usize;
    for line in lines.lines().take(count) {
        end = end.saturating_add(line.len()).saturating_add(1);
    }
    lines.get(..end).unwrap_or(lines)
}

pub fn byte_at(sent: &str, place: usize) -> u8 {
    let from = place.saturating_mul(2);
    let digits = sent.get(from..from.saturating_add(2)).unwrap_or("");
    u8::from_str_radix(digits, 16).unwrap_or(0)
}

pub fn count(lines: &str) -> u64 {
    u64::try_from(lines.lines().count()).unwrap_or(u64::MAX)
}

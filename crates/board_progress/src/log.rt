//! The lines that `-V` prints and a log (`-o`) receives for modifying transactions, reading steps and stops of the bus.
ghost use Rattle.std.specs.Prelude.{◌≡◌, IfSome};
ghost use Rattle.nor_buses.specs.ReadsAs.{address_in};
ghost use Rattle.board_progress.specs.Estimates.{millis_in, whole_seconds_in};

use nor_model::opcodes::{
    ERASE_32K, ERASE_64K, ERASE_CHIP, ERASE_SECTOR, PAGE_PROGRAM, WRITE_ENABLE, WRITE_STATUS,
};
use std::fmt;

/// The line of a modifying transaction that sends `out`. `micros` is the time in microseconds since the
/// `Terminal` was created.
#[derive(Clone, Copy, Drop)]
pub struct CommandText<'a> {
    pub micros: u64,
    pub name: &'static str,
    pub out: &'a [u8],
}

/// Returns the name of a modifying transaction, or `None` for another transaction.
pub fn command_name(out: &[u8]) -> Option<&'static str> {
    match out {
        [WRITE_ENABLE, ..] => Some("write enable"),
        [WRITE_STATUS, ..] => Some("write status"),
        [PAGE_PROGRAM, ..] => Some("program"),
        [ERASE_SECTOR, ..] => Some("erase 4 KiB"),
        [ERASE_32K, ..] => Some("erase 32 KiB"),
        [ERASE_64K, ..] => Some("erase 64 KiB"),
        [ERASE_CHIP, ..] => Some("erase chip"),
        _ => None,
    }
}

fn address_and_len(out: &[u8]) -> Option<(u32, usize)>
    ensures { IfSome result (λ found. found.0 ≡ address_in out.now) }
{
    match out {
        [_, high, middle, low, data @ ..] => {
            Some((u32::from_be_bytes([0, *high, *middle, *low]), data.len()))
        }
        _ => None,
    }
}

impl fmt::Display for CommandText<'_> {
    fn fmt<W: fmt::Write>(&self, f: &mut fmt::Formatter<W>) -> fmt::Result {
        write!(f, "{} {}", Seconds(self.micros), self.name)?;
        match (self.out, address_and_len(self.out)) {
            ([WRITE_STATUS, data @ ..], _) => write!(f, ", {}", Bytes(data.len())),
            (_, Some((address, 0))) => write!(f, " at 0x{address:06x}"),
            (_, Some((address, len))) => write!(f, " {} at 0x{address:06x}", Bytes(len)),
            _ => Ok(()),
        }
    }
}

#[derive(Clone, Copy, Drop)]
struct Bytes(usize);

impl fmt::Display for Bytes {
    fn fmt<W: fmt::Write>(&self, f: &mut fmt::Formatter<W>) -> fmt::Result {
        let noun = if self.0 == 1 { "byte" } else { "bytes" };
        write!(f, "{} {noun}", self.0)
    }
}

/// The line for the start of a step that only reads, or for a stop of the bus. `micros` is the time in microseconds
/// since the `Terminal` was created.
#[derive(Clone, Copy, Drop)]
pub struct EventText {
    pub micros: u64,
    pub name: &'static str,
}

impl fmt::Display for EventText {
    fn fmt<W: fmt::Write>(&self, f: &mut fmt::Formatter<W>) -> fmt::Result {
        write!(f, "{} {}", Seconds(self.micros), self.name)
    }
}

#[derive(Clone, Copy, Drop)]
struct Seconds(u64);

impl fmt::Display for Seconds {
    fn fmt<W: fmt::Write>(&self, f: &mut fmt::Formatter<W>) -> fmt::Result {
        let (seconds, millis) = split_millis(self.0);
        write!(f, "{seconds}.{millis:03}")
    }
}

fn split_millis(micros: u64) -> (u64, u64)
    ensures seconds { result.0 ≡ whole_seconds_in micros }
    ensures millis { result.1 ≡ millis_in micros }
{
    (micros / 1_000_000, micros % 1_000_000 / 1000)
}

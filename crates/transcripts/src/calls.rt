//! Calls of the functions of nor_driver that wait for a chip or modify it.

ghost use Rattle.std.specs.Prelude.{◌≡◌, ◌<◌, true, IfOk};
ghost use Rattle.nor_driver.specs.Units.{is_aligned};

use crate::agree::{put_number, put_text};
use crate::digits::{address_of, byte_of, bytes_of};
use crate::fault::Fault;
use crate::setup::Way;
use crate::word::Word;
use nor_chip::{MOST_SECTORS, Status};
use nor_driver::{Erase, EraseBlock, OperationError, erase, program_page, wait, write_status};
use std::alloc::Global;
use std::fmt::Write;

/// Calls the function that `word` names with the arguments in `words`, and writes its result to `came`: the number of
/// transactions, `stop`, or `timeout ADDRESS`. For a wait that succeeds, status 1 of its last poll comes first.
pub fn call(
    alloc: Global,
    bus: &mut Way<'_>,
    came: &mut String,
    word: Word,
    words: &str,
) -> Result<(), Fault> {
    let (first, second) = words.split_once(' ').unwrap_or((words, ""));
    let first = address_of(first)?;
    match word {
        Word::Wait => wait_at(bus, came, first),
        Word::Program => program(alloc, bus, came, first, second),
        Word::Erase => erase_from(bus, came, first, second),
        Word::Protect => protect(bus, came, first, second),
        _ => Err(Fault::Unread),
    }
}

fn wait_at(bus: &mut Way<'_>, came: &mut String, address: u32) -> Result<(), Fault> {
    match wait(bus, address) {
        Ok(waited) => {
            write!(came, "{:02x} {}", waited.status1, waited.polls).map_err(Fault::from)
        }
        Err(error) => put(came, Err(error)),
    }
}

fn program(
    alloc: Global,
    bus: &mut Way<'_>,
    came: &mut String,
    address: u32,
    words: &str,
) -> Result<(), Fault> {
    let bytes = bytes_of(alloc, words)?;
    let room = 256 - (address % 256) as usize;
    if address >= 0x100_0000 || bytes.is_empty() || bytes.len() > room {
        return Err(Fault::Unread);
    }
    put(came, program_page(bus, address, &bytes))
}

fn erase_from(
    bus: &mut Way<'_>,
    came: &mut String,
    opcode: u32,
    sector: &str,
) -> Result<(), Fault> {
    let erased = erase_of(opcode, address_of(sector)?)?;
    put(came, erase(bus, erased))
}

// Writes the status registers. `status` has status 1 in bits 15 to 8, and status 2 in bits 7 to 0.
fn protect(bus: &mut Way<'_>, came: &mut String, status: u32, code: &str) -> Result<(), Fault> {
    let code = byte_of(code)?;
    let [0, 0, one, two] = status.to_be_bytes() else {
        return Err(Fault::Unread);
    };
    if code >= 64 {
        return Err(Fault::Unread);
    }
    put(came, write_status(bus, Status::of([one, two]), code))
}

fn erase_of(opcode: u32, sector: u32) -> Result<Erase, Fault>
    ensures reachable { IfOk result (λ erase. erase.sector < 4096) }
    ensures aligned { IfOk result (λ erase. is_aligned erase.unit erase.sector ≡ true) }
{
    let unit = match opcode {
        0x20 => EraseBlock::Sector,
        0x52 => EraseBlock::Block32,
        0xD8 => EraseBlock::Block64,
        0xC7 => EraseBlock::Chip,
        _ => return Err(Fault::Unread),
    };
    if sector >= MOST_SECTORS {
        return Err(Fault::Unread);
    }
    let erased = Erase {
        unit,
        sector: sector as u16,
    };
    if !erased.is_aligned() {
        return Err(Fault::Unread);
    }
    Ok(erased)
}

fn put(came: &mut String, outcome: Result<u32, OperationError>) -> Result<(), Fault> {
    match outcome {
        Ok(count) => put_number(came, u64::from(count)),
        Err(OperationError::Stopped) => put_text(came, "stop"),
        Err(OperationError::Timeout { address }) => {
            write!(came, "timeout {address:06x}").map_err(Fault::from)
        }
    }
}

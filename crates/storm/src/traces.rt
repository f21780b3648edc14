//! Checks of traces, which have one line for each transaction.

use crate::cases::Case;
use crate::fault::{Fault, agree_all};
use crate::lengths;
use crate::lines::byte_at;
use crate::wanted::Wanted;
use nor_chip::SECTOR_LEN;
use nor_session::Refusal;

/// Checks that the trace `sent` has exactly the lines `wanted`.
pub fn check_lines(sent: &str, wanted: &str, call: &'static str) -> Result<(), Fault> {
    let mut number = 1_u64;
    for (line, other) in sent.lines().zip(wanted.lines()) {
        if line != other {
            return Err(Fault::Sends(call, number));
        }
        number = number.saturating_add(1);
    }
    if sent.len() == wanted.len() {
        Ok(())
    } else {
        Err(Fault::Sends(call, number))
    }
}

pub fn check_trace(sent: &[u8], wanted: &str, call: &'static str) -> Result<(), Fault> {
    check_lines(text(sent)?, wanted, call)
}

pub fn text(sent: &[u8]) -> Result<&str, Fault> {
    match str::from_utf8(sent) {
        Ok(lines) => Ok(lines),
        Err(_) => Err(Fault::Differs("a trace is text")),
    }
}

pub fn check_refused(case: &Case, refusal: Refusal, sent: &str) -> Result<(), Fault> {
    let count = u64::try_from(sent.lines().count());
    let counted = count == Ok(lengths::refused(case, refusal));
    let changing = sent.lines().any(changes);
    agree_all(&[
        (counted, "the transactions before a refusal"),
        (!changing, "a changing command before a refusal"),
    ])
}

/// Checks that a session sent no modifying command before the seal, and erased only raised sectors.
pub fn check_ended(case: &Case, wanted: &Wanted, sent: &str) -> Result<(), Fault> {
    let saving = usize::try_from(lengths::saving(case)).unwrap_or(usize::MAX);
    let changing = sent.lines().take(saving).any(changes);
    agree_all(&[
        (!changing, "a changing command before the seal"),
        (
            erases_only_raised(sent, case.chip.sectors(), wanted),
            "the sectors that are erased",
        ),
    ])
}

fn changes(line: &str) -> bool {
    matches!(
        byte_at(line, 0),
        0x06 | 0x01 | 0x02 | 0x20 | 0x52 | 0xD8 | 0xC7
    )
}

fn erases_only_raised(sent: &str, sectors: u32, wanted: &Wanted) -> bool {
    for line in sent.lines() {
        if let Some((first, count)) = erased_by(line, sectors)
            && !wanted.raises_all(first, count)
        {
            return false;
        }
    }
    true
}

// Returns the first sector that the line erases and the number of erased sectors, on a chip of `sectors` sectors.
fn erased_by(line: &str, sectors: u32) -> Option<(u32, u32)> {
    let count = match byte_at(line, 0) {
        0xC7 => return Some((0, sectors)),
        0x20 => 1,
        0x52 => 8,
        0xD8 => 16,
        _ => return None,
    };
    let address = u32::from_str_radix(line.get(2..)?, 16).ok()?;
    Some((address / SECTOR_LEN / count * count, count))
}

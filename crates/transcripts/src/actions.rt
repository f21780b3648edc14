//! The actions of a case: transactions, changes of the bus's allowance, and calls of nor_driver.

use crate::agree::{agree, agree_bytes};
use crate::calls;
use crate::digits::bytes_of;
use crate::fault::Fault;
use crate::setup::Way;
use crate::word::Word;
use nor_chip::{Bus, Meter};
use std::alloc::Global;

/// Performs the action on `bus`, and compares its result with the expected one. `came` must be empty; after the fault
/// `Differs` it has the actual result. `Unread` also means that an argument breaks a premise of the called function.
pub fn take(
    alloc: Global,
    bus: &mut Way<'_>,
    came: &mut String,
    word: Word,
    rest: &str,
) -> Result<(), Fault> {
    match word {
        Word::Carries => exchange(alloc, bus, came, false, rest),
        Word::Stops => exchange(alloc, bus, came, true, rest),
        Word::Allow => allow(bus, rest),
        _ => call(alloc, bus, came, word, rest),
    }
}

fn allow(bus: &mut Way<'_>, count: &str) -> Result<(), Fault> {
    bus.allow(count.parse()?);
    Ok(())
}

fn call(
    alloc: Global,
    bus: &mut Way<'_>,
    came: &mut String,
    word: Word,
    rest: &str,
) -> Result<(), Fault> {
    let (words, wanted) = rest.split_once(" = ").ok_or(Fault::Unread)?;
    calls::call(alloc, bus, came, word, words)?;
    agree(came, wanted)
}

// Sends a transaction. `words` has the bytes to send and, after `<`, the bytes that the reply buffer must then have.
fn exchange(
    alloc: Global,
    bus: &mut Way<'_>,
    came: &mut String,
    stops: bool,
    words: &str,
) -> Result<(), Fault> {
    let (out, reply) = words.split_once('<').unwrap_or((words, ""));
    let out = bytes_of(alloc, out)?;
    let wanted = bytes_of(alloc, reply)?;
    send(alloc, bus, came, stops, (&out, &wanted))
}

// Fills the reply buffer with bytes that all differ from the expected ones, so that the comparison fails if the bus
// leaves one unwritten. If the transaction must stop, the buffer has the expected bytes, and must keep these bytes.
fn send(
    alloc: Global,
    bus: &mut Way<'_>,
    came: &mut String,
    stops: bool,
    (out, wanted): (&[u8], &[u8]),
) -> Result<(), Fault> {
    let mut reply = wanted.to_vec(alloc)?;
    if !stops {
        invert(&mut reply);
    }
    let stopped = bus.transfer(out, &mut reply).is_err();
    if stopped == stops {
        return agree_bytes(came, &reply, wanted);
    }
    Err(if stopped {
        Fault::Stopped
    } else {
        Fault::Replied
    })
}

fn invert(bytes: &mut [u8]) {
    for byte in bytes.iter_mut() {
        *byte = !*byte;
    }
}

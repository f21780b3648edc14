//! Checks that damaged journals are rejected.

use crate::dice::Dice;
use crate::fault::{Fault, agree};
use nor_journal::{Journal, JournalFault};
use std::alloc::Global;

#[derive(Clone, Copy)]
enum Damage {
    CutOff,
    Longer,
    Changed,
}

/// Truncates, lengthens or changes the journal. Checks that `Journal::read` rejects it.
pub fn check(alloc: Global, dice: &mut Dice, journal: &[u8]) -> Result<(), Fault> {
    let mut bytes = journal.to_vec(alloc)?;
    let damage = make(dice, &mut bytes)?;
    check_damaged(bytes.as_slice(), damage)
}

fn make(dice: &mut Dice, bytes: &mut Vec<u8>) -> Result<Damage, Fault> {
    let at = place(dice, bytes.len());
    match dice.below(3) {
        0 => {
            bytes.truncate(at);
            Ok(Damage::CutOff)
        }
        1 => {
            bytes.push(dice.byte())?;
            Ok(Damage::Longer)
        }
        _ => {
            if let Some(byte) = bytes.get_mut(at) {
                *byte ^= dice.byte() | 0x01;
            }
            Ok(Damage::Changed)
        }
    }
}

fn check_damaged(bytes: &[u8], damage: Damage) -> Result<(), Fault> {
    let read = Journal::read(bytes);
    match damage {
        Damage::CutOff => agree(
            matches!(read, Err(JournalFault::Short)),
            "a journal that was cut off",
        ),
        Damage::Longer => agree(
            matches!(read, Err(JournalFault::Long)),
            "a journal with a byte after it",
        ),
        Damage::Changed => agree(read.is_err(), "a journal with a byte changed"),
    }
}

// Draws a position, at least half of the time one of the last 40.
fn place(dice: &mut Dice, length: usize) -> usize {
    let length = u32::try_from(length).unwrap_or(u32::MAX);
    let at = if dice.hits(1, 2) {
        dice.below(length)
    } else {
        length.saturating_sub(dice.below(40)).saturating_sub(1)
    };
    at as usize
}

//! Checks of the ranges that status bits protect.

ghost use Rattle.std.specs.Prelude.{IsTrue};

use crate::agree::{put_number, put_text};
use crate::digits::{addresses_of, pair_of, status_of};
use crate::fault::Fault;
use nor_chip::{Config, SECTOR_LEN, code_for, protected, unit_protected};
use std::fmt::Write;

/// Checks at the first and last address of each sector that `status` protects exactly those in `start..end`. If not,
/// appends `guarded` or `free` and the first wrong address to `came`.
pub fn check(
    came: &mut String,
    config: &Config,
    status: [u8; 2],
    (start, end): (u32, u32),
) -> Result<(), Fault> {
    for sector in 0..config.size / SECTOR_LEN {
        let first = sector.saturating_mul(SECTOR_LEN);
        for at in [first, first.saturating_add(SECTOR_LEN - 1)] {
            let is_protected = protected(status, config.size, at);
            if is_protected != (start <= at && at < end) {
                return tell(came, is_protected, at);
            }
        }
    }
    Ok(())
}

fn tell(came: &mut String, is_protected: bool, at: u32) -> Result<(), Fault> {
    write!(came, "{} at {at:06x}", word(is_protected))?;
    Err(Fault::Differs)
}

fn word(is_protected: bool) -> &'static str {
    if is_protected { "guarded" } else { "free" }
}

/// Appends `guarded` to `came` if the status in `words` protects an address of the range in `words`, otherwise `free`.
pub fn put_unit(came: &mut String, config: &Config, words: &str) -> Result<(), Fault> {
    let (status, places) = words.split_once(' ').ok_or(Fault::Unread)?;
    let status = status_of(status)?;
    let (start, end) = addresses_of(places)?;
    if start >= end || end > config.size {
        return Err(Fault::Unread);
    }
    let is_protected = unit_protected(status, config.size, start, end - start);
    put_text(came, word(is_protected))
}

/// Appends to `came` the least protection bits that protect exactly the range in `words`, in decimal, or `none`.
pub fn put_least(came: &mut String, config: &Config, words: &str) -> Result<(), Fault> {
    let (start, len) = pair_of(words)?;
    match code_for(start, len, config.size) {
        Some(code) => put_number(came, u64::from(code)),
        None => put_text(came, "none"),
    }
}

//! Parses bytes and addresses in hexadecimal digits.

use crate::fault::Fault;
use hex::FromHex;
use std::alloc::{AllocError, Global};

/// Parses groups of hexadecimal bytes such as `02 0000fe 1122`. The group `ff*8` is eight bytes FFh.
pub fn bytes_of(alloc: Global, words: &str) -> Result<Vec<u8>, Fault> {
    let mut bytes = Vec::new(alloc);
    for word in words.split_whitespace() {
        let (digits, count) = word.split_once('*').unwrap_or((word, "1"));
        let piece = hex::decode(alloc, digits)?;
        repeat(&mut bytes, &piece, count.parse::<u32>()?)?;
    }
    Ok(bytes)
}

fn repeat(bytes: &mut Vec<u8>, piece: &[u8], count: u32) -> Result<(), AllocError> {
    for _ in 0..count {
        bytes.extend_from_slice(piece)?;
    }
    Ok(())
}

pub fn byte_of(digits: &str) -> Result<u8, Fault> {
    u8::from_str_radix(digits, 16).map_err(Fault::from)
}

pub fn status_of(digits: &str) -> Result<[u8; 2], Fault> {
    <[u8; 2] as FromHex>::from_hex(digits).map_err(Fault::from)
}

pub fn address_of(digits: &str) -> Result<u32, Fault> {
    u32::from_str_radix(digits, 16).map_err(Fault::from)
}

/// Parses a range such as `7fe000..7ff000`. Returns its first address, and the address after its last one.
pub fn addresses_of(places: &str) -> Result<(u32, u32), Fault> {
    let (start, end) = places.split_once("..").ok_or(Fault::Unread)?;
    Ok((address_of(start)?, address_of(end)?))
}

pub fn pair_of(words: &str) -> Result<(u32, u32), Fault> {
    let (first, second) = words.split_once(' ').ok_or(Fault::Unread)?;
    Ok((address_of(first)?, address_of(second)?))
}

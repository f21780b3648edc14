//! Compares results with the values that a case expects. The string `came` has the actual value.

use crate::fault::Fault;
use std::fmt::Write;

pub fn agree(came: &str, wanted: &str) -> Result<(), Fault> {
    if came == wanted {
        Ok(())
    } else {
        Err(Fault::Differs)
    }
}

/// If `bytes` differ from `wanted`, appends them to `came` in hexadecimal and returns `Differs`.
pub fn agree_bytes(came: &mut String, bytes: &[u8], wanted: &[u8]) -> Result<(), Fault> {
    if bytes == wanted {
        return Ok(());
    }
    for byte in bytes {
        write!(came, "{byte:02x}")?;
    }
    Err(Fault::Differs)
}

pub fn put_number(came: &mut String, number: u64) -> Result<(), Fault> {
    write!(came, "{number}").map_err(Fault::from)
}

pub fn put_text(came: &mut String, text: &str) -> Result<(), Fault> {
    came.push_str(text).map_err(Fault::from)
}

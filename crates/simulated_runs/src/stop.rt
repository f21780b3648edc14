//! What happens to the chip if the port fails.

use crate::fault::Fault;

/// The effect of a failure of the port (`SimBus::tear`, `SimBus::lose`).
#[derive(Clone, Copy)]
pub struct Stop {
    /// The greatest number of bytes of the interrupted transaction that are sent.
    pub torn: Option<u32>,
    /// If the chip loses its power, the value of each byte that is being programmed or erased.
    pub fill: Option<u8>,
}

impl Stop {
    /// Reads both values. `-` stands for `None`.
    pub fn read(torn: &str, fill: &str) -> Result<Stop, Fault> {
        let fill = match number(fill)? {
            Some(number) => match u8::try_from(number) {
                Ok(byte) => Some(byte),
                Err(_) => return Err(Fault::Usage),
            },
            None => None,
        };
        Ok(Stop {
            torn: number(torn)?,
            fill,
        })
    }
}

fn number(word: &str) -> Result<Option<u32>, Fault> {
    if word == "-" {
        return Ok(None);
    }
    match word.parse() {
        Ok(number) => Ok(Some(number)),
        Err(_) => Err(Fault::Usage),
    }
}

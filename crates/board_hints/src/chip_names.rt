//! The texts that name a chip in printed lines.

use nor_probe::{ChipName, part_for};
use std::fmt;

/// The name and the ID of a chip. If the table of chips has no row for this ID, the name is `SFDP`.
#[derive(Clone, Copy, Drop)]
pub struct ChipText(pub [u8; 3]);

impl fmt::Display for ChipText {
    fn fmt<W: fmt::Write>(&self, f: &mut fmt::Formatter<W>) -> fmt::Result {
        let name = match part_for(true, self.0) {
            Some(part) => part.name.as_str(),
            None => ChipName::Sfdp.as_str(),
        };
        write!(f, "{name} ({})", Hex(self.0))
    }
}

/// The sentence that says which chip is connected and, if the table of chips lacks it, which name `-c` needs.
#[derive(Clone, Copy, Drop)]
pub struct Connected(pub [u8; 3]);

impl fmt::Display for Connected {
    fn fmt<W: fmt::Write>(&self, f: &mut fmt::Formatter<W>) -> fmt::Result {
        match part_for(true, self.0) {
            Some(_) => write!(f, "The connected chip is {}.", ChipText(self.0)),
            None => write!(
                f,
                "The connected chip has the ID {}, and only its SFDP is known: its name for -c is SFDP.",
                Hex(self.0)
            ),
        }
    }
}

#[derive(Clone, Copy, Drop)]
pub struct Hex(pub [u8; 3]);

impl fmt::Display for Hex {
    fn fmt<W: fmt::Write>(&self, f: &mut fmt::Formatter<W>) -> fmt::Result {
        let [maker, kind, capacity] = self.0;
        write!(f, "{maker:02x}{kind:02x}{capacity:02x}")
    }
}

//! The table of the chips that are known by their ID, the emulated chips, the further rows that only programs for real
//! chips use, and the names of chips.

ghost use Rattle.std.specs.Prelude.{◌≡◌, IfSome};
ghost use Rattle.nor_probe.specs.Table.{name_of, name_text, chips, part_with_id, part_with_name, row_or};
ghost use Rattle.nor_probe.specs.Table.{further_with_id, further_with_name, part_for};
ghost use Rattle.nor_probe.specs.Table.{emulated_named, IsEmulatedPart};

use nor_model::{ALL_KINDS, Kinds};

/// The name of a chip type. The names that begin with `W25Q` are those of Winbond's chips.
#[derive(Clone, Copy, Debug, PartialEq, Eq)]
pub enum ChipName {
    W25Q64FV,
    W25Q128FV,
    W25Q32FV,
    W25Q32FW,
    W25Q64FW,
    W25Q128FW,
    W25Q32JVM,
    W25Q64JVM,
    W25Q128JVM,
    /// The name of every chip that is known only by its SFDP.
    Sfdp,
    /// Any other name, which no chip has.
    Other,
}

impl ChipName {
    /// Returns the name with exactly the text `text` (upper case), or `Other` if there is none.
    pub fn of(text: &str) -> ChipName
        ensures { result ≡ name_of text.now }
    {
        match part_named(text).or(further_named(text)) {
            Some(part) => part.name,
            None if text == "SFDP" => ChipName::Sfdp,
            None => ChipName::Other,
        }
    }

    /// Returns the name as text. `of` turns this text into the same name.
    pub fn as_str(self) -> &'static str
        ensures text { result.now ≡ name_text self }
        ensures read_back { name_of result.now ≡ self }
    {
        match self {
            ChipName::W25Q64FV => "W25Q64FV",
            ChipName::W25Q128FV => "W25Q128FV",
            ChipName::W25Q32FV => "W25Q32FV",
            ChipName::W25Q32FW => "W25Q32FW",
            ChipName::W25Q64FW => "W25Q64FW",
            ChipName::W25Q128FW => "W25Q128FW",
            ChipName::W25Q32JVM => "W25Q32JV-M",
            ChipName::W25Q64JVM => "W25Q64JV-M",
            ChipName::W25Q128JVM => "W25Q128JV-M",
            ChipName::Sfdp => "SFDP",
            ChipName::Other => "other",
        }
    }
}

/// A chip type: its name, ID (9Fh), size in bytes, erase types, and whether it has block protection (`scheme`).
#[derive(Clone, Copy, Debug, PartialEq, Eq)]
pub struct Part {
    pub name: ChipName,
    pub id: [u8; 3],
    pub size: u32,
    pub kinds: Kinds,
    pub scheme: bool,
}

// This is a macro because, in Rattle, the value of a constant can't call a function.
macro_rules! winbond {
    ($name:ident, $id:expr, $size:expr) => {
        Part {
            name: ChipName::$name,
            id: $id,
            size: $size,
            kinds: ALL_KINDS,
            scheme: true,
        }
    };
}

// The rows of the table. Source: Winbond W25Q64FV and W25Q128FV datasheets.
const CHIPS: [Part; 2] = [
    winbond!(W25Q64FV, [0xEF, 0x40, 0x17], 8_388_608),
    winbond!(W25Q128FV, [0xEF, 0x40, 0x18], 16_777_216),
];

// The further rows. Source: Winbond datasheets W25Q32FV, W25Q32FW, W25Q64FW, W25Q128FW, W25Q32JV-DTR, W25Q64JV-DTR and
// W25Q128JV-DTR.
const FURTHER: [Part; 7] = [
    winbond!(W25Q32FV, [0xEF, 0x40, 0x16], 4_194_304),
    winbond!(W25Q32FW, [0xEF, 0x60, 0x16], 4_194_304),
    winbond!(W25Q64FW, [0xEF, 0x60, 0x17], 8_388_608),
    winbond!(W25Q128FW, [0xEF, 0x60, 0x18], 16_777_216),
    winbond!(W25Q32JVM, [0xEF, 0x70, 0x16], 4_194_304),
    winbond!(W25Q64JVM, [0xEF, 0x70, 0x17], 8_388_608),
    winbond!(W25Q128JVM, [0xEF, 0x70, 0x18], 16_777_216),
];

const TINY64: Part = Part {
    name: ChipName::Sfdp,
    id: [0xFE, 0x10, 0x10],
    size: 65_536,
    kinds: ALL_KINDS,
    scheme: false,
};

/// Returns the table of the chips that are known by their ID, without the further rows.
pub fn chips() -> &'static [Part]
    ensures { result.now ≡ chips }
{
    &CHIPS
}

/// Returns the row of `chips` with this ID, or `None` if no row has this ID.
pub fn part_of(id: [u8; 3]) -> Option<Part>
    ensures { result ≡ part_with_id id }
{
    CHIPS.iter().find(|part| part.id == id).copied()
}

/// Returns the row of `chips` with this ID or, if `further` is true and `chips` has none, the further row with this ID.
pub fn part_for(further: bool, id: [u8; 3]) -> Option<Part>
    ensures { result ≡ part_for further id }
{
    let listed = part_of(id);
    if further {
        listed.or(further_part(id))
    } else {
        listed
    }
}

fn further_part(id: [u8; 3]) -> Option<Part>
    ensures { result ≡ further_with_id id }
{
    FURTHER.iter().find(|part| part.id == id).copied()
}

fn part_named(name: &str) -> Option<Part>
    ensures { result ≡ part_with_name name.now }
{
    CHIPS
        .iter()
        .find(|part| part.name.as_str() == name)
        .copied()
}

fn further_named(name: &str) -> Option<Part>
    ensures { result ≡ further_with_name name.now }
{
    FURTHER
        .iter()
        .find(|part| part.name.as_str() == name)
        .copied()
}

/// Returns the type of the emulated chip `name`, which is TINY64 or a chip of the table, or `None` for any other name.
pub fn emulated_part(name: &str) -> Option<Part>
    ensures named { result ≡ emulated_named name.now }
    ensures emulated { IfSome result IsEmulatedPart }
{
    if name == "TINY64" {
        Some(TINY64)
    } else {
        part_named(name)
    }
}

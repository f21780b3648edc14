//! The other names of the chips that a program for hardware knows by their ID.
ghost use Rattle.std.specs.Prelude.{◌≡◌};
ghost use Rattle.nor_args.specs.OtherNames.{is_among, other_named, other_names, row_named};

use nor_probe::ChipName;

const ROWS: [ChipName; 8] = [
    ChipName::W25Q32FV,
    ChipName::W25Q64FV,
    ChipName::W25Q128FV,
    ChipName::W25Q32FW,
    ChipName::W25Q64FW,
    ChipName::W25Q128FW,
    ChipName::W25Q64JVM,
    ChipName::W25Q128JVM,
];

/// Returns the row of the table of chips for `text`, a name in upper case: the row with this name, or the row that has
/// this name as another name (`is_name_of`). Returns `Sfdp` for `SFDP`, and `Other` for any other text.
pub(super) fn row_named(text: &str) -> ChipName
    ensures { result ≡ row_named text.now }
{
    other_named(text).unwrap_or(ChipName::of(text))
}

fn other_named(text: &str) -> Option<ChipName>
    ensures { result ≡ other_named text.now }
{
    ROWS.iter().find(|row| is_name_of(**row, text)).copied()
}

// Returns whether `text` is another name of a chip with the ID of `row`. Sources: Winbond datasheets of these chips,
// Manufacturer and Device Identification; names with a point or a slash are those of flashrom 1.3.0 (`flashrom -L`).
fn is_name_of(row: ChipName, text: &str) -> bool
    ensures { result ≡ is_among (other_names row) text.now }
{
    match row {
        ChipName::W25Q32FV => {
            text == "W25Q32BV"
                || text == "W25Q32CV"
                || text == "W25Q32DV"
                || text == "W25Q32JV"
                || text == "W25Q32JV-Q"
                || text == "W25Q32.V"
        }
        ChipName::W25Q64FV => {
            text == "W25Q64BV"
                || text == "W25Q64CV"
                || text == "W25Q64JV"
                || text == "W25Q64JV-Q"
                || text == "W25Q64JV-.Q"
                || text == "W25Q64BV/W25Q64CV/W25Q64FV"
        }
        ChipName::W25Q128FV => {
            text == "W25Q128BV"
                || text == "W25Q128JV"
                || text == "W25Q128JV-Q"
                || text == "W25Q128.V"
        }
        ChipName::W25Q32FW => text == "W25Q32DW" || text == "W25Q32JW-Q" || text == "W25Q32.W",
        ChipName::W25Q64FW => text == "W25Q64DW" || text == "W25Q64JW-Q" || text == "W25Q64.W",
        ChipName::W25Q128FW => text == "W25Q128JW-Q" || text == "W25Q128.W",
        ChipName::W25Q64JVM => text == "W25Q64JV-.M",
        ChipName::W25Q128JVM => text == "W25Q128.V..M",
        _ => false,
    }
}

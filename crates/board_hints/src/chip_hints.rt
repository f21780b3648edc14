//! The hints for a chip that is unknown, or is not the chip that the arguments or the journal name.

use crate::chip_names::{ChipText, Connected, Hex};
use crate::circumstances::Circumstances;
use nor_probe::{ChipName, SfdpFault};
use std::io::{self, Write};

/// Prints the hint for error 2. If the replies have no ID, the device was refused before the job, because it replied
/// neither status 1 nor an SFDP.
pub fn print_unknown_chip<E: Write>(
    errors: &mut E,
    fault: SfdpFault,
    known: &Circumstances<'_>,
) -> io::Result<()> {
    let Some(id) = known.replies.id else {
        return writeln!(
            errors,
            "It replies an ID, but only FFh for status 1, so it isn't SPI NOR flash (but SPI NAND or DataFlash), or a \
            contact is bad."
        );
    };
    let id = Hex(id);
    match fault {
        SfdpFault::NoSector if known.replies.is_uneven => writeln!(
            errors,
            "Its ID is {id}. Its SFDP doesn't say that it erases sectors of 4 KiB everywhere, so a restore could fail: \
            change this chip with another tool."
        ),
        SfdpFault::NoSector if known.has_small_pages => writeln!(
            errors,
            "Its ID is {id}. Its SFDP says that its pages have fewer than 256 bytes, so a restore could fail: change \
            this chip with another tool."
        ),
        _ => writeln!(
            errors,
            "Its ID is {id}. If another run finds another ID, check contacts, supply and wiring, or lower the clock \
            (spispeed=)."
        ),
    }
}

/// Prints the hint for error 3, where `named` is the name of `-c`.
pub fn print_other_name<E: Write>(
    errors: &mut E,
    named: Option<ChipName>,
    known: &Circumstances<'_>,
) -> io::Result<()> {
    let (Some(named), Some(id)) = (named, known.replies.id) else {
        return Ok(());
    };
    let connected = Connected(id);
    match named {
        ChipName::Other => writeln!(
            errors,
            "This program knows no chip with the name of -c; -L lists the names. {connected}"
        ),
        _ => writeln!(errors, "-c names {}. {connected}", named.as_str()),
    }
}

/// Prints the hint for error 16. If the chip has the ID of the journal, the hint also compares the sizes.
pub fn print_other_chip<E: Write>(errors: &mut E, known: &Circumstances<'_>) -> io::Result<()> {
    let (Some(saved), Some(id)) = (known.saved, known.replies.id) else {
        return Ok(());
    };
    let (journal, bytes, chip) = (ChipText(saved.id), saved.size, ChipText(id));
    match known.replies.size() {
        Some(size) if saved.id == id => writeln!(
            errors,
            "The journal is of {journal} with {bytes} bytes. The chip is {chip} with {size} bytes."
        ),
        _ => writeln!(
            errors,
            "The journal is of {journal} with {bytes} bytes. The chip is {chip}."
        ),
    }
}

/// Prints the hint for error 20.
pub fn print_other_unique_id<E: Write>(
    errors: &mut E,
    known: &Circumstances<'_>,
) -> io::Result<()> {
    let Some(saved) = known.saved else {
        return Ok(());
    };
    let (Some(saved), Some(found)) = (saved.unique, known.replies.unique) else {
        return Ok(());
    };
    let (saved, found) = (u64::from_be_bytes(saved), u64::from_be_bytes(found));
    writeln!(
        errors,
        "Unique ID in the journal: {saved:016x}. Unique ID of the chip: {found:016x}. The journal is another board's, \
        or the chip was replaced: find this board's journal, or see --replaced-chip."
    )
}

//! The list of chips that `-L` prints.

use std::io;
use std::io::Write;

// The name, the ID, the size and the supply of each chip, and other names that `-c` accepts (Winbond datasheets).
const CHIPS: &str = "\
W25Q32FV    ef4016   4 MiB  2.7 to 3.6 V
    or W25Q32BV, W25Q32CV, W25Q32DV, W25Q32JV, W25Q32JV-Q, W25Q32.V
W25Q64FV    ef4017   8 MiB  2.7 to 3.6 V
    or W25Q64BV, W25Q64CV, W25Q64JV, W25Q64JV-Q, W25Q64JV-.Q,
    W25Q64BV/W25Q64CV/W25Q64FV
W25Q128FV   ef4018  16 MiB  2.7 to 3.6 V
    or W25Q128BV, W25Q128JV, W25Q128JV-Q, W25Q128.V
W25Q32FW    ef6016   4 MiB  1.65 to 1.95 V
    or W25Q32DW, W25Q32JW-Q, W25Q32.W
W25Q64FW    ef6017   8 MiB  1.65 to 1.95 V
    or W25Q64DW, W25Q64JW-Q, W25Q64.W
W25Q128FW   ef6018  16 MiB  1.65 to 1.95 V
    or W25Q128JW-Q, W25Q128.W
W25Q32JV-M  ef7016   4 MiB  2.7 to 3.6 V
W25Q64JV-M  ef7017   8 MiB  2.7 to 3.6 V
    or W25Q64JV-.M
W25Q128JV-M ef7018  16 MiB  2.7 to 3.6 V
    or W25Q128.V..M
SFDP        any other chip whose SFDP offers erases of 4 KiB, from 64 KiB to 16 MiB
";

pub fn print_chip_list<O: Write>(output: &mut O) -> io::Result<()> {
    output.write_all(CHIPS.as_bytes())?;
    output.flush()
}

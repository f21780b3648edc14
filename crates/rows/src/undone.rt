//! Sessions and their restores that are stopped after each number of transactions. After a stopped restore a second one
//! follows. The counts treat the end of a session as its last stop. A stop before the seal is one run. A later stop
//! counts one run more than its restore has transactions.
use crate::held::assert_that;
use crate::row::{Row, Start};
use crate::runs::Runs;

// The number of runs. 23 stops precede the seal. At the next three stops the byte is as it was, and a restore has 8
// transactions (9 runs). At the last three the byte is programmed, so the restore erases the sector: 12 transactions
// (13 runs).
const BYTE: u64 = 23 + 3 * 9 + 3 * 13;

// On a slow chip, 26 stops precede the seal. At the next three the byte is as it was (9 runs). At the last five it is
// programmed, and two, one or no polls that show BUSY remain.
const SLOW_BYTE: u64 = 26 + 3 * 9 + 17 + 16 + 3 * 15;

// 23 stops precede the seal. At the next two the byte is as it was (9 runs). At the last six one program restores it.
const BIT: u64 = 23 + 2 * 9 + 6 * 14;

// On a slow chip, 26 stops precede the seal. At the next two the byte is as it was. At the five stops from the erase
// on, and at the five from the program on, two, one or no polls that show BUSY remain.
const SLOW_BIT: u64 = 26 + 2 * 9 + 2 * (18 + 17 + 3 * 16);

// 23 stops precede the seal. The next three leave the bytes as they were, and the last six leave two or all programmed.
const TWO_PAGES: u64 = 23 + 3 * 9 + 6 * 13;

// 8 stops precede the seal. At the next two the sector is as it was (9 runs). For each number of pages from 16 down to
// 1, the restore programs this number at three stops: 10 transactions (11 runs), and three for each page.
const MOST_OF_A_SECTOR: u64 = 8 + 2 * 9 + 3 * (16 * 11 + 3 * 16 * 17 / 2);

const SMALL: [(Row, Start, u64); 6] = [
    (Row::AByteIsProgrammed, Start::IDLE, BYTE),
    (Row::AByteIsProgrammed, Start::SLOW, SLOW_BYTE),
    (Row::ABitRises, Start::IDLE, BIT),
    (Row::ABitRises, Start::SLOW, SLOW_BIT),
    (Row::TwoPagesAreProgrammed, Start::IDLE, TWO_PAGES),
    (Row::TheRestOfASectorStays, Start::IDLE, MOST_OF_A_SECTOR),
];

#[test]
fn each_stop_on_a_small_chip(rt: HostRuntime) {
    for (row, start, runs) in SMALL {
        let after = Runs::new(&rt, rt.alloc(), row, start);
        assert_that!(&rt; after.stop_restores_at_each(&rt, 0) == runs);
    }
}

const LATCHED: [(Row, Start, u64); 4] = [
    (Row::AByteIsProgrammed, Start::IDLE, BYTE),
    (Row::AByteIsProgrammed, Start::SLOW, SLOW_BYTE),
    (Row::ABitRises, Start::IDLE, BIT),
    (Row::ABitRises, Start::SLOW, SLOW_BIT),
];

#[test]
fn each_stop_on_a_chip_with_its_latch_set(rt: HostRuntime) {
    for (row, start, runs) in LATCHED {
        let after = Runs::new(&rt, rt.alloc(), row, start.latched());
        assert_that!(&rt; after.stop_restores_at_each(&rt, 0) == runs);
    }
}

// 3 stops (2,049 to 2,051) precede the seal. The chip is unchanged at 2 stops, without protection at 4, also programmed
// at 3, and protected again at 2 and after the session. The restores send 5, 8, 12 and 15 transactions.
#[test]
fn each_stop_after_a_protected_byte(rt: HostRuntime) {
    let row = Row::AGuardedByteIsProgrammed;
    let after = Runs::new(&rt, rt.alloc(), row, Start::IDLE);
    let runs = 3 + 2 * 6 + 4 * 9 + 3 * 13 + 3 * 16;
    assert_that!(&rt; after.stop_restores_at_each(&rt, 2049) == runs);
}

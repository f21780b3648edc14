//! Sessions on chips of 256 KiB with different erase types, and on a chip that is busy at the start.
use crate::held::{assert_held, assert_that};
use crate::row::{Row, Start, large};
use nor_chip::{Config, Delays, Meter, SimBus};
use nor_journal::MemVault;
use nor_session::{Report, session};
use std::alloc::Global;
use std::process::Abort;

// Runs a session whose image is all FFh, on a chip of FFh except for `cleared` bytes 00h from address 8000h on.
fn blank(
    rt: &impl Abort,
    alloc: Global,
    config: Config,
    cleared: usize,
    status: [u8; 2],
    delays: Delays,
) -> Report {
    let mut image = vec![in alloc; 0xFF; config.size as usize].expect(rt, "memory");
    let mut bytes = image.to_vec(alloc).expect(rt, "memory");
    for byte in bytes.iter_mut().skip(0x8000).take(cleared) {
        *byte = 0x00;
    }
    let mut bus = SimBus::new(config, bytes, status, delays).expect(rt, "as many bytes");
    bus.allow(u64::MAX);
    let mut vault = MemVault::new(alloc);
    let request = Row::ABitRises.request(rt, alloc);
    session(&mut bus, &mut vault, &mut image, &request).expect(rt, "the session ends")
}

// Each row says whether the chip has erases of 32 and 64 KiB, and has the numbers of erases and transactions. An erase
// takes three transactions. Identification, scan, and verification of sectors 8 to 39 take 7, 64 and 32.
const UNITS: [(bool, bool, u32, u64); 4] = [
    (false, true, 17, 154),
    (true, false, 4, 115),
    (false, false, 32, 199),
    (true, true, 3, 112),
];

#[test]
fn sectors_are_erased_by_the_largest_units(rt: HostRuntime) {
    for (k32, k64, erases, transactions) in UNITS {
        let config = large(&rt, k32, k64);
        let idle = Start::IDLE.delays;
        let report = blank(&rt, rt.alloc(), config, 131_072, [0x00, 0x00], idle);
        let told = (report.touched, report.programs, report.erases);
        let holds = told == (32, 0, erases) && report.transactions == transactions;
        assert_held(&rt, holds, transactions);
    }
}

// The session sends 65,535 polls that show BUSY, and 23 other transactions.
#[test]
fn a_busy_chip_is_waited_for(rt: HostRuntime) {
    let busy = Delays {
        now: 65_535,
        each: 0,
    };
    let report = blank(&rt, rt.alloc(), Config::tiny64(), 0, [0x02, 0x00], busy);
    assert_that!(&rt; report.transactions == 65_558 && report.found.status1 == 0x00);
}

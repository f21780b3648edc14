//! The results of rehearsals with stops, or on a faulty bus.
ghost use Rattle.std.specs.Prelude.{◌≤◌, length};

use crate::held::{assert_held, assert_that};
use crate::row::{Row, Start};
use crate::runs::Runs;
use crate::spoilt::most;
use nor_chip::{Spoil, SpoiltBus};
use nor_journal::MemVault;
use nor_session::{Refusal, Rehearsal, rehearse};
use std::alloc::Global;
use std::process::Abort;

fn rehearsed(
    rt: &impl Abort,
    alloc: Global,
    row: Row,
    stops: &[u64],
) -> (Result<Rehearsal, Refusal>, bool)
    requires { length stops.now ≤ 64 }
{
    let mut bus = row.bus(rt, alloc, Start::IDLE);
    let mut vault = MemVault::new(alloc);
    let mut image = row.wanted(rt, alloc);
    let request = row.request(rt, alloc);
    let told = rehearse(&mut bus, &mut vault, &mut image, &request, stops);
    Runs::new(rt, alloc, row, Start::IDLE).assert_as_before(rt, &bus);
    (told, vault.is_sealed())
}

// Returns the number of transactions of the restore after a session `ABitRises` with the allowance `stop`, or `None` if
// the session stops before the seal.
fn restore_after(stop: u64) -> Option<u64> {
    match stop {
        0..=22 => None,
        23..=24 => Some(8),
        _ => Some(13),
    }
}

// If the first restore is stopped, the rehearsal runs a second one without a stop. The session sends 30 transactions.
#[test]
fn each_pair_of_stops_is_reported(rt: HostRuntime) {
    let row = Row::ABitRises;
    for n in 0..=31 {
        for m in 0..=14 {
            let restores = match restore_after(n) {
                None => 0,
                Some(needed) => 1 + u32::from(m < needed),
            };
            let sealed = restores > 0;
            let wanted = Rehearsal {
                ended: n >= 30,
                sealed,
                restores,
            };
            let told = rehearsed(&rt, rt.alloc(), row, &[n, m]);
            assert_held(&rt, told == (Ok(wanted), sealed), n);
        }
    }
}

// Returns how many transactions the second restore needs if the first one needs `needed`, but is stopped after `sent`.
// If the first restore programs, its transaction 11 does so.
fn restore_again(needed: u64, sent: u64) -> u64 {
    if sent < 11 { needed } else { 8 }
}

// Returns the number of restores if the first two have the allowances `first` and `second`.
fn restores_under(needed: u64, first: u64, second: u64) -> u32 {
    if first >= needed {
        1
    } else if second >= restore_again(needed, first) {
        2
    } else {
        3
    }
}

// The session is stopped after its seal, erase or program, or not at all. The third stop must limit the second restore.
#[test]
fn a_third_stop_is_the_second_restores(rt: HostRuntime) {
    let row = Row::ABitRises;
    for n in [23, 25, 28, 30] {
        let needed = restore_after(n).expect(&rt, "a sealed journal");
        for m in 0..=14 {
            for k in [0, 7, 8, 12, 13] {
                let wanted = Rehearsal {
                    ended: n == 30,
                    sealed: true,
                    restores: restores_under(needed, m, k),
                };
                let told = rehearsed(&rt, rt.alloc(), row, &[n, m, k]);
                assert_held(&rt, told == (Ok(wanted), true), m);
            }
        }
    }
}

#[derive(Clone, Copy, PartialEq, Eq)]
struct Told {
    result: Result<Rehearsal, Refusal>,
    sealed: bool,
    as_before: bool,
    sent: u64,
}

// Rehearses on a faulty bus, with `stops` allowances that are never used up.
fn rehearsed_lied(rt: &impl Abort, alloc: Global, row: Row, spoil: Spoil, stops: usize) -> Told {
    let bus = row.bus(rt, alloc, Start::IDLE);
    let mut bus = SpoiltBus::new(bus, spoil);
    let mut vault = MemVault::new(alloc);
    let mut image = row.wanted(rt, alloc);
    let request = row.request(rt, alloc);
    let all = [most(16); 2];
    let stops = all.get(..stops).unwrap_or(&all);
    let result = rehearse(&mut bus, &mut vault, &mut image, &request, stops);
    let before = row.before(rt, alloc);
    let sent = bus.sent();
    let bus = bus.into_inner();
    Told {
        result,
        sealed: vault.is_sealed(),
        as_before: bus.bytes() == before.as_slice(),
        sent,
    }
}

const ENDED: Told = Told {
    result: Ok(Rehearsal {
        ended: true,
        sealed: true,
        restores: 1,
    }),
    sealed: true,
    as_before: true,
    sent: 30 + 13,
};

const TIMEOUT: Refusal = Refusal::Timeout { address: 0 };

const MISMATCH: Refusal = Refusal::Mismatch { address: 0 };

fn early(refusal: Refusal, sent: u64) -> Told {
    Told {
        result: Err(refusal),
        sealed: false,
        as_before: true,
        sent,
    }
}

fn changed(refusal: Refusal, sent: u64) -> Told {
    Told {
        result: Err(refusal),
        sealed: true,
        as_before: false,
        sent,
    }
}

// A fault names a transaction, counted from 1 through the session and its restore. `ABitRises` has 30 and 13
// transactions: 24 enables the erase, 26 polls after it, 31 is the restore's first poll, and 40 enables its program.
// `AByteIsProgrammed` has 28 and 12: 27 polls after the program, and 38 is the restore's erase command.
fn lies() -> [(Row, Spoil, Told); 8] {
    let unmoved = Told {
        result: Err(MISMATCH),
        sent: 30,
        ..ENDED
    };
    let late = Refusal::Timeout { address: 0x100 };
    let unlike = Refusal::Mismatch { address: 0x100 };
    let (rises, programmed) = (Row::ABitRises, Row::AByteIsProgrammed);
    [
        (rises, Spoil::BusyFrom(u64::MAX), ENDED),
        (rises, Spoil::BusyFrom(1), early(TIMEOUT, 65_536)),
        (rises, Spoil::Drop(24), unmoved),
        (rises, Spoil::BusyFrom(26), changed(TIMEOUT, 25 + 65_536)),
        (rises, Spoil::BusyFrom(31), changed(TIMEOUT, 30 + 65_536)),
        (rises, Spoil::Drop(40), changed(MISMATCH, 43)),
        (programmed, Spoil::BusyFrom(27), changed(late, 26 + 65_536)),
        (programmed, Spoil::Drop(38), changed(unlike, 40)),
    ]
}

// In each row except the first, the rehearsal returns the error even if stops are given, and sends nothing after it.
#[test]
fn an_error_in_a_rehearsal_is_returned(rt: HostRuntime) {
    for (row, spoil, told) in lies() {
        for stops in 0..3 {
            let came = rehearsed_lied(&rt, rt.alloc(), row, spoil, stops);
            assert_that!(&rt; came == told);
        }
    }
}

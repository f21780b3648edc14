//! Sessions and restores over a serprog port that fails at each of its calls in turn, and runs over one that doesn't
//! fail. A transaction takes three calls of the port: send the frame, receive ACK, receive the rest. If the second or
//! third fails, only the reply is lost.
ghost use Rattle.nor_journal.specs.Vault.{IsFresh};

use crate::held::{assert_held, assert_that};
use crate::row::{Row, Start};
use crate::runs::{Cut, Runs};
use nor_chip::{Config, Delays, SimBus};
use nor_journal::{Journal, MemVault, Vault};
use nor_serprog::{Link, Port, Programmer, SerprogBus};
use nor_session::{Refusal, Report};
use serprog_session::{SimFailure, SimPort, backup_over, restore_over, rewrite_over, session_over};
use std::alloc::Global;
use std::process::Abort;

const CALLS: u64 = 3;

// More calls than the handshake and all runs over one port take.
const AMPLE: u64 = 100_000;

// How many bytes of a transaction the chip receives at a cut: none, opcode and address, one byte of data more, or all.
const CUTS: [u32; 4] = [0, 4, 5, u32::MAX];

fn open(rt: &impl Abort, port: SimPort) -> SerprogBus<SimPort> {
    let mut link = Link::new(port);
    let programmer = Programmer::identify(&mut link, None)
        .ok()
        .expect(rt, "a programmer");
    // Over a well-behaved port, `SerprogBus::new` requires that no reply is pending.
    assert!(rt; link.port().is_idle());
    SerprogBus::new(link, programmer, false)
}

// Returns a bus whose port fails after `calls` calls since the handshake. If a send fails, the chip receives at most
// `cut` bytes.
fn bus_to(
    rt: &impl Abort,
    alloc: Global,
    mut chip: SimBus,
    calls: u64,
    cut: u32,
) -> SerprogBus<SimPort> {
    chip.tear(Some(cut));
    let calls = calls.saturating_add(handshake(rt, alloc));
    open(rt, SimPort::new(chip, calls))
}

fn change<V: Vault>(
    rt: &impl Abort,
    alloc: Global,
    row: Row,
    bus: &mut SerprogBus<SimPort>,
    vault: &mut V,
) -> Result<Report, Refusal>
    requires { IsFresh (V.state vault.old) }
{
    let mut image = row.wanted(rt, alloc);
    let request = row.request(rt, alloc);
    session_over(bus, vault, &mut image, &request)
}

fn handshake(rt: &impl Abort, alloc: Global) -> u64 {
    let chip = Row::AByteIsProgrammed.bus(rt, alloc, Start::IDLE);
    let bus = open(rt, SimPort::new(chip, AMPLE));
    AMPLE.saturating_sub(bus.port().left())
}

// Returns how many bytes a `SimBus` must send at its stop to match this port: all bytes if only the reply is lost.
fn torn(calls: u64, cut: u32) -> u32 {
    if calls % CALLS == 0 { cut } else { u32::MAX }
}

// Returns the cuts to test. If the reply is lost, all bytes were sent before, so one cut is enough.
fn cuts(calls: u64) -> &'static [u32] {
    if calls % CALLS == 0 { &CUTS } else { &[0] }
}

fn assert_same(rt: &impl Abort, chip: &SimBus, other: &SimBus, calls: u64) {
    let same = chip.bytes() == other.bytes() && chip.status() == other.status();
    assert_held(rt, same, calls);
}

fn stop_session(
    rt: &impl Abort,
    alloc: Global,
    (row, start): (Row, Start),
    calls: u64,
    cut: u32,
) -> Cut {
    let start = start.torn(torn(calls, cut));
    let left = Runs::new(rt, alloc, row, start).cut(rt, calls / CALLS);
    let mut bus = bus_to(rt, alloc, row.bus(rt, alloc, start), calls, cut);
    let mut vault = MemVault::new(alloc);
    let refusal = change(rt, alloc, row, &mut bus, &mut vault).err();
    assert_held(rt, refusal == Some(Refusal::Stopped), calls);
    assert_same(rt, bus.port().chip(), &left.bus, calls);
    assert_held(rt, vault.is_sealed() == left.vault.is_sealed(), calls);
    assert_held(rt, vault.bytes() == left.vault.bytes(), calls);
    left
}

fn stop_restore(
    rt: &impl Abort,
    alloc: Global,
    (left, same): (Cut, Cut),
    calls: u64,
    cut: u32,
) -> Cut {
    let Cut { bus, vault } = left;
    let mut same = same;
    let journal = Journal::read(vault.bytes()).expect(rt, "a journal");
    let mut bus = bus_to(rt, alloc, bus, calls, cut);
    let refusal = restore_over(&mut bus, &journal).err();
    assert_held(rt, refusal == Some(Refusal::Stopped), calls);
    same.bus.tear(Some(torn(calls, cut)));
    assert_held(rt, same.restore(rt, calls / CALLS).is_none(), calls);
    assert_same(rt, bus.port().chip(), &same.bus, calls);
    same
}

fn assert_restored(rt: &impl Abort, alloc: Global, row: Row, left: Cut) {
    let Cut { bus, vault } = left;
    let mut bus = bus_to(rt, alloc, bus, AMPLE, 0);
    if vault.is_sealed() {
        let journal = Journal::read(vault.bytes()).expect(rt, "a journal");
        assert_that!(rt; restore_over(&mut bus, &journal).is_ok());
    }
    Runs::new(rt, alloc, row, Start::IDLE).assert_as_before(rt, bus.port().chip());
}

// Each entry has a row, its start, and the number of transactions of its session.
const SESSIONS: [(Row, Start, u64); 3] = [
    (Row::AByteIsProgrammed, Start::IDLE, 28),
    (Row::AByteIsProgrammed, Start::SLOW, 28 + 3 + 2),
    (Row::ABitRises, Start::SLOW, 30 + 3 + 2 * 2),
];

#[test]
fn each_call_of_the_port_fails_in_a_session(rt: HostRuntime) {
    for (row, start, length) in SESSIONS {
        for calls in 0..CALLS * length {
            for cut in cuts(calls) {
                let left = stop_session(&rt, rt.alloc(), (row, start), calls, *cut);
                assert_restored(&rt, rt.alloc(), row, left);
            }
        }
    }
}

// Each entry has the start, the number of transactions after which the session stops, and the number of
// transactions of the restore.
const RESTORES: [(Start, u64, u64); 2] = [(Start::IDLE, 25, 13), (Start::SLOW, 28, 17)];

#[test]
fn each_call_of_the_port_fails_in_a_restore(rt: HostRuntime) {
    let alloc = rt.alloc();
    let row = Row::ABitRises;
    for (start, stop, length) in RESTORES {
        let runs = Runs::new(&rt, alloc, row, start);
        for calls in 0..CALLS * length {
            for cut in cuts(calls) {
                let left = (runs.cut(&rt, stop), runs.cut(&rt, stop));
                let left = stop_restore(&rt, alloc, left, calls, *cut);
                assert_restored(&rt, alloc, row, left);
            }
        }
    }
}

#[test]
fn a_session_ends_with_its_last_call(rt: HostRuntime) {
    let alloc = rt.alloc();
    for (row, start, length) in SESSIONS {
        let chip = row.bus(&rt, alloc, start);
        let mut bus = bus_to(&rt, alloc, chip, CALLS * length, 0);
        let mut vault = MemVault::new(alloc);
        let report = change(&rt, alloc, row, &mut bus, &mut vault).expect(&rt, "an end");
        assert_that!(&rt; report.transactions == length && vault.is_sealed());
        assert_that!(&rt; bus.port().left() == 0);
        assert_that!(&rt; bus.port().chip().bytes() == row.wanted(&rt, alloc).as_slice());
    }
}

// A rewrite from a backup writes each of the chip's 16 sectors.
#[test]
fn a_rewrite_restores_a_backup(rt: HostRuntime) {
    let alloc = rt.alloc();
    let row = Row::ABitRises;
    let mut bus = bus_to(&rt, alloc, row.bus(&rt, alloc, Start::IDLE), AMPLE, 0);
    let mut backup = MemVault::new(alloc);
    let saved = backup_over(&mut bus, &mut backup, None).expect(&rt, "a backup");
    assert_that!(&rt; saved.touched == 0 && backup.is_sealed());
    let mut vault = MemVault::new(alloc);
    assert_that!(&rt; change(&rt, alloc, row, &mut bus, &mut vault).is_ok());
    let journal = Journal::read(backup.bytes()).expect(&rt, "a journal");
    let rewritten = rewrite_over(&mut bus, &journal).expect(&rt, "a rewrite");
    assert_that!(&rt; rewritten.touched == 16);
    Runs::new(&rt, alloc, row, Start::IDLE).assert_as_before(&rt, bus.port().chip());
}

#[test]
fn refusals_change_nothing(rt: HostRuntime) {
    let alloc = rt.alloc();
    let (row, other) = (Row::AGuardedByteIsProgrammed, Row::ABitRises);
    let before = row.bus(&rt, alloc, Start::IDLE);
    let chip = row.bus(&rt, alloc, Start::IDLE);
    let mut bus = bus_to(&rt, alloc, chip, AMPLE, 0);
    let mut vault = MemVault::new(alloc);
    let request = row.request(&rt, alloc);
    let refusal = session_over(&mut bus, &mut vault, &mut [0xFF; 16], &request).err();
    assert_that!(&rt; matches!(refusal, Some(Refusal::ImageSize { image: 16, .. })));
    assert_that!(&rt; !vault.is_sealed() && vault.bytes().is_empty());
    assert_same(&rt, bus.port().chip(), &before, 0);
    let sealed = Runs::new(&rt, alloc, other, Start::IDLE).cut(&rt, 25);
    let journal = Journal::read(sealed.vault.bytes()).expect(&rt, "a journal");
    let refusal = restore_over(&mut bus, &journal).err();
    assert_that!(&rt; matches!(refusal, Some(Refusal::OtherChip)));
    assert_same(&rt, bus.port().chip(), &before, 1);
}

// At a stop the power fails, and the bytes of the page or erase block in progress become 00h or FFh.
#[test]
fn each_cut_of_the_port_may_cost_the_power(rt: HostRuntime) {
    for (row, start, length) in SESSIONS {
        for calls in (0..CALLS * length).step_by(CALLS as usize) {
            for (cut, fill) in [(4, 0x00), (u32::MAX, 0x00), (u32::MAX, 0xFF)] {
                let start = Start {
                    fill: Some(fill),
                    ..start
                };
                let left = stop_session(&rt, rt.alloc(), (row, start), calls, cut);
                assert_restored(&rt, rt.alloc(), row, left);
            }
        }
    }
}

// Without a pending reply, receiving a byte fails. After a failure no call succeeds.
#[test]
fn more_is_requested_than_is_pending(rt: HostRuntime) {
    let chip = Row::AByteIsProgrammed.bus(&rt, rt.alloc(), Start::IDLE);
    let mut port = SimPort::new(chip, AMPLE);
    let mut byte = [0x5A];
    assert_that!(&rt; port.receive(&mut byte) == Err(SimFailure::Silent));
    assert_that!(&rt; port.send(&[0x10]) == Err(SimFailure::Cut));
    assert_that!(&rt; (byte, port.left()) == ([0x5A], 0));
}

// A chip whose bytes are 0, except the last one and the first two: these are 1, 2 and 3.
fn numbered(rt: &impl Abort, alloc: Global, busy: u16) -> SimPort {
    let mut bytes = vec![in alloc; 0; 65_536].ok().expect(rt, "memory");
    for (at, byte) in [(0xFFFF, 1), (0, 2), (1, 3)] {
        if let Some(to) = bytes.get_mut(at) {
            *to = byte;
        }
    }
    let delays = Delays { now: busy, each: 0 };
    let chip = SimBus::new(Config::tiny64(), bytes, [0x00, 0x00], delays);
    SimPort::new(chip.ok().expect(rt, "a chip"), AMPLE)
}

// While more bytes are sent after the address of a read, or after 05h, a chip goes on reading. A busy chip returns only
// its status.
#[test]
fn padded_reads_go_on(rt: HostRuntime) {
    for (busy, data) in [(0_u8, [0x06, 1, 2, 3]), (1, [0x06, 0xFF, 0xFF, 0xFF])] {
        let mut port = numbered(&rt, rt.alloc(), u16::from(busy));
        let mut reply = [0; 4];
        assert_that!(&rt; port.send(&[0x13, 6, 0, 0, 3, 0, 0, 0x03, 0, 0xFF, 0xFD, 0, 0]).is_ok());
        assert_that!(&rt; port.receive(&mut reply).is_ok());
        assert_that!(&rt; reply == data);
        let mut status = [0; 2];
        assert_that!(&rt; port.send(&[0x13, 2, 0, 0, 1, 0, 0, 0x05, 0]).is_ok());
        assert_that!(&rt; port.receive(&mut status).is_ok());
        assert_that!(&rt; status == [0x06, busy]);
    }
}

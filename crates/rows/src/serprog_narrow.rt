//! `SplittingBus` over a serprog programmer with limits, mostly too small for a page program or the read of a sector.

use crate::held::assert_that;
use crate::serprog_model::{Fault, Model};
use crate::transact::{poll, read, send};
use nor_buses::SplittingBus;
use nor_chip::{Bus, Config, Delays, Meter, SimBus};
use nor_serprog::{AnyProgrammer, BatchingBus, Link};
use std::alloc::Global;
use std::process::Abort;

// Returns a programmer that sends and reads at most `limit` bytes in a transaction.
fn narrow(rt: &impl Abort, alloc: Global, bytes: Vec<u8>, limit: u16) -> Model {
    let delays = Delays { now: 0, each: 2 };
    let mut model = Model::new(rt, alloc);
    let chip = SimBus::new(Config::tiny64(), bytes, [0x00, 0x00], delays);
    model.chip = chip.expect(rt, "a size");
    model.chip.allow(u64::MAX);
    let [low, high] = limit.to_le_bytes();
    model.longest_write = [low, high, 0];
    model.longest_read = [low, high, 0];
    model
}

fn open(rt: &impl Abort, model: Model) -> SplittingBus<BatchingBus<Model>> {
    let mut link = Link::new(model);
    let programmer = AnyProgrammer::identify(&mut link, None)
        .ok()
        .expect(rt, "a programmer");
    let (writes, reads) = (programmer.longest_part(), programmer.longest_read());
    SplittingBus::new(BatchingBus::over(link, programmer), writes, reads)
}

fn page_program() -> [u8; 260] {
    let mut program = [0; 260];
    for (index, byte) in program.iter_mut().enumerate() {
        *byte = (index % 256) as u8 ^ 0xA5;
    }
    program[0] = 0x02;
    program[1] = 0x00;
    program[2] = 0x11;
    program[3] = 0x00;
    program
}

fn are_erased(bytes: Option<&[u8]>) -> bool {
    bytes.is_some_and(|bytes| bytes.iter().all(|byte| *byte == 0xFF))
}

// A part has at most `limit - 4` data bytes and takes five O_SPIOP commands: a write enable, the part, and three polls.
#[test]
fn a_page_is_programmed_in_parts(rt: HostRuntime) {
    for (limit, reads, operations) in [
        (5, 1, 1280_u32),
        (5, 5, 1280),
        (64, 64, 25),
        (256, 2, 10),
        (259, 1, 10),
    ] {
        let erased = vec![in rt.alloc(); 0xFF; 65536].expect(&rt, "memory");
        let mut model = narrow(&rt, rt.alloc(), erased, limit);
        model.longest_read = [reads, 0, 0];
        let mut bus = open(&rt, model);
        let program = page_program();
        send(&rt, &mut bus, &[0x06]);
        send(&rt, &mut bus, &program);
        for busy in [true, true, false] {
            let status = poll(&rt, &mut bus);
            assert_that!(&rt; (status % 2 != 0) == busy);
        }
        let model = bus.inner().port();
        assert_that!(&rt; model.operations == operations);
        let bytes = model.chip.bytes();
        assert_that!(&rt; bytes.get(0x1100..0x1200) == Some(&program[4..]));
        assert_that!(&rt; are_erased(bytes.get(..0x1100)));
        assert_that!(&rt; are_erased(bytes.get(0x1200..)));
    }
}

fn pattern(rt: &impl Abort, alloc: Global) -> Vec<u8> {
    let mut bytes = vec![in alloc; 0; 65536].expect(rt, "memory");
    for (address, byte) in bytes.iter_mut().enumerate() {
        *byte = (address % 251) as u8;
    }
    bytes
}

fn over_pattern(rt: &impl Abort, alloc: Global, limit: u16) -> SplittingBus<BatchingBus<Model>> {
    open(rt, narrow(rt, alloc, pattern(rt, alloc), limit))
}

#[test]
fn reads_are_split(rt: HostRuntime) {
    let alloc = rt.alloc();
    for (limit, parts) in [(5, 820_u32), (64, 64), (256, 16), (259, 16), (4096, 1)] {
        let mut bus = over_pattern(&rt, alloc, limit);
        let sector: [u8; 4096] = read(&rt, &mut bus, &[0x03, 0x00, 0x20, 0x00]);
        let model = bus.inner().port();
        assert_that!(&rt; model.operations == parts);
        assert_that!(&rt; model.chip.bytes().get(0x2000..0x3000) == Some(&sector[..]));
    }
    let mut bus = over_pattern(&rt, alloc, 7);
    let mut wide = over_pattern(&rt, alloc, 64);
    let whole: [u8; 16] = read(&rt, &mut wide, &[0x5A, 0x00, 0x00, 0x00, 0x00]);
    let split: [u8; 16] = read(&rt, &mut bus, &[0x5A, 0x00, 0x00, 0x00, 0x00]);
    assert_that!(&rt; split == whole);
    assert_that!(&rt; &split[..4] == b"SFDP".as_slice());
    assert_that!(&rt; bus.inner().port().operations == 3);
}

// A transaction that exceeds the limits and can't be split fails and sends nothing. The bus works afterwards.
#[test]
fn what_cannot_be_split_is_rejected(rt: HostRuntime) {
    let mut bus = over_pattern(&rt, rt.alloc(), 5);
    let mut past = [0; 260];
    past[0] = 0x02;
    past[3] = 0x01;
    assert_that!(&rt; bus.transfer(&past, &mut []).is_err());
    assert_that!(&rt; bus.transfer(&[0x4B, 0, 0, 0, 0], &mut [0; 8]).is_err());
    assert_that!(&rt; bus.transfer(&[0x9F], &mut [0; 6]).is_err());
    assert_that!(&rt;
        bus.transfer(&[0x03, 0xFF, 0xFF, 0xFB], &mut [0; 6])
            .is_err()
    );
    assert_that!(&rt; bus.inner().port().operations == 0);
    assert_that!(&rt; read(&rt, &mut bus, &[0x9F]) == [0xFE, 0x10, 0x10]);
}

// If a programmer reads one byte at a time, a poll of two bytes becomes two polls.
#[test]
fn polls_are_split(rt: HostRuntime) {
    let mut model = Model::new(&rt, rt.alloc());
    model.longest_read = [1, 0, 0];
    let mut bus = open(&rt, model);
    send(&rt, &mut bus, &[0x06]);
    assert_that!(&rt; read(&rt, &mut bus, &[0x05]) == [0x02, 0x02]);
    assert_that!(&rt; bus.inner().port().operations == 3);
}

// If the programmer refuses the poll after the first part of 60 data bytes, the bus stops.
#[test]
fn a_program_stops_between_its_parts(rt: HostRuntime) {
    let erased = vec![in rt.alloc(); 0xFF; 65536].expect(&rt, "memory");
    let mut model = narrow(&rt, rt.alloc(), erased, 64);
    model.fault = Some(Fault::Nak);
    model.fault_at = 2;
    let mut bus = open(&rt, model);
    let program = page_program();
    send(&rt, &mut bus, &[0x06]);
    assert_that!(&rt; bus.transfer(&program, &mut []).is_err());
    let bytes = bus.inner().port().chip.bytes();
    assert_that!(&rt; bytes.get(0x1100..0x113C) == Some(&program[4..64]));
    assert_that!(&rt; are_erased(bytes.get(0x113C..)));
}

fn limit_or_fault(rt: &impl Abort, alloc: Global, model: Model) -> String {
    let mut link = Link::new(model);
    let text = match AnyProgrammer::identify(&mut link, None) {
        Ok(programmer) => format!(in alloc; "{}", programmer.longest_part()),
        Err(fault) => format!(in alloc; "{fault}"),
    };
    text.expect(rt, "memory")
}

fn assert_limit(rt: &impl Abort, alloc: Global, model: Model, wanted: &str) {
    let limit = limit_or_fault(rt, alloc, model);
    assert_that!(rt; limit.as_str() == wanted);
}

// Without Q_WRNMAXLEN the limit is the size of the serial buffer, minus 7 for the other bytes of the frame.
#[test]
fn a_programmer_with_small_limits_is_identified(rt: HostRuntime) {
    let alloc = rt.alloc();
    let mut model = Model::new(&rt, alloc);
    model.longest_write = [4, 0, 0];
    assert_limit(
        &rt,
        alloc,
        model,
        "the programmer sends at most 4 bytes in a transaction, too few for a page program",
    );
    let mut model = Model::new(&rt, alloc);
    model.longest_write = [5, 0, 0];
    model.longest_read = [1, 0, 0];
    assert_limit(&rt, alloc, model, "5");
    for (buffer, wanted) in [
        (
            11,
            "the serial buffer of the programmer has 11 bytes, too few for a page program",
        ),
        (12, "5"),
        (64, "57"),
    ] {
        let mut model = Model::new(&rt, alloc);
        model.lacks = Some(0x08);
        model.buffer = [buffer, 0];
        assert_limit(&rt, alloc, model, wanted);
    }
}

//! Tests of `TraceBus` with a log that refuses a write or a flush: the line is lost, but the transaction succeeds.
use crate::held::{assert_held, assert_that};
use crate::row::{Start, erased};
use nor_chip::{Bus, Config, Meter, SimBus, TraceBus};
use std::alloc::Global;
use std::io::{self, BufWriter, ErrorKind, Write};
use std::process::Abort;

// A log that accepts `good` writes, then alternately refuses and accepts one, and flushes only if `flushes` is true.
#[derive(Drop)]
struct Failing<'a> {
    lines: &'a mut Vec<u8>,
    good: u8,
    flushes: bool,
}

impl Write for Failing<'_> {
    fn write(&mut self, piece: &[u8]) -> io::Result<usize> {
        if self.good == 0 {
            self.good = 1;
            return Err(io::Error::from(ErrorKind::StorageFull));
        }
        self.good -= 1;
        self.lines.write(piece)
    }

    fn flush(&mut self) -> io::Result<()> {
        if self.flushes {
            Ok(())
        } else {
            Err(io::Error::from(ErrorKind::StorageFull))
        }
    }
}

fn bus(rt: &impl Abort, alloc: Global) -> SimBus {
    let idle = Start::IDLE.delays;
    let mut bus = erased(rt, alloc, Config::tiny64(), [0x00, 0x00], idle);
    bus.allow(1);
    bus
}

#[derive(Clone, Copy)]
struct Form {
    out: &'static [u8],
    reply: &'static [u8],
    line: &'static [u8],
}

const FORMS: [Form; 3] = [
    Form {
        out: &[0x06],
        reply: &[],
        line: b"06\n",
    },
    Form {
        out: &[0x9F],
        reply: &[0xFE, 0x10, 0x10],
        line: b"9f > fe1010\n",
    },
    Form {
        out: &[0x9F],
        reply: &[0xFE, 0x10, 0x10, 0xFF],
        line: b"9f > 4 bytes\n",
    },
];

fn loses(
    rt: &impl Abort,
    alloc: Global,
    lines: &mut Vec<u8>,
    out: &[u8],
    reply: &mut [u8],
    good: u8,
) -> bool {
    let flushes = false;
    let log = Failing {
        lines,
        good,
        flushes,
    };
    let mut bus = TraceBus::new(bus(rt, alloc), log);
    assert_that!(rt; bus.transfer(out, reply).is_ok());
    bus.lost()
}

fn sent(rt: &impl Abort, alloc: Global, form: Form, good: u8) -> (bool, bool) {
    let mut lines = Vec::new(alloc);
    let mut reply = vec![in alloc; 0xAA; form.reply.len()].expect(rt, "memory");
    let is_lost = loses(rt, alloc, &mut lines, form.out, &mut reply, good);
    assert_that!(rt; reply.as_slice() == form.reply);
    (is_lost, lines.as_slice() == form.line)
}

// A line is lost if the log refuses its first or second write, and isn't if the log accepts seven writes.
#[test]
fn a_line_is_lost_exactly_where_it_is_not_whole(rt: HostRuntime) {
    for form in FORMS {
        for good in 0..8u8 {
            let (is_lost, is_whole) = sent(&rt, rt.alloc(), form, good);
            let fits = (is_lost || good > 1) && (!is_lost || good < 7);
            assert_held(&rt, is_lost != is_whole && fits, u64::from(good));
        }
    }
}

// Returns whether the line is reported as lost before the bus is flushed, and afterwards.
fn flushed(
    rt: &impl Abort,
    alloc: Global,
    lines: &mut Vec<u8>,
    good: u8,
    flushes: bool,
) -> (bool, bool) {
    let sink = Failing {
        lines,
        good,
        flushes,
    };
    let log = BufWriter::new(alloc, sink).expect(rt, "memory");
    let mut bus = TraceBus::new(bus(rt, alloc), log);
    assert_that!(rt; bus.transfer(&[0x06], &mut []).is_ok());
    let before = bus.lost();
    bus.flush();
    (before, bus.lost())
}

// The flush fails if the sink refuses to write the line, and also if the sink accepts the line but refuses to flush.
#[test]
fn what_the_sink_refuses_is_lost_at_the_latest_by_a_flush(rt: HostRuntime) {
    let alloc = rt.alloc();
    for (good, flushes) in [(0, true), (0, false), (1, false)] {
        let mut lines = Vec::new(alloc);
        let lost = flushed(&rt, alloc, &mut lines, good, flushes);
        assert_held(&rt, lost == (false, true), u64::from(good));
    }
    let mut lines = Vec::new(alloc);
    assert_that!(&rt; flushed(&rt, alloc, &mut lines, 1, true) == (false, false));
    assert_that!(&rt; lines.as_slice() == b"06\n".as_slice());
}

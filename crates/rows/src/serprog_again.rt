//! Tests which sectors `ReadTwice` reads again if it expects an image.

use crate::held::assert_that;
use nor_buses::ReadTwice;
use nor_chip::{Bus, Config, Delays, Meter, SimBus, Spoil, SpoiltBus, TraceBus};
use std::alloc::Global;
use std::process::Abort;

// A read over `ReadTwice`: the bytes sent, the length of the reply, where the image differs from the chip, the expected
// trace of the inner bus, and whether the read succeeds. Transaction `spoilt` of the inner bus replies FFh (0: none).
#[derive(Clone, Copy)]
struct Reading {
    out: [u8; 4],
    len: usize,
    differing: &'static [usize],
    spoilt: u64,
    lines: &'static [u8],
    succeeds: bool,
}

const fn five_sectors(differing: &'static [usize], lines: &'static [u8]) -> Reading {
    Reading {
        out: [0x03, 0x00, 0x00, 0x00],
        len: 20_480,
        differing,
        spoilt: 0,
        lines,
        succeeds: true,
    }
}

// Returns the contents of the chip. No byte is FFh, and no two sectors are equal.
fn contents(rt: &impl Abort, alloc: Global) -> Vec<u8> {
    let mut bytes = vec![in alloc; 0; 65536].expect(rt, "memory");
    for (address, byte) in bytes.iter_mut().enumerate() {
        *byte = (address % 251) as u8;
    }
    bytes
}

fn chip(rt: &impl Abort, alloc: Global) -> SimBus {
    let idle = Delays { now: 0, each: 0 };
    let bytes = contents(rt, alloc);
    let chip = SimBus::new(Config::tiny64(), bytes, [0x00, 0x00], idle);
    let mut chip = chip.expect(rt, "a size");
    chip.allow(u64::MAX);
    chip
}

fn transact(
    inside: SpoiltBus<SimBus>,
    lines: &mut Vec<u8>,
    image: Vec<u8>,
    out: &[u8],
    reply: &mut [u8],
) -> (bool, bool) {
    let mut bus = ReadTwice::expecting(TraceBus::new(inside, lines), image);
    let succeeds = bus.transfer(out, reply).is_ok();
    (succeeds, bus.differed())
}

fn check(rt: &impl Abort, alloc: Global, reading: Reading) {
    let mut image = contents(rt, alloc);
    for address in reading.differing {
        if let Some(byte) = image.get_mut(*address) {
            *byte ^= 0x80;
        }
    }
    let mut lines = Vec::new(alloc);
    let mut reply = vec![in alloc; 0; reading.len].expect(rt, "memory");
    let inside = SpoiltBus::new(chip(rt, alloc), Spoil::Drop(reading.spoilt));
    let result = transact(inside, &mut lines, image, &reading.out, &mut reply);
    let expected = (reading.succeeds, !reading.succeeds);
    assert_that!(rt; result == expected);
    let at = usize::from(reading.out[2]) * 256 + usize::from(reading.out[3]);
    let bytes = contents(rt, alloc);
    let read_bytes = bytes.get(at..).and_then(|rest| rest.get(..reading.len));
    assert_that!(rt; read_bytes == Some(&reply[..]));
    assert_that!(rt; lines.as_slice() == reading.lines);
}

// Adjacent sectors that differ are read again in one transaction.
#[test]
fn only_differing_sectors_are_read_again(rt: HostRuntime) {
    for reading in [
        five_sectors(&[], b"03000000 > 20480 bytes\n"),
        five_sectors(&[0], b"03000000 > 20480 bytes\n03000000 > 4096 bytes\n"),
        five_sectors(
            &[0x2FFF],
            b"03000000 > 20480 bytes\n03002000 > 4096 bytes\n",
        ),
        five_sectors(
            &[0x1000, 0x3000, 0x3FFF],
            b"03000000 > 20480 bytes\n03001000 > 4096 bytes\n03003000 > 4096 bytes\n",
        ),
        five_sectors(
            &[0x1FFF, 0x2000, 0x4FFF],
            b"03000000 > 20480 bytes\n03001000 > 8192 bytes\n03004000 > 4096 bytes\n",
        ),
        five_sectors(
            &[0x0, 0x1000, 0x2000, 0x3000, 0x4000],
            b"03000000 > 20480 bytes\n03000000 > 20480 bytes\n",
        ),
    ] {
        check(&rt, rt.alloc(), reading);
    }
}

// In the first and last sector of a read, only the bytes that the read covers are compared and read again.
#[test]
fn parts_of_sectors_are_read_again(rt: HostRuntime) {
    let cases: [(&'static [usize], &'static [u8]); 3] = [
        (
            &[0xFFF, 0x2FEF],
            b"03000ff0 > 8192 bytes\n03000ff0 > 16 bytes\n03002000 > 4080 bytes\n",
        ),
        (&[0x2FEF], b"03000ff0 > 8192 bytes\n03002000 > 4080 bytes\n"),
        (&[0xFEF, 0x2FF0], b"03000ff0 > 8192 bytes\n"),
    ];
    for (differing, lines) in cases {
        let reading = Reading {
            out: [0x03, 0x00, 0x0F, 0xF0],
            len: 8192,
            ..five_sectors(differing, lines)
        };
        check(&rt, rt.alloc(), reading);
    }
}

// The bus stops if the second read of a sector, or of a part of one, differs from the first.
#[test]
fn a_sector_that_differs_stops_the_bus(rt: HostRuntime) {
    let cases: [(u64, usize, &'static [usize], &'static [u8]); 3] = [
        (
            2,
            20_480,
            &[0x1000, 0x3000],
            b"03000000 > 20480 bytes\n03001000 > 4096 bytes\n",
        ),
        (
            3,
            20_480,
            &[0x1000, 0x3000],
            b"03000000 > 20480 bytes\n03001000 > 4096 bytes\n03003000 > 4096 bytes\n",
        ),
        (
            2,
            8193,
            &[0x2000],
            b"03000000 > 8193 bytes\n03002000 > ff\n",
        ),
    ];
    for (spoilt, len, differing, lines) in cases {
        let reading = Reading {
            spoilt,
            len,
            succeeds: false,
            ..five_sectors(differing, lines)
        };
        check(&rt, rt.alloc(), reading);
    }
}

// A read of the ID is repeated as a whole, and so is a read of a sector inside which the image ends.
#[test]
fn other_reads_are_repeated(rt: HostRuntime) {
    let alloc = rt.alloc();
    let mut lines = Vec::new(alloc);
    let mut reply = vec![in alloc; 0; 4096].expect(&rt, "memory");
    for out in [&[0x9F_u8][..], &[0x03, 0x00, 0x10, 0x00]] {
        let image = vec![in alloc; 0xFE; 5000].expect(&rt, "memory");
        let inside = SpoiltBus::new(chip(&rt, alloc), Spoil::Drop(0));
        let result = transact(inside, &mut lines, image, out, &mut reply);
        assert_that!(&rt; result == (true, false));
    }
    assert_that!(&rt; contents(&rt, alloc).get(0x1000..0x2000) == Some(&reply[..]));
    let sent = b"9f > 4096 bytes\n9f > 4096 bytes\n03001000 > 4096 bytes\n03001000 > 4096 bytes\n";
    assert_that!(&rt; lines.as_slice() == sent.as_slice());
}

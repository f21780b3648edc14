//! Malformed and very long layouts and journals, and short layouts with each byte in a name or an address.
use crate::held::{assert_held, assert_that};
use crate::row::{Row, Start};
use crate::runs::Runs;
use nor_journal::{Journal, JournalFault};
use nor_layout::{Layout, LayoutFault, LineFault};
use std::alloc::Global;
use std::process::Abort;

const LONG: usize = 1_000_000;

fn long(rt: &impl Abort, alloc: Global, before: &[u8], byte: u8, after: &[u8]) -> Vec<u8> {
    let run = [byte; 1000];
    let mut text = before.to_vec(alloc).expect(rt, "memory");
    for _ in 0..LONG / 1000 {
        text.extend_from_slice(&run).expect(rt, "memory");
    }
    text.extend_from_slice(after).expect(rt, "memory");
    text
}

const fn in_line(line: usize, fault: LineFault) -> Option<LayoutFault> {
    Some(LayoutFault::InLine { line, fault })
}

fn fault_of(told: Option<(usize, LineFault)>) -> Option<LayoutFault> {
    let (line, fault) = told?;
    in_line(line, fault)
}

// Each row has the bytes before a million equal bytes, that byte, the bytes after them, and the fault with its line, if
// there is one.
const LAYOUTS: &[(&[u8], u8, &[u8], Option<(usize, LineFault)>)] = &[
    (b"", b':', b"", Some((1, LineFault::Line))),
    (b"", b' ', b"", Some((1, LineFault::Line))),
    (b"0:", b'1', b"", Some((1, LineFault::Line))),
    (b"", b'0', b":1 a", Some((1, LineFault::Address))),
    (b"0:", b'1', b" a", Some((1, LineFault::Address))),
    (b"0:", b' ', b"a", Some((1, LineFault::Address))),
    (b"1:0 ", b'a', b"", Some((1, LineFault::Backwards))),
    (b"0:1 ", b'a', b"", Some((1, LineFault::Name))),
    (b"0:1 ", b' ', b"", Some((1, LineFault::Name))),
    (b"", b'\n', b"", None),
    (b"", b'\n', b"0", Some((LONG + 1, LineFault::Line))),
];

#[test]
fn layouts_of_a_million_bytes(rt: HostRuntime) {
    for (before, byte, after, fault) in LAYOUTS {
        let text = long(&rt, rt.alloc(), before, *byte, after);
        let told = Layout::read(rt.alloc(), &text).err();
        assert_held(&rt, told == fault_of(*fault), u64::from(*byte));
    }
}

// If the byte is a line feed, the name in `name` is empty, and line 2 of `address` has no start address.
#[test]
fn a_name_and_an_address_of_each_byte(rt: HostRuntime) {
    for byte in 0..=255 {
        let of_name = if is_of_name(byte) {
            None
        } else {
            in_line(1, LineFault::Name)
        };
        let of_address = match byte {
            b'0'..=b'9' | b'A'..=b'F' | b'a'..=b'f' => None,
            b'\n' => in_line(2, LineFault::Address),
            _ => in_line(1, LineFault::Address),
        };
        let name = [b'0', b':', b'1', b' ', byte];
        let address = [byte, b':', b'f', b' ', b'a'];
        let holds = Layout::read(rt.alloc(), &name).err() == of_name
            && Layout::read(rt.alloc(), &address).err() == of_address;
        assert_held(&rt, holds, u64::from(byte));
    }
}

const fn is_of_name(byte: u8) -> bool {
    matches!(byte, 0x21..=0x7E) && byte != b',' && byte != b':'
}

// The contract of `Layout::read` allows an implementation that returns out of memory for some names. This test detects
// an implementation that does so for a name of two bytes.
#[test]
fn each_name_of_two_bytes(rt: HostRuntime) {
    for first in 0x21..=0x7E {
        for second in 0x21..=0x7E {
            let line = [b'0', b':', b'1', b' ', first, second];
            let fault = if is_of_name(first) && is_of_name(second) {
                None
            } else {
                in_line(1, LineFault::Name)
            };
            let told = Layout::read(rt.alloc(), &line).err();
            assert_held(&rt, told == fault, u64::from(first));
        }
    }
}

const HEAD: &[u8; 25] = b"NORUNDO2\xFE\x10\x10\0\0\0\0\0\0\0\0\0\0\0\0\x01\0";

// Each row has a prefix, a byte that follows it a million times, and the expected fault. After a header, the
// bytes 00h are records of sector 0, FFh is an end mark with more bytes after it, and 10h is a record of a sector that
// the chip lacks.
const JOURNALS: &[(&[u8], u8, JournalFault)] = &[
    (b"", 0x00, JournalFault::Magic),
    (b"", b'N', JournalFault::Magic),
    (b"", 0xFF, JournalFault::Magic),
    (b"NORUNDO1", 0xFF, JournalFault::Size),
    (b"NORUNDO2", 0xFF, JournalFault::Size),
    (HEAD, 0x00, JournalFault::Order),
    (HEAD, 0xFF, JournalFault::Long),
    (HEAD, 0x10, JournalFault::Place),
];

#[test]
fn journals_of_a_million_bytes(rt: HostRuntime) {
    for (beginning, byte, fault) in JOURNALS {
        let bytes = long(&rt, rt.alloc(), beginning, *byte, b"");
        let told = Journal::read(&bytes).err();
        assert_held(&rt, told == Some(*fault), u64::from(*byte));
    }
}

// Returns a journal of 4,161 bytes that saves one sector. Its fields begin at these positions: magic 0, ID 8, unique ID
// 11, status 19, size 21, number of the sector 25, bytes of the sector 29, end mark 4125, digest 4129.
fn journal_of_a_sector(rt: &impl Abort, alloc: Global) -> Vec<u8> {
    let row = Row::ABitRises;
    let cut = Runs::new(rt, alloc, row, Start::IDLE).cut(rt, 23);
    assert_that!(rt; cut.vault.bytes().len() == 4161);
    cut.vault.bytes().to_vec(alloc).expect(rt, "memory")
}

// Returns the fault of the `journal_of_a_sector` if the lowest bit of its byte at `place` is inverted.
const fn fault_of_change(place: usize) -> JournalFault {
    match place {
        0..=7 => JournalFault::Magic,
        21..=24 => JournalFault::Size,
        26..=28 | 4125..=4128 => JournalFault::Place,
        _ => JournalFault::Digest,
    }
}

fn flip(bytes: &mut [u8], place: usize) {
    if let Some(byte) = bytes.get_mut(place) {
        *byte ^= 1;
    }
}

#[test]
fn a_journal_with_each_byte_changed(rt: HostRuntime) {
    let mut journal = journal_of_a_sector(&rt, rt.alloc());
    for place in 0..journal.len() {
        flip(&mut journal, place);
        let fault = Journal::read(&journal).err();
        flip(&mut journal, place);
        assert_held(&rt, fault == Some(fault_of_change(place)), place as u64);
    }
}

#[test]
fn a_journal_cut_at_each_place(rt: HostRuntime) {
    let journal = journal_of_a_sector(&rt, rt.alloc());
    for length in 0..journal.len() {
        let fault = Journal::read(&journal[..length]).err();
        assert_held(&rt, fault == Some(JournalFault::Short), length as u64);
    }
}

//! The handshake before the first transaction: synchronization and identification.

use crate::held::assert_that;
use crate::serprog_model::Model;
use nor_serprog::{Link, Programmer};
use std::alloc::Global;
use std::process::Abort;

#[test]
fn a_programmer_is_identified(rt: HostRuntime) {
    let mut link = Link::new(Model::new(&rt, rt.alloc()));
    let identified = Programmer::identify(&mut link, Some(12_000_000)).ok();
    let programmer = identified.expect(&rt, "a programmer");
    assert_that!(&rt; &programmer.name() == b"in memory\0\0\0\0\0\0\0");
    assert_that!(&rt; programmer.longest_write() == 1 << 24);
    assert_that!(&rt; programmer.longest_read() == 1 << 24);
    assert_that!(&rt; programmer.frequency() == Some(12_000_000));
}

fn refusal(rt: &impl Abort, alloc: Global, model: Model) -> String {
    let mut link = Link::new(model);
    let text = match Programmer::identify(&mut link, Some(1_000_000)) {
        Ok(_) => String::from_str(alloc, "identified"),
        Err(fault) => format!(in alloc; "{fault}"),
    };
    text.expect(rt, "memory")
}

fn assert_refused(rt: &impl Abort, alloc: Global, model: Model, text: &str) {
    let refusal = refusal(rt, alloc, model);
    assert_that!(rt; refusal.as_str() == text);
}

#[test]
fn each_flaw_is_an_error_of_its_own(rt: HostRuntime) {
    let alloc = rt.alloc();
    let mut model = Model::new(&rt, alloc);
    model.version = 2;
    assert_refused(
        &rt,
        alloc,
        model,
        "the programmer speaks version 2 of serprog, and only version 1 is known",
    );
    let mut model = Model::new(&rt, alloc);
    model.lacks = Some(0x13);
    assert_refused(
        &rt,
        alloc,
        model,
        "the programmer lacks command 13h, which is needed here",
    );
    let mut model = Model::new(&rt, alloc);
    model.lacks = Some(0x14);
    assert_refused(
        &rt,
        alloc,
        model,
        "the programmer lacks command 14h, which is needed here",
    );
    let mut model = Model::new(&rt, alloc);
    model.buses = 0x01;
    assert_refused(
        &rt,
        alloc,
        model,
        "the programmer cannot be set to SPI: its types of bus are 01h",
    );
}

#[test]
fn a_limit_that_is_too_small_is_an_error(rt: HostRuntime) {
    let alloc = rt.alloc();
    let mut model = Model::new(&rt, alloc);
    model.longest_write = [0x03, 0x01, 0];
    assert_refused(
        &rt,
        alloc,
        model,
        "the programmer sends at most 259 bytes in a transaction, too few for a page program",
    );
    let mut model = Model::new(&rt, alloc);
    model.longest_read = [0xFF, 0x0F, 0];
    assert_refused(
        &rt,
        alloc,
        model,
        "the programmer reads at most 4095 bytes in a transaction, and a sector needs 4096",
    );
    let mut model = Model::new(&rt, alloc);
    model.lacks = Some(0x08);
    model.buffer = [0x0A, 0x01];
    assert_refused(
        &rt,
        alloc,
        model,
        "the serial buffer of the programmer has 266 bytes, too few for a page program",
    );
    let mut model = Model::new(&rt, alloc);
    model.longest_write = [0x04, 0x01, 0];
    model.longest_read = [0x00, 0x10, 0];
    assert_refused(&rt, alloc, model, "identified");
}

// Bytes that an earlier run left unread are skipped, even if the last of them look like the reply to SYNCNOP.
#[test]
fn stale_bytes_are_skipped(rt: HostRuntime) {
    let stale: [&[u8]; 4] = [
        &[0x06],
        &[0xFF, 0x15],
        &[0x15, 0x06],
        &[0x15, 0x06, 0x15, 0x06, 0x06, 0x15],
    ];
    for bytes in stale {
        let mut model = Model::new(&rt, rt.alloc());
        let _ = model.pending.try_extend_from_slice(bytes);
        assert_refused(&rt, rt.alloc(), model, "identified");
    }
}

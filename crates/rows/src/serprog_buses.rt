//! Transactions over a serprog port in memory, batches of commands, and the state of the buses after faults.

use crate::held::assert_that;
use crate::serprog_model::{Fault, Model};
use crate::transact::{read, send};
use nor_chip::Bus;
use nor_serprog::{BatchingBus, Link, Programmer, SerprogBus};
use std::alloc::Global;
use std::process::Abort;

fn open(rt: &impl Abort, model: Model) -> SerprogBus<Model> {
    let mut link = Link::new(model);
    let programmer = Programmer::identify(&mut link, None)
        .ok()
        .expect(rt, "a programmer");
    SerprogBus::new(link, programmer, false)
}

fn open_batching(rt: &impl Abort, alloc: Global, fault: Option<Fault>) -> BatchingBus<Model> {
    let mut model = Model::new(rt, alloc);
    model.fault = fault;
    let mut link = Link::new(model);
    let programmer = Programmer::identify(&mut link, None)
        .ok()
        .expect(rt, "a programmer");
    BatchingBus::new(link, programmer)
}

#[test]
fn a_chip_is_read_and_programmed(rt: HostRuntime) {
    let mut bus = open(&rt, Model::new(&rt, rt.alloc()));
    assert_that!(&rt; read(&rt, &mut bus, &[0x9F]) == [0xFE, 0x10, 0x10]);
    let mut program = [0x5A; 260];
    program[0] = 0x02;
    program[1] = 0x00;
    program[2] = 0x11;
    program[3] = 0x00;
    send(&rt, &mut bus, &[0x06]);
    send(&rt, &mut bus, &program);
    let sector: [u8; 4096] = read(&rt, &mut bus, &[0x03, 0x00, 0x10, 0x00]);
    let edges = [sector[0x0FF], sector[0x100], sector[0x1FF], sector[0x200]];
    assert_that!(&rt; edges == [0xFF, 0x5A, 0x5A, 0xFF]);
    assert_that!(&rt; bus.cause().is_none());
}

fn cause(rt: &impl Abort, alloc: Global, bus: &SerprogBus<Model>) -> String {
    match bus.cause() {
        Some(cause) => format!(in alloc; "{cause}").expect(rt, "memory"),
        None => String::new(alloc),
    }
}

// The bus records the cause of a fault. Further transactions send nothing until `synchronize` succeeds.
#[test]
fn each_fault_stops_the_bus(rt: HostRuntime) {
    let alloc = rt.alloc();
    let faults = [
        (Fault::Nak, "the programmer refused command 13h"),
        (Fault::Silent, "the port failed: silent"),
        (Fault::Short, "the port failed: silent"),
        (
            Fault::Strange,
            "the programmer answered 99h, which is neither ACK nor NAK",
        ),
    ];
    for (fault, text) in faults {
        let mut model = Model::new(&rt, alloc);
        model.fault = Some(fault);
        let mut bus = open(&rt, model);
        let mut id = [0; 3];
        assert_that!(&rt; bus.transfer(&[0x9F], &mut id).is_err());
        assert_that!(&rt; cause(&rt, alloc, &bus).as_str() == text);
        let received = bus.port().received;
        assert_that!(&rt; bus.transfer(&[0x06], &mut []).is_err());
        assert_that!(&rt; bus.port().received == received);
        assert_that!(&rt; cause(&rt, alloc, &bus).as_str() == text);
        assert_that!(&rt; bus.synchronize().is_ok());
        assert_that!(&rt; read(&rt, &mut bus, &[0x9F]) == [0xFE, 0x10, 0x10]);
    }
}

// After a failure inside a frame nothing may be sent: the programmer would treat new bytes as the rest of the frame.
#[test]
fn a_cut_frame_is_never_completed(rt: HostRuntime) {
    let mut model = Model::new(&rt, rt.alloc());
    model.fault = Some(Fault::Cut);
    let mut bus = open(&rt, model);
    let mut id = [0; 3];
    assert_that!(&rt; bus.transfer(&[0x9F], &mut id).is_err());
    assert_that!(&rt; cause(&rt, rt.alloc(), &bus).as_str() == "the port failed: cut");
    let received = bus.port().received;
    assert_that!(&rt; bus.synchronize().is_err());
    assert_that!(&rt; bus.transfer(&[0x9F], &mut id).is_err());
    assert_that!(&rt; bus.port().received == received);
}

#[test]
fn a_transaction_that_is_too_long_is_not_sent(rt: HostRuntime) {
    let mut bus = open(&rt, Model::new(&rt, rt.alloc()));
    let received = bus.port().received;
    assert_that!(&rt; bus.transfer(&[0x02; 261], &mut []).is_err());
    assert_that!(&rt; bus.port().received == received);
}

// Returns the number of O_SPIOP commands after a transaction over a `BatchingBus`, and after the `flush` that follows.
fn operations(rt: &impl Abort, alloc: Global, out: &[u8], has_reply: bool) -> (u32, u32) {
    let mut bus = open_batching(rt, alloc, None);
    let mut byte = [0];
    let replies = if has_reply { 1 } else { 0 };
    assert_that!(rt; bus.transfer(out, &mut byte[..replies]).is_ok());
    let at_once = bus.port().operations;
    assert_that!(rt; bus.flush().is_ok());
    (at_once, bus.port().operations)
}

#[test]
fn only_a_write_enable_without_a_reply_waits(rt: HostRuntime) {
    let cases: [(&[u8], bool, u32); 8] = [
        (&[0x06], false, 0),
        (&[0x06], true, 1),
        (&[0x01, 0x00, 0x00], false, 1),
        (&[0x01, 0x00, 0x00], true, 1),
        (&[0x20, 0x00, 0x10, 0x00], false, 1),
        (&[0x20, 0x00, 0x10, 0x00], true, 1),
        (&[0x04], false, 1),
        (&[0x05], true, 1),
    ];
    for (out, has_reply, at_once) in cases {
        assert_that!(&rt; operations(&rt, rt.alloc(), out, has_reply) == (at_once, 1));
    }
}

fn assert_silent(rt: &impl Abort, bus: &mut BatchingBus<Model>) {
    let received = bus.port().received;
    let command = bus.transfer(&[0x06], &mut []);
    let flushed = bus.flush();
    let poll = bus.transfer(&[0x05], &mut [0]);
    assert_that!(rt; bus.port().received == received);
    assert_that!(rt; command.is_err() && flushed.is_ok() && poll.is_err());
}

// The bus holds the write enable back until the poll. The fault occurs at the frame of the write enable.
#[test]
fn a_batch_is_sent_only_in_step(rt: HostRuntime) {
    for fault in [Fault::Nak, Fault::Silent, Fault::Strange, Fault::Cut] {
        let mut bus = open_batching(&rt, rt.alloc(), Some(fault));
        send(&rt, &mut bus, &[0x06]);
        assert_that!(&rt; bus.transfer(&[0x05], &mut [0]).is_err());
        assert_silent(&rt, &mut bus);
        let is_cut = fault == Fault::Cut;
        assert_that!(&rt; bus.synchronize().is_err() == is_cut);
        assert_that!(&rt; bus.transfer(&[0x05], &mut [0]).is_err() == is_cut);
    }
}

#[test]
fn a_link_that_was_never_synchronized_carries_no_batch(rt: HostRuntime) {
    let mut link = Link::new(Model::new(&rt, rt.alloc()));
    let programmer = Programmer::identify(&mut link, None)
        .ok()
        .expect(&rt, "a programmer");
    let mut bus = BatchingBus::new(Link::new(Model::new(&rt, rt.alloc())), programmer);
    assert_silent(&rt, &mut bus);
    assert_that!(&rt; bus.port().received == 0);
}

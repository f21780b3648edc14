//! Tests of `read_out` into a vault that refuses a piece, `verify` with a lost reply, and the status that both report.
use crate::held::{assert_held, assert_that};
use crate::row::{Row, Start};
use crate::runs::AMPLE;
use crate::spoilt::spoilt;
use nor_chip::{Config, Delays, Meter, SimBus, Spoil};
use nor_journal::{BrokenVault, MemVault};
use nor_read::{read_out, verify};
use nor_session::{Refusal, Report};
use std::alloc::Global;

// Each row has the number of the call that the vault refuses, the number of bytes that it keeps of the refused piece,
// the error, and the vault's length. `read_out` makes one call, so it succeeds if call 2 would be refused.
const CASES: [(u64, usize, Option<Refusal>, usize); 4] = [
    (1, 0, Some(Refusal::Output { written: 0 }), 0),
    (1, 5000, Some(Refusal::Output { written: 5000 }), 5000),
    (1, 65_535, Some(Refusal::Output { written: 65_535 }), 65_535),
    (2, 0, None, 65_536),
];

#[test]
fn a_vault_that_refuses_ends_the_reading(rt: HostRuntime) {
    let row = Row::ABitRises;
    for (nth, kept, refusal, held) in CASES {
        let mut bus = row.bus(&rt, rt.alloc(), Start::IDLE);
        bus.allow(AMPLE);
        let mut out = BrokenVault::new(MemVault::new(rt.alloc()), nth, kept);
        let answer = read_out(&mut bus, None, None, &mut out).err();
        let told = (answer, out.inner().bytes().len(), out.failures());
        let wanted = (refusal, held, u64::from(refusal.is_some()));
        assert_held(&rt, told == wanted, nth);
    }
}

type Sent = Result<u64, Refusal>;

fn sent(answer: Result<Report, Refusal>) -> Sent {
    Ok(answer?.transactions)
}

// Each row has the transaction whose reply is lost (0 for none), and the result. Transactions 1 to 5 identify a TINY64,
// and 6 to 21 read its sectors. Chip and image are 00h, and a lost reply is FFh.
const LOST_REPLIES: [(u64, Sent); 4] = [
    (0, Ok(21)),
    (6, Err(Refusal::Mismatch { address: 0 })),
    (14, Err(Refusal::Mismatch { address: 0x8000 })),
    (21, Err(Refusal::Mismatch { address: 0xF000 })),
];

#[test]
fn a_reply_that_differs_is_a_mismatch(rt: HostRuntime) {
    let idle = Delays { now: 0, each: 0 };
    let image = vec![in rt.alloc(); 0; 65_536].expect(&rt, "memory");
    for (nth, wanted) in LOST_REPLIES {
        let bytes = vec![in rt.alloc(); 0; 65_536].expect(&rt, "memory");
        let bus = SimBus::new(Config::tiny64(), bytes, [0x00, 0x00], idle).expect(
            &rt,
            "as many bytes as the chip has",
        );
        let mut bus = spoilt(bus, Spoil::Drop(nth));
        let told = sent(verify(&mut bus, &image, None, None));
        assert_held(&rt, told == wanted, nth);
    }
}

// The write enable latch (bit 1 of status 1) is set at the start, and stays set.
#[test]
fn a_reading_reports_the_status_that_it_found(rt: HostRuntime) {
    let alloc = rt.alloc();
    let row = Row::ABitRises;
    let before = row.before(&rt, alloc);
    let mut bus = row.bus(&rt, alloc, Start::IDLE.latched());
    bus.allow(AMPLE);
    let mut out = MemVault::new(alloc);
    let read = read_out(&mut bus, None, None, &mut out).expect(&rt, "the reading ends");
    let compared = verify(&mut bus, &before, None, None).expect(&rt, "the comparison ends");
    assert_that!(&rt; read.found.status1 == 0x02);
    assert_that!(&rt; compared.found.status1 == 0x02);
}

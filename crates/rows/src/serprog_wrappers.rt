//! Tests of `Paced`, which pauses between polls that show BUSY, of `ReadTwice`, and of `CheckedStatus`.

use crate::held::assert_that;
use crate::serprog_model::{Fault, Model};
use crate::transact::{poll, read, send};
use nor_buses::{CheckFault, CheckedStatus, Paced, ReadTwice};
use nor_chip::{Bus, Config, Delays, Meter, SimBus, Spoil, SpoiltBus};
use nor_serprog::{Link, Programmer, SerprogBus};
use std::alloc::Global;
use std::cell::Cell;
use std::io;
use std::process::Abort;
use std::time::{Clock, Duration};

/// A clock that advances only if it sleeps or if the test sets `now`. If `fails` is true, the clock can't be read.
#[derive(Drop)]
pub struct Timer<'a> {
    pub now: &'a Cell<u64>,
    pub fails: bool,
}

impl Clock for Timer<'_> {
    fn monotonic(&self) -> io::Result<Duration> {
        if self.fails {
            return Err(io::Error::from(io::ErrorKind::Unsupported));
        }
        Ok(Duration::from_micros(self.now.get()))
    }

    fn since_1970(&self) -> io::Result<Duration> {
        self.monotonic()
    }

    fn sleep(&self, duration: Duration) {
        let micros = u64::try_from(duration.as_micros()).unwrap_or(u64::MAX);
        self.now.set(self.now.get().saturating_add(micros));
    }
}

fn tiny64(rt: &impl Abort, alloc: Global, delays: Delays) -> SimBus {
    let erased = vec![in alloc; 0xFF; 65536].expect(rt, "memory");
    let chip = SimBus::new(Config::tiny64(), erased, [0x00, 0x00], delays);
    let mut chip = chip.expect(rt, "a size");
    chip.allow(u64::MAX);
    chip
}

fn always_busy<'a>(
    rt: &impl Abort,
    alloc: Global,
    now: &'a Cell<u64>,
    fails: bool,
) -> Paced<SpoiltBus<SimBus>, Timer<'a>> {
    let chip = tiny64(rt, alloc, Delays { now: 0, each: 0 });
    Paced::new(
        SpoiltBus::new(chip, Spoil::Fill(0xFF)),
        Timer { now, fails },
    )
}

// Each row has a command, its typical duration, and the pause before the third poll after it, both in microseconds.
const COMMANDS: [(&[u8], u64, u64); 7] = [
    (&[0x02, 0, 0, 0, 0], 700, 100),
    (&[0x01, 0, 0], 10_000, 625),
    (&[0x20, 0, 0, 0], 45_000, 2812),
    (&[0x52, 0, 0, 0], 120_000, 6250),
    (&[0xD8, 0, 0, 0], 150_000, 6250),
    (&[0xC7], 150_000, 6250),
    (&[0x06], 0, 100),
];

// The chip shows BUSY in 600 polls. Polls 3 to 16 have a pause of 0.1 ms each. Then come 16 polls with each of the
// pauses 0.2, 0.4, 0.8, 1.6 and 3.2 ms, and polls 97 to 601 with 6.25 ms.
#[test]
fn polls_of_a_busy_chip_are_paced(rt: HostRuntime) {
    let now = Cell::new(0);
    let clock = Timer {
        now: &now,
        fails: false,
    };
    let mut bus = Paced::new(tiny64(&rt, rt.alloc(), Delays { now: 600, each: 0 }), clock);
    let mut polls = 0_u32;
    for _ in 0..1000 {
        let status = poll(&rt, &mut bus);
        polls = polls.saturating_add(1);
        if status % 2 == 0 {
            break;
        }
    }
    assert_that!(&rt; polls == 601);
    assert_that!(&rt; now.get() == 14 * 100 + 16 * 6200 + 505 * 6250);
    let _ = poll(&rt, &mut bus);
    assert_that!(&rt; now.get() == 14 * 100 + 16 * 6200 + 505 * 6250);
}

// The second poll is sent when the typical duration has passed since the command or, if the clock can't be read, since
// the first poll. Only after a page program, this duration also precedes the first poll.
#[test]
fn the_second_poll_comes_after_the_typical_time(rt: HostRuntime) {
    for (command, typical, third) in COMMANDS {
        for (passed, fails) in [(0, false), (300, false), (1 << 40, false), (0, true)] {
            let now = Cell::new(1000);
            let mut bus = always_busy(&rt, rt.alloc(), &now, fails);
            send(&rt, &mut bus, command);
            let _: [u8; 2] = read(&rt, &mut bus, &[0x05]);
            let first = if matches!(command, [0x02, ..]) {
                typical
            } else {
                0
            };
            assert_that!(&rt; now.get() == 1000_u64.saturating_add(first));
            let polled = 1000_u64.saturating_add(passed.max(first));
            now.set(polled);
            let _ = poll(&rt, &mut bus);
            let begun = if fails { polled } else { 1000 };
            let second = polled.max(begun.saturating_add(typical));
            assert_that!(&rt; now.get() == second);
            let _: [u8; 2] = read(&rt, &mut bus, &[0x05]);
            assert_that!(&rt; now.get() == second.saturating_add(third));
        }
    }
}

#[test]
fn a_wait_without_end_takes_400_seconds(rt: HostRuntime) {
    for (command, _, _) in COMMANDS {
        let now = Cell::new(0);
        let mut bus = always_busy(&rt, rt.alloc(), &now, false);
        send(&rt, &mut bus, command);
        for _ in 0..65_536 {
            let _ = poll(&rt, &mut bus);
        }
        let waited = now.get();
        assert_that!(&rt; waited >= 400_000_000);
        assert_that!(&rt; waited <= 410_000_000);
    }
}

#[test]
fn readings_that_differ_stop_the_bus(rt: HostRuntime) {
    for fault_at in 0..4 {
        let mut model = Model::new(&rt, rt.alloc());
        model.fault = Some(Fault::Flip);
        model.fault_at = fault_at;
        let mut link = Link::new(model);
        let programmer = Programmer::identify(&mut link, None)
            .ok()
            .expect(&rt, "a programmer");
        let mut bus = ReadTwice::new(SerprogBus::new(link, programmer, false));
        let _ = poll(&rt, &mut bus);
        let mut sector = [0; 4096];
        let read = bus.transfer(&[0x03, 0x00, 0x00, 0x00], &mut sector);
        let flipped = fault_at == 1 || fault_at == 2;
        assert_that!(&rt; read.is_err() == flipped);
        assert_that!(&rt; bus.differed() == flipped);
        assert_that!(&rt; bus.inner().port().operations == 3);
    }
}

// Here a poll of a ready chip is four transactions of the inner bus: a poll, the ID, a poll and the ID. A chip that
// seems to be busy in the second poll doesn't count as lost.
#[test]
fn a_busy_chip_is_not_lost(rt: HostRuntime) {
    let id = [0xFE, 0x10, 0x10];
    let lost = CheckFault::Lost {
        id,
        found: [0xFF; 3],
    };
    let rows = [
        ([0, 0], None),
        ([3, 0], Some(lost)),
        ([4, 4], Some(CheckFault::Differs)),
    ];
    for ([first, second], fault) in rows {
        let chip = tiny64(&rt, rt.alloc(), Delays { now: 0, each: 0 });
        let chip = SpoiltBus::new(chip, Spoil::Drop(second));
        let mut bus = CheckedStatus::new(SpoiltBus::new(chip, Spoil::Drop(first)));
        assert_that!(&rt; read(&rt, &mut bus, &[0x9F]) == id);
        let polled = bus.transfer(&[0x05], &mut [0]);
        assert_that!(&rt; polled.is_ok() == fault.is_none());
        assert_that!(&rt; bus.fault() == fault);
    }
}

//! Tests of `probe_counted`: which chips it finds, which transactions it sends, and how long it waits.
use crate::held::{assert_held, assert_that};
use crate::row::{Start, erased};
use nor_chip::{ALL_KINDS, Config, Delays, Meter, SimBus, Spoil, SpoiltBus, TINY64_SFDP, TraceBus};
use nor_probe::{ChipName, Found, ProbeFault, Probed, SfdpFault, probe_counted};
use std::alloc::Global;
use std::process::Abort;

const TINY64: Found = Found {
    name: ChipName::Sfdp,
    id: [0xFE, 0x10, 0x10],
    size: 65_536,
    kinds: ALL_KINDS,
    scheme: false,
    status1: 0x04,
};

const W25Q64FV: Found = Found {
    name: ChipName::W25Q64FV,
    id: [0xEF, 0x40, 0x17],
    size: 8_388_608,
    kinds: ALL_KINDS,
    scheme: true,
    status1: 0x04,
};

const W25Q128FV: Found = Found {
    name: ChipName::W25Q128FV,
    id: [0xEF, 0x40, 0x18],
    size: 16_777_216,
    kinds: ALL_KINDS,
    scheme: true,
    status1: 0x04,
};

type Answer = Result<Probed, ProbeFault>;

const SMALL: Answer = Ok(Probed {
    found: W25Q64FV,
    transactions: 2,
});

const LARGE: Answer = Ok(Probed {
    found: W25Q128FV,
    transactions: 2,
});

const BY_SFDP: Answer = Ok(Probed {
    found: TINY64,
    transactions: 5,
});

fn chip(rt: &impl Abort, id: [u8; 3], sfdp: &[u8]) -> Config {
    Config::new(id, 65_536, true, true, false, sfdp).expect(rt, "a size")
}

fn bus_to(rt: &impl Abort, alloc: Global, config: Config, delays: Delays, allowed: u64) -> SimBus {
    let mut bus = erased(rt, alloc, config, [0x04, 0x00], delays);
    bus.allow(allowed);
    bus
}

const TINY64_SENT: &str = "05 > 04\n9f > fe1010\n\
    5a00000000 > 8 bytes\n5a00000800 > 8 bytes\n5a00001000 > 36 bytes\n";

// The chip has no SFDP bytes and replies FFh to 5Ah, so the probe reads the parameter table at FFFFFFh.
const SILENT_SENT: &str = "05 > 04\n9f > aa1122\n\
    5a00000000 > 8 bytes\n5a00000800 > 8 bytes\n5affffff00 > 36 bytes\n";

const W25Q64FV_SENT: &str = "05 > 04\n9f > ef4017\n";

const W25Q128FV_SENT: &str = "05 > 04\n9f > ef4018\n";

#[derive(Clone, Copy)]
enum Sample {
    Small,
    Large,
    BySfdp,
    // A chip of 64 KiB with the ID of a W25Q64FV and the SFDP bytes of a TINY64.
    Believed,
    // A chip without SFDP bytes, whose ID isn't in the table.
    Silent,
    Ones,
    Zeros,
}

impl Sample {
    fn config(self, rt: &impl Abort) -> Config {
        match self {
            Sample::Small => Config::w25q64fv(),
            Sample::Large => Config::w25q128fv(),
            Sample::BySfdp => Config::tiny64(),
            Sample::Believed => chip(rt, [0xEF, 0x40, 0x17], &TINY64_SFDP),
            Sample::Silent => chip(rt, [0xAA, 0x11, 0x22], &[]),
            Sample::Ones => chip(rt, [0xFF; 3], &[]),
            Sample::Zeros => chip(rt, [0x00; 3], &[]),
        }
    }
}

const OTHER: Answer = Err(ProbeFault::OtherName);

const NONE: Answer = Err(ProbeFault::NoChip);

const UNKNOWN: Answer = Err(ProbeFault::UnknownChip(SfdpFault::Signature));

fn probed(
    rt: &impl Abort,
    alloc: Global,
    config: Config,
    name: Option<&str>,
    sent: &str,
) -> (Answer, bool) {
    let mut log = Vec::new(alloc);
    let bus = bus_to(rt, alloc, config, Start::IDLE.delays, 100);
    let told = probe_counted(&mut TraceBus::new(bus, &mut log), name.map(ChipName::of));
    (told, log.as_slice() == sent.as_bytes())
}

// Each row has the chip, the name, the result and the trace. An ID of the table counts even if the SFDP contradicts it.
const PROBES: &[(Sample, Option<&str>, Answer, &str)] = &[
    (Sample::Small, None, SMALL, W25Q64FV_SENT),
    (Sample::Small, Some("W25Q64FV"), SMALL, W25Q64FV_SENT),
    (Sample::Small, Some("W25Q128FV"), OTHER, W25Q64FV_SENT),
    (Sample::Small, Some("w25q64fv"), OTHER, W25Q64FV_SENT),
    (Sample::Small, Some("W25Q64FV "), OTHER, W25Q64FV_SENT),
    (Sample::Small, Some(""), OTHER, W25Q64FV_SENT),
    (Sample::Large, Some("W25Q128FV"), LARGE, W25Q128FV_SENT),
    (Sample::BySfdp, None, BY_SFDP, TINY64_SENT),
    (Sample::BySfdp, Some("SFDP"), BY_SFDP, TINY64_SENT),
    (Sample::BySfdp, Some("TINY64"), OTHER, TINY64_SENT),
    (Sample::Believed, None, SMALL, W25Q64FV_SENT),
    (Sample::Silent, Some("W25Q64FV"), UNKNOWN, SILENT_SENT),
    (
        Sample::Ones,
        Some("W25Q64FV"),
        NONE,
        "05 > 04\n9f > ffffff\n",
    ),
    (
        Sample::Zeros,
        Some("W25Q64FV"),
        NONE,
        "05 > 04\n9f > 000000\n",
    ),
];

#[test]
fn probes_find_the_chips_that_are_known(rt: HostRuntime) {
    for (chip, name, answer, sent) in PROBES {
        let config = chip.config(&rt);
        let told = probed(&rt, rt.alloc(), config, *name, sent);
        assert_that!(&rt; told == (*answer, true));
    }
}

const HONEST: Spoil = Spoil::BusyFrom(u64::MAX);

const STUCK: Spoil = Spoil::BusyFrom(1);

const WAITED: Answer = Ok(Probed {
    found: TINY64,
    transactions: 8,
});

const WAITED_LONG: Answer = Ok(Probed {
    found: TINY64,
    transactions: 65_540,
});

const STOPPED: Answer = Err(ProbeFault::Stopped);

// Each row has the number of polls that show BUSY at first, the bus's fault, the allowance, and the expected result.
const WAITS: [(u16, Spoil, u64, Answer); 6] = [
    (3, HONEST, 8, WAITED),
    (3, HONEST, 7, STOPPED),
    (65_535, HONEST, 65_540, WAITED_LONG),
    (65_535, HONEST, 65_539, STOPPED),
    (0, STUCK, 65_536, Err(ProbeFault::Timeout)),
    (0, STUCK, 65_535, STOPPED),
];

#[test]
fn the_longest_wait_and_one_transaction_too_few(rt: HostRuntime) {
    for (now, spoil, allowed, answer) in WAITS {
        let delays = Delays { now, each: 0 };
        let bus = bus_to(&rt, rt.alloc(), Config::tiny64(), delays, allowed);
        let mut bus = SpoiltBus::new(bus, spoil);
        let told = probe_counted(&mut bus, None);
        assert_held(&rt, told == answer, allowed);
    }
}

//! Sessions that many tests run. They are called rows.
use crate::contents::{Bytes, ERASED, first, run};
use nor_chip::{Config, Delays, SimBus, TINY64_SFDP};
use nor_layout::{Layout, Ranges};
use nor_session::{Request, What};
use std::alloc::Global;
use std::process::Abort;

/// The state of the chip at the start of a session, its delays, and what a stop does.
#[derive(Clone, Copy)]
pub struct Start {
    /// The numbers of polls that show BUSY at first and after each operation.
    pub delays: Delays,
    pub latch: bool,
    /// With `Some`, a stop cuts the chip's power, and the bytes of a page or block in progress become this byte.
    pub fill: Option<u8>,
    /// The greatest number of bytes of the failed transaction that a stop still sends. `None` if a stop sends none.
    pub torn: Option<u32>,
}

impl Start {
    /// An idle chip that never shows BUSY. A stop sends no byte and keeps the chip's power.
    pub const IDLE: Start = Start {
        delays: Delays { now: 0, each: 0 },
        latch: false,
        fill: None,
        torn: None,
    };

    pub const SLOW: Start = Start {
        delays: Delays { now: 3, each: 2 },
        ..Start::IDLE
    };

    pub const SLOWEST: Start = Start {
        delays: Delays {
            now: 65_535,
            each: 65_535,
        },
        ..Start::IDLE
    };

    pub const fn latched(self) -> Start {
        Start {
            latch: true,
            ..self
        }
    }

    fn status(self, kept: [u8; 2]) -> [u8; 2] {
        let [one, two] = kept;
        if self.latch { [one | 0x02, two] } else { kept }
    }

    /// Returns the start of a chip that is idle at first, shows BUSY in two polls after each operation, and loses its
    /// power at a stop.
    pub const fn losing(fill: u8) -> Start {
        Start {
            delays: Delays { now: 0, each: 2 },
            latch: false,
            fill: Some(fill),
            torn: None,
        }
    }

    pub const fn torn(self, count: u32) -> Start {
        Start {
            torn: Some(count),
            ..self
        }
    }
}

/// A session that is tested: its chip, the chip's contents before the session, the image and the request.
#[derive(Clone, Copy)]
pub enum Row {
    AByteIsProgrammed,
    /// Changes a bit of one byte from 0 to 1, so the sector of that byte is erased.
    ABitRises,
    ABitFalls,
    /// Programs four bytes, two on each side of a page boundary.
    TwoPagesAreProgrammed,
    /// Erases nine sectors, with one erase of 32 KiB and one of 4 KiB.
    NineSectorsAreErased,
    TheChipIsErased,
    /// Changes the only included page from 00h to FFh, in a sector of 00h: an erase, and 15 programs of the other
    /// pages.
    TheRestOfASectorStays,
    /// Programs the last byte before the protected range.
    AByteBelowTheGuardIsProgrammed,
    /// Programs the first byte of the protected range. The protection bits are cleared first, and set again at the end.
    AGuardedByteIsProgrammed,
    /// Changes every byte of a TINY64 that lacks the erase types of 32 and 64 KiB.
    EachPageIsProgrammed,
    /// Erases sectors 8 to 39 of a chip of 256 KiB, with three erases of 32, 64 and 32 KiB.
    ThirtyTwoSectorsAreErased,
    /// Changes a bit of each of the first 64 bytes from 0 to 1, in the only included sector: an erase and a program.
    ABitOf64BytesRises,
    /// Programs the first byte of the protected range, in the only included sector.
    AGuardedByteOfASectorIsProgrammed,
}

#[derive(Clone, Copy)]
enum Chip {
    Tiny64,
    SectorsAlone,
    Large,
    W25q64fv,
}

impl Chip {
    fn config(self, rt: &impl Abort) -> Config {
        match self {
            Chip::Tiny64 => Config::tiny64(),
            Chip::SectorsAlone => sectors_alone(rt),
            Chip::Large => large(rt, true, true),
            Chip::W25q64fv => Config::w25q64fv(),
        }
    }

    fn sectors(self) -> u32 {
        match self {
            Chip::Tiny64 | Chip::SectorsAlone => 16,
            Chip::Large => 64,
            Chip::W25q64fv => 2048,
        }
    }
}

fn sectors_alone(rt: &impl Abort) -> Config {
    let mut sfdp = TINY64_SFDP;
    sfdp[0x2E] = 0x00;
    sfdp[0x30] = 0x00;
    Config::new([0xFE, 0x10, 0x10], 65_536, false, false, false, &sfdp).expect(rt, "a size")
}

/// Returns a chip of 256 KiB that is known by its SFDP, with erases of 32 KiB if `k32` and of 64 KiB if `k64` is true.
pub fn large(rt: &impl Abort, k32: bool, k64: bool) -> Config {
    let mut sfdp = TINY64_SFDP;
    sfdp[0x16] = 0x1F;
    if !k32 {
        sfdp[0x2E] = 0x00;
    }
    if !k64 {
        sfdp[0x30] = 0x00;
    }
    Config::new([0xAA, 0x11, 0x22], 262_144, k32, k64, false, &sfdp).expect(rt, "a size")
}

#[derive(Clone, Copy)]
struct Written {
    chip: Chip,
    status: [u8; 2],
    old: Bytes,
    image: Bytes,
    // A layout of one line, whose region `part` is included. `None` if the whole chip is included.
    part: Option<&'static [u8]>,
    unlock: bool,
    // The numbers of transactions before the seal (`sealed`) and in all (`length`), on a chip without delays.
    sealed: u32,
    length: u32,
    // The number of erases, page programs and status writes.
    operations: u32,
}

impl Row {
    pub fn before(self, rt: &impl Abort, alloc: Global) -> Vec<u8> {
        self.written().old.whole(rt, alloc, self.sectors())
    }

    pub fn wanted(self, rt: &impl Abort, alloc: Global) -> Vec<u8> {
        self.written().image.whole(rt, alloc, self.sectors())
    }

    pub fn request(self, rt: &impl Abort, alloc: Global) -> Request {
        let Written { part, unlock, .. } = self.written();
        Request {
            what: What::Write,
            named: None,
            included: included(rt, alloc, part),
            unlock,
            verify: true,
        }
    }

    /// Returns a bus to the row's chip. The bus carries out no transaction until `allow` is called.
    pub fn bus(self, rt: &impl Abort, alloc: Global, start: Start) -> SimBus {
        let bytes = self.before(rt, alloc);
        let config = self.written().chip.config(rt);
        let status = start.status(self.status());
        let mut bus = SimBus::new(config, bytes, status, start.delays).expect(
            rt,
            "as many bytes as the chip has",
        );
        bus.lose(start.fill);
        bus.tear(start.torn);
        bus
    }

    pub fn status(self) -> [u8; 2] {
        self.written().status
    }

    pub fn sectors(self) -> u32 {
        self.written().chip.sectors()
    }

    /// Returns the smallest allowance with which the session seals its vault.
    pub fn sealed_at(self, start: Start) -> u64 {
        u64::from(self.written().sealed) + u64::from(start.delays.now)
    }

    /// Returns the smallest allowance with which the session succeeds.
    pub fn ends_at(self, start: Start) -> u64 {
        let Written {
            length,
            operations,
            ..
        } = self.written();
        let waits = u64::from(start.delays.each).saturating_mul(u64::from(operations));
        u64::from(length)
            .saturating_add(u64::from(start.delays.now))
            .saturating_add(waits)
    }

    fn written(self) -> Written {
        match self {
            Row::AByteIsProgrammed => on_tiny64(ERASED, run(0x100, &[0xA5]), 28, 1),
            Row::ABitRises => on_tiny64(run(0, &[0x00]), run(0, &[0x01]), 30, 2),
            Row::ABitFalls => on_tiny64(run(0, &[0xA5]), run(0, &[0xA4]), 28, 1),
            Row::TwoPagesAreProgrammed => {
                on_tiny64(ERASED, run(0xFE, &[0x11, 0x22, 0x33, 0x44]), 31, 2)
            }
            Row::NineSectorsAreErased => on_tiny64(first(36_864, 0x00), ERASED, 38, 2),
            Row::TheChipIsErased => on_tiny64(first(65_536, 0x00), ERASED, 42, 1),
            Row::TheRestOfASectorStays => the_rest_of_a_sector_stays(),
            Row::AByteBelowTheGuardIsProgrammed => {
                on_w25q64fv(run(0x7D_FFFF, &[0x00]), false, 2057, 1)
            }
            Row::AGuardedByteIsProgrammed => on_w25q64fv(run(0x7E_0000, &[0x00]), true, 2063, 3),
            Row::EachPageIsProgrammed => each_page_is_programmed(),
            Row::ThirtyTwoSectorsAreErased => thirty_two_sectors_are_erased(),
            Row::ABitOf64BytesRises => a_bit_of_64_bytes_rises(),
            Row::AGuardedByteOfASectorIsProgrammed => a_guarded_byte_of_a_sector_is_programmed(),
        }
    }
}

/// Returns a bus to an erased chip. The bus carries out no transaction until `allow` is called.
pub fn erased(
    rt: &impl Abort,
    alloc: Global,
    config: Config,
    status: [u8; 2],
    delays: Delays,
) -> SimBus {
    let bytes = vec![in alloc; 0xFF; config.size as usize].expect(rt, "memory");
    SimBus::new(config, bytes, status, delays).expect(rt, "as many bytes as the chip has")
}

/// Returns the addresses of the region `part` of a layout, or `None` if `layout` is `None`.
pub fn included(rt: &impl Abort, alloc: Global, layout: Option<&[u8]>) -> Option<Ranges> {
    let layout = Layout::read(alloc, layout?).expect(rt, "a layout");
    Some(layout.include("part").expect(rt, "a region"))
}

// 7 transactions identify the chip and 16 scan it, so the vault is sealed after 23.
fn on_tiny64(old: Bytes, image: Bytes, length: u32, operations: u32) -> Written {
    Written {
        chip: Chip::Tiny64,
        status: [0x00, 0x00],
        old,
        image,
        part: None,
        unlock: false,
        sealed: 23,
        length,
        operations,
    }
}

// The scan sends only one transaction, for the only sector with included addresses.
fn the_rest_of_a_sector_stays() -> Written {
    Written {
        part: Some(b"0x800:0x8ff part"),
        sealed: 8,
        ..on_tiny64(first(4096, 0x00), ERASED, 57, 16)
    }
}

fn a_bit_of_64_bytes_rises() -> Written {
    Written {
        part: Some(b"0x0:0xfff part"),
        sealed: 8,
        ..on_tiny64(first(64, 0x00), first(64, 0x01), 15, 2)
    }
}

fn a_guarded_byte_of_a_sector_is_programmed() -> Written {
    Written {
        part: Some(b"0x7e0000:0x7e0fff part"),
        sealed: 5,
        ..on_w25q64fv(run(0x7E_0000, &[0x00]), true, 16, 3)
    }
}

// 4 transactions identify the chip and 2,048 scan it, so the vault is sealed after 2,052.
fn on_w25q64fv(image: Bytes, unlock: bool, length: u32, operations: u32) -> Written {
    Written {
        chip: Chip::W25q64fv,
        status: [0x04, 0x00],
        old: ERASED,
        image,
        part: None,
        unlock,
        sealed: 2052,
        length,
        operations,
    }
}

fn each_page_is_programmed() -> Written {
    // 23 transactions for identification and scan, and three for each operation: 15 erases, and 16 programs for each of
    // 16 sectors. The last sector is read before it is programmed, and all 16 are verified.
    let operations = 15 + 16 * 16;
    let length = 23 + 3 * operations + 1 + 16;
    let old = first(61_440, 0x00);
    let image = first(65_536, 0x5A);
    Written {
        chip: Chip::SectorsAlone,
        ..on_tiny64(old, image, length, operations)
    }
}

// The scan sends 64 transactions, and the verification 32.
fn thirty_two_sectors_are_erased() -> Written {
    let old = Bytes {
        from: 0x8000,
        ..first(131_072, 0x00)
    };
    Written {
        chip: Chip::Large,
        sealed: 71,
        ..on_tiny64(old, ERASED, 112, 3)
    }
}

//! Measures sessions and a restore on a simulated chip of 16 MiB.

use crate::fault::Fault;
use crate::read::Copies;
use crate::timing::{Measurement, Work, compare};
use nor_chip::{Config, Delays, Meter, SimBus};
use nor_driver::{Erase, EraseBlock, erase};
use nor_journal::{Journal, MemVault};
use nor_session::{Request, What, restore, session};
use sha2::{Digest, Sha256};
use std::alloc::Global;
use std::rt::Clock;

const CHIP: usize = 16_777_216;

const WRITE: Request = Request {
    what: What::Write,
    named: None,
    included: None,
    unlock: false,
    verify: true,
};

const WRITING: Measurement = Measurement {
    what: "a whole image written",
    beside: "SHA-256 of its journal",
    at_most: 2.0,
    rounds: 5,
};

const RESTORING: Measurement = Measurement {
    what: "a whole chip restored",
    beside: "SHA-256 of the journal",
    at_most: 2.0,
    rounds: 5,
};

const LOOKING: Measurement = Measurement {
    what: "a session that changes nothing",
    beside: "a copy of the chip",
    at_most: 4.0,
    rounds: 15,
};

const TOUCHING: Measurement = Measurement {
    what: "a session that changes a byte",
    beside: "a copy of the chip",
    at_most: 4.0,
    rounds: 15,
};

/// Prints the times of three sessions and a restore, each divided by the time of a SHA-256 of a journal or of a copy
/// of the chip's contents. The first session and the restore include a chip erase. Returns a checksum of all results.
pub fn measure<R: Clock + Print + AllocGlobal>(rt: &R) -> Result<u64, Fault> {
    let alloc = rt.alloc();
    let image = scattered(alloc)?;
    let mut writing = Writing {
        alloc,
        bus: chip_of(vec![in alloc; 0xFF; CHIP]?)?,
        image: image.to_vec(alloc)?,
    };
    let journal = saved(alloc, &image)?;
    let mut digests = Digests {
        bytes: journal.bytes(),
    };
    let mut sum = compare(rt, WRITING, &mut writing, &mut digests)?;
    let mut restoring = Restoring {
        bus: writing.bus,
        bytes: journal.bytes(),
    };
    sum ^= compare(rt, RESTORING, &mut restoring, &mut digests)?;
    let mut touching = Touching {
        alloc,
        bus: chip_of(image.to_vec(alloc)?)?,
        image: image.to_vec(alloc)?,
        flips: 0x00,
    };
    let mut copies = Copies {
        alloc,
        image: &image,
    };
    sum ^= compare(rt, LOOKING, &mut touching, &mut copies)?;
    touching.flips = 0xFF;
    Ok(sum ^ compare(rt, TOUCHING, &mut touching, &mut copies)?)
}

// Returns pseudo-random contents: the highest byte of each state of a linear congruential generator.
fn scattered(alloc: Global) -> Result<Vec<u8>, Fault> {
    let mut bytes = vec![in alloc; 0; CHIP]?;
    let mut state: u64 = 1;
    for byte in bytes.iter_mut() {
        state = state
            .wrapping_mul(6_364_136_223_846_793_005)
            .wrapping_add(1_442_695_040_888_963_407);
        *byte = state.to_be_bytes()[0];
    }
    Ok(bytes)
}

fn chip_of(bytes: Vec<u8>) -> Result<SimBus, Fault> {
    let idle = Delays { now: 0, each: 0 };
    let mut bus = SimBus::new(Config::w25q128fv(), bytes, [0x00, 0x00], idle)?;
    bus.allow(u64::MAX);
    Ok(bus)
}

fn saved(alloc: Global, bytes: &[u8]) -> Result<MemVault, Fault> {
    let mut bus = chip_of(bytes.to_vec(alloc)?)?;
    let mut image = vec![in alloc; 0; CHIP]?;
    let mut vault = MemVault::new(alloc);
    let request = Request {
        what: What::Erase,
        ..WRITE
    };
    session(&mut bus, &mut vault, image.as_mut_slice(), &request)?;
    Ok(vault)
}

// Writes a copy of the image, because a session may overwrite its image. Returns the number of transactions.
fn write(alloc: Global, bus: &mut SimBus, image: &[u8]) -> Result<u64, Fault> {
    let mut copy = image.to_vec(alloc)?;
    let mut vault = MemVault::new(alloc);
    Ok(session(bus, &mut vault, copy.as_mut_slice(), &WRITE)?.transactions)
}

#[derive(Drop)]
struct Writing {
    alloc: Global,
    bus: SimBus,
    image: Vec<u8>,
}

impl Work for Writing {
    fn run(&mut self) -> Result<u64, Fault> {
        let whole = Erase {
            unit: EraseBlock::Chip,
            sector: 0,
        };
        erase(&mut self.bus, whole)?;
        write(self.alloc, &mut self.bus, &self.image)
    }
}

#[derive(Drop)]
struct Restoring<'a> {
    bus: SimBus,
    bytes: &'a [u8],
}

impl Work for Restoring<'_> {
    fn run(&mut self) -> Result<u64, Fault> {
        let whole = Erase {
            unit: EraseBlock::Chip,
            sector: 0,
        };
        erase(&mut self.bus, whole)?;
        let journal = Journal::read(self.bytes)?;
        Ok(restore(&mut self.bus, &journal)?.transactions)
    }
}

// Inverts the bits `flips` in one byte of the image, and writes the image. With `flips` 0 the session changes nothing.
#[derive(Drop)]
struct Touching {
    alloc: Global,
    bus: SimBus,
    image: Vec<u8>,
    flips: u8,
}

impl Work for Touching {
    fn run(&mut self) -> Result<u64, Fault> {
        if let Some(byte) = self.image.get_mut(CHIP / 2) {
            *byte ^= self.flips;
        }
        write(self.alloc, &mut self.bus, &self.image)
    }
}

#[derive(Drop)]
struct Digests<'a> {
    bytes: &'a [u8],
}

impl Work for Digests<'_> {
    fn run(&mut self) -> Result<u64, Fault> {
        Ok(u64::from(Sha256::digest(self.bytes)[0]))
    }
}

//! Measures reading a whole simulated W25Q128FV out into memory, and verifying this chip against an image.

use crate::fault::Fault;
use crate::timing::{Measurement, Work, compare};
use nor_chip::{Config, Delays, Meter, SimBus};
use nor_journal::MemVault;
use nor_read::{read_out, verify};
use std::alloc::{AllocError, Global};
use std::rt::Clock;

const CHIP: usize = 16777216;

const READING: Measurement = Measurement {
    what: "a chip read out",
    beside: "a copy",
    at_most: 3.0,
    rounds: 31,
};

const VERIFYING: Measurement = Measurement {
    what: "a chip verified",
    beside: "a copy",
    at_most: 3.0,
    rounds: 31,
};

/// Prints the times of reading out and of verifying, each divided by the time of copying 16 MiB into newly
/// allocated memory. Reading out allocates such memory too. Returns a checksum of all results.
pub fn measure<R: Clock + Print + AllocGlobal>(rt: &R) -> Result<u64, Fault> {
    let alloc = rt.alloc();
    let image = bytes(alloc)?;
    let image = image.as_slice();
    let mut bus = open_bus(alloc)?;
    let mut copies = Copies { alloc, image };
    let mut reading = Reading {
        alloc,
        bus: &mut bus,
    };
    let sum = compare(rt, READING, &mut reading, &mut copies)?;
    let mut verifying = Verifying {
        image,
        bus: &mut bus,
    };
    Ok(sum ^ compare(rt, VERIFYING, &mut verifying, &mut copies)?)
}

/// Reads the chip out once and verifies it once, and prints the results.
pub fn answer<R: Print + AllocGlobal>(rt: &R) -> Result<(), Fault> {
    let alloc = rt.alloc();
    let image = bytes(alloc)?;
    let image = image.as_slice();
    let mut bus = open_bus(alloc)?;
    let mut reading = Reading {
        alloc,
        bus: &mut bus,
    };
    let last = reading.run()?;
    let mut verifying = Verifying {
        image,
        bus: &mut bus,
    };
    let sent = verifying.run()?;
    println!(rt; "read: {last:02x}h at the end, verified by {sent} transactions")?;
    Ok(())
}

fn bytes(alloc: Global) -> Result<Vec<u8>, AllocError> {
    vec![in alloc; 0x5A; CHIP]
}

fn open_bus(alloc: Global) -> Result<SimBus, Fault> {
    let delays = Delays { now: 0, each: 0 };
    let mut bus = SimBus::new(Config::w25q128fv(), bytes(alloc)?, [0, 0], delays)?;
    bus.allow(u64::MAX);
    Ok(bus)
}

#[derive(Drop)]
struct Reading<'a> {
    alloc: Global,
    bus: &'a mut SimBus,
}

impl Work for Reading<'_> {
    fn run(&mut self) -> Result<u64, Fault> {
        let mut out = MemVault::new(self.alloc);
        read_out(self.bus, None, None, &mut out)?;
        Ok(u64::from(out.bytes().last().copied().unwrap_or(0)))
    }
}

#[derive(Drop)]
struct Verifying<'a> {
    image: &'a [u8],
    bus: &'a mut SimBus,
}

impl Work for Verifying<'_> {
    fn run(&mut self) -> Result<u64, Fault> {
        Ok(verify(self.bus, self.image, None, None)?.transactions)
    }
}

#[derive(Drop)]
pub struct Copies<'a> {
    pub alloc: Global,
    pub image: &'a [u8],
}

impl Work for Copies<'_> {
    fn run(&mut self) -> Result<u64, Fault> {
        let mut copy = Vec::new(self.alloc);
        copy.extend_from_slice(self.image)?;
        Ok(u64::from(copy.as_slice().last().copied().unwrap_or(0)))
    }
}

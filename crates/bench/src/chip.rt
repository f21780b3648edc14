//! Measures reads, erases and page programs of a simulated W25Q128FV, each over its whole 16 MiB.
ghost use Rattle.std.specs.Prelude.{◌≡◌, IfOk, vec_len};

use crate::fault::Fault;
use crate::timing::{Measurement, Work, compare, look_at};
use nor_chip::{Config, Delays, MOST_SECTORS, Meter, SECTOR_LEN, SimBus};
use nor_driver::{Erase, EraseBlock, erase, program_page, read_sector};
use std::alloc::{AllocError, Global};
use std::rt::Clock;

const CHIP: usize = 16777216;

const PAGES: u32 = 65536;

const SECTOR: usize = SECTOR_LEN as usize;

const READS: Measurement = Measurement {
    what: "reads of a sector",
    beside: "a copy",
    at_most: 2.0,
    rounds: 301,
};

const ERASES: Measurement = Measurement {
    what: "erases of a sector",
    beside: "a copy",
    at_most: 2.0,
    rounds: 301,
};

const PROGRAMS: Measurement = Measurement {
    what: "programs of a page",
    beside: "a copy",
    at_most: 6.0,
    rounds: 301,
};

/// Prints the times of the simulated chip's reads, erases and programs, each divided by the time of copying 16 MiB
/// sector by sector: from a buffer of 16 MiB for the reads, otherwise into one. Returns a checksum of all results.
pub fn measure<R: Clock + Print + AllocGlobal>(rt: &R) -> Result<u64, Fault> {
    let mut bus = open_bus(rt.alloc())?;
    let mut memory = erased_bytes(rt.alloc())?;
    let mut sum = measure_reads(rt, &mut bus, &memory)?;
    let mut copies = CopiesIn {
        memory: &mut memory,
        sector: [0x5A; SECTOR],
    };
    let mut erases = Erases { bus: &mut bus };
    sum ^= compare(rt, ERASES, &mut erases, &mut copies)?;
    let mut programs = Programs { bus: &mut bus };
    sum ^= compare(rt, PROGRAMS, &mut programs, &mut copies)?;
    Ok(sum)
}

/// Programs, erases and reads the whole chip once, and prints the results.
pub fn answer<R: Print + AllocGlobal>(rt: &R) -> Result<(), Fault> {
    let mut bus = open_bus(rt.alloc())?;
    Programs { bus: &mut bus }.run()?;
    let programmed = count(bus.bytes(), 0x5A);
    Erases { bus: &mut bus }.run()?;
    let erased = count(bus.bytes(), 0xFF);
    let mut reads = Reads {
        bus: &mut bus,
        sector: [0; SECTOR],
    };
    let sum = reads.run()?;
    println!(rt;
        "chip: {programmed} bytes programmed, {erased} erased, the reads add up to {sum}"
    )?;
    Ok(())
}

fn count(bytes: &[u8], byte: u8) -> usize {
    bytes.iter().filter(|found| **found == byte).count()
}

fn measure_reads<R: Clock + Print>(rt: &R, bus: &mut SimBus, memory: &[u8]) -> Result<u64, Fault> {
    let mut copies = CopiesOut {
        memory,
        sector: [0; SECTOR],
    };
    let mut reads = Reads {
        bus,
        sector: [0; SECTOR],
    };
    compare(rt, READS, &mut reads, &mut copies)
}

fn erased_bytes(alloc: Global) -> Result<Vec<u8>, AllocError>
    ensures { IfOk result (λ bytes. vec_len bytes ≡ 16777216) }
{
    vec![in alloc; 0xFF; CHIP]
}

fn open_bus(alloc: Global) -> Result<SimBus, Fault> {
    let delays = Delays { now: 0, each: 1 };
    let bytes = erased_bytes(alloc)?;
    let mut bus = SimBus::new(Config::w25q128fv(), bytes, [0, 0], delays)?;
    bus.allow(u64::MAX);
    Ok(bus)
}

#[derive(Drop)]
struct Reads<'a> {
    bus: &'a mut SimBus,
    sector: [u8; SECTOR],
}

impl Work for Reads<'_> {
    fn run(&mut self) -> Result<u64, Fault> {
        let mut sum = 0u64;
        for sector in 0..MOST_SECTORS {
            read_sector(self.bus, sector, &mut self.sector)?;
            sum = look_at(&self.sector, sum);
        }
        Ok(sum)
    }
}

#[derive(Drop)]
struct Erases<'a> {
    bus: &'a mut SimBus,
}

impl Work for Erases<'_> {
    fn run(&mut self) -> Result<u64, Fault> {
        for sector in 0..MOST_SECTORS {
            let unit = EraseBlock::Sector;
            let sector = sector as u16;
            erase(self.bus, Erase { unit, sector })?;
        }
        Ok(u64::from(self.bus.bytes()[0]))
    }
}

#[derive(Drop)]
struct Programs<'a> {
    bus: &'a mut SimBus,
}

impl Work for Programs<'_> {
    fn run(&mut self) -> Result<u64, Fault> {
        for page in 0..PAGES {
            program_page(self.bus, 256 * page, &[0x5A; 256])?;
        }
        Ok(u64::from(self.bus.bytes()[0]))
    }
}

#[derive(Drop)]
struct CopiesOut<'a> {
    memory: &'a [u8],
    sector: [u8; SECTOR],
}

impl Work for CopiesOut<'_> {
    fn run(&mut self) -> Result<u64, Fault> {
        let mut sum = 0u64;
        for sector in self.memory.as_chunks::<{ SECTOR }>().0 {
            self.sector.copy_from_slice(sector);
            sum = look_at(&self.sector, sum);
        }
        Ok(sum)
    }
}

#[derive(Drop)]
struct CopiesIn<'a> {
    memory: &'a mut [u8],
    sector: [u8; SECTOR],
}

impl Work for CopiesIn<'_> {
    fn run(&mut self) -> Result<u64, Fault> {
        for sector in self.memory.as_chunks_mut::<{ SECTOR }>().0 {
            sector.copy_from_slice(&self.sector);
        }
        Ok(self.memory.first().map_or(0, |byte| u64::from(*byte)))
    }
}

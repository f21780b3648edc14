//! Measures writing and reading a journal of all sectors of a 16 MiB chip.

ghost use Rattle.std.specs.Prelude.{◌≡◌, true, OnOk};
ghost use Rattle.nor_journal.specs.Vault.{IsFresh};

use crate::fault::Fault;
use crate::timing::{Measurement, Work, compare};
use nor_chip::{MOST_SECTORS, SECTOR_LEN};
use nor_journal::{Journal, MemVault, Vault, VaultFault, Writer};
use sha2::{Digest, Sha256};
use std::alloc::Global;
use std::rt::Clock;

const CHIP: u32 = 16777216;

const WRITING: Measurement = Measurement {
    what: "a journal written",
    beside: "SHA-256",
    at_most: 1.4,
    rounds: 15,
};

const READING: Measurement = Measurement {
    what: "a journal read",
    beside: "SHA-256",
    at_most: 1.2,
    rounds: 15,
};

/// Prints the times of writing and of reading the journal, each divided by the time of its SHA-256. Returns a
/// checksum of all results.
pub fn measure<R: Clock + Print + AllocGlobal>(rt: &R) -> Result<u64, Fault> {
    let alloc = rt.alloc();
    let mut vault = MemVault::new(alloc);
    write(&mut vault)?;
    let bytes = vault.bytes();
    let mut digests = Digests { bytes };
    let mut writing = Writing { alloc };
    let sum = compare(rt, WRITING, &mut writing, &mut digests)?;
    Ok(sum ^ compare(rt, READING, &mut Reading { bytes }, &mut digests)?)
}

/// Writes the journal once and reads it once, and prints the number of its sectors.
pub fn answer<R: Print + AllocGlobal>(rt: &R) -> Result<(), Fault> {
    let mut vault = MemVault::new(rt.alloc());
    write(&mut vault)?;
    let bytes = vault.bytes();
    let count = Reading { bytes }.run()?;
    println!(rt; "journal: {count} sectors")?;
    Ok(())
}

fn write<V: Vault>(vault: &mut V) -> Result<(), VaultFault>
    requires { IsFresh (V.state vault.old) }
    ensures { OnOk result ((V.state vault.new).sealed ≡ true) }
{
    let sector = [0x5A; SECTOR_LEN as usize];
    let mut writer = Writer::start(vault, [0xEF, 0x40, 0x18], [0; 8], [0, 0], CHIP)?;
    for number in 0..MOST_SECTORS {
        writer.add(number, &sector)?;
    }
    writer.end()
}

#[derive(Drop)]
struct Writing {
    alloc: Global,
}

impl Work for Writing {
    fn run(&mut self) -> Result<u64, Fault> {
        let mut vault = MemVault::new(self.alloc);
        write(&mut vault)?;
        Ok(u64::from(vault.bytes().last().copied().unwrap_or(0)))
    }
}

#[derive(Drop)]
struct Reading<'a> {
    bytes: &'a [u8],
}

impl Work for Reading<'_> {
    fn run(&mut self) -> Result<u64, Fault> {
        Ok(Journal::read(self.bytes)?.count() as u64)
    }
}

#[derive(Drop)]
struct Digests<'a> {
    bytes: &'a [u8],
}

impl Work for Digests<'_> {
    fn run(&mut self) -> Result<u64, Fault> {
        Ok(u64::from(Sha256::digest(self.bytes)[0]))
    }
}

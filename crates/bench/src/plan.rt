//! Measures the comparison of two sectors that differ only in the last byte.

use crate::fault::Fault;
use crate::timing::{Measurement, Work, compare, look_at};
use nor_chip::SECTOR_LEN;
use nor_plan::{bounds, differs};
use std::alloc::{AllocError, Global};
use std::rt::Clock;

const PASSES: u32 = 1000;

const DIFFERS: Measurement = Measurement {
    what: "whether a sector differs",
    beside: "a copy",
    at_most: 2.0,
    rounds: 10001,
};

const BOUNDS: Measurement = Measurement {
    what: "bounds of what differs",
    beside: "a copy",
    at_most: 3.0,
    rounds: 10001,
};

/// Prints the times of `differs` and `bounds` (the first and last difference), each divided by the time of copying
/// the same number of sectors. Returns a checksum of all results.
pub fn measure<R: Clock + Print + AllocGlobal>(rt: &R) -> Result<u64, Fault> {
    let mut copies = Copies(Sectors::new(rt.alloc())?);
    let mut work = Differs(Sectors::new(rt.alloc())?);
    let sum = compare(rt, DIFFERS, &mut work, &mut copies)?;
    let mut work = Bounds(Sectors::new(rt.alloc())?);
    Ok(sum ^ compare(rt, BOUNDS, &mut work, &mut copies)?)
}

/// Makes `PASSES` comparisons with `differs` and `PASSES` with `bounds`, and prints the sums of their results.
pub fn answer<R: Print + AllocGlobal>(rt: &R) -> Result<(), Fault> {
    let differ = Differs(Sectors::new(rt.alloc())?).run()?;
    let sum = Bounds(Sectors::new(rt.alloc())?).run()?;
    println!(rt; "plan: {differ} sectors differ, their bounds add up to {sum}")?;
    Ok(())
}

// Three sectors, each in an allocation of its own.
#[derive(Drop)]
struct Sectors {
    old: Box<[u8; SECTOR_LEN as usize]>,
    target: Box<[u8; SECTOR_LEN as usize]>,
    copy: Box<[u8; SECTOR_LEN as usize]>,
}

impl Sectors {
    fn new(alloc: Global) -> Result<Sectors, AllocError> {
        let old = Box::new(alloc, [0xA5; SECTOR_LEN as usize])?;
        let target = Box::new(alloc, [0xA5; SECTOR_LEN as usize])?;
        let copy = Box::new(alloc, [0; SECTOR_LEN as usize])?;
        Ok(Sectors { old, target, copy })
    }

    // Sets the last byte of `target` to another value than in the pass before.
    fn touch(&mut self, pass: u32) {
        self.target[4095] = self.old[4095] ^ ((pass % 255) as u8 + 1);
    }
}

#[derive(Drop)]
struct Differs(Sectors);

impl Work for Differs {
    fn run(&mut self) -> Result<u64, Fault> {
        let mut sum = 0u64;
        for pass in 0..PASSES {
            self.0.touch(pass);
            let Sectors { old, target, .. } = &self.0;
            sum = sum.wrapping_add(u64::from(differs(&**old, &**target)));
        }
        Ok(sum)
    }
}

#[derive(Drop)]
struct Bounds(Sectors);

impl Work for Bounds {
    fn run(&mut self) -> Result<u64, Fault> {
        let mut sum = 0u64;
        for pass in 0..PASSES {
            self.0.touch(pass);
            let Sectors { old, target, .. } = &self.0;
            if let Some((first, last)) = bounds(&**old, &**target) {
                sum = sum.wrapping_add(first as u64).wrapping_add(last as u64);
            }
        }
        Ok(sum)
    }
}

#[derive(Drop)]
struct Copies(Sectors);

impl Work for Copies {
    fn run(&mut self) -> Result<u64, Fault> {
        let mut sum = 0u64;
        for pass in 0..PASSES {
            self.0.touch(pass);
            let Sectors { target, copy, .. } = &mut self.0;
            copy.copy_from_slice(&**target);
            sum = look_at(&**copy, sum);
        }
        Ok(sum)
    }
}

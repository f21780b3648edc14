//! Times a piece of work and its reference in turn, and prints the ratio of the two times.

use crate::fault::Fault;
use nor_chip::SECTOR_LEN;
use std::fmt;
use std::rt::Clock;
use std::time::{Duration, Instant};

pub trait Work {
    /// Does the work once. The compiler can't remove the work, because the result depends on it.
    fn run(&mut self) -> Result<u64, Fault>;
}

/// Returns `sum` plus the byte at position `sum % 4096` of `bytes`, modulo 2^64. The compiler doesn't know the
/// position, so it can't omit the work that makes the other bytes.
pub fn look_at(bytes: &[u8; SECTOR_LEN as usize], sum: u64) -> u64 {
    sum.wrapping_add(u64::from(bytes[(sum % u64::from(SECTOR_LEN)) as usize]))
}

/// A measurement of the work `what` and the reference `beside`, with the greatest acceptable ratio of their times.
#[derive(Clone, Copy)]
pub struct Measurement {
    pub what: &'static str,
    pub beside: &'static str,
    pub at_most: f64,
    /// The number of times that the work is timed, and that the reference is timed.
    pub rounds: u32,
}

/// The shortest time of the work (`work`) and of the reference (`plain`) in a measurement.
#[derive(Clone, Copy)]
struct Outcome {
    measurement: Measurement,
    work: Duration,
    plain: Duration,
}

impl fmt::Display for Outcome {
    fn fmt<W: fmt::Write>(&self, f: &mut fmt::Formatter<W>) -> fmt::Result {
        let Measurement {
            what,
            beside,
            at_most,
            rounds: _,
        } = self.measurement;
        let times = self.work.as_secs_f64() / self.plain.as_secs_f64();
        let mark = if times > at_most {
            ": longer than wanted"
        } else {
            ""
        };
        write!(
            f,
            "{what}: {times:.2} times {beside} (at most {at_most}){mark}"
        )
    }
}

/// Prints the lines for two fixed pairs of times, which the merge gate (`make check`) compares with `stdout`.
pub fn answer<R: Print>(rt: &R) -> Result<(), Fault> {
    let measurement = Measurement {
        what: "timing",
        beside: "a copy",
        at_most: 1.4,
        rounds: 1,
    };
    let plain = Duration::from_millis(100);
    let work = Duration::from_millis(111);
    rt.println(Outcome {
        measurement,
        work,
        plain,
    })?;
    let work = Duration::from_millis(150);
    rt.println(Outcome {
        measurement,
        work,
        plain,
    })?;
    Ok(())
}

/// Times `work` and its reference `plain` in turn, `measurement.rounds` times, so that a slow phase of the machine
/// affects both. Prints the ratio of their shortest times. Returns the sum of their results, modulo 2^64.
pub fn compare<R: Clock + Print, W: Work, P: Work>(
    rt: &R,
    measurement: Measurement,
    work: &mut W,
    plain: &mut P,
) -> Result<u64, Fault> {
    let mut sum = 0;
    let mut outcome = Outcome {
        measurement,
        work: Duration::MAX,
        plain: Duration::MAX,
    };
    for _ in 0..measurement.rounds {
        outcome.plain = outcome.plain.min(time(rt, plain, &mut sum)?);
        outcome.work = outcome.work.min(time(rt, work, &mut sum)?);
    }
    rt.println(outcome)?;
    Ok(sum)
}

fn time<C: Clock, W: Work>(clock: &C, work: &mut W, sum: &mut u64) -> Result<Duration, Fault> {
    let start = Instant::now(clock)?;
    let answer = work.run()?;
    let time = start.elapsed(clock)?;
    *sum = sum.wrapping_add(answer);
    Ok(time)
}

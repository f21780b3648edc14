//! A random differential test of sessions, restores, rehearsals and reading calls on simulated chips. The reference
//! implementation, written from the specification, uses only the table of chips and some types of the engine. `runs.rt`
//! runs the cases of a seed, and `wrongs.rt` checks that the comparisons detect errors.
#![tactic(auto)]

mod cases;
mod checks;
mod chips;
mod contents;
mod damages;
mod dice;
mod errors;
mod fault;
mod guards;
mod high;
mod journals;
mod left;
mod lengths;
mod lies;
mod lines;
mod model;
mod pace;
mod parameters;
mod readings;
mod rehearsals;
mod restores;
mod runs;
mod stops;
mod tally;
mod told;
mod traces;
mod transactions;
mod verdicts;
mod wanted;
mod words;
mod wrongs;

use fault::Fault;
use runs::FailedCase;
use std::process::ExitCode;
use std::{env, io};
use words::Job;

const USAGE: &str = "\
usage: storm SEED[-LAST] COUNT [FIRST]
  runs so many cases of a seed, or of each from SEED to LAST, from case FIRST on
  (0 where it isn't given)
";

fn main(rt: HostRuntime) -> Result<ExitCode, Fault> {
    let words: Vec<String> = env::args(&rt)?.skip(1).collect(rt.alloc())?;
    match Job::of(words.as_slice()) {
        Some(job) => run_all(&rt, job),
        None => {
            rt.eprint(USAGE)?;
            Ok(ExitCode::FAILURE)
        }
    }
}

fn run_all(rt: &HostRuntime, job: Job) -> Result<ExitCode, Fault> {
    wrongs::check(rt.alloc())?;
    let (mut passed, mut failed) = (0_u64, 0_u64);
    for seed in job.seeds.0..job.seeds.1.saturating_add(1) {
        let (agreed, told) = run(rt, job, seed)?;
        passed = passed.saturating_add(agreed);
        failed = failed.saturating_add(told);
    }
    println!(rt; "{passed} passed, {failed} failed")?;
    // A run without a case tests nothing, so it fails.
    if failed == 0 && passed > 0 {
        Ok(ExitCode::SUCCESS)
    } else {
        Ok(ExitCode::FAILURE)
    }
}

// Returns the number of cases that agreed, and 1 if a case failed or the tally isn't sufficient, otherwise 0.
fn run(rt: &HostRuntime, job: Job, seed: u64) -> Result<(u64, u64), Fault> {
    let (tally, failed) = runs::run(rt.alloc(), job, seed);
    eprintln!(rt; "Seed {seed}. {tally}")?;
    if let Some(failed) = &failed {
        let agreed = failed.case.saturating_sub(job.first);
        tell(rt, seed, failed)?;
        return Ok((agreed, 1));
    }
    if !tally.is_sufficient(job.count) {
        println!(rt;
            "Seed {seed}: a kind of case came less than {} times.",
            tally::least(job.count)
        )?;
        return Ok((job.count, 1));
    }
    Ok((job.count, 0))
}

fn tell(rt: &HostRuntime, seed: u64, failed: &FailedCase) -> io::Result<()> {
    let case = failed.case;
    tell_fault(rt, seed, case, &failed.fault)?;
    println!(rt; "Run it again with: storm {seed} 1 {case}")
}

fn tell_fault(rt: &HostRuntime, seed: u64, case: u64, fault: &Fault) -> io::Result<()> {
    match fault {
        Fault::Differs(what) => println!(rt; "Seed {seed}, case {case} differs: {what}."),
        Fault::Sends(call, number) => {
            println!(rt; "Seed {seed}, case {case} differs: transaction {number} of {call}.")
        }
        fault => println!(rt; "Seed {seed}, case {case} can't be run: {fault:?}."),
    }
}

//! Measures parts of this project. A measurement times a piece of work and a simpler reference in the same run, and
//! prints the ratio of the two times, marked if it is greater than acceptable.
#![tactic(auto)]

mod chip;
mod fault;
mod journal;
mod plan;
mod read;
mod session;
mod timing;
mod words;

use fault::Fault;
use std::env;
use std::process::ExitCode;
use words::{Request, request_of};

const USAGE: &str = "\
usage: bench chip | plan | journal | session | read | answers
  chip     reads, erases and page programs of a simulated chip, beside copies
  plan     comparisons of two sectors, beside copies
  journal  a journal of 4,096 sectors, written and read, beside SHA-256
  session  sessions and a restore on a chip of 16 MiB, beside SHA-256 and copies
  read     a chip of 16 MiB, read out and verified, beside copies
  answers  what the work of chip, plan, journal and read comes to, without its time
";

fn main(rt: HostRuntime) -> Result<ExitCode, Fault> {
    let words: Vec<String> = env::args(&rt)?.skip(1).collect(rt.alloc())?;
    let sum = match request_of(words.as_slice()) {
        Request::Usage => {
            rt.print(USAGE)?;
            return Ok(ExitCode::SUCCESS);
        }
        Request::Chip => chip::measure(&rt)?,
        Request::Journal => journal::measure(&rt)?,
        Request::Plan => plan::measure(&rt)?,
        Request::Session => session::measure(&rt)?,
        Request::Read => read::measure(&rt)?,
        Request::Answers => {
            answer(&rt)?;
            return Ok(ExitCode::SUCCESS);
        }
        Request::Unknown => {
            rt.eprint(USAGE)?;
            return Ok(ExitCode::FAILURE);
        }
    };
    println!(rt; "sum of all answers: {sum}")?;
    Ok(ExitCode::SUCCESS)
}

// Prints the results and two sample lines, which the merge gate (`make check`) compares with the file `stdout`.
fn answer<R: Print + AllocGlobal>(rt: &R) -> Result<(), Fault> {
    chip::answer(rt)?;
    plan::answer(rt)?;
    journal::answer(rt)?;
    read::answer(rt)?;
    timing::answer(rt)
}

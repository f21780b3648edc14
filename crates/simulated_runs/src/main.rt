//! `simulated_runs` plays one run of `flashnor-serprog` over a simulated port to a simulated programmer and chip. The
//! run uses the system's files, like the real program, and the chip is in files, too (`chip_files.rt`). `tests/played`
//! compares what such runs do to the chip.
//!
//! The arguments are `TORN FILL` and then those of flashnor-serprog:
//!
//! - TORN: if the port fails in a transaction, the greatest number of bytes of it that are sent, or `-` for none.
//! - FILL: if the port fails, the chip loses its power, and each byte that is being programmed or erased becomes FILL;
//!   or `-` if the chip keeps its power.
//!
//! The exit status is that of the run, or 2 if TORN or FILL is wrong.
#![tactic(auto)]

mod board;
mod chip_files;
mod fault;
mod port;
mod stop;

use board::Simulated;
use board_progress::{Logged, Screen};
use fault::Fault;
use nor_console::line_buffered;
use nor_files::Disk;
use serprog_runs::run_over;
use std::process::ExitCode;
use std::{env, io};
use stop::Stop;

const USAGE: &str = "usage: simulated_runs TORN|- FILL|- ARGUMENT..\n";

fn main(rt: HostRuntime) -> io::Result<ExitCode> {
    let screen = Screen::new();
    let Ok(words) = words_of(&rt) else {
        return Ok(ExitCode::from(2));
    };
    match stop_in(words.as_slice()) {
        Ok(stop) => {
            let words = words.as_slice().get(2..).unwrap_or(&[]);
            Ok(ExitCode::from(run(&rt, &screen, stop, words)))
        }
        Err(_) => {
            rt.eprint(USAGE)?;
            Ok(ExitCode::from(2))
        }
    }
}

fn words_of(rt: &HostRuntime) -> Result<Vec<String>, Fault> {
    let words: Vec<String> = env::args(rt)?.skip(1).collect(rt.alloc())?;
    Ok(words)
}

fn stop_in(words: &[String]) -> Result<Stop, Fault> {
    match words {
        [torn, fill, ..] => Stop::read(torn, fill),
        _ => Err(Fault::Usage),
    }
}

// Plays one run, with the standard streams and the system's files.
fn run<'b>(rt: &'b HostRuntime, screen: &'b Screen, stop: Stop, words: &[String]) -> u8 {
    let mut output = Logged::new(line_buffered(rt.alloc(), rt.stdout()), screen.log());
    let mut errors = Logged::new(line_buffered(rt.alloc(), rt.stderr()), screen.log());
    let mut used = None;
    let mut simulated = Simulated::new(rt, stop);
    run_over(
        rt,
        &mut simulated,
        screen,
        &mut Disk::new(rt),
        &mut used,
        words,
        &mut output,
        &mut errors,
    )
}

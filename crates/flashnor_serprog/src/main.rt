//! `flashnor_serprog` performs the jobs of `flashnor`, except rehearsals, on a SPI NOR chip at a serial programmer
//! (serprog protocol). It uses the same engine, and prints the same error numbers and mostly the same lines. `serprog_runs`
//! has the run, and `serprog_board` the bus to the chip; this crate has the system's serial port.
#![tactic(auto)]

mod port;
mod serial;

use board_progress::{Logged, Screen};
use nor_console::{keep_streams, line_buffered};
use serial::Serprog;
use serprog_runs::{end_without_descriptors, run_words};
use std::env;
use std::process::ExitCode;

fn main(rt: HostRuntime) -> ExitCode {
    let streams = keep_streams(&rt);
    let screen = Screen::new();
    ExitCode::from(run_logged(&rt, &screen, streams.is_ok()))
}

// Runs the program with a log of what it prints. Without descriptors 0, 1 and 2, opens no file and prints a fault.
fn run_logged<'b>(rt: &'b HostRuntime, screen: &'b Screen, has_descriptors: bool) -> u8 {
    let mut output = Logged::new(line_buffered(rt.alloc(), rt.stdout()), screen.log());
    let mut errors = Logged::new(line_buffered(rt.alloc(), rt.stderr()), screen.log());
    let mut used = None;
    if has_descriptors {
        let given = env::args(rt);
        let mut serprog = Serprog::new(rt);
        run_words(
            rt,
            &mut serprog,
            screen,
            given,
            &mut used,
            &mut output,
            &mut errors,
        )
    } else {
        end_without_descriptors(&mut errors)
    }
}

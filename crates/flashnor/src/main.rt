//! `flashnor`, a programmer for SPI NOR flash that can undo its own changes.
//!
//! It identifies, reads, verifies, writes, erases and write-protects emulated chips, whose contents may be in files. A
//! session saves a journal before it changes the chip, and `--restore` restores the original chip from this journal.
//! `run.rt` performs a run, `jobs.rt` performs a job on the chip, and `laws.rt` has a theorem about a change and the
//! restores that follow it. `nor_jobs` and `nor_console` have code that this program shares with `flashnor_serprog`.
#![tactic(auto)]

mod changes;
mod chips;
mod details;
mod existing;
mod holding;
mod jobs;
mod laws;
mod printing;
mod roles;
mod run;
mod streams;
mod tasks;

use nor_console::{Wording, keep_streams, line_buffered};
use printing::ErrorStream;
use run::{end_without_streams, run_words};
use std::env;
use std::io::IsTerminal;
use std::process::ExitCode;

fn main(rt: HostRuntime) -> ExitCode {
    let streams = keep_streams(&rt);
    let mut output = line_buffered(rt.alloc(), rt.stdout());
    let mut errors = ErrorStream {
        wording: wording_for(&rt),
        writer: line_buffered(rt.alloc(), rt.stderr()),
    };
    let status = match &streams {
        Ok(_) => run_words(&rt, env::args(&rt), &mut output, &mut errors),
        Err(_) => end_without_streams(&mut output, &mut errors),
    };
    ExitCode::from(status)
}

// Returns `Explained` if standard error is a terminal, and otherwise `Numbered`, on whose lines scripts rely.
fn wording_for(rt: &HostRuntime) -> Wording {
    if rt.stderr().is_terminal() {
        Wording::Explained
    } else {
        Wording::Numbered
    }
}

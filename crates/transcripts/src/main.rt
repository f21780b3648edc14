//! `transcripts` reads cases from standard input and plays each on a simulated chip. It compares the replies, the
//! trace and the final state of the chip with those that the case states. It prints a line for each case that fails,
//! and how many passed and failed.
//!
//! If a comparison fails, the actual value is in the caller's string `came`, not in the fault, so that a fault owns no
//! memory. The prover must prove at each exit of a function that every value that owns memory is dropped.
#![tactic(auto)]

mod actions;
mod agree;
mod answers;
mod calls;
mod case;
mod digits;
mod fault;
mod guards;
mod setup;
mod word;

use case::{Case, is_blank};
use fault::{Fault, LineFault};
use std::io;
use std::process::ExitCode;

fn main(rt: HostRuntime) -> io::Result<ExitCode> {
    let text = io::read_to_string(rt.alloc(), rt.stdin())?;
    let (passed, failed) = play_all(&rt, &text)?;
    println!(rt; "{passed} passed, {failed} failed")?;
    Ok(if failed == 0 && passed != 0 {
        ExitCode::SUCCESS
    } else {
        ExitCode::FAILURE
    })
}

// Plays the cases of a text. Text before the first case, except blank lines and comments, counts as a failure.
fn play_all(rt: &(impl Print + AllocGlobal), text: &str) -> io::Result<(u64, u64)> {
    let (mut passed, mut failed) = (0_u64, 0_u64);
    let mut number = 1_usize;
    for (count, piece) in text.split("\ncase ").enumerate() {
        if count == 0 {
            failed = u64::from(!is_blank(piece));
        } else if play(rt, Case::of(piece, number))? {
            passed = passed.saturating_add(1);
        } else {
            failed = failed.saturating_add(1);
        }
        number = number.saturating_add(piece.split('\n').count());
    }
    Ok((passed, failed))
}

fn play(rt: &(impl Print + AllocGlobal), case: Case<'_>) -> io::Result<bool> {
    let mut came = String::new(rt.alloc());
    match case.play(rt.alloc(), &mut came) {
        Ok(()) => Ok(true),
        Err(failure) => {
            tell(rt, case.name, failure, &came)?;
            Ok(false)
        }
    }
}

// Prints a failure and, for `Differs`, the actual value `came`. After another fault, `came` may be incomplete.
fn tell(rt: &impl Print, name: &str, failure: LineFault, came: &str) -> io::Result<()> {
    let LineFault { line, fault } = failure;
    let came = match fault {
        Fault::Differs => came,
        _ => "",
    };
    println!(rt; "{name}: line {line}: {}{came}.", fault.text())
}

//! The exit status of a run that has printed results or a fault.
ghost use Rattle.std.specs.Prelude.{◌≡◌, ◌≤◌, IsOk};

use crate::file_hints::reason_hint;
use nor_console::{Fault, SystemReason, lost_output, print_fault};
use std::io;
use std::io::Write;

/// Prints `fault` and returns exit status 1.
pub fn end_badly<E: Write>(errors: &mut E, fault: &Fault<'_>) -> u8
    ensures { result ≡ 1 }
{
    print_fault(errors, fault);
    1
}

/// Returns exit status 0 if `printed` is `Ok`. Otherwise prints file fault 2 and its advice, if any, and returns 1.
pub fn status_of<E: Write>(printed: io::Result<()>, errors: &mut E) -> u8
    ensures few { result ≤ 1 }
    ensures printed { result ≡ 0 → IsOk printed }
    ensures quiet { IsOk printed → E.contents errors.new ≡ E.contents errors.old }
{
    match printed {
        Ok(()) => 0,
        Err(error) => {
            let status = end_badly(errors, &lost_output());
            print_reason(errors, SystemReason::of_making(&error));
            status
        }
    }
}

fn print_reason<E: Write>(errors: &mut E, reason: SystemReason) {
    if !matches!(reason, SystemReason::Other) {
        let _ = writeln!(errors, "{}", reason_hint(reason));
    }
}

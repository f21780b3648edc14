//! The lines that a run of `--wp-enable` or `--wp-disable` prints.
ghost use Rattle.std.specs.Prelude.{◌≡◌, ◌≤◌, ◌++◌, ◌∷◌, [], OnOk};
ghost use Rattle.std.specs.Io.KnownBytes.{Appends};
ghost use Rattle.nor_console.specs.Lines.{line};
ghost use Rattle.nor_console.specs.Printing.{Prints};
ghost use Rattle.board_jobs.specs.StatusLocks.{lock_lines, meaning_lines, registers_line, registers_lines};

use crate::status_lock::LockChange;
use board_files::status_of;
use nor_console::{Answer, print_answer};
use std::io;
use std::io::Write;

/// Prints the lines of a change of SRP0, and returns the exit status, 0 only if all lines were printed.
pub fn end_changed<O: Write, E: Write>(
    output: &mut O,
    errors: &mut E,
    srp0: bool,
    change: &LockChange,
) -> u8
    ensures few { result ≤ 1 }
    ensures printed { result ≡ 0 → Prints (λ text. text ≡ lock_lines srp0 change.now) (O.contents output.old)
        (O.contents output.new) }
{
    status_of(print_change(output, srp0, change), errors)
}

fn print_change<W: Write>(output: &mut W, srp0: bool, change: &LockChange) -> io::Result<()>
    ensures { OnOk result
        (Prints (λ text. text ≡ lock_lines srp0 change.now) (W.contents output.old) (W.contents output.new)) }
{
    print_answer(output, Answer::Found(change.found))?;
    print_lock_lines(output, srp0, change.before, change.after)?;
    output.flush()
}

#[tactic(auto, using(nor_console::proofs::Printed::appends_then))]
fn print_lock_lines<W: Write>(
    output: &mut W,
    srp0: bool,
    before: [u8; 2],
    after: Option<[u8; 2]>,
) -> io::Result<()>
    ensures { OnOk result (Appends (W.contents output.old) (W.contents output.new)
        (registers_lines before after ++ meaning_lines srp0)) }
{
    print_registers(output, before, after)?;
    print_meaning(output, srp0)
}

#[tactic(auto, using(nor_console::proofs::Printed::appends_then))]
fn print_registers<W: Write>(
    output: &mut W,
    before: [u8; 2],
    after: Option<[u8; 2]>,
) -> io::Result<()>
    ensures { OnOk result
        (Appends (W.contents output.old) (W.contents output.new) (registers_lines before after)) }
{
    match after {
        Some(after) => {
            print_status(output, "Status before", before)?;
            print_status(output, "Status now", after)
        }
        None => print_status(output, "Status (unchanged)", before),
    }
}

#[tactic(auto, using(nor_request::proofs::Printed::padded_hex), unfolding(nor_console::specs::Lines::line))]
fn print_status<W: Write>(output: &mut W, label: &str, bytes: [u8; 2]) -> io::Result<()>
    ensures { OnOk result
        (Appends (W.contents output.old) (W.contents output.new) (registers_line label.now bytes)) }
{
    let (one, two) = (bytes[0], bytes[1]);
    writeln!(output, "{label}: 0x{one:02x} 0x{two:02x}")
}

#[tactic(auto, using(nor_console::proofs::Printed::appends_then))]
fn print_meaning<W: Write>(output: &mut W, srp0: bool) -> io::Result<()>
    ensures { OnOk result (Appends (W.contents output.old) (W.contents output.new) (meaning_lines srp0)) }
{
    if srp0 {
        print_text(output, IS_SET)?;
        print_text(output, TO_CLEAR)
    } else {
        print_text(output, IS_CLEAR)?;
        print_text(output, TO_SET)
    }
}

#[tactic(auto, unfolding(nor_console::specs::Lines::line))]
fn print_text<W: Write>(output: &mut W, text: &str) -> io::Result<()>
    ensures { OnOk result (Appends (W.contents output.old) (W.contents output.new) (line (text.now ∷ []))) }
{
    writeln!(output, "{text}")
}

const IS_SET: &str =
    "SRP0 is set: while WP# is low, the status and the protected range can't be changed.";

const TO_CLEAR: &str = "To clear SRP0, connect WP# to the supply, and use --wp-disable.";

const IS_CLEAR: &str =
    "SRP0 is clear: the status can be changed. The protected range is as before.";

const TO_SET: &str =
    "To set SRP0 again, also before a restore from a journal that has it set, use --wp-enable.";

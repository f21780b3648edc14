//! Prints the result and the faults of a run, and chooses the exit status.
ghost use Rattle.std.specs.Prelude.{◌≡◌, ◌↔◌, IsTrue, None, true};
ghost use Rattle.std.specs.Io.KnownBytes.{Appends};
ghost use Rattle.flashnor.specs.Details.{detail_in};
ghost use Rattle.flashnor.specs.Endings.{EndsBadly, EndsWell, HasPrinted, all_written};
ghost use Rattle.flashnor.specs.FaultLines.{line_if_lost, line_of_unwritten, lines_of_unwritten};

use crate::details::{Detail, DetailLine};
use crate::holding::Unwritten;
use crate::streams::Reports;
use nor_console::{
    Answer, Fault, Wording, help_of, lost_output, print_answer, print_help, print_worded,
    write_fault,
};
use std::io::Write;

#[derive(Drop)]
pub struct ErrorStream<E> {
    pub writer: E,
    pub wording: Wording,
}

#[derive(Clone, Copy)]
pub struct Ending {
    /// The exit status: 0 if the answer or the help was printed and `Unwritten` names no file, otherwise 1.
    pub status: u8,
    pub printed: bool,
    /// True if each message was printed: about a fault, about an answer or help that could not be printed, and about
    /// each file that `Unwritten` names.
    pub reported: bool,
}

/// Prints an answer or the help to `output`, or prints a fault to the stream `to` (after `detail` if the wording is
/// `Explained`). Then prints a message for each file that `unwritten` names: to `to` after a fault, otherwise to
/// `errors`. If the answer or the help can't be printed, prints file fault 2 to `errors`, and the status is 1.
#[tactic(auto, using(crate::proofs::Printed::printed_well, crate::proofs::Printed::printed_badly))]
pub fn print_end<O: Write, E: Write>(
    output: &mut O,
    errors: &mut ErrorStream<E>,
    answer: Result<Answer, Fault<'_>>,
    unwritten: Unwritten<'_>,
    to: Reports,
    detail: Detail,
) -> Ending
    ensures { HasPrinted errors.old.wording detail answer.entry unwritten.entry to (O.contents output.old)
        (O.contents output.new) (E.contents errors.old.writer) (E.contents errors.new.writer) result }
{
    let wording = errors.wording;
    let errors = &mut errors.writer;
    match answer {
        Ok(answer) => {
            let printed = print_answer(output, answer).is_ok();
            end_after_answer(errors, printed, unwritten)
        }
        Err(fault) => match help_of(&fault) {
            Some(help) => {
                let printed = print_help(output, help).is_ok();
                end_after_answer(errors, printed, unwritten)
            }
            None => match to {
                Reports::Errors => end_after_fault(errors, &fault, unwritten, wording, detail),
                Reports::Output => end_after_fault(output, &fault, unwritten, wording, detail),
                Reports::Nowhere => Ending {
                    status: 1,
                    printed: false,
                    reported: false,
                },
            },
        },
    }
}

#[tactic(auto, using(crate::proofs::Printed::appends_both, crate::proofs::Printed::appends_detail))]
fn end_after_fault<W: Write>(
    errors: &mut W,
    fault: &Fault<'_>,
    unwritten: Unwritten<'_>,
    wording: Wording,
    detail: Detail,
) -> Ending
    ensures { EndsBadly wording detail fault.now unwritten.entry
        (W.contents errors.old) (W.contents errors.new) result }
{
    let compared = print_detail(errors, wording, detail);
    let first = print_worded(errors, fault, wording);
    let others = print_unwritten(errors, unwritten);
    Ending {
        status: 1,
        printed: false,
        reported: compared && first && others,
    }
}

fn print_detail<W: Write>(errors: &mut W, wording: Wording, detail: Detail) -> bool
    ensures { IsTrue result → Appends (W.contents errors.old) (W.contents errors.new) (detail_in wording detail) }
{
    match wording {
        Wording::Numbered => true,
        Wording::Explained => write!(errors, "{}", DetailLine(detail)).is_ok(),
    }
}

#[tactic(auto, using(nor_console::proofs::Printed::appends_then))]
fn end_after_answer<W: Write>(errors: &mut W, printed: bool, unwritten: Unwritten<'_>) -> Ending
    ensures { EndsWell printed unwritten.entry (W.contents errors.old) (W.contents errors.new) result }
{
    let first = print_lost(errors, printed);
    let others = print_unwritten(errors, unwritten);
    let status = if printed && is_all_written(unwritten) {
        0
    } else {
        1
    };
    Ending {
        status,
        printed,
        reported: first && others,
    }
}

#[tactic(auto, using(crate::proofs::Printed::output_line))]
fn print_lost<W: Write>(errors: &mut W, printed: bool) -> bool
    ensures reported { IsTrue result
        → Appends (W.contents errors.old) (W.contents errors.new) (line_if_lost printed) }
    ensures none { printed ≡ true → W.contents errors.new ≡ W.contents errors.old }
{
    if printed {
        return true;
    }
    print_worded(errors, &lost_output(), Wording::Numbered)
}

fn print_unwritten<W: Write>(errors: &mut W, unwritten: Unwritten<'_>) -> bool
    ensures reported { IsTrue result
        → Appends (W.contents errors.old) (W.contents errors.new) (lines_of_unwritten unwritten.entry) }
    ensures none { unwritten.entry ≡ all_written → W.contents errors.new ≡ W.contents errors.old }
{
    let image = print_unwritten_file(errors, unwritten.image);
    let status = print_unwritten_file(errors, unwritten.status);
    let trace = print_unwritten_file(errors, unwritten.trace);
    let journal = print_unwritten_file(errors, unwritten.journal);
    image && status && trace && journal
}

fn print_unwritten_file<W: Write>(errors: &mut W, name: Option<&str>) -> bool
    ensures reported { IsTrue result
        → Appends (W.contents errors.old) (W.contents errors.new) (line_of_unwritten name.entry) }
    ensures none { name.entry ≡ None → W.contents errors.new ≡ W.contents errors.old }
{
    let Some(name) = name else {
        return true;
    };
    print_worded(errors, &write_fault(name), Wording::Numbered)
}

fn is_all_written(unwritten: Unwritten<'_>) -> bool
    ensures { IsTrue result ↔ (unwritten.entry ≡ all_written) }
{
    unwritten.image.is_none()
        && unwritten.status.is_none()
        && unwritten.trace.is_none()
        && unwritten.journal.is_none()
}

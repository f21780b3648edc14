//! Prints the answer of a job that succeeded.
ghost use Rattle.std.specs.Prelude.{◌≡◌, ◌≤◌, OnOk, Some, false};
ghost use Rattle.std.specs.Io.KnownBytes.{Appends};
ghost use Rattle.nor_console.specs.AnswerLines.{name_line};
ghost use Rattle.nor_console.specs.Printing.{Prints};
ghost use Rattle.nor_console.specs.AnswerLines.{protected_line};
ghost use Rattle.board_jobs.specs.Ending.{AreJobLines, AreLinesBy, AreNameLines};
ghost use Rattle.board_jobs.specs.Further.{further_line, further_of, lock_words, status_bytes_line};
ghost use Rattle.board_jobs.specs.Further.{unverified_line};

use board_files::status_of;
use nor_args::{Change, Operation, Task, Wanted};
use nor_console::{Answer, print_answer};
use nor_probe::ChipName;
use std::io;
use std::io::Write;

/// The line, if any, that follows the lines of an answer.
#[derive(Clone, Copy, Drop)]
pub enum Further {
    Nothing,
    /// After a write or an erase with `-n`: the line says that nothing was verified.
    Unverified,
    /// After `--wp-range`: the line has the range that is protected now.
    Protected { start: u32, len: u32 },
    /// After `--wp-status`: the line has status 1 and status 2, and says whether SRP0 and SRP1 are set.
    Status { bytes: [u8; 2] },
}

// For an empty range, the start is 0, even if another start was given.
fn further_of(task: &Task<'_>, status: [u8; 2]) -> Further
    ensures { result ≡ further_of task.now status }
{
    match task {
        Task::Change(
            Change {
                wanted: Wanted::Range { start, len },
                ..
            },
        ) => Further::Protected {
            start: if *len == 0 { 0 } else { *start },
            len: *len,
        },
        Task::Change(Change { verify: false, .. }) => Further::Unverified,
        Task::WpStatus => Further::Status { bytes: status },
        _ => Further::Nothing,
    }
}

/// Prints an answer, and returns the exit status: 0 only if all lines were printed. `status` has the status bytes as
/// they were last read, for the line of `--wp-status`.
#[tactic(auto, using(crate::proofs::Named::job_lines_printed))]
pub fn end_well<O: Write, E: Write>(
    output: &mut O,
    errors: &mut E,
    answer: Answer,
    operation: &Operation<'_>,
    status: [u8; 2],
) -> u8
    ensures few { result ≤ 1 }
    ensures printed { result ≡ 0
        → Prints (AreJobLines operation.now answer) (O.contents output.old) (O.contents output.new) }
{
    status_of(print_lines(output, answer, operation, status), errors)
}

fn print_lines<O: Write>(
    output: &mut O,
    answer: Answer,
    operation: &Operation<'_>,
    status: [u8; 2],
) -> io::Result<()>
    ensures { OnOk result
        (Prints (AreLinesBy operation.now.is_flash_name (further_of operation.now.task status) answer)
        (O.contents output.old) (O.contents output.new)) }
{
    if operation.is_flash_name {
        print_name(output, answer)
    } else {
        print_followed(output, answer, further_of(&operation.task, status))
    }
}

fn print_followed<O: Write>(output: &mut O, answer: Answer, further: Further) -> io::Result<()>
    ensures { OnOk result
        (Prints (AreLinesBy false further answer) (O.contents output.old) (O.contents output.new)) }
{
    print_answer(output, answer)?;
    print_further(output, further)
}

fn print_further<O: Write>(output: &mut O, further: Further) -> io::Result<()>
    ensures { OnOk result (Appends (O.contents output.old) (O.contents output.new) (further_line further)) }
{
    match further {
        Further::Nothing => Ok(()),
        Further::Unverified => print_unverified(output),
        Further::Protected { start, len } => print_protected(output, start, len),
        Further::Status { bytes } => print_status(output, bytes),
    }
}

#[tactic(auto, using(crate::proofs::Named::name_printed))]
fn print_name<O: Write>(output: &mut O, answer: Answer) -> io::Result<()>
    ensures { OnOk result (Prints (AreNameLines answer) (O.contents output.old) (O.contents output.new)) }
{
    match answer {
        Answer::Found(found) => print_name_line(output, found.name),
        answer => print_answer(output, answer),
    }
}

#[tactic(auto, unfolding(nor_console::specs::Lines::line))]
fn print_name_line<O: Write>(output: &mut O, name: ChipName) -> io::Result<()>
    ensures { OnOk result (Appends (O.contents output.old) (O.contents output.new) (name_line name)) }
{
    let name = name.as_str();
    writeln!(output, "{name}")?;
    output.flush()
}

#[tactic(auto, unfolding(nor_console::specs::Lines::line))]
fn print_unverified<O: Write>(output: &mut O) -> io::Result<()>
    ensures { OnOk result (Appends (O.contents output.old) (O.contents output.new) unverified_line) }
{
    writeln!(output, "Nothing was verified (-n).")?;
    output.flush()
}

#[tactic(auto, using(nor_request::proofs::Printed::padded_hex), unfolding(nor_console::specs::Lines::line))]
fn print_protected<O: Write>(output: &mut O, start: u32, len: u32) -> io::Result<()>
    ensures { OnOk result
        (Appends (O.contents output.old) (O.contents output.new) (protected_line (Some (start, len)))) }
{
    writeln!(output, "Range: 0x{start:06x},0x{len:06x}")?;
    output.flush()
}

#[tactic(auto, using(nor_request::proofs::Printed::padded_hex), unfolding(nor_console::specs::Lines::line))]
fn print_status<O: Write>(output: &mut O, bytes: [u8; 2]) -> io::Result<()>
    ensures { OnOk result (Appends (O.contents output.old) (O.contents output.new) (status_bytes_line bytes)) }
{
    let (one, two) = (bytes[0], bytes[1]);
    let locks = lock_words(bytes);
    writeln!(output, "Status: 0x{one:02x} 0x{two:02x}{locks}")?;
    output.flush()
}

fn lock_words(bytes: [u8; 2]) -> &'static str
    ensures { result.now ≡ lock_words bytes }
{
    match (bytes[0] / 128 == 1, bytes[1] % 2 == 1) {
        (false, false) => "",
        (true, false) => ", SRP0 is set",
        (false, true) => ", SRP1 is set",
        (true, true) => ", SRP0 and SRP1 are set",
    }
}

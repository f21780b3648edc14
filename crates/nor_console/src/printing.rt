//! Prints the lines of a run's answer, the help, the version, or the fault that ended the run.
ghost use Rattle.std.specs.Prelude.{◌≡◌, IsTrue, IsSome, IsNone, OnOk, IfSome, Err, flat_map};
ghost use Rattle.std.specs.Fmt.{with_newline};
ghost use Rattle.std.specs.Io.KnownBytes.{Appends};
ghost use Rattle.nor_probe.specs.Table.{chips};
ghost use Rattle.nor_console.specs.AnswerLines.{AreLines, AreRangeLines, chip_line, chip_lines, counts_line, done_lines, found_line, restored_line, how_it_went, name_line, protected_line, protection_lines, range_line, read_lines, rehearsal_lines, restores_line, size_line, stop_line, verified_lines};
ghost use Rattle.nor_console.specs.FaultLines.{line_of, text_of};
ghost use Rattle.nor_console.specs.Printing.{AsksForVersion, IsAnswered, Prints};

use crate::answers::Answer;
use crate::messages::{Fault, FaultCause, NumberedLine, Wording};
use clap::Error as WordsError;
use clap::error::ErrorKind;
use nor_args::UsageFault;
use nor_model::Offered;
use nor_probe::{ChipName, Found, Part, chips};
use nor_read::Protection;
use nor_session::{Rehearsal, Report};
use std::io::Write;
use std::{fmt, io};

/// Returns the parser's error with the text of the help, if the fault is a request for the help.
pub fn help_of<'a>(fault: &'a Fault<'_>) -> Option<&'a WordsError>
    ensures some { IsSome result → IsAnswered (Err fault.now) }
    ensures none { IsNone result → IsAnswered (Err fault.now) → ⊥ }
{
    match fault {
        Fault::Usage {
            fault: UsageFault::Words(said),
            ..
        } if said.kind() == ErrorKind::DisplayHelp => Some(said),
        _ => None,
    }
}

/// Returns the parser's error with the text of the version, if the fault is a request for the version.
pub fn version_of<'a>(fault: &'a Fault<'_>) -> Option<&'a WordsError>
    ensures some { IsSome result → AsksForVersion fault.now }
    ensures none { IsNone result → AsksForVersion fault.now → ⊥ }
{
    match fault {
        Fault::Usage {
            fault: UsageFault::Words(said),
            ..
        } if said.kind() == ErrorKind::DisplayVersion => Some(said),
        _ => None,
    }
}

/// Prints the parser's help or version and flushes the writer.
pub fn print_help<W: Write>(output: &mut W, help: &WordsError) -> io::Result<()> {
    write!(output, "{help}")?;
    output.flush()
}

/// Prints the lines of an answer and flushes the writer. If this fails, a prefix may have been printed.
pub fn print_answer<W: Write>(output: &mut W, answer: Answer) -> io::Result<()>
    ensures { OnOk result (Prints (AreLines answer) (W.contents output.old) (W.contents output.new)) }
{
    print_lines(output, answer)?;
    output.flush()
}

fn print_lines<W: Write>(output: &mut W, answer: Answer) -> io::Result<()>
    ensures { OnOk result (Prints (AreLines answer) (W.contents output.old) (W.contents output.new)) }
{
    match answer {
        Answer::Chips => print_chips(output),
        Answer::Found(found) => print_found(output, &found),
        Answer::Size(size) => print_size(output, size),
        Answer::Read(report) => print_read(output, &report),
        Answer::Verified(report) => print_verified(output, &report),
        Answer::Done(report) => print_done(output, &report),
        Answer::Rehearsed(rehearsal) => print_rehearsal(output, &rehearsal),
        Answer::Protection(protection) => print_protection(output, &protection),
        Answer::Ranges(ranges) => print_ranges(output, ranges),
    }
}

#[tactic(auto, using(crate::proofs::Printed::appends_then))]
fn print_chips<W: Write>(output: &mut W) -> io::Result<()>
    ensures { OnOk result (Appends (W.contents output.old) (W.contents output.new) chip_lines) }
{
    print_table(output)?;
    print_name(output, ChipName::Sfdp)
}

fn print_table<W: Write>(output: &mut W) -> io::Result<()>
    ensures { OnOk result (Appends (W.contents output.old) (W.contents output.new) (flat_map chip_line chips)) }
{
    for part in chips() {
        print_chip(output, part)?;
    }
    Ok(())
}

#[tactic(auto, unfolding(crate::specs::Lines::line))]
fn print_name<W: Write>(output: &mut W, name: ChipName) -> io::Result<()>
    ensures { OnOk result (Appends (W.contents output.old) (W.contents output.new) (name_line name)) }
{
    let name = name.as_str();
    writeln!(output, "{name}")
}

#[tactic(auto, unfolding(crate::specs::Lines::line))]
fn print_chip<W: Write>(output: &mut W, part: &Part) -> io::Result<()>
    ensures { OnOk result (Appends (W.contents output.old) (W.contents output.new) (chip_line part.now)) }
{
    let (name, id, size) = (part.name.as_str(), Digits(part.id), part.size);
    writeln!(output, "{name} {id} {size}")
}

#[tactic(auto, unfolding(crate::specs::Lines::line))]
fn print_found<W: Write>(output: &mut W, found: &Found) -> io::Result<()>
    ensures { OnOk result (Appends (W.contents output.old) (W.contents output.new) (found_line found.now)) }
{
    let (name, id, size) = (found.name.as_str(), Digits(found.id), found.size);
    writeln!(output, "Found {name} ({id}), {size} bytes.")
}

#[tactic(auto, unfolding(crate::specs::Lines::line))]
fn print_size<W: Write>(output: &mut W, size: u32) -> io::Result<()>
    ensures { OnOk result (Appends (W.contents output.old) (W.contents output.new) (size_line size)) }
{
    writeln!(output, "{size}")
}

#[tactic(auto, using(crate::proofs::Printed::appends_then), unfolding(crate::specs::Lines::line))]
fn print_read<W: Write>(output: &mut W, report: &Report) -> io::Result<()>
    ensures { OnOk result (Appends (W.contents output.old) (W.contents output.new) (read_lines report.now)) }
{
    print_found(output, &report.found)?;
    writeln!(output, "Read {} bytes.", report.found.size)
}

#[tactic(auto, using(crate::proofs::Printed::appends_then), unfolding(crate::specs::Lines::line))]
fn print_verified<W: Write>(output: &mut W, report: &Report) -> io::Result<()>
    ensures { OnOk result (Appends (W.contents output.old) (W.contents output.new) (verified_lines report.now)) }
{
    print_found(output, &report.found)?;
    writeln!(output, "Verified.")
}

#[tactic(auto, using(crate::proofs::Printed::appends_then))]
fn print_done<W: Write>(output: &mut W, report: &Report) -> io::Result<()>
    ensures { OnOk result (Appends (W.contents output.old) (W.contents output.new) (done_lines report.now)) }
{
    print_found(output, &report.found)?;
    print_counts(output, report)
}

#[tactic(auto, unfolding(crate::specs::Lines::line))]
fn print_counts<W: Write>(output: &mut W, report: &Report) -> io::Result<()>
    ensures { OnOk result (Appends (W.contents output.old) (W.contents output.new) (counts_line report.now)) }
{
    writeln!(
        output,
        "Done: touched {}, erases {}, programs {}, transactions {}.",
        report.touched, report.erases, report.programs, report.transactions
    )
}

#[tactic(auto, using(crate::proofs::Printed::appends_then))]
fn print_rehearsal<W: Write>(output: &mut W, rehearsal: &Rehearsal) -> io::Result<()>
    ensures { OnOk result (Appends (W.contents output.old) (W.contents output.new) (rehearsal_lines rehearsal.now)) }
{
    print_stop(output, rehearsal.ended)?;
    print_restores(output, rehearsal.restores)?;
    print_restored(output)
}

#[tactic(auto, unfolding(crate::specs::Lines::line))]
fn print_stop<W: Write>(output: &mut W, ended: bool) -> io::Result<()>
    ensures { OnOk result (Appends (W.contents output.old) (W.contents output.new) (stop_line ended)) }
{
    let how = how_it_went(ended);
    writeln!(output, "Rehearsal: session {how}.")
}

fn how_it_went(ended: bool) -> &'static str
    ensures { result.now ≡ how_it_went ended }
{
    if ended { "ended" } else { "stopped" }
}

#[tactic(auto, unfolding(crate::specs::Lines::line))]
fn print_restores<W: Write>(output: &mut W, restores: u32) -> io::Result<()>
    ensures { OnOk result (Appends (W.contents output.old) (W.contents output.new) (restores_line restores)) }
{
    writeln!(output, "Restores: {restores}.")
}

#[tactic(auto, unfolding(crate::specs::Lines::line))]
fn print_restored<W: Write>(output: &mut W) -> io::Result<()>
    ensures { OnOk result (Appends (W.contents output.old) (W.contents output.new) restored_line) }
{
    writeln!(output, "Chip as before.")
}

#[tactic(auto, using(crate::proofs::Printed::appends_then), unfolding(crate::specs::Lines::line))]
fn print_protection<W: Write>(output: &mut W, protection: &Protection) -> io::Result<()>
    ensures { OnOk result (Appends (W.contents output.old) (W.contents output.new) (protection_lines protection.now)) }
{
    print_range(output, protection.range)?;
    let mode = if protection.locked { "locked" } else { "open" };
    writeln!(output, "Mode: {mode}")
}

#[tactic(auto, using(nor_request::proofs::Printed::padded_hex), unfolding(crate::specs::Lines::line))]
fn print_range<W: Write>(output: &mut W, range: Option<(u32, u32)>) -> io::Result<()>
    ensures { OnOk result (Appends (W.contents output.old) (W.contents output.new) (protected_line range)) }
{
    match range {
        Some((start, len)) => writeln!(output, "Range: 0x{start:06x},0x{len:06x}"),
        None => writeln!(output, "Range: undefined"),
    }
}

fn print_ranges<W: Write>(output: &mut W, ranges: Offered) -> io::Result<()>
    ensures { OnOk result (Prints (AreRangeLines ranges) (W.contents output.old) (W.contents output.new)) }
{
    for range in ranges {
        print_protected(output, range)?;
    }
    Ok(())
}

#[tactic(auto, using(nor_request::proofs::Printed::padded_hex), unfolding(crate::specs::Lines::line))]
fn print_protected<W: Write>(output: &mut W, range: (u32, u32)) -> io::Result<()>
    ensures { OnOk result (Appends (W.contents output.old) (W.contents output.new) (range_line range)) }
{
    let (start, len) = range;
    writeln!(output, "0x{start:06x},0x{len:06x}")
}

/// An ID that is printed as six hexadecimal digits.
#[derive(Drop)]
pub struct Digits(pub [u8; 3]);

impl fmt::Display for Digits {
    ghost use Rattle.std.specs.Prelude.{Some};
    ghost use Rattle.nor_console.specs.Lines.{id_digits};

    ghost output = { λ digits. Some (id_digits digits.0) };

    #[tactic(auto, using(nor_request::proofs::Printed::padded_hex))]
    fn fmt<W: fmt::Write>(&self, f: &mut fmt::Formatter<W>) -> fmt::Result {
        let (maker, kind, capacity) = (self.0[0], self.0[1], self.0[2]);
        write!(f, "{maker:02x}{kind:02x}{capacity:02x}")
    }
}

/// Prints the `Explanation` of a fault and the numbered line. Returns true if no write to `errors` failed.
pub fn print_fault<W: Write>(errors: &mut W, fault: &Fault<'_>) -> bool
    ensures { IsTrue result → IfSome (with_newline (text_of fault.now))
        (Appends (W.contents errors.old) (W.contents errors.new)) }
{
    writeln!(errors, "{fault}").is_ok()
}

/// Prints the text of a fault in this wording and a line feed. Returns true if no write to `errors` failed.
pub fn print_worded<W: Write>(errors: &mut W, fault: &Fault<'_>, wording: Wording) -> bool
    ensures { IsTrue result
        → IfSome (line_of wording fault.now) (Appends (W.contents errors.old) (W.contents errors.new)) }
{
    match wording {
        Wording::Numbered => writeln!(errors, "{}", NumberedLine(&*fault)).is_ok(),
        Wording::Explained => writeln!(errors, "{}{fault}", FaultCause(&*fault)).is_ok(),
    }
}

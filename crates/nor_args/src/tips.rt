//! Rewords errors of `clap`: escapes hidden characters (`is_hidden`), and replaces clap's tip for an unknown argument.
ghost use Rattle.std.specs.Prelude.{◌≡◌, IfOk};
ghost use Rattle.clap.specs.Words.{kind_of};

use crate::escapes::is_hidden;
use clap::error::ErrorKind;
use clap::{Command, Error as WordsError};
use std::alloc::{AllocError, Global};

const BEFORE_UNKNOWN: &str = "error: unexpected argument '";

const AFTER_UNKNOWN: &str = "' found\n\n";

const USAGE: &str = "\n\nUsage: ";

/// The program whose options are parsed.
#[derive(Clone, Copy)]
pub enum Program {
    Flashnor,
    Hardware,
}

/// Returns `error` with the hidden characters of each argument in its text escaped. For an unknown argument, a tip of
/// this crate (or none) replaces clap's tip, which may name an unrelated option, such as `--rehearse` for `--read`.
pub fn reword(
    alloc: Global,
    program: Program,
    options: &mut Command<'_>,
    error: WordsError,
) -> Result<WordsError, AllocError>
    ensures { IfOk result (λ other. kind_of other ≡ kind_of error) }
{
    let text = format!(in alloc; "{error}")?;
    match error.kind() {
        ErrorKind::UnknownArgument => {
            let message = message_of_unknown(alloc, program, &text)?;
            options.error(error.kind(), &message)
        }
        ErrorKind::TooManyValues => match message_of_value(alloc, &text)? {
            Some(message) => options.error(error.kind(), &message),
            None => Ok(error),
        },
        _ => Ok(error),
    }
}

fn message_of_unknown(alloc: Global, program: Program, text: &str) -> Result<String, AllocError> {
    let argument = unknown_in(text);
    let mut message = String::from_str(alloc, "unexpected argument '")?;
    push_escaped(&mut message, argument)?;
    message.push_str("' found")?;
    if let Some(tip) = tip_for(program, argument) {
        message.push_str("\n\n  tip: ")?;
        message.push_str(tip)?;
    }
    Ok(message)
}

// Returns the unknown argument that the text of an error names: the part between `BEFORE_UNKNOWN` and the last
// `AFTER_UNKNOWN`.
fn unknown_in(text: &str) -> &str {
    let rest = text.strip_prefix(BEFORE_UNKNOWN).unwrap_or(text);
    match rest.rsplit_once(AFTER_UNKNOWN) {
        Some((argument, _)) => argument,
        None => rest,
    }
}

fn message_of_value(alloc: Global, text: &str) -> Result<Option<String>, AllocError> {
    let said = match text.rsplit_once(USAGE) {
        Some((said, _)) => said,
        None => text,
    };
    if !said.chars().any(is_hidden) {
        return Ok(None);
    }
    let mut message = String::new(alloc);
    push_escaped(&mut message, said.strip_prefix("error: ").unwrap_or(said))?;
    Ok(Some(message))
}

fn push_escaped(text: &mut String, said: &str) -> Result<(), AllocError> {
    for character in said.chars() {
        if is_hidden(character) {
            let mut buffer = [0; 4];
            for byte in character.encode_utf8(&mut buffer).as_bytes() {
                write!(text, "\\x{byte:02x}")?;
            }
        } else {
            text.push(character)?;
        }
    }
    Ok(())
}

fn tip_for(program: Program, argument: &str) -> Option<&'static str> {
    match program {
        Program::Flashnor => flashnor_tip(argument),
        Program::Hardware => hardware_tip(argument),
    }
}

fn flashnor_tip(argument: &str) -> Option<&'static str> {
    match argument {
        "--help" => Some("-h prints the help"),
        _ => None,
    }
}

// Returns the tip for some arguments that a program for hardware rejects, most of them options of flashrom.
fn hardware_tip(argument: &str) -> Option<&'static str> {
    match argument {
        "-x" | "--extract" => Some(
            "-r FILE with -i NAME:FILE reads regions into files of their own",
        ),
        "-f" | "--force" => Some(
            "no check can be left out; --unlock lifts protection, -n and -N skip comparisons",
        ),
        "-A" => Some(
            "-h lists all options; -N is the one that leaves out the comparison of the whole chip",
        ),
        "--wp-region" => Some("--wp-range START,LENGTH takes the addresses of the region"),
        "--flash-contents" => Some(
            "leave this option out: the chip itself is read before it is written",
        ),
        "--get-size" => Some("--flash-size prints the size of the chip"),
        "--rehearse" => Some("only flashnor can rehearse, on an emulated chip"),
        _ => None,
    }
}

//! The lines that say what is wrong, such as `error: the option -p is missing`.
ghost use Rattle.std.specs.Prelude.{◌≡◌, Some};
ghost use Rattle.nor_console.specs.ReasonLines.{choices_for, flaw_text, line_fault_text};

use crate::escapes::Escaped;
use nor_args::{Flaw, Reason, split_setting};
use nor_journal::JournalFault;
use nor_layout::{LayoutFault, LineFault};
use nor_session::Refusal;
use std::fmt;

/// The line with the reason of a usage fault, or no text if there is no reason.
#[derive(Drop)]
pub struct ReasonLine<'a>(pub Reason<'a>);

impl fmt::Display for ReasonLine<'_> {
    ghost use Rattle.nor_console.specs.ReasonLines.{reason_line};

    ghost output = { λ shown. Some (reason_line shown.0) };

    fn fmt<W: fmt::Write>(&self, f: &mut fmt::Formatter<W>) -> fmt::Result {
        match self.0 {
            Reason::Unsaid => Ok(()),
            Reason::NoProgrammer => f.write_str("error: the option -p is missing\n"),
            Reason::NoPrefix => f.write_str(
                "error: the value of -p does not begin with 'dummy:'\n",
            ),
            Reason::Setting { setting, flaw } => {
                let (wrong, choices) = (text_of_flaw(flaw), choices_for(setting, flaw));
                let setting = Escaped(setting);
                writeln!(f, "error: {wrong} in -p: '{setting}'{choices}")
            }
            Reason::NoChip => f.write_str(
                "error: the value of -p lacks emulate=; give W25Q64FV, W25Q128FV or TINY64\n",
            ),
            Reason::Operations { first, last } => {
                let (first, last) = (first.as_str(), last.as_str());
                writeln!(f, "error: {first} and {last} cannot be used together")
            }
            Reason::Range(value) => {
                let value = Escaped(value);
                writeln!(
                    f,
                    "error: invalid value of --wp-range: '{value}'; give START,LENGTH, each decimal or 0x.."
                )
            }
            Reason::Progress(value) => {
                let value = Escaped(value);
                writeln!(
                    f,
                    "error: invalid value of --progress: '{value}'; give auto, plain or none"
                )
            }
            Reason::Dash(option) => {
                let option = option.as_str();
                writeln!(
                    f,
                    "error: '-' is no file for {option}; for a file with this name give ./-"
                )
            }
            Reason::NoJournal(option) => {
                writeln!(f, "error: {} needs --journal", option.as_str())
            }
            Reason::JournalAndRehearse => {
                f.write_str("error: --journal and --rehearse cannot be used together\n")
            }
            Reason::NoChange(option) => {
                writeln!(f, "error: {} needs -w, -E or --wp-range", option.as_str())
            }
            Reason::NoNames(option) => writeln!(f, "error: {} needs -i", option.as_str()),
            Reason::NoLayout => f.write_str("error: -i needs -l\n"),
            Reason::NoRegions(option) => {
                let option = option.as_str();
                writeln!(f, "error: {option} and -i need -r, -v, -w or -E")
            }
            Reason::NoContent(option) => writeln!(f, "error: {} needs -w or -E", option.as_str()),
            Reason::NoComparison => f.write_str("error: -N needs -w, -E or --restore\n"),
            Reason::NoRestore(option) => writeln!(f, "error: {} needs --restore", option.as_str()),
            Reason::NoCheck => f.write_str("error: --extract-image needs --check-journal\n"),
            Reason::Stop(part) => {
                let part = Escaped(part);
                writeln!(f, "error: invalid number in --rehearse: '{part}'")
            }
            Reason::ManyStops => f.write_str("error: more than 64 numbers in --rehearse\n"),
            Reason::StopAndRehearse => {
                f.write_str("error: --rehearse and stop= cannot be used together\n")
            }
        }
    }
}

pub fn text_of_flaw(flaw: Flaw) -> &'static str
    ensures { result.now ≡ flaw_text flaw }
{
    match flaw {
        Flaw::Key => "unknown key",
        Flaw::Value => "invalid value",
        Flaw::Twice => "repeated key",
    }
}

fn choices_for(setting: &str, flaw: Flaw) -> &'static str
    ensures { result.now ≡ choices_for setting.now flaw }
{
    let (key, _) = split_setting(setting);
    match flaw {
        Flaw::Key => "; the keys are emulate, image, status, stop, trace, unique, busy and power",
        Flaw::Value if key == "emulate" => "; give W25Q64FV, W25Q128FV or TINY64",
        Flaw::Value => "",
        Flaw::Twice => "",
    }
}

/// The line that says what is wrong with a layout, or no text if memory ran out.
#[derive(Drop)]
pub struct LayoutLine(pub LayoutFault);

impl fmt::Display for LayoutLine {
    ghost use Rattle.nor_console.specs.ReasonLines.{layout_line};

    ghost output = { λ shown. Some (layout_line shown.0) };

    fn fmt<W: fmt::Write>(&self, f: &mut fmt::Formatter<W>) -> fmt::Result {
        match self.0 {
            LayoutFault::InLine { fault, .. } => writeln!(f, "error: {}", text_of_line(fault)),
            LayoutFault::TooMany => f.write_str("error: the layout has more than 64 regions\n"),
            LayoutFault::Memory => Ok(()),
            LayoutFault::NoRegion => f.write_str("error: a name of -i is no region\n"),
        }
    }
}

fn text_of_line(fault: LineFault) -> &'static str
    ensures { result.now ≡ line_fault_text fault }
{
    match fault {
        LineFault::Line => "there is no colon, or no space (a TAB is none) between END and NAME",
        LineFault::Address => "an address is not 1 to 8 hexadecimal digits, without blanks",
        LineFault::Backwards => "the end is below the start",
        LineFault::Name =>
            "the name is not 1 to 32 visible ASCII characters (a CR is none) other than , and :",
        LineFault::Twice => "an earlier line has this name",
    }
}

pub const NO_JOURNAL: &str = "error: the file is no journal, or is damaged\n";

/// The line that says what is wrong with an invalid journal, or no text for any other error.
#[derive(Drop)]
pub struct JournalLine<'a>(pub &'a Refusal);

impl fmt::Display for JournalLine<'_> {
    ghost use Rattle.nor_console.specs.ReasonLines.{journal_line};

    ghost output = { λ shown. Some (journal_line shown.0.now) };

    fn fmt<W: fmt::Write>(&self, f: &mut fmt::Formatter<W>) -> fmt::Result {
        match self.0 {
            Refusal::BadJournal(JournalFault::Short) => {
                f.write_str("error: the journal was never sealed, or was cut off later\n")
            }
            Refusal::BadJournal(JournalFault::Magic) => f.write_str(NO_JOURNAL),
            Refusal::BadJournal(_) => f.write_str("error: the journal is damaged\n"),
            _ => Ok(()),
        }
    }
}

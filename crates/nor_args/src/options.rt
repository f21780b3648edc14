//! The options of flashnor and of programs for hardware, as `clap` parses them and as the help shows them.
ghost use Rattle.std.specs.Prelude.{◌≡◌, IfOk, fold, map};
ghost use Rattle.clap.specs.Words.{app_of};
ghost use Rattle.nor_args.specs.Options.{options, no_options_of, help_rule, most_rules, IsOption};
ghost use Rattle.nor_args.specs.Options.{hardware_help_rule, hardware_options, no_hardware_options_of, version_rule};
ghost use Rattle.nor_args.specs.Options.{chosen, is_for_hardware, named};
ghost use Rattle.nor_args.specs.Options.{with_choice, with_hardware_choice};

use crate::options::hardware::hardware_choices;
use clap::{Arg, ArgAction, Command};
use std::alloc::{AllocError, Global};

mod hardware;

const FLASHNOR: Help = Help {
    program: "flashnor",
    version: "1.0",
    about: "flashnor 1.0: programs emulated SPI NOR flash, and can restore what it changed.",
    notes: NOTES,
};

// The end of the help, below the options. Its lines have at most 80 columns.
const NOTES: &str = "\
TEXT of -p is dummy: and then KEY=VALUE, between commas, each key at most once:
  emulate=NAME  A chip that -L lists by ID, or TINY64 (64 KiB, known by its SFDP
                alone: its name for -c is SFDP)
  image=FILE    The file of its bytes; without one the chip is erased
  status=FILE   The file of its two status bytes; without one both are 00
  stop=N        Stop after N transactions; not with --rehearse
  trace=FILE    Write a line for each transaction into this file
  unique=HEX    The chip's unique ID, 16 hexadecimal digits; else all are 0
  busy=N        How many polls show BUSY after each operation, 0 to 65535
  power=HH      A stop cuts the power: the page or block in progress becomes HH

A journal contains the original bytes of each sector that a change modifies,
and the status bytes. --restore needs it.

A rehearsal changes no file but the trace. The first number of --rehearse stops
the change after that many transactions, the second stops the restore that
follows, the third the next restore, and so on. The last restore isn't stopped,
and the chip is then as it was before.

Examples: write an image and keep a journal; restore the old content; rehearse
the write, stopped after 2060 transactions, and its restore, stopped after 9:
  flashnor -p dummy:emulate=W25Q64FV,image=chip.bin -w new.bin --journal j
  flashnor -p dummy:emulate=W25Q64FV,image=chip.bin --restore j
  flashnor -p dummy:emulate=W25Q64FV,image=chip.bin -w new.bin --rehearse 2060,9

Usage fault 1: an argument is not an option, or an option lacks its value
Usage fault 2: there is no -p, which all but -L need
Usage fault 3: the text of -p isn't dummy: with known keys, emulate= among them
Usage fault 4: there is more than one operation
Usage fault 5: --wp-range needs two numbers, decimal or 0x..
Usage fault 6: -w, -E, --wp-range need exactly one of --journal, --rehearse
Usage fault 7: -l and -i need each other, and one of -r, -w, -v, -E
Usage fault 8: -n and --unlock need -w or -E
Usage fault 9: --rehearse needs 1 to 64 numbers, without stop=
Usage fault 10: out of memory

File fault 1: the file can't be read
File fault 2: it can't be created, written or synced
File fault 3: it has a wrong length
File fault 4: it exists (--journal), or is a journal
File fault 5: it has two roles, or another run has locked it

Layout fault 1: there is no colon, or no space between END and NAME
Layout fault 2: an address isn't 1 to 8 hexadecimal digits
Layout fault 3: the end is below the start
Layout fault 4: the name isn't 1 to 32 visible ASCII characters
Layout fault 5: an earlier line has this name
Layout fault 6: there are more than 64 regions
Layout fault 7: out of memory
Layout fault 8: a name of -i is no region

Error 15: journal fault 1: the journal ends too early
Error 15: journal fault 2: the file doesn't begin as a journal does
Error 15: journal fault 3: no chip has this size
Error 15: journal fault 4: the chip has no sector of this number
Error 15: journal fault 5: the sector number isn't above the one before it
Error 15: journal fault 6: bytes follow the digest
Error 15: journal fault 7: the digest differs: the file is damaged

The manual page, flashnor(8), says what to do about each fault.";

// An option, and its line in the help.
struct Choice {
    letter: Option<char>,
    // The ID for `clap`, and (except for `-L`) the long name. In flashnor, an option with a letter has no long name.
    name: &'static str,
    // The placeholder of the option's value in the help; a flag has none.
    value: Option<&'static str>,
    help: &'static str,
}

static CHOICES: [Choice; 18] = [
    Choice {
        letter: Some('p'),
        name: "programmer",
        value: Some("TEXT"),
        help: "The programmer and its chip, see below",
    },
    Choice {
        letter: Some('c'),
        name: "chip",
        value: Some("NAME"),
        help: "The chip must have this name",
    },
    Choice {
        letter: Some('L'),
        name: "list",
        value: None,
        help: "List the chips that are known",
    },
    Choice {
        letter: None,
        name: "flash-size",
        value: None,
        help: "Print the size of the chip in bytes",
    },
    Choice {
        letter: None,
        name: "wp-status",
        value: None,
        help: "Print the protected range, and whether it is locked",
    },
    Choice {
        letter: None,
        name: "wp-list",
        value: None,
        help: "List the ranges that can be protected",
    },
    Choice {
        letter: Some('r'),
        name: "read",
        value: Some("FILE"),
        help: "Read the chip into the file",
    },
    Choice {
        letter: Some('v'),
        name: "verify",
        value: Some("FILE"),
        help: "Compare the chip with the image in the file",
    },
    Choice {
        letter: Some('w'),
        name: "write",
        value: Some("FILE"),
        help: "Write the image in the file",
    },
    Choice {
        letter: Some('E'),
        name: "erase",
        value: None,
        help: "Erase the chip",
    },
    Choice {
        letter: None,
        name: "wp-range",
        value: Some("S,L"),
        help: "Protect L bytes from S on, no others; decimal or 0x..",
    },
    Choice {
        letter: None,
        name: "restore",
        value: Some("FILE"),
        help: "Restore the chip from a journal",
    },
    Choice {
        letter: None,
        name: "journal",
        value: Some("FILE"),
        help: "A new file for the journal; with -w, -E, --wp-range",
    },
    Choice {
        letter: None,
        name: "rehearse",
        value: Some("N,N,.."),
        help: "Instead of --journal: try it in memory, see below",
    },
    Choice {
        letter: Some('l'),
        name: "layout",
        value: Some("FILE"),
        help: "The layout of regions; with -i, and -r, -w, -v or -E",
    },
    Choice {
        letter: Some('i'),
        name: "include",
        value: Some("NAMES"),
        help: "The regions to include, separated by commas; with -l",
    },
    Choice {
        letter: Some('n'),
        name: "noverify",
        value: None,
        help: "Do not verify what was written; with -w or -E",
    },
    Choice {
        letter: None,
        name: "unlock",
        value: None,
        help: "Lift protection, and restore it; with -w or -E",
    },
];

/// Returns the `clap` command for flashnor's arguments without the program's name. Fails only if memory runs out.
pub fn make_options<'a>(alloc: Global) -> Result<Command<'a>, AllocError>
    ensures { IfOk result (λ command. app_of command ≡ options) }
{
    let chosen = add_choices(alloc, new_command(alloc, FLASHNOR), choices())?;
    chosen.arg(help_option(alloc))
}

/// The name and the version of a program, and the texts above (`about`) and below (`notes`) the options in its help.
#[derive(Clone, Copy)]
pub struct Help {
    pub program: &'static str,
    /// The version, which `--version` of a program for hardware prints after the name.
    pub version: &'static str,
    pub about: &'static str,
    pub notes: &'static str,
}

/// Returns the `clap` command of a program for hardware: flashnor's options except `--rehearse`, the further options in
/// `HARDWARE_CHOICES`, and `-R`. Each option has a long name, as in flashrom. Fails only if memory runs out.
pub fn make_hardware_options<'a>(alloc: Global, help: Help) -> Result<Command<'a>, AllocError>
    ensures { IfOk result (λ command. app_of command ≡ hardware_options help.program.now) }
{
    let shared = add_hardware_choices(alloc, new_hardware_command(alloc, help), choices())?;
    let chosen = add_hardware_choices(alloc, shared, hardware_choices())?;
    let versioned = chosen.arg(version_option(alloc))?;
    versioned.arg(hardware_help_option(alloc))
}

fn add_hardware_choices<'a>(
    alloc: Global,
    command: Command<'a>,
    choices: &[Choice],
) -> Result<Command<'a>, AllocError>
    ensures { IfOk result (λ longer. app_of longer ≡ fold with_hardware_choice (app_of command.entry) choices.now) }
{
    let mut longer = command;
    for choice in choices {
        if is_for_hardware(choice.name) {
            longer = longer.arg(choice.hardware_option(alloc)?)?;
        }
    }
    Ok(longer)
}

fn is_for_hardware(name: &str) -> bool
    ensures { result ≡ is_for_hardware name.now }
{
    name != "rehearse"
}

fn new_command<'a>(alloc: Global, help: Help) -> Command<'a>
    ensures { app_of result ≡ no_options_of help.program.now }
{
    Command::new(alloc, help.program)
        .no_binary_name(true)
        .disable_help_flag(true)
        .about(help.about)
        .after_help(help.notes)
}

fn new_hardware_command<'a>(alloc: Global, help: Help) -> Command<'a>
    ensures { app_of result ≡ no_hardware_options_of help.program.now }
{
    new_command(alloc, help)
        .version(help.version)
        .disable_version_flag(true)
}

fn choices() -> &'static [Choice; 18]
    ensures { map chosen result.now ≡ most_rules }
{
    &CHOICES
}

fn add_choices<'a>(
    alloc: Global,
    command: Command<'a>,
    choices: &[Choice],
) -> Result<Command<'a>, AllocError>
    ensures { IfOk result (λ longer. app_of longer ≡ fold with_choice (app_of command.entry) choices.now) }
{
    let mut longer = command;
    for choice in choices {
        longer = longer.arg(choice.option(alloc))?;
    }
    Ok(longer)
}

impl Choice {
    fn option<'a>(&self, alloc: Global) -> Arg<'a>
        ensures { IsOption (chosen self.now) result }
    {
        let named = self.named(alloc);
        match self.value {
            Some(value) => named.value_name(value).action(ArgAction::Set),
            None => named.action(ArgAction::SetTrue),
        }
    }

    fn named<'a>(&self, alloc: Global) -> Arg<'a>
        ensures { IsOption (named self.now) result }
    {
        let arg = Arg::new(alloc, self.name).help(self.help);
        match self.letter {
            Some(letter) => arg.short(letter),
            None => arg.long(self.name),
        }
    }
}

// The option's ID can't be `version`, because that is the ID of `clap`'s own version option.
fn version_option<'a>(alloc: Global) -> Arg<'a>
    ensures { IsOption version_rule result }
{
    Arg::new(alloc, "release")
        .short('R')
        .long("version")
        .help("Print the name and the version of the program")
        .action(ArgAction::Version)
}

fn hardware_help_option<'a>(alloc: Global) -> Arg<'a>
    ensures { IsOption hardware_help_rule result }
{
    Arg::new(alloc, "usage")
        .short('h')
        .long("help")
        .help("Print this help")
        .action(ArgAction::HelpShort)
}

fn help_option<'a>(alloc: Global) -> Arg<'a>
    ensures { IsOption help_rule result }
{
    Arg::new(alloc, "usage")
        .short('h')
        .help("Print this help")
        .action(ArgAction::HelpShort)
}

//! The options, except `-R`, of programs for hardware (such as flashnor-serprog) that flashnor doesn't have.
ghost use Rattle.std.specs.Prelude.{◌≡◌, IfOk, map};
ghost use Rattle.nor_args.specs.Options.{IsOption, by_name, chosen, hardware_form, long_form, own_rules};
ghost use Rattle.nor_args.specs.Options.{repeated_names};

use crate::options::Choice;
use clap::{Arg, ArgAction};
use std::alloc::{AllocError, Global};

static HARDWARE_CHOICES: [Choice; 16] = [
    Choice {
        letter: None,
        name: "backup",
        value: Some("FILE"),
        help: "Save the whole chip in a new journal, for --restore",
    },
    Choice {
        letter: Some('N'),
        name: "noverify-all",
        value: None,
        help: "Do not compare the rest of the chip, see below",
    },
    Choice {
        letter: None,
        name: "quick",
        value: None,
        help: "Rewrite only sectors that differ; with --restore",
    },
    Choice {
        letter: None,
        name: "replaced-chip",
        value: None,
        help: "Restore a backup on a new chip; with --restore",
    },
    Choice {
        letter: None,
        name: "flash-name",
        value: None,
        help: "Print the name of the chip",
    },
    Choice {
        letter: None,
        name: "check-journal",
        value: Some("FILE"),
        help: "Describe a journal; needs no programmer",
    },
    Choice {
        letter: None,
        name: "extract-image",
        value: Some("FILE"),
        help: "Write the image of a backup; with --check-journal",
    },
    Choice {
        letter: None,
        name: "wp-enable",
        value: None,
        help: "Set SRP0: the status is locked while WP# is low",
    },
    Choice {
        letter: None,
        name: "wp-disable",
        value: None,
        help: "Clear SRP0: the status can be changed",
    },
    Choice {
        letter: None,
        name: "fmap-file",
        value: Some("FILE"),
        help: "In place of -l: the regions of the FMAP in this image",
    },
    Choice {
        letter: None,
        name: "ifd-file",
        value: Some("FILE"),
        help: "In place of -l: those of its Intel flash descriptor",
    },
    Choice {
        letter: None,
        name: "fmap",
        value: None,
        help: "In place of -l: the regions of the FMAP on the chip",
    },
    Choice {
        letter: None,
        name: "ifd",
        value: None,
        help: "In place of -l: those of the chip's flash descriptor",
    },
    Choice {
        letter: None,
        name: "progress",
        value: Some("MODE"),
        help: "How to show progress: auto (default), plain, none",
    },
    Choice {
        letter: Some('V'),
        name: "verbose",
        value: None,
        help: "Print each step and each modifying command",
    },
    Choice {
        letter: Some('o'),
        name: "output",
        value: Some("FILE"),
        help: "Write a log: all printed lines, and those of -V",
    },
];

pub(super) fn hardware_choices() -> &'static [Choice; 16]
    ensures { map chosen result.now ≡ own_rules }
{
    &HARDWARE_CHOICES
}

impl Choice {
    fn hardware_help(&self) -> &'static str {
        if self.name == "include" {
            "The regions to include, separated by commas; with a layout"
        } else {
            self.help
        }
    }

    // `-V` and `-i` may be repeated, and `--image` means `-i`, as in flashrom.
    pub(super) fn hardware_option<'a>(&self, alloc: Global) -> Result<Arg<'a>, AllocError>
        ensures { IfOk result (IsOption (hardware_form (chosen self.now))) }
    {
        if self.name == "include" {
            self.repeated_names(alloc)
        } else if self.name == "verbose" {
            Ok(self.named_in_full(alloc).action(ArgAction::Count))
        } else {
            Ok(self.long_option(alloc))
        }
    }

    fn repeated_names<'a>(&self, alloc: Global) -> Result<Arg<'a>, AllocError>
        ensures { IfOk result (IsOption (repeated_names (chosen self.now))) }
    {
        self.named_in_full(alloc)
            .action(ArgAction::Append)
            .alias("image")
    }

    // The long name of `-L` is `--list-supported`, as in flashrom. `--progress` without a mode means `auto`.
    fn long_option<'a>(&self, alloc: Global) -> Arg<'a>
        ensures { IsOption (long_form (chosen self.now)) result }
    {
        let option = self.named_in_full(alloc);
        if self.name == "progress" {
            option.num_args(0..=1).default_missing_value("auto")
        } else if self.name == "list" {
            option.long("list-supported")
        } else {
            option
        }
    }

    fn named_in_full<'a>(&self, alloc: Global) -> Arg<'a>
        ensures { IsOption (by_name (chosen self.now)) result }
    {
        self.option(alloc)
            .long(self.name)
            .help(self.hardware_help())
    }
}

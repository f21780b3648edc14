//! The reasons why a run ends before its job, and the lines that are printed for them.
ghost use Rattle.std.specs.Prelude.{◌≡◌};

use board_files::EarlyEnd;
use nor_args::{Reason, WrongArguments};
use nor_console::Fault;
use serprog_board::{ProgrammerFault, ProgrammerLine, WrongSetting};
use std::fmt;

/// The reason why a run ends before its job begins.
#[derive(Drop)]
pub enum RunFault<'a> {
    /// A fault of the type that `flashnor` uses too, or a request for the help or the version.
    Fault(Fault<'a>),
    /// The value of `-p` describes no programmer.
    Setting(WrongSetting<'a>),
    /// The files of the job can't be used, for a reason that `flashnor` doesn't report.
    Early(EarlyEnd<'a>),
    Programmer {
        fault: ProgrammerFault,
        device: &'a str,
    },
    /// The layout can't be read from the chip, or the port seems to change bytes. The fault was printed already.
    AlreadyPrinted,
}

impl<'a> From<Fault<'a>> for RunFault<'a> {
    ghost use Rattle.serprog_runs.specs.declared.run_fault.RunFault.TheVariants as run_fault;

    ghost from_gives = { λ fault ended. ended ≡ run_fault.Fault fault };

    fn from(fault: Fault<'a>) -> RunFault<'a> {
        RunFault::Fault(fault)
    }
}

impl<'a> From<WrongArguments<'a>> for RunFault<'a> {
    ghost use Rattle.serprog_runs.specs.declared.run_fault.RunFault.TheVariants as run_fault;
    ghost use Rattle.nor_console.specs.declared.messages.Fault.TheVariants as end;

    ghost from_gives = { λ wrong ended. ended ≡ run_fault.Fault (end.Usage wrong.fault wrong.reason) };

    fn from(wrong: WrongArguments<'a>) -> RunFault<'a> {
        let WrongArguments { fault, reason } = wrong;
        RunFault::Fault(Fault::Usage { fault, reason })
    }
}

impl<'a> From<WrongSetting<'a>> for RunFault<'a> {
    ghost use Rattle.serprog_runs.specs.declared.run_fault.RunFault.TheVariants as run_fault;

    ghost from_gives = { λ wrong ended. ended ≡ run_fault.Setting wrong };

    fn from(wrong: WrongSetting<'a>) -> RunFault<'a> {
        RunFault::Setting(wrong)
    }
}

impl<'a> From<EarlyEnd<'a>> for RunFault<'a> {
    ghost use Rattle.serprog_runs.specs.RunFaults.{of_early};

    ghost from_gives = { λ early ended. ended ≡ of_early early };

    fn from(early: EarlyEnd<'a>) -> RunFault<'a> {
        match early {
            EarlyEnd::Fault(fault) => RunFault::Fault(fault),
            early => RunFault::Early(early),
        }
    }
}

impl fmt::Display for RunFault<'_> {
    fn fmt<W: fmt::Write>(&self, f: &mut fmt::Formatter<W>) -> fmt::Result {
        match self {
            RunFault::Fault(
                Fault::Usage {
                    fault,
                    reason: Reason::NoLayout,
                },
            ) => write!(f, "{NO_LAYOUT}\n{fault}"),
            RunFault::Fault(fault) => write!(f, "{fault}"),
            RunFault::Setting(wrong) => write!(f, "{wrong}Usage fault 3."),
            RunFault::Early(early) => write!(f, "{early}"),
            RunFault::AlreadyPrinted => Ok(()),
            RunFault::Programmer { fault, device } => write!(
                f,
                "{}",
                ProgrammerLine { fault, device }
            ),
        }
    }
}

// The line before usage fault 7 if `-i` is given without a layout. `flashnor` names only `-l` here.
const NO_LAYOUT: &str = "error: -i needs -l, --fmap, --fmap-file, --ifd or --ifd-file";

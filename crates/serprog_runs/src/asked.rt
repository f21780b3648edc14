//! The job that the arguments of a run ask for.
ghost use Rattle.std.specs.Prelude.{IfErr, IfOk, map, string_bytes};
ghost use Rattle.serprog_runs.specs.Run.{IsAskedByArguments, IsHelpAskedBy};

use crate::help::HELP;
use crate::run_fault::RunFault;
use nor_args::{HardwareJob, Operation, operation_of};
use serprog_board::Setting;
use std::alloc::Global;

/// The job that the arguments ask for.
#[derive(Drop)]
pub enum Asked<'a> {
    List,
    /// A description of the journal in `file`. If `image` is given, the journal's image is also written to `image`.
    Description {
        file: &'a str,
        image: Option<&'a str>,
    },
    Chip {
        setting: Setting<'a>,
        operation: Operation<'a>,
    },
}

/// Returns the job that the arguments ask for. The error is the first fault, or a request for the help or the version.
/// `names` gets the values of `-i`, joined by commas.
pub fn read_words<'a>(
    alloc: Global,
    words: &'a [String],
    names: &'a mut Option<String>,
) -> Result<Asked<'a>, RunFault<'a>>
    ensures ok { IfOk result (IsAskedByArguments (map string_bytes words.now)) }
    ensures help { IfErr result (IsHelpAskedBy (map string_bytes words.now)) }
{
    match operation_of(alloc, HELP, words, names)? {
        HardwareJob::List => Ok(Asked::List),
        HardwareJob::CheckJournal { file, image } => Ok(Asked::Description { file, image }),
        HardwareJob::Chip(job) => {
            let setting = Setting::read(job.programmer)?;
            let operation = job.operation?;
            Ok(Asked::Chip { setting, operation })
        }
    }
}

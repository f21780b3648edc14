//! Ends a session with a fault if its journal already exists, before any call to the engine.
ghost use Rattle.std.specs.Prelude.{◌≡◌, IfErr, IfSome, IsSome, IsSomeAnd, Some, true};
ghost use Rattle.nor_files.specs.Files.{AreAtRest, Name, KeepsFile, is_lawful};
ghost use Rattle.nor_files.specs.Files.Failure.{There};
ghost use Rattle.flashnor.specs.Roles.{HasOwnTrace};
ghost use Rattle.nor_console.specs.Files.{IsMaking};
ghost use Rattle.flashnor.specs.Run.{FailsJob, KeepsFiles};
ghost use Rattle.nor_console.specs.Stored.{Happens, IsNot};
ghost use Rattle.flashnor.specs.Tasks.{journal_by};

use crate::chips::read_content;
use crate::roles::has_own_trace;
use crate::tasks::journal_by;
use nor_args::{ChipJob, Task};
use nor_console::{Cause, Fault, create_log, exists};
use nor_files::Store;
use nor_jobs::read_sources;
use std::io::BufWriter;

/// Returns the name of the journal that the task is to create, if a file or link of that name already exists.
pub fn existing_journal<'a, R: Store>(rt: &R, task: &Task<'a>) -> Option<&'a str>
    ensures { IfSome result (λ file. (journal_by task.now ≡ Some file)
        × Happens (R.state rt.now).view (There file.now)) }
{
    match journal_by(task) {
        Some(file) if rt.is_there(file) => Some(file),
        _ => None,
    }
}

/// Returns the fault of a session whose journal exists: a fault of `has_own_trace`, of reading the files or of creating
/// the trace, otherwise file fault 4 with the journal's name. Doesn't lock files. Creates or truncates at most the
/// trace, and only if `has_own_trace` succeeds.
pub fn fault_before<'a, R: Store>(rt: &mut R, job: &ChipJob<'a>, journal: &'a str) -> Fault<'a>
    requires makes { journal_by job.now.task ≡ Some journal }
    requires there { Happens (R.state rt.old).view (There journal.now) }
    ensures fails { FailsJob (R.state rt.old).view job.now result }
    ensures keeps { AreAtRest (R.state rt.old)
        → KeepsFiles job.now.programmer job.now.task (R.state rt.old) (R.state rt.new) }
{
    match has_own_trace(rt, job) {
        Ok(()) => {}
        Err(fault) => return fault,
    }
    match read_all(rt, job) {
        Ok(()) => exists(journal, Cause::Exists),
        Err(fault) => fault,
    }
}

fn read_all<'a, R: Store>(rt: &mut R, job: &ChipJob<'a>) -> Result<(), Fault<'a>>
    requires { IsSome (journal_by job.now.task) }
    ensures fails { IfErr result (FailsJob (R.state rt.old).view job.now) }
    ensures others { is_lawful (R.state rt.old).view ≡ true → (name : Name)
        → IsNot (R.state rt.old).view.nature job.now.programmer.trace name
        → KeepsFile name (R.state rt.old) (R.state rt.new) }
{
    let _content = read_content(rt, &job.programmer)?;
    let _log = create_trace(rt, job.programmer.trace)?;
    let _sources = read_sources(rt, &job.task)?;
    Ok(())
}

pub fn create_trace<'a, R: Store>(
    rt: &mut R,
    trace: Option<&'a str>,
) -> Result<Option<BufWriter<R::Log>>, Fault<'a>>
    ensures nature { (R.state rt.new).view.nature ≡ (R.state rt.old).view.nature }
    ensures others { is_lawful (R.state rt.old).view ≡ true → (name : Name)
        → IsNot (R.state rt.old).view.nature trace.entry name → KeepsFile name (R.state rt.old) (R.state rt.new) }
    ensures err { IfErr result (λ fault.
        IsSomeAnd trace.entry (λ name. IsMaking (R.state rt.old).view name.now fault)) }
{
    let Some(name) = trace else {
        return Ok(None);
    };
    match create_log(rt, name) {
        Ok(log) => Ok(Some(log)),
        Err(fault) => Err(fault),
    }
}

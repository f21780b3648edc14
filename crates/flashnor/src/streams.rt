//! Checks that the program prints to no file of a job. If it does, chooses the stream for the fault that reports this.
ghost use Rattle.std.specs.Prelude.{◌≡◌, IfErr, IfOk, IfSome};
ghost use Rattle.flashnor.specs.Roles.{FailsFileRoles, IsPrintedName, changes_files};
ghost use Rattle.flashnor.specs.Streams.{IsReportedTo};

use crate::roles::file_with_role;
use crate::tasks::writes_back;
use nor_args::ChipJob;
use nor_console::{Cause, Fault, Role, found_streams, is_printed, taken_by};
use nor_files::{Store, Stream};

#[derive(Clone, Copy)]
pub enum Reports {
    Errors,
    /// To standard output, because only standard error prints to a file of the job.
    Output,
    /// Nowhere, because standard output and standard error both print to files of the job.
    Nowhere,
}

#[derive(Drop)]
pub struct StreamFault<'a> {
    pub fault: Fault<'a>,
    pub to: Reports,
}

const ROLES: [Role; 7] = [
    Role::Image,
    Role::Status,
    Role::Trace,
    Role::Layout,
    Role::Wanted,
    Role::Output,
    Role::Journal,
];

/// Checks that the program prints to no regular file that the job names. Returns file fault 5 with the first file (in
/// the order of `Role`) to which standard output prints or, if there is none, to which standard error prints. Returns
/// file fault 1 with a name that can't be looked up: a file's or, if the job may change files, a standard stream's.
pub fn are_unprinted<'a, R: Store>(rt: &R, job: &ChipJob<'a>) -> Result<(), StreamFault<'a>>
    ensures fails { IfErr result (λ refused. FailsFileRoles (R.state rt.now).view.nature job.now refused.fault) }
    ensures to { IfErr result (λ refused. IsReportedTo (R.state rt.now).view.nature refused.fault refused.to) }
{
    let (output, errors) = match files_printed(rt, job) {
        Ok(names) => names,
        Err(fault) => {
            let to = Reports::Errors;
            return Err(StreamFault { fault, to });
        }
    };
    let (name, to) = match (output, errors) {
        (Some(name), None) => (name, Reports::Errors),
        (None, Some(name)) => (name, Reports::Output),
        (Some(name), Some(_)) => (name, Reports::Nowhere),
        (None, None) => return Ok(()),
    };
    Err(StreamFault {
        fault: taken_by(name, Cause::Printed),
        to,
    })
}

#[tactic(auto, using(crate::proofs::OneRole::stream_fails))]
fn files_printed<'a, R: Store>(
    rt: &R,
    job: &ChipJob<'a>,
) -> Result<(Option<&'a str>, Option<&'a str>), Fault<'a>>
    ensures output { IfOk result (λ found. IfSome found.0 (λ name.
        IsPrintedName (R.state rt.now).view.nature job.now name.now)) }
    ensures errors { IfOk result (λ found. IfSome found.1 (λ name.
        IsPrintedName (R.state rt.now).view.nature job.now name.now)) }
    ensures fails { IfErr result (FailsFileRoles (R.state rt.now).view.nature job.now) }
{
    if changes_files(job) {
        found_streams(rt)?;
    }
    let output = file_printed(rt, job, Stream::Output)?;
    let errors = file_printed(rt, job, Stream::Errors)?;
    Ok((output, errors))
}

fn file_printed<'a, R: Store>(
    rt: &R,
    job: &ChipJob<'a>,
    stream: Stream,
) -> Result<Option<&'a str>, Fault<'a>>
    ensures printed { IfOk result (λ found. IfSome found (λ name.
        IsPrintedName (R.state rt.now).view.nature job.now name.now)) }
    ensures fails { IfErr result (FailsFileRoles (R.state rt.now).view.nature job.now) }
{
    for role in ROLES {
        if let Some(name) = printed_in_role(rt, job, stream, role)? {
            return Ok(Some(name));
        }
    }
    Ok(None)
}

#[tactic(auto, using(crate::proofs::OneRole::printed_name, crate::proofs::OneRole::unseen_fails))]
fn printed_in_role<'a, R: Store>(
    rt: &R,
    job: &ChipJob<'a>,
    stream: Stream,
    role: Role,
) -> Result<Option<&'a str>, Fault<'a>>
    ensures printed { IfOk result (λ found. IfSome found (λ name.
        IsPrintedName (R.state rt.now).view.nature job.now name.now)) }
    ensures fails { IfErr result (FailsFileRoles (R.state rt.now).view.nature job.now) }
{
    let name = file_with_role(job, role);
    if is_printed(rt, stream, name)? {
        Ok(name)
    } else {
        Ok(None)
    }
}

fn changes_files(job: &ChipJob<'_>) -> bool
    ensures { result ≡ changes_files job.now }
{
    writes_back(&job.task)
        || file_with_role(job, Role::Trace).is_some()
        || file_with_role(job, Role::Output).is_some()
}

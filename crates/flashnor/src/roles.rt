//! Checks that no file has two roles in a job, except roles that may share a file.
ghost use Rattle.std.specs.Prelude.{◌≡◌, true, IfErr, OnOk};
ghost use Rattle.flashnor.specs.Roles.{FailsFileRoles, FilesHaveOneRole, HasOwnTrace, file_with_role, must_differ};
ghost use Rattle.nor_console.specs.Stored.{AreTwo};
ghost use Rattle.nor_console.specs.declared.messages.Fault.TheVariants as Faults;
ghost use Rattle.nor_request.specs.declared.refusal.Refusal.TheVariants as Refusals;

use crate::tasks::writes_back;
use nor_args::ChipJob;
use nor_console::{Cause, Fault, FileNames, Role, apart_as, look_ahead, named_by};
use nor_files::Store;

/// Checks that the trace isn't another file of a session. Returns file fault 5, or file fault 1 if a look-up fails.
pub fn has_own_trace<'a, R: Store>(rt: &R, job: &ChipJob<'a>) -> Result<(), Fault<'a>>
    ensures ok { OnOk result (HasOwnTrace (R.state rt.now).view.nature job.now) }
    ensures err { IfErr result (FailsFileRoles (R.state rt.now).view.nature job.now) }
{
    check_pair(rt, job, Role::Image, Role::Trace)?;
    check_pair(rt, job, Role::Status, Role::Trace)?;
    check_pair(rt, job, Role::Trace, Role::Layout)?;
    check_pair(rt, job, Role::Trace, Role::Wanted)?;
    check_pair(rt, job, Role::Trace, Role::Journal)
}

/// Checks that two roles of a job have different files, if the job writes one of the two. The chip's image may be the
/// image to write, and a restore's journal counts as written. Returns file fault 5 with the file of the later role (in
/// the order of `Role`), or file fault 1 if a name can't be looked up.
pub fn files_have_one_role<'a, R: Store>(rt: &R, job: &ChipJob<'a>) -> Result<(), Fault<'a>>
    ensures ok { OnOk result (FilesHaveOneRole (R.state rt.now).view.nature job.now) }
    ensures err { IfErr result (FailsFileRoles (R.state rt.now).view.nature job.now) }
{
    if writes_back(&job.task) {
        check_pair(rt, job, Role::Image, Role::Status)?;
        check_pair(rt, job, Role::Image, Role::Layout)?;
        check_pair(rt, job, Role::Status, Role::Layout)?;
        check_pair(rt, job, Role::Status, Role::Wanted)?;
    }
    check_pair(rt, job, Role::Image, Role::Trace)?;
    check_pair(rt, job, Role::Status, Role::Trace)?;
    check_pair(rt, job, Role::Trace, Role::Layout)?;
    check_pair(rt, job, Role::Trace, Role::Wanted)?;
    check_pair(rt, job, Role::Image, Role::Output)?;
    check_pair(rt, job, Role::Status, Role::Output)?;
    check_pair(rt, job, Role::Trace, Role::Output)?;
    check_pair(rt, job, Role::Layout, Role::Output)?;
    check_pair(rt, job, Role::Image, Role::Journal)?;
    check_pair(rt, job, Role::Status, Role::Journal)?;
    check_pair(rt, job, Role::Trace, Role::Journal)?;
    check_pair(rt, job, Role::Layout, Role::Journal)?;
    check_pair(rt, job, Role::Wanted, Role::Journal)
}

/// Looks up the layout and the image to write or compare before the run opens files. If a look-up fails on a `Disk`,
/// `read_file` later returns file fault 1, unless the run locked the file. Returns error 18 if memory runs out.
pub fn look_at_sources<'a, R: Store>(rt: &R, job: &ChipJob<'a>) -> Result<(), Fault<'a>>
    ensures { IfErr result (λ fault. fault ≡ Faults.Refused Refusals.Memory) }
{
    look_ahead(rt, file_with_role(job, Role::Layout))?;
    look_ahead(rt, file_with_role(job, Role::Wanted))
}

pub fn file_with_role<'a>(job: &ChipJob<'a>, role: Role) -> Option<&'a str>
    ensures { result ≡ file_with_role job.now role }
{
    let FileNames {
        layout,
        wanted,
        output,
        journal,
    } = named_by(&job.task);
    match role {
        Role::Image => job.programmer.image,
        Role::Status => job.programmer.status,
        Role::Trace => job.programmer.trace,
        Role::Layout => layout,
        Role::Wanted => wanted,
        Role::Output => output,
        Role::Journal => journal,
    }
}

#[tactic(auto, using(crate::proofs::OneRole::pair_fails))]
fn check_pair<'a, R: Store>(
    rt: &R,
    job: &ChipJob<'a>,
    earlier: Role,
    later: Role,
) -> Result<(), Fault<'a>>
    requires { must_differ job.now earlier later ≡ true }
    ensures ok { OnOk result
        (AreTwo (R.state rt.now).view.nature (file_with_role job.now earlier) (file_with_role job.now later)) }
    ensures err { IfErr result (FailsFileRoles (R.state rt.now).view.nature job.now) }
{
    let cause = Cause::Role(earlier);
    apart_as(
        rt,
        file_with_role(job, earlier),
        file_with_role(job, later),
        cause,
    )
}

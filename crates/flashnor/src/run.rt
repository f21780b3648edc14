//! A run of the program: from its arguments to its exit status.
ghost use Rattle.std.specs.Prelude.{◌≡◌, false, true, Err, IfErr, IfOk, map, string_bytes};
ghost use Rattle.nor_args.specs.Words.{arguments_of};
ghost use Rattle.nor_files.specs.Disk.{unknown};
ghost use Rattle.nor_files.specs.Files.{AreAtRest, is_lawful};
ghost use Rattle.nor_console.specs.Tasks.{made_by};
ghost use Rattle.flashnor.specs.Endings.{EndsWith, HasPrinted, IsUnread, IsWithoutStreams, all_written};
ghost use Rattle.flashnor.specs.Roles.{FilesHaveOneRole};
ghost use Rattle.flashnor.specs.Run.{AnswersArguments, EndsChipJob, FailsJob, HoldsResult, IsPrintedAt, IsStatus};
ghost use Rattle.flashnor.specs.Run.{KeepsFiles, StayBut};
ghost use Rattle.flashnor.specs.Tasks.{writes_back};
ghost use Rattle.flashnor.specs.declared.details.Detail.TheVariants.{Unsaid};
ghost use Rattle.flashnor.specs.declared.streams.Reports.TheVariants as to;

use crate::chips::read_content;
use crate::details::{Detail, detail_of};
use crate::existing::{existing_journal, fault_before};
use crate::holding::{Held, Unwritten, hold_content, lost_journal, write_back};
use crate::jobs::{Called, call_on};
use crate::laws::runs_restore_original;
use crate::printing::{Ending, ErrorStream, print_end};
use crate::roles::{files_have_one_role, look_at_sources};
use crate::streams::{Reports, StreamFault, are_unprinted};
use crate::tasks::writes_back;
use nor_args::{ChipJob, Job, WrongArguments, explained_request_of};
use nor_console::{Answer, DIRECTORY, Fault, or_fault, read_fault};
use nor_files::{Disk, LockFile, Store};
use nor_jobs::arguments_after_name;
use std::env::Args;
use std::io;
use std::io::Write;
use std::rt::Files;

/// Performs the job given by the arguments (the first is the program's name), or prints the help. Returns the exit
/// status: 1 after a fault, if the result or the help could not be printed, or if `Unwritten` names a file, otherwise
/// 0. Results are printed to `output`, and faults to `errors`. If only standard error prints to a file of the
/// job, the fault that reports this is printed to `output`. If both streams do, this fault isn't printed.
pub fn run_words<R: Files + AllocGlobal, O: Write, E: Write>(
    rt: &R,
    given: io::Result<Args>,
    output: &mut O,
    errors: &mut ErrorStream<E>,
) -> u8
where
    R::File: LockFile,
    ensures words { IfOk given (λ args. EndsWith (IsStatus unknown unknown (arguments_of args) errors.old.wording
        (O.contents output.old) (O.contents output.new)
        (E.contents errors.old.writer) (E.contents errors.new.writer)) result) }
    ensures unread { IfErr given (λ error. EndsWith (IsUnread error errors.old.wording
        (O.contents output.old) (O.contents output.new)
        (E.contents errors.old.writer) (E.contents errors.new.writer)) result) }
{
    let ending = match given {
        Ok(args) => run_given(&mut Disk::new(rt), args, output, errors),
        Err(error) => end_before(Fault::of_words(&error), output, errors),
    };
    ending.status
}

/// Ends a run that could not open a directory to occupy descriptors 0, 1 and 2: prints file fault 1, and returns 1.
pub fn end_without_streams<O: Write, E: Write>(output: &mut O, errors: &mut ErrorStream<E>) -> u8
    ensures { EndsWith (IsWithoutStreams errors.old.wording (O.contents output.old) (O.contents output.new)
        (E.contents errors.old.writer) (E.contents errors.new.writer)) result }
{
    let ending = end_before(read_fault(DIRECTORY), output, errors);
    ending.status
}

#[tactic(auto, using(crate::proofs::Ended::is_without_memory))]
fn run_given<R: Store, O: Write, E: Write>(
    rt: &mut R,
    args: Args,
    output: &mut O,
    errors: &mut ErrorStream<E>,
) -> Ending
    ensures { IsStatus (R.state rt.old) (R.state rt.new) (arguments_of args) errors.old.wording
        (O.contents output.old) (O.contents output.new)
        (E.contents errors.old.writer) (E.contents errors.new.writer) result }
{
    match arguments_after_name(rt.alloc(), args) {
        Ok(words) => run_over(rt, words.as_slice(), output, errors),
        Err(_) => end_before(Fault::out_of_memory(), output, errors),
    }
}

fn end_before<O: Write, E: Write>(
    fault: Fault<'_>,
    output: &mut O,
    errors: &mut ErrorStream<E>,
) -> Ending
    ensures { HasPrinted errors.old.wording Unsaid (Err fault.entry) all_written to.Errors
        (O.contents output.old) (O.contents output.new)
        (E.contents errors.old.writer) (E.contents errors.new.writer) result }
{
    let Work {
        answer,
        unwritten,
        detail,
    } = Work::before(Err(fault));
    print_end(output, errors, answer, unwritten, Reports::Errors, detail)
}

/// Performs the job given by `words`, the arguments without the program's name, over any store of files. Returns the
/// exit status, and whether the result and the faults could be printed.
#[tactic(auto, using(crate::proofs::Ended::is_status))]
pub fn run_over<R: Store, O: Write, E: Write>(
    rt: &mut R,
    words: &[String],
    output: &mut O,
    errors: &mut ErrorStream<E>,
) -> Ending
    ensures { IsStatus (R.state rt.old) (R.state rt.new) (map string_bytes words.now) errors.old.wording
        (O.contents output.old) (O.contents output.new)
        (E.contents errors.old.writer) (E.contents errors.new.writer) result }
{
    // The prover checks the contract of `runs_restore_original` only if the program calls `runs_restore_original`.
    runs_restore_original::<R>();
    let (work, to) = run(rt, words);
    let Work {
        answer,
        unwritten,
        detail,
    } = work;
    print_end(output, errors, answer, unwritten, to, detail)
}

#[derive(Drop)]
struct Work<'a> {
    answer: Result<Answer, Fault<'a>>,
    unwritten: Unwritten<'a>,
    detail: Detail,
}

impl<'a> Work<'a> {
    fn before(answer: Result<Answer, Fault<'a>>) -> Work<'a>
        ensures answer { result.answer ≡ answer.entry }
        ensures none { result.unwritten ≡ all_written }
        ensures unsaid { result.detail ≡ Unsaid }
    {
        let unwritten = Unwritten {
            image: None,
            status: None,
            trace: None,
            journal: None,
        };
        Work {
            answer,
            unwritten,
            detail: Detail::Unsaid,
        }
    }
}

#[tactic(auto, using(crate::proofs::Ended::answer_ended, nor_console::proofs::Lent::stays_same))]
fn run<'a, R: Store>(rt: &mut R, words: &'a [String]) -> (Work<'a>, Reports)
    ensures answers { AnswersArguments (R.state rt.old) (R.state rt.new) (map string_bytes words.now) result.0.answer
        result.0.unwritten }
    ensures to { IsPrintedAt (R.state rt.old).view.nature result.0.answer result.1 }
{
    match explained_request_of(rt.alloc(), words) {
        Ok(Job::List) => (Work::before(Ok(Answer::Chips)), Reports::Errors),
        Ok(Job::Chip(job)) => run_chip_job(rt, &job),
        Err(WrongArguments { fault, reason }) => {
            let wrong = Fault::Usage { fault, reason };
            (Work::before(Err(wrong)), Reports::Errors)
        }
    }
}

#[tactic(auto, using(crate::proofs::Ended::failed_ends, crate::proofs::Ended::failed_holds, crate::proofs::Ended::printed_at, crate::proofs::Ended::printed_there, crate::proofs::Before::keeps_still))]
fn run_chip_job<'a, R: Store>(rt: &mut R, job: &ChipJob<'a>) -> (Work<'a>, Reports)
    ensures ends { EndsChipJob (R.state rt.old) (R.state rt.new) job.now result.0.unwritten result.0.answer }
    ensures keeps { AreAtRest (R.state rt.old)
        → KeepsFiles job.now.programmer job.now.task (R.state rt.old) (R.state rt.new) }
    ensures holds { AreAtRest (R.state rt.old)
        → HoldsResult job.now result.0.unwritten result.0.answer (R.state rt.old) (R.state rt.new) }
    ensures to { IsPrintedAt (R.state rt.old).view.nature result.0.answer result.1 }
{
    match are_unprinted(rt, job) {
        Ok(()) => match work_on_chip(rt, job) {
            Ok(work) => (work, Reports::Errors),
            Err(fault) => (Work::before(Err(fault)), Reports::Errors),
        },
        Err(StreamFault { fault, to }) => (Work::before(Err(fault)), to),
    }
}

#[tactic(auto, using(crate::proofs::Ended::holds_readonly))]
fn work_on_chip<'a, R: Store>(rt: &mut R, job: &ChipJob<'a>) -> Result<Work<'a>, Fault<'a>>
    ensures ok { IfOk result (λ work.
        EndsChipJob (R.state rt.old) (R.state rt.new) job.now work.unwritten work.answer) }
    ensures err { IfErr result (FailsJob (R.state rt.old).view job.now) }
    ensures keeps { AreAtRest (R.state rt.old)
        → KeepsFiles job.now.programmer job.now.task (R.state rt.old) (R.state rt.new) }
    ensures holds { AreAtRest (R.state rt.old) → IfOk result (λ work.
        HoldsResult job.now work.unwritten work.answer (R.state rt.old) (R.state rt.new)) }
{
    if let Some(name) = existing_journal(rt, &job.task) {
        return Err(fault_before(rt, job, name));
    }
    files_have_one_role(rt, job)?;
    look_at_sources(rt, job)?;
    if writes_back(&job.task) {
        change_files(rt, job)
    } else {
        look_at_files(rt, job)
    }
}

fn look_at_files<'a, R: Store>(rt: &mut R, job: &ChipJob<'a>) -> Result<Work<'a>, Fault<'a>>
    requires only_reads { writes_back job.now.task ≡ false }
    requires roles { FilesHaveOneRole (R.state rt.old).view.nature job.now }
    ensures ok { IfOk result (λ work.
        EndsChipJob (R.state rt.old) (R.state rt.new) job.now work.unwritten work.answer) }
    ensures err { IfErr result (FailsJob (R.state rt.old).view job.now) }
    ensures keeps { is_lawful (R.state rt.old).view ≡ true
        → StayBut job.now.programmer (made_by job.now.task) (R.state rt.old) (R.state rt.new) }
{
    let content = read_content(rt, &job.programmer)?;
    let called = call_on(rt, content, job)?;
    let Called { bus, outcome, lost } = called;
    let detail = detail_of(rt, job, &outcome, &bus);
    let unwritten = Unwritten {
        image: None,
        status: None,
        trace: lost,
        journal: None,
    };
    let answer = or_fault(outcome);
    Ok(Work {
        answer,
        unwritten,
        detail,
    })
}

fn change_files<'a, R: Store>(rt: &mut R, job: &ChipJob<'a>) -> Result<Work<'a>, Fault<'a>>
    requires changes { writes_back job.now.task ≡ true }
    requires roles { FilesHaveOneRole (R.state rt.old).view.nature job.now }
    ensures ok { IfOk result (λ work.
        EndsChipJob (R.state rt.old) (R.state rt.new) job.now work.unwritten work.answer) }
    ensures err { IfErr result (FailsJob (R.state rt.old).view job.now) }
    ensures keeps { AreAtRest (R.state rt.old)
        → KeepsFiles job.now.programmer job.now.task (R.state rt.old) (R.state rt.new) }
    ensures holds { AreAtRest (R.state rt.old) → IfOk result (λ work.
        HoldsResult job.now work.unwritten work.answer (R.state rt.old) (R.state rt.new)) }
{
    let held = hold_content(rt, &job.programmer)?;
    let Held {
        content,
        image_there,
        status_there,
    } = held;
    let called = call_on(rt, content, job)?;
    let Called { bus, outcome, lost } = called;
    let detail = detail_of(rt, job, &outcome, &bus);
    let (image, status) = write_back(rt, &job.programmer, image_there, status_there, &bus);
    let unwritten = Unwritten {
        image,
        status,
        trace: lost,
        journal: lost_journal(rt, &job.task),
    };
    let answer = or_fault(outcome);
    Ok(Work {
        answer,
        unwritten,
        detail,
    })
}

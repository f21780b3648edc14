//! Performs a job on the emulated chip, with a trace if one is requested.
ghost use Rattle.std.specs.Prelude.{◌≡◌, ◌⊎◌, true, IfErr, IfOk, IsSomeAnd, OnErr, OnSome, vec_len};
ghost use Rattle.nor_chip.specs.Trace.{has_lost};
ghost use Rattle.flashnor.specs.Chips.{IsReady};
ghost use Rattle.flashnor.specs.Found.{emulated_part};
ghost use Rattle.nor_files.specs.Files.{Name, KeepsFile, is_lawful};
ghost use Rattle.nor_jobs.specs.Sources.{AreSources};
ghost use Rattle.nor_console.specs.Files.{IsMaking};
ghost use Rattle.nor_console.specs.Stored.{AreTwo, IsNot, MakesNothing};
ghost use Rattle.nor_console.specs.Tasks.{made_by};
ghost use Rattle.flashnor.specs.Roles.{FailsFileRoles};
ghost use Rattle.flashnor.specs.Run.{DoesJob, DoesStarted, FailsTask, FailsTraced};
ghost use Rattle.flashnor.specs.Tasks.{journal_by};

use crate::changes::change_or_rehearse;
use crate::chips::{Content, start};
use crate::existing::create_trace;
use crate::roles::files_have_one_role;
use nor_args::{ChipJob, Task};
use nor_chip::{Bus, Meter, SimBus, TraceBus};
use nor_console::{Fault, Outcome, list_ranges, read_to_file, report_protection, verify_image};
use nor_files::Store;
use nor_jobs::{Sources, answer_probe, journal_in, read_sources, report_size, restore_named};
use std::io::{BufWriter, Write};

/// A finished call to the engine: the bus after the call, the call's result, and the trace's name if it lost a line.
#[derive(Drop)]
pub struct Called<'a> {
    pub bus: SimBus,
    pub outcome: Outcome,
    pub lost: Option<&'a str>,
}

impl<'a> Called<'a> {
    fn of_traced<L: Write + Drop>(
        mut traced: TraceBus<SimBus, L>,
        name: Option<&'a str>,
        outcome: Outcome,
    ) -> Called<'a>
        ensures bus { ⟦<SimBus as Bus>⟧.state result.bus ≡ ⟦<TraceBus<SimBus, L> as Bus>⟧.state traced }
        ensures came { result.outcome ≡ outcome }
        ensures lost { has_lost traced ≡ true → result.lost ≡ name.entry }
        ensures returned { OnSome result.lost (result.lost ≡ name.entry) }
    {
        traced.flush();
        let lost = if traced.lost() { name } else { None };
        let bus = traced.into_inner();
        Called { bus, outcome, lost }
    }
}

/// Creates or opens the trace, if requested, reads the files of the task, and performs the task on a simulated chip
/// with this content. Returns a fault if one occurred before the call to the engine.
pub fn call_on<'a, R: Store>(
    rt: &mut R,
    content: Content,
    job: &ChipJob<'a>,
) -> Result<Called<'a>, Fault<'a>>
    requires { vec_len content.bytes ≡ (emulated_part job.now.programmer.chip).size }
    ensures nature { (R.state rt.new).view.nature ≡ (R.state rt.old).view.nature }
    ensures others { is_lawful (R.state rt.old).view ≡ true → (name : Name)
        → IsNot (R.state rt.old).view.nature job.now.programmer.trace name
        → IsNot (R.state rt.old).view.nature (made_by job.now.task) name
        → KeepsFile name (R.state rt.old) (R.state rt.new) }
    ensures unmade { is_lawful (R.state rt.old).view ≡ true
        → AreTwo (R.state rt.old).view.nature job.now.programmer.trace (journal_by job.now.task)
        → OnErr result (MakesNothing (journal_by job.now.task) (R.state rt.old) (R.state rt.new)) }
    ensures ok { IfOk result (λ called. DoesStarted (R.state rt.old) (R.state rt.new) job.now content
        (⟦<SimBus as Bus>⟧.state called.bus) called.outcome) }
    ensures lost { IfOk result (λ called. OnSome called.lost (called.lost ≡ job.now.programmer.trace)) }
    ensures err { IfErr result (FailsTraced (R.state rt.old).view job.now) }
{
    let log = open_trace(rt, job)?;
    let sources = read_sources(rt, &job.task)?;
    let bus = start(&job.programmer, content);
    call(rt, bus, log, job, sources)
}

// Checks the roles again, because another name may be a link to the trace's file, which may not have existed before.
fn open_trace<'a, R: Store>(
    rt: &mut R,
    job: &ChipJob<'a>,
) -> Result<Option<BufWriter<R::Log>>, Fault<'a>>
    ensures nature { (R.state rt.new).view.nature ≡ (R.state rt.old).view.nature }
    ensures others { is_lawful (R.state rt.old).view ≡ true → (name : Name)
        → IsNot (R.state rt.old).view.nature job.now.programmer.trace name
        → KeepsFile name (R.state rt.old) (R.state rt.new) }
    ensures err { IfErr result (λ fault.
        IsSomeAnd job.now.programmer.trace (λ name. IsMaking (R.state rt.old).view name.now fault)
        ⊎ FailsFileRoles (R.state rt.old).view.nature job.now fault) }
{
    let log = create_trace(rt, job.programmer.trace)?;
    if log.is_some() {
        files_have_one_role(rt, job)?;
    }
    Ok(log)
}

fn call<'a, R: Store, L: Write + Drop>(
    rt: &mut R,
    mut bus: SimBus,
    log: Option<L>,
    job: &ChipJob<'a>,
    sources: Sources,
) -> Result<Called<'a>, Fault<'a>>
    requires { AreSources (R.state rt.old).view job.now.task sources.included sources.bytes.items }
    ensures nature { (R.state rt.new).view.nature ≡ (R.state rt.old).view.nature }
    ensures others { is_lawful (R.state rt.old).view ≡ true → (name : Name)
        → IsNot (R.state rt.old).view.nature (made_by job.now.task) name
        → KeepsFile name (R.state rt.old) (R.state rt.new) }
    ensures unmade { is_lawful (R.state rt.old).view ≡ true
        → OnErr result (MakesNothing (journal_by job.now.task) (R.state rt.old) (R.state rt.new)) }
    ensures ok { let old = ⟦<SimBus as Bus>⟧.state bus in IsReady job.now.programmer old
        → IfOk result (λ called. DoesJob (R.state rt.old).view (R.state rt.new) job.now.programmer job.now.named
        job.now.task old (⟦<SimBus as Bus>⟧.state called.bus) called.outcome) }
    ensures lost { IfOk result (λ called. OnSome called.lost (called.lost ≡ job.now.programmer.trace)) }
    ensures err { IfErr result (FailsTask (R.state rt.old).view job.now.task) }
{
    let Some(log) = log else {
        let outcome = do_task(rt, &mut bus, job, sources)?;
        return Ok(Called {
            bus,
            outcome,
            lost: None,
        });
    };
    let mut traced = TraceBus::new(bus, log);
    let outcome = do_task(rt, &mut traced, job, sources)?;
    Ok(Called::of_traced(traced, job.programmer.trace, outcome))
}

fn do_task<'a, R: Store, B: Meter>(
    rt: &mut R,
    bus: &mut B,
    job: &ChipJob<'a>,
    sources: Sources,
) -> Result<Outcome, Fault<'a>>
    requires { AreSources (R.state rt.old).view job.now.task sources.included sources.bytes.items }
    ensures nature { (R.state rt.new).view.nature ≡ (R.state rt.old).view.nature }
    ensures others { is_lawful (R.state rt.old).view ≡ true → (name : Name)
        → IsNot (R.state rt.old).view.nature (made_by job.now.task) name
        → KeepsFile name (R.state rt.old) (R.state rt.new) }
    ensures unmade { is_lawful (R.state rt.old).view ≡ true
        → OnErr result (MakesNothing (journal_by job.now.task) (R.state rt.old) (R.state rt.new)) }
    ensures ok { IsReady job.now.programmer (B.state bus.old)
        → IfOk result (DoesJob (R.state rt.old).view (R.state rt.new) job.now.programmer job.now.named job.now.task
        (B.state bus.old) (B.state bus.new)) }
    ensures err { IfErr result (FailsTask (R.state rt.old).view job.now.task) }
{
    let named = job.named;
    match &job.task {
        Task::Probe => Ok(answer_probe(bus, named)),
        Task::FlashSize => Ok(report_size(bus, named)),
        Task::WpStatus => Ok(report_protection(bus, named)),
        Task::WpList => Ok(list_ranges(bus, named)),
        Task::Read { file, .. } => read_to_file(rt, bus, named, *file, sources.included.as_ref()),
        Task::Verify { .. } => {
            let Sources { included, bytes } = sources;
            Ok(verify_image(bus, named, &bytes, included.as_ref()))
        }
        Task::Change(change) => {
            change_or_rehearse(rt, bus, job.programmer.chip, named, change, sources)
        }
        Task::Restore { .. } => {
            let journal = journal_in(&sources.bytes)?;
            Ok(restore_named(bus, named, &journal, true, |_| ()))
        }
    }
}

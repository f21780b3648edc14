//! A run of the program: from its arguments to its exit status.
ghost use Rattle.std.specs.Prelude.{◌≡◌, ◌≤◌, IfErr, IfOk, IfSome, IsSome, None, is_some, map, string_bytes, true};
ghost use Rattle.nor_files.specs.Disk.{unknown};
ghost use Rattle.nor_files.specs.Files.{is_lawful};
ghost use Rattle.nor_args.specs.Words.{arguments_of};
ghost use Rattle.nor_console.specs.Printing.{Prints};
ghost use Rattle.nor_buses.specs.Ahead.{ahead_of};
ghost use Rattle.board_progress.specs.ProgressBus.{shown_bus};
ghost use Rattle.serprog_runs.specs.Connected.{device_of, seen_over};
ghost use Rattle.board_jobs.specs.Ending.{AreJobLines};
ghost use Rattle.serprog_runs.specs.Run.{AsksForHelp, HasRun, HasRunBy, HasRunJob};
ghost use Rattle.serprog_runs.specs.Run.{HasRunOperation, HasSucceeded};
ghost use Rattle.serprog_board.specs.Wired.{AsksOnly};
ghost use Rattle.serprog_runs.specs.Sealed.{SealsJob, SealsOperation};
ghost use Rattle.board_jobs.specs.Sealing.{SealsTask};
ghost use Rattle.board_files.specs.RegionCopies.{AreCopied, KeepsOutput};
ghost use Rattle.board_files.specs.Regions.{regions_of};
ghost use Rattle.board_files.specs.Sources.{ArePlainNames};

use crate::asked::{Asked, read_words};
use crate::chip_list::print_chip_list;
use crate::connected::Connected;
use crate::lock_job::run_lock;
use crate::preparing::{Prepared, prepare};
use crate::reports::{
    clear_journal, print_job_fault, print_run_fault, report_changed_byte, report_kept_bits,
};
use crate::run_fault::RunFault;
use board_files::{
    Farthest, RegionFile, check_journal, end_badly, extract_image, is_new, is_session, journal_of,
    plain_names, read_before, reads_out, reason_hint, status_of, unwritten_by, write_region_files,
};
use board_hints::Saved;
use board_jobs::{begin_notes, end_compared, end_job, end_well, report_strays, status_write_of};
use board_progress::{RunLog, Screen};
use clap::Error as WordsError;
use nor_args::{Operation, Task};
use nor_console::{
    Answer, DIRECTORY, Fault, help_of, print_fault, print_help, read_fault, version_of, write_fault,
};
use nor_files::{Disk, LogFile, Store};
use nor_jobs::{Sources, arguments_after_name};
use nor_model::Bus;
use serprog_board::{Board, ChipBus, Connector, Setting};
use std::alloc::Global;
use std::env::Args;
use std::fs::File;
use std::io;
use std::io::Write;

/// Performs the job given by the program's arguments, prints results to `output` and faults to `errors`, and returns
/// the exit status: 1 after any fault, if a result could not be printed, or if `report_kept_bits` printed a line,
/// otherwise 0. Skips the first argument (the program's name), and prints an error in `given` as a fault.
///
/// `used` must be `None`, and receives the bus of the job if `connect_by` returned one for the job. Each
/// modifying command that its port was asked for was made for one that the bus was asked for (`wired`). The clauses
/// assume nothing about the system's files. The clauses of `run_over` say more if the files obey their contract.
pub fn run_words<'b, D: Connector, O: Write, E: Write>(
    rt: &'b HostRuntime,
    connector: &mut D,
    screen: &'b Screen,
    given: io::Result<Args>,
    used: &mut Option<Connected<ChipBus<'b, D::Board>>>,
    output: &mut O,
    errors: &mut E,
) -> u8
    requires { used.old ≡ None }
    ensures few { result ≤ 1 }
    ensures done { IfOk given (λ args. result ≡ 0 → HasSucceeded
        (seen_over ⟦<ChipBus<'b, D::Board> as Bus>⟧.state D.Board.state D.Board.expected D.finds)
        unknown unknown (arguments_of args) used.new
        (O.contents output.old) (O.contents output.new)) }
    ensures ran { IfOk given (λ args. IfSome used.new (λ connected. HasRunJob
        (seen_over ⟦<ChipBus<'b, D::Board> as Bus>⟧.state D.Board.state D.Board.expected D.finds)
        unknown unknown (arguments_of args)
        (device_of connected) (⟦<ChipBus<'b, D::Board> as Bus>⟧.state connected.bus)
        (O.contents output.old) (O.contents output.new) result)) }
    ensures wired { IfSome used.new (λ connected. AsksOnly (D.Board.asked (ahead_of (shown_bus connected.bus)))
        (⟦<ChipBus<'b, D::Board> as Bus>⟧.state connected.bus).sent) }
    ensures unread { IfErr given (λ error. result ≡ 1) }
    ensures unused { IfErr given (λ error. used.new ≡ None) }
{
    match given {
        Ok(args) => match arguments_after_name(rt.alloc(), args) {
            Ok(words) => run_over(
                rt,
                connector,
                screen,
                &mut Disk::new(rt),
                used,
                words.as_slice(),
                output,
                errors,
            ),
            Err(_) => end_badly(errors, &Fault::out_of_memory()),
        },
        Err(error) => end_badly(errors, &Fault::of_words(&error)),
    }
}

/// Ends a run that could not keep descriptors 0, 1 and 2 open: prints file fault 1, and returns the exit status 1.
pub fn end_without_descriptors<E: Write>(errors: &mut E) -> u8
    ensures { result ≡ 1 }
{
    end_badly(errors, &read_fault(DIRECTORY))
}

/// Performs the job given by `words`, the arguments without the program's name, over any store of files. If the files
/// obey the contract of `Store` (`is_lawful`), the clauses also say what a change sent and what its journal contains.
pub fn run_over<'b, D: Connector, R: Store<Log = LogFile<File>>, O: Write, E: Write>(
    rt: &'b HostRuntime,
    connector: &mut D,
    screen: &'b Screen,
    files: &mut R,
    used: &mut Option<Connected<ChipBus<'b, D::Board>>>,
    words: &[String],
    output: &mut O,
    errors: &mut E,
) -> u8
    requires { used.old ≡ None }
    ensures few { result ≤ 1 }
    ensures done { result ≡ 0 → HasSucceeded
        (seen_over ⟦<ChipBus<'b, D::Board> as Bus>⟧.state D.Board.state D.Board.expected D.finds)
        (R.state files.old) (R.state files.new) (map string_bytes words.now) used.new
        (O.contents output.old) (O.contents output.new) }
    ensures ran { IfSome used.new (λ connected. HasRunJob
        (seen_over ⟦<ChipBus<'b, D::Board> as Bus>⟧.state D.Board.state D.Board.expected D.finds)
        (R.state files.old) (R.state files.new) (map string_bytes words.now) (device_of connected)
        (⟦<ChipBus<'b, D::Board> as Bus>⟧.state connected.bus) (O.contents output.old) (O.contents output.new) result) }
    ensures sealed { is_lawful (R.state files.old).view ≡ true → IfSome used.new (λ connected.
        SealsJob R.Filed.state R.Filed.synced (map string_bytes words.now)
        (⟦<ChipBus<'b, D::Board> as Bus>⟧.state connected.bus) (R.state files.new)) }
    ensures wired { IfSome used.new (λ connected. AsksOnly (D.Board.asked (ahead_of (shown_bus connected.bus)))
        (⟦<ChipBus<'b, D::Board> as Bus>⟧.state connected.bus).sent) }
{
    let mut included = None;
    match read_words(rt.alloc(), words, &mut included) {
        Ok(Asked::List) => status_of(print_chip_list(output), errors),
        Ok(Asked::Description { file, image: None }) => check_journal(files, file, output, errors),
        Ok(
            Asked::Description {
                file,
                image: Some(image),
            },
        ) => extract_image(files, file, image, output, errors),
        Ok(Asked::Chip { setting, operation }) => {
            match plain_names(rt.alloc(), &operation.task) {
                Ok(names) => run_on_chip(
                    rt, connector, screen, files, used, &setting, &operation, &names, output,
                    errors,
                ),
                Err(_) => end_badly(errors, &Fault::out_of_memory()),
            }
        }
        Err(run_fault) => end_early(output, errors, &run_fault),
    }
}

// Performs an operation on the chip of a programmer. `names` must be what `plain_names` returns for its task.
fn run_on_chip<'a, 'b, D: Connector, R: Store<Log = LogFile<File>>, O: Write, E: Write>(
    rt: &'b HostRuntime,
    connector: &mut D,
    screen: &'b Screen,
    files: &mut R,
    used: &mut Option<Connected<ChipBus<'b, D::Board>>>,
    setting: &Setting<'a>,
    operation: &Operation<'a>,
    names: &'a str,
    output: &mut O,
    errors: &mut E,
) -> u8
    requires used { used.old ≡ None }
    requires names { ArePlainNames (regions_of operation.now.task) names.now }
    ensures few { result ≤ 1 }
    ensures used { result ≡ 0 → is_some used.new ≡ true }
    ensures ran { IfSome used.new (λ connected. HasRunOperation
        (seen_over ⟦<ChipBus<'b, D::Board> as Bus>⟧.state D.Board.state D.Board.expected D.finds)
        (R.state files.old) (R.state files.new)
        setting.now.device operation.now (device_of connected) (⟦<ChipBus<'b, D::Board> as Bus>⟧.state connected.bus)
        (O.contents output.old) (O.contents output.new) result) }
    ensures sealed { is_lawful (R.state files.old).view ≡ true → IfSome used.new (λ connected.
        SealsOperation R.Filed.state R.Filed.synced operation.now
        (⟦<ChipBus<'b, D::Board> as Bus>⟧.state connected.bus) (R.state files.new)) }
    ensures wired { IfSome used.new (λ connected. AsksOnly (D.Board.asked (ahead_of (shown_bus connected.bus)))
        (⟦<ChipBus<'b, D::Board> as Bus>⟧.state connected.bus).sent) }
{
    if !is_new(files, operation, errors) {
        return 1;
    }
    match prepare(
        rt, connector, screen, files, setting, operation, names, errors,
    ) {
        Ok(
            Prepared {
                regions,
                farthest,
                sources,
                mut connected,
            },
        ) => {
            let bus = &mut connected.bus;
            let status = run_prepared(
                files, bus, operation, &regions, farthest, sources, output, errors,
            );
            *used = Some(connected);
            status
        }
        Err(run_fault) => {
            print_run_fault(errors, &run_fault, operation);
            end_log(errors, screen.log(), operation.log, 1)
        }
    }
}

// Prints the help or the version if `run_fault` requests one of them, otherwise the fault. Returns the exit status.
fn end_early<O: Write, E: Write>(output: &mut O, errors: &mut E, run_fault: &RunFault<'_>) -> u8
    ensures few { result ≤ 1 }
    ensures help { result ≡ 0 → AsksForHelp run_fault.now }
{
    if let Some(text) = asked_text(run_fault) {
        return status_of(print_help(output, text), errors);
    }
    let _ = writeln!(errors, "{run_fault}");
    1
}

// Returns the parser's error, which contains the text to print, if `run_fault` requests the help or the version.
fn asked_text<'a>(run_fault: &'a RunFault<'_>) -> Option<&'a WordsError>
    ensures { IsSome result → AsksForHelp run_fault.now }
{
    let RunFault::Fault(fault) = run_fault else {
        return None;
    };
    match help_of(fault) {
        Some(help) => Some(help),
        None => version_of(fault),
    }
}

fn run_prepared<'b, R: Store, B: Board + Drop, O: Write, E: Write>(
    files: &mut R,
    bus: &mut ChipBus<'b, B>,
    operation: &Operation<'_>,
    regions: &[RegionFile<'_>],
    farthest: Option<Farthest<'_>>,
    sources: Sources,
    output: &mut O,
    errors: &mut E,
) -> u8
    ensures ran { HasRunBy operation.now.srp0 operation.now regions.now sources.included sources.bytes.items
        (R.state files.old).view (R.state files.new)
        (⟦<ChipBus<'b, B> as Bus>⟧.state bus.old) (⟦<ChipBus<'b, B> as Bus>⟧.state bus.new)
        (O.contents output.old) (O.contents output.new) result }
    ensures sealed { is_lawful (R.state files.old).view ≡ true → operation.now.srp0 ≡ None
        → SealsTask R.Filed.state R.Filed.synced operation.now.task (⟦<ChipBus<'b, B> as Bus>⟧.state bus.old)
        (⟦<ChipBus<'b, B> as Bus>⟧.state bus.new) (R.state files.new) }
{
    match operation.srp0 {
        Some(srp0) => run_lock(bus, operation, srp0, output, errors),
        None => run_job(
            files, bus, operation, regions, farthest, sources, output, errors,
        ),
    }
}

// Performs an operation other than a change of SRP0, prints its answer or its fault, and returns the exit status.
fn run_job<'b, R: Store, B: Board + Drop, O: Write, E: Write>(
    files: &mut R,
    bus: &mut ChipBus<'b, B>,
    operation: &Operation<'_>,
    regions: &[RegionFile<'_>],
    farthest: Option<Farthest<'_>>,
    sources: Sources,
    output: &mut O,
    errors: &mut E,
) -> u8
    ensures ran { HasRun operation.now regions.now sources.included sources.bytes.items
        (R.state files.old).view (R.state files.new)
        (⟦<ChipBus<'b, B> as Bus>⟧.state bus.old) (⟦<ChipBus<'b, B> as Bus>⟧.state bus.new)
        (O.contents output.old) (O.contents output.new) result }
    ensures sealed { is_lawful (R.state files.old).view ≡ true
        → SealsTask R.Filed.state R.Filed.synced operation.now.task (⟦<ChipBus<'b, B> as Bus>⟧.state bus.old)
        (⟦<ChipBus<'b, B> as Bus>⟧.state bus.new) (R.state files.new) }
{
    let saved = saved_by(&operation.task, &sources);
    set_progress_job(bus, &operation.task, saved, files.alloc());
    begin_notes(errors, bus, operation, files.alloc());
    let before = read_before(files, operation, &sources.bytes);
    let terminal = bus.terminal();
    match end_job(files, bus, terminal, operation, sources) {
        Ok(answer) if reads_out(operation) => {
            bus.end_progress(true);
            let status = bus.replies().status;
            let printed = end_with_files(files, operation, regions, answer, status, output, errors);
            end_run(errors, bus, operation, printed)
        }
        Ok(answer) => {
            bus.end_progress(true);
            let printed = end_compared(output, errors, &*files, bus, answer, operation, &before);
            let kept = report_kept_bits(errors, bus, saved, printed);
            end_run(errors, bus, operation, kept)
        }
        Err(fault) => {
            bus.end_progress(false);
            let unwritten = unwritten_by(&*files);
            print_job_fault(errors, &fault, bus, operation, saved, unwritten, farthest);
            report_strays(errors, bus, &fault, operation);
            clear_journal(errors, &*files, &fault, bus, operation);
            end_log(errors, terminal.log(), operation.log, 1)
        }
    }
}

/// Returns the exit status `printed`, or 1 after a report of changed bytes (`report_changed_byte`) or a lost log line.
pub fn end_run<'b, B: Board + Drop, E: Write>(
    errors: &mut E,
    bus: &ChipBus<'b, B>,
    operation: &Operation<'_>,
    printed: u8,
) -> u8
    ensures few { printed ≤ 1 → result ≤ 1 }
    ensures failed { result ≡ 0 → printed ≡ 0 }
{
    let status = report_changed_byte(errors, bus, printed);
    end_log(errors, bus.terminal().log(), operation.log, status)
}

/// Returns the exit status `status`. If a line of the log was lost, prints file fault 2 with `name`, and returns 1.
pub fn end_log<E: Write>(errors: &mut E, log: &RunLog, name: Option<&str>, status: u8) -> u8
    ensures few { status ≤ 1 → result ≤ 1 }
    ensures failed { result ≡ 0 → status ≡ 0 }
{
    match (name, log.lost()) {
        (Some(name), Some(reason)) => {
            print_fault(errors, &write_fault(name));
            let hint = reason_hint(reason);
            let _ = writeln!(errors, "The log is incomplete, but the job went on. {hint}");
            1
        }
        _ => status,
    }
}

// After a read, copies the bytes of regions into their files (`write_region_files`). If this succeeds, prints the
// answer, otherwise the fault.
fn end_with_files<R: Store, O: Write, E: Write>(
    files: &mut R,
    operation: &Operation<'_>,
    regions: &[RegionFile<'_>],
    answer: Answer,
    status: [u8; 2],
    output: &mut O,
    errors: &mut E,
) -> u8
    ensures nature { (R.state files.new).view.nature ≡ (R.state files.old).view.nature }
    ensures output { KeepsOutput operation.now.task (R.state files.old) (R.state files.new) }
    ensures few { result ≤ 1 }
    ensures printed { result ≡ 0 → Prints (AreJobLines operation.now answer) (O.contents output.old)
        (O.contents output.new) }
    ensures copied { result ≡ 0 → AreCopied operation.now regions.now (R.state files.new).view }
{
    match write_region_files(files, operation, regions) {
        Ok(()) => end_well(output, errors, answer, operation, status),
        Err(fault) => {
            print_run_fault(errors, &RunFault::Fault(fault), operation);
            1
        }
    }
}

// Returns what the journal of a restore says about its chip. Returns `None` if there is no such journal.
fn saved_by(task: &Task<'_>, sources: &Sources) -> Option<Saved> {
    match task {
        Task::Restore { .. } => Saved::read(&sources.bytes),
        _ => None,
    }
}

// Records in the bus the facts about the task for the lines that are printed before the first modifying command.
fn set_progress_job<'b, B: Board + Drop>(
    bus: &mut ChipBus<'b, B>,
    task: &Task<'_>,
    saved: Option<Saved>,
    alloc: Global,
)
    ensures { ⟦<ChipBus<'b, B> as Bus>⟧.state bus.new ≡ ⟦<ChipBus<'b, B> as Bus>⟧.state bus.old }
{
    let journal = journal_of(task).and_then(|file| String::from_str(alloc, file).ok());
    let status = saved.map(|saved| saved.status);
    bus.begin_job(is_session(task), journal, status_write_of(task, status));
}

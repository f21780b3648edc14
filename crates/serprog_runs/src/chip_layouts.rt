//! A layout on the chip itself (`--fmap`, `--ifd`): reads the part of the chip with the layout, before the job.
ghost use Rattle.std.specs.Prelude.{◌≡◌, IfErr, IfOk, option_map};
ghost use Rattle.nor_journal.specs.MemVault.{held_by};
ghost use Rattle.serprog_runs.specs.Connected.{seen_over};
ghost use Rattle.serprog_runs.specs.ChipLayouts.{AreReadFor, FailsToReadShown, HasReadLayout, IsReadFirst};
ghost use Rattle.serprog_runs.specs.ChipLayouts.{IsShown, form_on_chip};
ghost use Rattle.board_files.specs.Regions.{regions_of};

use crate::connected::connect_by;
use crate::reports::{print_job_fault, report_changed_byte};
use crate::run_fault::RunFault;
use board_files::regions_of;
use board_jobs::{JobFault, read_to_memory, sectors_to_read};
use board_progress::{Progress, Terminal};
use nor_args::{LayoutForm, Operation, Regions, Task};
use nor_console::Fault;
use nor_jobs::identify_or_fault;
use nor_journal::MemVault;
use nor_layout::{Ranges, Span};
use nor_model::Bus;
use nor_probe::ChipName;
use serprog_board::{Board, ChipBus, Connector, Rules, Setting};
use std::alloc::Global;
use std::io::Write;

const DESCRIPTOR: Span = Span {
    first: 0,
    last: 4095,
};

const READING: &str = "Reading the layout from the chip.";

/// Returns a copy of the part of the chip that contains the task's layout: the first 4 KiB for a flash descriptor (with
/// FFh after them), the whole chip for an FMAP. Returns `None`, and uses no programmer, if the layout isn't on the
/// chip. Sends no modifying command, and reads all data twice. Returns the faults of `connect_by`. Any other fault is
/// printed with its cause, and returned as `RunFault::AlreadyPrinted`.
pub fn read_chip_layout<'a, 'b, D: Connector, E: Write>(
    connector: &mut D,
    alloc: Global,
    terminal: Terminal<'b>,
    setting: &Setting<'a>,
    operation: &Operation<'a>,
    errors: &mut E,
) -> Result<Option<MemVault>, RunFault<'a>>
    ensures { IfOk result (λ shown. IsShown
        (seen_over ⟦<ChipBus<'b, D::Board> as Bus>⟧.state D.Board.state D.Board.expected D.finds)
        setting.now.device.now operation.now.named (form_on_chip (regions_of operation.now.task))
        (option_map (λ chip. (held_by chip).bytes) shown)) }
{
    match form_on_chip(&operation.task) {
        Some(form) => {
            let chip = read_first(connector, alloc, terminal, setting, operation, form, errors)?;
            Ok(Some(chip))
        },
        None => Ok(None),
    }
}

/// Returns the form of the task's layout, or `None` if the layout isn't on the chip.
pub fn form_on_chip(task: &Task<'_>) -> Option<LayoutForm>
    ensures { result ≡ form_on_chip (regions_of task.now) }
{
    match regions_of(task) {
        Some(
            Regions {
                layout: None,
                form,
                ..
            },
        ) => Some(form),
        _ => None,
    }
}

fn read_first<'a, 'b, D: Connector, E: Write>(
    connector: &mut D,
    alloc: Global,
    terminal: Terminal<'b>,
    setting: &Setting<'a>,
    operation: &Operation<'a>,
    form: LayoutForm,
    errors: &mut E,
) -> Result<MemVault, RunFault<'a>>
    ensures { IfOk result (λ chip. IsReadFirst
        (seen_over ⟦<ChipBus<'b, D::Board> as Bus>⟧.state D.Board.state D.Board.expected D.finds)
        setting.now.device.now operation.now.named form (held_by chip).bytes) }
{
    let mut connected = connect_by(connector, alloc, terminal, setting, None, Rules::reading())?;
    terminal.print(&READING);
    read_and_report(&mut connected.bus, operation, form, alloc, errors)
}

fn read_and_report<'a, 'b, B: Board + Drop, E: Write>(
    bus: &mut ChipBus<'b, B>,
    operation: &Operation<'_>,
    form: LayoutForm,
    alloc: Global,
    errors: &mut E,
) -> Result<MemVault, RunFault<'a>>
    ensures { IfOk result (λ chip. HasReadLayout operation.now.named form
        (⟦<ChipBus<'b, B> as Bus>⟧.state bus.old) (⟦<ChipBus<'b, B> as Bus>⟧.state bus.new) (held_by chip).bytes) }
{
    match read_layout(bus, operation.named, form, alloc) {
        Ok(chip) => {
            bus.end_progress(true);
            match report_changed_byte(errors, bus, 0) {
                0 => Ok(chip),
                _ => Err(RunFault::AlreadyPrinted),
            }
        }
        Err(fault) => {
            bus.end_progress(false);
            print_job_fault(
                errors,
                &JobFault::Fault(fault),
                bus,
                operation,
                None,
                None,
                None,
            );
            Err(RunFault::AlreadyPrinted)
        }
    }
}

fn read_layout<'a, B: Progress>(
    bus: &mut B,
    named: Option<ChipName>,
    form: LayoutForm,
    alloc: Global,
) -> Result<MemVault, Fault<'a>>
    ensures ok { IfOk result (λ chip.
        HasReadLayout named form (B.state bus.old) (B.state bus.new) (held_by chip).bytes) }
    ensures err { IfErr result (FailsToReadShown named form (B.state bus.old) (B.state bus.new)) }
{
    let found = identify_or_fault(bus, named)?;
    let ranges = ranges_for(form);
    bus.expect_reads(sectors_to_read(found.size as usize, ranges.as_ref()));
    let mut chip = MemVault::new(alloc);
    match read_to_memory(bus, ranges.as_ref(), named, &mut chip) {
        Ok(_) => Ok(chip),
        Err(refusal) => Err(Fault::Refused(refusal)),
    }
}

fn ranges_for(form: LayoutForm) -> Option<Ranges>
    ensures { AreReadFor form result }
{
    match form {
        LayoutForm::Descriptor => Ranges::of(&[DESCRIPTOR]),
        _ => None,
    }
}

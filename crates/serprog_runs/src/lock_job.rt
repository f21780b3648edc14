//! A run of `--wp-enable` or `--wp-disable`: changes SRP0, prints the result, and returns the exit status.
ghost use Rattle.board_jobs.specs.StatusLocks.{HasRunLock};

use crate::reports::print_job_fault;
use crate::run::{end_log, end_run};
use board_jobs::{end_changed, set_srp0};
use nor_args::Operation;
use nor_model::Bus;
use serprog_board::{Board, ChipBus};
use std::io::Write;

/// Sets or clears SRP0, prints the lines of the change or of its fault, and returns the exit status.
pub fn run_lock<'b, B: Board + Drop, O: Write, E: Write>(
    bus: &mut ChipBus<'b, B>,
    operation: &Operation<'_>,
    srp0: bool,
    output: &mut O,
    errors: &mut E,
) -> u8
    ensures { HasRunLock operation.now.named srp0 (⟦<ChipBus<'b, B> as Bus>⟧.state bus.old)
        (⟦<ChipBus<'b, B> as Bus>⟧.state bus.new) (O.contents output.old) (O.contents output.new) result }
{
    match set_srp0(bus, operation.named, srp0) {
        Ok(change) => {
            bus.end_progress(true);
            let printed = end_changed(output, errors, srp0, &change);
            end_run(errors, bus, operation, printed)
        }
        Err(fault) => {
            bus.end_progress(false);
            print_job_fault(errors, &fault, bus, operation, None, None, None);
            end_log(errors, bus.terminal().log(), operation.log, 1)
        }
    }
}

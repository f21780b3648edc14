//! A run of `flashnor-serprog`, from its arguments to its exit status, over any connector, port and store of files.
//!
//! `run.rt` has the run, and `laws.rt` states what runs that follow one another do to the original chip.
#![tactic(auto)]

mod asked;
mod chip_layouts;
mod chip_list;
mod connected;
mod help;
mod laws;
mod lock_job;
mod preparing;
mod reports;
mod run;
mod run_fault;
mod stop_line;

pub use connected::Connected;
pub use laws::{
    backup_runs_restore_original, change_runs_keep_original, changes_on_boards_can_be_undone,
    connections_reach_chips, operations_run_jobs, restore_runs_keep_original,
    runs_restore_original,
};
pub use run::{end_without_descriptors, run_over, run_words};

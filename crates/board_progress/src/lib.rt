//! Shows the progress of a job on standard error and in the log of the run, and records checksums of the sectors that
//! the job reads. The job may use any bus.
#![tactic(auto)]

mod change_lines;
mod estimates;
mod lock_bits;
mod log;
mod notes;
mod progress;
mod replies;
mod run_log;
mod status_line;
mod step_lines;
mod step_timer;
mod steps;
mod tallies;
mod terminal;

pub use lock_bits::Lock;
pub use notes::Notes;
pub use progress::{Progress, ProgressBus, StatusWrite};
pub use replies::Replies;
pub use run_log::{Logged, RunLog, VERSION, check_log, check_started, start_log};
pub use status_line::{ChangedLine, DIFFERED, OtherLine, StatusLine, keeps_srp0, protects};
pub use terminal::{Screen, Terminal};

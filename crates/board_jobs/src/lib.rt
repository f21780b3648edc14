//! The jobs on a chip, over any bus that shows their progress, and what a run prints after a job.
#![tactic(auto)]

mod backups;
mod chip_faults;
mod ending;
mod fitting;
mod following;
mod jobs;
mod laws;
mod lock_lines;
mod restoring;
mod status_bits;
mod status_lock;
mod strays;
mod unsaved_sectors;

pub use backups::check_new;
pub use chip_faults::JobFault;
pub use ending::end_well;
pub use following::{read_to_memory, sectors_to_read};
pub use jobs::{end_job, status_write_of};
pub use laws::{backups_restore_original, changes_keep_original, restores_keep_original};
pub use lock_lines::end_changed;
pub use status_lock::set_srp0;
pub use strays::{begin_notes, end_compared, new_journal_of, report_strays};

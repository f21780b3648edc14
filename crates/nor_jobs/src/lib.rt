//! Parts of the jobs of `flashnor` and `flashnor-serprog`, over any bus: reads the files of a job, and makes the calls
//! that identify or restore a chip. `nor_console` makes other calls, and creates files.
#![tactic(auto)]

mod arguments;
mod finding;
mod restoring;
mod sources;

pub use arguments::arguments_after_name;
pub use finding::{answer_probe, identify_or_fault, report_size};
pub use restoring::{journal_in, restore_named};
pub use sources::{Sources, asked_bytes, read_image, read_sources};

//! The line that follows the line of a job's fault: advice, what was found and expected, or where the regions are.
#![tactic(auto)]

mod change_hints;
mod chip_after;
mod chip_hints;
mod chip_names;
mod circumstances;
mod hints;
mod saved;
mod status_hints;

pub use chip_after::ChipAfter;
pub use circumstances::Circumstances;
pub use hints::{print_operation_hint, unlocks};
pub use saved::Saved;

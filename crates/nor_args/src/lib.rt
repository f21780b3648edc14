//! Turns the arguments of flashnor, or of a program for hardware like flashnor-serprog, into a job or a usage fault.
//!
//! `clap` parses the arguments. The options that it finds either ask for a job or have a usage fault. This crate opens
//! no file, so a job contains the names of files as you typed them.
//!
//! ```rust
//! use nor_args::{Job, UsageFault, request_of};
//!
//! let words = [String::from_str(rt.alloc(), "-L")?];
//! assert!(rt; matches!(request_of(rt.alloc(), &words), Ok(Job::List)));
//! assert!(rt; matches!(request_of(rt.alloc(), &[]), Err(UsageFault::NoProgrammer)));
//! ```
//!
//! `words.rt` has the entry points and the usage faults, `job.rt` the types of a job, `options.rt` and
//! `options/hardware.rt` the options, and `reasons.rt` the reasons of faults. `specs/Words.antt` and `specs/Job.antt`
//! define which arguments ask for which job, `specs/Faults.antt` the usage faults, and `specs/Reasons.antt` their
//! reasons.
#![tactic(auto)]

mod escapes;
mod flaws;
mod given;
mod job;
mod numbers;
mod options;
mod programmer;
mod reasons;
mod settings;
mod stops;
mod tips;
mod words;

pub use escapes::is_hidden;
pub use job::{
    Change, ChipJob, HardwareJob, Job, JournalUse, LayoutForm, Operation, ProgrammerJob,
    ProgressMode, Regions, Task, Wanted,
};
pub use numbers::{read_clock, read_number};
pub use options::Help;
pub use programmer::{Emulated, Programmer};
pub use reasons::{Flaw, OptionName, Reason, WrongArguments};
pub use settings::{is_alone, setting_value, split_setting};
pub use stops::MOST_STOPS;
pub use words::{UsageFault, explained_request_of, operation_of, request_of};

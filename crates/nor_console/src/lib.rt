//! Prints the results and faults of jobs, handles the jobs' files, and makes calls to the engine. flashnor and
//! flashnor-serprog both use this crate.
//!
//! `answers.rt` defines the results of jobs, `messages.rt` the faults, `calls.rt` the calls to the engine, and
//! `files.rt` the calls that handle files. `specs/AnswerLines.antt`, `specs/FaultLines.antt`,
//! `specs/ReasonLines.antt` and `specs/Causes.antt` define the printed lines.
#![tactic(auto)]

mod answers;
mod calls;
mod causes;
mod escapes;
mod files;
mod layout_words;
mod messages;
mod printing;
mod reasons;
mod requests;
mod roles;
mod streams;

pub use answers::{Answer, Outcome};
pub use calls::{
    backup_in_file, erased, list_ranges, read_to_file, report_protection, session_in_file,
    verify_image,
};
pub use causes::{Cause, SystemReason};
pub use escapes::Escaped;
pub use files::{
    MOST_IMAGE_BYTES, MOST_JOURNAL_BYTES, create_journal, create_log, create_output, exists,
    lock_fault, lost_output, read_fault, read_file, read_journal, reading, taken_by, unmade_by,
    unread_by, write_fault,
};
pub use messages::{Fault, FileFault, Wording, or_fault};
pub use printing::{
    Digits, help_of, print_answer, print_fault, print_help, print_worded, version_of,
};
pub use reasons::text_of_flaw;
pub use requests::{include_regions, read_included, read_layout, request_for};
pub use roles::{
    FileNames, Role, apart_as, are_two_files, found_streams, is_printed, journal_of, look_ahead,
    named_by, unprinted,
};
pub use streams::{DIRECTORY, Streams, keep_streams, line_buffered};

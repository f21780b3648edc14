//! The files of a job on a chip: images, journals with their sums files, and the files of regions. This crate checks,
//! reads and describes these files, writes the files of regions and extracted images, and uses no bus.
#![tactic(auto)]

mod early_ends;
mod exit_status;
mod extracting;
mod file_hints;
mod images;
mod included;
mod journals;
mod layout_lines;
mod quoted;
mod region_copies;
mod region_faults;
mod region_files;
mod region_roles;
mod replacing;
mod roles;
mod sources;
mod sums_file;
mod tasks;

pub use early_ends::EarlyEnd;
pub use exit_status::{end_badly, status_of};
pub use extracting::extract_image;
pub use file_hints::{print_hint, reason_hint};
pub use images::sectors_of;
pub use included::{Farthest, Included, find_included};
pub use journals::{StatusBits, check_journal};
pub use layout_lines::MapLines;
pub use quoted::Quoted;
pub use region_copies::{reads_out, unwritten_by, write_region_files};
pub use region_files::{RegionFile, plain_names, regions_of};
pub use region_roles::check_region_files;
pub use replacing::{encode_with_status, print_replaced};
pub use roles::{has_own_log, have_one_role};
pub use sources::{image_of, prepare_sources, read_source};
pub use sums_file::{Before, UnknownLine, is_new, noting_journal, read_before, sums_name};
pub use tasks::{changes_bytes, is_compared, is_session, journal_of};

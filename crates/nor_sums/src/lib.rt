//! Checksums (called sums) of a chip's sectors, and the encoding of a table of these checksums. Two different sectors
//! have the same checksum only with a probability of 2^-64.
#![tactic(auto)]

mod changed;
mod sheet;
mod sums;

pub use changed::{Changed, find_changed};
pub use sheet::{SHEET_LEN, Sheet, decode, encode};
pub use sums::{SECTORS, Sums, sum_of};

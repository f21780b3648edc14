//! The sizes of chips, sectors and pages, and definitions about counting that the contracts of the other crates use.
#![tactic(auto)]

mod limits;

pub use limits::{MOST_SECTORS, PAGE_LEN, SECTOR_LEN, is_chip_size};

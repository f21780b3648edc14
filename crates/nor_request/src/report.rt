//! The report of a call that succeeded.
use nor_probe::Found;

#[derive(Clone, Copy, Debug, PartialEq, Eq)]
pub struct Report {
    pub found: Found,
    /// The number of touched sectors. For a rewrite these are all sectors that the journal saves.
    pub touched: u32,
    pub erases: u32,
    pub programs: u32,
    pub transactions: u64,
}

//! Counts of operations and transactions.
/// The number of operations in `apply` or a part of it, and of all transactions there, including reads and polls.
#[derive(Clone, Copy, Debug, PartialEq, Eq)]
pub struct Tally {
    pub count: u32,
    pub transactions: u64,
}

impl Tally {
    pub const NONE: Tally = Tally {
        count: 0,
        transactions: 0,
    };
}

//! Counts of the byte values in the data that was read, which may show that the port changes one value into another.

/// A byte value that the port seems to change into another: the value does not occur in the data that was read, but the
/// other value does. A serial port that isn't set up as raw may change each received 0Dh into 0Ah (`icrnl` of stty(1)),
/// or each 0Ah into 0Dh (`inlcr`). Reading twice doesn't detect this.
#[derive(Clone, Copy, Debug, PartialEq, Eq)]
pub struct ChangedByte {
    /// The value that does not occur: 0Dh or 0Ah.
    pub lost: u8,
    /// The value that occurs in its place: 0Ah or 0Dh.
    pub read_as: u8,
}

const CHANGES: [ChangedByte; 2] = [
    ChangedByte {
        lost: 0x0D,
        read_as: 0x0A,
    },
    ChangedByte {
        lost: 0x0A,
        read_as: 0x0D,
    },
];

// A value counts as changed only if at least this number of different values occur. ASCII text, which may lack 0Dh, has
// at most half of the 256 values.
const FEWEST_VALUES: usize = 192;

// A value counts as changed only if `read_as` occurs at least this often. Data may be read twice, so this may be only
// 32 bytes of the chip. If both values are equally likely, 32 bytes are all `read_as` in 1 of 2^32 cases.
const FEWEST_OCCURRENCES: u32 = 64;

#[derive(Drop)]
pub(crate) struct ByteCounts {
    counts: [u32; 256],
}

impl ByteCounts {
    pub(crate) fn new() -> ByteCounts {
        ByteCounts { counts: [0; 256] }
    }

    pub(crate) fn add(&mut self, data: &[u8]) {
        for byte in data {
            if let Some(count) = self.counts.get_mut(usize::from(*byte)) {
                *count = count.saturating_add(1);
            }
        }
    }

    pub(crate) fn changed_byte(&self) -> Option<ChangedByte> {
        if self.values() < FEWEST_VALUES {
            return None;
        }
        for change in &CHANGES {
            if self.count(change.lost) == 0 && self.count(change.read_as) >= FEWEST_OCCURRENCES {
                return Some(*change);
            }
        }
        None
    }

    fn values(&self) -> usize {
        self.counts.iter().filter(|count| **count > 0).count()
    }

    fn count(&self, value: u8) -> u32 {
        self.counts.get(usize::from(value)).copied().unwrap_or(0)
    }
}

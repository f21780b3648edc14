//! The replies of the chip before the first modifying command.

use nor_model::opcodes::{READ_ID, READ_SFDP, READ_STATUS1, READ_STATUS2, READ_UNIQUE};
use nor_probe::part_for;

// The length in bytes of the SFDP table that a probe reads (JESD216: double words 1 to 9).
const TABLE_LEN: usize = 36;

/// The last replies of the chip before the first modifying command. Status bytes that were not read are 0.
#[derive(Clone, Copy, Default)]
pub struct Replies {
    pub id: Option<[u8; 3]>,
    pub unique: Option<[u8; 8]>,
    /// Status 1 and status 2.
    pub status: [u8; 2],
    density: Option<u32>,
    /// True if the SFDP table that was read last doesn't offer erases of 4 KiB everywhere (JESD216, double word 1).
    pub is_uneven: bool,
}

impl Replies {
    /// Stores the reply to a transaction that sent `out`, if it is an ID, a unique ID or a status byte. From an SFDP
    /// table, stores only the density and `is_uneven`.
    pub fn remember(&mut self, out: &[u8], reply: &[u8]) {
        match (out, reply) {
            ([READ_STATUS1, ..], [status1, ..]) => self.status[0] = *status1,
            ([READ_STATUS2, ..], [status2, ..]) => self.status[1] = *status2,
            ([READ_ID, ..], [maker, kind, capacity]) => self.id = Some([*maker, *kind, *capacity]),
            ([READ_UNIQUE, ..], [a, b, c, d, e, f, g, h]) => {
                self.unique = Some([*a, *b, *c, *d, *e, *f, *g, *h]);
            }
            ([READ_SFDP, ..], [erases, _, _, _, a, b, c, d, ..]) if reply.len() == TABLE_LEN => {
                self.density = Some(u32::from_le_bytes([*a, *b, *c, *d]));
                self.is_uneven = *erases % 4 != 1;
            }
            _ => {}
        }
    }

    /// Returns the chip's size in bytes: from the table of chips or, if the table has no row for the ID, from the SFDP.
    /// Returns `None` if the ID was not read, or if the SFDP is needed but was not read or gives no size.
    pub fn size(&self) -> Option<u32> {
        match part_for(true, self.id?) {
            Some(part) => Some(part.size),
            None => size_in_bytes(self.density?),
        }
    }
}

// Double word 2 is the number of bits minus 1. If its bit 31 is set, the other bits are the binary logarithm of the
// number of bits instead (JESD216).
fn size_in_bytes(density: u32) -> Option<u32> {
    match density.checked_sub(1 << 31) {
        None => Some(density / 8 + 1),
        Some(exponent) => 1u32.checked_shl(exponent.checked_sub(3)?),
    }
}

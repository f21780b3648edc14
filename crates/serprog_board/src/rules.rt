//! The rules of the bus to a chip.

use board_progress::StatusWrite;

/// What the bus to a chip refuses, and how the bus treats a chip without a row in the table of chips.
#[derive(Clone, Copy)]
pub struct Rules {
    pub checks: Checks,
    /// The ID of a chip whose status 2 an earlier run read: 35h is sent to a chip with this ID even if it has no row.
    pub before: Option<[u8; 3]>,
    /// True if bit 6 of status 1 is returned as 0 for a chip that has QE there (`KeptQuad`).
    pub hides_quad: bool,
    /// If a chip has no unique ID, this byte is returned in place of each of the eight bytes (`OtherMakers`).
    pub missing_unique: u8,
    /// True if a chip without sectors of 4 KiB everywhere, or with pages of less than 256 bytes, is refused.
    pub refuses_uneven: bool,
}

impl Rules {
    /// Returns the rules of a job that only reads and makes no journal.
    pub fn reading() -> Rules {
        Rules {
            checks: Checks::Protection,
            before: None,
            hides_quad: false,
            missing_unique: 0,
            refuses_uneven: false,
        }
    }
}

/// Which modifying commands the bus to a chip refuses.
#[derive(Clone, Copy)]
pub enum Checks {
    /// Status writes that would change bits other than the protection bits.
    Protection,
    /// For a session: also the first modifying command, if the port seems to change bytes (`CheckedStatus::guarding`).
    Guarded,
    /// For `--wp-enable` and `--wp-disable`: status writes that would change any bit except SRP0.
    Lock,
}

impl Checks {
    /// Returns whether the status may be written, as assumed until `begin_job` sets the value of the actual task.
    pub fn status_write(self) -> StatusWrite {
        match self {
            Checks::Lock => StatusWrite::OnAnyChip,
            _ => StatusWrite::Never,
        }
    }
}

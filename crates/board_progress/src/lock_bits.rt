//! SRP0 and SRP1, the two bits that lock a chip's status (W25Q64FV datasheet, Status Register Protect), and what to do if
//! one is set.

use nor_model::bits::{SRP0, SRP1};

/// Which of SRP0 and SRP1 are set.
#[derive(Clone, Copy, PartialEq)]
pub enum Lock {
    Open,
    /// SRP0 only: the status is locked while WP# is low.
    Pin,
    /// SRP1 only: the status is locked until the chip loses its power.
    Power,
    /// Both: on some chips the status is locked forever.
    Both,
}

impl Lock {
    /// Returns which of the two bits are set in these status bytes, status 1 first.
    pub fn of(status: [u8; 2]) -> Lock {
        match (status[0] & SRP0 != 0, status[1] & SRP1 != 0) {
            (false, false) => Lock::Open,
            (true, false) => Lock::Pin,
            (false, true) => Lock::Power,
            (true, true) => Lock::Both,
        }
    }

    /// Returns the line that follows the line of error 9: whether SRP0 or SRP1 is set, and what to do. If both are set,
    /// the line says that the lock may be permanent.
    pub fn advice(self) -> &'static str {
        match self {
            Lock::Open => "Neither SRP0 nor SRP1 is set now: repeat the run.",
            Lock::Pin => "SRP0 is set. Clear it while WP# is high (--wp-disable).",
            Lock::Power =>
                "SRP1 is set. Clear it by a power cycle: disconnect the chip from power.",
            Lock::Both => "SRP0 and SRP1 are set: the status may be locked for good.",
        }
    }

    /// Returns the end of the line that follows the line of error 10: how to lift the protection or, if SRP0 and SRP1
    /// are set, that the protection may be permanent.
    pub fn advice_to_unlock(self) -> &'static str {
        match self {
            Lock::Open => ", or use --unlock.",
            Lock::Pin => {
                ". SRP0 is set: to lift the protection, clear it while WP# is high (--wp-disable), then use --unlock."
            }
            Lock::Power => {
                ". SRP1 is set: to lift the protection, disconnect the chip from power, then use --unlock."
            }
            Lock::Both => { ". SRP0 and SRP1 are set: the protection may be there for good." }
        }
    }
}

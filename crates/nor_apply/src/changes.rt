//! The call `apply`, which makes all changes of a session or restore in order.
ghost use Rattle.std.specs.Prelude.{◌≡◌, ℕ, true, IfOk, IfErr};
ghost use Rattle.nor_plan.specs.SectorSet.{has};
ghost use Rattle.nor_geometry.specs.Counts.{sector_count};
ghost use Rattle.nor_driver.specs.Waits.{OperationFails};
ghost use Rattle.nor_apply.specs.Applying.{AreConsistent, LeavesApply, DoesApply, NamesChange, writes_code, touched_in, most_applied};

use crate::Source;
use crate::erases::erase_all;
use crate::programs::program_all;
use nor_driver::{OperationError, write_status};
use nor_model::{Bus, Kinds, Status};
use nor_plan::SectorSet;

/// The changes that `apply` makes to a chip.
#[derive(Clone, Copy)]
pub struct Changes {
    /// The touched sectors, in which bytes may change.
    pub touched: SectorSet,
    /// The raised sectors: those touched sectors that must be erased.
    pub raised: SectorSet,
    /// The chip's erase types, other than those of 4 KiB and of the whole chip.
    pub kinds: Kinds,
    /// The chip's size in bytes.
    pub size: u32,
    /// The status registers, as they were read from the chip.
    pub status: Status,
    /// True if `apply` first clears all protection bits.
    pub unlock: bool,
    /// The target protection bits as a number, which must be below 64.
    pub code: u8,
}

impl Changes {
    fn writes_code(&self) -> bool
        ensures { result ≡ writes_code self.now }
    {
        let code = if self.unlock { 0 } else { self.status.code() };
        code != self.code
    }
}

/// The numbers of erases and page programs that were sent, and of all transactions including polls and reads.
#[derive(Clone, Copy, Debug, PartialEq, Eq)]
pub struct Work {
    pub erases: u32,
    pub programs: u32,
    pub transactions: u64,
}

/// Changes the touched sectors to the bytes of `source`, and the protection bits to `changes.code`. First clears all
/// protection bits if `changes.unlock` is set. Then erases the raised sectors, programs the pages of touched sectors
/// that still differ from `source`, and writes the protection bits if they still differ.
///
/// The changes must be consistent (`AreConsistent`), and `source` must have every touched sector. On a well-behaved
/// bus, after success all changes are made if `CanApply` held at the start. On every bus, after success the last status
/// write, if any was sent, had the protection bits `changes.code`. If none was sent, `changes.status` has these bits
/// (`protects`).
///
/// On every bus, even a faulty one, page programs send only target bytes of touched sectors, each for its own address.
///
/// Returns `Stopped` if the bus stopped, and `Timeout` if the chip stayed busy for 65,536 polls, which doesn't occur on
/// a well-behaved bus. The address of the timeout is in a touched sector or, after a status write, 0.
pub fn apply<B: Bus, S: Source>(
    bus: &mut B,
    source: &S,
    changes: &Changes,
) -> Result<Work, OperationError>
    requires consistent { AreConsistent changes.now }
    requires sourced { (s : ℕ) → has changes.now.touched s ≡ true → S.has source.now s ≡ true }
    ensures leaves { LeavesApply changes.now (S.wanted source.now) (B.state bus.old) (B.state bus.new) }
    ensures does { IfOk result (DoesApply changes.now (S.wanted source.now) (B.state bus.old) (B.state bus.new)) }
    ensures fails { IfErr result
        (OperationFails (most_applied (sector_count (touched_in changes.now))) (B.state bus.old) (B.state bus.new)) }
    ensures names { IfErr result (NamesChange changes.now) }
{
    let mut status_transactions = 0;
    if changes.unlock {
        status_transactions += write_status(bus, changes.status, 0)?;
    }
    let erased = erase_all(bus, &changes.raised, changes.kinds, changes.size)?;
    let programmed = program_all(bus, source, &changes.touched, &changes.raised)?;
    if changes.writes_code() {
        status_transactions += write_status(bus, changes.status, changes.code)?;
    }
    Ok(Work {
        erases: erased.count,
        programs: programmed.count,
        transactions: u64::from(status_transactions)
            + erased.transactions
            + programmed.transactions,
    })
}

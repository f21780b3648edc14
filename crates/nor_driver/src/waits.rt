//! Polls, and waits until the chip is ready.

ghost use Rattle.std.specs.Prelude.{◌≡◌, ◌%◌, ◌==◌, IfOk, IfErr, OnErr};
ghost use Rattle.nor_driver.specs.declared.waits.OperationError.TheVariants as OperationFails;
ghost use Rattle.nor_driver.specs.OnlyReads.{OnlyReads, HasStopped};
ghost use Rattle.nor_driver.specs.Waits.{Polls, Waits, WaitFails};

use bitflags::Flags;
use nor_model::opcodes::READ_STATUS1;
use nor_model::{Bus, Status1, Stopped};
use thiserror::Error;

const MOST_POLLS: u32 = 65536;

/// Reads status 1 with one poll (05h; W25Q64FV datasheet, Read Status Register-1).
pub fn poll<B: Bus>(bus: &mut B) -> Result<u8, Stopped>
    ensures leaves { OnlyReads 1 (B.state bus.old) (B.state bus.new) }
    ensures does { IfOk result (Polls (B.state bus.old) (B.state bus.new)) }
    ensures polled_ready { IfOk result (λ status. (B.state bus.new).polled_ready ≡ (status % 2 == 0)) }
    ensures fails { OnErr result (HasStopped 1 (B.state bus.old) (B.state bus.new)) }
{
    let mut reply = [0];
    bus.transfer(&[READ_STATUS1], &mut reply)?;
    Ok(reply[0])
}

/// The reason why a wait, or an operation with its wait, did not complete.
#[derive(Clone, Copy, Debug, PartialEq, Eq, Error)]
pub enum OperationError {
    #[error("the bus stopped")]
    Stopped,
    /// Status 1 showed BUSY in 65,536 polls in a row, which doesn't occur on a well-behaved bus. `address` is that of
    /// the operation's command (0 for a chip erase or a status write), or the one that was passed to `wait`.
    #[error("the chip stayed busy after the command for address 0x{address:06x}")]
    Timeout { address: u32 },
}

impl From<Stopped> for OperationError {
    ghost from_gives = { λ _ halt. halt ≡ OperationFails.Stopped };

    fn from(_: Stopped) -> OperationError {
        OperationError::Stopped
    }
}

/// The result of a wait.
#[derive(Clone, Copy, Debug, PartialEq, Eq)]
pub struct Waited {
    /// Status 1, as the last poll received it.
    pub status1: u8,
    pub polls: u32,
}

/// Polls until a reply shows that the chip is ready, at most 65,536 times. `address` is reported in
/// `OperationError::Timeout`: pass the address of the command that the wait follows, or 0.
pub fn wait<B: Bus>(bus: &mut B, address: u32) -> Result<Waited, OperationError>
    ensures leaves { OnlyReads 65536 (B.state bus.old) (B.state bus.new) }
    ensures does { IfOk result (Waits (B.state bus.old) (B.state bus.new)) }
    ensures fails { IfErr result (WaitFails address (B.state bus.old) (B.state bus.new)) }
{
    for polls in 0..MOST_POLLS {
        let status1 = poll(bus)?;
        if !Status1::from_bits_retain(status1).contains(Status1::BUSY) {
            let polls = polls + 1;
            return Ok(Waited { status1, polls });
        }
    }
    Err(OperationError::Timeout { address })
}

//! Sets and clears SRP0 (`--wp-enable`, `--wp-disable`), over any bus.
ghost use Rattle.std.specs.Prelude.{◌≡◌, ◌%◌, true, IfErr, IfOk, OnOk, slice_index};
ghost use Rattle.nor_driver.specs.Limits.{SendsWithin, writing};
ghost use Rattle.nor_driver.specs.Waits.{EndsAt};
ghost use Rattle.board_jobs.specs.Sends.{KeepsSent};
ghost use Rattle.board_jobs.specs.StatusLocks.{FailsFound, FailsLock, HasOnlySrp0, HasSetSrp0, ReadsStatus};
ghost use Rattle.board_jobs.specs.StatusLocks.{SendsLock, WritesSrp0, bytes_with, shows_srp0, sets_srp0};

use crate::chip_faults::JobFault;
use nor_driver::{OperationError, read_status2, wait, write_status};
use nor_jobs::identify_or_fault;
use nor_model::{Bus, Status};
use nor_probe::{ChipName, Found};
use nor_session::Refusal;

/// The result of a change of SRP0.
#[derive(Clone, Copy, Drop)]
pub struct LockChange {
    pub found: Found,
    /// Status 1 and status 2 before the change.
    pub before: [u8; 2],
    /// Status 1 and status 2 after the status write, or `None` if SRP0 had the value already, so nothing was written.
    pub after: Option<[u8; 2]>,
}

/// Sets SRP0 (bit 7 of status 1) if `srp0` is true, and clears it otherwise (W25Q64FV datasheet, Status Register
/// Protect). Identifies the chip. If SRP0 has the other value, sends one status write and reads the status registers
/// back. Writes no journal. Returns an error of the identification or one of these errors:
///
/// - 6: the block protection of the chip is unknown
/// - 9: SRP1 is set, so the chip ignores status writes at least until its power is off
/// - 12 (the bus stopped) or 13 (the chip stayed busy)
/// - `NotStored`: a non-volatile bit was read back with another value than was written (WP# is probably low)
pub fn set_srp0<'a, B: Bus>(
    bus: &mut B,
    named: Option<ChipName>,
    srp0: bool,
) -> Result<LockChange, JobFault<'a>>
    ensures sends { SendsLock srp0 (B.state bus.old) (B.state bus.new) }
    ensures ok { IfOk result (HasSetSrp0 named srp0 (B.state bus.old) (B.state bus.new)) }
    ensures err { IfErr result (FailsLock named srp0 (B.state bus.old) (B.state bus.new)) }
{
    let found = identify_or_fault(bus, named)?;
    let before = read_open(bus, &found)?;
    if shows_srp0(before) == srp0 {
        return Ok(LockChange {
            found,
            before,
            after: None,
        });
    }
    let after = write_srp0(bus, before, srp0)?;
    if !has_only_srp0(srp0, before, after) {
        return Err(JobFault::NotStored {
            sent: bytes_with(srp0, before),
            found: after,
        });
    }
    Ok(LockChange {
        found,
        before,
        after: Some(after),
    })
}

fn read_open<B: Bus>(bus: &mut B, found: &Found) -> Result<[u8; 2], Refusal>
    ensures kept { KeepsSent (B.state bus.old) (B.state bus.new) }
    ensures known { OnOk result (found.now.scheme ≡ true) }
    ensures read { IfOk result (ReadsStatus (B.state bus.old) (B.state bus.new)) }
    ensures open { IfOk result (λ bytes. slice_index bytes 1 % 2 ≡ 0) }
    ensures err { IfErr result (FailsFound found.now (B.state bus.old) (B.state bus.new)) }
{
    if !found.scheme {
        return Err(Refusal::NoProtection);
    }
    let bytes = read_status(bus)?;
    if bytes[1] % 2 == 1 {
        return Err(Refusal::StatusLocked);
    }
    Ok(bytes)
}

/// Waits until the chip is ready, and returns status 1 and status 2.
pub(crate) fn read_status<B: Bus>(bus: &mut B) -> Result<[u8; 2], OperationError>
    ensures kept { KeepsSent (B.state bus.old) (B.state bus.new) }
    ensures ok { IfOk result (ReadsStatus (B.state bus.old) (B.state bus.new)) }
    ensures err { IfErr result (λ error. EndsAt error (B.state bus.new).history) }
{
    let waited = wait(bus, 0)?;
    let two = read_status2(bus)?;
    Ok([waited.status1, two])
}

fn write_srp0<B: Bus>(bus: &mut B, before: [u8; 2], srp0: bool) -> Result<[u8; 2], OperationError>
    ensures within { SendsWithin (writing (sets_srp0 srp0 before) 1) (B.state bus.old) (B.state bus.new) }
    ensures ok { IfOk result (λ after. WritesSrp0 srp0 before after (B.state bus.old) (B.state bus.new)) }
    ensures err { IfErr result (λ error. EndsAt error (B.state bus.new).history) }
{
    let status = Status::of(bytes_with(srp0, before));
    write_status(bus, status, status.code())?;
    read_status(bus)
}

fn shows_srp0(bytes: [u8; 2]) -> bool
    ensures { result ≡ shows_srp0 (slice_index bytes 0) }
{
    bytes[0] / 128 == 1
}

fn bytes_with(srp0: bool, before: [u8; 2]) -> [u8; 2]
    ensures { result ≡ bytes_with srp0 before }
{
    let high = if srp0 { 128 } else { 0 };
    [high + before[0] % 128 / 4 * 4, before[1] % 128]
}

fn has_only_srp0(srp0: bool, before: [u8; 2], after: [u8; 2]) -> bool
    ensures yes { result ≡ true → HasOnlySrp0 srp0 before after }
    ensures no { HasOnlySrp0 srp0 before after → result ≡ true }
{
    let [one, two] = bytes_with(srp0, before);
    after[0] / 4 * 4 == one && after[1] % 128 == two
}

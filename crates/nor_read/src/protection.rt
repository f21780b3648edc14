//! The call `wp_status`, which reports the protected addresses of a chip, and whether the status of the chip is locked.
ghost use Rattle.std.specs.Prelude.{◌≡◌, true};
ghost use Rattle.nor_read.specs.Finding.{IsModelled};
ghost use Rattle.nor_read.specs.Protecting.{ProtectionAlways, ProtectionHonest, ProtectionModelled};

use crate::finding::find;
use nor_driver::read_status2;
use nor_model::{Bus, Status, protected_range};
use nor_probe::ChipName;
use nor_request::Refusal;

#[derive(Clone, Copy, Debug, PartialEq, Eq)]
pub struct Protection {
    /// The first protected address and the length of the protected range in bytes, or two zeros if no address is
    /// protected. `None` if the datasheets don't define a range for the chip's protection bits.
    pub range: Option<(u32, u32)>,
    /// True if the status is locked (SRP0 or SRP1 is set).
    pub locked: bool,
    /// The chip's size in bytes.
    pub size: u32,
}

/// Reads the chip's protected range, and whether its status is locked. If `named` is given, the chip must have that
/// name. On any bus the returned values are proved to be those that the replies mean, and on a modelled bus they are
/// proved to be the chip's own.
///
/// Returns error 1 (no chip), 2 (unknown chip), 3 (other name), 6 (the chip has no block protection), 12 (the bus
/// stopped) or 13 (the chip stayed busy; not on a well-behaved bus).
pub fn wp_status<B: Bus>(bus: &mut B, named: Option<ChipName>) -> Result<Protection, Refusal>
    ensures always { ProtectionAlways (B.state bus.old) (B.state bus.new) result }
    ensures honest { (B.state bus.old).honest ≡ true
        → ProtectionHonest named (B.state bus.old) (B.state bus.new) result }
    ensures modelled { IsModelled (B.state bus.old) → ProtectionModelled named (B.state bus.old) result }
{
    let found = find(bus, named)?.found;
    let status2 = read_status2(bus)?;
    if !found.scheme {
        return Err(Refusal::NoProtection);
    }
    let status = Status::of([found.status1, status2]);
    Ok(Protection {
        range: protected_range(status, found.size),
        locked: status.is_locked(),
        size: found.size,
    })
}

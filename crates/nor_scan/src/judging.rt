//! The checks of a request against the identification and against the touched sectors.
ghost use Rattle.std.specs.Prelude.{◌≡◌, ◌<◌, ◌≤◌, ◌*◌, ◌==◌, ℕ, Bool, true, false, length, IfOk, IfErr, IfSome, IfNone, MatchOption, MatchBool};
ghost use Rattle.nor_model.specs.Chip.{Chip, kept_in};
ghost use Rattle.nor_model.specs.Guard.{is_undefined, protected_by, code_of};
ghost use Rattle.nor_plan.specs.SectorSet.{has};
ghost use Rattle.nor_request.specs.Request.{is_data};
ghost use Rattle.nor_scan.specs.Identity.{status_read};
ghost use Rattle.nor_scan.specs.Judging.{IsFoundCode, IsIdentityRefusal, IsScanRefusal, Lifts};
ghost use Rattle.nor_scan.specs.Judging.{AcceptsIdentity, RefusesIdentity, FindsProtected, FindsNeed, AcceptsScan, RefusesScan};

use crate::identity::Identity;
use nor_geometry::SECTOR_LEN;
use nor_layout::reaches_past;
use nor_model::{code_for, unit_protected};
use nor_plan::SectorSet;
use nor_request::{Refusal, Request, What};

/// Checks a request against the identification. `image` is the length of the image in bytes. Returns the target
/// protection bits as a number below 64; for a write or an erase these are the bits that were read.
///
/// Returns the error with the lowest number that applies. For a write or an erase: 4 (the image isn't as long as the
/// chip), 5 (an included address isn't on the chip) or 7 (undefined protection bits on a chip with block protection).
/// For a protection range: 6 (the chip has no block protection), 7, or 8 (no defined protection bits protect exactly
/// this range).
#[tactic(auto, using(crate::proofs::Held::code_same, crate::proofs::OneVerdict::opening_judged, crate::proofs::OneVerdict::opening_accepted))]
pub fn judge_identity(request: &Request, identity: &Identity, image: usize) -> Result<u8, Refusal>
    ensures six_bits { IfOk result (λ code. code < 64) }
    ensures sized { IfOk result (λ code. is_data request.now.what ≡ true → image ≡ identity.now.found.size) }
    ensures faults { IfErr result IsIdentityRefusal }
    ensures same_code { IfOk result (λ code. is_data request.now.what ≡ true
        → code ≡ code_of (kept_in (status_read identity.now))) }
    ensures found { IfOk result (IsFoundCode request.now.what identity.now) }
    ensures accepts { AcceptsIdentity request.now image identity.now result }
    ensures errors { RefusesIdentity request.now image identity.now result }
{
    let size = identity.found.size;
    let code = identity.status().code();
    let defined = !identity.found.scheme || !identity.status().is_undefined();
    match request.what {
        What::Write | What::Erase => {
            if image != size as usize {
                return Err(Refusal::ImageSize { chip: size, image });
            }
            if reaches_past(request.included.as_ref(), size) {
                return Err(Refusal::RegionOutside);
            }
            if defined {
                Ok(code)
            } else {
                Err(Refusal::UndefinedProtection)
            }
        }
        What::WpRange { start, len } => {
            if !identity.found.scheme {
                return Err(Refusal::NoProtection);
            }
            if !defined {
                return Err(Refusal::UndefinedProtection);
            }
            code_for(start, len, size).ok_or(Refusal::RangeNotOffered)
        }
    }
}

/// Returns the first sector of `touched` that has a protected address, according to the status that was read, or `None`
/// if there is no such sector or the chip has no block protection.
#[tactic(auto, using(crate::proofs::Held::code_same))]
pub fn first_protected(touched: &SectorSet, identity: &Identity) -> Option<u32>
    ensures held { FindsProtected (has touched.now) identity.now result }
    ensures reachable { IfSome result (λ sector. sector < 4096) }
    ensures found { IfSome result (λ sector. has touched.now sector ≡ true) }
{
    if !identity.found.scheme {
        return None;
    }
    let size = identity.found.size;
    let status = [identity.found.status1, identity.status2];
    for sector in 0..size / SECTOR_LEN {
        let start = SECTOR_LEN * sector;
        if touched.contains(sector) && unit_protected(status, size, start, SECTOR_LEN) {
            return Some(sector);
        }
    }
    None
}

fn needs_status(
    request: &Request,
    identity: &Identity,
    is_touched_protected: bool,
    code: u8,
) -> bool
    ensures { FindsNeed request.now identity.now is_touched_protected code result }
{
    match request.what {
        What::WpRange { .. } => code != identity.status().code(),
        _ => request.unlock && is_touched_protected,
    }
}

/// Checks a request against the touched sectors, where `code` is the result of `judge_identity`. Returns whether
/// protection must be lifted.
///
/// If the status registers must be written and are locked, returns error 9. Otherwise, if a touched sector is protected
/// and the request doesn't unlock, returns error 10 with the address of the first such sector.
#[tactic(auto, using(crate::proofs::OneVerdict::scan_judged, crate::proofs::OneVerdict::scan_accepted))]
pub fn judge_scan(
    request: &Request,
    identity: &Identity,
    touched: &SectorSet,
    code: u8,
) -> Result<bool, Refusal>
    ensures faults { IfErr result IsScanRefusal }
    ensures lifts { IfOk result (Lifts request.now touched.now) }
    ensures accepts { AcceptsScan request.now identity.now code (has touched.now) result }
    ensures errors { RefusesScan request.now identity.now code (has touched.now) result }
{
    let held = first_protected(touched, identity);
    let writes = needs_status(request, identity, held.is_some(), code);
    if writes && identity.status().is_locked() {
        return Err(Refusal::StatusLocked);
    }
    match held {
        None => Ok(false),
        Some(_) if request.unlock => Ok(true),
        Some(sector) => Err(Refusal::Protected {
            address: SECTOR_LEN * sector,
        }),
    }
}

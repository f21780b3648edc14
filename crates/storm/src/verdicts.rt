//! The error that a call must return, if any: the first one in the order in which the call must check.

use crate::cases::Case;
use crate::chips::Chip;
use crate::wanted::{Sector, Wanted};
use crate::{guards, parameters};
use nor_chip::{Config, SECTOR_LEN};
use nor_probe::{ChipName, part_of};
use nor_session::{Refusal, What};

pub fn is_in_table(config: &Config) -> bool {
    name_of(config) != ChipName::Sfdp
}

/// Returns the name that a probe must find for the chip: `Sfdp` if its ID isn't in the table.
pub fn name_of(config: &Config) -> ChipName {
    part_of(config.id).map_or(ChipName::Sfdp, |part| part.name)
}

/// Returns whether the ID is one that a bus without a chip returns: all FFh or all 00h.
pub fn is_no_chip(config: &Config) -> bool {
    config.id == [0xFF; 3] || config.id == [0x00; 3]
}

/// Returns the first error of a probe: no chip, an unknown chip, or another name than `named`.
pub fn of_probe(config: &Config, named: Option<ChipName>) -> Option<Refusal> {
    if is_no_chip(config) {
        return Some(Refusal::NoChip);
    }
    if !is_in_table(config) {
        if let Err(fault) = parameters::read(&config.sfdp, config.size) {
            return Some(Refusal::UnknownChip(fault));
        }
    }
    match named {
        Some(name) if name != name_of(config) => Some(Refusal::OtherName),
        _ => None,
    }
}

pub fn of_image(case: &Case) -> Option<Refusal> {
    let chip = case.chip.config.size;
    let image = case.image.len();
    if image == chip as usize {
        None
    } else {
        Some(Refusal::ImageSize { chip, image })
    }
}

pub fn of_places(case: &Case) -> Option<Refusal> {
    match case.last_included() {
        Some(last) if last >= case.chip.config.size => Some(Refusal::RegionOutside),
        _ => None,
    }
}

pub fn of_opening(case: &Case) -> Option<Refusal> {
    let config = &case.chip.config;
    let protection = of_protection(config.scheme, guards::code_of(case.chip.status));
    let probe = of_probe(config, case.request.named);
    match case.request.what {
        What::Write | What::Erase => probe.or(of_image(case)).or(of_places(case)).or(protection),
        What::WpRange { .. } if !config.scheme => probe.or(Some(Refusal::NoProtection)),
        What::WpRange { start, len } => probe.or(protection).or(of_range(start, len, config.size)),
    }
}

fn of_protection(scheme: bool, code: u8) -> Option<Refusal> {
    if scheme && guards::is_undefined(code) {
        Some(Refusal::UndefinedProtection)
    } else {
        None
    }
}

fn of_range(start: u32, len: u32, size: u32) -> Option<Refusal> {
    match guards::least_code(start, len, size) {
        Some(_) => None,
        None => Some(Refusal::RangeNotOffered),
    }
}

/// Returns error 9 or 10 of a session without errors 1 to 8, if any.
pub fn of_changes(case: &Case, wanted: &Wanted) -> Option<Refusal> {
    let chip = &case.chip;
    let guarded = wanted.first_guarded(chip);
    let other_code = guards::code_of(wanted.status) != guards::code_of(chip.status);
    let writes_status = other_code || (case.request.unlock && guarded.is_some());
    if writes_status && guards::is_locked(chip.status) {
        return Some(Refusal::StatusLocked);
    }
    match guarded {
        Some(sector) if !case.request.unlock => Some(Refusal::Protected {
            address: sector.saturating_mul(SECTOR_LEN),
        }),
        _ => None,
    }
}

/// The contents of a journal: the original chip, and its sectors, of which the touched ones were saved.
#[derive(Clone, Copy)]
pub struct Saved<'a> {
    pub chip: &'a Chip,
    pub sectors: &'a [Sector],
}

/// Returns the first of errors 1, 2, 16, 20, 17 and 9 of a restore with the target `wanted`, if any.
pub fn of_restore(chip: &Chip, saved: Saved<'_>, wanted: &Wanted) -> Option<Refusal> {
    of_probe(&chip.config, None)
        .or(of_journal(&chip.config, saved))
        .or(of_unit(chip, saved))
        .or(of_lock(chip, saved, wanted))
}

pub fn of_journal(config: &Config, saved: Saved<'_>) -> Option<Refusal> {
    let old = &saved.chip.config;
    if config.id == old.id && config.size == old.size {
        None
    } else {
        Some(Refusal::OtherChip)
    }
}

/// Returns error 20 for a journal of another device, error 17 if status bits that no restore of this chip changes
/// differ, or `None`.
pub fn of_unit(chip: &Chip, saved: Saved<'_>) -> Option<Refusal> {
    if chip.config.unique != saved.chip.config.unique {
        return Some(Refusal::OtherUnit);
    }
    let differs = if chip.config.scheme {
        guards::fixed(chip.status) != guards::fixed(saved.chip.status)
    } else {
        guards::kept(chip.status) != guards::kept(saved.chip.status)
    };
    if differs {
        Some(Refusal::StatusDiffers)
    } else {
        None
    }
}

pub fn of_lock(chip: &Chip, saved: Saved<'_>, wanted: &Wanted) -> Option<Refusal> {
    let other_code = guards::code_of(chip.status) != guards::code_of(saved.chip.status);
    let writes_status = other_code || wanted.first_guarded(chip).is_some();
    if writes_status && guards::is_locked(chip.status) {
        return Some(Refusal::StatusLocked);
    }
    None
}

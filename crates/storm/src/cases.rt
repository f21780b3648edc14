//! Random cases: a chip, a request and an image.

use crate::chips::{self, Chip};
use crate::dice::Dice;
use crate::fault::Fault;
use crate::{contents, guards, verdicts};
use nor_chip::SECTOR_LEN;
use nor_layout::{Layout, Ranges, Span};
use nor_probe::ChipName;
use nor_session::{Request, What};
use std::alloc::Global;
use std::fmt::Write;

#[derive(Drop)]
pub struct Case {
    pub chip: Chip,
    pub image: Vec<u8>,
    pub request: Request,
    /// The spans that the request includes, as drawn, or `None` for the whole chip.
    pub included: Option<Vec<Span>>,
}

impl Case {
    /// Draws a case. One chip in five has block protection, so that the errors of block protection occur often enough.
    pub fn next(alloc: Global, dice: &mut Dice) -> Result<Case, Fault> {
        let chip = chip_for(alloc, dice)?;
        let image = image_for(alloc, dice, &chip)?;
        let (request, included) = request_for(alloc, dice, &chip)?;
        Ok(Case {
            chip,
            image,
            request,
            included,
        })
    }

    pub fn includes(&self, address: u32) -> bool {
        self.reaches(address, address)
    }

    pub fn includes_in(&self, sector: u32) -> bool {
        let first = sector.saturating_mul(SECTOR_LEN);
        self.reaches(first, first.saturating_add(4095))
    }

    fn reaches(&self, first: u32, last: u32) -> bool {
        let Some(spans) = &self.included else {
            return true;
        };
        for span in spans.iter() {
            if span.first <= last && first <= span.last {
                return true;
            }
        }
        false
    }

    /// Returns the greatest included address, or `None` if the whole chip is included.
    pub fn last_included(&self) -> Option<u32> {
        match &self.included {
            Some(spans) => spans.iter().map(|span| span.last).max(),
            None => None,
        }
    }
}

fn chip_for(alloc: Global, dice: &mut Dice) -> Result<Chip, Fault> {
    if dice.hits(1, 5) {
        chips::large(alloc, dice)
    } else {
        chips::small(alloc, dice)
    }
}

fn request_for(
    alloc: Global,
    dice: &mut Dice,
    chip: &Chip,
) -> Result<(Request, Option<Vec<Span>>), Fault> {
    let what = what_for(dice, chip);
    let spans = if dice.hits(1, 2) {
        Some(spans_for(alloc, dice, chip)?)
    } else {
        None
    };
    let included = match &spans {
        Some(spans) => Some(ranges_of(alloc, spans.as_slice())?),
        None => None,
    };
    let request = Request {
        what,
        named: name_for(dice, chip),
        included,
        unlock: dice.hits(1, 2),
        verify: dice.hits(1, 2),
    };
    Ok((request, spans))
}

// Draws an image. In some images all bytes are replaced, and one in 25 has another length than the chip.
fn image_for(alloc: Global, dice: &mut Dice, chip: &Chip) -> Result<Vec<u8>, Fault> {
    let mut image = chip.bytes.to_vec(alloc)?;
    contents::alter(dice, image.as_mut_slice());
    if chip.config.scheme && dice.hits(3, 4) {
        change_guarded(dice, chip, image.as_mut_slice());
    }
    if dice.hits(1, 25) {
        change_length(dice, chip, &mut image)?;
    }
    Ok(image)
}

fn change_length(dice: &mut Dice, chip: &Chip, image: &mut Vec<u8>) -> Result<(), Fault> {
    match dice.below(4) {
        0 => image.push(0x00)?,
        1 => image.truncate(0),
        2 => image.truncate(dice.below(chip.config.size) as usize),
        _ => {
            let _ = image.pop();
        }
    }
    Ok(())
}

fn change_guarded(dice: &mut Dice, chip: &Chip, image: &mut [u8]) {
    let (start, len) = guards::guarded_places(guards::code_of(chip.status), chip.config.size);
    let last = start.saturating_add(len).saturating_sub(1);
    if len > 0
        && let Some(byte) = image.get_mut(dice.pick(start, &[last]) as usize)
    {
        *byte ^= dice.byte() | 0x01;
    }
}

// Draws what is requested. With block protection 8 requests in 20 are for a protected range, without it 1 in 20.
fn what_for(dice: &mut Dice, chip: &Chip) -> What {
    let ranges = if chip.config.scheme { 8 } else { 1 };
    if dice.hits(ranges, 20) {
        let (start, len) = guards::guarded_places(dice.byte() % 64, chip.config.size);
        let start = start.saturating_add(dice.pick(0, &[0, 0, 0, SECTOR_LEN]));
        let len = len.saturating_add(dice.pick(0, &[0, 0, 0, 0, 1]));
        return What::WpRange { start, len };
    }
    dice.pick(What::Write, &[What::Write, What::Erase])
}

fn name_for(dice: &mut Dice, chip: &Chip) -> Option<ChipName> {
    let right = verdicts::name_of(&chip.config);
    let listed = chips::row(dice).map_or(right, |part| part.name);
    let names = [ChipName::Other, ChipName::Sfdp, listed, listed];
    match dice.below(24) {
        0..4 => Some(right),
        4 => Some(dice.pick(right, &names)),
        _ => None,
    }
}

fn spans_for(alloc: Global, dice: &mut Dice, chip: &Chip) -> Result<Vec<Span>, Fault> {
    let mut spans = Vec::new(alloc);
    for _ in 0..dice.pick(1, &[2, 3, 4]) {
        spans.push(span_for(dice, chip.config.size))?;
    }
    Ok(spans)
}

// Draws a span. Its greatest length is 300, 4,096 or 40,000 bytes, or half of the chip; one span in 40 may be longer.
fn span_for(dice: &mut Dice, size: u32) -> Span {
    let sector = contents::sector(dice, size / SECTOR_LEN);
    let offset = dice.pick(0, &[0, 0x800, 0xFFF, 0x100]);
    let first = sector.saturating_mul(SECTOR_LEN).saturating_add(offset);
    let most = dice.pick(300, &[SECTOR_LEN, SECTOR_LEN, 40_000, size / 2]);
    let last = first.saturating_add(dice.below(most));
    let end = size.saturating_sub(1);
    if dice.hits(1, 40) {
        return Span {
            first,
            last: last.max(dice.pick(size, &[end, u32::MAX])),
        };
    }
    Span {
        first: first.min(end),
        last: last.min(end),
    }
}

// Returns the addresses of these spans, read from a layout in which each span is an included region.
fn ranges_of(alloc: Global, spans: &[Span]) -> Result<Ranges, Fault> {
    let mut names = String::from_str(alloc, "r0")?;
    let mut text = String::new(alloc);
    put_regions(&mut text, &mut names, spans)?;
    included(alloc, text.as_str(), names.as_str())
}

fn put_regions(text: &mut String, names: &mut String, spans: &[Span]) -> Result<(), Fault> {
    for (number, span) in spans.iter().enumerate() {
        let Span { first, last } = *span;
        writeln!(text, "0x{first:x}:{last:08X} r{number}")?;
        write!(names, ",r{number}")?;
    }
    Ok(())
}

fn included(alloc: Global, text: &str, names: &str) -> Result<Ranges, Fault> {
    let layout = Layout::read(alloc, text.as_bytes())?;
    Ok(layout.include(names)?)
}

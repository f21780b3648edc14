//! The target of a session or restore, and the work to reach it, computed by simple rules.

use crate::cases::Case;
use crate::chips::Chip;
use crate::fault::Fault;
use crate::guards::{self, Status};
use nor_chip::SECTOR_LEN;
use nor_layout::Span;
use nor_session::What;
use std::alloc::Global;

#[derive(Clone, Copy)]
pub struct Sector {
    pub touched: bool,
    pub raised: bool,
    pub pages: u32,
}

/// The target: the bytes and non-volatile status bits that the chip must get, and the change of each sector.
#[derive(Drop)]
pub struct Wanted {
    pub bytes: Vec<u8>,
    pub status: Status,
    pub sectors: Vec<Sector>,
}

#[derive(Clone, Copy)]
pub struct Work {
    pub touched: u64,
    pub raised: u64,
    pub erases: u64,
    pub programs: u64,
    pub status_writes: u64,
}

impl Wanted {
    pub fn of_case(alloc: Global, case: &Case) -> Result<Wanted, Fault> {
        let mut bytes = case.chip.bytes.to_vec(alloc)?;
        if is_of_bytes(case.request.what) {
            take_included(case, bytes.as_mut_slice());
        }
        Self::new(alloc, &case.chip, bytes, wanted_status(case))
    }

    pub fn new(
        alloc: Global,
        chip: &Chip,
        bytes: Vec<u8>,
        status: Status,
    ) -> Result<Wanted, Fault> {
        let sectors = sectors_of(alloc, chip.bytes.as_slice(), bytes.as_slice())?;
        Ok(Wanted {
            bytes,
            status,
            sectors,
        })
    }

    pub fn first_guarded(&self, chip: &Chip) -> Option<u32> {
        if !chip.config.scheme {
            return None;
        }
        let code = guards::code_of(chip.status);
        (0..chip.sectors()).find(|number| {
            self.touches(*number) && guards::guards_some(code, chip.config.size, *number)
        })
    }

    pub fn touches(&self, number: u32) -> bool {
        touches(self.sectors.as_slice(), number)
    }

    pub fn count(&self) -> u32 {
        u32::try_from(self.sectors.len()).unwrap_or(u32::MAX)
    }

    /// Returns whether each of the `count` sectors from `first` on is raised. Sectors past the end count as raised.
    pub fn raises_all(&self, first: u32, count: u32) -> bool {
        let from = self.sectors.get(first as usize..).unwrap_or(&[]);
        are_raised(from.get(..count as usize).unwrap_or(from))
    }

    pub fn work(&self, chip: &Chip) -> Work {
        let sectors = self.sectors.as_slice();
        Work {
            touched: touched_in(sectors),
            raised: raised_in(sectors),
            erases: fewest_erases(sectors, chip),
            programs: pages_in(sectors),
            status_writes: self.status_writes(chip),
        }
    }

    // Counts the status writes: one that clears the protection bits if a touched sector is protected, and one that sets
    // the protection bits of the target if they differ then.
    fn status_writes(&self, chip: &Chip) -> u64 {
        let lifted = self.first_guarded(chip).is_some();
        let code = if lifted {
            0
        } else {
            guards::code_of(chip.status)
        };
        let last = code != guards::code_of(self.status);
        u64::from(lifted) + u64::from(last)
    }
}

fn is_of_bytes(what: What) -> bool {
    what == What::Write || what == What::Erase
}

fn take_included(case: &Case, bytes: &mut [u8]) {
    let whole = [Span {
        first: 0,
        last: u32::MAX,
    }];
    let spans = match &case.included {
        Some(spans) => spans.as_slice(),
        None => &whole,
    };
    for span in spans {
        take_span(case, *span, bytes);
    }
}

fn take_span(case: &Case, span: Span, bytes: &mut [u8]) {
    let erases = case.request.what == What::Erase;
    let places = bytes.iter_mut().zip(case.image.iter());
    let up_to = (span.last as usize).saturating_add(1);
    for (byte, new) in places.take(up_to).skip(span.first as usize) {
        *byte = if erases { 0xFF } else { *new };
    }
}

// Returns the target status. For a range it has the least protection bits that protect exactly this range, if any do.
fn wanted_status(case: &Case) -> Status {
    let status = guards::kept(case.chip.status);
    let What::WpRange { start, len } = case.request.what else {
        return status;
    };
    match guards::least_code(start, len, case.chip.config.size) {
        Some(code) => guards::with_code(status, code),
        None => status,
    }
}

fn sectors_of(alloc: Global, old: &[u8], new: &[u8]) -> Result<Vec<Sector>, Fault> {
    let mut sectors = Vec::new(alloc);
    for (old, new) in old
        .chunks(SECTOR_LEN as usize)
        .zip(new.chunks(SECTOR_LEN as usize))
    {
        sectors.push(sector_of(old, new))?;
    }
    Ok(sectors)
}

fn sector_of(old: &[u8], new: &[u8]) -> Sector {
    if old == new {
        return Sector {
            touched: false,
            raised: false,
            pages: 0,
        };
    }
    let raised = rises(old, new);
    Sector {
        touched: true,
        raised,
        pages: pages_of(old, new, raised),
    }
}

fn rises(old: &[u8], new: &[u8]) -> bool {
    old.iter().zip(new).any(|(old, new)| *new & !*old != 0)
}

// Counts the pages to program: in a raised sector those whose target isn't all FFh, otherwise those that change.
fn pages_of(old: &[u8], new: &[u8], raised: bool) -> u32 {
    let mut pages = 0_u32;
    for (old, new) in old.chunks(256).zip(new.chunks(256)) {
        let programmed = if raised {
            new.iter().any(|byte| *byte != 0xFF)
        } else {
            old != new
        };
        pages = pages.saturating_add(u32::from(programmed));
    }
    pages
}

// Returns the number of erases: one if all sectors are raised (a chip erase), otherwise one for each of the largest
// aligned blocks that have only raised sectors and a size that the chip can erase.
fn fewest_erases(sectors: &[Sector], chip: &Chip) -> u64 {
    if are_raised(sectors) {
        return 1;
    }
    let mut erases = 0_u64;
    for block in sectors.chunks(16) {
        erases = erases.saturating_add(if chip.config.kinds.k64 && are_raised(block) {
            1
        } else {
            erases_of_halves(block, chip)
        });
    }
    erases
}

fn erases_of_halves(block: &[Sector], chip: &Chip) -> u64 {
    let mut erases = 0_u64;
    for half in block.chunks(8) {
        erases = erases.saturating_add(if chip.config.kinds.k32 && are_raised(half) {
            1
        } else {
            raised_in(half)
        });
    }
    erases
}

fn are_raised(sectors: &[Sector]) -> bool {
    sectors.iter().all(|sector| sector.raised)
}

pub fn touches(sectors: &[Sector], number: u32) -> bool {
    match sectors.get(number as usize) {
        Some(sector) => sector.touched,
        None => false,
    }
}

pub fn touched_in(sectors: &[Sector]) -> u64 {
    let mut touched = 0_u64;
    for sector in sectors {
        touched = touched.saturating_add(u64::from(sector.touched));
    }
    touched
}

fn pages_in(sectors: &[Sector]) -> u64 {
    let mut pages = 0_u64;
    for sector in sectors {
        pages = pages.saturating_add(u64::from(sector.pages));
    }
    pages
}

fn raised_in(sectors: &[Sector]) -> u64 {
    let mut raised = 0_u64;
    for sector in sectors {
        raised = raised.saturating_add(u64::from(sector.raised));
    }
    raised
}

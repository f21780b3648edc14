//! Random chips, and simulated buses to them.

use crate::contents;
use crate::dice::Dice;
use crate::fault::Fault;
use crate::guards::Status;
use crate::model::Stop;
use crate::parameters::{self, Told};
use nor_chip::{Config, Delays, Meter, SECTOR_LEN, SimBus};
use nor_probe::{Part, part_of};
use std::alloc::Global;

#[derive(Drop)]
pub struct Chip {
    pub config: Config,
    pub bytes: Vec<u8>,
    /// Status 1 and 2. Bit 1 of status 1 is the write enable latch; BUSY and SUS are ignored.
    pub status: Status,
    pub delays: Delays,
}

impl Chip {
    pub fn bus(&self, alloc: Global, stop: Stop) -> Result<SimBus, Fault> {
        let bytes = self.bytes.to_vec(alloc)?;
        let mut bus = SimBus::new(self.config, bytes, self.status, self.delays)?;
        bus.lose(stop.fill);
        bus.tear(stop.cut);
        bus.allow(stop.after);
        Ok(bus)
    }

    pub fn sectors(&self) -> u32 {
        self.config.size / SECTOR_LEN
    }

    pub fn copy(&self, alloc: Global) -> Result<Chip, Fault> {
        Ok(Chip {
            config: self.config,
            bytes: self.bytes.to_vec(alloc)?,
            status: self.status,
            delays: self.delays,
        })
    }

    pub fn is_idle(&self) -> bool {
        self.delays.now == 0
    }
}

/// Draws a chip of 64, 128 or 256 KiB whose ID isn't in the table of chips. A few chips have bad SFDP bytes, or an ID
/// that means no chip.
pub fn small(alloc: Global, dice: &mut Dice) -> Result<Chip, Fault> {
    let told = Told {
        size: dice.pick(65_536, &[131_072, 262_144]),
        k32: dice.hits(1, 2),
        k64: dice.hits(1, 2),
    };
    let mut shown = parameters::show(dice, told);
    if dice.hits(1, 20) {
        parameters::damage(dice, &mut shown);
    }
    // If a probe accepts the SFDP, the chip has the size and erase types that the SFDP describes.
    let told = parameters::read(&shown, told.size).unwrap_or(told);
    let id = id_for(dice);
    let Some(config) = Config::new(id, told.size, told.k32, told.k64, false, &shown) else {
        return Err(Fault::Case);
    };
    let status = [dice.byte(), dice.byte()];
    chip_of(alloc, dice, config, status)
}

// Draws an ID that isn't in the table of chips. One ID in 40 means that there is no chip.
fn id_for(dice: &mut Dice) -> [u8; 3] {
    let last = dice.byte();
    let ids = [
        [0xFF, 0xFF, last & 0x7F],
        [0x00, 0x00, last | 0x01],
        [0x01, last, 0x17],
    ];
    if dice.hits(1, 40) {
        dice.pick([0xFF; 3], &[[0x00; 3]])
    } else {
        dice.pick([0xFE, 0x10, 0x10], &ids)
    }
}

pub fn row(dice: &mut Dice) -> Option<Part> {
    let (first, others) = nor_probe::chips().split_first()?;
    Some(dice.pick(*first, others))
}

pub fn listed(id: [u8; 3]) -> Option<Config> {
    let part = part_of(id)?;
    Some(Config::emulated(part.id, part.size, part.kinds, part.scheme))
}

/// Draws a chip of the table, with block protection: at least four times in five a W25Q64FV.
pub fn large(alloc: Global, dice: &mut Dice) -> Result<Chip, Fault> {
    let status = protection(dice);
    if dice.hits(4, 5) {
        return chip_of(alloc, dice, Config::w25q64fv(), status);
    }
    let part = row(dice).ok_or(Fault::Case)?;
    let config = listed(part.id).ok_or(Fault::Case)?;
    chip_of(alloc, dice, config, status)
}

/// Draws two status bytes. About one pair in three is locked, and at least one in eight has undefined protection bits.
pub fn protection(dice: &mut Dice) -> Status {
    let lock1 = dice.pick(0x80, &[0x00, 0x00, 0x00, 0x00]);
    let lock2 = dice.pick(0x01, &[0x00, 0x00, 0x00, 0x00]);
    let any = [dice.byte() & 0x7C, dice.byte() & 0x40];
    let [code1, code2] = if dice.hits(1, 8) {
        dice.pick([0x58, 0x00], &[[0x78, 0x40]])
    } else {
        dice.pick([0x00, 0x00], &[[0x04, 0x00], any, any, any])
    };
    let latch = dice.byte() & 0x03;
    let others = dice.byte() & 0xBE;
    [lock1 | code1 | latch, lock2 | code2 | others]
}

fn chip_of(alloc: Global, dice: &mut Dice, config: Config, status: Status) -> Result<Chip, Fault> {
    let mut bytes = vec![in alloc; 0xFF; config.size as usize]?;
    contents::paint(dice, bytes.as_mut_slice());
    let mut unique = [0; 8];
    if dice.hits(1, 2) {
        dice.fill(&mut unique);
    }
    let delays = Delays {
        now: dice.pick(0, &[0, 0, 1, 2, 3, 300]),
        each: dice.pick(0, &[0, 1, 2, 3]),
    };
    Ok(Chip {
        config: config.with_unique(unique),
        bytes,
        status,
        delays,
    })
}

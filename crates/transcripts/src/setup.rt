//! The chip of a case, and the bus to it.

use crate::fault::Fault;
use nor_chip::{Config, Delays, Meter, SimBus, Spoil, SpoiltBus, TraceBus};
use std::alloc::Global;

/// The bus of a case: traced, and faulty if the case asks for it.
pub type Way<'a> = TraceBus<SpoiltBus<SimBus>, &'a mut Vec<u8>>;

// A setting with which the faulty bus spoils nothing, because a byte has no bit 8.
const HONEST: Spoil = Spoil::Low(8);

/// The parsed line `chip` of a case: the chip, and the initial state of the chip and of the bus to it.
#[derive(Clone, Copy)]
pub struct Setup {
    pub config: Config,
    start: Start,
}

#[derive(Clone, Copy)]
struct Start {
    fill: u8,
    status: [u8; 2],
    unique: [u8; 8],
    delays: Delays,
    allowed: u64,
    lost: Option<u8>,
    spoil: Spoil,
}

impl Setup {
    pub fn read(words: &str) -> Result<Setup, Fault> {
        let (name, settings) = words.split_once(' ').unwrap_or((words, ""));
        let config = config_of(name).ok_or(Fault::Unread)?;
        let start = Start::read(settings)?;
        Ok(Setup {
            config: config.with_unique(start.unique),
            start,
        })
    }

    /// Creates the chip and a bus to it, in their initial state. The bus writes its trace to `log`.
    pub fn bus<'a>(&self, alloc: Global, log: &'a mut Vec<u8>) -> Result<Way<'a>, Fault> {
        let start = self.start;
        let bytes = vec![in alloc; start.fill; self.config.size as usize]?;
        let mut chip = SimBus::new(self.config, bytes, start.status, start.delays)?;
        chip.lose(start.lost);
        chip.allow(start.allowed);
        Ok(TraceBus::new(SpoiltBus::new(chip, start.spoil), log))
    }
}

impl Start {
    fn read(settings: &str) -> Result<Start, Fault> {
        let mut start = Start {
            fill: 0xFF,
            status: [0x00, 0x00],
            unique: [0; 8],
            delays: Delays { now: 0, each: 0 },
            allowed: 100,
            lost: None,
            spoil: HONEST,
        };
        for setting in settings.split_whitespace() {
            let (key, number) = setting_of(setting)?;
            start.set(key, number);
        }
        Ok(start)
    }

    fn set(&mut self, key: Key, number: u64) {
        let [.., high, low] = number.to_be_bytes();
        match key {
            Key::Of => self.fill = low,
            Key::Status => self.status = [high, low],
            Key::Unique => self.unique = number.to_be_bytes(),
            Key::Busy => self.delays.now = u16::from_be_bytes([high, low]),
            Key::Each => self.delays.each = u16::from_be_bytes([high, low]),
            Key::Allow => self.allowed = number,
            Key::Lose => self.lost = Some(low),
            Key::Answers => self.spoil = Spoil::Fill(low),
            Key::BusyFrom => self.spoil = Spoil::BusyFrom(number),
            Key::Drops => self.spoil = Spoil::Drop(number),
            Key::Low => self.spoil = Spoil::Low(low),
        }
    }
}

#[derive(Clone, Copy)]
enum Key {
    Of,
    Status,
    Unique,
    Busy,
    Each,
    Allow,
    Lose,
    Answers,
    BusyFrom,
    Drops,
    Low,
}

// The text of each key, the key, its greatest value, and whether the value is hexadecimal.
const KEYS: [(&str, Key, u64, bool); 11] = [
    ("of", Key::Of, 0xFF, true),
    ("status", Key::Status, 0xFFFF, true),
    ("unique", Key::Unique, u64::MAX, true),
    ("busy", Key::Busy, 0xFFFF, false),
    ("each", Key::Each, 0xFFFF, false),
    ("allow", Key::Allow, u64::MAX, false),
    ("lose", Key::Lose, 0xFF, true),
    ("answers", Key::Answers, 0xFF, true),
    ("busy-from", Key::BusyFrom, u64::MAX, false),
    ("drops", Key::Drops, u64::MAX, false),
    ("low", Key::Low, 0xFF, false),
];

fn setting_of(setting: &str) -> Result<(Key, u64), Fault> {
    let (name, value) = setting.split_once('=').ok_or(Fault::Unread)?;
    for (known, key, most, is_hexadecimal) in &KEYS {
        if *known == name {
            let number = u64::from_str_radix(value, if *is_hexadecimal { 16 } else { 10 })?;
            if number <= *most {
                return Ok((*key, number));
            }
        }
    }
    Err(Fault::Unread)
}

// Returns the configuration of a named chip. `BLOCKS` has erases of 32 and 64 KiB, and `SECTORS` has block protection.
fn config_of(name: &str) -> Option<Config> {
    let id = [0xAA, 0x11, 0x22];
    match name {
        "TINY64" => Some(Config::tiny64()),
        "W25Q64FV" => Some(Config::w25q64fv()),
        "W25Q128FV" => Some(Config::w25q128fv()),
        "BLOCKS" => Config::new(id, 0x2_0000, true, true, false, &[]),
        "SECTORS" => Config::new(id, 0x2_0000, false, false, true, &[0x53]),
        _ => None,
    }
}

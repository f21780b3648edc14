//! The checks of a case after all its actions.

use crate::agree::{agree, put_number, put_text};
use crate::digits::{address_of, addresses_of, byte_of, pair_of, status_of};
use crate::fault::Fault;
use crate::guards;
use crate::word::Word;
use nor_chip::{Config, Delays, Offered, SimBus, Status, code_for, offered};
use std::alloc::Global;
use std::fmt::Write;
use std::str::Lines;

/// The chip after the actions of a case, and the number of transactions that the bus did not stop.
#[derive(Drop)]
pub struct Left {
    pub chip: SimBus,
    pub sent: u64,
}

#[derive(Drop)]
pub struct Answers<'a> {
    config: Config,
    left: Left,
    trace: Lines<'a>,
    is_traced: bool,
    // the protectable ranges that no line `set` has checked yet
    sets: Offered,
}

impl<'a> Answers<'a> {
    pub fn new(config: Config, left: Left, log: &'a [u8]) -> Answers<'a> {
        Answers {
            config,
            left,
            trace: str::from_utf8(log).unwrap_or("no text").lines(),
            is_traced: false,
            sets: offered(config.size),
        }
    }

    /// Makes the check of a line. `came` must be empty; after the fault `Differs` it has the actual value.
    pub fn check(
        &mut self,
        alloc: Global,
        came: &mut String,
        word: Word,
        rest: &str,
    ) -> Result<(), Fault> {
        if matches!(word, Word::Traced) {
            return self.check_trace(came, rest);
        }
        let (words, wanted) = rest.split_once("= ").ok_or(Fault::Unread)?;
        let words = words.trim();
        match word {
            Word::Array => self.check_array(came, words, wanted),
            Word::Guards => self.check_guards(came, words, wanted),
            Word::Set => self.check_set(came, words, wanted),
            _ => self.check_text(alloc, came, word, words, wanted),
        }
    }

    fn check_text(
        &self,
        alloc: Global,
        came: &mut String,
        word: Word,
        words: &str,
        wanted: &str,
    ) -> Result<(), Fault> {
        self.put(alloc, came, word, words)?;
        agree(came, wanted)
    }

    fn put(&self, alloc: Global, came: &mut String, word: Word, words: &str) -> Result<(), Fault> {
        let config = &self.config;
        match word {
            Word::Status => put_status(came, self.left.chip.status()),
            Word::Sent => put_number(came, self.left.sent),
            Word::Sets => put_number(came, offered(config.size).count() as u64),
            Word::Unit => guards::put_unit(came, config, words),
            Word::Least => guards::put_least(came, config, words),
            Word::Size => put_made(came, words),
            Word::Bytes => put_length(alloc, came, *config, words),
            _ => Err(Fault::Unread),
        }
    }

    /// Checks that the trace has no further lines, if a check of the case compared a line of the trace before.
    pub fn end(mut self, came: &mut String) -> Result<(), Fault> {
        match self.trace.next() {
            Some(line) if self.is_traced => {
                came.push_str(line)?;
                Err(Fault::Differs)
            }
            _ => Ok(()),
        }
    }

    // Checks all bytes: `ff else 00` stands for FFh in the range `words` and 00h elsewhere, and `ff` for FFh
    // everywhere.
    fn check_array(&self, came: &mut String, words: &str, bytes: &str) -> Result<(), Fault> {
        let places = addresses_of(words)?;
        let (inside, outside) = bytes.split_once(" else ").unwrap_or((bytes, bytes));
        let values = (byte_of(inside)?, byte_of(outside)?);
        match unlike(self.left.chip.bytes(), places, values) {
            Some(place) => tell_place(came, place),
            None => Ok(()),
        }
    }

    fn check_guards(&self, came: &mut String, words: &str, places: &str) -> Result<(), Fault> {
        let status = status_of(words)?;
        guards::check(came, &self.config, status, addresses_of(places)?)
    }

    fn check_trace(&mut self, came: &mut String, line: &str) -> Result<(), Fault> {
        self.is_traced = true;
        let next = self.trace.next().unwrap_or("the trace's end");
        if next == line {
            return Ok(());
        }
        came.push_str(next)?;
        Err(Fault::Differs)
    }

    // Checks that `words` is the next protectable range, and that the status `wanted` has the least protection bits for
    // this range and protects exactly this range (see `guards::check`).
    fn check_set(&mut self, came: &mut String, words: &str, wanted: &str) -> Result<(), Fault> {
        let set = pair_of(words)?;
        let status = status_of(wanted)?;
        let next = self.sets.next();
        if next != Some(set) {
            return tell_set(came, next.unwrap_or((0, 0)));
        }
        let (start, len) = set;
        if code_for(start, len, self.config.size) != Some(Status::of(status).code()) {
            return guards::put_least(came, &self.config, words).and(Err(Fault::Differs));
        }
        let places = (start, start.saturating_add(len));
        guards::check(came, &self.config, status, places)
    }
}

fn tell_set(came: &mut String, (start, len): (u32, u32)) -> Result<(), Fault> {
    write!(came, "{start:06x} {len:06x}")?;
    Err(Fault::Differs)
}

fn tell_place(came: &mut String, (at, byte): (usize, u8)) -> Result<(), Fault> {
    write!(came, "{byte:02x} at {at:06x}")?;
    Err(Fault::Differs)
}

// Returns the first address whose byte isn't `inside` (within `places`) or `outside` (elsewhere), and this byte.
fn unlike(bytes: &[u8], places: (u32, u32), (inside, outside): (u8, u8)) -> Option<(usize, u8)> {
    let (start, end) = (places.0 as usize, places.1 as usize);
    for (at, byte) in bytes.iter().enumerate() {
        let wanted = if start <= at && at < end {
            inside
        } else {
            outside
        };
        if *byte != wanted {
            return Some((at, *byte));
        }
    }
    None
}

fn put_status(came: &mut String, [one, two]: [u8; 2]) -> Result<(), Fault> {
    write!(came, "{one:02x}{two:02x}").map_err(Fault::from)
}

// The SFDP bytes for `put_made`, which gives its chip the first bytes of this array.
const SFDP: [u8; 512] = [0xAB; 512];

// Appends `made` to `came` if a chip may have the size and the number of SFDP bytes in `words`, otherwise `none`.
fn put_made(came: &mut String, words: &str) -> Result<(), Fault> {
    let (size, count) = words.split_once(' ').ok_or(Fault::Unread)?;
    let sfdp = SFDP.get(..count.parse()?).ok_or(Fault::Unread)?;
    let config = Config::new([1, 2, 3], address_of(size)?, true, false, false, sfdp);
    put_text(came, if config.is_some() { "made" } else { "none" })
}

// Appends `taken` to `came` if a chip of this `config` may have the number of bytes in `words`, otherwise the error.
fn put_length(alloc: Global, came: &mut String, config: Config, words: &str) -> Result<(), Fault> {
    let bytes = vec![in alloc; 0xFF; words.parse()?]?;
    let delays = Delays { now: 0, each: 0 };
    match SimBus::new(config, bytes, [0x00, 0x00], delays) {
        Ok(_) => put_text(came, "taken"),
        Err(wrong) => write!(came, "{wrong}").map_err(Fault::from),
    }
}

//! The reference implementation over a bus that may be faulty. It knows the chip only by the replies of that bus.

use crate::cases::Case;
use crate::chips::{self, Chip};
use crate::contents::sector_at;
use crate::errors::{CallError, refuse};
use crate::fault::Fault;
use crate::guards::Status;
use crate::high::HighBus;
use crate::lines::Lines;
use crate::parameters::{self, Shown};
use crate::readings::Reading;
use crate::verdicts::{self, Saved};
use crate::wanted::{Wanted, touches};
use crate::{journals, restores, transactions};
use nor_chip::{Bus, Config, Delays, SECTOR_LEN, SimBus, SpoiltBus, Stopped, TraceBus};
use nor_probe::ChipName;
use nor_session::{Refusal, Request, What};
use std::alloc::Global;

pub type Liar<'a> = TraceBus<HighBus<SpoiltBus<SimBus>>, &'a mut Vec<u8>>;

const MOST_POLLS: u32 = 65_536;

/// The bytes that a session must have written to its vault before the end mark, and whether the vault is sealed.
#[derive(Drop)]
pub struct Put {
    pub begun: Vec<u8>,
    pub sealed: bool,
}

#[derive(Drop)]
pub struct Caller<'a> {
    pub bus: Liar<'a>,
    pub put: Put,
    pub alloc: Global,
}

impl<'a> Caller<'a> {
    pub fn new(alloc: Global, bus: Liar<'a>) -> Caller<'a> {
        let put = Put {
            begun: Vec::new(alloc),
            sealed: false,
        };
        Caller { bus, put, alloc }
    }
}

impl Caller<'_> {
    /// Runs the session of a case. The chip is what the replies say; bytes that aren't read count as FFh.
    pub fn session(&mut self, case: &Case) -> Result<(), CallError> {
        let (config, status1) = self.find(case.request.named)?;
        let chip = self.identify(config, status1)?;
        let mut told = asked_of(self.alloc, case, chip)?;
        self.judge(case, &mut told)
    }

    fn judge(&mut self, case: &Case, told: &mut Case) -> Result<(), CallError> {
        refuse(verdicts::of_opening(told))?;
        if !matches!(told.request.what, What::WpRange { .. }) {
            self.scan(case, &mut told.chip)?;
        }
        let wanted = Wanted::of_case(self.alloc, told)?;
        self.put.begun = journals::begun(self.alloc, told, &wanted, told.chip.sectors())?;
        refuse(verdicts::of_changes(told, &wanted))?;
        self.put.sealed = true;
        self.make(told, &wanted)
    }

    fn make(&mut self, told: &mut Case, wanted: &Wanted) -> Result<(), CallError> {
        self.change(&mut told.chip, wanted)?;
        if told.request.verify {
            self.compare(wanted)?;
        }
        Ok(())
    }

    /// Runs a reading call. After success, returns the case of `asked_of` with the chip that the replies describe.
    pub fn reading(&mut self, reading: Reading, case: &Case) -> Result<Case, CallError> {
        let (config, status1) = self.find(case.request.named)?;
        let chip = unread(self.alloc, config, [status1, 0])?;
        let mut told = asked_of(self.alloc, case, chip)?;
        self.read(reading, case, &mut told)?;
        Ok(told)
    }

    fn read(&mut self, reading: Reading, case: &Case, told: &mut Case) -> Result<(), CallError> {
        refuse(reading.early_refusal(told))?;
        match reading {
            Reading::Probe => {}
            Reading::Protection => told.chip.status[1] = self.read_status2()?,
            Reading::Copy | Reading::Comparison => self.scan(case, &mut told.chip)?,
        }
        refuse(reading.refusal(told))
    }

    pub fn restore(&mut self, saved: Saved<'_>) -> Result<(), CallError> {
        let (config, status1) = self.find(None)?;
        refuse(verdicts::of_journal(&config, saved))?;
        let mut chip = self.identify(config, status1)?;
        self.take_saved(saved, &mut chip)?;
        self.give_back(saved, &mut chip)
    }

    fn take_saved(&mut self, saved: Saved<'_>, chip: &mut Chip) -> Result<(), CallError> {
        refuse(verdicts::of_unit(chip, saved))?;
        for number in 0..chip.sectors() {
            if touches(saved.sectors, number) {
                self.take_sector(number, chip)?;
            }
        }
        Ok(())
    }

    fn give_back(&mut self, saved: Saved<'_>, chip: &mut Chip) -> Result<(), CallError> {
        let wanted = restores::restored_of(self.alloc, chip, saved)?;
        refuse(verdicts::of_lock(chip, saved, &wanted))?;
        self.change(chip, &wanted)?;
        self.compare(&wanted)
    }

    fn send(&mut self, out: &[u8], reply: &mut [u8]) -> Result<(), CallError> {
        match self.bus.transfer(out, reply) {
            Ok(()) => Ok(()),
            Err(Stopped) => Err(CallError::Refused(Refusal::Stopped)),
        }
    }

    fn wait(&mut self, address: u32) -> Result<u8, CallError> {
        for _ in 0..MOST_POLLS {
            let mut status1 = [0];
            self.send(&[0x05], &mut status1)?;
            if status1[0] & 0x01 == 0 {
                return Ok(status1[0]);
            }
        }
        Err(CallError::Refused(Refusal::Timeout { address }))
    }

    // Finds the chip. Reads no SFDP if the ID is in the table of chips, or means that there is no chip.
    fn find(&mut self, named: Option<ChipName>) -> Result<(Config, u8), CallError> {
        let status1 = self.wait(0)?;
        let mut id = [0; 3];
        self.send(&[0x9F], &mut id)?;
        let config = match id {
            [0x00, 0x00, 0x00] | [0xFF, 0xFF, 0xFF] => {
                return Err(CallError::Refused(Refusal::NoChip));
            }
            _ => match chips::listed(id) {
                Some(config) => config,
                None => self.find_parameters(id)?,
            },
        };
        refuse(verdicts::of_probe(&config, named))?;
        Ok((config, status1))
    }

    // Reads the SFDP. In the returned configuration the table follows the headers, even if the chip has it elsewhere.
    fn find_parameters(&mut self, id: [u8; 3]) -> Result<Config, CallError> {
        let mut signature = [0; 8];
        self.send(&[0x5A, 0x00, 0x00, 0x00, 0x00], &mut signature)?;
        let mut first = [0; 8];
        self.send(&[0x5A, 0x00, 0x00, 0x08, 0x00], &mut first)?;
        let [.., low, middle, high, _] = first;
        let mut table = [0; 36];
        self.send(&[0x5A, high, middle, low, 0x00], &mut table)?;
        let mut shown: Shown = [0xFF; 256];
        parameters::put(&mut shown, 0, &signature);
        parameters::put(&mut shown, 8, &first);
        parameters::put(&mut shown, 12, &[0x10, 0x00, 0x00]);
        parameters::put(&mut shown, 16, &table);
        match parameters::read(&shown, 65_536) {
            Ok(told) => match Config::new(id, told.size, told.k32, told.k64, false, &shown) {
                Some(config) => Ok(config),
                None => Err(CallError::Failed(Fault::Case)),
            },
            Err(fault) => Err(CallError::Refused(Refusal::UnknownChip(fault))),
        }
    }

    fn identify(&mut self, config: Config, status1: u8) -> Result<Chip, CallError> {
        let status2 = self.read_status2()?;
        let mut unique = [0; 8];
        self.send(&[0x4B, 0x00, 0x00, 0x00, 0x00], &mut unique)?;
        let config = config.with_unique(unique);
        Ok(unread(self.alloc, config, [status1, status2])?)
    }

    fn read_status2(&mut self) -> Result<u8, CallError> {
        let mut status2 = [0];
        self.send(&[0x35], &mut status2)?;
        Ok(status2[0])
    }

    fn scan(&mut self, case: &Case, chip: &mut Chip) -> Result<(), CallError> {
        for number in 0..chip.sectors() {
            if case.includes_in(number) {
                self.take_sector(number, chip)?;
            }
        }
        Ok(())
    }

    fn take_sector(&mut self, number: u32, chip: &mut Chip) -> Result<(), CallError> {
        let sector = chip
            .bytes
            .chunks_mut(SECTOR_LEN as usize)
            .nth(number as usize);
        self.read_sector(number, sector.unwrap_or(&mut []))
    }

    fn read_sector(&mut self, number: u32, sector: &mut [u8]) -> Result<(), CallError> {
        let [_, high, middle, low] = number.saturating_mul(SECTOR_LEN).to_be_bytes();
        self.send(&[0x03, high, middle, low], sector)
    }

    fn change(&mut self, chip: &mut Chip, wanted: &Wanted) -> Result<(), CallError> {
        self.prepare(chip, wanted)?;
        for number in 0..chip.sectors() {
            if wanted.touches(number) {
                self.program(chip, wanted, number)?;
            }
        }
        self.protect(chip, wanted)
    }

    fn prepare(&mut self, chip: &Chip, wanted: &Wanted) -> Result<(), CallError> {
        let mut lines = Lines::new(self.alloc, chip);
        transactions::prepare(&mut lines, chip, wanted);
        self.play(lines)
    }

    fn protect(&mut self, chip: &Chip, wanted: &Wanted) -> Result<(), CallError> {
        let mut lines = Lines::new(self.alloc, chip);
        transactions::protect(&mut lines, chip, wanted);
        self.play(lines)
    }

    // Programs the pages of a sector that differ from the target. A sector that wasn't erased is read again first.
    fn program(&mut self, chip: &mut Chip, wanted: &Wanted, number: u32) -> Result<(), CallError> {
        if !wanted.raises_all(number, 1) {
            self.take_sector(number, chip)?;
        }
        let mut lines = Lines::new(self.alloc, chip);
        transactions::program_sector(&mut lines, chip, wanted, number);
        self.play(lines)
    }

    // Sends the lines that have no reply bytes, and waits after each command except a write enable.
    fn play(&mut self, lines: Lines) -> Result<(), CallError> {
        let lines = lines.whole()?;
        self.play_lines(lines.text())
    }

    fn play_lines(&mut self, lines: &str) -> Result<(), CallError> {
        for line in lines.lines() {
            if !line.contains(" > ") {
                self.play_line(line)?;
            }
        }
        Ok(())
    }

    fn play_line(&mut self, line: &str) -> Result<(), CallError> {
        let command = bytes_of(self.alloc, line)?;
        self.play_command(command.as_slice())
    }

    fn play_command(&mut self, command: &[u8]) -> Result<(), CallError> {
        self.send(command, &mut [])?;
        if command != [0x06].as_slice() {
            self.wait(address_of(command))?;
        }
        Ok(())
    }

    fn compare(&mut self, wanted: &Wanted) -> Result<(), CallError> {
        for number in 0..wanted.count() {
            if wanted.touches(number) {
                self.compare_sector(number, sector_at(wanted.bytes.as_slice(), number))?;
            }
        }
        Ok(())
    }

    fn compare_sector(&mut self, number: u32, wanted: &[u8]) -> Result<(), CallError> {
        let mut shown = [0; SECTOR_LEN as usize];
        self.read_sector(number, &mut shown)?;
        refuse(difference(number.saturating_mul(SECTOR_LEN), &shown, wanted))
    }
}

fn difference(start: u32, shown: &[u8], wanted: &[u8]) -> Option<Refusal> {
    for (address, (byte, new)) in (start..).zip(shown.iter().zip(wanted)) {
        if *byte != *new {
            return Some(Refusal::Mismatch { address });
        }
    }
    None
}

fn unread(alloc: Global, config: Config, status: Status) -> Result<Chip, Fault> {
    Ok(Chip {
        config,
        bytes: vec![in alloc; 0xFF; config.size as usize]?,
        status,
        delays: Delays { now: 0, each: 0 },
    })
}

// Returns the case with this chip, and with the included addresses only in `included`, not in the request.
fn asked_of(alloc: Global, case: &Case, chip: Chip) -> Result<Case, Fault> {
    Ok(Case {
        chip,
        image: case.image.to_vec(alloc)?,
        request: Request {
            what: case.request.what,
            named: case.request.named,
            included: None,
            unlock: case.request.unlock,
            verify: case.request.verify,
        },
        included: match &case.included {
            Some(spans) => Some(spans.to_vec(alloc)?),
            None => None,
        },
    })
}

fn bytes_of(alloc: Global, line: &str) -> Result<Vec<u8>, Fault> {
    let mut bytes = Vec::new(alloc);
    for pair in line.as_bytes().chunks(2) {
        match str::from_utf8(pair).map(|digits| u8::from_str_radix(digits, 16)) {
            Ok(Ok(byte)) => bytes.push(byte)?,
            _ => return Err(Fault::Case),
        }
    }
    Ok(bytes)
}

fn address_of(command: &[u8]) -> u32 {
    match command {
        [0x02 | 0x20 | 0x52 | 0xD8, high, middle, low, ..] => {
            u32::from_be_bytes([0, *high, *middle, *low])
        }
        _ => 0,
    }
}

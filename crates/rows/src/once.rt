//! Tests that a call sends nothing more after a stop or a timeout, and that no call reads a sector again because a
//! reply was spoilt. Only a rehearsal to which stops are given may send more after a stop.
use crate::failing::{Fault, OnceBus};
use crate::held::assert_held;
use crate::row::{Row, Start, erased};
use crate::spoilt::most;
use crate::stages::{Call, Job, Stage};
use nor_chip::{Config, Delays, SECTOR_LEN, Status, Stopped};
use nor_driver::{
    Erase, EraseBlock, OperationError, erase, poll, program_page, read_id, read_parameters,
    read_sector, read_status2, read_unique, wait, write_status,
};
use nor_journal::MemVault;
use nor_session::{Refusal, Rehearsal, rehearse};
use std::alloc::Global;
use std::process::Abort;

#[derive(Clone, Copy)]
enum Command {
    Poll,
    Wait,
    Id,
    Status2,
    Unique,
    Sfdp,
    Sector,
    Erase(EraseBlock),
    Program,
    WriteStatus,
}

impl Command {
    fn is_stopped(self, bus: &mut OnceBus) -> bool {
        match self {
            Command::Poll => poll(bus) == Err(Stopped),
            Command::Wait => wait(bus, 0) == Err(OperationError::Stopped),
            Command::Id => read_id(bus) == Err(Stopped),
            Command::Status2 => read_status2(bus) == Err(Stopped),
            Command::Unique => read_unique(bus) == Err(Stopped),
            Command::Sfdp => {
                let mut bytes = [0x5A; 8];
                read_parameters(bus, 8, &mut bytes) == Err(Stopped) && bytes == [0x5A; 8]
            }
            Command::Sector => {
                let mut bytes = [0x5A; SECTOR_LEN as usize];
                read_sector(bus, 15, &mut bytes) == Err(Stopped)
                    && bytes.iter().all(|byte| *byte == 0x5A)
            }
            Command::Erase(unit) => erase(bus, Erase { unit, sector: 0 })
                == Err(OperationError::Stopped),
            Command::Program => program_page(bus, 0x1080, &[0xA5; 128])
                == Err(OperationError::Stopped),
            Command::WriteStatus => {
                write_status(bus, Status::of([0x04, 0x00]), 2) == Err(OperationError::Stopped)
            }
        }
    }

    fn stop_at_each(self, rt: &impl Abort, alloc: Global, delays: Delays, length: u64) {
        for n in 0..=length {
            let bus = erased(rt, alloc, Config::tiny64(), [0x00, 0x00], delays);
            let mut bus = OnceBus::new(bus, 65_538, Fault::Stop, Some(n));
            let is_stopped = self.is_stopped(&mut bus);
            let asked = length.min(n.saturating_add(1));
            assert_held(rt, is_stopped == (n < length) && bus.asked == asked, n);
        }
    }
}

// Each row has a function and the number of its transactions. Each wait has three polls, of which two show BUSY.
const COMMANDS: [(Command, u64); 13] = [
    (Command::Poll, 1),
    (Command::Wait, 3),
    (Command::Id, 1),
    (Command::Status2, 1),
    (Command::Unique, 1),
    (Command::Sfdp, 1),
    (Command::Sector, 1),
    (Command::Erase(EraseBlock::Sector), 5),
    (Command::Erase(EraseBlock::Block32), 5),
    (Command::Erase(EraseBlock::Block64), 5),
    (Command::Erase(EraseBlock::Chip), 5),
    (Command::Program, 5),
    (Command::WriteStatus, 5),
];

#[test]
fn a_stop_ends_each_command(rt: HostRuntime) {
    for (command, length) in COMMANDS {
        let now = if length == 5 { 0 } else { 2 };
        command.stop_at_each(&rt, rt.alloc(), Delays { now, each: 2 }, length);
    }
}

// Each row has a call and the number of its transactions. For a session or restore this is the sum of the
// identification, the scan, four for each operation, the reads before programs, and the verification.
const ON_TWO_BLOCKS: [(Call, u64); 6] = [
    (Call::Probe, 6),
    (Call::Protection, 6 + 1),
    (Call::ReadOut, 6 + 32),
    (Call::Verify, 6 + 32),
    (Call::Session, 8 + 32 + 4 * 4 + 2 + 19),
    (Call::Restore, 8 + 19 + 4 * 19 + 17 + 19),
];

const ON_W25Q64FV: [(Call, u64); 6] = [
    (Call::Probe, 3),
    (Call::Protection, 3 + 1),
    (Call::ReadOut, 3 + 2),
    (Call::Verify, 3 + 2),
    (Call::Session, 5 + 2 + 4 * 5 + 1 + 2),
    (Call::Restore, 5 + 2 + 4 * 5 + 2),
];

fn stop_each_call(rt: &impl Abort, alloc: Global, job: Job, lengths: [(Call, u64); 6]) {
    let stage = Stage::new(rt, alloc, job, Delays { now: 1, each: 1 });
    for (call, length) in lengths {
        assert_held(rt, stage.stop_at_each(rt, call) == length, length);
    }
}

#[test]
fn a_stop_ends_each_call(rt: HostRuntime) {
    stop_each_call(&rt, rt.alloc(), Job::OnTwoBlocks, ON_TWO_BLOCKS);
    stop_each_call(&rt, rt.alloc(), Job::OnW25q64fv, ON_W25Q64FV);
}

// Each row has a call and the number of its waits: one for the identification, and one after each operation.
const WAITS_ON_TWO_BLOCKS: [(Call, u64); 6] = [
    (Call::Probe, 1),
    (Call::Protection, 1),
    (Call::ReadOut, 1),
    (Call::Verify, 1),
    (Call::Session, 1 + 2 + 2),
    (Call::Restore, 1 + 2 + 17),
];

const WAITS_ON_W25Q64FV: [(Call, u64); 6] = [
    (Call::Probe, 1),
    (Call::Protection, 1),
    (Call::ReadOut, 1),
    (Call::Verify, 1),
    (Call::Session, 1 + 2 + 1 + 2),
    (Call::Restore, 1 + 2 + 2 + 1),
];

fn time_out_each_call(rt: &impl Abort, alloc: Global, job: Job, waits: [(Call, u64); 6]) {
    let stage = Stage::new(rt, alloc, job, Start::IDLE.delays);
    for (call, count) in waits {
        assert_held(rt, stage.time_out_each(rt, call) == count, count);
    }
}

#[test]
fn a_timeout_ends_each_call(rt: HostRuntime) {
    time_out_each_call(&rt, rt.alloc(), Job::OnTwoBlocks, WAITS_ON_TWO_BLOCKS);
    time_out_each_call(&rt, rt.alloc(), Job::OnW25q64fv, WAITS_ON_W25Q64FV);
}

// Each row has a call and the number of its replies that the test checks. After a spoilt poll the call polls again. A
// sector whose reply is spoilt isn't read again.
const REPLIES: [(Call, u64); 4] = [
    (Call::ReadOut, 1 + 2),
    (Call::Verify, 1 + 2),
    (Call::Session, 1 + 5 + 2),
    (Call::Restore, 1 + 5 + 2),
];

#[test]
fn a_spoilt_reply_is_taken_as_it_is(rt: HostRuntime) {
    let stage = Stage::new(&rt, rt.alloc(), Job::OnW25q64fv, Start::IDLE.delays);
    for (call, count) in REPLIES {
        assert_held(&rt, stage.spoil_each(&rt, call, 2) == count, count);
    }
}

// Returns the number of transactions of a restore after the first `sent` transactions of a rehearsal of `ABitRises`, or
// `None` if these don't seal the vault.
fn restore_after(sent: u64) -> Option<u64> {
    match sent {
        0..=22 => None,
        23..=24 | 41..=42 => Some(8),
        _ => Some(13),
    }
}

type Rehearsed = (Result<Rehearsal, Refusal>, u64);

// Returns what `rehearse_after` must return: the result and the number of requested transactions.
fn rehearsed(after: u64, stops: usize) -> Rehearsed {
    let asked = after.saturating_add(1);
    let ended = after >= 30;
    if stops == 0 || ended && stops == 1 {
        return (Err(Refusal::Stopped), asked);
    }
    let needed = restore_after(after);
    let told = Rehearsal {
        ended,
        sealed: needed.is_some(),
        restores: u32::from(needed.is_some()).saturating_add(u32::from(ended)),
    };
    (Ok(told), asked.saturating_add(needed.unwrap_or(0)))
}

// Rehearses on a bus that stops only once, after `after` transactions, with `stops` allowances that are never used up.
fn rehearse_after(rt: &impl Abort, alloc: Global, after: u64, stops: usize) -> Rehearsed {
    let row = Row::ABitRises;
    let mut bus = OnceBus::new(row.bus(rt, alloc, Start::IDLE), 0, Fault::Stop, Some(after));
    let mut vault = MemVault::new(alloc);
    let mut image = row.wanted(rt, alloc);
    let request = row.request(rt, alloc);
    let all = [most(16); 2];
    let stops = all.get(..stops).unwrap_or(&all);
    let told = rehearse(&mut bus, &mut vault, &mut image, &request, stops);
    (told, bus.asked)
}

// The session sends 30 transactions, and the restore 13, of which the eleventh programs the byte.
#[test]
fn a_stop_in_a_rehearsal(rt: HostRuntime) {
    for n in 0..30 + 13 {
        for stops in 0..3 {
            let came = rehearse_after(&rt, rt.alloc(), n, stops);
            assert_held(&rt, came == rehearsed(n, stops), n);
        }
    }
}

//! Calls over the ten layers of `flashnor-serprog` (`Stack`), over a simulated port that fails at a given call.
ghost use Rattle.nor_journal.specs.Vault.{IsFresh};

use crate::held::assert_held;
use crate::row::{Row, Start};
use crate::serprog_wrappers::Timer;
use nor_buses::{
    CheckedStatus, ChipIds, KeptQuad, KnownStatus2, OtherMakers, Paced, ReadAhead, ReadTwice,
    SameChip, SplittingBus, Watched,
};
use nor_chip::{Config, SimBus};
use nor_journal::{Journal, MemVault, Vault};
use nor_serprog::{AnyProgrammer, BatchingBus, Failure, Link};
use nor_session::{Refusal, Report};
use serprog_session::{
    SimFailure, SimPort, Stack, backup_over_layers, restore_over_layers, rewrite_over_layers,
    session_over_layers,
};
use std::alloc::Global;
use std::cell::Cell;
use std::process::Abort;

const LONGEST_WRITE: u32 = 260;

const LONGEST_READ: u32 = 4096;

const SERIAL_BUFFER: u16 = 512;

// The IDs of TINY64 and W25Q64FV. The layers treat both chips as listed in the table of chips.
fn ids() -> ChipIds {
    let mut ids = ChipIds::new();
    ids.push([0xFE, 0x10, 0x10]);
    ids.push([0xEF, 0x40, 0x17]);
    ids
}

// The unique ID of the chip. `OtherMakers` doesn't replace it, because its bytes are neither all FFh nor all 00h.
const UNIQUE: [u8; 8] = [0xD1, 0x62, 0x10, 0xFF, 0x00, 0x5A, 0xA5, 0x08];

// More calls than a handshake and any run over the layers take.
const AMPLE: u64 = 100_000;

/// More calls than any run over the layers takes after the handshake.
pub const MOST_CALLS: u64 = 5000;

type Layers<'a> = Stack<SimPort, Timer<'a>>;

/// A failure of the port after `calls` calls since the handshake, or in the last of these calls if it sends two frames.
/// If the failing call sends a frame, the chip receives at most the first `cut` bytes of the transaction at which the
/// bus to the chip stops.
#[derive(Clone, Copy)]
pub struct Stop {
    pub calls: u64,
    pub cut: u32,
}

impl Stop {
    pub const NEVER: Stop = Stop {
        calls: AMPLE,
        cut: 0,
    };
}

/// Returns the stops at a call that sends a frame: the chip receives no byte, opcode and address, or all bytes.
pub fn stops_at(calls: u64) -> [Stop; 3] {
    [
        Stop { calls, cut: 0 },
        Stop { calls, cut: 4 },
        Stop {
            calls,
            cut: u32::MAX,
        },
    ]
}

/// The chip that a run over the layers left, and how the run ended.
#[derive(Drop)]
pub struct Left {
    pub chip: SimBus,
    /// True if the run succeeded.
    pub ended: bool,
    /// True if the call that failed sends a frame, so that `cut` says what the chip received.
    pub tears: bool,
}

#[derive(Clone, Copy)]
pub enum Undo {
    Restore,
    Rewrite,
}

/// The session of a row, with the layers over its chip. The chip has a unique ID.
#[derive(Drop)]
pub struct Bench {
    alloc: Global,
    row: Row,
    before: Vec<u8>,
    wanted: Vec<u8>,
    // The number of calls of the port before the first transaction.
    handshake: u64,
}

impl Bench {
    /// Returns the bench of a row whose chip is a TINY64 or a W25Q64FV.
    pub fn new(rt: &impl Abort, alloc: Global, row: Row) -> Bench {
        Bench {
            alloc,
            row,
            before: row.before(rt, alloc),
            wanted: row.wanted(rt, alloc),
            handshake: handshake(rt, alloc),
        }
    }

    /// Returns a new chip, in its state before the session.
    pub fn chip(&self, rt: &impl Abort) -> SimBus {
        let bytes = self.before.clone().expect(rt, "memory");
        chip_of(rt, self.config(), bytes, self.row.status())
    }

    pub fn copy(&self, rt: &impl Abort, chip: &SimBus) -> SimBus {
        let bytes = Vec::from_slice(self.alloc, chip.bytes()).expect(rt, "memory");
        chip_of(rt, self.config(), bytes, chip.status())
    }

    /// Runs the row's session. Asserts that its error, if any, is 12 (stopped).
    pub fn change<V: Vault>(&self, rt: &impl Abort, chip: SimBus, vault: &mut V, stop: Stop) -> Left
        requires { IsFresh (V.state vault.old) }
    {
        let now = Cell::new(0);
        let mut bus = open(rt, &now, self.port(chip, stop), Job::Change);
        let mut image = self.wanted.clone().expect(rt, "memory");
        let request = self.row.request(rt, self.alloc);
        let answer = session_over_layers(&mut bus, vault, &mut image, &request);
        self.left(rt, &bus, answer, stop)
    }

    pub fn back_up<V: Vault>(
        &self,
        rt: &impl Abort,
        chip: SimBus,
        vault: &mut V,
        stop: Stop,
    ) -> Left
        requires { IsFresh (V.state vault.old) }
    {
        let now = Cell::new(0);
        let mut bus = open(rt, &now, self.port(chip, stop), Job::Backup);
        let answer = backup_over_layers(&mut bus, vault, None);
        self.left(rt, &bus, answer, stop)
    }

    /// Restores or rewrites the chip from the journal of `vault`. Asserts that the error, if any, is 12 (stopped).
    pub fn undo(
        &self,
        rt: &impl Abort,
        chip: SimBus,
        vault: &MemVault,
        undo: Undo,
        stop: Stop,
    ) -> Left {
        let now = Cell::new(0);
        let mut bus = open(rt, &now, self.port(chip, stop), Job::Undo);
        let journal = Journal::read(vault.bytes()).expect(rt, "a journal");
        let answer = match undo {
            Undo::Restore => restore_over_layers(&mut bus, &journal),
            Undo::Rewrite => rewrite_over_layers(&mut bus, &journal),
        };
        self.left(rt, &bus, answer, stop)
    }

    /// Restores if the vault is sealed. Asserts in both cases that the chip is as before the session.
    pub fn assert_restored(&self, rt: &impl Abort, chip: SimBus, vault: &MemVault, number: u64) {
        if !vault.is_sealed() {
            self.assert_as_before(rt, &chip, number);
            return;
        }
        let left = self.undo(rt, chip, vault, Undo::Restore, Stop::NEVER);
        assert_held(rt, left.ended, number);
        self.assert_as_before(rt, &left.chip, number);
    }

    /// Asserts that the chip has the contents and the non-volatile status bits from before the session.
    pub fn assert_as_before(&self, rt: &impl Abort, chip: &SimBus, number: u64) {
        let [one, two] = chip.status();
        assert_held(rt, chip.bytes() == self.before.as_slice(), number);
        assert_held(rt, [one & 0xFC, two & 0x7F] == self.row.status(), number);
    }

    fn config(&self) -> Config {
        config_of(self.row)
    }

    fn port(&self, mut chip: SimBus, stop: Stop) -> SimPort {
        chip.tear(Some(stop.cut));
        SimPort::new(chip, stop.calls.saturating_add(self.handshake))
    }

    fn left(
        &self,
        rt: &impl Abort,
        bus: &Layers<'_>,
        answer: Result<Report, Refusal>,
        stop: Stop,
    ) -> Left {
        let refusal = answer.err();
        assert_held(
            rt,
            matches!(refusal, None | Some(Refusal::Stopped)),
            stop.calls,
        );
        Left {
            chip: self.copy(rt, batching_of(bus).port().chip()),
            ended: refusal.is_none(),
            tears: matches!(
                batching_of(bus).cause(),
                Some(Failure::Port(SimFailure::Cut))
            ),
        }
    }
}

fn config_of(row: Row) -> Config {
    let config = if row.sectors() == 16 {
        Config::tiny64()
    } else {
        Config::w25q64fv()
    };
    config.with_unique(UNIQUE)
}

fn chip_of(rt: &impl Abort, config: Config, bytes: Vec<u8>, status: [u8; 2]) -> SimBus {
    SimBus::new(config, bytes, status, Start::IDLE.delays).expect(rt, "a size")
}

#[derive(Clone, Copy)]
enum Job {
    Change,
    Backup,
    Undo,
}

// Opens the layers with the rules that `flashnor-serprog` uses for this job.
fn open<'a>(rt: &impl Abort, now: &'a Cell<u64>, port: SimPort, job: Job) -> Layers<'a> {
    let clock = Timer { now, fails: false };
    let paced = Paced::new(connected(rt, port), clock);
    let splitting = SplittingBus::new(Watched::new(paced), LONGEST_WRITE, LONGEST_READ);
    let checked = match job {
        Job::Change => CheckedStatus::guarding(splitting),
        Job::Backup | Job::Undo => CheckedStatus::new(splitting),
    };
    let known = KnownStatus2::new(ReadTwice::new(checked), ids(), None);
    let kept = KeptQuad::new(known, ids(), true);
    let refuses = matches!(job, Job::Change | Job::Backup);
    let other = OtherMakers::new(kept, ids(), 0x00, refuses);
    ReadAhead::new(SameChip::new(other), LONGEST_READ)
}

fn connected(rt: &impl Abort, port: SimPort) -> BatchingBus<SimPort> {
    let mut link = Link::new(port);
    let programmer = AnyProgrammer::identify(&mut link, None)
        .ok()
        .expect(rt, "a programmer");
    // `BatchingBus::emulated` requires what these assertions check.
    assert!(rt; link.port().is_idle());
    assert!(rt; programmer.serial_buffer() <= SERIAL_BUFFER);
    BatchingBus::emulated(link, programmer)
}

fn batching_of<'a>(bus: &'a Layers<'_>) -> &'a BatchingBus<SimPort> {
    let kept = bus.inner().inner().inner();
    let splitting = kept.inner().inner().inner().inner();
    splitting.inner().inner().inner()
}

fn handshake(rt: &impl Abort, alloc: Global) -> u64 {
    let chip = Row::AByteIsProgrammed.bus(rt, alloc, Start::IDLE);
    let batching = connected(rt, SimPort::new(chip, AMPLE));
    AMPLE.saturating_sub(batching.port().left())
}

//! Calls on a bus that stops at each transaction in turn or spoils its reply, or on which the polls of each wait show
//! BUSY.
ghost use Rattle.nor_journal.specs.Vault.{IsFresh};

use crate::contents::{put, put_run};
use crate::failing::{Fault, OnceBus};
use crate::held::{assert_held, assert_that};
use crate::row::included;
use crate::spoilt::most;
use nor_chip::{Config, Delays, SECTOR_LEN, SimBus, TINY64_SFDP};
use nor_journal::{Journal, MemVault, Vault};
use nor_probe::probe;
use nor_read::{read_out, verify, wp_status};
use nor_session::{Refusal, Report, Request, What, restore, session};
use std::alloc::Global;
use std::process::Abort;

/// A session on a chip that is erased, except for a byte 00h in some sectors. The image is FFh, except for four bytes.
#[derive(Clone, Copy)]
pub enum Job {
    /// A chip of two blocks of 64 KiB. The session erases the second block and the sector before it.
    OnTwoBlocks,
    /// A W25Q64FV whose last 128 KiB are protected. The session lifts the protection and changes two sectors there.
    OnW25q64fv,
}

fn two_blocks(rt: &impl Abort) -> Config {
    let mut sfdp = TINY64_SFDP;
    // The size in bits, minus one (JESD216): 2^20 - 1.
    sfdp[0x16] = 0x0F;
    Config::new([0xFE, 0x10, 0x11], 131_072, true, true, false, &sfdp).expect(rt, "a size")
}

impl Job {
    fn config(self, rt: &impl Abort) -> Config {
        match self {
            Job::OnTwoBlocks => two_blocks(rt),
            Job::OnW25q64fv => Config::w25q64fv(),
        }
    }

    fn size(self) -> u32 {
        match self {
            Job::OnTwoBlocks => 131_072,
            Job::OnW25q64fv => 8_388_608,
        }
    }

    fn status(self) -> [u8; 2] {
        match self {
            Job::OnTwoBlocks => [0x00, 0x00],
            Job::OnW25q64fv => [0x04, 0x00],
        }
    }

    // Returns the address of the first byte 00h, and the number of successive sectors that have such a byte.
    fn cleared(self) -> (usize, usize) {
        match self {
            Job::OnTwoBlocks => (0xF010, 17),
            Job::OnW25q64fv => (0x7E_1010, 1),
        }
    }

    fn written(self) -> usize {
        match self {
            Job::OnTwoBlocks => 0xDFFE,
            Job::OnW25q64fv => 0x7E_0FFE,
        }
    }

    fn part(self) -> Option<&'static [u8]> {
        match self {
            Job::OnTwoBlocks => None,
            Job::OnW25q64fv => Some(b"7e0000:7e1fff part"),
        }
    }

    fn erased(self, rt: &impl Abort, alloc: Global) -> Vec<u8> {
        vec![in alloc; 0xFF; self.size() as usize].expect(rt, "memory")
    }

    fn before(self, rt: &impl Abort, alloc: Global) -> Vec<u8> {
        let mut bytes = self.erased(rt, alloc);
        let (mut place, count) = self.cleared();
        for _ in 0..count {
            put(&mut bytes, place, 0x00);
            place = place.saturating_add(SECTOR_LEN as usize);
        }
        bytes
    }

    fn image(self, rt: &impl Abort, alloc: Global) -> Vec<u8> {
        let mut image = self.erased(rt, alloc);
        put_run(&mut image, self.written(), &[0x11, 0x22, 0x33, 0x44]);
        image
    }

    fn request(self, rt: &impl Abort, alloc: Global) -> Request {
        Request {
            what: What::Write,
            named: None,
            included: included(rt, alloc, self.part()),
            unlock: true,
            verify: true,
        }
    }
}

#[derive(Clone, Copy, PartialEq, Eq)]
pub enum Call {
    Probe,
    Protection,
    ReadOut,
    Verify,
    Session,
    Restore,
}

#[derive(Drop)]
pub struct Stage {
    alloc: Global,
    job: Job,
    delays: Delays,
    old: Vec<u8>,
    image: Vec<u8>,
    request: Request,
    journal: Vec<u8>,
}

impl Stage {
    /// Returns a stage for the job on a chip with these delays. Runs the session once for its journal.
    pub fn new(rt: &impl Abort, alloc: Global, job: Job, delays: Delays) -> Stage {
        let mut stage = Stage {
            alloc,
            job,
            delays,
            old: job.before(rt, alloc),
            image: job.image(rt, alloc),
            request: job.request(rt, alloc),
            journal: Vec::new(alloc),
        };
        stage.journal = stage.kept(rt);
        stage
    }

    fn kept(&self, rt: &impl Abort) -> Vec<u8> {
        let mut bus = self.bus(rt, Call::Session, Fault::Stop, None);
        let mut vault = MemVault::new(self.alloc);
        let answer = self.session(rt, &mut bus, &mut vault);
        assert_that!(rt; answer.is_ok() && bus.bus.bytes() == self.image.as_slice());
        vault.bytes().to_vec(self.alloc).expect(rt, "memory")
    }

    // Returns a bus whose allowance is the bound of a session. The chip has the original contents, except for a
    // restore: then it has the image's contents.
    fn bus(&self, rt: &impl Abort, call: Call, fault: Fault, after: Option<u64>) -> OnceBus {
        let bytes = if call == Call::Restore {
            &self.image
        } else {
            &self.old
        };
        let bytes = bytes.to_vec(self.alloc).expect(rt, "memory");
        let config = self.job.config(rt);
        let bus = SimBus::new(config, bytes, self.job.status(), self.delays).expect(
            rt,
            "as many bytes as the chip has",
        );
        OnceBus::new(bus, most(self.job.size() / SECTOR_LEN), fault, after)
    }

    fn session(
        &self,
        rt: &impl Abort,
        bus: &mut OnceBus,
        vault: &mut MemVault,
    ) -> Result<Report, Refusal>
        requires { IsFresh (⟦<MemVault as Vault>⟧.state vault.old) }
    {
        let mut image = self.image.to_vec(self.alloc).expect(rt, "memory");
        session(bus, vault, &mut image, &self.request)
    }

    // `verify` compares the chip with its original contents.
    fn refusal(&self, rt: &impl Abort, call: Call, bus: &mut OnceBus) -> Option<Refusal> {
        let included = self.request.included.as_ref();
        let mut vault = MemVault::new(self.alloc);
        match call {
            Call::Probe => probe(bus, None).err().map(Refusal::from),
            Call::Protection => wp_status(bus, None).err(),
            Call::ReadOut => read_out(bus, included, None, &mut vault).err(),
            Call::Verify => verify(bus, &self.old, included, None).err(),
            Call::Session => self.session(rt, bus, &mut vault).err(),
            Call::Restore => {
                let journal = Journal::read(&self.journal).expect(rt, "a journal");
                restore(bus, &journal).err()
            }
        }
    }

    fn right(&self, rt: &impl Abort, call: Call) -> (Option<Refusal>, u64) {
        let mut bus = self.bus(rt, call, Fault::Stop, None);
        let refusal = self.refusal(rt, call, &mut bus);
        (refusal, bus.asked)
    }

    /// Stops a call at each of its transactions in turn, and then runs it without a stop. Asserts that a stopped call
    /// returns `Stopped` and sends nothing more. Returns the number of transactions of the call.
    pub fn stop_at_each(&self, rt: &impl Abort, call: Call) -> u64 {
        let (right, length) = self.right(rt, call);
        for n in 0..=length {
            let mut bus = self.bus(rt, call, Fault::Stop, Some(n));
            let refusal = self.refusal(rt, call, &mut bus);
            let told = if n < length {
                Some(Refusal::Stopped)
            } else {
                right
            };
            let asked = length.min(n.saturating_add(1));
            assert_held(rt, refusal == told && bus.asked == asked, n);
        }
        length
    }

    /// Runs a call for each of its waits, with BUSY set in all 65,536 polls of this wait. Asserts that the call
    /// returns a timeout and sends nothing more. The stage must have no delays. Returns the number of waits.
    pub fn time_out_each(&self, rt: &impl Abort, call: Call) -> u64 {
        let (_, length) = self.right(rt, call);
        let mut waits: u64 = 0;
        for n in 0..length {
            let mut bus = self.bus(rt, call, Fault::Busy, Some(n));
            let refusal = self.refusal(rt, call, &mut bus);
            if bus.met == [0x05, 0, 0, 0] {
                let timed_out = matches!(refusal, Some(Refusal::Timeout { .. }));
                let asked = n.saturating_add(65_536);
                assert_held(rt, timed_out && bus.asked == asked, n);
                waits = waits.saturating_add(1);
            }
        }
        waits
    }

    /// Spoils each reply of a call in turn. Checks the result if the reply is that of a poll, or of a sector that is
    /// verified or read out. A session or restore verifies `touched` sectors. The stage must have no delays. Returns
    /// the number of checks.
    pub fn spoil_each(&self, rt: &impl Abort, call: Call, touched: u64) -> u64 {
        let right = self.right(rt, call);
        let mut spoilt: u64 = 0;
        for n in 0..right.1 {
            let mut bus = self.bus(rt, call, Fault::Spoil, Some(n));
            let refusal = self.refusal(rt, call, &mut bus);
            if let Some(told) = expected_of_spoilt(call, touched, right, n, bus.met) {
                assert_held(rt, (refusal, bus.asked) == told, n);
                spoilt = spoilt.saturating_add(1);
            }
        }
        spoilt
    }
}

// Returns the expected error and number of transactions of a call if the reply of transaction `n` is spoilt, or `None`
// if `spoil_each` doesn't check it. `right` has both values without a fault; `met` is how transaction `n` begins.
fn expected_of_spoilt(
    call: Call,
    touched: u64,
    right: (Option<Refusal>, u64),
    n: u64,
    met: [u8; 4],
) -> Option<(Option<Refusal>, u64)> {
    let (refusal, length) = right;
    let [opcode, high, middle, low] = met;
    let mismatch = Some(Refusal::Mismatch {
        address: u32::from_be_bytes([0, high, middle, low]),
    });
    match (opcode, call) {
        // The chip seems to be busy, so it is polled again.
        (0x05, _) => Some((refusal, length.saturating_add(1))),
        (0x03, Call::ReadOut) => Some((refusal, length)),
        // All sectors are read before the first difference is reported.
        (0x03, Call::Verify) => Some((mismatch, length)),
        (0x03, _) if n >= length.saturating_sub(touched) => Some((mismatch, n.saturating_add(1))),
        _ => None,
    }
}

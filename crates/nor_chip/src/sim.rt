//! A simulated bus, whose chip is a modelled chip in memory.
ghost use Rattle.std.specs.Prelude.{◌≡◌, ◌≢◌, ◌<◌, ◌||◌, ◌&&◌, ◌↔◌, ℕ, true, false, length, slice_index_or, vec_len};
ghost use Rattle.std.specs.Prelude.{IsErr, IfOk};
ghost use Rattle.nor_model.specs.Addresses.{HasValidAddress};
ghost use Rattle.nor_model.specs.Bus.{Transfers};
ghost use Rattle.nor_model.specs.Step.{wears};

use bitflags::Flags;
use flash::Flash;
use nor_geometry::{MOST_SECTORS, SECTOR_LEN};
use nor_model::{Bus, Command, Config, History, Meter, Running, Status, Status1, Stopped};
use std::fmt;

mod cells;
mod flash;

/// How long a simulated chip stays busy, counted in polls.
#[derive(Clone, Copy, Debug, PartialEq, Eq)]
pub struct Delays {
    /// The number of polls that show BUSY at the start.
    pub now: u16,
    /// The number of polls that show BUSY after each operation.
    pub each: u16,
}

/// The error of `SimBus::new` if the number of bytes differs from the chip's size.
#[derive(Clone, Copy, Debug, PartialEq, Eq)]
pub struct WrongLength;

impl fmt::Display for WrongLength {
    fn fmt<W: fmt::Write>(&self, f: &mut fmt::Formatter<W>) -> fmt::Result {
        f.write_str("the bytes aren't as many as the chip has")
    }
}

impl std::error::Error for WrongLength {}

/// A well-behaved bus (`honest`) to a simulated chip. The bus stops after the number of transactions set by `allow`.
#[derive(Drop)]
pub struct SimBus {
    flash: Flash,
    left: u64,
    fill: Option<u8>,
    torn: Option<u32>,
    history: History,
    worn: [bool; MOST_SECTORS as usize],
}

impl SimBus {
    ghost use Rattle.std.specs.Option.{is_none};
    ghost use Rattle.nor_chip.specs.Start.{Starts, AreChipBytes};
    ghost use Rattle.nor_model.specs.Chip.{status_of};
    ghost use Rattle.nor_chip.specs.Flash.{chip_of};
    ghost use Rattle.nor_model.specs.Bus.{AtStop};
    ghost use Rattle.nor_chip.specs.Sim.{sim_state, fill_of, torn_of, pace_of, TornTo, WornTo, TearsOff, KeepsBus};

    /// Returns a bus to a chip with this configuration, the contents `bytes`, and status 1 and 2, whose bits BUSY and
    /// SUS are ignored. The bus carries out no transaction before `allow` is called. Returns `WrongLength` if the
    /// length of `bytes` differs from the chip's size.
    pub fn new(
        config: Config,
        bytes: Vec<u8>,
        status: [u8; 2],
        delays: Delays,
    ) -> Result<SimBus, WrongLength>
        ensures length { IsErr result ↔ (vec_len bytes ≢ config.size) }
        ensures starts { IfOk result (λ bus. Starts config bytes.items status delays (⟦<SimBus as Bus>⟧.state bus)) }
        ensures pace { IfOk result (λ bus. pace_of bus ≡ delays.each) }
        ensures fill { IfOk result (λ bus. fill_of bus ≡ None) }
        ensures torn { IfOk result (λ bus. torn_of bus ≡ None) }
    {
        if bytes.len() != config.size as usize {
            return Err(WrongLength);
        }
        let status = Status::of(status);
        let flash = Flash {
            config,
            bytes,
            kept: status.kept(),
            latch: status.one.contains(Status1::WEL),
            busy: delays.now,
            each: delays.each,
            running: Running::Unknown,
        };
        Ok(SimBus {
            flash,
            left: 0,
            fill: None,
            torn: None,
            history: History::new(),
            worn: [false; MOST_SECTORS as usize],
        })
    }

    pub fn bytes(&self) -> &[u8]
        ensures { AreChipBytes (⟦<SimBus as Bus>⟧.state self.now).chip result.now }
    {
        &self.flash.bytes
    }

    /// Sets whether the chip keeps its power at a stop (`None`, as after `new`) or loses it. With `Some(fill)`, each
    /// byte of the page being programmed, or of the block being erased, becomes `fill`, and a status write in progress
    /// is undone if and only if `fill` is even.
    pub fn lose(&mut self, fill: Option<u8>)
        ensures state { ⟦<SimBus as Bus>⟧.state self.new
            ≡ record (⟦<SimBus as Bus>⟧.state self.old) { steady = is_none fill && is_none (torn_of self.old) } }
        ensures fill { fill_of self.new ≡ fill }
        ensures torn { torn_of self.new ≡ torn_of self.old }
        ensures pace { pace_of self.new ≡ pace_of self.old }
    {
        self.fill = fill;
    }

    /// Sets how many bytes are still sent when the bus stops at a transaction. With `None`, as after `new`, no byte is
    /// sent. With `Some(count)`, at most the first `count` are sent, and the chip treats them as a whole transaction.
    pub fn tear(&mut self, count: Option<u32>)
        ensures state { ⟦<SimBus as Bus>⟧.state self.new
            ≡ record (⟦<SimBus as Bus>⟧.state self.old) { steady = is_none (fill_of self.old) && is_none count } }
        ensures torn { torn_of self.new ≡ count }
        ensures fill { fill_of self.new ≡ fill_of self.old }
        ensures pace { pace_of self.new ≡ pace_of self.old }
    {
        self.torn = count;
    }

    pub fn status(&self) -> [u8; 2]
        ensures { result ≡ status_of (⟦<SimBus as Bus>⟧.state self.now).chip }
    {
        self.flash.status().bytes()
    }

    fn tear_off(&mut self, out: &[u8])
        ensures torn { TornTo (torn_of self.old) out.now (chip_of self.old.flash) (chip_of self.new.flash) }
        ensures worn { WornTo (torn_of self.old) out.now (chip_of self.old.flash)
            (sim_state self.old).worn (sim_state self.new).worn }
        ensures bus { KeepsBus self.old self.new }
    {
        if let Some(count) = self.torn {
            let begun = &out[..(count as usize).min(out.len())];
            let command = self.flash.step(begun, &mut []);
            wear(&mut self.worn, command);
        }
    }

    fn cut(&mut self, out: &[u8])
        ensures at_stop { AtStop out.now (sim_state self.old) (sim_state self.new) }
        ensures torn_off { TearsOff (torn_of self.old) (fill_of self.old) out.now
            (chip_of self.old.flash) (chip_of self.new.flash) }
        ensures worn { WornTo (torn_of self.old) out.now (chip_of self.old.flash)
            (sim_state self.old).worn (sim_state self.new).worn }
        ensures bus { KeepsBus self.old self.new }
    {
        self.tear_off(out);
        if let Some(fill) = self.fill {
            self.flash.lose_power(fill);
        }
    }
}

impl Bus for SimBus {
    ghost use Rattle.nor_chip.specs.Sim.{sim_state, Simulates};

    ghost state = { sim_state };

    ghost reaches = { λ bus honest. record {
      busy = bus.flash.busy_in;
      kept1 = bus.flash.kept1_in;
      kept2 = bus.flash.kept2_in;
      bytes = bus.flash.bytes_in;
    } };

    fn transfer(&mut self, out: &[u8], reply: &mut [u8]) -> Result<(), Stopped>
        ensures law { Transfers out.now reply.old reply.new result (sim_state self.old) (sim_state self.new) }
        ensures simulates { Simulates out.now reply.new result self.old self.new }
    {
        if self.left == 0 {
            self.history = self.history.stopped(out);
            self.cut(out);
            return Err(Stopped);
        }
        self.left -= 1;
        let command = self.flash.step(out, reply);
        wear(&mut self.worn, command);
        self.history = self.history.replied(out, reply);
        Ok(())
    }

    fn has_further_types(&self) -> bool {
        false
    }
}

impl Meter for SimBus {
    ghost use Rattle.nor_model.specs.Bus.{Allows};
    ghost use Rattle.nor_chip.specs.Sim.{sim_state, fill_of, torn_of, pace_of};

    fn allow(&mut self, n: u64)
        ensures allows { Allows n (sim_state self.old) (sim_state self.new) }
        ensures fill { fill_of self.new ≡ fill_of self.old }
        ensures torn { torn_of self.new ≡ torn_of self.old }
        ensures pace { pace_of self.new ≡ pace_of self.old }
    {
        self.left = n;
        self.history = self.history.allowed(n);
    }
}

fn wear(worn: &mut [bool], command: Command)
    requires length { length worn.old ≡ 4096 }
    requires targeted { HasValidAddress 16777216 command }
    ensures { (s : ℕ) → slice_index_or worn.new s false ≡ (slice_index_or worn.old s false || wears command s) }
{
    if let Command::Erase(start, len) = command {
        let first = (start / SECTOR_LEN) as usize;
        worn[first..first + (len / SECTOR_LEN) as usize].fill(true);
    }
}

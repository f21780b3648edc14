//! A bus that reads ahead.
ghost use Rattle.std.specs.Prelude.{◌≡◌, ◌<◌, ◌≤◌, ◌+◌, ◌-◌, ◌∷◌, [], true, false, length, take, OnOk, OnErr, IfSome};
ghost use Rattle.std.proofs.lemmas.Bool.{and_parts};
ghost use Rattle.nor_model.specs.Bus.{IsHonestFor, SameNature, AtStop, Records, Transfers};
ghost use Rattle.nor_model.specs.History.{exchange_of};
ghost use Rattle.nor_buses.specs.Again.{data_read, HasData};
ghost use Rattle.nor_buses.specs.Blocks.{takes_blocks, HoldsData};
ghost use Rattle.nor_buses.specs.Keeps.{KeepsAll, StopsUnread, MakesStep};
ghost use Rattle.nor_buses.specs.ReadsAs.{reads_data, address_in, around, KeepsRecord};
ghost use Rattle.nor_buses.specs.ReadsAs.{HoldsReply, EndsWithRead, EndsWithData};

use nor_geometry::SECTOR_LEN;
use nor_model::opcodes::READ_DATA;
use nor_model::{Bus, History, Stopped};

// The greatest length of a block, in bytes. The size of a chip is a multiple of this length, so a block between two
// neighbouring multiples of this length does not reach past the end of a chip.
const LONGEST_BLOCK: u32 = 1 << 16;

/// A bus that reads data (03h) ahead if reads follow each other. It keeps the *block* in memory: the bytes that it last
/// read over the bus inside. If the block contains all bytes of a read, they are returned from memory. Otherwise a new
/// block is read from the address of the read on. If the last block ended at this address, the planned length of blocks
/// doubles; otherwise it is the length of the read. A block contains the whole read; the limits below may shorten it.
///
/// A block ends at the next multiple of 64 KiB at the latest, or earlier (`end_blocks_at`), and is never longer than
/// the bus inside can read. A transaction is passed on unchanged if it is no read of data, reads more than the longest
/// block, or reaches past a multiple of 64 KiB. Such a transaction discards the block, and so does a stop.
///
/// On any bus, if a read of data of at least one byte returns `Ok`, the last transaction over the bus inside is a read
/// of data, and its reply contains the returned bytes at the same addresses.
///
/// This bus is never punctual. It is proved to be well-behaved if the bus inside is well-behaved and takes reads as
/// long as the longest block. While this bus is used, nobody else may modify the chip. The history also lists reads
/// whose bytes came from memory.
#[derive(Drop)]
pub struct ReadAhead<B: Bus + Drop> {
    bus: B,
    block: [u8; LONGEST_BLOCK as usize],
    start: u32,
    len: u32,
    step: u32,
    longest: u32,
    end: u32,
    history: History,
    ghost fits: { len ≤ 65536 },
    ghost below: { start ≤ 16777216 },
    ghost longest_fits: { longest ≤ 65536 },
    ghost step_fits: { step ≤ 65536 },
    ghost holds: { HoldsReply block start len (B.state bus).history },
    ghost same: { HoldsData longest block start len (B.state bus) },
}

impl<B: Bus + Drop> ReadAhead<B> {
    ghost use Rattle.nor_buses.specs.Ahead.{ahead_of, held, history_of, longest_of};

    /// Returns a bus that reads ahead over `bus`, whose transactions can read up to `longest_read` bytes. If
    /// `longest_read` is less than 4,096, nothing is read ahead.
    pub fn new(bus: B, longest_read: u32) -> ReadAhead<B>
        ensures bus { ahead_of result ≡ bus }
        ensures empty { held result ≡ 0 }
        ensures longest { longest_of result ≤ longest_read }
        ensures history { history_of result ≡ [] }
    {
        let longest = longest_read.min(LONGEST_BLOCK) / SECTOR_LEN * SECTOR_LEN;
        ReadAhead {
            bus,
            block: [0; LONGEST_BLOCK as usize],
            start: 0,
            len: 0,
            step: 0,
            longest,
            end: u32::MAX,
            history: History::new(),
        }
    }

    /// Sets the address at which each later block ends at the latest, unless the read itself needs more bytes.
    /// `u32::MAX` removes this limit.
    pub fn end_blocks_at(&mut self, address: u32)
        ensures bus { ahead_of self.new ≡ ahead_of self.old }
        ensures longest { longest_of self.new ≡ longest_of self.old }
        ensures history { history_of self.new ≡ history_of self.old }
    {
        self.end = address;
    }

    /// Returns the bus inside, which carries out the transactions of this bus.
    pub fn inner(&self) -> &B
        ensures { result.now ≡ ahead_of self.now }
    {
        &self.bus
    }
}

impl<B: Bus + Drop> ReadAhead<B> {
    ghost use Rattle.nor_buses.specs.Ahead.{begin, held, history_of, longest_of, inside_of, ahead_state};

    // Carries out `out`. The clause `records` is about the state after the caller has added `out` to the history.
    fn carry(&mut self, out: &[u8], reply: &mut [u8]) -> Result<(), Stopped>
        ensures records { Records out.now reply.new result (ahead_state self.old)
            (around (inside_of self.new) (exchange_of out.now reply.new result ∷ history_of self.old)) }
        ensures nature { SameNature (inside_of self.old) (inside_of self.new) }
        ensures longest { longest_of self.new ≡ longest_of self.old }
        ensures stops { IsHonestFor out.now (length reply.old) (ahead_state self.old)
            → OnErr result (AtStop out.now (inside_of self.old) (inside_of self.new)) }
        ensures steps { IsHonestFor out.now (length reply.old) (ahead_state self.old)
            → OnOk result (MakesStep out.now reply.new (inside_of self.old) (inside_of self.new)) }
        ensures history { history_of self.new ≡ history_of self.old }
        ensures forgets { reads_data out.now ≡ false → held self.new ≡ 0 }
        ensures passes { reads_data out.now ≡ false
            → (inside_of self.new).history ≡ exchange_of out.now reply.new result ∷ (inside_of self.old).history }
        ensures read { reads_data out.now ≡ true → 0 < length reply.old
            → OnOk result (EndsWithData (address_in out.now) reply.new (inside_of self.new).history) }
    {
        match data_address(out) {
            Some(address) if is_in_block(address, reply.len(), self.longest) => {
                self.read(address, reply)
            }
            _ => {
                self.len = 0;
                self.bus.transfer(out, reply)
            }
        }
    }

    fn read(&mut self, address: u32, reply: &mut [u8]) -> Result<(), Stopped>
        requires address { address ≤ 16777215 }
        requires len { length reply.old ≤ longest_of self.old }
        ensures record { KeepsRecord (inside_of self.old) (inside_of self.new) }
        ensures passed { (inside_of self.new).passed ≡ (inside_of self.old).passed }
        ensures nature { SameNature (inside_of self.old) (inside_of self.new) }
        ensures longest { longest_of self.new ≡ longest_of self.old }
        ensures stops { takes_blocks (longest_of self.old) (inside_of self.old) ≡ true
            → OnErr result (StopsUnread (inside_of self.old) (inside_of self.new)) }
        ensures keeps { takes_blocks (longest_of self.old) (inside_of self.old) ≡ true
            → OnOk result (KeepsAll (inside_of self.old) (inside_of self.new)) }
        ensures same { takes_blocks (longest_of self.new) (inside_of self.new) ≡ true
            → OnOk result (HasData (inside_of self.new).chip address reply.new) }
        ensures history { history_of self.new ≡ history_of self.old }
        ensures read { 0 < length reply.old
            → OnOk result (EndsWithData address reply.new (inside_of self.new).history) }
    {
        self.hold(address, reply.len() as u32)?;
        let at = (address - self.start) as usize;
        reply.copy_from_slice(&self.block[at..at + reply.len()]);
        Ok(())
    }

    fn hold(&mut self, address: u32, len: u32) -> Result<(), Stopped>
        requires address { address ≤ 16777215 }
        requires len { len ≤ longest_of self.old }
        ensures record { KeepsRecord (inside_of self.old) (inside_of self.new) }
        ensures passed { (inside_of self.new).passed ≡ (inside_of self.old).passed }
        ensures nature { SameNature (inside_of self.old) (inside_of self.new) }
        ensures longest { longest_of self.new ≡ longest_of self.old }
        ensures stops { takes_blocks (longest_of self.old) (inside_of self.old) ≡ true
            → OnErr result (StopsUnread (inside_of self.old) (inside_of self.new)) }
        ensures keeps { takes_blocks (longest_of self.old) (inside_of self.old) ≡ true
            → OnOk result (KeepsAll (inside_of self.old) (inside_of self.new)) }
        ensures history { history_of self.new ≡ history_of self.old }
        ensures begins { OnOk result (begin self.new ≤ address) }
        ensures ends { OnOk result (address + len ≤ begin self.new + held self.new) }
    {
        if self.start <= address && address + len <= self.start + self.len {
            return Ok(());
        }
        let goes_on = self.len > 0 && address == self.start + self.len;
        self.step = if goes_on {
            (2 * self.step).min(self.longest)
        } else {
            len
        };
        let ahead = self
            .step
            .min(LONGEST_BLOCK - address % LONGEST_BLOCK)
            .min(self.end.saturating_sub(address));
        self.fill(address, ahead.max(len))
    }

    fn fill(&mut self, address: u32, len: u32) -> Result<(), Stopped>
        requires address { address ≤ 16777215 }
        requires len { len ≤ longest_of self.old }
        ensures record { KeepsRecord (inside_of self.old) (inside_of self.new) }
        ensures passed { (inside_of self.new).passed ≡ (inside_of self.old).passed }
        ensures nature { SameNature (inside_of self.old) (inside_of self.new) }
        ensures longest { longest_of self.new ≡ longest_of self.old }
        ensures stops { takes_blocks (longest_of self.old) (inside_of self.old) ≡ true
            → OnErr result (StopsUnread (inside_of self.old) (inside_of self.new)) }
        ensures keeps { takes_blocks (longest_of self.old) (inside_of self.old) ≡ true
            → OnOk result (KeepsAll (inside_of self.old) (inside_of self.new)) }
        ensures history { history_of self.new ≡ history_of self.old }
        ensures begins { OnOk result (begin self.new ≡ address) }
        ensures filled { OnOk result (held self.new ≡ len) }
    {
        self.len = 0;
        read_block(&mut self.bus, address, len, &mut self.block[..])?;
        self.start = address;
        self.len = len;
        Ok(())
    }
}

impl<B: Bus + Drop> Bus for ReadAhead<B> {
    ghost use Rattle.nor_buses.specs.Ahead.{held, inside_of, ahead_state};

    ghost state = { ahead_state };

    ghost reaches = { λ ahead honest. B.reaches ahead.bus (and_parts _ _ honest).0 };

    fn transfer(&mut self, out: &[u8], reply: &mut [u8]) -> Result<(), Stopped>
        ensures law { Transfers out.now reply.old reply.new result (ahead_state self.old) (ahead_state self.new) }
        ensures forgets { reads_data out.now ≡ false → held self.new ≡ 0 }
        ensures passes { reads_data out.now ≡ false
            → (inside_of self.new).history ≡ exchange_of out.now reply.new result ∷ (inside_of self.old).history }
        ensures read { reads_data out.now ≡ true → 0 < length reply.old
            → OnOk result (EndsWithData (address_in out.now) reply.new (inside_of self.new).history) }
    {
        match self.carry(out, reply) {
            Ok(()) => {
                self.history = self.history.replied(out, reply);
                Ok(())
            }
            Err(Stopped) => {
                self.history = self.history.stopped(out);
                Err(Stopped)
            }
        }
    }

    fn has_further_types(&self) -> bool {
        self.bus.has_further_types()
    }
}

fn read_block<B: Bus>(bus: &mut B, address: u32, len: u32, block: &mut [u8]) -> Result<(), Stopped>
    requires address { address ≤ 16777215 }
    requires len { len ≤ length block.old }
    ensures record { KeepsRecord (B.state bus.old) (B.state bus.new) }
    ensures passed { (B.state bus.new).passed ≡ (B.state bus.old).passed }
    ensures nature { SameNature (B.state bus.old) (B.state bus.new) }
    ensures stops { IsHonestFor (data_read address) len (B.state bus.old)
        → OnErr result (StopsUnread (B.state bus.old) (B.state bus.new)) }
    ensures keeps { IsHonestFor (data_read address) len (B.state bus.old)
        → OnOk result (KeepsAll (B.state bus.old) (B.state bus.new)) }
    ensures same { IsHonestFor (data_read address) len (B.state bus.old)
        → OnOk result (HasData (B.state bus.new).chip address (take len block.new)) }
    ensures read { OnOk result (EndsWithRead address (take len block.new) (B.state bus.new).history) }
{
    let [_, high, middle, low] = address.to_be_bytes();
    let out = [READ_DATA, high, middle, low];
    bus.transfer(&out, &mut block[..len as usize])
}

pub(crate) fn data_address(out: &[u8]) -> Option<u32>
    ensures reads { IfSome result (λ address. reads_data out.now ≡ true) }
    ensures fits { IfSome result (λ address. address ≤ 16777215) }
    ensures address { IfSome result (λ address. address ≡ address_in out.now) }
{
    match out {
        [READ_DATA, high, middle, low] => Some(u32::from_be_bytes([0, *high, *middle, *low])),
        _ => None,
    }
}

fn is_in_block(address: u32, len: usize, longest: u32) -> bool
    ensures { result ≡ true → len ≤ longest }
{
    len <= longest as usize && len <= (LONGEST_BLOCK - address % LONGEST_BLOCK) as usize
}

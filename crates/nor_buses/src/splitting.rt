//! A bus that splits transactions that exceed the limits of a programmer.
ghost use Rattle.std.specs.Prelude.{◌≡◌, ◌<◌, ◌≤◌, [], true, false, length, drop, OnOk};
ghost use Rattle.std.proofs.lemmas.Bool.{and_parts};
ghost use Rattle.nor_model.specs.Bus.{SameNature, Transfers};
ghost use Rattle.nor_model.specs.Passed.{Passes};
ghost use Rattle.nor_buses.specs.ReadsAs.{address_in};
ghost use Rattle.nor_model.specs.Sent.{begins_program};
ghost use Rattle.nor_buses.specs.Parts.{can_split_read, SplitsRead, SplitsProgram};

use crate::parts::{split_program, split_read};
use nor_model::{Bus, History, Stopped};

/// A bus that splits transactions which are too long for the bus inside, so that a programmer with small limits can
/// carry them out. A transaction within both limits (`longest_write`, `longest_read`) is passed on unchanged.
///
/// - A read of data (03h) or of SFDP bytes (5Ah) becomes several reads of consecutive addresses. A read of status 1
///   (05h) or status 2 (35h) that requests several bytes becomes several reads.
/// - A program (02h) becomes several programs of the same page, in ascending order of addresses. The caller's write
///   enable enables the first part. Before each further part this bus polls (05h) until the chip is ready, and sends a
///   write enable (06h). The caller polls after the last part.
///
/// Any other transaction that exceeds a limit returns `Stopped`, and nothing is sent. The same happens to a read that
/// is too long and passes address FFFFFFh, and to a program that is too long and passes the end of its page or requests
/// reply bytes.
///
/// A program in parts stops if the bus inside stops, or after 65,536 polls in a row that show BUSY. Then perhaps only
/// some of its bytes are programmed, as after an interrupted program. After a session, a restore can undo this.
///
/// This bus is proved to be well-behaved if the bus inside is, and the limits allow a page program (260 bytes sent) and
/// the read of a sector (4,096 bytes read). Then it is also punctual and steady if the bus inside is, and takes reads
/// as long as `longest_read` and the bus inside allow. With narrower limits this bus does not count as well-behaved:
/// for example, a program in parts that stops may leave the page partly programmed, the chip idle and WEL set.
///
/// The history has one entry for a transaction that was split, and lists a rejected transaction without a reply.
#[derive(Drop)]
pub struct SplittingBus<B> {
    bus: B,
    longest_write: u32,
    longest_read: u32,
    history: History,
    // A part of a program sends opcode, address and at least one data byte. A part of a read reads at least one byte.
    ghost writes: { 5 ≤ longest_write },
    ghost reads: { 1 ≤ longest_read },
}

impl<B: Bus + Drop> SplittingBus<B> {
    ghost use Rattle.nor_buses.specs.Splitting.{split_of, sends_most, receives_most, history_of};

    /// Returns a bus over `bus`. A transaction of `bus` can send at most `longest_write` bytes and read at most
    /// `longest_read` bytes.
    pub fn new(bus: B, longest_write: u32, longest_read: u32) -> SplittingBus<B>
        requires writes { 5 ≤ longest_write }
        requires reads { 1 ≤ longest_read }
        ensures bus { split_of result ≡ bus }
        ensures sends { sends_most result ≡ longest_write }
        ensures receives { receives_most result ≡ longest_read }
        ensures history { history_of result ≡ [] }
    {
        SplittingBus {
            bus,
            longest_write,
            longest_read,
            history: History::new(),
        }
    }

    /// Returns the bus inside, which carries out the transactions of this bus.
    pub fn inner(&self) -> &B
        ensures { result.now ≡ split_of self.now }
    {
        &self.bus
    }
}

impl<B: Bus> SplittingBus<B> {
    ghost use Rattle.nor_buses.specs.Splitting.{split_of, sends_most, receives_most, history_of};

    fn carry(&mut self, out: &[u8], reply: &mut [u8]) -> Result<(), Stopped>
        ensures nature { SameNature (B.state (split_of self.old)) (B.state (split_of self.new)) }
        ensures passed { Passes out.now (B.state (split_of self.old)).passed (B.state (split_of self.new)).passed }
        ensures history { history_of self.new ≡ history_of self.old }
        ensures sends { sends_most self.new ≡ sends_most self.old }
        ensures receives { receives_most self.new ≡ receives_most self.old }
        ensures whole { length out.now ≤ sends_most self.old → length reply.old ≤ receives_most self.old
            → Transfers out.now reply.old reply.new result (B.state (split_of self.old)) (B.state (split_of self.new)) }
        ensures read { length out.now ≤ sends_most self.old → receives_most self.old < length reply.old
            → SplitsRead (receives_most self.old) out.now reply.new result
            (B.state (split_of self.old)).history (B.state (split_of self.new)).history }
        ensures no_read { length out.now ≤ sends_most self.old → receives_most self.old < length reply.old
            → can_split_read out.now ≡ false → (split_of self.new ≡ split_of self.old) × OnOk result ⊥ }
        ensures program { sends_most self.old < length out.now
            → SplitsProgram (sends_most self.old) (address_in out.now) (drop 4 out.now) result
            (B.state (split_of self.old)).history (B.state (split_of self.new)).history }
        ensures no_program { sends_most self.old < length out.now → begins_program out.now ≡ false
            → (split_of self.new ≡ split_of self.old) × OnOk result ⊥ }
    {
        if out.len() > self.longest_write as usize {
            return split_program(
                &mut self.bus,
                self.longest_write,
                self.longest_read,
                out,
                reply,
            );
        }
        if reply.len() > self.longest_read as usize {
            return split_read(&mut self.bus, self.longest_read, out, reply);
        }
        self.bus.transfer(out, reply)
    }
}

impl<B: Bus> Bus for SplittingBus<B> {
    ghost use Rattle.nor_buses.specs.Splitting.{split_of, sends_most, receives_most, splitting_state};

    ghost state = { splitting_state B.state };

    ghost reaches = { λ splitting honest. B.reaches splitting.bus (and_parts _ _ honest).0 };

    fn transfer(&mut self, out: &[u8], reply: &mut [u8]) -> Result<(), Stopped>
        ensures law { Transfers out.now reply.old reply.new result
            (splitting_state B.state self.old) (splitting_state B.state self.new) }
        ensures sends { sends_most self.new ≡ sends_most self.old }
        ensures receives { receives_most self.new ≡ receives_most self.old }
        ensures whole { length out.now ≤ sends_most self.old → length reply.old ≤ receives_most self.old
            → Transfers out.now reply.old reply.new result (B.state (split_of self.old)) (B.state (split_of self.new)) }
        ensures read { length out.now ≤ sends_most self.old → receives_most self.old < length reply.old
            → SplitsRead (receives_most self.old) out.now reply.new result
            (B.state (split_of self.old)).history (B.state (split_of self.new)).history }
        ensures no_read { length out.now ≤ sends_most self.old → receives_most self.old < length reply.old
            → can_split_read out.now ≡ false → (split_of self.new ≡ split_of self.old) × OnOk result ⊥ }
        ensures program { sends_most self.old < length out.now
            → SplitsProgram (sends_most self.old) (address_in out.now) (drop 4 out.now) result
            (B.state (split_of self.old)).history (B.state (split_of self.new)).history }
        ensures no_program { sends_most self.old < length out.now → begins_program out.now ≡ false
            → (split_of self.new ≡ split_of self.old) × OnOk result ⊥ }
    {
        match self.carry(out, reply) {
            Ok(()) => {
                self.history = self.history.replied(out, reply);
                Ok(())
            }
            Err(Stopped) => {
                self.history = self.history.stopped(out);
                Err(Stopped)
            }
        }
    }

    fn has_further_types(&self) -> bool {
        self.bus.has_further_types()
    }
}

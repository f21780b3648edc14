//! A bus that reads IDs, SFDP and data twice.
ghost use Rattle.std.specs.Prelude.{◌≡◌, ◌≤◌, ◌⊎◌, ◌∷◌, [], true, false, None, Some, length, OnOk, OnErr, IfOk};
ghost use Rattle.nor_model.specs.Bus.{BusState, IsHonestFor, SameNature, AtStop, Carries, Records, Transfers};
ghost use Rattle.nor_model.specs.Step.{is_command};
ghost use Rattle.nor_model.specs.History.{exchange_of, replied};
ghost use Rattle.nor_buses.specs.ReadsAs.{around, KeepsRecord};
ghost use Rattle.nor_buses.specs.Keeps.{KeepsAll, StopsUnread, MakesStep};
ghost use Rattle.nor_buses.specs.Again.{FirstRead};
ghost use Rattle.nor_buses.specs.Twice.{twice_of, has_differed, expected_of, begins_read, history_of, twice_state};
ghost use Rattle.nor_buses.specs.Twice.{EndsTwice, ReadsTwice, RepeatsUnexpected, CarriesUnexpected};

use crate::again::{is_repeated, is_repeated_or_expected};
use crate::ahead::data_address;
use nor_model::opcodes::{READ_DATA, READ_ID, READ_SFDP, READ_UNIQUE};
use nor_model::{Bus, History, Stopped};

// The greatest length of a repeated read, in bytes. This is also the greatest length of a block of `ReadAhead`.
const LONGEST_READ: usize = 65536;

const ADDRESSES_END: usize = 1 << 24;

/// A bus that carries out each read of data (03h), of the ID (9Fh), of SFDP (5Ah) and of the unique ID (4Bh) twice, and
/// stops if the replies differ. A poor contact flips bits in some reads. Without a second read a flipped bit could get
/// into the journal, and a restore would write it to the chip. If one of these reads requests more than 65,536 bytes,
/// it returns `Stopped` and nothing is sent.
///
/// If an image is expected (`expecting`), a read of data (03h and three address bytes) that doesn't pass address
/// FFFFFFh is not repeated as a whole. Only the sectors of its reply that differ from the image at the same addresses
/// are read again, neighbouring sectors together. A session that writes this image saves only such sectors in its
/// journal.
///
/// An error that is the same in both reads is not detected. On any bus, each byte that a successful read of these kinds
/// returned is the expected byte, or was returned a second time by a later transaction. After a failed read, `reply`
/// may contain bytes that were read.
///
/// This bus is never punctual, and it is proved to be well-behaved if the bus inside is. If the bus inside is
/// well-behaved and punctual, a read of at most 65,536 bytes that the bus inside takes, and that is a command of the
/// model, fails only if the allowance of the bus inside is used up. The history has one entry for a repeated read.
#[derive(Drop)]
pub struct ReadTwice<B> {
    bus: B,
    again: [u8; LONGEST_READ],
    expected: Option<Vec<u8>>,
    differed: bool,
    history: History,
}

impl<B: Bus + Drop> ReadTwice<B> {
    /// Returns a bus over `bus` that carries out each read of data, of IDs and of SFDP twice.
    pub fn new(bus: B) -> ReadTwice<B>
        ensures bus { twice_of result ≡ bus }
        ensures differed { has_differed result ≡ false }
        ensures history { history_of result ≡ [] }
        ensures expected { expected_of result ≡ None }
    {
        ReadTwice {
            bus,
            again: [0; LONGEST_READ],
            expected: None,
            differed: false,
            history: History::new(),
        }
    }

    /// Returns a bus over `bus` that carries out reads of data, of IDs and of SFDP twice, except for sectors of data
    /// that equal `image` at their addresses. The first byte of `image` is the one at address 0.
    pub fn expecting(bus: B, image: Vec<u8>) -> ReadTwice<B>
        ensures bus { twice_of result ≡ bus }
        ensures differed { has_differed result ≡ false }
        ensures history { history_of result ≡ [] }
        ensures expected { expected_of result ≡ Some image }
    {
        ReadTwice {
            bus,
            again: [0; LONGEST_READ],
            expected: Some(image),
            differed: false,
            history: History::new(),
        }
    }

    /// Returns the bus inside, which carries out the transactions of this bus.
    pub fn inner(&self) -> &B
        ensures { result.now ≡ twice_of self.now }
    {
        &self.bus
    }

    /// Returns whether the two replies to a repeated read ever differed.
    pub fn differed(&self) -> bool
        ensures { result ≡ has_differed self.now }
    {
        self.differed
    }
}

impl<B: Bus> ReadTwice<B> {
    // Carries out `out`. The clause `records` is about the state after the caller has added `out` to the history.
    fn carry(&mut self, out: &[u8], reply: &mut [u8]) -> Result<(), Stopped>
        ensures once { IsHonestFor out.now (length reply.old) (B.state (twice_of self.old))
            → begins_read out.now ≡ false
            → OnOk result (Carries out.now reply.new (B.state (twice_of self.old)) (B.state (twice_of self.new))) }
        ensures same { begins_read out.now ≡ true → OnOk result (
            RepeatsUnexpected self.old out.now reply.new
            (B.state (twice_of self.old)).history (B.state (twice_of self.new)).history
            ⊎ EndsTwice out.now reply.new (B.state (twice_of self.old)).history (B.state (twice_of self.new)).history) }
        ensures twice { IsHonestFor out.now (length reply.old) (B.state (twice_of self.old))
            → begins_read out.now ≡ true → OnOk result (
            CarriesUnexpected self.old out.now reply.new (B.state (twice_of self.old)) (B.state (twice_of self.new))
            ⊎ ReadsTwice out.now reply.new (B.state (twice_of self.old)) (B.state (twice_of self.new))) }
        ensures no_difference { IsHonestFor out.now (length reply.old) (B.state (twice_of self.old))
            → (B.state (twice_of self.old)).punctual ≡ true → length reply.old ≤ 65536
            → is_command (B.state (twice_of self.old)).chip.config out.now (length reply.old) ≡ true
            → OnErr result ((B.state (twice_of self.new)).left ≡ 0) }
        ensures nature { SameNature (B.state (twice_of self.old)) (B.state (twice_of self.new)) }
        ensures stops { IsHonestFor out.now (length reply.old) (B.state (twice_of self.old))
            → OnErr result (AtStop out.now (B.state (twice_of self.old)) (B.state (twice_of self.new))) }
        ensures steps { IsHonestFor out.now (length reply.old) (B.state (twice_of self.old))
            → OnOk result (MakesStep out.now reply.new (B.state (twice_of self.old)) (B.state (twice_of self.new))) }
        ensures records { Records out.now reply.new result (twice_state B.state self.old)
            (around (B.state (twice_of self.new)) (exchange_of out.now reply.new result ∷ history_of self.old)) }
        ensures history { history_of self.new ≡ history_of self.old }
        ensures passes { begins_read out.now ≡ false → (B.state (twice_of self.new)).history
            ≡ exchange_of out.now reply.new result ∷ (B.state (twice_of self.old)).history }
        ensures expected { expected_of self.new ≡ expected_of self.old }
        ensures remembers { has_differed self.old ≡ true → has_differed self.new ≡ true }
    {
        if !is_read(out) {
            return self.bus.transfer(out, reply);
        }
        if reply.len() > LONGEST_READ {
            return Err(Stopped);
        }
        self.bus.transfer(out, &mut *reply)?;
        if !self.is_confirmed(out, reply)? {
            self.differed = true;
            return Err(Stopped);
        }
        Ok(())
    }

    // Repeats the read `out`, whose first reply was `reply`, and returns whether the second bytes equal the first ones.
    // If an image is expected, and `out` is a read of data that doesn't pass address FFFFFFh, only the sectors that
    // differ from the image are read again. In the clauses, `before` is the state before the first read.
    fn is_confirmed(&mut self, out: &[u8], reply: &[u8]) -> Result<bool, Stopped>
        requires reads { begins_read out.now ≡ true }
        requires len { length reply.now ≤ 65536 }
        ensures nature { SameNature (B.state (twice_of self.old)) (B.state (twice_of self.new)) }
        ensures record { KeepsRecord (B.state (twice_of self.old)) (B.state (twice_of self.new)) }
        ensures passed { (B.state (twice_of self.new)).passed ≡ (B.state (twice_of self.old)).passed }
        ensures history { history_of self.new ≡ history_of self.old }
        ensures expected { expected_of self.new ≡ expected_of self.old }
        ensures remembers { has_differed self.new ≡ has_differed self.old }
        ensures keeps { IsHonestFor out.now (length reply.now) (B.state (twice_of self.old))
            → OnOk result (KeepsAll (B.state (twice_of self.old)) (B.state (twice_of self.new))) }
        ensures stopped { IsHonestFor out.now (length reply.now) (B.state (twice_of self.old))
            → OnErr result (StopsUnread (B.state (twice_of self.old)) (B.state (twice_of self.new))) }
        ensures same { (before : BusState)
            → (B.state (twice_of self.old)).history ≡ replied out.now reply.now ∷ before.history
            → IfOk result (λ same. same ≡ true → RepeatsUnexpected self.old out.now reply.now before.history
            (B.state (twice_of self.new)).history
            ⊎ EndsTwice out.now reply.now before.history (B.state (twice_of self.new)).history) }
        ensures twice { (before : BusState) → IsHonestFor out.now (length reply.now) before
            → FirstRead out.now reply.now before (B.state (twice_of self.old))
            → IfOk result (λ same. same ≡ true
            → CarriesUnexpected self.old out.now reply.now before (B.state (twice_of self.new))
            ⊎ ReadsTwice out.now reply.now before (B.state (twice_of self.new))) }
        ensures no_difference { (before : BusState) → IsHonestFor out.now (length reply.now) before
            → is_command before.chip.config out.now (length reply.now) ≡ true
            → FirstRead out.now reply.now before (B.state (twice_of self.old)) → IfOk result (λ same. same ≡ true) }
        ensures fails { IsHonestFor out.now (length reply.now) (B.state (twice_of self.old))
            → (B.state (twice_of self.old)).punctual ≡ true → OnErr result ((B.state (twice_of self.new)).left ≡ 0) }
    {
        let again = &mut self.again[..];
        match (&self.expected, data_address(out)) {
            (Some(image), Some(address)) if address as usize + reply.len() <= ADDRESSES_END => {
                is_repeated_or_expected(&mut self.bus, image, address, reply, again)
            }
            _ => is_repeated(&mut self.bus, out, reply, again),
        }
    }
}

impl<B: Bus> Bus for ReadTwice<B> {
    ghost state = { twice_state B.state };

    ghost reaches = { λ twice honest. B.reaches twice.bus honest };

    fn transfer(&mut self, out: &[u8], reply: &mut [u8]) -> Result<(), Stopped>
        ensures law { Transfers out.now reply.old reply.new result
            (twice_state B.state self.old) (twice_state B.state self.new) }
        ensures once { IsHonestFor out.now (length reply.old) (B.state (twice_of self.old))
            → begins_read out.now ≡ false
            → OnOk result (Carries out.now reply.new (B.state (twice_of self.old)) (B.state (twice_of self.new))) }
        ensures same { begins_read out.now ≡ true → OnOk result (
            RepeatsUnexpected self.old out.now reply.new
            (B.state (twice_of self.old)).history (B.state (twice_of self.new)).history
            ⊎ EndsTwice out.now reply.new (B.state (twice_of self.old)).history (B.state (twice_of self.new)).history) }
        ensures twice { IsHonestFor out.now (length reply.old) (B.state (twice_of self.old))
            → begins_read out.now ≡ true → OnOk result (
            CarriesUnexpected self.old out.now reply.new (B.state (twice_of self.old)) (B.state (twice_of self.new))
            ⊎ ReadsTwice out.now reply.new (B.state (twice_of self.old)) (B.state (twice_of self.new))) }
        ensures no_difference { IsHonestFor out.now (length reply.old) (B.state (twice_of self.old))
            → (B.state (twice_of self.old)).punctual ≡ true → length reply.old ≤ 65536
            → is_command (B.state (twice_of self.old)).chip.config out.now (length reply.old) ≡ true
            → OnErr result ((B.state (twice_of self.new)).left ≡ 0) }
        ensures passes { begins_read out.now ≡ false → (B.state (twice_of self.new)).history
            ≡ exchange_of out.now reply.new result ∷ (B.state (twice_of self.old)).history }
        ensures expected { expected_of self.new ≡ expected_of self.old }
        ensures remembers { has_differed self.old ≡ true → has_differed self.new ≡ true }
    {
        match self.carry(out, reply) {
            Ok(()) => {
                self.history = self.history.replied(out, reply);
                Ok(())
            }
            Err(Stopped) => {
                self.history = self.history.stopped(out);
                Err(Stopped)
            }
        }
    }

    fn has_further_types(&self) -> bool {
        self.bus.has_further_types()
    }
}

fn is_read(out: &[u8]) -> bool
    ensures { result ≡ begins_read out.now }
{
    matches!(out, [READ_DATA | READ_ID | READ_SFDP | READ_UNIQUE, ..])
}

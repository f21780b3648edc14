//! A bus that reads status 2 (35h) only from a chip that is known to have this command.
ghost use Rattle.std.specs.Prelude.{◌≡◌, ◌⊎◌, ◌||◌, ◌<◌, ℕ, [], true, false, length, slice_index, OnErr, OnOk};
ghost use Rattle.std.proofs.lemmas.Bool.{and_parts};
ghost use Rattle.nor_model.specs.Bus.{IsHonestFor, SameNature, AtStop, Transfers};
ghost use Rattle.nor_model.specs.History.{begins_with};
ghost use Rattle.nor_model.specs.Passed.{Passes};
ghost use Rattle.nor_buses.specs.Keeps.{KeepsAll, StopsUnread, MakesStep};
ghost use Rattle.nor_buses.specs.Listed.{asks_none, is_id_listed, is_same, shows_id, shows_known};
ghost use Rattle.nor_buses.specs.Listed.{is_readable, names_status2, IsKnownOnceRead, RepliesId};

use crate::chip_ids::ChipIds;
use nor_model::opcodes::{READ_ID, READ_SFDP, READ_STATUS2};
use nor_model::{Bus, History, Stopped};

// The least number of double words of a table that has double word 15, which contains the quad enable requirements.
const WORDS: u8 = 15;

// The offset of double word 15 in the table, in bytes.
const WORD_15: u32 = 56;

/// A bus that sends 35h only to a chip that is known to return status 2 for 35h. On other makers' chips 35h may mean
/// something else: Macronix MX25L12835F, ISSI IS25LP128 and Micron MT25QL128 enter QPI mode, and then ignore each
/// command that is sent over one data line, until they are reset or their power is off.
///
/// The chip is known if one of these conditions holds:
///
/// - A read of the ID (9Fh with three reply bytes) returned an ID of the list `ids`, or the ID `before` (see `new`).
/// - The quad enable requirements, bits 22 to 20 of double word 15 of the first SFDP parameter table, are 101b or 110b
///   (JESD216B). When 35h is requested for a chip that isn't known, this bus reads double word 15 if the last read of
///   the table's header, at address 8, gave at least 15 double words, and double word 15 was not read since.
///
/// If the chip isn't known, 35h is not sent. Then 35h returns `Stopped` until an ID other than FFFFFFh was read, and
/// later 00h as each reply byte. If the chip is known, 35h is passed on unchanged. Each other transaction is always
/// passed on. The chip stays known, so the bus inside must stop if the ID changes, as a `CheckedStatus` does. After a
/// status write a `CheckedStatus` itself sends 35h, but it passes on a status write only if it received 35h before.
///
/// This bus is well-behaved if the bus inside is, and the chip has an ID of `ids` or the ID `before`. It is never
/// punctual.
#[derive(Drop)]
pub struct KnownStatus2<B: Bus + Drop> {
    bus: B,
    // The IDs of the chips that return status 2 for 35h.
    ids: ChipIds,
    // The ID of a chip whose status 2 an earlier run read, if this ID is given.
    before: Option<[u8; 3]>,
    is_known: bool,
    // True if an ID other than FFFFFFh was read.
    has_id: bool,
    // The address of double word 15, if the table's header gave it and double word 15 wasn't read yet.
    word_15: Option<u32>,
    history: History,
    ghost judged: { IsKnownOnceRead ids.items before has_id is_known (B.state bus) },
}

impl<B: Bus + Drop> KnownStatus2<B> {
    ghost use Rattle.nor_buses.specs.KnownStatus2.{known_by, has_status2, ids_of, before_of, history_of};

    /// Returns a bus over `bus`. The chips with an ID of `ids` return status 2 for 35h. If `before` is given, so does
    /// the chip with this ID, because an earlier run read its status 2.
    pub fn new(bus: B, ids: ChipIds, before: Option<[u8; 3]>) -> KnownStatus2<B>
        ensures bus { known_by result ≡ bus }
        ensures known { has_status2 result ≡ false }
        ensures ids { ids_of result ≡ ids.items }
        ensures before { before_of result ≡ before }
        ensures history { history_of result ≡ [] }
    {
        KnownStatus2 {
            bus,
            ids,
            before,
            is_known: false,
            has_id: false,
            word_15: None,
            history: History::new(),
        }
    }

    /// Returns the bus inside, which carries out the transactions of this bus.
    pub fn inner(&self) -> &B
        ensures { result.now ≡ known_by self.now }
    {
        &self.bus
    }

    /// Returns whether the chip is known to return status 2 for 35h.
    pub fn has_status2(&self) -> bool
        ensures { result ≡ has_status2 self.now }
    {
        self.is_known
    }
}

impl<B: Bus + Drop> KnownStatus2<B> {
    ghost use Rattle.nor_buses.specs.KnownStatus2.{known_by, has_status2, ids_of, before_of, history_of, inside_known};

    // Reads double word 15 if its address is known but the chip isn't known yet, and records whether double word 15
    // makes the chip known.
    #[tactic(auto, using(crate::proofs::Judged::judged_still))]
    fn find_out(&mut self) -> Result<(), Stopped>
        ensures history { history_of self.new ≡ history_of self.old }
        ensures ids { ids_of self.new ≡ ids_of self.old }
        ensures before { before_of self.new ≡ before_of self.old }
        ensures none { asks_none (B.state (known_by self.old)).history ≡ true
            → asks_none (B.state (known_by self.new)).history ≡ true }
        ensures stays { has_status2 self.old ≡ true → (self.new ≡ self.old) × OnErr result ⊥ }
        ensures learns { has_status2 self.old ≡ false → has_status2 self.new ≡ true
            → names_status2 (B.state (known_by self.new)).history ≡ true }
        ensures nature { SameNature (B.state (known_by self.old)) (B.state (known_by self.new)) }
        ensures passed { (B.state (known_by self.new)).passed ≡ (B.state (known_by self.old)).passed }
        ensures keeps { (B.state (known_by self.old)).honest ≡ true
            → OnOk result (KeepsAll (B.state (known_by self.old)) (B.state (known_by self.new))) }
        ensures stops { (B.state (known_by self.old)).honest ≡ true
            → OnErr result (StopsUnread (B.state (known_by self.old)) (B.state (known_by self.new))) }
    {
        if self.is_known {
            return Ok(());
        }
        if let Some(address) = self.word_15 {
            let [_, high, middle, low] = address.to_be_bytes();
            let mut word = [0; 4];
            self.bus
                .transfer(&[READ_SFDP, high, middle, low, 0], &mut word)?;
            self.word_15 = None;
            self.is_known = is_readable(word);
        }
        Ok(())
    }

    #[tactic(auto, using(crate::proofs::Judged::judged_still, crate::proofs::Judged::replies_id))]
    fn carry(&mut self, out: &[u8], reply: &mut [u8]) -> Result<(), Stopped>
        ensures history { history_of self.new ≡ history_of self.old }
        ensures ids { ids_of self.new ≡ ids_of self.old }
        ensures before { before_of self.new ≡ before_of self.old }
        ensures known { has_status2 self.old ≡ true → Transfers out.now reply.old reply.new result
            (B.state (known_by self.old)) (B.state (known_by self.new)) }
        ensures passes { begins_with 0x35 out.now ≡ false → Transfers out.now reply.old reply.new result
            (B.state (known_by self.old)) (B.state (known_by self.new)) }
        ensures none { has_status2 self.new ≡ false → asks_none (B.state (known_by self.old)).history ≡ true
            → asks_none (B.state (known_by self.new)).history ≡ true }
        ensures zeros { begins_with 0x35 out.now ≡ true → has_status2 self.new ≡ false
            → OnOk result ((i : ℕ) → i < length reply.new → slice_index reply.new i ≡ 0) }
        ensures stays { has_status2 self.old ≡ true → has_status2 self.new ≡ true }
        ensures learns { has_status2 self.old ≡ false → has_status2 self.new ≡ true
            → (shows_known (ids_of self.old) (before_of self.old) out.now reply.new ≡ true)
            ⊎ (names_status2 (B.state (known_by self.new)).history ≡ true) }
        ensures nature { SameNature (B.state (known_by self.old)) (B.state (known_by self.new)) }
        ensures passed { Passes out.now (B.state (known_by self.old)).passed (B.state (known_by self.new)).passed }
        ensures steps { IsHonestFor out.now (length reply.old) (inside_known self.old) → OnOk result
            (MakesStep out.now reply.new (B.state (known_by self.old)) (B.state (known_by self.new))) }
        ensures stops { IsHonestFor out.now (length reply.old) (inside_known self.old) → OnErr result
            (AtStop out.now (B.state (known_by self.old)) (B.state (known_by self.new))) }
    {
        if is_second(out) {
            self.find_out()?;
            if self.is_known {
                return self.bus.transfer(out, reply);
            }
            if !self.has_id {
                return Err(Stopped);
            }
            reply.fill(0);
            return Ok(());
        }
        self.bus.transfer(out, reply)?;
        self.remember(out, reply);
        Ok(())
    }

    #[tactic(auto, using(crate::proofs::Judged::judged_by))]
    fn remember(&mut self, out: &[u8], reply: &[u8])
        requires { RepliesId out.now reply.now (B.state (known_by self.old)) }
        ensures history { history_of self.new ≡ history_of self.old }
        ensures ids { ids_of self.new ≡ ids_of self.old }
        ensures before { before_of self.new ≡ before_of self.old }
        ensures bus { known_by self.new ≡ known_by self.old }
        ensures known { has_status2 self.new
            ≡ (has_status2 self.old || shows_known (ids_of self.old) (before_of self.old) out.now reply.now) }
    {
        self.is_known = self.is_known
            || is_known_chip(self.ids.as_slice(), self.before, out, reply);
        self.has_id = self.has_id || is_id(out, reply);
        if let [READ_SFDP, 0, 0, 8, _] = out {
            self.word_15 = word_15_in(reply);
        }
    }
}

impl<B: Bus + Drop> Bus for KnownStatus2<B> {
    ghost use Rattle.nor_buses.specs.KnownStatus2.{known_by, has_status2, ids_of, before_of, known_status2_state};

    ghost state = { known_status2_state };

    ghost reaches = { λ known honest. B.reaches known.bus (and_parts _ _ honest).0 };

    fn transfer(&mut self, out: &[u8], reply: &mut [u8]) -> Result<(), Stopped>
        ensures law { Transfers out.now reply.old reply.new result
            (known_status2_state self.old) (known_status2_state self.new) }
        ensures ids { ids_of self.new ≡ ids_of self.old }
        ensures before { before_of self.new ≡ before_of self.old }
        ensures known { has_status2 self.old ≡ true → Transfers out.now reply.old reply.new result
            (B.state (known_by self.old)) (B.state (known_by self.new)) }
        ensures passes { begins_with 0x35 out.now ≡ false → Transfers out.now reply.old reply.new result
            (B.state (known_by self.old)) (B.state (known_by self.new)) }
        ensures none { has_status2 self.new ≡ false → asks_none (B.state (known_by self.old)).history ≡ true
            → asks_none (B.state (known_by self.new)).history ≡ true }
        ensures zeros { begins_with 0x35 out.now ≡ true → has_status2 self.new ≡ false
            → OnOk result ((i : ℕ) → i < length reply.new → slice_index reply.new i ≡ 0) }
        ensures stays { has_status2 self.old ≡ true → has_status2 self.new ≡ true }
        ensures learns { has_status2 self.old ≡ false → has_status2 self.new ≡ true
            → (shows_known (ids_of self.old) (before_of self.old) out.now reply.new ≡ true)
            ⊎ (names_status2 (B.state (known_by self.new)).history ≡ true) }
    {
        match self.carry(out, reply) {
            Ok(()) => {
                self.history = self.history.replied(out, reply);
                Ok(())
            }
            Err(Stopped) => {
                self.history = self.history.stopped(out);
                Err(Stopped)
            }
        }
    }

    fn has_further_types(&self) -> bool {
        self.bus.has_further_types()
    }
}

fn is_second(out: &[u8]) -> bool
    ensures { result ≡ begins_with 0x35 out.now }
{
    matches!(out, [READ_STATUS2, ..])
}

fn is_id(out: &[u8], reply: &[u8]) -> bool
    ensures { result ≡ shows_id out.now reply.now }
{
    match (out, reply) {
        ([READ_ID], [a, b, c]) => *a != 0xFF || *b != 0xFF || *c != 0xFF,
        _ => false,
    }
}

fn is_known_chip(ids: &[[u8; 3]], before: Option<[u8; 3]>, out: &[u8], reply: &[u8]) -> bool
    ensures { result ≡ shows_known ids.now before out.now reply.now }
{
    if !matches!(out, [READ_ID, ..]) || reply.len() != 3 {
        return false;
    }
    let mut id = [0; 3];
    id.copy_from_slice(reply);
    is_same(before, id) || is_id_listed(ids, id)
}

pub(crate) fn is_id_listed(ids: &[[u8; 3]], id: [u8; 3]) -> bool
    ensures { result ≡ is_id_listed ids.now id }
{
    ids.iter().any(|one| *one == id)
}

fn is_same(before: Option<[u8; 3]>, id: [u8; 3]) -> bool
    ensures { result ≡ is_same before id }
{
    match before {
        Some(one) => one == id,
        None => false,
    }
}

// Returns the address of double word 15 if `header`, the first parameter header, describes a basic table of major
// revision 1 with at least 15 double words (JESD216B, parameter headers).
pub(crate) fn word_15_in(header: &[u8]) -> Option<u32> {
    match header {
        [0, _, 1, words, low, middle, high, _] if *words >= WORDS => {
            Some(u32::from_le_bytes([*low, *middle, *high, 0]) + WORD_15)
        }
        _ => None,
    }
}

// Returns whether the quad enable requirements say that 35h reads status 2 (JESD216B, double word 15).
fn is_readable(word: [u8; 4]) -> bool
    ensures { result ≡ is_readable word }
{
    matches!(word[2] / 16 % 8, 5 | 6)
}

//! A bus that hides bit 6 of status 1 if this bit is QE (quad enable).
ghost use Rattle.std.specs.Prelude.{◌≡◌, ◌%◌, ◌∷◌, [], not, true, false, IfOk, OnErr, OnOk, length, slice_index, slice_set};
ghost use Rattle.std.proofs.lemmas.Bool.{and_parts};
ghost use Rattle.nor_model.specs.Bus.{IsHonestFor, SameNature, AtStop, Transfers};
ghost use Rattle.nor_model.specs.History.{begins_with};
ghost use Rattle.nor_model.specs.Passed.{Passes};
ghost use Rattle.nor_buses.specs.Listed.{is_id_listed};
ghost use Rattle.nor_buses.specs.Keeps.{KeepsAll, StopsUnread, MakesStep};
ghost use Rattle.nor_buses.specs.SomeChips.{chip_id};
ghost use Rattle.nor_buses.specs.Bit6.{names_bit6, is_bit6, without_quad, OnlyReadsOn, ShowsWithoutQuad, IsPlain};

use crate::chip_ids::ChipIds;
use crate::known_status2::{is_id_listed, word_15_in};
use nor_model::opcodes::{READ_ID, READ_SFDP, READ_STATUS1, WRITE_STATUS};
use nor_model::{Bus, History, Stopped};

// The bytes to send to read the SFDP header (`HEADER`) or the header of the first parameter table (`FIRST_TABLE`).
const HEADER: [u8; 5] = [READ_SFDP, 0, 0, 0, 0];

const FIRST_TABLE: [u8; 5] = [READ_SFDP, 0, 0, 8, 0];

/// A bus that returns bit 6 of status 1 as 0 if it found that this is QE. On Winbond's chips bit 6 is SEC, a protection
/// bit. On chips of Macronix, ISSI and others it is QE, which lets the chip use four data lines and protects nothing.
///
/// If `hides` is true when a poll (05h with one reply byte) first shows an idle chip with bit 6 set, this bus reads the
/// ID and, unless the ID is one of `rows`, the SFDP. If the SFDP's quad enable requirements, bits 22 to 20 of double
/// word 15, are 010b (JESD216B, double word 15), bit 6 is QE and is hidden in this and each later poll. Otherwise bit 6
/// is passed on unchanged. `rows` and `hides` are the arguments of `new`.
///
/// If QE is hidden, a status write returns `Stopped` and is not sent, so QE stays as it is. The engine sends no status
/// write to a chip that has no row in the table of known chips.
///
/// This bus is well-behaved if the bus inside is, and if the chip has an ID of `rows` or `hides` is false, so that bit
/// 6 is never hidden. This bus is never punctual.
#[derive(Drop)]
pub struct KeptQuad<B: Bus + Drop> {
    bus: B,
    // The IDs of the chips that have a row in the table of known chips. Their bit 6 is SEC.
    rows: ChipIds,
    // True if this bus hides bit 6 of a chip on which bit 6 is QE.
    hides: bool,
    has_quad: bool,
    // True if it is decided whether bit 6 is hidden: QE was looked up, or this bus hides nothing.
    is_judged: bool,
    history: History,
    ghost plain: { IsPlain rows.items hides has_quad is_judged (B.state bus) },
}

impl<B: Bus + Drop> KeptQuad<B> {
    ghost use Rattle.nor_buses.specs.KeptQuad.{kept_by, rows_of, hides_of, has_quad, is_judged, history_of};

    /// Returns a bus over `bus`. The chips with the IDs `rows` have SEC as bit 6. If `hides` is false, each transaction
    /// is passed on unchanged.
    pub fn new(bus: B, rows: ChipIds, hides: bool) -> KeptQuad<B>
        ensures bus { kept_by result ≡ bus }
        ensures rows { rows_of result ≡ rows.items }
        ensures hides { hides_of result ≡ hides }
        ensures quad { has_quad result ≡ false }
        ensures judged { is_judged result ≡ not hides }
        ensures history { history_of result ≡ [] }
    {
        KeptQuad {
            bus,
            rows,
            hides,
            has_quad: false,
            is_judged: !hides,
            history: History::new(),
        }
    }

    /// Returns the bus inside, which carries out the transactions of this bus.
    pub fn inner(&self) -> &B
        ensures { result.now ≡ kept_by self.now }
    {
        &self.bus
    }
}

impl<B: Bus + Drop> KeptQuad<B> {
    ghost use Rattle.nor_buses.specs.KeptQuad.{kept_by, rows_of, hides_of, has_quad, is_judged, history_of, inside_kept};

    // Finds out whether bit 6 of status 1 is QE, and records this.
    #[tactic(auto, using(crate::proofs::Plain::plain_still, crate::proofs::Plain::plain_judged))]
    fn judge(&mut self) -> Result<(), Stopped>
        requires unjudged { is_judged self.old ≡ false }
        requires idle { (B.state (kept_by self.old)).honest ≡ true → (B.state (kept_by self.old)).chip.busy ≡ 0 }
        ensures history { history_of self.new ≡ history_of self.old }
        ensures rows { rows_of self.new ≡ rows_of self.old }
        ensures same { hides_of self.new ≡ hides_of self.old }
        ensures nature { SameNature (B.state (kept_by self.old)) (B.state (kept_by self.new)) }
        ensures passed { (B.state (kept_by self.new)).passed ≡ (B.state (kept_by self.old)).passed }
        ensures keeps { (B.state (kept_by self.old)).honest ≡ true
            → is_id_listed (rows_of self.old) (chip_id (B.state (kept_by self.old)).chip.config) ≡ true
            → OnOk result (KeepsAll (B.state (kept_by self.old)) (B.state (kept_by self.new))) }
        ensures stops { (B.state (kept_by self.old)).honest ≡ true
            → is_id_listed (rows_of self.old) (chip_id (B.state (kept_by self.old)).chip.config) ≡ true
            → OnErr result (StopsUnread (B.state (kept_by self.old)) (B.state (kept_by self.new))) }
        ensures reads { OnlyReadsOn (B.state (kept_by self.old)) (B.state (kept_by self.new)) }
        ensures learns { has_quad self.old ≡ false → has_quad self.new ≡ true
            → names_bit6 (B.state (kept_by self.new)).history ≡ true }
    {
        let is_bit6 = self.is_bit6()?;
        self.has_quad = is_bit6;
        self.is_judged = true;
        Ok(())
    }

    // Reads the ID and, unless it is one of `rows`, the SFDP. Returns whether the SFDP was read and shows bit 6 as QE.
    #[tactic(auto, using(crate::proofs::Plain::plain_still))]
    fn is_bit6(&mut self) -> Result<bool, Stopped>
        requires { (B.state (kept_by self.old)).honest ≡ true → (B.state (kept_by self.old)).chip.busy ≡ 0 }
        ensures history { history_of self.new ≡ history_of self.old }
        ensures rows { rows_of self.new ≡ rows_of self.old }
        ensures same { hides_of self.new ≡ hides_of self.old }
        ensures nature { SameNature (B.state (kept_by self.old)) (B.state (kept_by self.new)) }
        ensures passed { (B.state (kept_by self.new)).passed ≡ (B.state (kept_by self.old)).passed }
        ensures row { (B.state (kept_by self.old)).honest ≡ true
            → is_id_listed (rows_of self.old) (chip_id (B.state (kept_by self.old)).chip.config) ≡ true
            → IfOk result (λ is. is ≡ false) }
        ensures keeps { (B.state (kept_by self.old)).honest ≡ true
            → is_id_listed (rows_of self.old) (chip_id (B.state (kept_by self.old)).chip.config) ≡ true
            → OnOk result (KeepsAll (B.state (kept_by self.old)) (B.state (kept_by self.new))) }
        ensures stops { (B.state (kept_by self.old)).honest ≡ true
            → is_id_listed (rows_of self.old) (chip_id (B.state (kept_by self.old)).chip.config) ≡ true
            → OnErr result (StopsUnread (B.state (kept_by self.old)) (B.state (kept_by self.new))) }
        ensures quad { has_quad self.new ≡ has_quad self.old }
        ensures judged { is_judged self.new ≡ is_judged self.old }
        ensures reads { OnlyReadsOn (B.state (kept_by self.old)) (B.state (kept_by self.new)) }
        ensures learns { IfOk result (λ is. is ≡ true
            → names_bit6 (B.state (kept_by self.new)).history ≡ true) }
    {
        let mut id = [0; 3];
        self.bus.transfer(&[READ_ID], &mut id)?;
        if is_id_listed(self.rows.as_slice(), id) {
            return Ok(false);
        }
        let mut header = [0; 8];
        self.bus.transfer(&HEADER, &mut header)?;
        let mut first = [0; 8];
        self.bus.transfer(&FIRST_TABLE, &mut first)?;
        let Some(address) = word_15_in(&first) else {
            return Ok(false);
        };
        if !is_sfdp(&header) {
            return Ok(false);
        }
        let [_, high, middle, low] = address.to_be_bytes();
        let mut word = [0; 4];
        self.bus
            .transfer(&[READ_SFDP, high, middle, low, 0], &mut word)?;
        Ok(is_bit6(word))
    }

    #[tactic(auto, using(crate::proofs::Plain::plain_still))]
    fn carry(&mut self, out: &[u8], reply: &mut [u8]) -> Result<(), Stopped>
        ensures history { history_of self.new ≡ history_of self.old }
        ensures rows { rows_of self.new ≡ rows_of self.old }
        ensures same { hides_of self.new ≡ hides_of self.old }
        ensures nature { SameNature (B.state (kept_by self.old)) (B.state (kept_by self.new)) }
        ensures passed { Passes out.now (B.state (kept_by self.old)).passed (B.state (kept_by self.new)).passed }
        ensures steps { IsHonestFor out.now (length reply.old) (inside_kept self.old) → OnOk result
            (MakesStep out.now reply.new (B.state (kept_by self.old)) (B.state (kept_by self.new))) }
        ensures stops { IsHonestFor out.now (length reply.old) (inside_kept self.old) → OnErr result
            (AtStop out.now (B.state (kept_by self.old)) (B.state (kept_by self.new))) }
        ensures passes { begins_with 0x05 out.now ≡ false → begins_with 0x01 out.now ≡ false
            → Transfers out.now reply.old reply.new result
            (B.state (kept_by self.old)) (B.state (kept_by self.new)) }
        ensures elsewhere { is_judged self.old ≡ true → has_quad self.old ≡ false
            → Transfers out.now reply.old reply.new result
            (B.state (kept_by self.old)) (B.state (kept_by self.new)) }
        ensures stays { is_judged self.old ≡ true
            → (is_judged self.new ≡ true) × (has_quad self.new ≡ has_quad self.old) }
        ensures refuses { has_quad self.old ≡ true → begins_with 0x01 out.now ≡ true
            → (kept_by self.new ≡ kept_by self.old) × OnOk result ⊥ }
        ensures shows { is_judged self.old ≡ true → has_quad self.old ≡ true → begins_with 0x05 out.now ≡ true
            → length reply.new ≡ 1 → OnOk result (ShowsWithoutQuad out.now reply.new
            (B.state (kept_by self.old)).history (B.state (kept_by self.new)).history) }
        ensures learns { has_quad self.old ≡ false → has_quad self.new ≡ true
            → names_bit6 (B.state (kept_by self.new)).history ≡ true }
    {
        if self.has_quad && is_status_write(out) {
            return Err(Stopped);
        }
        self.bus.transfer(out, reply)?;
        if is_poll(out, reply) {
            self.hide(out, reply)?;
        }
        Ok(())
    }

    // Clears bit 6 of the status byte in `reply` if bit 6 was found to be QE. If this isn't decided yet, and `out` is
    // only 05h and the byte shows an idle chip with bit 6 set, first finds out whether bit 6 is QE.
    fn hide(&mut self, out: &[u8], reply: &mut [u8]) -> Result<(), Stopped>
        requires len { length reply.old ≡ 1 }
        requires idle { (B.state (kept_by self.old)).honest ≡ true → length out.now ≡ 1
            → slice_index reply.old 0 % 2 ≡ 0 → (B.state (kept_by self.old)).chip.busy ≡ 0 }
        ensures history { history_of self.new ≡ history_of self.old }
        ensures rows { rows_of self.new ≡ rows_of self.old }
        ensures same { hides_of self.new ≡ hides_of self.old }
        ensures nature { SameNature (B.state (kept_by self.old)) (B.state (kept_by self.new)) }
        ensures passed { (B.state (kept_by self.new)).passed ≡ (B.state (kept_by self.old)).passed }
        ensures whole { has_quad self.new ≡ false → reply.new ≡ reply.old }
        ensures idles { OnErr result ((length out.now ≡ 1) × (slice_index reply.old 0 % 2 ≡ 0)) }
        ensures keeps { (B.state (kept_by self.old)).honest ≡ true
            → is_id_listed (rows_of self.old) (chip_id (B.state (kept_by self.old)).chip.config) ≡ true
            → OnOk result (KeepsAll (B.state (kept_by self.old)) (B.state (kept_by self.new))) }
        ensures stops { (B.state (kept_by self.old)).honest ≡ true
            → is_id_listed (rows_of self.old) (chip_id (B.state (kept_by self.old)).chip.config) ≡ true
            → OnErr result (StopsUnread (B.state (kept_by self.old)) (B.state (kept_by self.new))) }
        ensures stays { is_judged self.old ≡ true → (self.new ≡ self.old) × OnErr result ⊥ }
        ensures elsewhere { is_judged self.old ≡ true → has_quad self.old ≡ false → reply.new ≡ reply.old }
        ensures hides { is_judged self.old ≡ true → has_quad self.old ≡ true
            → reply.new ≡ slice_set reply.old 0 (without_quad (slice_index reply.old 0)) }
        ensures learns { has_quad self.old ≡ false → has_quad self.new ≡ true
            → names_bit6 (B.state (kept_by self.new)).history ≡ true }
    {
        let status = reply[0];
        if !self.is_judged && out.len() == 1 && shows_bit6(status) {
            self.judge()?;
        }
        if self.has_quad {
            reply[0] = without_quad(status);
        }
        Ok(())
    }
}

impl<B: Bus + Drop> Bus for KeptQuad<B> {
    ghost use Rattle.nor_buses.specs.KeptQuad.{kept_by, rows_of, has_quad, is_judged, kept_quad_state};

    ghost state = { kept_quad_state };

    ghost reaches = { λ kept honest. B.reaches kept.bus (and_parts _ _ honest).0 };

    fn transfer(&mut self, out: &[u8], reply: &mut [u8]) -> Result<(), Stopped>
        ensures law { Transfers out.now reply.old reply.new result
            (kept_quad_state self.old) (kept_quad_state self.new) }
        ensures rows { rows_of self.new ≡ rows_of self.old }
        ensures passes { begins_with 0x05 out.now ≡ false → begins_with 0x01 out.now ≡ false
            → Transfers out.now reply.old reply.new result
            (B.state (kept_by self.old)) (B.state (kept_by self.new)) }
        ensures elsewhere { is_judged self.old ≡ true → has_quad self.old ≡ false
            → Transfers out.now reply.old reply.new result
            (B.state (kept_by self.old)) (B.state (kept_by self.new)) }
        ensures stays { is_judged self.old ≡ true
            → (is_judged self.new ≡ true) × (has_quad self.new ≡ has_quad self.old) }
        ensures refuses { has_quad self.old ≡ true → begins_with 0x01 out.now ≡ true
            → (kept_by self.new ≡ kept_by self.old) × OnOk result ⊥ }
        ensures shows { is_judged self.old ≡ true → has_quad self.old ≡ true → begins_with 0x05 out.now ≡ true
            → length reply.new ≡ 1 → OnOk result (ShowsWithoutQuad out.now reply.new
            (B.state (kept_by self.old)).history (B.state (kept_by self.new)).history) }
        ensures learns { has_quad self.old ≡ false → has_quad self.new ≡ true
            → names_bit6 (B.state (kept_by self.new)).history ≡ true }
    {
        match self.carry(out, reply) {
            Ok(()) => {
                self.history = self.history.replied(out, reply);
                Ok(())
            }
            Err(Stopped) => {
                self.history = self.history.stopped(out);
                Err(Stopped)
            }
        }
    }

    fn has_further_types(&self) -> bool {
        self.bus.has_further_types()
    }
}

fn is_status_write(out: &[u8]) -> bool
    ensures { result ≡ begins_with 0x01 out.now }
{
    matches!(out, [WRITE_STATUS, ..])
}

fn is_poll(out: &[u8], reply: &[u8]) -> bool
    ensures poll { result ≡ true → (begins_with 0x05 out.now ≡ true) × (length reply.now ≡ 1) }
    ensures other { result ≡ false → length reply.now ≡ 1 → begins_with 0x05 out.now ≡ false }
{
    matches!(out, [READ_STATUS1, ..]) && reply.len() == 1
}

fn shows_bit6(status: u8) -> bool
    ensures { result ≡ true → status % 2 ≡ 0 }
{
    status % 2 == 0 && status / 64 % 2 == 1
}

fn without_quad(status: u8) -> u8
    ensures { result ≡ without_quad status }
{
    if status / 64 % 2 == 1 {
        status - 64
    } else {
        status
    }
}

// Returns whether `header` is that of an SFDP of major revision 1 (JESD216, SFDP header).
fn is_sfdp(header: &[u8; 8]) -> bool {
    matches!(header, [b'S', b'F', b'D', b'P', _, 1, _, _])
}

fn is_bit6(word: [u8; 4]) -> bool
    ensures { result ≡ is_bit6 word }
{
    word[2] / 16 % 8 == 2
}

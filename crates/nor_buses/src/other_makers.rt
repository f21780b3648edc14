//! A bus that adapts two replies of other makers' chips to what the engine expects: the unique ID and the SFDP table.
ghost use Rattle.std.specs.Prelude.{◌≡◌, ◌<◌, ◌∷◌, [], true, false, length, IfOk, OnOk, OnErr};
ghost use Rattle.std.proofs.lemmas.Bool.{and_parts};
ghost use Rattle.nor_model.specs.Bus.{IsHonestFor, SameNature, AtStop, Transfers};
ghost use Rattle.nor_model.specs.History.{replied};
ghost use Rattle.nor_model.specs.Passed.{Passes};
ghost use Rattle.nor_buses.specs.Keeps.{KeepsAll, StopsUnread, MakesStep};
ghost use Rattle.nor_buses.specs.OtherMakers.{adapted_by, rows_of, missing_as, refuses_uneven, history_of};
ghost use Rattle.nor_buses.specs.OtherMakers.{has_word_11, has_small_pages, looks_further};
ghost use Rattle.nor_buses.specs.OtherMakers.{inside_adapted, other_makers_state};
ghost use Rattle.nor_buses.specs.OtherMakers.{ShowsUnique, ShowsTable, ShowsJudged};
ghost use Rattle.nor_buses.specs.Adapted.{has_no_row, is_missing, is_table_read, is_unique_read, is_uneven};
ghost use Rattle.nor_buses.specs.Adapted.{IsIdOf, cleared, is_small_page, shares, shown_table, judged_table};

use crate::chip_ids::ChipIds;
use crate::known_status2::is_id_listed;
use nor_model::opcodes::{READ_ID, READ_SFDP, READ_UNIQUE};
use nor_model::{Bus, History, Stopped};

// The ID (9Fh) that is read if the chip is busy, or if it has no contact and a pull-up holds the line high.
const UNANSWERED: [u8; 3] = [0xFF; 3];

// The number of bytes of the SFDP table that the engine reads from a chip: double words 1 to 9.
const TABLE: usize = 36;

// The number of bytes of double words 1 to 11. Double word 11 contains the size of a page.
const LONGER_TABLE: usize = 44;

// The number of double words that the table must have to contain the size of a page.
const WORDS: u8 = 11;

/// A bus that changes two replies of other makers' chips: the unique ID and the SFDP table. Each other transaction is
/// passed on unchanged. `rows`, `missing` and `refuses` are the arguments of `new`.
///
/// - A unique ID (4Bh with eight reply bytes) that is FFh or 00h in all bytes is no unique ID: the chip ignores 4Bh,
///   and the line keeps the level to which it is pulled (perhaps another level with another clip). Then this bus reads
///   the ID (9Fh) and, unless the ID is FFFFFFh, returns `missing` as each byte. FFFFFFh means that the chip is busy or
///   has no contact.
/// - Before it reads an SFDP table (5Ah with 36 reply bytes), this bus reads the ID. If the ID is FFFFFFh or one of
///   `rows`, the table is returned unchanged. In other tables, opcodes of erase types are returned as 00h in the three
///   cases below, so that the engine doesn't use them.
/// - If several erase types have the same opcode, these opcodes are returned as 00h, because the size of the erase
///   depends on the address: D8h of Microchip SST26VF064B erases 8, 32 or 64 KiB.
/// - If `refuses` is true, all four opcodes are returned as 00h unless bits 1 and 0 of double word 1 are 01b, which
///   means that the erase of 4 KiB is available everywhere (JESD216, double word 1). Spansion S25FL128S, for example,
///   has sectors of 4 KiB only at one end.
/// - If `refuses` is true, all four opcodes are also 00h if a page has fewer than 256 bytes, because up to 256 bytes
///   that the engine programs at once could wrap. Bits 7 to 4 of double word 11 are the binary logarithm of the page
///   size (JESD216A, double word 11). If the header of the table, at address 8, was read before and gives at least 11
///   double words, this bus reads 44 bytes instead of 36.
///
/// This bus is well-behaved if the bus inside is, and if the chip has an ID of `rows` and a unique ID, so that no reply
/// is changed. It is never punctual, because it may send a second transaction.
#[derive(Drop)]
pub struct OtherMakers<B> {
    bus: B,
    // The IDs of the chips that have a row in the table of known chips.
    rows: ChipIds,
    missing: u8,
    refuses_uneven: bool,
    // True if, by the last read of the header of the SFDP table, the table has a double word 11.
    has_word_11: bool,
    has_small_pages: bool,
    history: History,
}

impl<B: Bus + Drop> OtherMakers<B> {
    /// Returns a bus over `bus`. `rows` are the IDs of the chips that have a row in the table of known chips. The
    /// description of this type explains `missing` and `refuses`.
    pub fn new(bus: B, rows: ChipIds, missing: u8, refuses: bool) -> OtherMakers<B>
        ensures bus { adapted_by result ≡ bus }
        ensures rows { rows_of result ≡ rows.items }
        ensures missing { missing_as result ≡ missing }
        ensures uneven { refuses_uneven result ≡ refuses }
        ensures word_11 { has_word_11 result ≡ false }
        ensures pages { has_small_pages result ≡ false }
        ensures history { history_of result ≡ [] }
    {
        OtherMakers {
            bus,
            rows,
            missing,
            refuses_uneven: refuses,
            has_word_11: false,
            has_small_pages: false,
            history: History::new(),
        }
    }

    /// Returns the bus inside, which carries out the transactions of this bus.
    pub fn inner(&self) -> &B
        ensures { result.now ≡ adapted_by self.now }
    {
        &self.bus
    }

    /// Returns whether the last double word 11 that this bus read from an SFDP table gives a page fewer than 256 bytes.
    /// Returns false if this bus read none.
    pub fn has_small_pages(&self) -> bool
        ensures { result ≡ has_small_pages self.now }
    {
        self.has_small_pages
    }
}

impl<B: Bus> OtherMakers<B> {
    fn carry(&mut self, out: &[u8], reply: &mut [u8]) -> Result<(), Stopped>
        ensures history { history_of self.new ≡ history_of self.old }
        ensures rows { rows_of self.new ≡ rows_of self.old }
        ensures missing { missing_as self.new ≡ missing_as self.old }
        ensures uneven { refuses_uneven self.new ≡ refuses_uneven self.old }
        ensures passes { is_unique_read out.now ≡ false → is_table_read out.now reply.old ≡ false
            → Transfers out.now reply.old reply.new result
            (B.state (adapted_by self.old)) (B.state (adapted_by self.new)) }
        ensures unique { is_unique_read out.now ≡ true → OnOk result (ShowsUnique (missing_as self.old)
            out.now reply.new
            (B.state (adapted_by self.old)).history (B.state (adapted_by self.new)).history) }
        ensures table { is_table_read out.now reply.old ≡ true → OnOk result (ShowsTable (rows_of self.old)
            (refuses_uneven self.old) (looks_further self.old) out.now reply.new
            (B.state (adapted_by self.old)).history (B.state (adapted_by self.new)).history) }
        ensures nature { SameNature (B.state (adapted_by self.old)) (B.state (adapted_by self.new)) }
        ensures passed { Passes out.now (B.state (adapted_by self.old)).passed (B.state (adapted_by self.new)).passed }
        ensures steps { IsHonestFor out.now (length reply.old) (inside_adapted B.state self.old) → OnOk result
            (MakesStep out.now reply.new (B.state (adapted_by self.old)) (B.state (adapted_by self.new))) }
        ensures stops { IsHonestFor out.now (length reply.old) (inside_adapted B.state self.old) → OnErr result
            (AtStop out.now (B.state (adapted_by self.old)) (B.state (adapted_by self.new))) }
    {
        if is_table_read(out, reply) {
            return self.read_table(out, reply);
        }
        if is_unique_read(out) {
            return self.read_unique(out, reply);
        }
        self.bus.transfer(out, reply)?;
        self.remember(out, reply);
        Ok(())
    }

    fn read_unique(&mut self, out: &[u8], reply: &mut [u8]) -> Result<(), Stopped>
        requires { is_unique_read out.now ≡ true }
        ensures history { history_of self.new ≡ history_of self.old }
        ensures rows { rows_of self.new ≡ rows_of self.old }
        ensures missing { missing_as self.new ≡ missing_as self.old }
        ensures uneven { refuses_uneven self.new ≡ refuses_uneven self.old }
        ensures shown { OnOk result (ShowsUnique (missing_as self.old) out.now reply.new
            (B.state (adapted_by self.old)).history (B.state (adapted_by self.new)).history) }
        ensures nature { SameNature (B.state (adapted_by self.old)) (B.state (adapted_by self.new)) }
        ensures passed { Passes out.now (B.state (adapted_by self.old)).passed (B.state (adapted_by self.new)).passed }
        ensures steps { IsHonestFor out.now (length reply.old) (inside_adapted B.state self.old) → OnOk result
            (MakesStep out.now reply.new (B.state (adapted_by self.old)) (B.state (adapted_by self.new))) }
        ensures stops { IsHonestFor out.now (length reply.old) (inside_adapted B.state self.old) → OnErr result
            (AtStop out.now (B.state (adapted_by self.old)) (B.state (adapted_by self.new))) }
    {
        self.bus.transfer(out, reply)?;
        if !is_missing(reply) {
            return Ok(());
        }
        if self.read_id()? != UNANSWERED {
            reply.fill(self.missing);
        }
        Ok(())
    }

    fn read_table(&mut self, out: &[u8], reply: &mut [u8]) -> Result<(), Stopped>
        requires { length reply.old ≡ 36 }
        ensures history { history_of self.new ≡ history_of self.old }
        ensures rows { rows_of self.new ≡ rows_of self.old }
        ensures missing { missing_as self.new ≡ missing_as self.old }
        ensures uneven { refuses_uneven self.new ≡ refuses_uneven self.old }
        ensures shown { OnOk result (ShowsTable (rows_of self.old) (refuses_uneven self.old) (looks_further self.old)
            out.now reply.new
            (B.state (adapted_by self.old)).history (B.state (adapted_by self.new)).history) }
        ensures nature { SameNature (B.state (adapted_by self.old)) (B.state (adapted_by self.new)) }
        ensures passed { Passes out.now (B.state (adapted_by self.old)).passed (B.state (adapted_by self.new)).passed }
        ensures steps { IsHonestFor out.now (length reply.old) (inside_adapted B.state self.old) → OnOk result
            (MakesStep out.now reply.new (B.state (adapted_by self.old)) (B.state (adapted_by self.new))) }
        ensures stops { IsHonestFor out.now (length reply.old) (inside_adapted B.state self.old) → OnErr result
            (AtStop out.now (B.state (adapted_by self.old)) (B.state (adapted_by self.new))) }
    {
        let id = self.read_id()?;
        if !has_no_row(self.rows.as_slice(), id) {
            return self.bus.transfer(out, reply);
        }
        if self.refuses_uneven && self.has_word_11 {
            return self.judge(out, reply);
        }
        self.bus.transfer(out, reply)?;
        let is_refused = self.refuses_uneven && is_uneven(reply);
        show_table(is_refused, reply);
        Ok(())
    }

    fn read_id(&mut self) -> Result<[u8; 3], Stopped>
        ensures history { history_of self.new ≡ history_of self.old }
        ensures rows { rows_of self.new ≡ rows_of self.old }
        ensures missing { missing_as self.new ≡ missing_as self.old }
        ensures uneven { refuses_uneven self.new ≡ refuses_uneven self.old }
        ensures word_11 { has_word_11 self.new ≡ has_word_11 self.old }
        ensures read { IfOk result (λ id. (B.state (adapted_by self.new)).history
            ≡ replied (0x9F ∷ []) id ∷ (B.state (adapted_by self.old)).history) }
        ensures id { IfOk result (λ id. IsIdOf id (B.state (adapted_by self.old))) }
        ensures nature { SameNature (B.state (adapted_by self.old)) (B.state (adapted_by self.new)) }
        ensures passed { (B.state (adapted_by self.new)).passed ≡ (B.state (adapted_by self.old)).passed }
        ensures keeps { (B.state (adapted_by self.old)).honest ≡ true
            → OnOk result (KeepsAll (B.state (adapted_by self.old)) (B.state (adapted_by self.new))) }
        ensures stops { (B.state (adapted_by self.old)).honest ≡ true
            → OnErr result (StopsUnread (B.state (adapted_by self.old)) (B.state (adapted_by self.new))) }
    {
        let mut id = [0; 3];
        self.bus.transfer(&[READ_ID], &mut id)?;
        Ok(id)
    }

    // If `out` reads the header of the SFDP table, records whether the table has a double word 11.
    fn remember(&mut self, out: &[u8], reply: &[u8])
        ensures bus { adapted_by self.new ≡ adapted_by self.old }
        ensures history { history_of self.new ≡ history_of self.old }
        ensures rows { rows_of self.new ≡ rows_of self.old }
        ensures missing { missing_as self.new ≡ missing_as self.old }
        ensures uneven { refuses_uneven self.new ≡ refuses_uneven self.old }
    {
        if let [READ_SFDP, 0, 0, 8, _] = out {
            self.has_word_11 = has_word_11_in(reply);
        }
    }

    // Reads 44 bytes of an SFDP table, records whether its pages are small, and fills the 36 bytes of `reply`.
    fn judge(&mut self, out: &[u8], reply: &mut [u8]) -> Result<(), Stopped>
        requires { length reply.old ≡ 36 }
        ensures history { history_of self.new ≡ history_of self.old }
        ensures rows { rows_of self.new ≡ rows_of self.old }
        ensures missing { missing_as self.new ≡ missing_as self.old }
        ensures uneven { refuses_uneven self.new ≡ refuses_uneven self.old }
        ensures nature { SameNature (B.state (adapted_by self.old)) (B.state (adapted_by self.new)) }
        ensures passed { Passes out.now (B.state (adapted_by self.old)).passed (B.state (adapted_by self.new)).passed }
        ensures shown { OnOk result (ShowsJudged out.now reply.new
            (B.state (adapted_by self.old)).history (B.state (adapted_by self.new)).history) }
    {
        let mut longer = [0; LONGER_TABLE];
        self.bus.transfer(out, &mut longer)?;
        self.has_small_pages = is_small_page(&longer);
        show_judged(&longer, reply);
        Ok(())
    }
}

impl<B: Bus> Bus for OtherMakers<B> {
    ghost state = { other_makers_state B.state };

    ghost reaches = { λ other honest. B.reaches other.bus (and_parts _ _ honest).0 };

    fn transfer(&mut self, out: &[u8], reply: &mut [u8]) -> Result<(), Stopped>
        ensures law { Transfers out.now reply.old reply.new result
            (other_makers_state B.state self.old) (other_makers_state B.state self.new) }
        ensures rows { rows_of self.new ≡ rows_of self.old }
        ensures missing { missing_as self.new ≡ missing_as self.old }
        ensures uneven { refuses_uneven self.new ≡ refuses_uneven self.old }
        ensures passes { is_unique_read out.now ≡ false → is_table_read out.now reply.old ≡ false
            → Transfers out.now reply.old reply.new result
            (B.state (adapted_by self.old)) (B.state (adapted_by self.new)) }
        ensures unique { is_unique_read out.now ≡ true → OnOk result (ShowsUnique (missing_as self.old)
            out.now reply.new
            (B.state (adapted_by self.old)).history (B.state (adapted_by self.new)).history) }
        ensures table { is_table_read out.now reply.old ≡ true → OnOk result (ShowsTable (rows_of self.old)
            (refuses_uneven self.old) (looks_further self.old) out.now reply.new
            (B.state (adapted_by self.old)).history (B.state (adapted_by self.new)).history) }
    {
        match self.carry(out, reply) {
            Ok(()) => {
                self.history = self.history.replied(out, reply);
                Ok(())
            }
            Err(Stopped) => {
                self.history = self.history.stopped(out);
                Err(Stopped)
            }
        }
    }

    fn has_further_types(&self) -> bool {
        self.bus.has_further_types()
    }
}

// Returns whether `id` is neither FFFFFFh nor one of `rows`.
fn has_no_row(rows: &[[u8; 3]], id: [u8; 3]) -> bool
    ensures { result ≡ has_no_row rows.now id }
{
    id != UNANSWERED && !is_id_listed(rows, id)
}

fn show_judged(longer: &[u8; LONGER_TABLE], reply: &mut [u8])
    requires { length reply.old ≡ 36 }
    ensures shown { reply.new ≡ judged_table longer.now }
    ensures len { length reply.new ≡ 36 }
{
    reply.copy_from_slice(&longer[..TABLE]);
    show_table(is_uneven(longer) || is_small_page(longer), reply);
}

// Clears the opcodes of erase types: all four if `all` is true, and otherwise those that several erase types have.
fn show_table(all: bool, table: &mut [u8])
    requires { length table.old ≡ 36 }
    ensures shown { table.new ≡ shown_table all table.old }
    ensures len { length table.new ≡ 36 }
{
    let (one, two, three, four) = (table[29], table[31], table[33], table[35]);
    clear_if(all || shares(one, two, three, four), table, 29);
    clear_if(all || shares(two, one, three, four), table, 31);
    clear_if(all || shares(three, one, two, four), table, 33);
    clear_if(all || shares(four, one, two, three), table, 35);
}

fn shares(opcode: u8, one: u8, two: u8, three: u8) -> bool
    ensures { result ≡ shares opcode one two three }
{
    opcode == one || opcode == two || opcode == three
}

fn clear_if(is: bool, table: &mut [u8], at: usize)
    requires { at < length table.old }
    ensures cleared { table.new ≡ cleared is at table.old }
    ensures len { length table.new ≡ length table.old }
{
    if is {
        table[at] = 0;
    }
}

fn is_table_read(out: &[u8], reply: &[u8]) -> bool
    ensures is { result ≡ is_table_read out.now reply.now }
    ensures len { result ≡ true → length reply.now ≡ 36 }
{
    matches!(out, [READ_SFDP, ..]) && reply.len() == TABLE
}

fn is_unique_read(out: &[u8]) -> bool
    ensures { result ≡ is_unique_read out.now }
{
    matches!(out, [READ_UNIQUE, _, _, _, _])
}

fn is_missing(reply: &[u8]) -> bool
    ensures { result ≡ is_missing reply.now }
{
    if reply.len() != 8 {
        return false;
    }
    let mut unique = [0; 8];
    unique.copy_from_slice(reply);
    unique == [0xFF; 8] || unique == [0; 8]
}

// Returns whether `header` is that of a basic table of major revision 1 with at least 11 double words (JESD216A).
fn has_word_11_in(header: &[u8]) -> bool {
    matches!(header, [0, _, 1, words, _, _, _, _] if *words >= WORDS)
}

fn is_small_page(table: &[u8; LONGER_TABLE]) -> bool
    ensures { result ≡ is_small_page table.now }
{
    table[40] / 16 < 8
}

fn is_uneven(table: &[u8]) -> bool
    requires { 0 < length table.now }
    ensures { result ≡ is_uneven table.now }
{
    table[0] % 4 != 1
}

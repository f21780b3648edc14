//! A bus that reads the unique ID again before the first modifying command.
ghost use Rattle.std.specs.Prelude.{◌≡◌, ◌⊎◌, ◌∷◌, [], true, false, None, Some, length, OnOk, OnErr, IfSome};
ghost use Rattle.nor_model.specs.Bus.{IsHonestFor, SameNature, AtStop, Transfers};
ghost use Rattle.nor_model.specs.Command.{begins_change};
ghost use Rattle.nor_model.specs.History.{exchange_of, EndsStopped};
ghost use Rattle.nor_model.specs.Passed.{Passes};
ghost use Rattle.nor_buses.specs.Keeps.{KeepsAll, StopsUnread, MakesStep};
ghost use Rattle.nor_buses.specs.SameChip.{checked_by, unique_in, has_passed_change, other_of, history_of, same_chip_state};
ghost use Rattle.nor_buses.specs.SameChip.{unique_after, IsChecked, FindsOther, SendsChecked};

use nor_model::{Bus, History, Stopped, is_changing};

const READ_UNIQUE: [u8; 5] = [0x4B, 0, 0, 0, 0];

/// The unique ID that was read last (`before`), and the different unique ID that a `SameChip` then read (`found`).
#[derive(Clone, Copy, Debug, PartialEq, Eq)]
pub struct OtherChip {
    pub before: [u8; 8],
    pub found: [u8; 8],
}

/// A bus that checks, before the first modifying command, that the chip is still the one that was read. If a board is
/// exchanged after its chip was read, the other board's chip may have the same ID (9Fh). Without this check, a session
/// would change the other chip, but its journal would be that of the first chip.
///
/// The bus remembers the reply to the last read of the unique ID (4Bh with eight reply bytes), and reads the unique ID
/// again before the first modifying command. The chip must be ready then, because a busy chip ignores 4Bh. If the reply
/// differs, this and each later modifying command is refused (`Stopped`). Without an earlier reply nothing is read.
///
/// Two chips without unique ID that both return only FFh, or only 00h, can't be distinguished. A wrong bit looks like
/// another chip, so put this bus around a bus that reads the unique ID twice (`ReadTwice`).
///
/// This bus is well-behaved if and only if the bus inside is. It is never punctual.
#[derive(Drop)]
pub struct SameChip<B> {
    bus: B,
    unique: Option<[u8; 8]>,
    has_begun: bool,
    other: Option<OtherChip>,
    history: History,
}

impl<B: Bus + Drop> SameChip<B> {
    /// Returns a bus over `bus` that has read no unique ID yet.
    pub fn new(bus: B) -> SameChip<B>
        ensures bus { checked_by result ≡ bus }
        ensures unique { unique_in result ≡ None }
        ensures begun { has_passed_change result ≡ false }
        ensures other { other_of result ≡ None }
        ensures history { history_of result ≡ [] }
    {
        SameChip {
            bus,
            unique: None,
            has_begun: false,
            other: None,
            history: History::new(),
        }
    }

    /// Returns the bus inside, which carries out the transactions of this bus.
    pub fn inner(&self) -> &B
        ensures { result.now ≡ checked_by self.now }
    {
        &self.bus
    }

    /// Returns both unique IDs if this bus found another chip before the first modifying command, and otherwise `None`.
    pub fn other(&self) -> Option<OtherChip>
        ensures { result ≡ other_of self.now }
    {
        self.other
    }
}

impl<B: Bus> SameChip<B> {
    fn check(&mut self) -> Result<(), Stopped>
        ensures history { history_of self.new ≡ history_of self.old }
        ensures unique { unique_in self.new ≡ unique_in self.old }
        ensures sent { (B.state (checked_by self.new)).sent ≡ (B.state (checked_by self.old)).sent }
        ensures begun { OnOk result (has_passed_change self.new ≡ true) }
        ensures not_begun { OnErr result (has_passed_change self.new ≡ has_passed_change self.old) }
        ensures causes { OnErr result (other_of self.new ≡ None
            → EndsStopped (B.state (checked_by self.new)).history) }
        ensures same { OnOk result ((other_of self.old ≡ None) × (other_of self.new ≡ None)) }
        ensures checked { OnOk result (IsChecked (has_passed_change self.old) (unique_in self.old)
            (B.state (checked_by self.old)).history (B.state (checked_by self.new)).history) }
        ensures refuses { (other : OtherChip) → other_of self.old ≡ Some other
            → (self.new ≡ self.old) × OnOk result ⊥ }
        ensures finds { (other : OtherChip) → other_of self.old ≡ None → other_of self.new ≡ Some other
            → FindsOther (unique_in self.old) other
            (B.state (checked_by self.old)).history (B.state (checked_by self.new)).history }
        ensures nature { SameNature (B.state (checked_by self.old)) (B.state (checked_by self.new)) }
        ensures passed { (B.state (checked_by self.new)).passed ≡ (B.state (checked_by self.old)).passed }
        ensures keeps { (B.state (checked_by self.old)).honest ≡ true
            → OnOk result (KeepsAll (B.state (checked_by self.old)) (B.state (checked_by self.new))) }
        ensures stops { (B.state (checked_by self.old)).honest ≡ true
            → OnErr result (StopsUnread (B.state (checked_by self.old)) (B.state (checked_by self.new))) }
    {
        if self.other.is_some() {
            return Err(Stopped);
        }
        if self.has_begun {
            return Ok(());
        }
        if let Some(before) = self.unique {
            let mut found = [0; 8];
            self.bus.transfer(&READ_UNIQUE, &mut found)?;
            if found != before {
                self.other = Some(OtherChip { before, found });
                return Err(Stopped);
            }
        }
        self.has_begun = true;
        Ok(())
    }

    fn carry(&mut self, out: &[u8], reply: &mut [u8]) -> Result<(), Stopped>
        ensures history { history_of self.new ≡ history_of self.old }
        ensures unique { OnOk result (unique_in self.new ≡ unique_after out.now reply.new (unique_in self.old)) }
        ensures kept { OnErr result (unique_in self.new ≡ unique_in self.old) }
        ensures passes { begins_change out.now ≡ false → (B.state (checked_by self.new)).history
            ≡ exchange_of out.now reply.new result ∷ (B.state (checked_by self.old)).history }
        ensures sends { begins_change out.now ≡ true
            → ((B.state (checked_by self.new)).sent ≡ (B.state (checked_by self.old)).sent)
            × (has_passed_change self.new ≡ has_passed_change self.old)
            ⊎ SendsChecked (has_passed_change self.old) (unique_in self.old) (exchange_of out.now reply.new result)
            (B.state (checked_by self.old)).history (B.state (checked_by self.new)).history }
        ensures begun { begins_change out.now ≡ true → OnOk result (has_passed_change self.new ≡ true) }
        ensures not_begun { begins_change out.now ≡ false → has_passed_change self.new ≡ has_passed_change self.old }
        ensures causes { OnErr result (other_of self.new ≡ None
            → EndsStopped (B.state (checked_by self.new)).history) }
        ensures refuses { (other : OtherChip) → other_of self.old ≡ Some other → begins_change out.now ≡ true
            → (self.new ≡ self.old) × OnOk result ⊥ }
        ensures stays { (other : OtherChip) → other_of self.old ≡ Some other → other_of self.new ≡ Some other }
        ensures finds { (other : OtherChip) → other_of self.old ≡ None → other_of self.new ≡ Some other
            → FindsOther (unique_in self.old) other
            (B.state (checked_by self.old)).history (B.state (checked_by self.new)).history }
        ensures nature { SameNature (B.state (checked_by self.old)) (B.state (checked_by self.new)) }
        ensures passed { Passes out.now (B.state (checked_by self.old)).passed (B.state (checked_by self.new)).passed }
        ensures steps { IsHonestFor out.now (length reply.old) (B.state (checked_by self.old)) → OnOk result
            (MakesStep out.now reply.new (B.state (checked_by self.old)) (B.state (checked_by self.new))) }
        ensures stops { IsHonestFor out.now (length reply.old) (B.state (checked_by self.old))
            → OnErr result (AtStop out.now (B.state (checked_by self.old)) (B.state (checked_by self.new))) }
    {
        if is_changing(out) {
            self.check()?;
        }
        self.bus.transfer(out, reply)?;
        self.unique = unique_after(out, reply, self.unique);
        Ok(())
    }
}

impl<B: Bus> Bus for SameChip<B> {
    ghost state = { same_chip_state B.state };

    ghost reaches = { λ same honest. B.reaches same.bus honest };

    fn transfer(&mut self, out: &[u8], reply: &mut [u8]) -> Result<(), Stopped>
        ensures law { Transfers out.now reply.old reply.new result
            (same_chip_state B.state self.old) (same_chip_state B.state self.new) }
        ensures unique { OnOk result (unique_in self.new ≡ unique_after out.now reply.new (unique_in self.old)) }
        ensures kept { OnErr result (unique_in self.new ≡ unique_in self.old) }
        ensures passes { begins_change out.now ≡ false → (B.state (checked_by self.new)).history
            ≡ exchange_of out.now reply.new result ∷ (B.state (checked_by self.old)).history }
        ensures sends { begins_change out.now ≡ true
            → ((B.state (checked_by self.new)).sent ≡ (B.state (checked_by self.old)).sent)
            × (has_passed_change self.new ≡ has_passed_change self.old)
            ⊎ SendsChecked (has_passed_change self.old) (unique_in self.old) (exchange_of out.now reply.new result)
            (B.state (checked_by self.old)).history (B.state (checked_by self.new)).history }
        ensures begun { begins_change out.now ≡ true → OnOk result (has_passed_change self.new ≡ true) }
        ensures not_begun { begins_change out.now ≡ false → has_passed_change self.new ≡ has_passed_change self.old }
        ensures causes { OnErr result (other_of self.new ≡ None
            → EndsStopped (B.state (checked_by self.new)).history) }
        ensures refuses { (other : OtherChip) → other_of self.old ≡ Some other → begins_change out.now ≡ true
            → (checked_by self.new ≡ checked_by self.old) × OnOk result ⊥ }
        ensures stays { (other : OtherChip) → other_of self.old ≡ Some other → other_of self.new ≡ Some other }
        ensures finds { (other : OtherChip) → other_of self.old ≡ None → other_of self.new ≡ Some other
            → FindsOther (unique_in self.old) other
            (B.state (checked_by self.old)).history (B.state (checked_by self.new)).history }
    {
        match self.carry(out, reply) {
            Ok(()) => {
                self.history = self.history.replied(out, reply);
                Ok(())
            }
            Err(Stopped) => {
                self.history = self.history.stopped(out);
                Err(Stopped)
            }
        }
    }

    fn has_further_types(&self) -> bool {
        self.bus.has_further_types()
    }
}

fn unique_after(out: &[u8], reply: &[u8], known: Option<[u8; 8]>) -> Option<[u8; 8]>
    ensures { result ≡ unique_after out.now reply.now known }
{
    if !matches!(out, [0x4B, _, _, _, _]) || reply.len() != 8 {
        return known;
    }
    let mut unique = [0; 8];
    unique.copy_from_slice(reply);
    Some(unique)
}

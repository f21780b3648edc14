//! A bus that checks IDs, status registers and status writes, and detects a chip that lost contact or power.
ghost use Rattle.std.specs.Prelude.{◌≡◌, ◌⊎◌, ◌%◌, ◌||◌, ◌∷◌, [], true, false, length, ℕ, List, None, Some, OnOk, OnErr, IfOk};
ghost use Rattle.std.specs.Option.{ForSome};
ghost use Rattle.nor_model.specs.Bus.{IsHonestFor, SameNature, AtStop, Transfers};
ghost use Rattle.nor_model.specs.Command.{begins_change};
ghost use Rattle.nor_model.specs.History.{replied};
ghost use Rattle.nor_model.specs.Passed.{Passes};
ghost use Rattle.nor_model.specs.Sent.{with_sent};
ghost use Rattle.nor_buses.specs.Keeps.{KeepsAll, StopsUnread, MakesStep};
ghost use Rattle.nor_buses.specs.KnownStatus.{BelievesStatus, IsWritten, KeepsTask, PollAgrees, SendsKept};
ghost use Rattle.nor_buses.specs.StatusRead.{HasStored, IsConfirmed, IsReadTwice, IsStatusAllowed, KeepsId};
ghost use Rattle.nor_buses.specs.StatusRead.{begins_confirmed, ends_in_poll, is_checked_read};
ghost use Rattle.nor_buses.specs.StatusRead.{read_id_while_busy, second, was_read_twice};

mod passing;
mod reads;

use crate::counts::{ByteCounts, ChangedByte};
use crate::known::{CheckFault, Known, are_same, kept_status};
use nor_model::bits::BUSY;
use nor_model::opcodes::{READ_STATUS1, READ_STATUS2, WRITE_STATUS};
use nor_model::{Bus, History, Status, Stopped, is_changing};

/// A bus that detects a chip without contact or power, checks reads of status registers, and reads status writes back.
/// It refuses status writes that would change any bit except the protection bits (for a bus made with `locking`, any
/// bit except SRP0).
///
/// - If contact or power fails, each reply byte is FFh or 00h, however often it is read. Therefore the ID is read (9Fh
///   with three reply bytes) after each successful read of data (03h), SFDP (5Ah) or the unique ID (4Bh), and after
///   reads of status registers as described below. Each ID that is read in this way, even by the caller, must equal the
///   first ID; otherwise the call returns `Stopped`.
/// - A poll (05h with one reply byte) is carried out with two reply bytes, since a chip repeats its status (W25Q64FV
///   datasheet, Read Status Register). If one byte shows BUSY, that byte is returned; otherwise both must be equal.
///   Before the first modifying command, and until a status write is read back, a poll that shows a ready chip is made
///   twice. Both polls must have the same reply, and the ID is read after each. Any other poll is made only once. After
///   a modifying command, bytes or polls that differ count as BUSY, since the operation may just have ended.
/// - Status 2 (35h with one reply byte) is read twice, and the ID is read after each read. Both replies must be equal.
/// - A status write (01h) is passed on only if it has two data bytes with BUSY, WEL and SUS clear, and if both status
///   registers were read twice in this way before. The bits that it must not change must be as they were read.
/// - After a status write, the first poll that shows that the chip is ready also reads status 2 (35h), twice. If a
///   non-volatile bit differs from the bit that was sent, the poll returns `Stopped`.
/// - If the serial port seems to change bytes (`changed_byte`), a bus made with `guarding` refuses the first modifying
///   command, because a journal of such data would be wrong.
///
/// On any bus, if a transaction that may modify the chip returns `Ok`, it was passed on unchanged, exactly once. The
/// same holds for any other transaction, except the reads described above.
///
/// A busy chip ignores 9Fh (W25Q64FV datasheet, Instructions), so it would count as lost. Therefore no ID is read just
/// after a poll that shows BUSY. The caller may read IDs, data, SFDP, unique IDs and status 2 only from a ready chip.
///
/// This bus is never punctual, because it may make several transactions over the bus inside for one transaction. It is
/// proved to be well-behaved if the bus inside is, and steady if the bus inside is steady. If a transaction fails,
/// `reply` may contain bytes that were read. The history lists refused transactions, too, so these count as sent.
#[derive(Drop)]
pub struct CheckedStatus<B: Bus + Drop> {
    bus: B,
    known: Known,
    fault: Option<CheckFault>,
    history: History,
    counts: ByteCounts,
    // True if this bus refuses the first modifying command when the port seems to change bytes (`changed_byte`).
    guards: bool,
    ghost one_read: { ForSome known.one (λ byte. was_read_twice 0x05 byte (B.state bus).history ≡ true) },
    ghost two_read: { ForSome known.two (λ byte. was_read_twice 0x35 byte (B.state bus).history ≡ true) },
}

impl<B: Bus + Drop> CheckedStatus<B> {
    ghost use Rattle.nor_buses.specs.Checked.{bus_of, check_fault_of, history_of, has_begun, locks_of, written_of};

    /// Returns a bus over `bus` that sends modifying commands even if the port seems to change bytes. This suits a
    /// restore, which writes what its journal saved, not data that was read.
    pub fn new(bus: B) -> CheckedStatus<B>
        ensures bus { bus_of result ≡ bus }
        ensures begun { has_begun result ≡ false }
        ensures written { written_of result ≡ None }
        ensures history { history_of result ≡ [] }
        ensures locks { locks_of result ≡ false }
    {
        CheckedStatus::with(bus, false, false)
    }

    /// Returns a bus over `bus` that refuses the first modifying command if the port seems to change bytes
    /// (`changed_byte`).
    pub fn guarding(bus: B) -> CheckedStatus<B>
        ensures bus { bus_of result ≡ bus }
        ensures begun { has_begun result ≡ false }
        ensures written { written_of result ≡ None }
        ensures history { history_of result ≡ [] }
        ensures locks { locks_of result ≡ false }
    {
        CheckedStatus::with(bus, true, false)
    }

    /// Returns a bus over `bus` that lets a status write change only SRP0.
    pub fn locking(bus: B) -> CheckedStatus<B>
        ensures bus { bus_of result ≡ bus }
        ensures begun { has_begun result ≡ false }
        ensures written { written_of result ≡ None }
        ensures history { history_of result ≡ [] }
        ensures locks { locks_of result ≡ true }
    {
        CheckedStatus::with(bus, false, true)
    }

    fn with(bus: B, guards: bool, locks: bool) -> CheckedStatus<B>
        ensures bus { bus_of result ≡ bus }
        ensures begun { has_begun result ≡ false }
        ensures written { written_of result ≡ None }
        ensures history { history_of result ≡ [] }
        ensures locks { locks_of result ≡ locks }
    {
        CheckedStatus {
            bus,
            known: Known {
                one: None,
                two: None,
                is_changing: false,
                written: None,
                id: None,
                locks,
            },
            fault: None,
            history: History::new(),
            counts: ByteCounts::new(),
            guards,
        }
    }

    /// Returns the bus inside, which carries out the transactions of this bus.
    pub fn inner(&self) -> &B
        ensures { result.now ≡ bus_of self.now }
    {
        &self.bus
    }

    /// Returns the reason for the last stop that the bus inside did not cause, or `None` if there was none.
    pub fn fault(&self) -> Option<CheckFault>
        ensures { result ≡ check_fault_of self.now }
    {
        self.fault
    }

    /// Returns the value (0Dh or 0Ah) that the port seems to change into the other, or `None`. In the data that was
    /// read, this value does not occur, the other occurs at least 64 times, and at least 192 of the 256 values occur.
    pub fn changed_byte(&self) -> Option<ChangedByte> {
        self.counts.changed_byte()
    }

    /// Returns whether a modifying command was ever passed on, even if the bus inside stopped at this command.
    pub fn has_begun(&self) -> bool
        ensures { result ≡ has_begun self.now }
    {
        self.known.is_changing
    }
}

impl<B: Bus + Drop> CheckedStatus<B> {
    ghost use Rattle.nor_buses.specs.Checked.{check_fault_of, has_begun, history_of, inner_state, known_of, locks_of};
    ghost use Rattle.nor_buses.specs.Checked.{written_of};

    #[tactic(auto, using(crate::proofs::StatusRead::second_read))]
    fn read_second(&mut self) -> Result<u8, Stopped>
        ensures history { history_of self.new ≡ history_of self.old }
        ensures known { KeepsTask (known_of self.old) (known_of self.new) }
        ensures id { KeepsId (known_of self.old).id (known_of self.new).id }
        ensures sent { (inner_state self.new).sent ≡ (inner_state self.old).sent }
        ensures passed { (inner_state self.new).passed ≡ (inner_state self.old).passed }
        ensures twice { IfOk result (λ status. IsReadTwice (second status) (known_of self.new).id
            (inner_state self.old).history (inner_state self.new).history) }
        ensures idle { read_id_while_busy (inner_state self.new).history ≡ false }
        ensures last { ends_in_poll (inner_state self.new).history ≡ false }
        ensures nature { SameNature (inner_state self.old) (inner_state self.new) }
        ensures steps { (inner_state self.old).honest ≡ true
            → IfOk result (λ reply. MakesStep (0x35 ∷ []) (reply ∷ []) (inner_state self.old) (inner_state self.new)) }
        ensures stops { (inner_state self.old).honest ≡ true
            → OnErr result (StopsUnread (inner_state self.old) (inner_state self.new)) }
    {
        let status = self.second_twice()?;
        self.known.two = Some(status);
        Ok(status)
    }

    #[tactic(auto, using(crate::proofs::StatusRead::pair_read, crate::proofs::StatusRead::still_known))]
    fn poll(&mut self) -> Result<u8, Stopped>
        ensures history { history_of self.new ≡ history_of self.old }
        ensures locks { locks_of self.new ≡ locks_of self.old }
        ensures begun { has_begun self.new ≡ has_begun self.old }
        ensures id { KeepsId (known_of self.old).id (known_of self.new).id }
        ensures sent { (inner_state self.new).sent ≡ (inner_state self.old).sent }
        ensures passed { (inner_state self.new).passed ≡ (inner_state self.old).passed }
        ensures agrees { IfOk result (λ status. status % 2 ≡ 0 → PollAgrees (known_of self.old) (known_of self.new)
            status (inner_state self.old).history (inner_state self.new).history) }
        ensures waits { IfOk result (λ status. status % 2 ≡ 1 → written_of self.new ≡ written_of self.old) }
        ensures idle { read_id_while_busy (inner_state self.new).history ≡ false }
        ensures differs { OnErr result (ends_in_poll (inner_state self.new).history ≡ true
            → check_fault_of self.new ≡ Some CheckFault.Differs) }
        ensures nature { SameNature (inner_state self.old) (inner_state self.new) }
        ensures steps { (inner_state self.old).honest ≡ true
            → IfOk result (λ reply. MakesStep (0x05 ∷ []) (reply ∷ []) (inner_state self.old) (inner_state self.new)) }
        ensures stops { (inner_state self.old).honest ≡ true
            → OnErr result (AtStop (0x05 ∷ []) (inner_state self.old) (inner_state self.new)) }
    {
        if self.known.is_changing && self.known.written.is_none() {
            return self.poll_once();
        }
        let status = self.poll_twice()?;
        if status & BUSY != 0 {
            return Ok(status);
        }
        self.known.one = Some(status);
        self.read_back(status)?;
        Ok(status)
    }

    fn read_back(&mut self, one: u8) -> Result<(), Stopped>
        ensures history { history_of self.new ≡ history_of self.old }
        ensures locks { locks_of self.new ≡ locks_of self.old }
        ensures begun { has_begun self.new ≡ has_begun self.old }
        ensures id { KeepsId (known_of self.old).id (known_of self.new).id }
        ensures sent { (inner_state self.new).sent ≡ (inner_state self.old).sent }
        ensures passed { (inner_state self.new).passed ≡ (inner_state self.old).passed }
        ensures none { written_of self.old ≡ None → OnOk result (self.new ≡ self.old) }
        ensures stored { (sent : List ℕ) → written_of self.old ≡ Some sent → OnOk result
            (HasStored sent one (known_of self.new).id (inner_state self.old).history (inner_state self.new).history) }
        ensures idle { read_id_while_busy (inner_state self.old).history ≡ false
            → read_id_while_busy (inner_state self.new).history ≡ false }
        ensures last { OnErr result (ends_in_poll (inner_state self.new).history ≡ false) }
        ensures nature { SameNature (inner_state self.old) (inner_state self.new) }
        ensures keeps { (inner_state self.old).honest ≡ true
            → OnOk result (KeepsAll (inner_state self.old) (inner_state self.new)) }
        ensures stops { (inner_state self.old).honest ≡ true
            → OnErr result (StopsUnread (inner_state self.old) (inner_state self.new)) }
    {
        let Some(sent) = self.known.written else {
            return Ok(());
        };
        let two = self.read_second()?;
        let found = [one, two];
        if !are_same(Status::of(found).kept(), Status::of(sent).kept()) {
            return Err(self.stop(CheckFault::NotStored { sent, found }));
        }
        self.known.written = None;
        Ok(())
    }

    fn write(&mut self, out: &[u8], reply: &mut [u8]) -> Result<(), Stopped>
        ensures history { history_of self.new ≡ history_of self.old }
        ensures locks { locks_of self.new ≡ locks_of self.old }
        ensures kept { (inner_state self.new ≡ inner_state self.old)
            ⊎ IsStatusAllowed (locks_of self.old) out.now (inner_state self.old).history }
        ensures sent { ((inner_state self.new).sent ≡ (inner_state self.old).sent)
            ⊎ ((inner_state self.new).sent ≡ with_sent out.now (inner_state self.old).sent) }
        ensures delivers { OnOk result ((inner_state self.new).sent ≡ with_sent out.now (inner_state self.old).sent) }
        ensures passed { Passes out.now (inner_state self.old).passed (inner_state self.new).passed }
        ensures begun { OnOk result (has_begun self.new ≡ true) }
        ensures id { KeepsId (known_of self.old).id (known_of self.new).id }
        ensures written { OnOk result (IsWritten out.now (written_of self.new)) }
        ensures carried { OnOk result ((inner_state self.new).history
            ≡ replied out.now reply.new ∷ (inner_state self.old).history) }
        ensures nature { SameNature (inner_state self.old) (inner_state self.new) }
        ensures steps { IsHonestFor out.now (length reply.old) (inner_state self.old)
            → OnOk result (MakesStep out.now reply.new (inner_state self.old) (inner_state self.new)) }
        ensures stops { IsHonestFor out.now (length reply.old) (inner_state self.old)
            → OnErr result (AtStop out.now (inner_state self.old) (inner_state self.new)) }
    {
        let Some(sent) = kept_status(&self.known, out) else {
            return Err(self.stop(CheckFault::Refused));
        };
        self.known.is_changing = true;
        self.known.written = Some(sent);
        self.pass(out, reply)
    }
}

impl<B: Bus + Drop> CheckedStatus<B> {
    ghost use Rattle.nor_buses.specs.Checked.{check_fault_of, history_of, inner_state, known_of, locks_of};

    fn carry(&mut self, out: &[u8], reply: &mut [u8]) -> Result<(), Stopped>
        ensures history { history_of self.new ≡ history_of self.old }
        ensures locks { locks_of self.new ≡ locks_of self.old }
        ensures sends { SendsKept (locks_of self.old) out.now (inner_state self.old) (inner_state self.new) }
        ensures delivers { OnOk result ((inner_state self.new).sent ≡ with_sent out.now (inner_state self.old).sent) }
        ensures passes { begins_confirmed out.now ≡ false → is_checked_read out.now (length reply.new) ≡ false → OnOk
            result ((inner_state self.new).history ≡ replied out.now reply.new ∷ (inner_state self.old).history) }
        ensures passed { Passes out.now (inner_state self.old).passed (inner_state self.new).passed }
        ensures believes { OnOk result (BelievesStatus out.now reply.new (known_of self.old) (known_of self.new)
            (inner_state self.old).history (inner_state self.new).history) }
        ensures id { KeepsId (known_of self.old).id (known_of self.new).id }
        ensures identified { out.now ≡ 0x9F ∷ [] → length reply.new ≡ 3
            → OnOk result ((known_of self.new).id ≡ Some reply.new) }
        ensures read { begins_confirmed out.now ≡ true → OnOk result (IsConfirmed (replied out.now reply.new)
            (known_of self.new).id (inner_state self.old).history (inner_state self.new).history) }
        ensures idle { out.now ≡ 0x05 ∷ [] → length reply.new ≡ 1
            → read_id_while_busy (inner_state self.new).history ≡ false }
        ensures differs { out.now ≡ 0x05 ∷ [] → length reply.new ≡ 1
            → OnErr result (ends_in_poll (inner_state self.new).history ≡ true
            → check_fault_of self.new ≡ Some CheckFault.Differs) }
        ensures nature { SameNature (inner_state self.old) (inner_state self.new) }
        ensures steps { IsHonestFor out.now (length reply.old) (inner_state self.old)
            → OnOk result (MakesStep out.now reply.new (inner_state self.old) (inner_state self.new)) }
        ensures stops { IsHonestFor out.now (length reply.old) (inner_state self.old)
            → OnErr result (AtStop out.now (inner_state self.old) (inner_state self.new)) }
    {
        match (out, reply.len()) {
            ([READ_STATUS1], 1) => {
                reply[0] = self.poll()?;
                Ok(())
            }
            ([READ_STATUS2], 1) => {
                reply[0] = self.read_second()?;
                Ok(())
            }
            ([WRITE_STATUS, ..], _) => self.write(out, reply),
            _ => self.pass_on(out, reply),
        }
    }

    fn refusal(&self, out: &[u8]) -> Option<CheckFault>
        ensures { begins_change out.now ≡ false → result ≡ None }
    {
        if !self.guards || self.known.is_changing || !is_changing(out) {
            return None;
        }
        self.changed_byte()
            .map(|changed| CheckFault::ChangedByte(changed))
    }
}

impl<B: Bus + Drop> Bus for CheckedStatus<B> {
    ghost use Rattle.nor_buses.specs.Checked.{check_fault_of, checked_state, inner_state, known_of, locks_of};

    ghost state = { checked_state };

    ghost reaches = { λ checked honest. B.reaches checked.bus honest };

    fn transfer(&mut self, out: &[u8], reply: &mut [u8]) -> Result<(), Stopped>
        ensures law { Transfers out.now reply.old reply.new result (checked_state self.old) (checked_state self.new) }
        ensures locks { locks_of self.new ≡ locks_of self.old }
        ensures sends { SendsKept (locks_of self.old) out.now (inner_state self.old) (inner_state self.new) }
        ensures delivers { OnOk result ((inner_state self.new).sent ≡ with_sent out.now (inner_state self.old).sent) }
        ensures passes { begins_confirmed out.now ≡ false → is_checked_read out.now (length reply.new) ≡ false → OnOk
            result ((inner_state self.new).history ≡ replied out.now reply.new ∷ (inner_state self.old).history) }
        ensures believes { OnOk result (BelievesStatus out.now reply.new (known_of self.old) (known_of self.new)
            (inner_state self.old).history (inner_state self.new).history) }
        ensures id { KeepsId (known_of self.old).id (known_of self.new).id }
        ensures identified { out.now ≡ 0x9F ∷ [] → length reply.new ≡ 3
            → OnOk result ((known_of self.new).id ≡ Some reply.new) }
        ensures read { begins_confirmed out.now ≡ true → OnOk result (IsConfirmed (replied out.now reply.new)
            (known_of self.new).id (inner_state self.old).history (inner_state self.new).history) }
        ensures idle { out.now ≡ 0x05 ∷ [] → length reply.new ≡ 1
            → read_id_while_busy (inner_state self.new).history ≡ false }
        ensures differs { out.now ≡ 0x05 ∷ [] → length reply.new ≡ 1
            → OnErr result (ends_in_poll (inner_state self.new).history ≡ true
            → check_fault_of self.new ≡ Some CheckFault.Differs) }
    {
        let carried = match self.refusal(out) {
            Some(fault) => Err(self.stop(fault)),
            None => self.carry(out, reply),
        };
        match carried {
            Ok(()) => {
                self.history = self.history.replied(out, reply);
                Ok(())
            }
            Err(Stopped) => {
                self.history = self.history.stopped(out);
                Err(Stopped)
            }
        }
    }

    fn has_further_types(&self) -> bool {
        self.bus.has_further_types()
    }
}

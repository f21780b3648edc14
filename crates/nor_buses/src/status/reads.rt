//! How a `CheckedStatus` reads IDs and status registers.
ghost use Rattle.std.specs.Prelude.{◌≡◌, ◌%◌, ◌∷◌, [], true, false, Some, OnOk, OnErr, IfOk};
ghost use Rattle.nor_model.specs.Bus.{SameNature, AtStop, Transfers};
ghost use Rattle.nor_model.specs.History.{exchange_of};
ghost use Rattle.nor_model.specs.Passed.{Passes};
ghost use Rattle.nor_model.specs.Sent.{with_sent};
ghost use Rattle.nor_buses.specs.Keeps.{StopsUnread, MakesStep};
ghost use Rattle.nor_buses.specs.KnownStatus.{KeepsStatus};
ghost use Rattle.nor_buses.specs.StatusRead.{IsReadTwice, KeepsId, confirmed, pair, second};
ghost use Rattle.nor_buses.specs.StatusRead.{ends_busy, ends_in_poll, read_id_while_busy};

use super::CheckedStatus;
use crate::known::CheckFault;
use nor_model::bits::BUSY;
use nor_model::opcodes::{READ_ID, READ_STATUS1, READ_STATUS2};
use nor_model::{Bus, Stopped};

impl<B: Bus + Drop> CheckedStatus<B> {
    ghost use Rattle.nor_buses.specs.Checked.{check_fault_of, history_of, inner_state, known_of};

    pub(super) fn pass(&mut self, out: &[u8], reply: &mut [u8]) -> Result<(), Stopped>
        ensures history { history_of self.new ≡ history_of self.old }
        ensures known { known_of self.new ≡ known_of self.old }
        ensures carried { (inner_state self.new).history
            ≡ exchange_of out.now reply.new result ∷ (inner_state self.old).history }
        ensures sent { (inner_state self.new).sent ≡ with_sent out.now (inner_state self.old).sent }
        ensures passed { Passes out.now (inner_state self.old).passed (inner_state self.new).passed }
        ensures law { Transfers out.now reply.old reply.new result (inner_state self.old) (inner_state self.new) }
    {
        self.bus.transfer(out, reply)
    }

    pub(super) fn stop(&mut self, fault: CheckFault) -> Stopped
        ensures history { history_of self.new ≡ history_of self.old }
        ensures known { known_of self.new ≡ known_of self.old }
        ensures inside { inner_state self.new ≡ inner_state self.old }
        ensures fault { check_fault_of self.new ≡ Some fault }
    {
        self.fault = Some(fault);
        Stopped
    }

    // Reads the ID, and stops if it differs from the known ID. The first ID that is read becomes the known ID.
    pub(super) fn read_id(&mut self) -> Result<[u8; 3], Stopped>
        ensures history { history_of self.new ≡ history_of self.old }
        ensures status { KeepsStatus (known_of self.old) (known_of self.new) }
        ensures id { KeepsId (known_of self.old).id (known_of self.new).id }
        ensures sent { (inner_state self.new).sent ≡ (inner_state self.old).sent }
        ensures passed { (inner_state self.new).passed ≡ (inner_state self.old).passed }
        ensures known { IfOk result (λ id. (known_of self.new).id ≡ Some id) }
        ensures reads { OnOk result ((inner_state self.new).history
            ≡ confirmed (known_of self.new).id (inner_state self.old).history) }
        ensures last { ends_in_poll (inner_state self.new).history ≡ false }
        ensures ready { ends_busy (inner_state self.old).history ≡ false
            → read_id_while_busy (inner_state self.new).history ≡ false }
        ensures nature { SameNature (inner_state self.old) (inner_state self.new) }
        ensures steps { (inner_state self.old).honest ≡ true
            → IfOk result (λ id. MakesStep (0x9F ∷ []) id (inner_state self.old) (inner_state self.new)) }
        ensures stops { (inner_state self.old).honest ≡ true
            → OnErr result (StopsUnread (inner_state self.old) (inner_state self.new)) }
    {
        let mut found = [0; 3];
        self.pass(&[READ_ID], &mut found)?;
        if let Some(id) = self.known.id
            && id != found
        {
            return Err(self.stop(CheckFault::Lost { id, found }));
        }
        self.known.id = Some(found);
        Ok(found)
    }

    // Stops because two replies differ. Reads the ID first, so that a lost chip is recorded as `Lost`, not `Differs`.
    fn differ(&mut self) -> Stopped
        ensures history { history_of self.new ≡ history_of self.old }
        ensures status { KeepsStatus (known_of self.old) (known_of self.new) }
        ensures id { KeepsId (known_of self.old).id (known_of self.new).id }
        ensures sent { (inner_state self.new).sent ≡ (inner_state self.old).sent }
        ensures passed { (inner_state self.new).passed ≡ (inner_state self.old).passed }
        ensures last { ends_in_poll (inner_state self.new).history ≡ false }
        ensures ready { ends_busy (inner_state self.old).history ≡ false
            → read_id_while_busy (inner_state self.new).history ≡ false }
        ensures nature { SameNature (inner_state self.old) (inner_state self.new) }
        ensures stops { (inner_state self.old).honest ≡ true
            → StopsUnread (inner_state self.old) (inner_state self.new) }
    {
        match self.read_id() {
            Ok(_) => self.stop(CheckFault::Differs),
            Err(stopped) => stopped,
        }
    }

    // Polls once, with two reply bytes. Returns a byte that shows BUSY, if there is one, or the value of both bytes if
    // they are equal. If they differ, an operation may have ended between two bits of the reply: WEL comes before BUSY.
    // After a modifying command this counts as a poll that shows BUSY. Before the first one this bus stops.
    pub(super) fn poll_once(&mut self) -> Result<u8, Stopped>
        ensures history { history_of self.new ≡ history_of self.old }
        ensures status { KeepsStatus (known_of self.old) (known_of self.new) }
        ensures id { KeepsId (known_of self.old).id (known_of self.new).id }
        ensures known { OnOk result (known_of self.new ≡ known_of self.old) }
        ensures sent { (inner_state self.new).sent ≡ (inner_state self.old).sent }
        ensures passed { (inner_state self.new).passed ≡ (inner_state self.old).passed }
        ensures ready { IfOk result (λ status. status % 2 ≡ 0
            → (inner_state self.new).history ≡ pair status ∷ (inner_state self.old).history) }
        ensures idle { read_id_while_busy (inner_state self.new).history ≡ false }
        ensures last { OnErr result (ends_in_poll (inner_state self.new).history ≡ false) }
        ensures nature { SameNature (inner_state self.old) (inner_state self.new) }
        ensures steps { (inner_state self.old).honest ≡ true
            → IfOk result (λ reply. MakesStep (0x05 ∷ []) (reply ∷ []) (inner_state self.old) (inner_state self.new)) }
        ensures stops { (inner_state self.old).honest ≡ true
            → OnErr result (AtStop (0x05 ∷ []) (inner_state self.old) (inner_state self.new)) }
    {
        let mut bytes = [0; 2];
        self.pass(&[READ_STATUS1], &mut bytes)?;
        let [first, last] = bytes;
        if first & BUSY != 0 {
            return Ok(first);
        }
        if last & BUSY != 0 {
            return Ok(last);
        }
        if first != last {
            if self.known.is_changing {
                return Ok(BUSY);
            }
            return Err(self.differ());
        }
        Ok(first)
    }

    // Polls once, and returns the status if it shows BUSY. Otherwise reads the ID, polls again and, if the polls agree,
    // reads the ID again. If they differ, returns BUSY after a modifying command, as `poll_once` does. Before the first
    // one this bus stops, and reads the ID before that unless the second poll shows BUSY (a busy chip ignores 9Fh).
    pub(super) fn poll_twice(&mut self) -> Result<u8, Stopped>
        ensures history { history_of self.new ≡ history_of self.old }
        ensures status { KeepsStatus (known_of self.old) (known_of self.new) }
        ensures id { KeepsId (known_of self.old).id (known_of self.new).id }
        ensures sent { (inner_state self.new).sent ≡ (inner_state self.old).sent }
        ensures passed { (inner_state self.new).passed ≡ (inner_state self.old).passed }
        ensures twice { IfOk result (λ status. status % 2 ≡ 0 → IsReadTwice (pair status) (known_of self.new).id
            (inner_state self.old).history (inner_state self.new).history) }
        ensures idle { read_id_while_busy (inner_state self.new).history ≡ false }
        ensures differs { OnErr result (ends_in_poll (inner_state self.new).history ≡ true
            → check_fault_of self.new ≡ Some CheckFault.Differs) }
        ensures nature { SameNature (inner_state self.old) (inner_state self.new) }
        ensures steps { (inner_state self.old).honest ≡ true
            → IfOk result (λ reply. MakesStep (0x05 ∷ []) (reply ∷ []) (inner_state self.old) (inner_state self.new)) }
        ensures stops { (inner_state self.old).honest ≡ true
            → OnErr result (AtStop (0x05 ∷ []) (inner_state self.old) (inner_state self.new)) }
    {
        let status = self.poll_once()?;
        if status & BUSY != 0 {
            return Ok(status);
        }
        self.read_id()?;
        let again = self.poll_once()?;
        if again != status && self.known.is_changing {
            return Ok(BUSY);
        }
        if again & BUSY != 0 {
            return Err(self.stop(CheckFault::Differs));
        }
        if again != status {
            return Err(self.differ());
        }
        self.read_id()?;
        Ok(status)
    }

    pub(super) fn second_twice(&mut self) -> Result<u8, Stopped>
        ensures history { history_of self.new ≡ history_of self.old }
        ensures status { KeepsStatus (known_of self.old) (known_of self.new) }
        ensures id { KeepsId (known_of self.old).id (known_of self.new).id }
        ensures sent { (inner_state self.new).sent ≡ (inner_state self.old).sent }
        ensures passed { (inner_state self.new).passed ≡ (inner_state self.old).passed }
        ensures twice { IfOk result (λ status. IsReadTwice (second status) (known_of self.new).id
            (inner_state self.old).history (inner_state self.new).history) }
        ensures idle { read_id_while_busy (inner_state self.new).history ≡ false }
        ensures last { ends_in_poll (inner_state self.new).history ≡ false }
        ensures nature { SameNature (inner_state self.old) (inner_state self.new) }
        ensures steps { (inner_state self.old).honest ≡ true
            → IfOk result (λ reply. MakesStep (0x35 ∷ []) (reply ∷ []) (inner_state self.old) (inner_state self.new)) }
        ensures stops { (inner_state self.old).honest ≡ true
            → OnErr result (StopsUnread (inner_state self.old) (inner_state self.new)) }
    {
        let mut first = [0];
        let mut last = [0];
        self.pass(&[READ_STATUS2], &mut first)?;
        self.read_id()?;
        self.pass(&[READ_STATUS2], &mut last)?;
        if first != last {
            return Err(self.differ());
        }
        self.read_id()?;
        Ok(first[0])
    }
}

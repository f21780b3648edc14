//! How a `CheckedStatus` makes all transactions except status writes and one-byte reads of status registers.
ghost use Rattle.std.specs.Prelude.{◌≡◌, ◌||◌, ◌∷◌, [], true, false, length, Some, OnOk, OnErr};
ghost use Rattle.nor_model.specs.Bus.{IsHonestFor, SameNature, AtStop};
ghost use Rattle.nor_model.specs.Command.{begins_change};
ghost use Rattle.nor_model.specs.History.{replied};
ghost use Rattle.nor_model.specs.Passed.{Passes};
ghost use Rattle.nor_model.specs.Sent.{with_sent};
ghost use Rattle.nor_buses.specs.Keeps.{MakesStep};
ghost use Rattle.nor_buses.specs.StatusRead.{IsConfirmed, KeepsId, begins_confirmed};

use super::CheckedStatus;
use nor_model::opcodes::{READ_DATA, READ_ID, READ_SFDP, READ_UNIQUE};
use nor_model::{Bus, Stopped, is_changing};

impl<B: Bus + Drop> CheckedStatus<B> {
    ghost use Rattle.nor_buses.specs.Checked.{history_of, inner_state, known_of, locks_of};

    // Makes a transaction that is neither a status write nor a one-byte read of a status register. For 9Fh with three
    // reply bytes, stops if the ID differs from the known ID. Reads the ID after a read of data, SFDP or unique ID.
    pub(super) fn pass_on(&mut self, out: &[u8], reply: &mut [u8]) -> Result<(), Stopped>
        ensures history { history_of self.new ≡ history_of self.old }
        ensures locks { locks_of self.new ≡ locks_of self.old }
        ensures sent { (inner_state self.new).sent ≡ with_sent out.now (inner_state self.old).sent }
        ensures passed { Passes out.now (inner_state self.old).passed (inner_state self.new).passed }
        ensures begun { (known_of self.new).is_changing ≡ ((known_of self.old).is_changing || begins_change out.now) }
        ensures id { KeepsId (known_of self.old).id (known_of self.new).id }
        ensures identified { out.now ≡ 0x9F ∷ [] → length reply.new ≡ 3
            → OnOk result ((known_of self.new).id ≡ Some reply.new) }
        ensures passes { begins_confirmed out.now ≡ false → OnOk result
            ((inner_state self.new).history ≡ replied out.now reply.new ∷ (inner_state self.old).history) }
        ensures read { begins_confirmed out.now ≡ true → OnOk result (IsConfirmed (replied out.now reply.new)
            (known_of self.new).id (inner_state self.old).history (inner_state self.new).history) }
        ensures nature { SameNature (inner_state self.old) (inner_state self.new) }
        ensures steps { IsHonestFor out.now (length reply.old) (inner_state self.old)
            → OnOk result (MakesStep out.now reply.new (inner_state self.old) (inner_state self.new)) }
        ensures stops { IsHonestFor out.now (length reply.old) (inner_state self.old)
            → OnErr result (AtStop out.now (inner_state self.old) (inner_state self.new)) }
    {
        match (out, reply.len()) {
            ([READ_ID], 3) => {
                reply.copy_from_slice(&self.read_id()?);
                Ok(())
            }
            _ => self.pass_confirmed(out, reply),
        }
    }

    fn pass_confirmed(&mut self, out: &[u8], reply: &mut [u8]) -> Result<(), Stopped>
        ensures history { history_of self.new ≡ history_of self.old }
        ensures locks { locks_of self.new ≡ locks_of self.old }
        ensures sent { (inner_state self.new).sent ≡ with_sent out.now (inner_state self.old).sent }
        ensures passed { Passes out.now (inner_state self.old).passed (inner_state self.new).passed }
        ensures begun { (known_of self.new).is_changing ≡ ((known_of self.old).is_changing || begins_change out.now) }
        ensures id { KeepsId (known_of self.old).id (known_of self.new).id }
        ensures passes { begins_confirmed out.now ≡ false → OnOk result
            ((inner_state self.new).history ≡ replied out.now reply.new ∷ (inner_state self.old).history) }
        ensures read { begins_confirmed out.now ≡ true → OnOk result (IsConfirmed (replied out.now reply.new)
            (known_of self.new).id (inner_state self.old).history (inner_state self.new).history) }
        ensures nature { SameNature (inner_state self.old) (inner_state self.new) }
        ensures steps { IsHonestFor out.now (length reply.old) (inner_state self.old)
            → OnOk result (MakesStep out.now reply.new (inner_state self.old) (inner_state self.new)) }
        ensures stops { IsHonestFor out.now (length reply.old) (inner_state self.old)
            → OnErr result (AtStop out.now (inner_state self.old) (inner_state self.new)) }
    {
        if is_changing(out) {
            self.known.is_changing = true;
        }
        self.pass(out, reply)?;
        if let [READ_DATA, ..] = out {
            self.counts.add(reply);
        }
        if is_confirmed(out) {
            self.read_id()?;
        }
        Ok(())
    }
}

fn is_confirmed(out: &[u8]) -> bool
    ensures { result ≡ begins_confirmed out.now }
{
    matches!(out, [READ_DATA | READ_SFDP | READ_UNIQUE, ..])
}

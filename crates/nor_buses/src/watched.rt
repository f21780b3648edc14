//! A bus that detects that the chip lost contact or power while the chip seems to be busy.
ghost use Rattle.std.specs.Prelude.{◌≡◌, ◌⊎◌, ◌∷◌, [], true, false, length, OnErr, OnOk};
ghost use Rattle.nor_model.specs.Bus.{IsHonestFor, SameNature, AtStop, Transfers};
ghost use Rattle.nor_model.specs.History.{replied, stopped};
ghost use Rattle.nor_model.specs.Passed.{Passes};
ghost use Rattle.nor_buses.specs.Keeps.{KeepsAll, StopsUnread, MakesStep};
ghost use Rattle.nor_buses.specs.Watched.{watched_by, is_lost, row_in, has_status, history_of, watched_state};
ghost use Rattle.nor_buses.specs.Watched.{is_undriven, row_after, status_after, looks_after, HasLooked, HasFoundLost};
ghost use Rattle.nor_buses.specs.Watched.{unsteady};

use nor_model::opcodes::{READ_ID, READ_STATUS1};
use nor_model::{Bus, History, Stopped};

// The value of each received byte if no chip drives the line and a pull-up holds it high.
const UNDRIVEN: u8 = 0xFF;

// The number of polls in a row with only FFh after which this bus may read the ID. With the pauses of `Paced` these
// polls take 1.1 to 1.8 seconds, and longer over a slow wire.
const LOOK_AFTER: u32 = 256;

// A status 1 of at least this value has all bits set except perhaps WEL and BUSY, so it may be FFh while the chip is
// busy.
const ALL_SET: u8 = 0xFC;

/// A bus that stops if the chip lost contact or power while the caller polls it, and a pull-up makes each reply FFh.
/// This looks like BUSY, so without this bus a wait uses up its 65,536 polls and takes minutes.
///
/// After 256 polls (05h) in a row whose replies were one or two bytes FFh, this bus reads the ID (9Fh), except in the
/// two cases of the next paragraph. If the ID is FFFFFFh, the last of these polls and each later transaction return
/// `Stopped`, and nothing more is sent. Until then, each transaction is passed on unchanged.
///
/// A chip that is only busy also ignores 9Fh. But its status 1 is FFh only if SRP0 and the protection bits in status 1
/// are set, which no erase and no program changes (W25Q64FV datasheet, Status Registers). Therefore this bus does not
/// read the ID if the last poll that didn't return only FFh ended with FCh or more, or if there was no such poll yet. A
/// status write may set all these bits, but it ends after at most 30 ms, before 256 polls over a `Paced`.
///
/// This bus is well-behaved if and only if the bus inside is. It is neither punctual nor steady, because it may stop
/// after a poll that the chip carried out. It doesn't detect a line that is pulled low, which reads as 00h and looks
/// like a ready chip; `CheckedStatus` does.
#[derive(Drop)]
pub struct Watched<B> {
    bus: B,
    // The number of polls in a row, up to now, that returned only FFh. At most `LOOK_AFTER`; 0 after a call of `look`.
    row: u32,
    // True if the reply to the last poll that didn't return only FFh ended with a status 1 below `ALL_SET`.
    has_status: bool,
    is_lost: bool,
    history: History,
}

impl<B: Bus + Drop> Watched<B> {
    /// Returns a bus over `bus` that stops if the chip lost contact or power while it is polled.
    pub fn new(bus: B) -> Watched<B>
        ensures bus { watched_by result ≡ bus }
        ensures lost { is_lost result ≡ false }
        ensures row { row_in result ≡ 0 }
        ensures status { has_status result ≡ false }
        ensures history { history_of result ≡ [] }
    {
        Watched {
            bus,
            row: 0,
            has_status: false,
            is_lost: false,
            history: History::new(),
        }
    }

    /// Returns the bus inside, which carries out the transactions of this bus.
    pub fn inner(&self) -> &B
        ensures { result.now ≡ watched_by self.now }
    {
        &self.bus
    }

    /// Returns whether this bus found that the chip lost contact or power.
    pub fn is_lost(&self) -> bool
        ensures { result ≡ is_lost self.now }
    {
        self.is_lost
    }
}

impl<B: Bus> Watched<B> {
    fn count(&mut self, out: &[u8], reply: &[u8])
        ensures history { history_of self.new ≡ history_of self.old }
        ensures bus { watched_by self.new ≡ watched_by self.old }
        ensures lost { is_lost self.new ≡ is_lost self.old }
        ensures row { row_in self.new ≡ row_after out.now reply.now (row_in self.old) }
        ensures status { has_status self.new ≡ status_after out.now reply.now (has_status self.old) }
    {
        self.has_status = status_after(out, reply, self.has_status);
        self.row = match is_undriven(out, reply) {
            true if self.row < LOOK_AFTER => self.row + 1,
            true => LOOK_AFTER,
            false => 0,
        };
    }

    // Reads the ID. If it is FFFFFFh, records that the chip is lost, and returns `Stopped`.
    fn look(&mut self) -> Result<(), Stopped>
        ensures history { history_of self.new ≡ history_of self.old }
        ensures looked { HasLooked (B.state (watched_by self.old)).history (B.state (watched_by self.new)).history }
        ensures found { is_lost self.old ≡ false → is_lost self.new ≡ true → (B.state (watched_by self.new)).history
            ≡ replied (0x9F ∷ []) (255 ∷ 255 ∷ 255 ∷ []) ∷ (B.state (watched_by self.old)).history }
        ensures there { is_lost self.old ≡ false → OnOk result (is_lost self.new ≡ false) }
        ensures nature { SameNature (B.state (watched_by self.old)) (B.state (watched_by self.new)) }
        ensures passed { (B.state (watched_by self.new)).passed ≡ (B.state (watched_by self.old)).passed }
        ensures keeps { (B.state (watched_by self.old)).honest ≡ true
            → OnOk result (KeepsAll (B.state (watched_by self.old)) (B.state (watched_by self.new))) }
        ensures stops { (B.state (watched_by self.old)).honest ≡ true
            → OnErr result (StopsUnread (B.state (watched_by self.old)) (B.state (watched_by self.new))) }
    {
        let mut id = [0; 3];
        self.bus.transfer(&[READ_ID], &mut id)?;
        if id == [UNDRIVEN; 3] {
            self.is_lost = true;
            return Err(Stopped);
        }
        Ok(())
    }

    fn carry(&mut self, out: &[u8], reply: &mut [u8]) -> Result<(), Stopped>
        ensures history { history_of self.new ≡ history_of self.old }
        ensures silent { is_lost self.old ≡ true → (self.new ≡ self.old) × OnOk result ⊥ }
        ensures passes { is_lost self.old ≡ false
            → looks_after out.now reply.new (row_in self.old) (has_status self.old) ≡ false
            → Transfers out.now reply.old reply.new result
            (B.state (watched_by self.old)) (B.state (watched_by self.new)) }
        ensures looks { is_lost self.old ≡ false
            → looks_after out.now reply.new (row_in self.old) (has_status self.old) ≡ true
            → OnOk result (HasLooked (replied out.now reply.new ∷ (B.state (watched_by self.old)).history)
            (B.state (watched_by self.new)).history) }
        ensures stops { is_lost self.old ≡ false → OnErr result (((B.state (watched_by self.new)).history
            ≡ stopped out.now ∷ (B.state (watched_by self.old)).history)
            ⊎ HasLooked (replied out.now reply.new ∷ (B.state (watched_by self.old)).history)
            (B.state (watched_by self.new)).history) }
        ensures found { is_lost self.old ≡ false → is_lost self.new ≡ true
            → HasFoundLost out.now reply.new (row_in self.old) (has_status self.old)
            (B.state (watched_by self.old)).history (B.state (watched_by self.new)).history }
        ensures there { OnOk result (is_lost self.new ≡ false) }
        ensures nature { SameNature (B.state (watched_by self.old)) (B.state (watched_by self.new)) }
        ensures passed { Passes out.now (B.state (watched_by self.old)).passed (B.state (watched_by self.new)).passed }
        ensures steps { IsHonestFor out.now (length reply.old) (B.state (watched_by self.old)) → OnOk result
            (MakesStep out.now reply.new (B.state (watched_by self.old)) (B.state (watched_by self.new))) }
        ensures at_stop { IsHonestFor out.now (length reply.old) (B.state (watched_by self.old)) → OnErr result
            (AtStop out.now (unsteady (B.state (watched_by self.old))) (unsteady (B.state (watched_by self.new)))) }
    {
        if self.is_lost {
            return Err(Stopped);
        }
        self.bus.transfer(out, reply)?;
        self.count(out, reply);
        if self.row >= LOOK_AFTER && self.has_status {
            self.row = 0;
            return self.look();
        }
        Ok(())
    }
}

impl<B: Bus> Bus for Watched<B> {
    ghost state = { watched_state B.state };

    ghost reaches = { λ watched honest. B.reaches watched.bus honest };

    fn transfer(&mut self, out: &[u8], reply: &mut [u8]) -> Result<(), Stopped>
        ensures law { Transfers out.now reply.old reply.new result
            (watched_state B.state self.old) (watched_state B.state self.new) }
        ensures silent { is_lost self.old ≡ true → (watched_by self.new ≡ watched_by self.old)
            × (is_lost self.new ≡ true) × OnOk result ⊥ }
        ensures passes { is_lost self.old ≡ false
            → looks_after out.now reply.new (row_in self.old) (has_status self.old) ≡ false
            → Transfers out.now reply.old reply.new result
            (B.state (watched_by self.old)) (B.state (watched_by self.new)) }
        ensures looks { is_lost self.old ≡ false
            → looks_after out.now reply.new (row_in self.old) (has_status self.old) ≡ true
            → OnOk result (HasLooked (replied out.now reply.new ∷ (B.state (watched_by self.old)).history)
            (B.state (watched_by self.new)).history) }
        ensures stops { is_lost self.old ≡ false → OnErr result (((B.state (watched_by self.new)).history
            ≡ stopped out.now ∷ (B.state (watched_by self.old)).history)
            ⊎ HasLooked (replied out.now reply.new ∷ (B.state (watched_by self.old)).history)
            (B.state (watched_by self.new)).history) }
        ensures found { is_lost self.old ≡ false → is_lost self.new ≡ true
            → HasFoundLost out.now reply.new (row_in self.old) (has_status self.old)
            (B.state (watched_by self.old)).history (B.state (watched_by self.new)).history }
        ensures there { OnOk result (is_lost self.new ≡ false) }
    {
        match self.carry(out, reply) {
            Ok(()) => {
                self.history = self.history.replied(out, reply);
                Ok(())
            }
            Err(Stopped) => {
                self.history = self.history.stopped(out);
                Err(Stopped)
            }
        }
    }

    fn has_further_types(&self) -> bool {
        self.bus.has_further_types()
    }
}

fn is_undriven(out: &[u8], reply: &[u8]) -> bool
    ensures { result ≡ is_undriven out.now reply.now }
{
    match (out, reply) {
        ([READ_STATUS1], [one]) => *one == UNDRIVEN,
        ([READ_STATUS1], [one, two]) => *one == UNDRIVEN && *two == UNDRIVEN,
        _ => false,
    }
}

fn status_after(out: &[u8], reply: &[u8], known: bool) -> bool
    ensures { result ≡ status_after out.now reply.now known }
{
    match (out, reply) {
        ([READ_STATUS1], [one]) if *one != UNDRIVEN => *one < ALL_SET,
        ([READ_STATUS1], [_, two]) if !is_undriven(out, reply) => *two < ALL_SET,
        _ => known,
    }
}

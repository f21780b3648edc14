//! What a `CheckedStatus` knows about the chip, and why this bus stops.
ghost use Rattle.std.specs.Prelude.{◌≡◌, true, IfSome};
ghost use Rattle.nor_model.specs.Status.{bytes_of};
ghost use Rattle.nor_buses.specs.KnownStatus.{KeepsBits, KeepsKnown};

use crate::counts::ChangedByte;
use nor_model::Status;
use nor_model::opcodes::WRITE_STATUS;

/// The reason why a `CheckedStatus` stopped although the bus inside did not.
#[derive(Clone, Copy, Debug, PartialEq, Eq)]
pub enum CheckFault {
    /// Two reads of one status register (05h or 35h) had different replies: for example, one poll showed a ready chip
    /// and the next one BUSY, or two reply bytes of one poll differ although both show a ready chip. After the first
    /// modifying command, polls that differ don't stop the bus.
    Differs,
    /// A status write was not sent, because status 1 or 2 was not read twice before, or because the write doesn't have
    /// exactly two data bytes, sets BUSY, WEL or SUS, or would change a bit that the bus keeps. The bus keeps all
    /// non-volatile bits except the protection bits (after `locking`, all non-volatile bits except SRP0).
    Refused,
    /// The status write of `sent` was not stored: afterwards the status registers contained `found`, which differs in a
    /// non-volatile bit.
    NotStored { sent: [u8; 2], found: [u8; 2] },
    /// The ID was first `id` and later `found`. If contact or power failed, each byte of `found` usually is FFh or 00h.
    Lost { id: [u8; 3], found: [u8; 3] },
    /// The first modifying command was not sent, because the port seems to change bytes (`ChangedByte`).
    ChangedByte(ChangedByte),
}

#[derive(Clone, Copy)]
pub(crate) struct Known {
    // Status 1 and 2: `Some` if the register was read twice with this value, each time followed by a read of the known
    // ID.
    pub(crate) one: Option<u8>,
    pub(crate) two: Option<u8>,
    pub(crate) is_changing: bool,
    // The bytes of a status write that was passed on and is not read back yet.
    pub(crate) written: Option<[u8; 2]>,
    // The ID of the chip: the reply to the first 9Fh with three reply bytes.
    pub(crate) id: Option<[u8; 3]>,
    // True if a status write may change only SRP0. False if it may change only the protection bits.
    pub(crate) locks: bool,
}

pub(crate) fn kept_status(known: &Known, out: &[u8]) -> Option<[u8; 2]>
    ensures { IfSome result (KeepsKnown known.now out.now) }
{
    match (out, known.one, known.two) {
        ([WRITE_STATUS, one, two], Some(one_read), Some(two_read)) => {
            let sent = Status::of([*one, *two]);
            let read = Status::of([one_read, two_read]);
            if keeps_bits(known.locks, sent, read) && are_same(sent.kept(), sent) {
                Some([*one, *two])
            } else {
                None
            }
        }
        _ => None,
    }
}

fn keeps_bits(locks: bool, sent: Status, read: Status) -> bool
    ensures { result ≡ true → KeepsBits locks sent.one.0 sent.two.0 read.one.0 read.two.0 }
{
    let ([one, two], [one_read, two_read]) = (sent.bytes(), read.bytes());
    if locks {
        one % 128 / 4 == one_read % 128 / 4 && two % 128 == two_read % 128
    } else {
        are_same(sent.fixed(), read.fixed())
    }
}

pub(crate) fn are_same(one: Status, other: Status) -> bool
    ensures { result ≡ true → bytes_of one ≡ bytes_of other }
{
    one == other
}

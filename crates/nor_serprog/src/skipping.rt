//! Receives and skips bytes up to a wanted reply.
ghost use Rattle.std.specs.Prelude.{◌≡◌, ◌≤◌, ◌+◌, ◌++◌, ◌∷◌, [], true, length, drop, IfOk, OnOk, OnErr, IfErr};
ghost use Rattle.nor_serprog.specs.Device.{IsReceived, IsSilent};
ghost use Rattle.nor_serprog.specs.Replies.{IsPortFailure, IsPending, AsksUnlessFew};

use crate::{Failure, Port};

/// The length of the longest reply that is searched for, which is the reply to the sequence of `Link::synchronize`.
pub(crate) const ROW_ANSWERS_LEN: usize = 25;

const MOST_STALE: u32 = 1 << 16;

/// Receives bytes until the last received ones are `wanted`, which must not begin with 00h. Returns `NoSync` if 65,536
/// bytes do not contain `wanted`, or `Port` if the port fails.
pub(crate) fn skip_past<P: Port>(port: &mut P, wanted: &[u8]) -> Result<(), Failure<P::Cause>>
    requires { length wanted.now ≤ 25 }
    ensures nature { (P.state port.new).honest ≡ (P.state port.old).honest }
    ensures unasked { (P.state port.new).asked ≡ (P.state port.old).asked }
    ensures fewer { (P.state port.old).honest ≡ true → (P.state port.new).left ≤ (P.state port.old).left }
    ensures calls { (P.state port.old).honest ≡ true
        → OnOk result ((P.state port.new).left + 1 ≤ (P.state port.old).left) }
    ensures skips { IsPending wanted.now (P.state port.old)
        → AsksUnlessFew (length wanted.now) result (P.state port.old) (P.state port.new) }
{
    let mut last = [0; ROW_ANSWERS_LEN];
    for received in 0..MOST_STALE {
        let byte = receive_one(port)?;
        shift_in(&mut last, byte);
        if last.ends_with(wanted) {
            return Ok(());
        }
    }
    Err(Failure::NoSync)
}

fn shift_in(last: &mut [u8; ROW_ANSWERS_LEN], byte: u8)
    ensures { last.new ≡ drop 1 last.old ++ byte ∷ [] }
{
    last.rotate_left(1);
    last[ROW_ANSWERS_LEN - 1] = byte;
}

fn receive_one<P: Port>(port: &mut P) -> Result<u8, Failure<P::Cause>>
    ensures nature { (P.state port.new).honest ≡ (P.state port.old).honest }
    ensures unasked { (P.state port.new).asked ≡ (P.state port.old).asked }
    ensures fewer { (P.state port.old).honest ≡ true → (P.state port.new).left ≤ (P.state port.old).left }
    ensures calls { (P.state port.old).honest ≡ true
        → OnOk result ((P.state port.old).left ≡ (P.state port.new).left + 1) }
    ensures received { (P.state port.old).honest ≡ true
        → IfOk result (λ byte. IsReceived (byte ∷ []) (P.state port.old) (P.state port.new)) }
    ensures silent { (P.state port.old).honest ≡ true
        → OnErr result (IsSilent 1 (P.state port.old) (P.state port.new)) }
    ensures cause { IfErr result IsPortFailure }
{
    let mut byte = [0];
    port.receive(&mut byte).map_err(Failure::Port)?;
    Ok(byte[0])
}

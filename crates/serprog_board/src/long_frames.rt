//! Reads after padding in a long frame, to detect a programmer that changes long frames.
ghost use Rattle.std.specs.Prelude.{◌≡◌, ◌≤◌, true, false, IfOk, IfSome, length};
ghost use Rattle.nor_serprog.specs.Harmless.{StaysHarmless, begins_harmless};
ghost use Rattle.nor_serprog.specs.Link.{is_cut, is_in_step, port_of};
ghost use Rattle.nor_serprog.specs.Replies.{AwaitsCommand};
ghost use Rattle.serprog_board.specs.Looking.{EndsLooking};
ghost use Rattle.serprog_board.specs.Ports.{asked_over};

use crate::port_fault::PortFault;
use crate::programmer_fault::ProgrammerFault;
use crate::transactions::operate;
use crate::trial_reads::{FEW, PLACES, PROGRAM, STEP, exchange, read, read_at, shorter};
use nor_model::opcodes::READ_STATUS1;
use nor_serprog::{Failure, HandshakeFault, Link, Port};

// One more address for a long frame, which then reads at FFFFF0h if it sends 260 bytes. There the firmware of a PC has
// its first instruction (reset vector). A smaller chip ignores the upper address bits.
const TOP: u32 = 0xFF_FEF0;

// Wrong bytes in a long frame are reported (`LongFrames`) only if this number of frames has wrong bytes.
const TIMES: u32 = 3;

/// Returns the first address from which a long frame shows whether all its padding arrived (`is_telling`), or `None` if
/// no trial address does.
pub fn find_place<P: Port<Cause = PortFault> + Drop>(
    link: &mut Link<P>,
    padding: usize,
    most: u32,
) -> Result<Option<u32>, ProgrammerFault>
    requires some { 1 ≤ padding }
    requires most { padding ≤ 256 }
    ensures place { IfOk result (λ place. IfSome place (λ address. address ≤ 0xFFFEF0)) }
    ensures harmless { StaysHarmless (asked_over P.state link.old) (asked_over P.state link.new) }
    ensures nature { (P.state (port_of link.new)).honest ≡ (P.state (port_of link.old)).honest }
    ensures looks { AwaitsCommand (P.state (port_of link.old)) → is_in_step link.old ≡ true
        → EndsLooking P.state result link.old link.new }
{
    for place in 0..=PLACES {
        let address = if place < PLACES { place * STEP } else { TOP };
        if is_telling(link, address, padding, most)? {
            return Ok(Some(address));
        }
    }
    Ok(None)
}

// Returns whether the bytes at `address + padding` aren't all equal, and don't occur in the reply to one read of
// `padding` bytes (but at most `most`) from `address` on. Firmware that loses padding bytes makes the chip return bytes
// of this range.
fn is_telling<P: Port<Cause = PortFault> + Drop>(
    link: &mut Link<P>,
    address: u32,
    padding: usize,
    most: u32,
) -> Result<bool, ProgrammerFault>
    requires address { address ≤ 0xFFFEF0 }
    requires some { 1 ≤ padding }
    requires most { padding ≤ 256 }
    ensures harmless { StaysHarmless (asked_over P.state link.old) (asked_over P.state link.new) }
    ensures nature { (P.state (port_of link.new)).honest ≡ (P.state (port_of link.old)).honest }
    ensures looks { AwaitsCommand (P.state (port_of link.old)) → is_in_step link.old ≡ true
        → EndsLooking P.state result link.old link.new }
{
    let few = shorter(FEW, most);
    let mut bytes = [0; FEW];
    read(link, address + padding as u32, &mut bytes[..few])?;
    if bytes[..few].iter().all(|byte| *byte == bytes[0]) {
        return Ok(false);
    }
    let len = shorter(padding, most);
    let mut before = [0; PROGRAM];
    read(link, address, &mut before[..len])?;
    Ok(
        !before[..len]
            .windows(few)
            .any(|window| window == &bytes[..few]),
    )
}

/// Reads `replies` bytes after padding, in a frame that sends `len` bytes, and compares them with the reply to a short
/// frame. The bytes are those at `place + len - 4` or, if `place` is `None`, status 1. Returns `LongFrames` if the
/// reply to the long frame is wrong three times, and that to the short frame the same each time. Returns a fault of
/// `of_long` if the long frame fails; a refused frame fails only if sending it without a reply fails, too.
pub fn try_long_frame<P: Port<Cause = PortFault> + Drop>(
    link: &mut Link<P>,
    place: Option<u32>,
    len: usize,
    replies: usize,
) -> Result<(), ProgrammerFault>
    requires place { IfSome place (λ address. address ≤ 0xFFFEF0) }
    requires some { 5 ≤ len }
    requires most { len ≤ 260 }
    requires few { replies ≤ 4 }
    ensures harmless { StaysHarmless (asked_over P.state link.old) (asked_over P.state link.new) }
    ensures nature { (P.state (port_of link.new)).honest ≡ (P.state (port_of link.old)).honest }
    ensures looks { AwaitsCommand (P.state (port_of link.old)) → is_in_step link.old ≡ true
        → EndsLooking P.state result link.old link.new }
{
    let mut behind = [0; FEW];
    let mut direct = [0; FEW];
    if !read_behind(link, place, len, &mut behind[..replies])? {
        return Ok(());
    }
    read_direct(link, place, len, &mut direct[..replies])?;
    if behind == direct {
        return Ok(());
    }
    for _ in 1..TIMES {
        let mut again = [0; FEW];
        if !read_behind(link, place, len, &mut again[..replies])? || again == direct {
            return Ok(());
        }
        read_direct(link, place, len, &mut again[..replies])?;
        if again != direct {
            return Ok(());
        }
    }
    Err(ProgrammerFault::LongFrames)
}

// Reads in a frame that sends `len` bytes. If the programmer refuses the frame, sends the frame without a reply
// and returns false, because the buffer of the programmer may be just long enough for a page program.
#[tactic(auto, using(crate::proofs::Started::harmless_start))]
fn read_behind<P: Port<Cause = PortFault> + Drop>(
    link: &mut Link<P>,
    place: Option<u32>,
    len: usize,
    reply: &mut [u8],
) -> Result<bool, ProgrammerFault>
    requires some { 4 ≤ len }
    requires most { len ≤ 260 }
    requires few { length reply.old ≤ 4 }
    ensures harmless { StaysHarmless (asked_over P.state link.old) (asked_over P.state link.new) }
    ensures nature { (P.state (port_of link.new)).honest ≡ (P.state (port_of link.old)).honest }
    ensures looks { AwaitsCommand (P.state (port_of link.old)) → is_in_step link.old ≡ true
        → EndsLooking P.state result link.old link.new }
{
    let out = long_frame(place);
    match operate(link, &out[..len], reply) {
        Ok(()) => Ok(true),
        Err(Failure::Refused(_)) => {
            send_only(link, &out[..len])?;
            Ok(false)
        }
        Err(failure) => Err(of_long(failure)),
    }
}

// Returns the first bytes of a long frame, and padding. The padding is 00h, because this byte changes no chip, even if
// the programmer sends it as an opcode.
fn long_frame(place: Option<u32>) -> [u8; PROGRAM]
    ensures reads { begins_harmless result ≡ true }
{
    let mut out = [0; PROGRAM];
    out[..4].copy_from_slice(&first_bytes(place));
    out
}

fn first_bytes(place: Option<u32>) -> [u8; 4]
    ensures reads { begins_harmless result ≡ true }
{
    match place {
        Some(address) => read_at(address),
        None => [READ_STATUS1, 0, 0, 0],
    }
}

fn send_only<P: Port<Cause = PortFault> + Drop>(
    link: &mut Link<P>,
    out: &[u8],
) -> Result<(), ProgrammerFault>
    requires reads { begins_harmless out.now ≡ true }
    ensures harmless { StaysHarmless (asked_over P.state link.old) (asked_over P.state link.new) }
    ensures nature { (P.state (port_of link.new)).honest ≡ (P.state (port_of link.old)).honest }
    ensures looks { AwaitsCommand (P.state (port_of link.old)) → is_cut link.old ≡ false
        → EndsLooking P.state result link.old link.new }
{
    synchronize(link).map_err(|failure| of_long(failure))?;
    operate(link, out, &mut []).map_err(|failure| of_long(failure))
}

fn synchronize<P: Port<Cause = PortFault> + Drop>(
    link: &mut Link<P>,
) -> Result<(), Failure<PortFault>>
    ensures harmless { StaysHarmless (asked_over P.state link.old) (asked_over P.state link.new) }
    ensures nature { (P.state (port_of link.new)).honest ≡ (P.state (port_of link.old)).honest }
    ensures looks { AwaitsCommand (P.state (port_of link.old)) → is_cut link.old ≡ false
        → EndsLooking P.state result link.old link.new }
{
    link.synchronize()
}

fn read_direct<P: Port<Cause = PortFault> + Drop>(
    link: &mut Link<P>,
    place: Option<u32>,
    len: usize,
    reply: &mut [u8],
) -> Result<(), ProgrammerFault>
    requires place { IfSome place (λ address. address ≤ 0xFFFEF0) }
    requires some { 4 ≤ len }
    requires most { len ≤ 260 }
    requires few { length reply.old ≤ 4 }
    ensures harmless { StaysHarmless (asked_over P.state link.old) (asked_over P.state link.new) }
    ensures nature { (P.state (port_of link.new)).honest ≡ (P.state (port_of link.old)).honest }
    ensures looks { AwaitsCommand (P.state (port_of link.old)) → is_in_step link.old ≡ true
        → EndsLooking P.state result link.old link.new }
{
    match place {
        Some(address) => read(link, address + (len - 4) as u32, reply),
        None => exchange(link, &[READ_STATUS1], reply),
    }
}

// Returns the fault for a long frame that failed. An error of the system doesn't depend on the frame's length.
fn of_long(failure: Failure<PortFault>) -> ProgrammerFault {
    match failure {
        Failure::Port(PortFault::System(_)) => {
            ProgrammerFault::Handshake(HandshakeFault::Failure(failure))
        }
        _ => ProgrammerFault::LongFrames,
    }
}

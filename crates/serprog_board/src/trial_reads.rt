//! Reads that detect, before a job begins, a chip in four-byte mode or a programmer that changes long frames.
ghost use Rattle.std.specs.Prelude.{◌≡◌, ◌≤◌, true, length};
ghost use Rattle.nor_serprog.specs.Harmless.{StaysHarmless, begins_harmless};
ghost use Rattle.nor_serprog.specs.Link.{is_in_step, port_of};
ghost use Rattle.nor_serprog.specs.Replies.{AwaitsCommand};
ghost use Rattle.serprog_board.specs.Looking.{EndsLooking};
ghost use Rattle.serprog_board.specs.Ports.{asked_over};

use crate::long_frames::{find_place, try_long_frame};
use crate::overlaps::compare_overlaps;
use crate::port_fault::PortFault;
use crate::programmer_fault::ProgrammerFault;
use crate::transactions::operate;
use nor_model::opcodes::READ_DATA;
use nor_serprog::{AnyProgrammer, HandshakeFault, Link, Port};

/// The greatest number of bytes that are compared in overlapping reads.
pub const MOST: usize = 32;

/// The greatest number of bytes that are compared after the padding of a long frame.
pub const FEW: usize = 4;

/// The number of trial addresses, which are multiples of `STEP`. A chip in four-byte mode reads at about 256 times the
/// address.
pub const PLACES: u32 = 8;

/// The distance between two trial addresses.
pub const STEP: u32 = 0x1110;

/// The number of bytes that a page program sends, including its opcode and its address.
pub const PROGRAM: usize = 260;

/// Makes trial reads, and compares their data. Returns one of these faults:
///
/// - `Addresses`: overlapping reads agree at none of eight addresses (bytes that are all equal don't count), and differ
///   in most bytes at one of them or in a few bytes at each. A chip in four-byte mode (W25Q256FV datasheet, Address
///   Modes) may cause this.
/// - `LongFrames`: a frame as long as that of a page program (or as the programmer's lower limit) reads wrong bytes or
///   fails. A frame that is refused fails only if sending it without a reply fails, too.
/// - `Handshake`: another exchange failed, or the system reported an error.
///
/// An interrupted erase may leave bytes that change from read to read, and these must not prevent a restore. So a
/// difference counts only if both reads, when repeated, return the same bytes as before. Repeated reads in a long frame
/// may return other bytes, if these are wrong, too.
pub fn try_reads<P: Port<Cause = PortFault> + Drop>(
    link: &mut Link<P>,
    programmer: &AnyProgrammer,
) -> Result<(), ProgrammerFault>
    ensures harmless { StaysHarmless (asked_over P.state link.old) (asked_over P.state link.new) }
    ensures nature { (P.state (port_of link.new)).honest ≡ (P.state (port_of link.old)).honest }
    ensures looks { AwaitsCommand (P.state (port_of link.old)) → is_in_step link.old ≡ true
        → EndsLooking P.state result link.old link.new }
{
    let most = programmer.longest_read();
    compare_overlaps(link, shorter(MOST, most))?;
    let len = shorter(PROGRAM, programmer.longest_part());
    let place = find_place(link, len - 4, most)?;
    try_long_frame(link, place, len, shorter(FEW, most))
}

/// Returns the lesser of a length and a limit of the programmer.
pub fn shorter(len: usize, most: u32) -> usize
    ensures most { result ≤ len }
    ensures some { 1 ≤ len → 1 ≤ most → 1 ≤ result }
    ensures five { 5 ≤ len → 5 ≤ most → 5 ≤ result }
{
    len.min(most as usize)
}

/// Reads the bytes from `address` on into `reply`. `address` must be below 2^24.
pub fn read<P: Port<Cause = PortFault> + Drop>(
    link: &mut Link<P>,
    address: u32,
    reply: &mut [u8],
) -> Result<(), ProgrammerFault>
    requires { length reply.old ≤ 256 }
    ensures harmless { StaysHarmless (asked_over P.state link.old) (asked_over P.state link.new) }
    ensures nature { (P.state (port_of link.new)).honest ≡ (P.state (port_of link.old)).honest }
    ensures looks { AwaitsCommand (P.state (port_of link.old)) → is_in_step link.old ≡ true
        → EndsLooking P.state result link.old link.new }
{
    exchange(link, &read_at(address), reply)
}

/// Makes one transaction (`operate`), and returns `Handshake` if it fails.
pub fn exchange<P: Port<Cause = PortFault> + Drop>(
    link: &mut Link<P>,
    out: &[u8],
    reply: &mut [u8],
) -> Result<(), ProgrammerFault>
    requires few { length reply.old ≤ 256 }
    requires reads { begins_harmless out.now ≡ true }
    ensures harmless { StaysHarmless (asked_over P.state link.old) (asked_over P.state link.new) }
    ensures nature { (P.state (port_of link.new)).honest ≡ (P.state (port_of link.old)).honest }
    ensures looks { AwaitsCommand (P.state (port_of link.old)) → is_in_step link.old ≡ true
        → EndsLooking P.state result link.old link.new }
{
    operate(link, out, reply).map_err(|failure| {
        ProgrammerFault::Handshake(HandshakeFault::Failure(failure))
    })
}

/// Returns the bytes that a read sends. `address` must be below 2^24.
pub fn read_at(address: u32) -> [u8; 4]
    ensures reads { begins_harmless result ≡ true }
{
    let [_, high, middle, low] = address.to_be_bytes();
    [READ_DATA, high, middle, low]
}

//! Wakes the chip, and finds out whether the port changes bytes that are sent.

ghost use Rattle.std.specs.Prelude.{◌≡◌, true, length};
ghost use Rattle.nor_serprog.specs.Harmless.{ModifiesNothing, StaysHarmless};
ghost use Rattle.nor_serprog.specs.Link.{is_in_step, port_of};
ghost use Rattle.nor_serprog.specs.Replies.{AwaitsCommand};
ghost use Rattle.serprog_board.specs.Looking.{EndsLooking, IsLook};
ghost use Rattle.serprog_board.specs.Ports.{asked_over};

use crate::port_fault::PortFault;
use crate::programmer_fault::ProgrammerFault;
use nor_serprog::{AnyProgrammer, Command, Failure, HandshakeFault, Link, Port};

// ABh, and 12 bytes that the chip ignores. If the port changes 0Dh, the length of `WAKE`, to 0Ah, the programmer takes
// the last three bytes as commands. These are harmless: 10h is SYNCNOP, to which the programmer only replies NAK, ACK.
const WAKE: [u8; 13] = [
    0xAB, 0x10, 0x10, 0x10, 0x10, 0x10, 0x10, 0x10, 0x10, 0x10, 0x10, 0x10, 0x10,
];

const WAKE_REPLIES: u32 = 10;

/// Wakes the chip, checks whether the port changes bytes that are sent, and returns the reply of the chip. ABh wakes a
/// chip from deep power-down within 3 microseconds (W25Q64FV datasheet, Release Power-down).
///
/// The frame contains 0Dh and 0Ah, which the output settings `ocrnl` and `onlcr` of a port change (stty(1)). The
/// version that is queried next is then read wrongly, and `ChangesBytes` is returned. If the programmer's limits are
/// too low for this frame, only ABh is sent, the port isn't checked, and each byte of the result is FFh.
pub fn wake<P: Port<Cause = PortFault> + Drop>(
    link: &mut Link<P>,
    programmer: &AnyProgrammer,
) -> Result<[u8; WAKE_REPLIES as usize], ProgrammerFault>
    ensures harmless { StaysHarmless (asked_over P.state link.old) (asked_over P.state link.new) }
    ensures nature { (P.state (port_of link.new)).honest ≡ (P.state (port_of link.old)).honest }
    ensures looks { AwaitsCommand (P.state (port_of link.old)) → is_in_step link.old ≡ true
        → EndsLooking P.state result link.old link.new }
{
    let mut reply = [0xFF; WAKE_REPLIES as usize];
    if programmer.longest_part() < WAKE.len() as u32 || programmer.longest_read() < WAKE_REPLIES {
        let release = Command::Operate {
            out: &WAKE[..1],
            replies: 0,
        };
        exchange(link, release, &mut []).map_err(ProgrammerFault::Handshake)?;
        return Ok(reply);
    }
    let release = Command::Operate {
        out: &WAKE,
        replies: WAKE_REPLIES,
    };
    exchange(link, release, &mut reply).map_err(|fault| of_changed(fault))?;
    let mut version = [0; 2];
    exchange(link, Command::QueryInterface, &mut version).map_err(|fault| of_changed(fault))?;
    if version != [1, 0] {
        return Err(ProgrammerFault::ChangesBytes);
    }
    Ok(reply)
}

fn exchange<P: Port<Cause = PortFault> + Drop>(
    link: &mut Link<P>,
    command: Command<'_>,
    reply: &mut [u8],
) -> Result<(), HandshakeFault<PortFault>>
    requires reads { ModifiesNothing command }
    ensures harmless { StaysHarmless (asked_over P.state link.old) (asked_over P.state link.new) }
    ensures nature { (P.state (port_of link.new)).honest ≡ (P.state (port_of link.old)).honest }
    ensures looks { AwaitsCommand (P.state (port_of link.old)) → is_in_step link.old ≡ true
        → IsLook command.entry (length reply.old) → EndsLooking P.state result link.old link.new }
{
    link.exchange(command, reply)
        .map_err(HandshakeFault::Failure)
}

// Returns a failure of the port as it is, and `ChangesBytes` for any other failure.
fn of_changed(fault: HandshakeFault<PortFault>) -> ProgrammerFault {
    match fault {
        HandshakeFault::Failure(Failure::Port(_)) => ProgrammerFault::Handshake(fault),
        _ => ProgrammerFault::ChangesBytes,
    }
}

//! Finds out whether a chip replies, and tries to free a chip that was left in QPI mode.

ghost use Rattle.std.specs.Prelude.{◌≡◌, true};
ghost use Rattle.nor_serprog.specs.Harmless.{StaysHarmless};
ghost use Rattle.nor_serprog.specs.Link.{is_in_step, port_of};
ghost use Rattle.nor_serprog.specs.Replies.{AwaitsCommand};
ghost use Rattle.serprog_board.specs.Looking.{EndsLooking};
ghost use Rattle.serprog_board.specs.Ports.{asked_over};

use crate::port_fault::PortFault;
use crate::transactions::operate;
use nor_serprog::{Failure, Link, Port};
use std::thread;
use std::time::Duration;

// The byte that is received if no chip drives the line, and a pull-up holds it high.
const IDLE: u8 = 0xFF;

// 9Fh and 05h are sent up to `TIMES` times, until 05h returns a byte other than FFh. A pause of `PAUSE` milliseconds
// follows each time without such a byte.
const TIMES: u32 = 10;

const PAUSE: u64 = 150;

const SIGNATURE: [u8; 4] = [b'S', b'F', b'D', b'P'];

/// What replies at the programmer before a job.
#[derive(Clone, Copy)]
pub enum Contact {
    /// A chip, which may be busy.
    Present,
    /// Nothing: only FFh is received, for example because a clip has no contact.
    Missing,
    /// A device that has an ID, but neither status 1 nor SFDP: no SPI NOR flash.
    NoStatus,
}

/// Returns what replies to 9Fh (Read ID) and 05h (Read Status Register-1). `heard` is an earlier reply: if it has a
/// byte other than FFh, a chip is present, and nothing is sent. If status 1 is FFh for 1.5 seconds, and the last 9Fh in
/// this time returns only FFh, sends what can free a chip from another mode (`leave_modes`) and then 9Fh again. If that
/// returns an ID, a chip is present.
///
/// If status 1 is FFh for 1.5 seconds, but the last 9Fh in this time returns an ID, the device counts as a chip only if
/// it has SFDP. A busy chip whose status 1 is FFh for 1.5 seconds can't be distinguished from a missing chip.
pub fn look_for_chip<P: Port<Cause = PortFault> + Drop>(
    rt: &HostRuntime,
    link: &mut Link<P>,
    heard: &[u8],
) -> Result<Contact, Failure<PortFault>>
    ensures harmless { StaysHarmless (asked_over P.state link.old) (asked_over P.state link.new) }
    ensures nature { (P.state (port_of link.new)).honest ≡ (P.state (port_of link.old)).honest }
    ensures looks { AwaitsCommand (P.state (port_of link.old)) → is_in_step link.old ≡ true
        → EndsLooking P.state result link.old link.new }
{
    if !is_idle(heard) {
        return Ok(Contact::Present);
    }
    let mut has_id = false;
    for _ in 0..TIMES {
        has_id = returns_id(link)?;
        if returns_status(link)? {
            return Ok(Contact::Present);
        }
        thread::sleep(&rt, Duration::from_millis(PAUSE));
    }
    if has_id {
        return match returns_sfdp(link)? {
            true => Ok(Contact::Present),
            false => Ok(Contact::NoStatus),
        };
    }
    leave_modes(link)?;
    match returns_id(link)? {
        true => Ok(Contact::Present),
        false => Ok(Contact::Missing),
    }
}

/// Sends FFh and then FFh FFh, each as one transaction, to a chip that seems to be missing. (The facts below are
/// cited from memory, from the instruction sets in datasheets.)
///
/// In QPI mode a chip receives each byte over four lines in two clocks. WP#, HOLD# and the line for replies are high,
/// so FFh on the data input is FFh for the chip. Chips of Winbond, GigaDevice, Eon and Microchip then leave QPI mode.
/// In a continuous read over two or four lines, FFh FFh also sets all mode bits, which ends the read.
///
/// Other opcodes that leave QPI mode (F5h, 66h with 99h) are not sent: in QPI mode they need WP# or HOLD# to be low,
/// and 66h with 99h would interrupt the erase of a busy chip.
///
/// A chip that receives FFh over one line ends a continuous read or quad mode, or ignores FFh. A SPI NAND resets
/// itself, which interrupts nothing, because its operations take at most 10 ms, and 9Fh and 05h were sent for
/// 1.5 seconds before.
fn leave_modes<P: Port<Cause = PortFault> + Drop>(
    link: &mut Link<P>,
) -> Result<(), Failure<PortFault>>
    ensures harmless { StaysHarmless (asked_over P.state link.old) (asked_over P.state link.new) }
    ensures nature { (P.state (port_of link.new)).honest ≡ (P.state (port_of link.old)).honest }
    ensures looks { AwaitsCommand (P.state (port_of link.old)) → is_in_step link.old ≡ true
        → EndsLooking P.state result link.old link.new }
{
    operate(link, &[0xFF], &mut [])?;
    operate(link, &[0xFF, 0xFF], &mut [])
}

// Returns whether the reply to 9Fh has a byte other than FFh.
fn returns_id<P: Port<Cause = PortFault> + Drop>(
    link: &mut Link<P>,
) -> Result<bool, Failure<PortFault>>
    ensures harmless { StaysHarmless (asked_over P.state link.old) (asked_over P.state link.new) }
    ensures nature { (P.state (port_of link.new)).honest ≡ (P.state (port_of link.old)).honest }
    ensures looks { AwaitsCommand (P.state (port_of link.old)) → is_in_step link.old ≡ true
        → EndsLooking P.state result link.old link.new }
{
    let mut id = [0; 3];
    operate(link, &[0x9F], &mut id)?;
    Ok(!is_idle(&id))
}

// Returns whether the reply to 05h is a byte other than FFh.
fn returns_status<P: Port<Cause = PortFault> + Drop>(
    link: &mut Link<P>,
) -> Result<bool, Failure<PortFault>>
    ensures harmless { StaysHarmless (asked_over P.state link.old) (asked_over P.state link.new) }
    ensures nature { (P.state (port_of link.new)).honest ≡ (P.state (port_of link.old)).honest }
    ensures looks { AwaitsCommand (P.state (port_of link.old)) → is_in_step link.old ≡ true
        → EndsLooking P.state result link.old link.new }
{
    let mut status = [0; 1];
    operate(link, &[0x05], &mut status)?;
    Ok(!is_idle(&status))
}

// Returns whether the reply to 5Ah (Read SFDP) begins with `SFDP` (JESD216).
fn returns_sfdp<P: Port<Cause = PortFault> + Drop>(
    link: &mut Link<P>,
) -> Result<bool, Failure<PortFault>>
    ensures harmless { StaysHarmless (asked_over P.state link.old) (asked_over P.state link.new) }
    ensures nature { (P.state (port_of link.new)).honest ≡ (P.state (port_of link.old)).honest }
    ensures looks { AwaitsCommand (P.state (port_of link.old)) → is_in_step link.old ≡ true
        → EndsLooking P.state result link.old link.new }
{
    let mut signature = [0; 4];
    operate(link, &[0x5A, 0, 0, 0, 0], &mut signature)?;
    Ok(signature == SIGNATURE)
}

fn is_idle(reply: &[u8]) -> bool {
    reply.iter().all(|byte| *byte == IDLE)
}

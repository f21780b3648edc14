//! Reaches the chip at a programmer: identifies the programmer, wakes the chip, and looks for it.
ghost use Rattle.std.specs.Prelude.{◌≡◌, ℕ, true, false, IfOk, Option};
ghost use Rattle.nor_serprog.specs.Harmless.{StaysHarmless};
ghost use Rattle.nor_serprog.specs.Identify.{IsAnyProgrammerOf};
ghost use Rattle.nor_serprog.specs.Link.{is_cut, is_in_step, port_of};
ghost use Rattle.nor_serprog.specs.Replies.{AwaitsCommand};
ghost use Rattle.serprog_board.specs.Looking.{EndsLooking};
ghost use Rattle.serprog_board.specs.Ports.{asked_over};

use crate::board::Unconnected;
use crate::contact::{Contact, look_for_chip};
use crate::port_fault::PortFault;
use crate::programmer_fault::ProgrammerFault;
use crate::setting::Setting;
use crate::trial_reads::try_reads;
use crate::waking::wake;
use board_progress::Terminal;
use nor_serprog::{AnyProgrammer, Failure, HandshakeFault, Link, Port};
use std::fmt;

/// Identifies the programmer over a new link. Sets its clock and its chip select if `setting` has them. Wakes the chip,
/// makes trial reads (`try_reads`), and looks for the chip after each of the two (`expect_chip`). Before the first
/// exchange, logs and shows what to do if no reply ever arrives.
///
/// Returns a programmer fault from 4 to 12, 14 or 15 if a step fails, or an error of `expect_chip`. The port is asked
/// for no transaction that may modify a chip.
///
/// If the port is well-behaved, the programmer is idle and the link isn't `Sync::Cut`, each journal that could restore
/// the original chip before this call still can, even if a step fails or the chip loses its power (`OnlyLooks`). After
/// success the programmer is idle, the link is in step, and the values returned are those of the programmer's firmware.
pub fn reach_chip<P: Port<Cause = PortFault> + Drop>(
    rt: &HostRuntime,
    link: &mut Link<P>,
    terminal: Terminal<'_>,
    setting: &Setting<'_>,
) -> Result<AnyProgrammer, Unconnected>
    ensures harmless { StaysHarmless (asked_over P.state link.old) (asked_over P.state link.new) }
    ensures nature { (P.state (port_of link.new)).honest ≡ (P.state (port_of link.old)).honest }
    ensures looks { AwaitsCommand (P.state (port_of link.old)) → is_cut link.old ≡ false
        → EndsLooking P.state result link.old link.new }
    ensures reported { AwaitsCommand (P.state (port_of link.old)) → is_cut link.old ≡ false
        → IfOk result (IsAnyProgrammerOf (P.state (port_of link.old)).device.firmware setting.now.hertz) }
{
    terminal.print_waiting();
    let programmer = identify(link, setting.hertz)?;
    report_higher_clock(terminal, setting.hertz, programmer.frequency());
    select(link, &programmer, setting.chip_select)?;
    let woken = wake(link, &programmer)?;
    expect_chip(rt, link, &woken)?;
    try_reads(link, &programmer)?;
    // If the contact was lost since the chip woke, the job's first poll would wait for a chip that isn't there.
    expect_chip(rt, link, &[])?;
    Ok(programmer)
}

// The length in bytes of a unique ID, which must be read in one transaction.
const UNIQUE_LEN: u32 = 8;

// Identifies the programmer. Returns the fault of `AnyProgrammer::identify`, or `ReadLimit` if a transaction can't read
// the eight bytes of a unique ID.
fn identify<P: Port<Cause = PortFault> + Drop>(
    link: &mut Link<P>,
    hertz: Option<u32>,
) -> Result<AnyProgrammer, ProgrammerFault>
    ensures harmless { StaysHarmless (asked_over P.state link.old) (asked_over P.state link.new) }
    ensures nature { (P.state (port_of link.new)).honest ≡ (P.state (port_of link.old)).honest }
    ensures looks { AwaitsCommand (P.state (port_of link.old)) → is_cut link.old ≡ false
        → EndsLooking P.state result link.old link.new }
    ensures reported { AwaitsCommand (P.state (port_of link.old)) → is_cut link.old ≡ false
        → IfOk result (IsAnyProgrammerOf (P.state (port_of link.old)).device.firmware hertz) }
{
    let programmer = AnyProgrammer::identify(link, hertz).map_err(ProgrammerFault::Handshake)?;
    match programmer.longest_read() {
        most if most < UNIQUE_LEN => {
            Err(ProgrammerFault::Handshake(HandshakeFault::ReadLimit(most)))
        }
        _ => Ok(programmer),
    }
}

// Sets the chip select of the programmer, if one is given. Returns the fault of `AnyProgrammer::select_chip`.
fn select<P: Port<Cause = PortFault> + Drop>(
    link: &mut Link<P>,
    programmer: &AnyProgrammer,
    chip_select: Option<u8>,
) -> Result<(), ProgrammerFault>
    ensures harmless { StaysHarmless (asked_over P.state link.old) (asked_over P.state link.new) }
    ensures nature { (P.state (port_of link.new)).honest ≡ (P.state (port_of link.old)).honest }
    ensures looks { (hertz : Option ℕ) → AwaitsCommand (P.state (port_of link.old)) → is_in_step link.old ≡ true
        → IsAnyProgrammerOf (P.state (port_of link.old)).device.firmware hertz programmer.now
        → EndsLooking P.state result link.old link.new }
{
    match chip_select {
        Some(number) => programmer
            .select_chip(link, number)
            .map_err(ProgrammerFault::Handshake),
        None => Ok(()),
    }
}

// Prints a line if the clock that the programmer set is higher than that of `spispeed=`. Both are in hertz.
fn report_higher_clock(terminal: Terminal<'_>, asked: Option<u32>, set: Option<u32>) {
    match (asked, set) {
        (Some(asked), Some(set)) if set > asked => {
            terminal.print_shown(&HigherClock { asked, set });
        }
        _ => {}
    }
}

#[derive(Clone, Copy)]
struct HigherClock {
    asked: u32,
    set: u32,
}

impl fmt::Display for HigherClock {
    fn fmt<W: fmt::Write>(&self, f: &mut fmt::Formatter<W>) -> fmt::Result {
        write!(
            f,
            "The programmer set its clock to {} Hz, above the {} Hz of spispeed=.",
            self.set, self.asked
        )
    }
}

// Returns `NoChip` if no chip replies, `NoStatus` if a device has an ID, but neither status 1 nor SFDP, or the fault of
// an exchange that failed.
fn expect_chip<P: Port<Cause = PortFault> + Drop>(
    rt: &HostRuntime,
    link: &mut Link<P>,
    woken: &[u8],
) -> Result<(), Unconnected>
    ensures harmless { StaysHarmless (asked_over P.state link.old) (asked_over P.state link.new) }
    ensures nature { (P.state (port_of link.new)).honest ≡ (P.state (port_of link.old)).honest }
    ensures looks { AwaitsCommand (P.state (port_of link.old)) → is_in_step link.old ≡ true
        → EndsLooking P.state result link.old link.new }
{
    match look_for_chip(rt, link, woken).map_err(|failure| of_failure(failure))? {
        Contact::Present => Ok(()),
        Contact::Missing => Err(Unconnected::NoChip),
        Contact::NoStatus => Err(Unconnected::NoStatus),
    }
}

fn of_failure(failure: Failure<PortFault>) -> ProgrammerFault {
    ProgrammerFault::Handshake(HandshakeFault::Failure(failure))
}

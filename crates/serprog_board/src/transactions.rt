//! SPI transactions that modify nothing.
ghost use Rattle.std.specs.Prelude.{◌≡◌, ◌≤◌, true, IfErr, length};
ghost use Rattle.nor_serprog.specs.Harmless.{StaysHarmless, begins_harmless};
ghost use Rattle.nor_serprog.specs.Link.{is_in_step, port_of};
ghost use Rattle.nor_serprog.specs.Replies.{AwaitsCommand, IsNoRefusal};
ghost use Rattle.serprog_board.specs.Looking.{EndsLooking};
ghost use Rattle.serprog_board.specs.Ports.{asked_over};

use crate::port_fault::PortFault;
use nor_serprog::{Command, Failure, Link, Port};

/// Makes one SPI transaction that sends `out` and then fills `reply`, and returns the failure of `Link::exchange` if it
/// fails. `out` must begin with an opcode that only reads, wakes a chip or ends a mode (`is_harmless_opcode`).
///
/// If the port is well-behaved and the programmer is idle, the programmer doesn't refuse the transaction.
pub fn operate<P: Port<Cause = PortFault> + Drop>(
    link: &mut Link<P>,
    out: &[u8],
    reply: &mut [u8],
) -> Result<(), Failure<PortFault>>
    requires few { length reply.old ≤ 256 }
    requires reads { begins_harmless out.now ≡ true }
    ensures harmless { StaysHarmless (asked_over P.state link.old) (asked_over P.state link.new) }
    ensures nature { (P.state (port_of link.new)).honest ≡ (P.state (port_of link.old)).honest }
    ensures looks { AwaitsCommand (P.state (port_of link.old)) → is_in_step link.old ≡ true
        → EndsLooking P.state result link.old link.new }
    ensures unrefused { AwaitsCommand (P.state (port_of link.old)) → IfErr result IsNoRefusal }
{
    let command = Command::Operate {
        out,
        replies: reply.len() as u32,
    };
    link.exchange(command, reply)
}

//! Connects to the chip at a programmer that speaks serprog, over any port.
ghost use Rattle.std.specs.Prelude.{◌≡◌, ◌≤◌, ◌+◌, [], IfOk, option_map, true};
ghost use Rattle.nor_serprog.specs.Device.{IsIdle};
ghost use Rattle.nor_serprog.specs.Harmless.{IsHarmlessSince};
ghost use Rattle.nor_serprog.specs.Replies.{AwaitsCommand};
ghost use Rattle.serprog_board.specs.Reached.{ReachesChip};
ghost use Rattle.serprog_board.specs.Unused.{IsUnused};

use crate::board::{Board, Unconnected};
use crate::board_bus::{BoardBus, Layers, board_over};
use crate::port_fault::PortFault;
use crate::reaching::reach_chip;
use crate::rules::Rules;
use crate::setting::Setting;
use board_progress::Terminal;
use nor_model::Bus;
use nor_serprog::{Link, Port};

/// Reaches the chip over a port over which nothing was sent yet (`reach_chip`), and returns the bus to it. The bus has
/// carried out no transaction yet, and the port was asked for no transaction that may modify a chip (`harmless`).
/// `image` is passed to `board_over`.
///
/// If the port is well-behaved, its programmer must be idle. Then the bus has the chip as it was (`reaches`).
pub fn connect_over<'b, P: Port<Cause = PortFault> + Drop>(
    rt: &'b HostRuntime,
    port: P,
    terminal: Terminal<'_>,
    setting: &Setting<'_>,
    image: Option<Vec<u8>>,
    rules: Rules,
) -> Result<BoardBus<Layers<P, &'b HostRuntime>>, Unconnected>
    requires unasked { (P.state port).asked ≡ [] }
    requires idle { (P.state port).honest ≡ true → IsIdle (P.state port).device }
    ensures fresh { IfOk result (λ board. IsUnused (⟦<BoardBus<Layers<P, &'b HostRuntime>> as Bus>⟧.state board)) }
    ensures expects { IfOk result (λ board. ⟦<BoardBus<Layers<P, &'b HostRuntime>> as Board>⟧.expected board
        ≡ option_map (λ image. image.items) image) }
    ensures harmless { IfOk result (λ board.
        IsHarmlessSince [] (⟦<BoardBus<Layers<P, &'b HostRuntime>> as Board>⟧.asked board)) }
    ensures blocks { IfOk result (λ board. ⟦<BoardBus<Layers<P, &'b HostRuntime>> as Board>⟧.reads_most board
        ≤ 4096 + (⟦<BoardBus<Layers<P, &'b HostRuntime>> as Bus>⟧.state board).longer) }
    ensures reaches { AwaitsCommand (P.state port) → IfOk result (λ board.
        ReachesChip (P.state port) (⟦<BoardBus<Layers<P, &'b HostRuntime>> as Bus>⟧.state board)) }
{
    let mut link = Link::new(port);
    let programmer = reach_chip(rt, &mut link, terminal, setting)?;
    Ok(board_over(link, rt, programmer, image, rules))
}

//! The bus to a chip on a board: all layers below those that read ahead and show the progress.
ghost use Rattle.std.proofs.Common.{subst};
ghost use Rattle.std.proofs.Math.Logic.{∥∥₁_map};
ghost use Rattle.std.specs.Prelude.{◌≡◌, ◌≤◌, ◌+◌, [], false, option_map, true};
ghost use Rattle.nor_model.specs.Passed.{ArePassedOn};
ghost use Rattle.nor_model.specs.Sent.{Sent};
ghost use Rattle.nor_serprog.specs.Batch.{IsSettledFor};
ghost use Rattle.nor_serprog.specs.Harmless.{IsHarmlessSince};
ghost use Rattle.nor_serprog.specs.Link.{port_of};
ghost use Rattle.nor_serprog.specs.Programmer.{any_buffer_of};
ghost use Rattle.serprog_board.specs.BoardBus.{FitsBoard, FitsMakers, IsOver};
ghost use Rattle.serprog_board.specs.BoardBus.{layers_of, longest_read_of, reader_in};
ghost use Rattle.serprog_board.specs.Unused.{IsUnused};

use crate::board::{Board, Causes};
use crate::carrier::{PortLayers, over_port};
use crate::port_fault::PortFault;
use crate::reader::{Reader, ReadingLayers, reading};
use crate::rules::Rules;
use nor_buses::{Accounted, ChangedByte, ChipIds, KeptQuad, KnownStatus2, OtherMakers, SameChip};
use nor_model::{Bus, Stopped};
use nor_serprog::{AnyProgrammer, Link, Port};
use std::time::Clock;

/// The bus to the chip at a serial programmer, over the layers `L`. ARCHITECTURE describes the layers and their order.
#[derive(Drop)]
pub struct BoardBus<L: Bus> {
    layers: Accounted<L>,
    // the greatest number of bytes that a transaction may read
    longest_read: u32,
}

/// The layers over the bus `T` that treat other makers' chips as the engine expects, and compare the unique ID.
pub type MakersLayers<T> = SameChip<OtherMakers<KeptQuad<KnownStatus2<T>>>>;

/// All layers over the port `P`, with the clock `C` for the pauses between polls.
pub type Layers<P, C> = MakersLayers<ReadingLayers<PortLayers<P, C>>>;

// The IDs in nor_probe's table of chips. These chips return status 2 for 35h (datasheets, Read Status Register-2).
const WITH_ROW: [[u8; 3]; 9] = [
    [0xEF, 0x40, 0x16],
    [0xEF, 0x40, 0x17],
    [0xEF, 0x40, 0x18],
    [0xEF, 0x60, 0x16],
    [0xEF, 0x60, 0x17],
    [0xEF, 0x60, 0x18],
    [0xEF, 0x70, 0x16],
    [0xEF, 0x70, 0x17],
    [0xEF, 0x70, 0x18],
];

/// Returns an unused bus to the chip at the programmer of `link`. Sectors that equal `image` at their addresses are
/// read once, other data twice. `image` must be that of `-v` or of a write whose result is compared, because data that
/// was read only once must not get into a journal. So far only harmless calls may have been made.
///
/// If the port is well-behaved and the link in step, the programmer must be idle, and its serial buffer must have at
/// least the size that `programmer` reports. Then the bus is well-behaved if its programmer and its chip fit
/// (`FitsBoard`).
pub fn board_over<P: Port<Cause = PortFault> + Drop, C: Clock + Drop>(
    link: Link<P>,
    clock: C,
    programmer: AnyProgrammer,
    image: Option<Vec<u8>>,
    rules: Rules,
) -> BoardBus<Layers<P, C>>
    requires harmless { IsHarmlessSince [] (P.state (port_of link)).asked }
    requires settled { IsSettledFor (any_buffer_of programmer) P.state link }
    ensures fresh { IsUnused (⟦<BoardBus<Layers<P, C>> as Bus>⟧.state result) }
    ensures expects { ⟦<BoardBus<Layers<P, C>> as Board>⟧.expected result ≡ option_map (λ image. image.items) image }
    ensures harmless { IsHarmlessSince [] (⟦<BoardBus<Layers<P, C>> as Board>⟧.asked result) }
    ensures honest { FitsBoard programmer (P.state (port_of link))
        → (⟦<BoardBus<Layers<P, C>> as Bus>⟧.state result).honest ≡ true }
    ensures chip { (⟦<BoardBus<Layers<P, C>> as Bus>⟧.state result).chip ≡ (P.state (port_of link)).device.chip }
    ensures further { (⟦<BoardBus<Layers<P, C>> as Bus>⟧.state result).further ≡ true }
    ensures steady { (⟦<BoardBus<Layers<P, C>> as Bus>⟧.state result).steady ≡ false }
    ensures blocks { longest_read_of result ≤ 4096 + (⟦<BoardBus<Layers<P, C>> as Bus>⟧.state result).longer }
{
    let longest_read = programmer.longest_read();
    let carrier = over_port(link, clock, programmer);
    let longest_part = programmer.longest_part();
    let reader = reading(carrier, longest_part, longest_read, rules.checks, image);
    account_for(for_makers(reader, rules), longest_read)
}

// Returns the layers over `reader`, with these rules.
fn for_makers<T: Reader + Drop>(reader: T, rules: Rules) -> MakersLayers<T>
    ensures fresh { IsUnused (⟦<MakersLayers<T> as Bus>⟧.state result) }
    ensures over { IsOver (T.state reader) (⟦<MakersLayers<T> as Bus>⟧.state result) }
    ensures honest { FitsMakers (T.state reader) → (⟦<MakersLayers<T> as Bus>⟧.state result).honest ≡ true }
    ensures longer { (⟦<MakersLayers<T> as Bus>⟧.state result).longer ≡ (T.state reader).longer }
    ensures reader { reader_in result ≡ reader }
{
    let known = KnownStatus2::new(reader, ChipIds::from(WITH_ROW), rules.before);
    let kept = KeptQuad::new(known, ChipIds::from(WITH_ROW), rules.hides_quad);
    let other = OtherMakers::new(
        kept,
        ChipIds::from(WITH_ROW),
        rules.missing_unique,
        rules.refuses_uneven,
    );
    SameChip::new(other)
}

fn account_for<L: Bus + Drop>(layers: L, longest_read: u32) -> BoardBus<L>
    requires { ∥ ArePassedOn (L.state layers).sent (L.state layers).passed ∥₁ }
    ensures layers { layers_of result ≡ layers }
    ensures reads { longest_read_of result ≡ longest_read }
{
    BoardBus {
        layers: Accounted::new(layers),
        longest_read,
    }
}

impl<L: Bus> Bus for BoardBus<L> {
    ghost state = { λ board. L.state (layers_of board) };

    ghost reaches = { λ board honest. L.reaches (layers_of board) honest };

    fn transfer(&mut self, out: &[u8], reply: &mut [u8]) -> Result<(), Stopped> {
        self.layers.transfer(out, reply)
    }

    fn has_further_types(&self) -> bool {
        self.layers.has_further_types()
    }
}

impl<T: Reader + Drop> BoardBus<MakersLayers<T>> {
    fn makers(&self) -> &OtherMakers<KeptQuad<KnownStatus2<T>>> {
        self.layers.inner().inner()
    }

    fn reader(&self) -> &T {
        self.makers().inner().inner().inner()
    }
}

impl<T: Reader + Drop> Board for BoardBus<MakersLayers<T>> {
    ghost expected = { λ board. T.expected (reader_in (layers_of board)) };

    ghost asked = { λ board. T.asked (reader_in (layers_of board)) };

    ghost reads_most = { longest_read_of };

    ghost accounts = { λ board. let on = T.passes (reader_in (layers_of board)) in
        let state = ⟦<MakersLayers<T> as Bus>⟧.state (layers_of board) in
        ∥∥₁_map board.layers.accounted
        (λ passed. (on.waits, subst (λ (later : Sent). ArePassedOn state.sent later) on.is passed)) };

    fn longest_read(&self) -> u32 {
        self.longest_read
    }

    fn has_small_pages(&self) -> bool {
        self.makers().has_small_pages()
    }

    fn has_begun(&self) -> bool {
        self.reader().has_begun()
    }

    fn changed_byte(&self) -> Option<ChangedByte> {
        self.reader().changed_byte()
    }

    fn causes(&self) -> Causes<'_> {
        let below = self.reader().causes();
        Causes {
            other: self.layers.inner().other(),
            ..below
        }
    }
}

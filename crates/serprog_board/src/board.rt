//! The traits of a bus to a chip on a board that also knows why a transaction failed, and of a connector to it.
ghost use Rattle.std.specs.Prelude.{◌≡◌, ◌+◌, ◌≤◌, [], IfOk, List, Option, option_map, ℕ};
ghost use Rattle.nor_args.specs.Text.{Text};
ghost use Rattle.nor_serprog.specs.Harmless.{IsHarmlessSince};
ghost use Rattle.serprog_board.specs.Unused.{IsUnused};
ghost use Rattle.serprog_board.specs.Wired.{AsksOnly};

use crate::port_fault::PortFault;
use crate::programmer_fault::ProgrammerFault;
use crate::rules::Rules;
use crate::setting::Setting;
use board_progress::{ProgressBus, Terminal};
use nor_buses::{ChangedByte, CheckFault, OtherChip, ReadAhead};
use nor_model::Bus;
use nor_serprog::Failure;

/// What the layers of a bus found out about a transaction that stopped. The first field that contains a cause explains
/// the stop.
#[derive(Clone, Copy)]
pub struct Causes<'a> {
    /// The two unique IDs that were read, if they differed before the first modifying command.
    pub other: Option<OtherChip>,
    pub failure: Option<&'a Failure<PortFault>>,
    pub status: Option<CheckFault>,
    /// True if the chip lost its contact or its supply while the job waited for it.
    pub is_lost: bool,
    /// True if two reads of the same bytes differed.
    pub differed: bool,
}

/// A bus to a chip on a board.
pub trait Board: Bus {
    // The image that the bus expects, if any. Sectors that equal it at their addresses are read once, other data twice.
    ghost expected: { Self → Option (List ℕ) };

    // The bytes that the port was asked to send: one list for each call, with the last call first.
    ghost asked: { Self → List (List ℕ) };

    // The greatest number of bytes that a transaction may read.
    ghost reads_most: { Self → ℕ };

    /// Returns the greatest number of bytes that a transaction may read.
    fn longest_read(&self) -> u32
        ensures { result ≡ reads_most self.now };

    /// Returns whether the chip's SFDP says that its pages have fewer than 256 bytes.
    fn has_small_pages(&self) -> bool;

    /// Returns whether a modifying command may have been sent.
    fn has_begun(&self) -> bool;

    /// Returns the change of received bytes that the port seems to make, or `None`.
    fn changed_byte(&self) -> Option<ChangedByte>;

    fn causes(&self) -> Causes<'_>;

    // A law: the port was asked only for what the bus was asked for.
    ghost accounts: { (board : Self) → AsksOnly (asked board) (Self.state board).sent };
}

/// The bus of a job, which reads ahead and shows the progress of the job.
pub type ChipBus<'a, B> = ProgressBus<'a, ReadAhead<B>>;

/// Returns the inner bus, which knows why a transaction failed.
pub fn board_in<'b, B: Board + Drop>(bus: &'b ChipBus<'_, B>) -> &'b B {
    bus.inner().inner()
}

/// Why there is no bus to a chip.
#[derive(Drop)]
pub enum Unconnected {
    Programmer(ProgrammerFault),
    /// No chip replies.
    NoChip,
    /// A device has an ID, but neither status 1 nor SFDP.
    NoStatus,
}

impl From<ProgrammerFault> for Unconnected {
    ghost use Rattle.serprog_board.specs.declared.board.Unconnected.TheVariants as unconnected;

    ghost from_gives = { λ fault ended. ended ≡ unconnected.Programmer fault };

    fn from(fault: ProgrammerFault) -> Unconnected {
        Unconnected::Programmer(fault)
    }
}

/// Connects to chips on boards.
pub trait Connector {
    type Board: Board + Drop;

    // Holds if `connect` may return this bus for the device with this name.
    ghost finds: { Text → Self.Board → Type 0 };

    /// Connects to the chip at the programmer that `-p` describes. The bus has carried out no transaction yet, and its
    /// port was asked for no transaction that may modify a chip. If the bus is well-behaved, it takes reads of up to
    /// `longest_read` bytes (`blocks`). The bus expects `image`, which must be that of `-v` or of a write whose result
    /// is compared.
    fn connect(
        &mut self,
        terminal: Terminal<'_>,
        setting: &Setting<'_>,
        image: Option<Vec<u8>>,
        rules: Rules,
    ) -> Result<Self::Board, Unconnected>
        ensures fresh { IfOk result (λ board. IsUnused (Self.Board.state board)) }
        ensures finds { IfOk result (λ board. finds setting.now.device.now board) }
        ensures blocks { IfOk result (λ board.
            Self.Board.reads_most board ≤ 4096 + (Self.Board.state board).longer) }
        ensures expects { IfOk result (λ board.
            Self.Board.expected board ≡ option_map (λ image. image.items) image) }
        ensures harmless { IfOk result (λ board. IsHarmlessSince [] (Self.Board.asked board)) };
}

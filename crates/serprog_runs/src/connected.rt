//! The bus of a job, and the name of its programmer's device.
ghost use Rattle.std.specs.Prelude.{◌≡◌, IfOk, option_map, string_bytes};
ghost use Rattle.nor_buses.specs.Ahead.{ahead_of};
ghost use Rattle.board_progress.specs.ProgressBus.{shown_bus};
ghost use Rattle.serprog_runs.specs.Connected.{IsAhead, device_of};
ghost use Rattle.serprog_board.specs.Unused.{IsUnused};

use crate::run_fault::RunFault;
use board_progress::{ProgressBus, Terminal};
use nor_buses::ReadAhead;
use nor_console::Fault;
use nor_model::Bus;
use nor_probe::SfdpFault;
use nor_session::Refusal;
use serprog_board::{Board, ChipBus, Connector, Rules, Setting, Unconnected};
use std::alloc::Global;

/// A bus to the chip at a programmer, with the name of the programmer's device. Only `connect_by` creates this type.
#[derive(Drop)]
pub struct Connected<B> {
    device: String,
    pub bus: B,
}

// The error for a device that has an ID, but neither status 1 nor SFDP.
const NO_STATUS: Refusal = Refusal::UnknownChip(SfdpFault::Signature);

/// Connects to the programmer that `-p` describes. Returns one of these faults:
///
/// - usage fault 10 if memory runs out
/// - error 1 if no chip replies
/// - error 2 if a device has an ID, but neither status 1 nor SFDP
/// - a programmer fault, with the name of the device
pub fn connect_by<'a, 'b, D: Connector>(
    connector: &mut D,
    alloc: Global,
    terminal: Terminal<'b>,
    setting: &Setting<'a>,
    image: Option<Vec<u8>>,
    rules: Rules,
) -> Result<Connected<ChipBus<'b, D::Board>>, RunFault<'a>>
    ensures fresh { IfOk result (λ connected. IsUnused (⟦<ChipBus<'b, D::Board> as Bus>⟧.state connected.bus)) }
    ensures finds { IfOk result (λ connected. D.finds (device_of connected) (ahead_of (shown_bus connected.bus))) }
    ensures ahead { IfOk result (λ connected. IsAhead (D.Board.state (ahead_of (shown_bus connected.bus)))
        (⟦<ChipBus<'b, D::Board> as Bus>⟧.state connected.bus)) }
    ensures named { IfOk result (λ connected. device_of connected ≡ setting.now.device.now) }
    ensures expects { IfOk result (λ connected. D.Board.expected (ahead_of (shown_bus connected.bus))
        ≡ option_map (λ image. image.items) image) }
{
    let device = name_of(alloc, setting.device)?;
    match connector.connect(terminal, setting, image, rules) {
        Ok(board) => {
            let longest_read = board.longest_read();
            let ahead = ReadAhead::new(board, longest_read);
            let bus = ProgressBus::new(ahead, terminal, rules.checks.status_write());
            Ok(Connected { device, bus })
        }
        Err(unconnected) => {
            terminal.end_line();
            Err(match unconnected {
                Unconnected::NoChip => RunFault::Fault(Fault::Refused(Refusal::NoChip)),
                Unconnected::NoStatus => RunFault::Fault(Fault::Refused(NO_STATUS)),
                Unconnected::Programmer(fault) => RunFault::Programmer {
                    fault,
                    device: setting.device,
                },
            })
        }
    }
}

// Returns a copy of the name of a device. Returns usage fault 10 if memory runs out.
fn name_of<'a>(alloc: Global, device: &str) -> Result<String, Fault<'a>>
    ensures { IfOk result (λ name. string_bytes name ≡ device.now) }
{
    match String::from_str(alloc, device) {
        Ok(name) => Ok(name),
        Err(_) => Err(Fault::out_of_memory()),
    }
}

//! Operations: each sends a write enable and a modifying command, and then waits until the chip is ready.

ghost use Rattle.std.specs.Prelude.{◌≡◌, ◌<◌, ◌≤◌, ◌+◌, ◌*◌, ◌%◌, ◌^◌, ◌⊎◌, true, [], ◌∷◌, length, IfOk, IfErr, OnOk};
ghost use Rattle.nor_model.specs.Sent.{with_sent};
ghost use Rattle.nor_driver.specs.Waits.{OperationFails, NamesTimeout};
ghost use Rattle.nor_driver.specs.Operations.{BytesNameAddress, IsCommandAt, AsksForOperation, SendsEnable, LeavesOperation, Operates, command_operation, most_operation};
ghost use Rattle.nor_driver.specs.Programs.{SendsProgram, page_program};
ghost use Rattle.nor_driver.specs.Units.{is_aligned};
ghost use Rattle.nor_driver.specs.Erases.{block_erase, SendsErase};
ghost use Rattle.nor_driver.specs.StatusWrites.{status_write, SendsStatusWrite};

use crate::{Erase, EraseBlock, OperationError, wait};
use arrayvec::ArrayVec;
use nor_model::opcodes::{PAGE_PROGRAM, WRITE_ENABLE, WRITE_STATUS};
use nor_model::{Bus, Status};

/// Programs `bytes` from `address` on (02h; W25Q64FV datasheet, Page Program), and waits until the chip is ready.
/// `address` must be below 16 MiB, and `bytes` must not be empty and must lie in one page of 256 bytes. Returns the
/// number of transactions, even if the program is ignored because the chip is busy or protects `address`.
///
/// On every bus, even a faulty one, the only modifying commands sent are one write enable and then one program of
/// exactly `bytes` at `address`; if the bus stopped at the write enable, no program follows.
pub fn program_page<B: Bus>(bus: &mut B, address: u32, bytes: &[u8]) -> Result<u32, OperationError>
    requires reachable { address < 2 ^ 24 }
    requires some { 0 < length bytes.now }
    requires in_page { address % 256 + length bytes.now ≤ 256 }
    ensures leaves { LeavesOperation (page_program address bytes.now) (B.state bus.old) (B.state bus.new) }
    ensures does { IfOk result (Operates (page_program address bytes.now) (B.state bus.old) (B.state bus.new)) }
    ensures fails { IfErr result (OperationFails most_operation (B.state bus.old) (B.state bus.new)) }
    ensures names { IfErr result (NamesTimeout address) }
    ensures begins { SendsEnable (B.state bus.old) (B.state bus.new)
        ⊎ SendsProgram address bytes.now (B.state bus.old) (B.state bus.new) }
    ensures sends { OnOk result (SendsProgram address bytes.now (B.state bus.old) (B.state bus.new)) }
{
    let command = program_command(address, bytes);
    operation(bus, &command, address)
}

/// Erases a block (20h, 52h, D8h or C7h; W25Q64FV datasheet, erase instructions), and waits until the chip is ready.
/// `erase.is_aligned()` must be true, and `erase.sector` below 4,096. Returns the number of transactions, even if the
/// erase is ignored because the chip is busy, lacks the erase type or protects an address of the block.
pub fn erase<B: Bus>(bus: &mut B, erase: Erase) -> Result<u32, OperationError>
    requires reachable { erase.sector < 4096 }
    requires aligned { is_aligned erase.unit erase.sector ≡ true }
    ensures leaves { LeavesOperation (block_erase erase) (B.state bus.old) (B.state bus.new) }
    ensures does { IfOk result (Operates (block_erase erase) (B.state bus.old) (B.state bus.new)) }
    ensures fails { IfErr result (OperationFails most_operation (B.state bus.old) (B.state bus.new)) }
    ensures names { IfErr result (NamesTimeout (4096 * erase.sector)) }
    ensures sends { OnOk result (SendsErase erase (B.state bus.old) (B.state bus.new)) }
{
    let address = erase.address();
    let opcode = erase.unit.opcode();
    let [high, middle, low] = address_bytes(address);
    match erase.unit {
        EraseBlock::Chip => operation(bus, &[opcode], address),
        _ => operation(bus, &[opcode, high, middle, low], address),
    }
}

/// Writes the status registers (01h; W25Q64FV datasheet, Write Status Register), and waits until the chip is ready.
/// Sends the protection bits `code` (below 64), all other non-volatile bits as in `status`, and BUSY, WEL and SUS as 0.
/// Returns the number of transactions, even if the write is ignored because the chip is busy or SRP0 or SRP1 is set.
pub fn write_status<B: Bus>(bus: &mut B, status: Status, code: u8) -> Result<u32, OperationError>
    requires { code < 64 }
    ensures leaves { LeavesOperation (status_write status code) (B.state bus.old) (B.state bus.new) }
    ensures does { IfOk result (Operates (status_write status code) (B.state bus.old) (B.state bus.new)) }
    ensures fails { IfErr result (OperationFails most_operation (B.state bus.old) (B.state bus.new)) }
    ensures names { IfErr result (NamesTimeout 0) }
    ensures sends { OnOk result (SendsStatusWrite status code (B.state bus.old) (B.state bus.new)) }
{
    let [one, two] = status.with_code(code).bytes();
    operation(bus, &[WRITE_STATUS, one, two], 0)
}

fn operation<B: Bus>(bus: &mut B, command: &[u8], address: u32) -> Result<u32, OperationError>
    requires { AsksForOperation command.now }
    ensures leaves { LeavesOperation (command_operation command.now) (B.state bus.old) (B.state bus.new) }
    ensures does { IfOk result (Operates (command_operation command.now) (B.state bus.old) (B.state bus.new)) }
    ensures fails { IfErr result (OperationFails most_operation (B.state bus.old) (B.state bus.new)) }
    ensures names { IfErr result (NamesTimeout address) }
    ensures begins { SendsEnable (B.state bus.old) (B.state bus.new)
        ⊎ ((B.state bus.new).sent ≡ with_sent command.now ((0x06 ∷ []) ∷ (B.state bus.old).sent)) }
    ensures sends { OnOk result
        ((B.state bus.new).sent ≡ with_sent command.now ((0x06 ∷ []) ∷ (B.state bus.old).sent)) }
{
    bus.transfer(&[WRITE_ENABLE], &mut [])?;
    bus.transfer(command, &mut [])?;
    let waited = wait(bus, address)?;
    Ok(waited.polls + 2)
}

pub(crate) fn address_bytes(address: u32) -> [u8; 3]
    requires { address < 2 ^ 24 }
    ensures { BytesNameAddress address result }
{
    let [_, high, middle, low] = address.to_be_bytes();
    [high, middle, low]
}

fn program_command(address: u32, bytes: &[u8]) -> ArrayVec<u8, 260>
    requires reachable { address < 2 ^ 24 }
    requires short { length bytes.now ≤ 256 }
    ensures { IsCommandAt 0x02 address bytes.now result.items }
{
    let [high, middle, low] = address_bytes(address);
    let mut command = ArrayVec::new();
    command.push(PAGE_PROGRAM);
    command.push(high);
    command.push(middle);
    command.push(low);
    let _ = command.try_extend_from_slice(bytes);
    command
}

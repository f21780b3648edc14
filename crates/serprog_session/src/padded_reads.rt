//! The replies to reads that send more bytes than opcode and address. The model leaves them open.
ghost use Rattle.std.specs.Prelude.{◌≡◌, true, ℕ};
ghost use Rattle.nor_model.specs.declared.config.Config.{Config};
ghost use Rattle.nor_model.specs.Step.{is_command};

use nor_chip::SimBus;
use nor_model::opcodes::{READ_DATA, READ_STATUS1};

/// Fills `reply` as a real chip does if `out` is a read of data or of status 1 with more bytes (padding). While they
/// are sent, the chip goes on reading. (W25Q64FV datasheet, Read Data and Read Status Register-1.) A busy chip returns
/// only its status. `reply` stays as it is if `out` is any other transaction.
pub(crate) fn read_on(chip: &SimBus, out: &[u8], reply: &mut [u8])
    ensures { (config : Config) (replies : ℕ) → is_command config out.now replies ≡ true → reply.new ≡ reply.old }
{
    let status = chip.status()[0];
    match out {
        [READ_DATA, x, y, z, _, padding @ ..] if status % 2 == 0 => {
            let address = u32::from_be_bytes([0, *x, *y, *z]) as usize;
            read_round(
                chip.bytes(),
                (address + 1).saturating_add(padding.len()),
                reply,
            );
        }
        [READ_STATUS1, _, ..] => reply.fill(status),
        _ => {}
    }
}

// Fills `reply` with the bytes from `start` on. After the last byte comes the first one.
fn read_round(bytes: &[u8], start: usize, reply: &mut [u8]) {
    for (i, byte) in reply.iter_mut().enumerate() {
        let at = start.wrapping_add(i) % bytes.len().max(1);
        *byte = bytes.get(at).copied().unwrap_or(0xFF);
    }
}

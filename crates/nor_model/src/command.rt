//! Decodes the bytes of a transaction.
ghost use Rattle.std.specs.Prelude.{◌≡◌, ◌<◌};
ghost use Rattle.nor_model.specs.Command.{command_of, bare_command, addressed_command, aligned_erase, address_of, begins_change};

use crate::Config;
use crate::opcodes::{
    ERASE_32K, ERASE_64K, ERASE_CHIP, ERASE_SECTOR, PAGE_PROGRAM, READ_DATA, READ_ID, READ_SFDP,
    READ_STATUS1, READ_STATUS2, READ_UNIQUE, WRITE_DISABLE, WRITE_ENABLE, WRITE_STATUS,
};
use nor_geometry::SECTOR_LEN;

/// The command for which a transaction asks. (W25Q64FV datasheet, instruction set table.)
#[derive(Clone, Copy, Debug, PartialEq, Eq)]
pub enum Command {
    WriteEnable,
    WriteDisable,
    /// 05h: polls. Every reply byte is status 1.
    Poll,
    ReadStatus2,
    /// 01h: writes status 1 and status 2. The fields are the two bytes, status 1 first.
    WriteStatus(u8, u8),
    /// 02h: programs bytes of one page, beginning at this address.
    Program(u32),
    /// 20h, 52h, D8h or C7h: erases a block or the chip. The fields are the first address and the length in bytes.
    Erase(u32, u32),
    /// 03h: reads the chip's bytes from this address on.
    ReadData(u32),
    ReadId,
    /// 5Ah: reads the SFDP bytes from this address on.
    ReadSfdp(u32),
    ReadUnique,
    /// Any other transaction. It changes nothing, and the model leaves the reply open.
    Ignored,
}

impl Command {
    /// Decodes a transaction that sends `out` and receives `replies` bytes. Addresses are taken modulo the chip's size.
    pub fn of(config: &Config, out: &[u8], replies: usize) -> Command
        ensures { result ≡ command_of config.now out.now replies }
    {
        match out {
            [opcode] => Self::bare(config, *opcode, replies),
            [WRITE_STATUS, one, two] if replies == 0 => Command::WriteStatus(*one, *two),
            [opcode, x, y, z] => Self::addressed(
                config,
                *opcode,
                address(config, *x, *y, *z),
                replies,
            ),
            [READ_SFDP, x, y, z, _] => Command::ReadSfdp(address(config, *x, *y, *z)),
            [READ_UNIQUE, _, _, _, _] => Command::ReadUnique,
            [PAGE_PROGRAM, x, y, z, _, ..] if replies == 0 => {
                Command::Program(address(config, *x, *y, *z))
            }
            _ => Command::Ignored,
        }
    }

    fn bare(config: &Config, opcode: u8, replies: usize) -> Command
        ensures { result ≡ bare_command config.now opcode replies }
    {
        match opcode {
            READ_STATUS1 => Command::Poll,
            READ_STATUS2 => Command::ReadStatus2,
            READ_ID => Command::ReadId,
            WRITE_ENABLE if replies == 0 => Command::WriteEnable,
            WRITE_DISABLE if replies == 0 => Command::WriteDisable,
            ERASE_CHIP if replies == 0 => Command::Erase(0, config.size),
            _ => Command::Ignored,
        }
    }

    fn addressed(config: &Config, opcode: u8, at: u32, replies: usize) -> Command
        ensures { result ≡ addressed_command config.now opcode at replies }
    {
        match opcode {
            READ_DATA => Command::ReadData(at),
            ERASE_SECTOR if replies == 0 => Self::unit(SECTOR_LEN, at),
            ERASE_32K if replies == 0 && config.kinds.k32 => Self::unit(32768, at),
            ERASE_64K if replies == 0 && config.kinds.k64 => Self::unit(65536, at),
            _ => Command::Ignored,
        }
    }

    fn unit(len: u32, at: u32) -> Command
        requires { 0 < len }
        ensures { result ≡ aligned_erase len at }
    {
        Command::Erase(at / len * len, len)
    }
}

fn address(config: &Config, x: u8, y: u8, z: u8) -> u32
    ensures { result ≡ address_of config.now x y z }
{
    u32::from_be_bytes([0, x, y, z]) % config.size
}

/// Returns whether `out` begins with a modifying opcode: 06h, 01h, 02h, 20h, 52h, D8h or C7h.
pub fn is_changing(out: &[u8]) -> bool
    ensures { result ≡ begins_change out.now }
{
    matches!(
        out,
        [
            WRITE_ENABLE
                | WRITE_STATUS
                | PAGE_PROGRAM
                | ERASE_SECTOR
                | ERASE_32K
                | ERASE_64K
                | ERASE_CHIP,
            ..,
        ]
    )
}

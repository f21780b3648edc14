//! Commands that read from the chip and modify nothing.

ghost use Rattle.std.specs.Prelude.{◌≡◌, ◌<◌, ◌≤◌, ◌^◌, true, length, IfOk, OnOk, OnErr};
ghost use Rattle.nor_driver.specs.OnlyReads.{OnlyReads, HasStopped};
ghost use Rattle.nor_driver.specs.Reads.{IsReading, Replies, ReadsId, ReadsStatus2, ReadsUnique, ReadsSfdp, ReadsSector};

use crate::operations::address_bytes;
use nor_geometry::SECTOR_LEN;
use nor_model::opcodes::{READ_DATA, READ_ID, READ_SFDP, READ_STATUS2, READ_UNIQUE};
use nor_model::{Bus, Stopped};

/// Reads the ID (9Fh; W25Q64FV datasheet, Read JEDEC ID). An idle chip on a well-behaved bus returns its own ID.
pub fn read_id<B: Bus>(bus: &mut B) -> Result<[u8; 3], Stopped>
    ensures leaves { OnlyReads 1 (B.state bus.old) (B.state bus.new) }
    ensures does { IfOk result (ReadsId (B.state bus.old) (B.state bus.new)) }
    ensures fails { OnErr result (HasStopped 1 (B.state bus.old) (B.state bus.new)) }
    ensures polled_ready { (B.state bus.new).polled_ready ≡ (B.state bus.old).polled_ready }
{
    let mut id = [0; 3];
    read(bus, &[READ_ID], &mut id)?;
    Ok(id)
}

/// Reads status 2 (35h; W25Q64FV datasheet, Read Status Register-2). The result is correct if the bus is well-behaved.
pub fn read_status2<B: Bus>(bus: &mut B) -> Result<u8, Stopped>
    ensures leaves { OnlyReads 1 (B.state bus.old) (B.state bus.new) }
    ensures does { IfOk result (ReadsStatus2 (B.state bus.old) (B.state bus.new)) }
    ensures fails { OnErr result (HasStopped 1 (B.state bus.old) (B.state bus.new)) }
    ensures polled_ready { (B.state bus.new).polled_ready ≡ (B.state bus.old).polled_ready }
{
    let mut reply = [0];
    read(bus, &[READ_STATUS2], &mut reply)?;
    Ok(reply[0])
}

/// Reads the unique ID (4Bh; W25Q64FV datasheet, Read Unique ID Number). The result is correct if the bus is
/// well-behaved and the chip idle.
pub fn read_unique<B: Bus>(bus: &mut B) -> Result<[u8; 8], Stopped>
    ensures leaves { OnlyReads 1 (B.state bus.old) (B.state bus.new) }
    ensures does { IfOk result (ReadsUnique (B.state bus.old) (B.state bus.new)) }
    ensures fails { OnErr result (HasStopped 1 (B.state bus.old) (B.state bus.new)) }
    ensures polled_ready { (B.state bus.new).polled_ready ≡ (B.state bus.old).polled_ready }
{
    let mut unique = [0; 8];
    read(bus, &[READ_UNIQUE, 0, 0, 0, 0], &mut unique)?;
    Ok(unique)
}

/// Fills `bytes` (at most 4,096) with the SFDP bytes from `address` on (5Ah; JESD216). `address` must be below 16 MiB,
/// and a modelled chip takes it modulo its size. The bytes are correct if the bus is well-behaved and the chip idle. If
/// a well-behaved, punctual bus stops, `bytes` is unchanged.
pub fn read_parameters<B: Bus>(bus: &mut B, address: u32, bytes: &mut [u8]) -> Result<(), Stopped>
    requires reachable { address < 2 ^ 24 }
    requires short { length bytes.old ≤ 4096 }
    ensures leaves { OnlyReads 1 (B.state bus.old) (B.state bus.new) }
    ensures does { OnOk result (ReadsSfdp address (length bytes.old) (B.state bus.old) (B.state bus.new) bytes.new) }
    ensures fails { OnErr result (HasStopped 1 (B.state bus.old) (B.state bus.new)) }
    ensures polled_ready { (B.state bus.new).polled_ready ≡ (B.state bus.old).polled_ready }
    ensures unread { (B.state bus.old).honest ≡ true → (B.state bus.old).punctual ≡ true
        → OnErr result (bytes.new ≡ bytes.old) }
{
    let [high, middle, low] = address_bytes(address);
    read(bus, &[READ_SFDP, high, middle, low, 0], bytes)
}

/// Reads the sector with the number `sector` (below 4,096) into `bytes`, which must have 4,096 bytes (03h; W25Q64FV
/// datasheet, Read Data). The result is correct if the bus is well-behaved and the chip is idle and has the sector.
/// If a well-behaved, punctual bus stops, `bytes` is unchanged.
pub fn read_sector<B: Bus>(bus: &mut B, sector: u32, bytes: &mut [u8]) -> Result<(), Stopped>
    requires reachable { sector < 4096 }
    requires whole { length bytes.old ≡ 4096 }
    ensures leaves { OnlyReads 1 (B.state bus.old) (B.state bus.new) }
    ensures does { OnOk result (ReadsSector sector (B.state bus.old) (B.state bus.new) bytes.new) }
    ensures fails { OnErr result (HasStopped 1 (B.state bus.old) (B.state bus.new)) }
    ensures polled_ready { (B.state bus.new).polled_ready ≡ (B.state bus.old).polled_ready }
    ensures unread { (B.state bus.old).honest ≡ true → (B.state bus.old).punctual ≡ true
        → OnErr result (bytes.new ≡ bytes.old) }
{
    let [high, middle, low] = address_bytes(SECTOR_LEN * sector);
    read(bus, &[READ_DATA, high, middle, low], bytes)
}

fn read<B: Bus>(bus: &mut B, out: &[u8], reply: &mut [u8]) -> Result<(), Stopped>
    requires reading { IsReading out.now }
    requires short { length reply.old ≤ 4096 }
    ensures leaves { OnlyReads 1 (B.state bus.old) (B.state bus.new) }
    ensures does { OnOk result (Replies out.now (B.state bus.old) (B.state bus.new) reply.new) }
    ensures fails { OnErr result (HasStopped 1 (B.state bus.old) (B.state bus.new)) }
    ensures polled_ready { (B.state bus.new).polled_ready ≡ (B.state bus.old).polled_ready }
    ensures unread { (B.state bus.old).honest ≡ true → (B.state bus.old).punctual ≡ true
        → OnErr result (reply.new ≡ reply.old) }
{
    bus.transfer(out, reply)
}

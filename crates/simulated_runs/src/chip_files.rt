//! The files of a simulated chip and its port, in the current directory: `chip` has the bytes of the chip and then status
//! 1 and 2, and `left` the number of calls of the port that can still succeed (8 bytes, little-endian). A process that is
//! killed leaves both files whole.
ghost use Rattle.std.specs.Prelude.{◌≡◌, IfOk, IfSome};
ghost use Rattle.simulated_runs.specs.Played.{IsOpened, IsSimulated};

use crate::fault::Fault;
use crate::stop::Stop;
use nor_chip::{Config, Delays, SimBus};
use nor_model::bits::BUSY;
use nor_serprog::Port;
use serprog_session::SimPort;
use std::fs;

const CHIP: &str = "chip";

const LEFT: &str = "left";

// Each file is written under this name first.
const PART: &str = "part";

// The unique ID of each simulated chip.
const UNIQUE: [u8; 8] = [0x5A, 0x01, 0x02, 0x03, 0x04, 0x05, 0x06, 0x07];

/// Reads the files, and returns a port to a programmer with the chip. The number of bytes says which chip it is:
/// `TINY64`, `W25Q64FV` or `W25Q128FV`. One poll after each operation shows BUSY, and also the first poll of the run if
/// status 1 has BUSY.
pub fn read_port(rt: &HostRuntime, stop: Stop) -> Result<SimPort, Fault>
    ensures { IfOk result (λ port. IsOpened (⟦<SimPort as Port>⟧.state port)) }
{
    let mut bytes = fs::read(rt, CHIP)?;
    let len = bytes.len().saturating_sub(2);
    let Some(config) = config_of(len) else {
        return Err(Fault::Length);
    };
    let status = status_in(bytes.get(len..).unwrap_or(&[]));
    bytes.truncate(len);
    let delays = Delays {
        now: u16::from(status[0] & BUSY),
        each: 1,
    };
    let mut chip = SimBus::new(config, bytes, status, delays)?;
    chip.tear(stop.torn);
    chip.lose(stop.fill);
    let left = fs::read(rt, LEFT)?;
    Ok(SimPort::new(chip, number_in(&left)))
}

/// Overwrites the file `left` and, if the chip may have changed, the file `chip`.
pub fn write_state(rt: &HostRuntime, port: &SimPort, is_changed: bool) -> Result<(), Fault> {
    if is_changed {
        let chip = port.chip();
        let mut bytes = Vec::from_slice(rt.alloc(), chip.bytes())?;
        bytes.extend_from_slice(&chip.status())?;
        replace(rt, CHIP, &bytes)?;
    }
    replace(rt, LEFT, &port.left().to_le_bytes())
}

fn replace(rt: &HostRuntime, name: &str, bytes: &[u8]) -> Result<(), Fault> {
    fs::write(rt, PART, bytes)?;
    fs::rename(rt, PART, name)?;
    Ok(())
}

fn config_of(len: usize) -> Option<Config>
    ensures { IfSome result IsSimulated }
{
    match len {
        65_536 => Some(Config::tiny64().with_unique(UNIQUE)),
        8_388_608 => Some(Config::w25q64fv().with_unique(UNIQUE)),
        16_777_216 => Some(Config::w25q128fv().with_unique(UNIQUE)),
        _ => None,
    }
}

fn status_in(bytes: &[u8]) -> [u8; 2] {
    match bytes {
        [one, two, ..] => [*one, *two],
        _ => [0, 0],
    }
}

fn number_in(bytes: &[u8]) -> u64 {
    let mut number = [0; 8];
    for (to, from) in number.iter_mut().zip(bytes) {
        *to = *from;
    }
    u64::from_le_bytes(number)
}

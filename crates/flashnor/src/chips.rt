//! The emulated chip: its contents, which are read from its files, and the bus to it.
ghost use Rattle.std.specs.Prelude.{◌≡◌, ◌∷◌, [], IfOk, IfErr, IfSome, IsSomeAnd, option_map, replicate};
ghost use Rattle.std.specs.Prelude.{unwrap_or, vec_len};
ghost use Rattle.nor_chip.specs.Sim.{pace_of, torn_of};
ghost use Rattle.flashnor.specs.Chips.{FailsToOpen, HoldsFiles, IsConfigWith, IsContentOf, StartsBus};
ghost use Rattle.nor_console.specs.Stored.{IsFileFound};
ghost use Rattle.nor_console.specs.Files.{IsOpeningFault};
ghost use Rattle.flashnor.specs.Found.{emulated_part};

use nor_args::Programmer;
use nor_chip::{Bus, Config, Delays, Meter, SimBus};
use nor_console::{Cause, Fault, FileFault, erased, reading, unread_by};
use nor_files::Store;
use std::alloc::{AllocError, Global};

#[derive(Drop)]
pub struct Content {
    pub bytes: Vec<u8>,
    pub status: [u8; 2],
}

/// Reads the chip's files: a missing image as FFh, a missing status as zeros. Returns file fault 1 or 3, or error 18.
pub fn read_content<'a, R: Store>(rt: &R, programmer: &Programmer<'a>) -> Result<Content, Fault<'a>>
    ensures len { IfOk result (λ content. vec_len content.bytes ≡ (emulated_part programmer.now.chip).size) }
    ensures ok { IfOk result (IsContentOf (R.state rt.now).view programmer.now) }
    ensures err { IfErr result (FailsToOpen (R.state rt.now).view programmer.now) }
{
    let size = programmer.chip.size();
    let image = read_chip_file(rt, programmer.image, size)?;
    let status = read_chip_file(rt, programmer.status, 2)?;
    Ok(content_of(rt.alloc(), size, image, status)?)
}

/// Returns a chip's contents: all FFh for a missing image, zeros for a missing status. Fails if memory runs out.
pub fn content_of(
    alloc: Global,
    size: u32,
    image: Option<Vec<u8>>,
    status: Option<Vec<u8>>,
) -> Result<Content, AllocError>
    requires whole { IfSome image (λ bytes. vec_len bytes ≡ size) }
    requires two { IfSome status (λ bytes. vec_len bytes ≡ 2) }
    ensures len { IfOk result (λ content. vec_len content.bytes ≡ size) }
    ensures bytes { IfOk result (λ content.
        content.bytes.items ≡ unwrap_or (option_map (λ bytes. bytes.items) image) (replicate size 255)) }
    ensures bits { IfOk result (λ content.
        content.status ≡ unwrap_or (option_map (λ bytes. bytes.items) status) (0 ∷ 0 ∷ [])) }
{
    let bytes = match image {
        Some(bytes) => bytes,
        None => erased(alloc, size)?,
    };
    let status = match status {
        Some(bytes) => [bytes[0], bytes[1]],
        None => [0, 0],
    };
    Ok(Content { bytes, status })
}

/// Reads a file of the chip, or returns `None` if it isn't named or is missing. Returns file fault 1 if it can't be
/// read or may block (`is_waiting`), file fault 3 if it doesn't have `len` bytes, or error 18 if memory runs out.
#[tactic(auto, using(nor_console::proofs::FileFaults::unread_opening))]
pub fn read_chip_file<'a, R: Store>(
    rt: &R,
    name: Option<&'a str>,
    len: u32,
) -> Result<Option<Vec<u8>>, Fault<'a>>
    ensures len { IfOk result (λ found. IfSome found (λ bytes. vec_len bytes ≡ len)) }
    ensures ok { IfOk result (λ found. IsFileFound (R.state rt.now).view name.entry len
        (option_map (λ bytes. bytes.items) found)) }
    ensures err { IfErr result (λ fault.
        IsSomeAnd name.entry (λ given. IsOpeningFault (R.state rt.now).view given.now len fault)) }
{
    let Some(name) = name else {
        return Ok(None);
    };
    if rt.is_waiting(name) {
        return Err(unread_by(name, Cause::Endless));
    }
    let bytes = match rt.read_named(name, u64::from(len) + 1) {
        Ok(Some(bytes)) => bytes,
        Ok(None) => return Ok(None),
        Err(error) => return Err(reading(error, name)),
    };
    if bytes.len() != len as usize {
        let (fault, cause) = (FileFault::Length, cause_of_length(len, bytes.len()));
        return Err(Fault::File { fault, name, cause });
    }
    Ok(Some(bytes))
}

fn cause_of_length(wanted: u32, found: usize) -> Cause {
    if found > wanted as usize {
        Cause::TooLong(wanted)
    } else {
        Cause::Length { wanted, found }
    }
}

/// Returns a bus to the idle chip with these contents. The bus stops after `stop=` transactions (default: `u64::MAX`).
/// After each operation, `busy=` polls (default: 0) show BUSY. With `power=`, a stop cuts the chip's power.
pub fn start(programmer: &Programmer<'_>, content: Content) -> SimBus
    requires { vec_len content.bytes ≡ (emulated_part programmer.now.chip).size }
    ensures { StartsBus programmer.now content result }
{
    let mut bus = hold(programmer, content);
    bus.lose(programmer.power);
    bus.allow(programmer.stop.unwrap_or(u64::MAX));
    bus
}

fn hold(programmer: &Programmer<'_>, content: Content) -> SimBus
    requires { vec_len content.bytes ≡ (emulated_part programmer.now.chip).size }
    ensures held { HoldsFiles programmer.now content (⟦<SimBus as Bus>⟧.state result) }
    ensures pace { pace_of result ≡ unwrap_or programmer.now.busy 0 }
    ensures torn { torn_of result ≡ None }
{
    let config = config_of(programmer);
    let delays = Delays {
        now: 0,
        each: programmer.busy.unwrap_or(0),
    };
    let Content { bytes, status } = content;
    SimBus::new(config, bytes, status, delays).unwrap()
}

fn config_of(programmer: &Programmer<'_>) -> Config
    ensures { IsConfigWith programmer.now.chip programmer.now.unique result }
{
    let config = programmer.chip.config();
    match programmer.unique {
        Some(unique) => config.with_unique(unique),
        None => config,
    }
}

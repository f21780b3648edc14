//! The steps of the handshake with a serial programmer.
ghost use Rattle.std.specs.Prelude.{◌≡◌, ◌<◌, ◌≤◌, ℕ, Bool, true, false, List, length, slice_index, None, Some, OnOk, IfOk};
ghost use Rattle.std.specs.Prelude.{option_and_then, replicate, if◌then◌else◌, ◌||◌, ◌&&◌, ◌==◌, not, bit_and, ⊤};
ghost use Rattle.nor_serprog.specs.Device.{with_settings};
ghost use Rattle.nor_serprog.specs.Firmware.{Firmware, HasReply, ProgrammerSettings, has_command, is_in_map, reply_of, queried};
ghost use Rattle.nor_serprog.specs.Firmware.{settings_after, taken};
ghost use Rattle.nor_serprog.specs.Frame.{frame_of, three_of};
ghost use Rattle.nor_serprog.specs.Harmless.{ModifiesNothing, StaysHarmless};
ghost use Rattle.nor_serprog.specs.Link.{port_of, is_in_step, is_cut};
ghost use Rattle.nor_serprog.specs.Replies.{AwaitsCommand};
ghost use Rattle.nor_serprog.specs.Identify.{Asked, Concludes, IsInStepWith};
ghost use Rattle.nor_serprog.specs.Identify.{settings_if_offered};
ghost use Rattle.nor_serprog.specs.Identify.{version_fault, operation_fault, buses_fault, write_fault, read_fault};
ghost use Rattle.nor_serprog.specs.Identify.{buffer_fault, clock_fault, refused, buses_of, write_limit, read_limit, limit_in};

use crate::{Command, HandshakeFault, Link, Port};

// The flag for SPI in the reply to Q_BUSTYPE and in the argument of S_BUSTYPE.
pub(crate) const SPI: u8 = 0x08;

// The limit of a programmer that lacks the query for the limit, or replies 0 to the query.
const NO_LIMIT: u32 = 1 << 24;

const O_SPIOP: u8 = 0x13;

/// The map of the commands that a programmer has: command `n` is bit `n % 8` of byte `n / 8`.
pub(crate) type Map = [u8; 32];

pub(crate) fn offers(commands: &Map, opcode: u8) -> bool
    ensures { result ≡ is_in_map commands.now opcode }
{
    let byte = commands.get(usize::from(opcode / 8)).copied().unwrap_or(0);
    byte >> (opcode % 8) & 1 == 1
}

pub(crate) fn synchronize<P: Port + Drop>(
    link: &mut Link<P>,
) -> Result<(), HandshakeFault<P::Cause>>
    ensures nature { (P.state (port_of link.new)).honest ≡ (P.state (port_of link.old)).honest }
    ensures in_step { OnOk result (is_in_step link.new ≡ true) }
    ensures concludes { AwaitsCommand (P.state (port_of link.old)) → is_cut link.old ≡ false
        → Concludes 28 None (λ _. ⊤) result (P.state (port_of link.old)) (P.state (port_of link.new)) }
    ensures harmless { StaysHarmless (P.state (port_of link.old)).asked (P.state (port_of link.new)).asked }
{
    match link.synchronize() {
        Ok(()) => Ok(()),
        Err(failure) => Err(HandshakeFault::Failure(failure)),
    }
}

pub(crate) fn ask<P: Port + Drop>(
    link: &mut Link<P>,
    command: Command<'_>,
    reply: &mut [u8],
) -> Result<(), HandshakeFault<P::Cause>>
    ensures nature { (P.state (port_of link.new)).honest ≡ (P.state (port_of link.old)).honest }
    ensures in_step { OnOk result (is_in_step link.new ≡ true) }
    ensures asked { (firmware : Firmware) → IsInStepWith P.state firmware link.old → HasReply firmware command.entry
        → Asked firmware command.entry (length reply.old) reply.new result
        (P.state (port_of link.old)) (P.state (port_of link.new)) }
    ensures harmless { ModifiesNothing command.entry
        → StaysHarmless (P.state (port_of link.old)).asked (P.state (port_of link.new)).asked }
{
    match link.exchange(command, reply) {
        Ok(()) => Ok(()),
        Err(failure) => Err(HandshakeFault::Failure(failure)),
    }
}

// Returns the bytes of the reply after ACK. If the programmer lacks the query, sends nothing and returns `None`.
fn query<P: Port + Drop, const LEN: usize>(
    link: &mut Link<P>,
    commands: &Map,
    query: Command<'_>,
    opcode: u8,
) -> Result<Option<[u8; LEN]>, HandshakeFault<P::Cause>>
    ensures nature { (P.state (port_of link.new)).honest ≡ (P.state (port_of link.old)).honest }
    ensures in_step { is_in_step link.old ≡ true → OnOk result (is_in_step link.new ≡ true) }
    ensures concludes { (firmware : Firmware) (bytes : List ℕ) → IsInStepWith P.state firmware link.old
        → commands.now ≡ firmware.commands → HasReply firmware query.entry
        → reply_of firmware query.entry ≡ queried firmware opcode bytes → length bytes ≡ LEN
        → ((settings : ProgrammerSettings) → settings_after firmware query.entry settings ≡ settings)
        → Concludes 3 None (λ reply. reply ≡ (if has_command firmware opcode then Some bytes else None)) result
        (P.state (port_of link.old)) (P.state (port_of link.new)) }
    ensures harmless { ModifiesNothing query.entry
        → StaysHarmless (P.state (port_of link.old)).asked (P.state (port_of link.new)).asked }
{
    if !offers(commands, opcode) {
        return Ok(None);
    }
    let mut reply = [0; LEN];
    ask(link, query, &mut reply)?;
    Ok(Some(reply))
}

// Sends `setting`. If the programmer lacks this command, sends nothing and returns `Ok`.
pub(crate) fn set<P: Port + Drop>(
    link: &mut Link<P>,
    commands: &Map,
    setting: Command<'_>,
    opcode: u8,
) -> Result<(), HandshakeFault<P::Cause>>
    ensures nature { (P.state (port_of link.new)).honest ≡ (P.state (port_of link.old)).honest }
    ensures in_step { is_in_step link.old ≡ true → OnOk result (is_in_step link.new ≡ true) }
    ensures concludes { (firmware : Firmware) (accepts : Bool) → IsInStepWith P.state firmware link.old
        → commands.now ≡ firmware.commands → (has_command firmware opcode ≡ true → HasReply firmware setting.entry)
        → reply_of firmware setting.entry ≡ taken accepts → slice_index (frame_of setting.entry) 0 ≡ opcode
        → Concludes 3 (refused opcode (has_command firmware opcode) accepts) (λ _. ⊤) result
        (with_settings (settings_if_offered firmware opcode setting.entry (P.state (port_of link.old)).device.settings)
        (P.state (port_of link.old))) (P.state (port_of link.new)) }
    ensures harmless { ModifiesNothing setting.entry
        → StaysHarmless (P.state (port_of link.old)).asked (P.state (port_of link.new)).asked }
{
    if !offers(commands, opcode) {
        return Ok(());
    }
    ask(link, setting, &mut [])
}

pub(crate) fn require_version<P: Port + Drop>(
    link: &mut Link<P>,
) -> Result<(), HandshakeFault<P::Cause>>
    ensures nature { (P.state (port_of link.new)).honest ≡ (P.state (port_of link.old)).honest }
    ensures in_step { is_in_step link.old ≡ true → OnOk result (is_in_step link.new ≡ true) }
    ensures concludes { (firmware : Firmware) → IsInStepWith P.state firmware link.old
        → Concludes 3 (version_fault firmware) (λ _. ⊤) result
        (P.state (port_of link.old)) (P.state (port_of link.new)) }
    ensures harmless { StaysHarmless (P.state (port_of link.old)).asked (P.state (port_of link.new)).asked }
{
    let mut version = [0; 2];
    ask(link, Command::QueryInterface, &mut version)?;
    let version = u16::from_le_bytes(version);
    if version != 1 {
        return Err(HandshakeFault::Version(version));
    }
    Ok(())
}

pub(crate) fn query_commands<P: Port + Drop>(
    link: &mut Link<P>,
) -> Result<Map, HandshakeFault<P::Cause>>
    ensures nature { (P.state (port_of link.new)).honest ≡ (P.state (port_of link.old)).honest }
    ensures in_step { is_in_step link.old ≡ true → OnOk result (is_in_step link.new ≡ true) }
    ensures concludes { (firmware : Firmware) → IsInStepWith P.state firmware link.old
        → Concludes 3 (operation_fault firmware) (λ commands. commands ≡ firmware.commands) result
        (P.state (port_of link.old)) (P.state (port_of link.new)) }
    ensures harmless { StaysHarmless (P.state (port_of link.old)).asked (P.state (port_of link.new)).asked }
{
    let mut commands = [0; 32];
    ask(link, Command::QueryCommands, &mut commands)?;
    if !offers(&commands, O_SPIOP) {
        return Err(HandshakeFault::Lacks(O_SPIOP));
    }
    Ok(commands)
}

pub(crate) fn require_spi<P: Port + Drop>(
    link: &mut Link<P>,
    commands: &Map,
) -> Result<(), HandshakeFault<P::Cause>>
    ensures nature { (P.state (port_of link.new)).honest ≡ (P.state (port_of link.old)).honest }
    ensures in_step { is_in_step link.old ≡ true → OnOk result (is_in_step link.new ≡ true) }
    ensures concludes { (firmware : Firmware) → IsInStepWith P.state firmware link.old
        → commands.now ≡ firmware.commands → Concludes 3 (buses_fault firmware) (λ _. ⊤) result
        (P.state (port_of link.old)) (P.state (port_of link.new)) }
    ensures harmless { StaysHarmless (P.state (port_of link.old)).asked (P.state (port_of link.new)).asked }
{
    let buses = query_buses(link, commands)?;
    if !can_select_spi(buses, offers(commands, 0x12)) {
        return Err(HandshakeFault::NotSpi(buses));
    }
    Ok(())
}

fn query_buses<P: Port + Drop>(
    link: &mut Link<P>,
    commands: &Map,
) -> Result<u8, HandshakeFault<P::Cause>>
    ensures nature { (P.state (port_of link.new)).honest ≡ (P.state (port_of link.old)).honest }
    ensures in_step { is_in_step link.old ≡ true → OnOk result (is_in_step link.new ≡ true) }
    ensures concludes { (firmware : Firmware) → IsInStepWith P.state firmware link.old
        → commands.now ≡ firmware.commands → Concludes 3 None (λ buses. buses ≡ buses_of firmware) result
        (P.state (port_of link.old)) (P.state (port_of link.new)) }
    ensures harmless { StaysHarmless (P.state (port_of link.old)).asked (P.state (port_of link.new)).asked }
{
    let reply: Option<[u8; 1]> = query(link, commands, Command::QueryBuses, 0x05)?;
    match reply {
        Some(bytes) => Ok(bytes[0]),
        None => Ok(SPI),
    }
}

fn can_select_spi(buses: u8, selects: bool) -> bool
    ensures { result ≡ (not (bit_and buses 8 == 0) && (buses == 8 || selects)) }
{
    buses & SPI != 0 && (buses == SPI || selects)
}

pub(crate) fn query_write_limit<P: Port + Drop>(
    link: &mut Link<P>,
    commands: &Map,
    least: u32,
) -> Result<u32, HandshakeFault<P::Cause>>
    ensures nature { (P.state (port_of link.new)).honest ≡ (P.state (port_of link.old)).honest }
    ensures enough { IfOk result (λ limit. least ≤ limit) }
    ensures in_step { is_in_step link.old ≡ true → OnOk result (is_in_step link.new ≡ true) }
    ensures concludes { (firmware : Firmware) → IsInStepWith P.state firmware link.old
        → commands.now ≡ firmware.commands
        → Concludes 3 (write_fault firmware least) (λ limit. limit ≡ write_limit firmware) result
        (P.state (port_of link.old)) (P.state (port_of link.new)) }
    ensures harmless { StaysHarmless (P.state (port_of link.old)).asked (P.state (port_of link.new)).asked }
{
    let limit = limit_of(query(link, commands, Command::QueryLongestWrite, 0x08)?);
    if limit < least {
        return Err(HandshakeFault::WriteLimit(limit));
    }
    Ok(limit)
}

pub(crate) fn query_read_limit<P: Port + Drop>(
    link: &mut Link<P>,
    commands: &Map,
    least: u32,
) -> Result<u32, HandshakeFault<P::Cause>>
    ensures nature { (P.state (port_of link.new)).honest ≡ (P.state (port_of link.old)).honest }
    ensures enough { IfOk result (λ limit. least ≤ limit) }
    ensures in_step { is_in_step link.old ≡ true → OnOk result (is_in_step link.new ≡ true) }
    ensures concludes { (firmware : Firmware) → IsInStepWith P.state firmware link.old
        → commands.now ≡ firmware.commands
        → Concludes 3 (read_fault firmware least) (λ limit. limit ≡ read_limit firmware) result
        (P.state (port_of link.old)) (P.state (port_of link.new)) }
    ensures harmless { StaysHarmless (P.state (port_of link.old)).asked (P.state (port_of link.new)).asked }
{
    let limit = limit_of(query(link, commands, Command::QueryLongestRead, 0x11)?);
    if limit < least {
        return Err(HandshakeFault::ReadLimit(limit));
    }
    Ok(limit)
}

fn limit_of(reply: Option<[u8; 3]>) -> u32
    ensures { (offered : Bool) (limit : ℕ) → limit < 16777216
        → reply ≡ (if offered then Some (three_of limit) else None) → result ≡ limit_in offered limit }
{
    let bytes = match reply {
        Some(bytes) => bytes,
        None => return NO_LIMIT,
    };
    let [low, middle, high] = bytes;
    match u32::from_le_bytes([low, middle, high, 0]) {
        0 => NO_LIMIT,
        limit => limit,
    }
}

// Returns the size of the serial buffer, or 0 if the programmer lacks Q_SERBUF. Returns the error `SmallBuffer` if the
// programmer has Q_SERBUF but lacks Q_WRNMAXLEN, and the size is less than `least`.
pub(crate) fn query_buffer<P: Port + Drop>(
    link: &mut Link<P>,
    commands: &Map,
    least: u16,
) -> Result<u16, HandshakeFault<P::Cause>>
    ensures nature { (P.state (port_of link.new)).honest ≡ (P.state (port_of link.old)).honest }
    ensures in_step { is_in_step link.old ≡ true → OnOk result (is_in_step link.new ≡ true) }
    ensures concludes { (firmware : Firmware) → IsInStepWith P.state firmware link.old
        → commands.now ≡ firmware.commands → Concludes 3 (buffer_fault firmware least)
        (λ size. size ≡ (if has_command firmware 0x04 then firmware.buffer else 0)) result
        (P.state (port_of link.old)) (P.state (port_of link.new)) }
    ensures harmless { StaysHarmless (P.state (port_of link.old)).asked (P.state (port_of link.new)).asked }
{
    let size = match query(link, commands, Command::QuerySerialBuffer, 0x04)? {
        Some(size) => u16::from_le_bytes(size),
        None => return Ok(0),
    };
    if offers(commands, 0x08) {
        return Ok(size);
    }
    if size < least {
        return Err(HandshakeFault::SmallBuffer(size));
    }
    Ok(size)
}

pub(crate) fn query_name<P: Port + Drop>(
    link: &mut Link<P>,
    commands: &Map,
) -> Result<[u8; 16], HandshakeFault<P::Cause>>
    ensures nature { (P.state (port_of link.new)).honest ≡ (P.state (port_of link.old)).honest }
    ensures in_step { is_in_step link.old ≡ true → OnOk result (is_in_step link.new ≡ true) }
    ensures concludes { (firmware : Firmware) → IsInStepWith P.state firmware link.old
        → commands.now ≡ firmware.commands → Concludes 3 None
        (λ name. name ≡ (if has_command firmware 0x03 then firmware.name else replicate 16 0)) result
        (P.state (port_of link.old)) (P.state (port_of link.new)) }
    ensures harmless { StaysHarmless (P.state (port_of link.old)).asked (P.state (port_of link.new)).asked }
{
    let name = query(link, commands, Command::QueryName, 0x03)?;
    Ok(name.unwrap_or([0; 16]))
}

pub(crate) fn set_frequency<P: Port + Drop>(
    link: &mut Link<P>,
    commands: &Map,
    hertz: Option<u32>,
) -> Result<Option<u32>, HandshakeFault<P::Cause>>
    ensures nature { (P.state (port_of link.new)).honest ≡ (P.state (port_of link.old)).honest }
    ensures in_step { is_in_step link.old ≡ true → OnOk result (is_in_step link.new ≡ true) }
    ensures concludes { (firmware : Firmware) → IsInStepWith P.state firmware link.old
        → commands.now ≡ firmware.commands → Concludes 3 (clock_fault firmware hertz)
        (λ set. set ≡ option_and_then firmware.clock hertz) result
        (P.state (port_of link.old)) (P.state (port_of link.new)) }
    ensures harmless { StaysHarmless (P.state (port_of link.old)).asked (P.state (port_of link.new)).asked }
{
    let hertz = match hertz {
        Some(hertz) => hertz,
        None => return Ok(None),
    };
    if !offers(commands, 0x14) {
        return Err(HandshakeFault::Lacks(0x14));
    }
    let mut set = [0; 4];
    ask(link, Command::SetFrequency(hertz), &mut set)?;
    Ok(Some(u32::from_le_bytes(set)))
}

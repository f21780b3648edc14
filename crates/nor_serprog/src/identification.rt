//! The handshake that identifies a programmer and prepares it for SPI, before the first transaction.
ghost use Rattle.std.specs.Prelude.{◌≡◌, ◌≤◌, true, false, OnOk, IfOk, IsErr, ⊤};
ghost use Rattle.nor_serprog.specs.Firmware.{Firmware, has_command};
ghost use Rattle.nor_serprog.specs.Harmless.{StaysHarmless};
ghost use Rattle.nor_serprog.specs.Link.{port_of, is_in_step, is_cut};
ghost use Rattle.nor_serprog.specs.Replies.{AwaitsCommand};
ghost use Rattle.nor_serprog.specs.Identify.{Concludes, IsInStepWith, IsAnyProgrammerOf, IsProgrammerOf, prepared_port};
ghost use Rattle.nor_serprog.specs.Identify.{least_fault, identify_fault, narrow_fault, select_fault, part_limit_of};

use crate::handshake::{
    Map, SPI, ask, offers, query_buffer, query_commands, query_name, query_read_limit,
    query_write_limit, require_spi, require_version, set, set_frequency, synchronize,
};
use crate::programmer::Least;
use crate::{AnyProgrammer, Command, HandshakeFault, Link, Port, Programmer};

const Q_SERBUF: u8 = 0x04;

const Q_WRNMAXLEN: u8 = 0x08;

const S_BUSTYPE: u8 = 0x12;

const S_PIN_STATE: u8 = 0x15;

const S_SPI_CS: u8 = 0x16;

const HEADER_LEN: u32 = 7;

// The number of bytes that a page program of one byte sends: an opcode, three address bytes and one data byte.
const SHORTEST_PART: u32 = 5;

impl AnyProgrammer {
    /// Identifies the programmer on a new link with the steps of `Programmer::identify`, but a transaction needs to
    /// send only 5 bytes and read 1 byte, and the serial buffer, if it is checked, needs only 12 bytes.
    pub fn identify<P: Port + Drop>(
        link: &mut Link<P>,
        hertz: Option<u32>,
    ) -> Result<AnyProgrammer, HandshakeFault<P::Cause>>
        ensures nature { (P.state (port_of link.new)).honest ≡ (P.state (port_of link.old)).honest }
        ensures in_step { OnOk result (is_in_step link.new ≡ true) }
        ensures identifies { AwaitsCommand (P.state (port_of link.old)) → is_cut link.old ≡ false
            → Concludes 58 (narrow_fault (P.state (port_of link.old)).device.firmware hertz)
            (IsAnyProgrammerOf (P.state (port_of link.old)).device.firmware hertz) result
            (prepared_port (P.state (port_of link.old))) (P.state (port_of link.new)) }
        ensures harmless { StaysHarmless (P.state (port_of link.old)).asked (P.state (port_of link.new)).asked }
    {
        let least = Least {
            write: 5,
            read: 1,
            frame: 12,
        };
        identify_for(link, hertz, least)
    }

    /// Makes the programmer use the chip select `number` (S_SPI_CS, 16h) for all later transactions. `link` must be the
    /// link to this programmer. Returns `Failure` if the exchange failed; `Failure(Refused)` means NAK.
    ///
    /// Returns `Lacks`, and sends nothing, if the programmer lacks the command, because such a programmer would treat
    /// the number as a command.
    pub fn select_chip<P: Port + Drop>(
        &self,
        link: &mut Link<P>,
        number: u8,
    ) -> Result<(), HandshakeFault<P::Cause>>
        ensures nature { (P.state (port_of link.new)).honest ≡ (P.state (port_of link.old)).honest }
        ensures unsent { self.now.selects ≡ false → link.new ≡ link.old }
        ensures lacks { self.now.selects ≡ false → IsErr result }
        ensures ok { OnOk result (is_in_step link.new ≡ true) }
        ensures selects { (firmware : Firmware) → IsInStepWith P.state firmware link.old
            → self.now.selects ≡ has_command firmware 0x16
            → Concludes 3 (select_fault firmware number) (λ _. ⊤) result
            (P.state (port_of link.old)) (P.state (port_of link.new)) }
        ensures harmless { StaysHarmless (P.state (port_of link.old)).asked (P.state (port_of link.new)).asked }
    {
        if !self.selects {
            return Err(HandshakeFault::Lacks(S_SPI_CS));
        }
        ask(link, Command::SelectChip(number), &mut [])
    }
}

impl Programmer {
    ghost use Rattle.nor_serprog.specs.Programmer.{has_chip_selects};

    /// Identifies the programmer on a new link, and prepares it for SPI without selecting the chip. The steps
    /// (flashrom's Documentation/serprog-protocol.txt):
    ///
    /// - synchronize, and require version 1 of the protocol (Q_IFACE) and the command O_SPIOP (Q_CMDMAP)
    /// - require SPI (Q_BUSTYPE), and select it (S_BUSTYPE); without S_BUSTYPE, SPI must be the only type of bus
    /// - require that a transaction may send 260 bytes (Q_WRNMAXLEN) and read 4,096 bytes (Q_RDNMAXLEN)
    /// - with Q_SERBUF but without Q_WRNMAXLEN, require that 267 bytes fit into the serial buffer
    /// - read the name (Q_PGMNAME), request a clock of at most `hertz`, if given (S_SPI_FREQ), and switch the pin
    ///   drivers on (S_PIN_STATE)
    ///
    /// After the first step, a command that is not in the programmer's map is not sent, and the part of a step that
    /// needs this command is skipped. A clock that is requested without S_SPI_FREQ is an error.
    ///
    /// If the port is well-behaved, the programmer is idle and the link isn't `Sync::Cut`, the call fails only with the
    /// first error that the firmware causes (`identify_fault`), or because fewer than 58 calls of the port were left.
    /// After `Ok` the programmer is idle.
    pub fn identify<P: Port + Drop>(
        link: &mut Link<P>,
        hertz: Option<u32>,
    ) -> Result<Programmer, HandshakeFault<P::Cause>>
        ensures nature { (P.state (port_of link.new)).honest ≡ (P.state (port_of link.old)).honest }
        ensures in_step { OnOk result (is_in_step link.new ≡ true) }
        ensures identifies { AwaitsCommand (P.state (port_of link.old)) → is_cut link.old ≡ false
            → Concludes 58 (identify_fault (P.state (port_of link.old)).device.firmware hertz)
            (IsProgrammerOf (P.state (port_of link.old)).device.firmware hertz) result
            (prepared_port (P.state (port_of link.old))) (P.state (port_of link.new)) }
        ensures harmless { StaysHarmless (P.state (port_of link.old)).asked (P.state (port_of link.new)).asked }
    {
        let least = Least {
            write: 260,
            read: 4096,
            frame: 267,
        };
        let reported = identify_for(link, hertz, least)?;
        Ok(Programmer { reported })
    }

    /// Makes the programmer use the chip select `number` for all later transactions (`AnyProgrammer::select_chip`).
    pub fn select_chip<P: Port + Drop>(
        &self,
        link: &mut Link<P>,
        number: u8,
    ) -> Result<(), HandshakeFault<P::Cause>>
        ensures nature { (P.state (port_of link.new)).honest ≡ (P.state (port_of link.old)).honest }
        ensures unsent { has_chip_selects self.now ≡ false → link.new ≡ link.old }
        ensures lacks { has_chip_selects self.now ≡ false → IsErr result }
        ensures ok { OnOk result (is_in_step link.new ≡ true) }
        ensures selects { (firmware : Firmware) → IsInStepWith P.state firmware link.old
            → has_chip_selects self.now ≡ has_command firmware 0x16
            → Concludes 3 (select_fault firmware number) (λ _. ⊤) result
            (P.state (port_of link.old)) (P.state (port_of link.new)) }
        ensures harmless { StaysHarmless (P.state (port_of link.old)).asked (P.state (port_of link.new)).asked }
    {
        self.reported.select_chip(link, number)
    }
}

fn identify_for<P: Port + Drop>(
    link: &mut Link<P>,
    hertz: Option<u32>,
    least: Least,
) -> Result<AnyProgrammer, HandshakeFault<P::Cause>>
    requires write { 5 ≤ least.write }
    requires read { 1 ≤ least.read }
    ensures nature { (P.state (port_of link.new)).honest ≡ (P.state (port_of link.old)).honest }
    ensures in_step { OnOk result (is_in_step link.new ≡ true) }
    ensures writes { IfOk result (λ programmer. least.write ≤ programmer.longest_write) }
    ensures reads { IfOk result (λ programmer. least.read ≤ programmer.longest_read) }
    ensures identifies { AwaitsCommand (P.state (port_of link.old)) → is_cut link.old ≡ false
        → Concludes 58 (least_fault least (P.state (port_of link.old)).device.firmware hertz)
        (IsAnyProgrammerOf (P.state (port_of link.old)).device.firmware hertz) result
        (prepared_port (P.state (port_of link.old))) (P.state (port_of link.new)) }
    ensures harmless { StaysHarmless (P.state (port_of link.old)).asked (P.state (port_of link.new)).asked }
{
    synchronize(link)?;
    require_version(link)?;
    let commands = query_commands(link)?;
    require_spi(link, &commands)?;
    set(link, &commands, Command::SetBuses(SPI), S_BUSTYPE)?;
    let longest_write = query_write_limit(link, &commands, least.write)?;
    let longest_read = query_read_limit(link, &commands, least.read)?;
    let serial_buffer = query_buffer(link, &commands, least.frame)?;
    let name = query_name(link, &commands)?;
    let frequency = set_frequency(link, &commands, hertz)?;
    set(link, &commands, Command::SetPins(true), S_PIN_STATE)?;
    Ok(AnyProgrammer {
        name,
        longest_write,
        longest_read,
        longest_part: part_limit(&commands, longest_write, serial_buffer),
        serial_buffer,
        frequency,
        selects: offers(&commands, S_SPI_CS),
    })
}

fn part_limit(commands: &Map, longest_write: u32, serial_buffer: u16) -> u32
    requires { 5 ≤ longest_write }
    ensures value { result ≡ part_limit_of commands.now longest_write serial_buffer }
    ensures enough { 5 ≤ result }
{
    if offers(commands, Q_WRNMAXLEN) {
        return longest_write;
    }
    if offers(commands, Q_SERBUF) {
        let fits = u32::from(serial_buffer).saturating_sub(HEADER_LEN);
        return longest_write.min(fits).max(SHORTEST_PART);
    }
    longest_write
}

//! The faults of a programmer, and the lines that are printed for them.

use crate::port_fault::PortFault;
use board_files::Quoted;
use nor_console::{Escaped, SystemReason};
use nor_serprog::{Failure, HandshakeFault};
use std::fmt;

// The arguments with which `stty` sets up a serial port for this program.
pub const STTY_ARGUMENTS: &str = "raw -echo clocal -hupcl min 0 time 50";

/// The reason why the programmer can't be used. Before such a fault, at most the transactions of `wake`,
/// `look_for_chip` and `try_reads` were sent to the chip.
#[derive(Drop)]
pub enum ProgrammerFault {
    /// The device is missing, or the system could not open or lock it.
    NotOpened(SystemReason),
    /// The file of this name is no character device.
    NoDevice,
    /// Another process has locked the device.
    InUse,
    /// The port failed, or the programmer replied wrongly or lacks something that this program needs.
    Handshake(HandshakeFault<PortFault>),
    /// The port changes bytes that are sent.
    ChangesBytes,
    /// Frames as long as that of a page program don't reach the chip as they should.
    LongFrames,
    /// Reads that overlap differ, as they do if the chip takes four address bytes.
    Addresses,
}

// The parts of the line of a fault. `ChangedLine` prints the line with the number 13.
#[derive(Drop)]
struct Row<'a> {
    number: u8,
    text: Text<'a>,
    remedy: Remedy,
}

#[derive(Drop)]
enum Text<'a> {
    /// This text, after the name of the device.
    Device(&'static str),
    Handshake(&'a HandshakeFault<PortFault>),
}

#[derive(Clone, Copy, Drop)]
enum Remedy {
    Do(&'static str),
    /// This text, and then the `stty` command that sets up the port.
    WithSttyCommand(&'static str),
}

fn row_of(fault: &ProgrammerFault) -> Row<'_> {
    match fault {
        ProgrammerFault::NotOpened(reason) => row_if_not_opened(*reason),
        ProgrammerFault::NoDevice => device_row(
            2,
            "is not a character device",
            Remedy::Do("Name the serial port of the programmer."),
        ),
        ProgrammerFault::InUse => device_row(
            3,
            "is in use by another program",
            Remedy::Do("Wait until that program has ended."),
        ),
        ProgrammerFault::Handshake(fault) => handshake_row(fault),
        ProgrammerFault::ChangesBytes => device_row(
            12,
            "changes bytes that are sent to the programmer",
            Remedy::WithSttyCommand(
                "Disconnect the programmer from power for a second, connect it again, and set up the port:",
            ),
        ),
        ProgrammerFault::LongFrames => device_row(
            14,
            "doesn't send a page program as one whole transaction",
            LONGER_FRAMES,
        ),
        ProgrammerFault::Addresses => device_row(
            15,
            "has a chip whose overlapping reads differ: it takes four address bytes, or a contact is bad",
            NO_FOUR_BYTE_MODE,
        ),
    }
}

const LONGER_FRAMES: Remedy = Remedy::Do(
    "Disconnect the chip and its board from all power for ten seconds, and try again. If the line appears again, \
    install firmware that sends 260 bytes in a transaction, or that says how many it sends (Q_WRNMAXLEN).",
);

const NO_FOUR_BYTE_MODE: Remedy = Remedy::Do(
    "Check contacts, disconnect the chip and its board from all power for ten seconds, and try again. If the line \
    appears again, the chip is set to begin in four-byte mode: this program can't use it.",
);

fn row_if_not_opened(reason: SystemReason) -> Row<'static> {
    match reason {
        SystemReason::Missing => device_row(
            1,
            "cannot be opened: there is no such file",
            Remedy::Do("Check its name, and that the programmer is connected."),
        ),
        SystemReason::Denied => device_row(
            1,
            "cannot be opened: permission denied",
            Remedy::Do("Become a member of the device's group (often dialout), and log in again."),
        ),
        _ => device_row(
            1,
            "cannot be opened",
            Remedy::Do("Check its name, and that you may read and write it."),
        ),
    }
}

fn device_row(number: u8, text: &'static str, remedy: Remedy) -> Row<'static> {
    Row {
        number,
        text: Text::Device(text),
        remedy,
    }
}

fn handshake_row(fault: &HandshakeFault<PortFault>) -> Row<'_> {
    let (number, remedy) = match fault {
        HandshakeFault::Failure(failure) => failure_row(failure),
        HandshakeFault::Version(_) => (6, SUSPECT_FIRMWARE),
        HandshakeFault::Lacks(0x14) => (7, Remedy::Do("Leave spispeed= out.")),
        HandshakeFault::Lacks(0x16) => (7, Remedy::Do("Leave cs= out.")),
        HandshakeFault::Lacks(_) => (7, SUSPECT_FIRMWARE),
        HandshakeFault::NotSpi(_) => (8, SUSPECT_FIRMWARE),
        HandshakeFault::WriteLimit(_) => (9, SUSPECT_FIRMWARE),
        HandshakeFault::ReadLimit(_) => (9, SUSPECT_FIRMWARE),
        HandshakeFault::SmallBuffer(_) => (9, SUSPECT_FIRMWARE),
    };
    Row {
        number,
        text: Text::Handshake(fault),
        remedy,
    }
}

fn failure_row(failure: &Failure<PortFault>) -> (u8, Remedy) {
    match failure {
        Failure::Port(PortFault::Silent) => (4, MAY_AWAIT_COMMAND),
        Failure::Port(PortFault::System(_)) => (
            10,
            Remedy::WithSttyCommand("Connect the programmer again, and set up the port:"),
        ),
        Failure::Refused(0x16) => (
            11,
            Remedy::Do("Give cs= the number of another chip select."),
        ),
        Failure::Refused(_) => (11, SUSPECT_FIRMWARE),
        _ => (
            5,
            Remedy::WithSttyCommand(
                "Disconnect the programmer from power, connect it again, and set up the port:",
            ),
        ),
    }
}

const MAY_AWAIT_COMMAND: Remedy = Remedy::WithSttyCommand(
    "Check its cable. It may wait for the rest of a command of an interrupted run, and each run may complete a part \
    of this command: before the next run, disconnect the programmer from power for a second, connect it again, and \
    set up the port:",
);

// A port that echoes, or a programmer that waits for the rest of a command, may cause the same replies as bad firmware.
const SUSPECT_FIRMWARE: Remedy = Remedy::WithSttyCommand(
    "Disconnect the programmer from power for a second, connect it again, set up the port, and repeat the run; \
    install other firmware only if the same line appears again. To set up the port:",
);

/// The line of a programmer fault, with what to do about it.
#[derive(Clone, Copy, Drop)]
pub struct ProgrammerLine<'a> {
    pub fault: &'a ProgrammerFault,
    /// The name of the programmer's device.
    pub device: &'a str,
}

impl fmt::Display for ProgrammerLine<'_> {
    fn fmt<W: fmt::Write>(&self, f: &mut fmt::Formatter<W>) -> fmt::Result {
        let (row, device) = (row_of(self.fault), self.device);
        write!(f, "Programmer fault {}: ", row.number)?;
        match row.text {
            Text::Device(text) => write!(f, "{} {text}. ", Escaped(device))?,
            Text::Handshake(fault) => write!(f, "{}. ", HandshakeText(fault))?,
        }
        match row.remedy {
            Remedy::Do(what) => f.write_str(what),
            Remedy::WithSttyCommand(what) => write!(f, "{what} {}", SetUp(device)),
        }
    }
}

// The printed text of a handshake fault: that of nor_serprog, except for a silent programmer and for a limit on reads.
#[derive(Clone, Copy, Drop)]
struct HandshakeText<'a>(&'a HandshakeFault<PortFault>);

impl fmt::Display for HandshakeText<'_> {
    fn fmt<W: fmt::Write>(&self, f: &mut fmt::Formatter<W>) -> fmt::Result {
        match self.0 {
            HandshakeFault::Failure(failure) => write!(f, "{}", FailureText(failure)),
            HandshakeFault::ReadLimit(most) => write!(
                f,
                "the programmer reads at most {most} bytes in a transaction, and a unique ID has 8"
            ),
            fault => write!(f, "{fault}"),
        }
    }
}

// The command that sets up the device as a serial port, or advice to rename a device whose name no command can contain.
#[derive(Clone, Copy, Drop)]
struct SetUp<'a>(&'a str);

impl fmt::Display for SetUp<'_> {
    fn fmt<W: fmt::Write>(&self, f: &mut fmt::Formatter<W>) -> fmt::Result {
        match Quoted::new(self.0) {
            Some(device) => write!(f, "stty -F {device} {STTY_ARGUMENTS}"),
            None => write!(
                f,
                "rename {}, whose name no command can have",
                Escaped(self.0)
            ),
        }
    }
}

/// The printed text of a failed exchange: that of nor_serprog, except for a silent programmer.
#[derive(Drop)]
pub struct FailureText<'a>(pub &'a Failure<PortFault>);

impl fmt::Display for FailureText<'_> {
    fn fmt<W: fmt::Write>(&self, f: &mut fmt::Formatter<W>) -> fmt::Result {
        match self.0 {
            Failure::Port(PortFault::Silent) => f.write_str("the programmer is silent"),
            failure => write!(f, "{failure}"),
        }
    }
}

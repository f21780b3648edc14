//! The commands of serprog as bytes, and the meaning of the first byte of a reply.

ghost use Rattle.std.specs.Prelude.{◌≡◌, ◌<◌, ◌≤◌, ◌↔◌, [], ◌++◌, ℕ, List, length, IfOk, IsOk, IsSome, if◌then◌else◌, ◌==◌};
ghost use Rattle.nor_serprog.specs.Frame.{frame_of, operation_frame, argument_count, FitsFrame, IsFrame, ReadsAs, frame_len as frame_len_of};
ghost use Rattle.nor_serprog.specs.declared.command.Answer.TheVariants as Answers;

use arrayvec::ArrayVec;
use thiserror::Error;

/// The greatest number of bytes that an O_SPIOP of this crate sends: an opcode, three address bytes and a page.
pub const LONGEST_OUT: usize = 260;

// The length of the header of an O_SPIOP frame: its opcode and two 24-bit lengths.
const HEADER_LEN: usize = 7;

const LONGEST_FRAME: usize = HEADER_LEN + LONGEST_OUT;

const REPLIES_END: u32 = 1 << 24;

/// The bytes of one command: its opcode and its arguments.
pub type Frame = ArrayVec<u8, LONGEST_FRAME>;

/// A command of the serprog protocol, version 1 (flashrom's Documentation/serprog-protocol.txt). The commands for
/// parallel chips and the operation buffer, and those after 16h, are left out. The lengths of replies exclude the ACK.
#[derive(Clone, Copy, Debug, PartialEq, Eq)]
pub enum Command<'a> {
    /// 00h, NOP: has no effect.
    Nop,
    /// 01h, Q_IFACE: queries the version of the protocol. The reply has 2 bytes.
    QueryInterface,
    /// 02h, Q_CMDMAP: queries the map of the programmer's commands. The reply has 32 bytes.
    QueryCommands,
    /// 03h, Q_PGMNAME: queries the name of the programmer. The reply has 16 bytes, padded with zeros.
    QueryName,
    /// 04h, Q_SERBUF: queries the size of the serial buffer. The reply has 2 bytes.
    QuerySerialBuffer,
    /// 05h, Q_BUSTYPE: queries the types of bus that the programmer supports. The reply is a byte of flags.
    QueryBuses,
    /// 08h, Q_WRNMAXLEN: queries how many bytes an O_SPIOP may send. The reply has 3 bytes; 0 means 2^24.
    QueryLongestWrite,
    /// 10h, SYNCNOP: has no effect. The reply is NAK and then ACK.
    SyncNop,
    /// 11h, Q_RDNMAXLEN: queries how many bytes an O_SPIOP may read. The reply has 3 bytes; 0 means 2^24.
    QueryLongestRead,
    /// 12h, S_BUSTYPE: selects the types of bus with these flags: 1 parallel, 2 LPC, 4 FWH, 8 SPI.
    SetBuses(u8),
    /// 13h, O_SPIOP: makes one SPI transaction that sends `out` and then reads `replies` bytes.
    Operate { out: &'a [u8], replies: u32 },
    /// 14h, S_SPI_FREQ: requests this clock in hertz. The reply has the clock that was set, in 4 bytes.
    SetFrequency(u32),
    /// 15h, S_PIN_STATE: switches the programmer's pin drivers on or off.
    SetPins(bool),
    /// 16h, S_SPI_CS: selects the chip select with this number. Only newer descriptions of version 1 have this command.
    SelectChip(u8),
}

/// The error for a command that does not fit into a frame, because it sends or reads too many bytes.
#[derive(Clone, Copy, Debug, PartialEq, Eq, Error)]
#[error("a transaction that sends more than 260 bytes or reads 16777216 or more does not fit into a serprog frame")]
pub struct TooLong;

impl Command<'_> {
    /// Returns the frame of the command, or `TooLong`, which only `Operate` can cause. A programmer reads exactly this
    /// command from the frame, and no longer frame begins with this frame.
    pub fn encode(self) -> Result<Frame, TooLong>
        ensures fits { IsOk result ↔ FitsFrame self.entry }
        ensures exact { IfOk result (λ frame. frame.items ≡ frame_of self.entry) }
        ensures whole { IfOk result (λ frame. IsFrame frame.items) }
        ensures reads { IfOk result (λ frame. ReadsAs frame.items self.entry) }
        ensures alone { IfOk result (λ frame. (more : List ℕ) → IsFrame (frame.items ++ more) → more ≡ []) }
    {
        match self {
            Command::Nop => short(&[0x00]),
            Command::QueryInterface => short(&[0x01]),
            Command::QueryCommands => short(&[0x02]),
            Command::QueryName => short(&[0x03]),
            Command::QuerySerialBuffer => short(&[0x04]),
            Command::QueryBuses => short(&[0x05]),
            Command::QueryLongestWrite => short(&[0x08]),
            Command::SyncNop => short(&[0x10]),
            Command::QueryLongestRead => short(&[0x11]),
            Command::SetBuses(flags) => short(&[0x12, flags]),
            Command::Operate { out, replies } => operation(out, replies),
            Command::SetFrequency(hertz) => {
                let [a, b, c, d] = hertz.to_le_bytes();
                short(&[0x14, a, b, c, d])
            }
            Command::SetPins(enabled) => short(&[0x15, u8::from(enabled)]),
            Command::SelectChip(number) => short(&[0x16, number]),
        }
    }
}

fn short(bytes: &[u8]) -> Result<Frame, TooLong>
    requires { length bytes.now ≤ 267 }
    ensures fits { IsOk result }
    ensures exact { IfOk result (λ frame. frame.items ≡ bytes.now) }
{
    let mut frame = Frame::new();
    frame.try_extend_from_slice(bytes).map_err(|_| TooLong)?;
    Ok(frame)
}

fn operation(out: &[u8], replies: u32) -> Result<Frame, TooLong>
    ensures fits { IsOk result ↔ (length out.now ≤ 260) × (replies < 16777216) }
    ensures exact { IfOk result (λ frame. frame.items ≡ operation_frame out.now replies) }
{
    if out.len() > LONGEST_OUT || replies >= REPLIES_END {
        return Err(TooLong);
    }
    let [sent_low, sent_middle, sent_high, _] = (out.len() as u32).to_le_bytes();
    let [read_low, read_middle, read_high, _] = replies.to_le_bytes();
    let mut frame = short(&[
        0x13,
        sent_low,
        sent_middle,
        sent_high,
        read_low,
        read_middle,
        read_high,
    ])?;
    frame.try_extend_from_slice(out).map_err(|_| TooLong)?;
    Ok(frame)
}

/// Returns the length of the frame that begins with the bytes `begun`, or `None` if more bytes are needed to determine
/// this length. An opcode after 16h counts as a command without arguments.
pub fn frame_len(begun: &[u8]) -> Option<usize>
    ensures value { result ≡ frame_len_of begun.now }
    ensures known { (more : List ℕ) → IsSome result → frame_len_of (begun.now ++ more) ≡ result }
{
    match begun {
        [0x13 | 0x0D, low, middle, high, ..] => {
            let len = u32::from_le_bytes([*low, *middle, *high, 0]);
            Some(HEADER_LEN + len as usize)
        }
        [0x13 | 0x0D, ..] => None,
        [opcode, ..] => Some(1 + arguments_len(*opcode)),
        [] => None,
    }
}

fn arguments_len(opcode: u8) -> usize
    ensures { result ≡ argument_count opcode }
{
    match opcode {
        0x12 | 0x15 | 0x16 => 1,
        0x09 => 3,
        0x0C | 0x0E | 0x14 => 4,
        0x0A => 6,
        _ => 0,
    }
}

/// The meaning of the first byte of a reply.
#[derive(Clone, Copy, Debug, PartialEq, Eq)]
pub enum Answer {
    /// 06h, ACK: the command was carried out, and the bytes that it returns follow.
    Ack,
    /// 15h, NAK: the command was refused, and nothing follows, except after SYNCNOP, whose reply is NAK and then ACK.
    Nak,
    /// Any other byte, which begins no valid reply.
    Other(u8),
}

impl Answer {
    /// Returns the meaning of `byte` as the first byte of a reply.
    pub fn of(byte: u8) -> Answer
        ensures { result
            ≡ (if byte == 0x06 then Answers.Ack else if byte == 0x15 then Answers.Nak else Answers.Other byte) }
    {
        match byte {
            0x06 => Answer::Ack,
            0x15 => Answer::Nak,
            other => Answer::Other(other),
        }
    }
}

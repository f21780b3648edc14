//! A simulated port to a simulated programmer with a simulated chip, all in memory.
ghost use Rattle.std.specs.Prelude.{◌≡◌, ◌≤◌, ◌+◌, ◌++◌, ◌∷◌, true, false, [], ℕ, List, Option, None, length, slice_index};
ghost use Rattle.std.specs.Prelude.{OnOk, OnErr, MatchOption};
ghost use Rattle.nor_serprog.specs.Device.{IsIdle, IsSent, IsCutOff, IsCut, StepsOnce};
ghost use Rattle.nor_serprog.specs.Firmware.{HaveReplies, frames_of, replies_of, settings_after_all};
ghost use Rattle.nor_serprog.specs.Frame.{out_in, replies_in};
ghost use Rattle.nor_serprog.specs.Wire.{asked_on, received_on};
ghost use Rattle.nor_serprog.specs.declared.command.Command.{Command};
ghost use Rattle.serprog_session.specs.SimPort.{simulated_chip, simulated_firmware, simulated_reply, left_of};
ghost use Rattle.serprog_session.specs.SimPort.{bus_type_after, simulated_settings, device_over, port_over};
ghost use Rattle.serprog_session.specs.SimPort.{IsOneFrame, AreOperations, ArePair};

use crate::padded_reads::read_on;
use arrayvec::ArrayVec;
use nor_chip::{Bus, Meter, SimBus};
use nor_serprog::{Port, Wire, frame_len};
use thiserror::Error;

const ACK: u8 = 0x06;

const NAK: u8 = 0x15;

const O_SPIOP: u8 = 0x13;

// The greatest number of bytes that a transaction may read: the length of a sector.
const MOST_READ: usize = 4096;

// The greatest number of pending reply bytes: two ACKs and the bytes of a read, after two frames of O_SPIOP.
const MOST_PENDING: usize = 2 + MOST_READ;

const SERIAL_BUFFER: usize = 512;

// The reply to Q_SERBUF: ACK and the size of the serial buffer, low byte first.
const BUFFER: [u8; 3] = [ACK, 0x00, 0x02];

// The reply to Q_RDNMAXLEN: ACK and 4,096 (`MOST_READ`), low byte first.
const LONGEST_READ: [u8; 4] = [ACK, 0x00, 0x10, 0x00];

// The reply to Q_CMDMAP: ACK, and the map with the commands 00h, 01h, 02h, 04h and 10h to 13h.
const COMMANDS: [u8; 33] = [
    ACK, 0x17, 0, 0x0F, 0, 0, 0, 0, 0, 0, 0, 0, 0, 0, 0, 0, 0, 0, 0, 0, 0, 0, 0, 0, 0, 0, 0, 0, 0,
    0, 0, 0, 0,
];

/// The reason why a call of a `SimPort` failed: `Cut` for `send`, `Silent` for `receive`.
#[derive(Clone, Copy, Debug, PartialEq, Eq, Error)]
pub enum SimFailure {
    #[error("the simulated port was cut")]
    Cut,
    #[error("the simulated programmer is silent")]
    Silent,
}

/// A well-behaved port to a simulated serprog programmer with a simulated chip. The port carries out at most the given
/// number of calls, and then fails; after any failure no call succeeds.
///
/// The programmer can be identified (`Programmer::identify`), has a serial buffer of 512 bytes, and reads at most 4,096
/// bytes in a transaction. It carries out O_SPIOP frames only if a `send` sends exactly one frame, or exactly two that fit into the buffer and of which the
/// first requests no reply bytes. Its reply to any other O_SPIOP frame is NAK.
///
/// If the port fails while it sends an O_SPIOP whose reply isn't NAK, the chip stops as `SimBus::tear` and
/// `SimBus::lose` specify. The last call that is left can't send two O_SPIOP frames: it fails, at the latest in the
/// second. `send` also fails if such an O_SPIOP reads more than 4,096 bytes or is sent while a reply is pending, or if
/// more than 4,098 reply bytes would be pending. `receive` also fails if it requests more bytes than are pending.
#[derive(Drop)]
pub struct SimPort {
    chip: SimBus,
    pending: ArrayVec<u8, MOST_PENDING>,
    // The flags of the last S_BUSTYPE, or `None` if no S_BUSTYPE was sent.
    bus_type: Option<u8>,
    left: u64,
    wire: Wire,
}

impl SimPort {
    /// Returns a port to a programmer with this chip. At most `left` calls of the port can succeed.
    pub fn new(chip: SimBus, left: u64) -> SimPort
        ensures chip { simulated_chip result ≡ chip }
        ensures state { ⟦<SimPort as Port>⟧.state result ≡ port_over (⟦<SimBus as Bus>⟧.state chip) None [] left
            [] [] }
    {
        SimPort {
            chip,
            pending: ArrayVec::new(),
            bus_type: None,
            left,
            wire: Wire::new(),
        }
    }

    /// Returns the chip.
    pub fn chip(&self) -> &SimBus
        ensures { result.now ≡ simulated_chip self.now }
    {
        &self.chip
    }

    /// Returns the greatest number of calls that can still succeed.
    pub fn left(&self) -> u64
        ensures { result ≡ left_of self.now }
    {
        self.left
    }

    /// Returns whether no reply byte is pending.
    pub fn is_idle(&self) -> bool
        ensures { result ≡ true → IsIdle (⟦<SimPort as Port>⟧.state self.now).device }
    {
        self.pending.is_empty()
    }

    // Carries out a frame of O_SPIOP, or stops the chip at the transaction (`cut`) and returns `Cut`.
    fn operate(&mut self, frame: &[u8]) -> Result<(), SimFailure>
        requires { IsOneFrame frame.now }
        ensures asked { (⟦<SimPort as Port>⟧.state self.new).asked
            ≡ frame.now ∷ (⟦<SimPort as Port>⟧.state self.old).asked }
        ensures unreceived { (⟦<SimPort as Port>⟧.state self.new).received
            ≡ (⟦<SimPort as Port>⟧.state self.old).received }
        ensures sent { OnOk result (IsSent frame.now (⟦<SimPort as Port>⟧.state self.old)
            (⟦<SimPort as Port>⟧.state self.new)) }
        ensures cut_off { OnErr result (IsCutOff frame.now (⟦<SimPort as Port>⟧.state self.old)
            (⟦<SimPort as Port>⟧.state self.new)) }
    {
        self.wire.asked(frame);
        let mut reply = [0; MOST_READ];
        let reply = match reply.get_mut(..reply_len(frame)) {
            Some(reply) if self.left > 0 && self.pending.is_empty() => reply,
            _ => {
                self.left = 0;
                cut(&mut self.chip, sent_by(frame));
                return Err(SimFailure::Cut);
            }
        };
        self.left -= 1;
        transact(&mut self.chip, sent_by(frame), reply);
        self.pending = acknowledged(reply);
        Ok(())
    }

    // Carries out two frames of O_SPIOP, or stops the chip at one of the transactions and returns `Cut`. The chip stops
    // at the second one only if one call was left.
    fn operate_both(&mut self, bytes: &[u8], first: &[u8], second: &[u8]) -> Result<(), SimFailure>
        requires { ArePair first.now second.now bytes.now }
        ensures asked { (⟦<SimPort as Port>⟧.state self.new).asked
            ≡ bytes.now ∷ (⟦<SimPort as Port>⟧.state self.old).asked }
        ensures unreceived { (⟦<SimPort as Port>⟧.state self.new).received
            ≡ (⟦<SimPort as Port>⟧.state self.old).received }
        ensures sent { OnOk result (IsSent bytes.now (⟦<SimPort as Port>⟧.state self.old)
            (⟦<SimPort as Port>⟧.state self.new)) }
        ensures cut_off { OnErr result (IsCutOff bytes.now (⟦<SimPort as Port>⟧.state self.old)
            (⟦<SimPort as Port>⟧.state self.new)) }
    {
        self.wire.asked(bytes);
        let mut reply = [0; MOST_READ];
        let reply = match reply.get_mut(..reply_len(second)) {
            Some(reply) if self.left > 0 && self.pending.is_empty() => reply,
            _ => {
                self.left = 0;
                cut(&mut self.chip, sent_by(first));
                return Err(SimFailure::Cut);
            }
        };
        transact(&mut self.chip, sent_by(first), &mut []);
        if self.left == 1 {
            self.left = 0;
            cut(&mut self.chip, sent_by(second));
            return Err(SimFailure::Cut);
        }
        self.left -= 1;
        transact(&mut self.chip, sent_by(second), reply);
        self.pending = both_acknowledged(reply);
        Ok(())
    }
}

impl Port for SimPort {
    type Cause = SimFailure;

    ghost state = { λ port. port_over (⟦<SimBus as Bus>⟧.state port.chip) port.bus_type port.pending.items port.left
        (asked_on port.wire) (received_on port.wire) };

    ghost reaches = { λ port honest. record {
      busy = port.chip.flash.busy_in;
      kept1 = port.chip.flash.kept1_in;
      kept2 = port.chip.flash.kept2_in;
      bytes = port.chip.flash.bytes_in;
    } };

    #[tactic(auto, using(crate::proofs::Pairs::never_both))]
    fn send(&mut self, bytes: &[u8]) -> Result<(), SimFailure> {
        if is_operation(bytes) {
            return self.operate(bytes);
        }
        if let Some((first, second)) = pair_in(bytes) {
            return self.operate_both(bytes, first, second);
        }
        self.wire.asked(bytes);
        if self.left == 0 {
            return Err(SimFailure::Cut);
        }
        if !reply_to_each(&mut self.pending, &mut self.bus_type, bytes) {
            self.left = 0;
            return Err(SimFailure::Cut);
        }
        self.left -= 1;
        Ok(())
    }

    fn receive(&mut self, bytes: &mut [u8]) -> Result<(), SimFailure> {
        let len = bytes.len();
        if self.left == 0 || self.pending.len() < len {
            self.left = 0;
            return Err(SimFailure::Silent);
        }
        self.left -= 1;
        let (taken, later) = self.pending.as_slice().split_at(len);
        bytes.copy_from_slice(taken);
        let mut rest = ArrayVec::new();
        let _ = rest.try_extend_from_slice(later);
        self.pending = rest;
        self.wire.received(bytes);
        Ok(())
    }
}

fn is_operation(bytes: &[u8]) -> bool
    ensures operation { result ≡ true → IsOneFrame bytes.now }
    ensures other { result ≡ false → ¬ IsOneFrame bytes.now }
{
    bytes.first() == Some(&O_SPIOP) && frame_len(bytes) == Some(bytes.len())
}

fn are_operations(first: &[u8], second: &[u8]) -> bool
    ensures operations { result ≡ true → AreOperations first.now second.now }
    ensures other { result ≡ false → ¬ AreOperations first.now second.now }
{
    is_operation(first) && reply_len(first) == 0 && is_operation(second)
}

fn pair_in(bytes: &[u8]) -> Option<(&[u8], &[u8])>
    ensures { MatchOption result ((first second : List ℕ) → ¬ ArePair first second bytes.now)
        (λ pair. ArePair pair.0.now pair.1.now bytes.now) }
{
    let len = frame_len(bytes).unwrap_or(usize::MAX);
    let (first, second) = bytes.split_at_checked(len)?;
    if bytes.len() <= SERIAL_BUFFER && are_operations(first, second) {
        Some((first, second))
    } else {
        None
    }
}

fn sent_by(frame: &[u8]) -> &[u8]
    ensures { result.now ≡ out_in frame.now }
{
    frame.get(7..).unwrap_or(&[])
}

fn reply_len(frame: &[u8]) -> usize
    ensures { result ≡ replies_in frame.now }
{
    let header = [byte_at(frame, 4), byte_at(frame, 5), byte_at(frame, 6), 0];
    u32::from_le_bytes(header) as usize
}

fn byte_at(bytes: &[u8], index: usize) -> u8
    ensures { result ≡ slice_index bytes.now index }
{
    bytes.get(index).copied().unwrap_or(0)
}

fn acknowledged(bytes: &[u8]) -> ArrayVec<u8, MOST_PENDING>
    requires { length bytes.now ≤ 4096 }
    ensures { result.items ≡ 0x06 ∷ bytes.now }
{
    let mut reply = ArrayVec::new();
    let _ = reply.try_push(ACK);
    let _ = reply.try_extend_from_slice(bytes);
    reply
}

fn both_acknowledged(bytes: &[u8]) -> ArrayVec<u8, MOST_PENDING>
    requires { length bytes.now ≤ 4096 }
    ensures { result.items ≡ 0x06 ∷ 0x06 ∷ bytes.now }
{
    let mut reply = ArrayVec::new();
    let _ = reply.try_push(ACK);
    let _ = reply.try_push(ACK);
    let _ = reply.try_extend_from_slice(bytes);
    reply
}

fn transact(chip: &mut SimBus, out: &[u8], reply: &mut [u8])
    ensures { (bus_type : Option ℕ) (pending pending' : List ℕ) → StepsOnce out.now reply.new
        (device_over (⟦<SimBus as Bus>⟧.state chip.old) bus_type pending)
        (device_over (⟦<SimBus as Bus>⟧.state chip.new) bus_type pending') }
{
    carry_out(chip, out, &mut *reply);
    read_on(chip, out, reply);
}

fn carry_out(chip: &mut SimBus, out: &[u8], reply: &mut [u8])
    ensures { (bus_type : Option ℕ) (pending pending' : List ℕ) → StepsOnce out.now reply.new
        (device_over (⟦<SimBus as Bus>⟧.state chip.old) bus_type pending)
        (device_over (⟦<SimBus as Bus>⟧.state chip.new) bus_type pending') }
{
    chip.allow(1);
    let _ = chip.transfer(out, reply);
}

// Stops the chip in a transaction that sends `out`. The effect of the stop was set by `SimBus::tear` and `lose`.
fn cut(chip: &mut SimBus, out: &[u8])
    ensures { (bus_type : Option ℕ) (pending pending' : List ℕ) → IsCut out.now
        (device_over (⟦<SimBus as Bus>⟧.state chip.old) bus_type pending)
        (device_over (⟦<SimBus as Bus>⟧.state chip.new) bus_type pending') }
{
    chip.allow(0);
    let _ = chip.transfer(out, &mut []);
}

// Appends the reply to each of these frames to `pending`, and stores the type of bus that they select, if any, in
// `bus_type`. Ignores bytes after the last whole frame. Returns false if the replies do not fit.
fn reply_to_each(
    pending: &mut ArrayVec<u8, MOST_PENDING>,
    bus_type: &mut Option<u8>,
    frames: &[u8],
) -> bool
    ensures replies { (commands : List Command) → frames.now ≡ frames_of commands
        → HaveReplies simulated_firmware commands → result ≡ true
        → pending.new.items ≡ pending.old.items ++ replies_of simulated_firmware commands }
    ensures selects { (commands : List Command) → frames.now ≡ frames_of commands
        → HaveReplies simulated_firmware commands → result ≡ true → simulated_settings bus_type.new
        ≡ settings_after_all simulated_firmware commands (simulated_settings bus_type.old) }
    ensures fits { (commands : List Command) → frames.now ≡ frames_of commands
        → HaveReplies simulated_firmware commands
        → length pending.old.items + length (replies_of simulated_firmware commands) ≤ 4097 → result ≡ true }
{
    let mut rest = frames;
    for done in 0..frames.len() {
        let len = frame_len(rest).unwrap_or(usize::MAX);
        let Some((frame, later)) = rest.split_at_checked(len) else {
            return true;
        };
        if pending.try_extend_from_slice(reply_to(frame)).is_err() {
            return false;
        }
        *bus_type = selected_by(frame, *bus_type);
        rest = later;
    }
    true
}

fn selected_by(frame: &[u8], before: Option<u8>) -> Option<u8>
    ensures { result ≡ bus_type_after frame.now before }
{
    if byte_at(frame, 0) == 0x12 {
        Some(byte_at(frame, 1))
    } else {
        before
    }
}

// Returns the reply to one frame. It is NAK for O_SPIOP, because frames of O_SPIOP that are carried out never get here.
fn reply_to(frame: &[u8]) -> &'static [u8]
    ensures { result.now ≡ simulated_reply (slice_index frame.now 0) }
{
    match byte_at(frame, 0) {
        0x00 | 0x12 => &[ACK],
        0x01 => &[ACK, 1, 0],
        0x02 => &COMMANDS,
        0x04 => &BUFFER,
        0x10 => &[NAK, ACK],
        0x11 => &LONGEST_READ,
        _ => &[NAK],
    }
}

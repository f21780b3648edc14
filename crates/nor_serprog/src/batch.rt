//! A link over which a write enable may wait, to be sent together with the page program that it enables.
ghost use Rattle.std.specs.Prelude.{◌≡◌, ◌<◌, ◌≤◌, ◌⊎◌, ◌++◌, ◌∷◌, [], ℕ, List, true, false, length, OnOk, OnErr, IfOk};
ghost use Rattle.nor_serprog.specs.Device.{StepsOnce, IsCut};
ghost use Rattle.nor_serprog.specs.Enabled.{SameChipOf};
ghost use Rattle.nor_serprog.specs.Frame.{operation_frame, IsFrame, replies_in};
ghost use Rattle.nor_serprog.specs.Asked.{enable_frame, AsksLead, AsksInOrder, AsksSync, FitsOperation, IsLongProgram, acks};
ghost use Rattle.nor_serprog.specs.Link.{port_of, is_in_step};

use crate::{AnyProgrammer, Command, Failure, Frame, Link, Port, Sync};
use arrayvec::ArrayVec;

const ENABLE: [u8; 8] = [0x13, 1, 0, 0, 0, 0, 0, 0x06];

const LONGEST_PAIR: usize = 275;

// The least length of a page program that is sent together with its write enable: opcode, address and 32 data bytes. A
// synchronization sends only 20 bytes, which cannot complete the frame of a program that was cut inside its address.
const LONG_PROGRAM: usize = 36;

/// A link, two limits of its programmer, and whether a write enable waits to be sent over this link. Erases and status
/// writes are not sent together with their write enable. So if the host crashes while it sends the frame of an erase or
/// status write, no old ACK is pending that `Link::synchronize` could take for the reply to its NOP.
#[derive(Drop)]
pub(crate) struct Batch<P: Port + Drop> {
    link: Link<P>,
    waits: bool,
    buffer: u16,
    longest_read: u32,
    ghost spent: { is_in_step link ≡ false → waits ≡ false },
}

impl<P: Port + Drop> Batch<P> {
    ghost use Rattle.nor_serprog.specs.Batch.{batch_link, waits_in, buffer_in, device_at, IsSettledBatch};

    pub(crate) fn new(link: Link<P>, programmer: &AnyProgrammer) -> Batch<P>
        ensures link { batch_link result ≡ link }
        ensures empty { waits_in result ≡ false }
        ensures buffer { buffer_in result ≡ programmer.now.serial_buffer }
    {
        Batch {
            link,
            waits: false,
            buffer: programmer.serial_buffer(),
            longest_read: programmer.longest_read(),
        }
    }

    pub(crate) fn link(&self) -> &Link<P>
        ensures { result.now ≡ batch_link self.now }
    {
        &self.link
    }

    /// Makes one transaction. A write enable that requests no reply bytes waits for the next transaction instead, if
    /// its frame fits into the serial buffer. Changes nothing and returns `TooLong` if the transaction is too long, or
    /// `OutOfStep` or `CutFrame` if the link was out of step. After any other error no write enable waits.
    pub(crate) fn transact(&mut self, out: &[u8], reply: &mut [u8]) -> Result<(), Failure<P::Cause>>
        ensures silent { is_in_step (batch_link self.old) ≡ false → self.new ≡ self.old }
        ensures was_in_step { OnOk result (is_in_step (batch_link self.old) ≡ true) }
        ensures ok { OnOk result (is_in_step (batch_link self.new) ≡ true) }
        ensures err { OnErr result ((self.new ≡ self.old) ⊎ ((is_in_step (batch_link self.new) ≡ false)
            × (AsksLead (waits_in self.old) (P.state (port_of (batch_link self.old))).asked
            (P.state (port_of (batch_link self.new))).asked
            ⊎ AsksInOrder (waits_in self.old) out.now (length reply.old)
            (P.state (port_of (batch_link self.old))).asked (P.state (port_of (batch_link self.new))).asked))) }
        ensures only_enable { OnOk result (waits_in self.new ≡ true
            → (out.now ≡ 0x06 ∷ []) × (length reply.old ≡ 0)) }
        ensures led { OnOk result (waits_in self.new ≡ true → AsksLead (waits_in self.old)
            (P.state (port_of (batch_link self.old))).asked (P.state (port_of (batch_link self.new))).asked) }
        ensures sent { OnOk result (waits_in self.new ≡ false → AsksInOrder (waits_in self.old)
            out.now (length reply.old) (P.state (port_of (batch_link self.old))).asked
            (P.state (port_of (batch_link self.new))).asked) }
        ensures led_acked { OnOk result (waits_in self.new ≡ true → (P.state (port_of (batch_link self.new))).received
            ≡ (P.state (port_of (batch_link self.old))).received ++ acks (waits_in self.old)) }
        ensures acked { OnOk result (waits_in self.new ≡ false → (P.state (port_of (batch_link self.new))).received
            ≡ (P.state (port_of (batch_link self.old))).received ++ (acks (waits_in self.old) ++ 0x06 ∷ reply.new)) }
        ensures nature { (P.state (port_of (batch_link self.new))).honest
            ≡ (P.state (port_of (batch_link self.old))).honest }
        ensures settled { IsSettledBatch self.old → IsSettledBatch self.new }
        ensures carried { IsSettledBatch self.old → (P.state (port_of (batch_link self.old))).honest ≡ true
            → OnOk result (StepsOnce out.now reply.new (device_at self.old) (device_at self.new)) }
        ensures cut { IsSettledBatch self.old → (P.state (port_of (batch_link self.old))).honest ≡ true
            → OnErr result (IsCut out.now (device_at self.old) (device_at self.new)) }
    {
        if self.link.sync() != Sync::InStep || reply.len() > self.longest_read as usize {
            return Err(self.link.rejection());
        }
        let replies = reply.len() as u32;
        let frame = encode(out, replies)?;
        if replies == 0 && is_enable(out) && usize::from(self.buffer) >= ENABLE.len() {
            return self.wait();
        }
        if self.waits
            && is_long_program(out)
            && ENABLE.len() + frame.len() <= usize::from(self.buffer)
        {
            self.waits = false;
            return self.link.exchange_batch(&after_enable(&frame), true, reply);
        }
        self.flush()?;
        self.link.exchange_batch(&frame, false, reply)
    }

    /// Sends a write enable that waits, if any, and reads its ACK. Even after an error, no write enable waits any more.
    pub(crate) fn flush(&mut self) -> Result<(), Failure<P::Cause>>
        ensures silent { is_in_step (batch_link self.old) ≡ false → self.new ≡ self.old }
        ensures ok { is_in_step (batch_link self.old) ≡ true → OnOk result (is_in_step (batch_link self.new) ≡ true) }
        ensures err { OnErr result (is_in_step (batch_link self.new) ≡ false) }
        ensures empty { waits_in self.new ≡ false }
        ensures acked { OnOk result ((P.state (port_of (batch_link self.new))).received
            ≡ (P.state (port_of (batch_link self.old))).received ++ acks (waits_in self.old)) }
        ensures asked { AsksLead (waits_in self.old) (P.state (port_of (batch_link self.old))).asked
            (P.state (port_of (batch_link self.new))).asked }
        ensures nature { (P.state (port_of (batch_link self.new))).honest
            ≡ (P.state (port_of (batch_link self.old))).honest }
        ensures buffer { buffer_in self.new ≡ buffer_in self.old }
        ensures settled { IsSettledBatch self.old → IsSettledBatch self.new }
        ensures carried { IsSettledBatch self.old → (P.state (port_of (batch_link self.old))).honest ≡ true
            → OnOk result (SameChipOf (device_at self.old) (device_at self.new)) }
        ensures cut { IsSettledBatch self.old → (P.state (port_of (batch_link self.old))).honest ≡ true
            → OnErr result ((out : List ℕ) → IsCut out (device_at self.old) (device_at self.new)) }
    {
        if !self.waits {
            return Ok(());
        }
        self.waits = false;
        self.link.exchange_batch(&ENABLE, false, &mut [])
    }

    /// Synchronizes the link (`Link::synchronize`) if it is out of step.
    pub(crate) fn synchronize(&mut self) -> Result<(), Failure<P::Cause>>
        ensures ok { OnOk result (is_in_step (batch_link self.new) ≡ true) }
        ensures err { OnErr result (is_in_step (batch_link self.new) ≡ false) }
        ensures waits { waits_in self.new ≡ waits_in self.old }
        ensures asked { (self.new ≡ self.old) ⊎ ((is_in_step (batch_link self.old) ≡ false)
            × AsksSync (P.state (port_of (batch_link self.old))).asked
            (P.state (port_of (batch_link self.new))).asked) }
        ensures settled { IsSettledBatch self.old → IsSettledBatch self.new }
    {
        if self.link.sync() == Sync::InStep {
            return Ok(());
        }
        self.link.synchronize()
    }

    fn wait(&mut self) -> Result<(), Failure<P::Cause>>
        requires in_step { is_in_step (batch_link self.old) ≡ true }
        ensures ok { OnOk result (is_in_step (batch_link self.new) ≡ true) }
        ensures waits { OnOk result (waits_in self.new ≡ true) }
        ensures acked { OnOk result ((P.state (port_of (batch_link self.new))).received
            ≡ (P.state (port_of (batch_link self.old))).received ++ acks (waits_in self.old)) }
        ensures err { OnErr result (is_in_step (batch_link self.new) ≡ false) }
        ensures asked { AsksLead (waits_in self.old) (P.state (port_of (batch_link self.old))).asked
            (P.state (port_of (batch_link self.new))).asked }
        ensures nature { (P.state (port_of (batch_link self.new))).honest
            ≡ (P.state (port_of (batch_link self.old))).honest }
        ensures settled { IsSettledBatch self.old → IsSettledBatch self.new }
        ensures carried { (reply : List ℕ) → length reply ≡ 0 → IsSettledBatch self.old
            → (P.state (port_of (batch_link self.old))).honest ≡ true
            → OnOk result (StepsOnce (0x06 ∷ []) reply (device_at self.old) (device_at self.new)) }
        ensures cut { IsSettledBatch self.old → (P.state (port_of (batch_link self.old))).honest ≡ true
            → OnErr result ((out : List ℕ) → IsCut out (device_at self.old) (device_at self.new)) }
    {
        self.flush()?;
        self.waits = true;
        Ok(())
    }
}

fn encode<C>(out: &[u8], replies: u32) -> Result<Frame, Failure<C>>
    ensures exact { IfOk result (λ frame. frame.items ≡ operation_frame out.now replies) }
    ensures len { IfOk result (λ frame. length frame.items ≤ 267) }
    ensures whole { IfOk result (λ frame. IsFrame frame.items) }
    ensures reads { IfOk result (λ frame. replies_in frame.items ≡ replies) }
    ensures fits { OnOk result (FitsOperation out.now replies) }
{
    let command = Command::Operate { out, replies };
    command.encode().map_err(|_| Failure::TooLong)
}

fn is_enable(out: &[u8]) -> bool
    ensures { result ≡ true → out.now ≡ 0x06 ∷ [] }
{
    matches!(out, [0x06])
}

fn is_long_program(out: &[u8]) -> bool
    ensures { result ≡ true → IsLongProgram out.now }
{
    out.len() >= LONG_PROGRAM && matches!(out, [0x02, ..])
}

fn after_enable(frame: &Frame) -> ArrayVec<u8, LONGEST_PAIR>
    requires { length frame.now.items ≤ 267 }
    ensures { result.items ≡ enable_frame ++ frame.now.items }
{
    let mut pair = ArrayVec::new();
    let _ = pair.try_extend_from_slice(&ENABLE);
    let _ = pair.try_extend_from_slice(frame);
    pair
}

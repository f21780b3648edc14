//! Exchanges with a programmer. An exchange sends the frame of a command, and receives the reply.
ghost use Rattle.std.specs.Prelude.{◌≡◌, ◌≤◌, ◌+◌, ◌++◌, ◌⊎◌, ◌∷◌, [], ℕ, List, true, false, length, ◌↔◌, IsOk, IfOk, OnOk, OnErr, IfErr};
ghost use Rattle.nor_serprog.specs.Device.{IsIdle, IsSent, IsCutOff, IfOperates, Exchanged, Interrupted};
ghost use Rattle.nor_serprog.specs.Enabled.{SendsBatch, TakesAcks, ExchangedBatch, InterruptedBatch};
ghost use Rattle.nor_serprog.specs.Device.{AnswerBegins, TakesAnswer, MissesAnswer, MayLoseDevicePower};
ghost use Rattle.nor_serprog.specs.Firmware.{HasReply, nak};
ghost use Rattle.nor_serprog.specs.Frame.{frame_of, FitsFrame, IsFrame, ReadsAs};
ghost use Rattle.nor_serprog.specs.Link.{port_of, sync_of, is_in_step, is_cut};
ghost use Rattle.nor_serprog.specs.Asked.{acks, AsksSync};
ghost use Rattle.nor_serprog.specs.Harmless.{ModifiesNothing, StaysHarmless};
ghost use Rattle.nor_serprog.specs.Replies.{AwaitsCommand, EndsExchange, IsNoRefusal, IsPortFailure, IsRefused, AsksUnlessFew};

use crate::skipping::{ROW_ANSWERS_LEN, skip_past};
use crate::{Answer, Command, Frame, Port};
use thiserror::Error;

/// The reason why an exchange or `Link::synchronize` failed. `C` is the type for the cause of a failure of the port.
#[derive(Debug, Drop, Error)]
#[error_bound(C: std::fmt::Display)]
pub enum Failure<C> {
    #[error("the port failed: {0}")]
    Port(C),
    /// The programmer replied NAK (15h) to the command with this opcode.
    #[error("the programmer refused command {0:02X}h")]
    Refused(u8),
    #[error("the programmer answered {0:02X}h, which is neither ACK nor NAK")]
    Strange(u8),
    /// The transaction sends more than 260 bytes, or reads at least 2^24 bytes or more than the programmer can return.
    /// Nothing was sent, and the link is as it was.
    #[error("a transaction of this length does not fit into one serprog frame")]
    TooLong,
    /// Nothing was sent, because the link is new, or an earlier exchange or `synchronize` failed.
    #[error("an earlier exchange with the programmer failed, and it was not synchronized since")]
    OutOfStep,
    /// Nothing was sent, because a frame may have been sent only in part: any further byte could complete this frame.
    #[error("a frame may have been cut off: disconnect the programmer from power before it is used again")]
    CutFrame,
    /// A reply that `synchronize` expected was not among the next 65,536 received bytes.
    #[error("the programmer gave a wrong reply to SYNCNOP")]
    NoSync,
}

/// Whether the replies of a programmer can be matched to the frames that were sent.
#[derive(Clone, Copy, Debug, PartialEq, Eq)]
pub enum Sync {
    /// Since `synchronize` returned `Ok`, an ACK for each frame and all requested reply bytes were received.
    InStep,
    /// The link is new, `synchronize` failed (not with `CutFrame`), or an exchange failed after its frames were sent.
    Lost,
    /// A frame may have been sent only in part, so the programmer may treat the next bytes as the rest of this frame.
    Cut,
}

/// A port to a programmer, and whether the programmer's replies can be matched to the frames (`Sync`).
#[derive(Drop)]
pub struct Link<P: Port + Drop> {
    port: P,
    sync: Sync,
}

const O_SPIOP: u8 = 0x13;

// The sequence of SYNCNOP (10h) and NOP (00h) that `synchronize` sends. It begins with nine zeros, because the frame of
// a status write (01h) has ten bytes: a programmer that still waits for the rest of such a frame receives only zeros,
// which set no one-time bit.
const ROW: [u8; 19] = [
    0x00, 0x00, 0x00, 0x00, 0x00, 0x00, 0x00, 0x00, 0x00, 0x10, 0x10, 0x00, 0x10, 0x00, 0x00, 0x10,
    0x10, 0x10, 0x00,
];

// The replies to `ROW`: NAK and ACK (15h 06h) to each SYNCNOP, and ACK to each NOP.
const ROW_ANSWERS: [u8; ROW_ANSWERS_LEN] = [
    0x06, 0x06, 0x06, 0x06, 0x06, 0x06, 0x06, 0x06, 0x06, 0x15, 0x06, 0x15, 0x06, 0x06, 0x15, 0x06,
    0x06, 0x06, 0x15, 0x06, 0x15, 0x06, 0x15, 0x06, 0x06,
];

impl<P: Port + Drop> Link<P> {
    /// Returns a link over this port, which is not synchronized yet.
    pub fn new(port: P) -> Link<P>
        ensures port { port_of result ≡ port }
        ensures lost { is_in_step result ≡ false }
        ensures not_cut { is_cut result ≡ false }
    {
        Link {
            port,
            sync: Sync::Lost,
        }
    }

    /// Returns the port.
    pub fn port(&self) -> &P
        ensures { result.now ≡ port_of self.now }
    {
        &self.port
    }

    /// Returns whether the replies can be matched to the frames.
    pub fn sync(&self) -> Sync
        ensures { result ≡ sync_of self.now }
    {
        self.sync
    }

    /// Sends the frame of `command`, and reads the reply: ACK, and then exactly as many bytes as `reply` holds. Sends
    /// nothing and returns `OutOfStep` or `CutFrame` if the link was out of step, or `TooLong` if the command does not
    /// fit into one frame. After any other error no exchange sends anything until `synchronize` returns `Ok`.
    ///
    /// If the port is well-behaved, the link is in step and the programmer is idle, `EndsExchange` states the reply to
    /// each command that satisfies `HasReply`, except SYNCNOP. Then the programmer refuses no O_SPIOP.
    pub fn exchange(
        &mut self,
        command: Command<'_>,
        reply: &mut [u8],
    ) -> Result<(), Failure<P::Cause>>
        ensures nature { (P.state (port_of self.new)).honest ≡ (P.state (port_of self.old)).honest }
        ensures asked { OnOk result ((P.state (port_of self.new)).asked
            ≡ frame_of command.entry ∷ (P.state (port_of self.old)).asked) }
        ensures failed { OnErr result ((self.new ≡ self.old)
            ⊎ ((P.state (port_of self.new)).asked ≡ frame_of command.entry ∷ (P.state (port_of self.old)).asked)) }
        ensures fitted { OnOk result (FitsFrame command.entry) }
        ensures refused { OnErr result ((self.new ≡ self.old) ⊎ FitsFrame command.entry) }
        ensures acked { OnOk result ((P.state (port_of self.new)).received
            ≡ (P.state (port_of self.old)).received ++ 0x06 ∷ reply.new) }
        ensures silent { is_in_step self.old ≡ false → self.new ≡ self.old }
        ensures was_in_step { OnOk result (is_in_step self.old ≡ true) }
        ensures ok { OnOk result (is_in_step self.new ≡ true) }
        ensures err { OnErr result ((self.new ≡ self.old) ⊎ (is_in_step self.new ≡ false)) }
        ensures fits { FitsFrame command.entry → OnErr result (is_in_step self.new ≡ false) }
        ensures exchanged { (P.state (port_of self.old)).honest ≡ true → IsIdle (P.state (port_of self.old)).device
            → OnOk result (IfOperates command.entry (λ out replies. length reply.old ≡ replies
            → Exchanged out reply.new (P.state (port_of self.old)) (P.state (port_of self.new)))) }
        ensures interrupted { (P.state (port_of self.old)).honest ≡ true → IsIdle (P.state (port_of self.old)).device
            → OnErr result ((self.new ≡ self.old) ⊎ IfOperates command.entry (λ out replies.
            Interrupted out replies (length reply.old) (P.state (port_of self.old)) (P.state (port_of self.new)))) }
        ensures answered { AwaitsCommand (P.state (port_of self.old)) → is_in_step self.old ≡ true
            → HasReply (P.state (port_of self.old)).device.firmware command.entry → EndsExchange command.entry
            (length reply.old) reply.new result (P.state (port_of self.old)) (P.state (port_of self.new)) }
        ensures unread { (P.state (port_of self.old)).honest ≡ true → OnErr result (reply.new ≡ reply.old) }
        ensures unrefused { (P.state (port_of self.old)).honest ≡ true → IsIdle (P.state (port_of self.old)).device
            → IfErr result (λ failure. IfOperates command.entry (λ out replies. IsNoRefusal failure)) }
        ensures harmless { ModifiesNothing command.entry
            → StaysHarmless (P.state (port_of self.old)).asked (P.state (port_of self.new)).asked }
    {
        match self.sync {
            Sync::InStep => self.exchange_in_step(command, reply),
            Sync::Lost => Err(Failure::OutOfStep),
            Sync::Cut => Err(Failure::CutFrame),
        }
    }

    /// Returns `TooLong` if the link is in step, and otherwise `OutOfStep` or `CutFrame`.
    pub(crate) fn rejection(&self) -> Failure<P::Cause> {
        match self.sync {
            Sync::InStep => Failure::TooLong,
            Sync::Lost => Failure::OutOfStep,
            Sync::Cut => Failure::CutFrame,
        }
    }

    fn exchange_in_step(
        &mut self,
        command: Command<'_>,
        reply: &mut [u8],
    ) -> Result<(), Failure<P::Cause>>
        ensures nature { (P.state (port_of self.new)).honest ≡ (P.state (port_of self.old)).honest }
        ensures asked { OnOk result ((P.state (port_of self.new)).asked
            ≡ frame_of command.entry ∷ (P.state (port_of self.old)).asked) }
        ensures failed { OnErr result ((self.new ≡ self.old)
            ⊎ ((P.state (port_of self.new)).asked ≡ frame_of command.entry ∷ (P.state (port_of self.old)).asked)) }
        ensures fitted { OnOk result (FitsFrame command.entry) }
        ensures refused { OnErr result ((self.new ≡ self.old) ⊎ FitsFrame command.entry) }
        ensures acked { OnOk result ((P.state (port_of self.new)).received
            ≡ (P.state (port_of self.old)).received ++ 0x06 ∷ reply.new) }
        ensures ok { OnOk result (is_in_step self.new ≡ true) }
        ensures err { OnErr result ((self.new ≡ self.old) ⊎ (is_in_step self.new ≡ false)) }
        ensures fits { FitsFrame command.entry → OnErr result (is_in_step self.new ≡ false) }
        ensures exchanged { (P.state (port_of self.old)).honest ≡ true → IsIdle (P.state (port_of self.old)).device
            → OnOk result (IfOperates command.entry (λ out replies. length reply.old ≡ replies
            → Exchanged out reply.new (P.state (port_of self.old)) (P.state (port_of self.new)))) }
        ensures interrupted { (P.state (port_of self.old)).honest ≡ true → IsIdle (P.state (port_of self.old)).device
            → OnErr result ((self.new ≡ self.old) ⊎ IfOperates command.entry (λ out replies.
            Interrupted out replies (length reply.old) (P.state (port_of self.old)) (P.state (port_of self.new)))) }
        ensures answered { AwaitsCommand (P.state (port_of self.old))
            → HasReply (P.state (port_of self.old)).device.firmware command.entry → EndsExchange command.entry
            (length reply.old) reply.new result (P.state (port_of self.old)) (P.state (port_of self.new)) }
        ensures unread { (P.state (port_of self.old)).honest ≡ true → OnErr result (reply.new ≡ reply.old) }
        ensures unrefused { (P.state (port_of self.old)).honest ≡ true → IsIdle (P.state (port_of self.old)).device
            → IfErr result (λ failure. IfOperates command.entry (λ out replies. IsNoRefusal failure)) }
    {
        let frame = encode(command)?;
        self.sync = Sync::Cut;
        send(&mut self.port, &frame)?;
        self.sync = Sync::Lost;
        let opcode = frame.first().copied().unwrap_or(0);
        receive_answer(&mut self.port, opcode, reply)?;
        self.sync = Sync::InStep;
        Ok(())
    }

    /// Sends `frames` with one call of the port. These must be one frame of O_SPIOP or, if `is_led`, two, the first of
    /// which requests no reply bytes. Then reads an ACK for each frame, and after the last ACK as many bytes as `reply`
    /// holds. Returns `OutOfStep` or `CutFrame`, and sends nothing, if the link was out of step. After any error no
    /// exchange sends anything until `synchronize` returns `Ok`.
    pub(crate) fn exchange_batch(
        &mut self,
        frames: &[u8],
        is_led: bool,
        reply: &mut [u8],
    ) -> Result<(), Failure<P::Cause>>
        ensures nature { (P.state (port_of self.new)).honest ≡ (P.state (port_of self.old)).honest }
        ensures asked { is_in_step self.old ≡ true → (P.state (port_of self.new)).asked
            ≡ frames.now ∷ (P.state (port_of self.old)).asked }
        ensures acked { OnOk result ((P.state (port_of self.new)).received
            ≡ (P.state (port_of self.old)).received ++ (acks is_led ++ 0x06 ∷ reply.new)) }
        ensures silent { is_in_step self.old ≡ false → self.new ≡ self.old }
        ensures was_in_step { OnOk result (is_in_step self.old ≡ true) }
        ensures ok { OnOk result (is_in_step self.new ≡ true) }
        ensures err { OnErr result (is_in_step self.new ≡ false) }
        ensures exchanged { (P.state (port_of self.old)).honest ≡ true → IsIdle (P.state (port_of self.old)).device
            → (out : List ℕ)
            → SendsBatch is_led out (length reply.old) frames.now (P.state (port_of self.old)).device → OnOk result
            (ExchangedBatch is_led out reply.new (P.state (port_of self.old)) (P.state (port_of self.new))) }
        ensures interrupted { (P.state (port_of self.old)).honest ≡ true → IsIdle (P.state (port_of self.old)).device
            → is_in_step self.old ≡ true → (out : List ℕ)
            → SendsBatch is_led out (length reply.old) frames.now (P.state (port_of self.old)).device → OnErr result
            (InterruptedBatch is_led out (P.state (port_of self.old)) (P.state (port_of self.new))) }
    {
        if self.sync != Sync::InStep {
            return Err(self.rejection());
        }
        self.sync = Sync::Cut;
        send_all(&mut self.port, frames)?;
        self.sync = Sync::Lost;
        receive_acks(&mut self.port, is_led)?;
        receive_answer(&mut self.port, O_SPIOP, reply)?;
        self.sync = Sync::InStep;
        Ok(())
    }

    /// Synchronizes the link, so that each later reply can be matched to its frame (flashrom's
    /// Documentation/serprog-protocol.txt, 00h and 10h). Sends one NOP, and skips all received bytes up to the first
    /// ACK. Then sends a fixed sequence of NOP and SYNCNOP, and skips all bytes up to the replies to this sequence.
    ///
    /// Returns `CutFrame`, and sends nothing, if a frame may have been sent only in part, because further bytes could
    /// complete this frame. If another program or an earlier run may have sent a frame in part, disconnect the
    /// programmer from power first, because the link cannot detect this. Returns `Port` if the port fails, or `NoSync`
    /// if ACK or the replies to the sequence are not among the next 65,536 bytes.
    ///
    /// If the link is not `Sync::Cut`, the port is well-behaved and the programmer is idle, the call fails only if
    /// fewer than 28 calls of the port were left.
    pub fn synchronize(&mut self) -> Result<(), Failure<P::Cause>>
        ensures nature { (P.state (port_of self.new)).honest ≡ (P.state (port_of self.old)).honest }
        ensures asked { AsksSync (P.state (port_of self.old)).asked (P.state (port_of self.new)).asked }
        ensures fewer { (P.state (port_of self.old)).honest ≡ true
            → (P.state (port_of self.new)).left ≤ (P.state (port_of self.old)).left }
        ensures calls { (P.state (port_of self.old)).honest ≡ true
            → OnOk result (3 ≤ (P.state (port_of self.old)).left) }
        ensures synchronized { AwaitsCommand (P.state (port_of self.old)) → is_cut self.old ≡ false
            → AsksUnlessFew 28 result (P.state (port_of self.old)) (P.state (port_of self.new)) }
        ensures silent { is_cut self.old ≡ true → self.new ≡ self.old }
        ensures was_whole { OnOk result (is_cut self.old ≡ false) }
        ensures ok { OnOk result (is_in_step self.new ≡ true) }
        ensures err { OnErr result (is_in_step self.new ≡ false) }
    {
        if self.sync == Sync::Cut {
            return Err(Failure::CutFrame);
        }
        self.sync = Sync::Lost;
        // A programmer that waits for the rest of a frame takes this zero as part of the frame. Zeros do least harm.
        send_all(&mut self.port, &[0x00])?;
        skip_past(&mut self.port, &[0x06])?;
        send_all(&mut self.port, &ROW)?;
        skip_past(&mut self.port, &ROW_ANSWERS)?;
        self.sync = Sync::InStep;
        Ok(())
    }
}

fn encode<C>(command: Command<'_>) -> Result<Frame, Failure<C>>
    ensures fits { IsOk result ↔ FitsFrame command.entry }
    ensures exact { IfOk result (λ frame. frame.items ≡ frame_of command.entry) }
    ensures whole { IfOk result (λ frame. IsFrame frame.items) }
    ensures reads { IfOk result (λ frame. ReadsAs frame.items command.entry) }
    ensures unrefused { IfErr result IsNoRefusal }
{
    command.encode().map_err(|_| Failure::TooLong)
}

fn send<P: Port>(port: &mut P, frame: &Frame) -> Result<(), Failure<P::Cause>>
    ensures nature { (P.state port.new).honest ≡ (P.state port.old).honest }
    ensures asked { (P.state port.new).asked ≡ frame.now.items ∷ (P.state port.old).asked }
    ensures unreceived { (P.state port.new).received ≡ (P.state port.old).received }
    ensures sent { (P.state port.old).honest ≡ true
        → OnOk result (IsSent frame.now.items (P.state port.old) (P.state port.new)) }
    ensures cut_off { (P.state port.old).honest ≡ true
        → OnErr result (IsCutOff frame.now.items (P.state port.old) (P.state port.new)) }
    ensures cause { IfErr result IsPortFailure }
{
    port.send(frame).map_err(Failure::Port)
}

fn send_all<P: Port>(port: &mut P, bytes: &[u8]) -> Result<(), Failure<P::Cause>>
    ensures nature { (P.state port.new).honest ≡ (P.state port.old).honest }
    ensures asked { (P.state port.new).asked ≡ bytes.now ∷ (P.state port.old).asked }
    ensures unreceived { (P.state port.new).received ≡ (P.state port.old).received }
    ensures fewer { (P.state port.old).honest ≡ true → (P.state port.new).left ≤ (P.state port.old).left }
    ensures calls { (P.state port.old).honest ≡ true
        → OnOk result ((P.state port.old).left ≡ (P.state port.new).left + 1) }
    ensures sent { (P.state port.old).honest ≡ true
        → OnOk result (IsSent bytes.now (P.state port.old) (P.state port.new)) }
    ensures cut_off { (P.state port.old).honest ≡ true
        → OnErr result (IsCutOff bytes.now (P.state port.old) (P.state port.new)) }
    ensures cause { IfErr result IsPortFailure }
{
    port.send(bytes).map_err(Failure::Port)
}

fn receive_answer<P: Port>(
    port: &mut P,
    opcode: u8,
    reply: &mut [u8],
) -> Result<(), Failure<P::Cause>>
    ensures nature { (P.state port.new).honest ≡ (P.state port.old).honest }
    ensures answered { (P.state port.old).honest ≡ true
        → OnOk result (TakesAnswer reply.new (P.state port.old) (P.state port.new)) }
    ensures missed { (P.state port.old).honest ≡ true → AnswerBegins (P.state port.old)
        → OnErr result (MissesAnswer (length reply.old) (P.state port.old) (P.state port.new)) }
    ensures power { (P.state port.old).honest ≡ true
        → OnErr result (MayLoseDevicePower (P.state port.old).device (P.state port.new).device) }
    ensures cause { (P.state port.old).honest ≡ true → AnswerBegins (P.state port.old) → IfErr result IsPortFailure }
    ensures unasked { (P.state port.new).asked ≡ (P.state port.old).asked }
    ensures acked { OnOk result ((P.state port.new).received ≡ (P.state port.old).received ++ 0x06 ∷ reply.new) }
    ensures refused { (P.state port.old).honest ≡ true → (P.state port.old).device.pending ≡ nak
        → OnOk result ⊥ × IfErr result (IsRefused opcode 1 (P.state port.old).left) }
    ensures unread { (P.state port.old).honest ≡ true → OnErr result (reply.new ≡ reply.old) }
{
    let mut first = [0];
    port.receive(&mut first).map_err(Failure::Port)?;
    match Answer::of(first[0]) {
        Answer::Ack => port.receive(reply).map_err(Failure::Port),
        Answer::Nak => Err(Failure::Refused(opcode)),
        Answer::Other(byte) => Err(Failure::Strange(byte)),
    }
}

// Receives the ACK for the first frame, if there are two frames (`is_led`). Otherwise receives nothing.
fn receive_acks<P: Port>(port: &mut P, is_led: bool) -> Result<(), Failure<P::Cause>>
    ensures nature { (P.state port.new).honest ≡ (P.state port.old).honest }
    ensures unasked { (P.state port.new).asked ≡ (P.state port.old).asked }
    ensures acked { OnOk result ((P.state port.new).received ≡ (P.state port.old).received ++ acks is_led) }
    ensures taken { (P.state port.old).honest ≡ true
        → OnOk result (TakesAcks is_led (P.state port.old) (P.state port.new)) }
    ensures missed { (P.state port.old).honest ≡ true → (is_led ≡ true → AnswerBegins (P.state port.old))
        → OnErr result (MissesAnswer 0 (P.state port.old) (P.state port.new)) }
{
    if is_led {
        receive_answer(port, O_SPIOP, &mut [])?;
    }
    Ok(())
}

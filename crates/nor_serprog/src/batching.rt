//! A bus that can send a write enable and the page program after it with one call of the port.
ghost use Rattle.std.specs.Prelude.{◌≡◌, ◌≤◌, ◌⊎◌, ◌∷◌, ◌++◌, [], ℕ, List, true, false, length, OnOk, OnErr, IsSome, option_copied};
ghost use Rattle.nor_model.specs.Bus.{Transfers};
ghost use Rattle.nor_serprog.specs.Batch.{IsSettledBatch, IsSettledFor};

use crate::batch::Batch;
use crate::{AnyProgrammer, Failure, Link, Port, Programmer, Sync};
use nor_model::{Bus, History, Stopped};

/// A bus to the chip at a serial programmer, over any port. This bus needs fewer round trips than `SerprogBus`, because
/// it sends a write enable (06h) together with the page program (02h) after it, if the program has at least 32 data
/// bytes and both frames fit into the programmer's serial buffer.
///
/// Any other transaction is sent only after the reply to the previous frame was received. Otherwise, if a byte of a
/// frame were lost, the programmer would take the next frame's first byte for the last one of this frame, and the chip
/// could carry out a command that was never sent. A page program may follow its write enable at once, because the chip
/// ignores a program without a write enable.
///
/// - A write enable that requests no reply bytes waits if its frame fits into the serial buffer: `transfer` returns
///   `Ok`, but only the next transaction or `flush` sends the write enable, and returns `Stopped` if this fails.
/// - A transaction is rejected if it sends more than 260 bytes, or reads at least 2^24 bytes or more than the
///   programmer can: nothing is sent, and a write enable that waits still waits.
/// - After any other failed transaction or `flush`, no transaction is sent or waits until `synchronize` returns `Ok`.
/// - The history lists failed and rejected transactions without a reply, and a waiting write enable with an empty
///   reply.
///
/// Over a well-behaved port this bus is well-behaved and unlimited, but not punctual. Its chip is the programmer's
/// chip, as if a waiting write enable had been carried out.
#[derive(Drop)]
pub struct BatchingBus<P: Port + Drop> {
    batch: Batch<P>,
    programmer: AnyProgrammer,
    cause: Option<Failure<P::Cause>>,
    history: History,
    further: bool,
    ghost settled: { IsSettledBatch batch },
}

impl<P: Port + Drop> BatchingBus<P> {
    ghost use Rattle.nor_serprog.specs.Batching.{link_of, port_in, waits_of, history_of, sent_of, polled_ready_of};
    ghost use Rattle.nor_serprog.specs.Batching.{cause_of, is_ready, has_further, SendsFrames};
    ghost use Rattle.nor_serprog.specs.Device.{IsIdle};
    ghost use Rattle.nor_serprog.specs.Firmware.{buffer_at};
    ghost use Rattle.nor_serprog.specs.Link.{port_of, is_in_step};
    ghost use Rattle.nor_serprog.specs.Programmer.{any_buffer_of, buffer_of};

    /// Returns a bus over a link whose programmer was identified (`Programmer::identify`). The premise and the other
    /// properties are those of `over`.
    pub fn new(link: Link<P>, programmer: Programmer) -> BatchingBus<P>
        requires settled { IsSettledFor (buffer_of programmer) P.state link }
        ensures link { link_of result ≡ link }
        ensures empty { waits_of result ≡ false }
        ensures further { has_further result ≡ true }
        ensures history { history_of result ≡ [] }
        ensures sent { sent_of result ≡ [] }
        ensures polled_ready { polled_ready_of result ≡ false }
        ensures frames { SendsFrames (P.state (port_of link)).asked result }
    {
        BatchingBus::over(link, *programmer.reported())
    }

    /// Returns a bus over a link whose programmer was identified (`AnyProgrammer::identify`). The bus sends up to 260
    /// bytes even if the programmer's limit is lower, so wrap it in a `SplittingBus` (nor_buses). The chip may be of a
    /// further type (`has_further_types` is true).
    ///
    /// If the port is well-behaved and the link in step, the programmer must be idle, and its serial buffer must have
    /// at least the size that `programmer` reports. If the port is well-behaved and the link out of step, fewer than
    /// three calls of the port must be left.
    pub fn over(link: Link<P>, programmer: AnyProgrammer) -> BatchingBus<P>
        requires settled { IsSettledFor (any_buffer_of programmer) P.state link }
        ensures link { link_of result ≡ link }
        ensures empty { waits_of result ≡ false }
        ensures further { has_further result ≡ true }
        ensures history { history_of result ≡ [] }
        ensures sent { sent_of result ≡ [] }
        ensures polled_ready { polled_ready_of result ≡ false }
        ensures frames { SendsFrames (P.state (port_of link)).asked result }
    {
        let batch = Batch::new(link, &programmer);
        BatchingBus {
            batch,
            programmer,
            cause: None,
            history: History::new(),
            further: true,
        }
    }

    /// Returns a bus to a chip of the model (`has_further_types` is false). The link must be in step. Over a
    /// well-behaved port, the programmer must be idle, and its serial buffer must have at least the size that
    /// `programmer` reports.
    pub fn emulated(link: Link<P>, programmer: AnyProgrammer) -> BatchingBus<P>
        requires in_step { is_in_step link ≡ true }
        requires idle { (P.state (port_of link)).honest ≡ true → IsIdle (P.state (port_of link)).device }
        requires buffer { (P.state (port_of link)).honest ≡ true
            → any_buffer_of programmer ≤ buffer_at (P.state (port_of link)).device.firmware }
        ensures link { link_of result ≡ link }
        ensures empty { waits_of result ≡ false }
        ensures further { has_further result ≡ false }
        ensures history { history_of result ≡ [] }
        ensures sent { sent_of result ≡ [] }
        ensures polled_ready { polled_ready_of result ≡ false }
        ensures frames { SendsFrames (P.state (port_of link)).asked result }
    {
        let batch = Batch::new(link, &programmer);
        BatchingBus {
            batch,
            programmer,
            cause: None,
            history: History::new(),
            further: false,
        }
    }

    /// Returns what the programmer replied when it was identified.
    pub fn programmer(&self) -> &AnyProgrammer {
        &self.programmer
    }

    /// Returns the port.
    pub fn port(&self) -> &P
        ensures { result.now ≡ port_in self.now }
    {
        self.batch.link().port()
    }

    /// Returns the cause of the last failed transaction or `flush`, or `None` if none failed yet. A transaction that is
    /// rejected because the link is out of step leaves the cause as it is.
    pub fn cause(&self) -> Option<&Failure<P::Cause>>
        ensures { option_copied result ≡ cause_of self.now }
    {
        self.cause.as_ref()
    }

    /// Sends a write enable that waits, if any, and reads its ACK. Returns `Stopped` if this fails.
    pub fn flush(&mut self) -> Result<(), Stopped>
        ensures history { history_of self.new ≡ history_of self.old }
        ensures sent { sent_of self.new ≡ sent_of self.old }
        ensures polled_ready { polled_ready_of self.new ≡ polled_ready_of self.old }
        ensures silent { is_ready self.old ≡ false → link_of self.new ≡ link_of self.old }
        ensures frames { (start : List (List ℕ)) → SendsFrames start self.old → SendsFrames start self.new }
        ensures empty { waits_of self.new ≡ false }
        ensures further { has_further self.new ≡ has_further self.old }
    {
        match self.batch.flush() {
            Ok(()) => Ok(()),
            Err(cause) => {
                self.cause = Some(cause);
                Err(Stopped)
            }
        }
    }

    /// Synchronizes the link (`Link::synchronize`). If the link is in step already, sends nothing and returns `Ok`.
    pub fn synchronize(&mut self) -> Result<(), Failure<P::Cause>>
        ensures history { history_of self.new ≡ history_of self.old }
        ensures sent { sent_of self.new ≡ sent_of self.old }
        ensures polled_ready { polled_ready_of self.new ≡ polled_ready_of self.old }
        ensures frames { (start : List (List ℕ)) → SendsFrames start self.old → SendsFrames start self.new }
        ensures ok { OnOk result (is_ready self.new ≡ true) }
        ensures err { OnErr result (is_ready self.new ≡ false) }
        ensures further { has_further self.new ≡ has_further self.old }
    {
        self.batch.synchronize()
    }
}

impl<P: Port + Drop> Bus for BatchingBus<P> {
    ghost use Rattle.nor_serprog.specs.Batching.{link_of, port_in, waits_of, cause_of, is_ready, serprog_state};
    ghost use Rattle.nor_serprog.specs.Batching.{SendsFrames};
    ghost use Rattle.nor_serprog.specs.Asked.{acks};

    ghost state = { serprog_state };

    ghost reaches = { λ batching honest. let is = P.reaches batching.batch.link.port honest in record {
      busy = is.busy;
      kept1 = is.kept1;
      kept2 = is.kept2;
      bytes = is.bytes;
    } };

    fn transfer(&mut self, out: &[u8], reply: &mut [u8]) -> Result<(), Stopped>
        ensures law { Transfers out.now reply.old reply.new result (serprog_state self.old) (serprog_state self.new) }
        ensures silent { is_ready self.old ≡ false → link_of self.new ≡ link_of self.old }
        ensures was_ready { OnOk result (is_ready self.old ≡ true) }
        ensures ok { OnOk result (is_ready self.new ≡ true) }
        ensures err { OnErr result ((link_of self.new ≡ link_of self.old) ⊎ (is_ready self.new ≡ false)) }
        ensures only_enable { OnOk result (waits_of self.new ≡ true
            → (out.now ≡ 0x06 ∷ []) × (length reply.old ≡ 0)) }
        ensures frames { (start : List (List ℕ)) → SendsFrames start self.old → SendsFrames start self.new }
        ensures led_acked { OnOk result (waits_of self.new ≡ true → (P.state (port_in self.new)).received
            ≡ (P.state (port_in self.old)).received ++ acks (waits_of self.old)) }
        ensures acked { OnOk result (waits_of self.new ≡ false → (P.state (port_in self.new)).received
            ≡ (P.state (port_in self.old)).received ++ (acks (waits_of self.old) ++ 0x06 ∷ reply.new)) }
        ensures cause { is_ready self.old ≡ true → OnErr result (IsSome (cause_of self.new)) }
        ensures first_cause { is_ready self.old ≡ false → cause_of self.new ≡ cause_of self.old }
    {
        let was_in_step = self.batch.link().sync() == Sync::InStep;
        match self.batch.transact(out, reply) {
            Ok(()) => {
                self.history = self.history.replied(out, reply);
                Ok(())
            }
            Err(cause) => {
                self.history = self.history.stopped(out);
                if was_in_step {
                    self.cause = Some(cause);
                }
                Err(Stopped)
            }
        }
    }

    fn has_further_types(&self) -> bool {
        self.further
    }
}

//! A bus to the chip at a serial programmer.
ghost use Rattle.std.specs.Prelude.{◌≡◌, ◌≤◌, ◌⊎◌, true, false, length, OnOk, OnErr, [], IsSome, option_copied};
ghost use Rattle.nor_model.specs.Bus.{Carries, Transfers};
ghost use Rattle.nor_model.specs.Passed.{Passes};
ghost use Rattle.nor_serprog.specs.Device.{IsIdle, Exchanged, Interrupted};
ghost use Rattle.nor_serprog.specs.Link.{port_of, is_in_step, IsSettled};
ghost use Rattle.nor_serprog.specs.Modifying.{modifying_in};

use crate::{Command, Failure, Link, Port, Programmer, Sync};
use nor_model::{Bus, History, Stopped};

/// A bus to the chip at a serial programmer, over any port. Each transaction is carried out with one O_SPIOP (13h). A
/// transaction is rejected without sending anything if it sends more than 260 bytes, or reads at least 2^24 bytes or
/// more than the programmer can. After any other failure, no transaction is sent until `synchronize` returns `Ok`.
///
/// Over a well-behaved port this bus is well-behaved, and its chip is the programmer's. A transaction that sends at
/// most 260 bytes and reads at most 4,096 fails only if fewer than three calls of the port are left.
#[derive(Drop)]
pub struct SerprogBus<P: Port + Drop> {
    link: Link<P>,
    programmer: Programmer,
    cause: Option<Failure<P::Cause>>,
    history: History,
    further: bool,
    ghost idle: { IsSettled P.state link },
}

impl<P: Port + Drop> SerprogBus<P> {
    ghost use Rattle.nor_serprog.specs.Bus.{link_of, port_in, history_of, sent_of, polled_ready_of, cause_of, is_ready};
    ghost use Rattle.nor_serprog.specs.Bus.{has_further};

    /// Returns a bus over a link whose programmer was identified (`Programmer::identify`). The link must be in step. If
    /// the port is well-behaved, the programmer must be idle. `further` says whether the chip may be of a further type
    /// (`has_further_types`), as every chip on a board may be.
    pub fn new(link: Link<P>, programmer: Programmer, further: bool) -> SerprogBus<P>
        requires in_step { is_in_step link ≡ true }
        requires idle { (P.state (port_of link)).honest ≡ true → IsIdle (P.state (port_of link)).device }
        ensures link { link_of result ≡ link }
        ensures history { history_of result ≡ [] }
        ensures sent { sent_of result ≡ [] }
        ensures polled_ready { polled_ready_of result ≡ false }
        ensures further { has_further result ≡ further }
    {
        SerprogBus {
            link,
            programmer,
            cause: None,
            history: History::new(),
            further,
        }
    }

    /// Returns what the programmer replied when it was identified.
    pub fn programmer(&self) -> &Programmer {
        &self.programmer
    }

    /// Returns the port.
    pub fn port(&self) -> &P
        ensures { result.now ≡ port_in self.now }
    {
        self.link.port()
    }

    /// Returns the cause of the last transaction that failed, or `None` if none failed yet. A transaction that is
    /// rejected because the link is out of step leaves the cause as it is.
    pub fn cause(&self) -> Option<&Failure<P::Cause>>
        ensures { option_copied result ≡ cause_of self.now }
    {
        self.cause.as_ref()
    }

    /// Synchronizes the link (`Link::synchronize`) after a failed transaction, which the chip may have carried out. If
    /// the link is in step already, sends nothing and returns `Ok`.
    pub fn synchronize(&mut self) -> Result<(), Failure<P::Cause>>
        ensures history { history_of self.new ≡ history_of self.old }
        ensures sent { sent_of self.new ≡ sent_of self.old }
        ensures polled_ready { polled_ready_of self.new ≡ polled_ready_of self.old }
        ensures ok { OnOk result (is_ready self.new ≡ true) }
        ensures err { OnErr result (is_ready self.new ≡ false) }
    {
        if self.link.sync() == Sync::InStep {
            return Ok(());
        }
        self.link.synchronize()
    }
}

impl<P: Port + Drop> Bus for SerprogBus<P> {
    ghost use Rattle.nor_serprog.specs.Bus.{link_of, cause_of, is_ready, serprog_state};

    ghost state = { serprog_state };

    ghost reaches = { λ bus honest. P.reaches bus.link.port honest };

    fn transfer(&mut self, out: &[u8], reply: &mut [u8]) -> Result<(), Stopped>
        ensures law { Transfers out.now reply.old reply.new result (serprog_state self.old) (serprog_state self.new) }
        ensures silent { is_ready self.old ≡ false → link_of self.new ≡ link_of self.old }
        ensures was_ready { OnOk result (is_ready self.old ≡ true) }
        ensures ok { OnOk result (is_ready self.new ≡ true) }
        ensures err { OnErr result ((link_of self.new ≡ link_of self.old) ⊎ (is_ready self.new ≡ false)) }
        ensures fits { length out.now ≤ 260 → length reply.old ≤ 4096 → OnErr result (is_ready self.new ≡ false) }
        ensures cause { is_ready self.old ≡ true → OnErr result (IsSome (cause_of self.new)) }
        ensures first_cause { is_ready self.old ≡ false → cause_of self.new ≡ cause_of self.old }
    {
        let was_in_step = self.link.sync() == Sync::InStep;
        match carry(&mut self.link, self.programmer.longest_read(), out, reply) {
            Ok(()) => {
                self.history = self.history.replied(out, reply);
                Ok(())
            }
            Err(cause) => {
                self.history = self.history.stopped(out);
                if was_in_step {
                    self.cause = Some(cause);
                }
                Err(Stopped)
            }
        }
    }

    fn has_further_types(&self) -> bool {
        self.further
    }
}

fn carry<P: Port + Drop>(
    link: &mut Link<P>,
    longest_read: u32,
    out: &[u8],
    reply: &mut [u8],
) -> Result<(), Failure<P::Cause>>
    requires longest { 4096 ≤ longest_read }
    requires settled { IsSettled P.state link.old }
    ensures settled { IsSettled P.state link.new }
    ensures nature { (P.state (port_of link.new)).honest ≡ (P.state (port_of link.old)).honest }
    ensures silent { is_in_step link.old ≡ false → link.new ≡ link.old }
    ensures was_in_step { OnOk result (is_in_step link.old ≡ true) }
    ensures ok { OnOk result (is_in_step link.new ≡ true) }
    ensures err { OnErr result ((link.new ≡ link.old) ⊎ (is_in_step link.new ≡ false)) }
    ensures fits { length out.now ≤ 260 → length reply.old ≤ 4096 → OnErr result (is_in_step link.new ≡ false) }
    ensures exchanged { (P.state (port_of link.old)).honest ≡ true
        → OnOk result (Exchanged out.now reply.new (P.state (port_of link.old)) (P.state (port_of link.new))) }
    ensures interrupted { (P.state (port_of link.old)).honest ≡ true
        → OnErr result ((link.new ≡ link.old) ⊎ Interrupted out.now (length reply.old) (length reply.old)
        (P.state (port_of link.old)) (P.state (port_of link.new))) }
    ensures unread { (P.state (port_of link.old)).honest ≡ true → OnErr result (reply.new ≡ reply.old) }
    ensures passed { Passes out.now (modifying_in (P.state (port_of link.old)).asked)
        (modifying_in (P.state (port_of link.new)).asked) }
{
    if reply.len() > longest_read as usize {
        return Err(link.rejection());
    }
    let replies = reply.len() as u32;
    link.exchange(Command::Operate { out, replies }, reply)
}

//! A bus that stops at one transaction or spoils its reply, or on which the polls of one wait show BUSY.
ghost use Rattle.std.specs.Prelude.{false};
ghost use Rattle.std.proofs.lemmas.Bool.{false≢true};
ghost use Rattle.nor_model.specs.PolledReady.{polled_ready_in};
ghost use Rattle.nor_model.specs.Sent.{sent_in};

use nor_chip::{Bus, History, Meter, SimBus, Stopped};

#[derive(Clone, Copy)]
pub enum Fault {
    /// The bus stops at the transaction.
    Stop,
    /// The bus inverts each bit of the transaction's reply.
    Spoil,
    /// If the transaction is a poll, this poll and the polls among the 65,535 transactions after it show BUSY.
    Busy,
}

/// A bus with at most one fault, at a transaction or at the polls of a wait. A fault resets the allowance to `allowed`.
#[derive(Drop)]
pub struct OnceBus {
    pub bus: SimBus,
    fault: Fault,
    // The number of transactions before the faulty one. `None` if there is no fault.
    after: Option<u64>,
    allowed: u64,
    /// The number of requested transactions, including those that failed.
    pub asked: u64,
    /// The first four bytes that transaction `after` sent (only the first byte if it sent fewer). Zeros until then.
    pub met: [u8; 4],
    history: History,
}

impl OnceBus {
    /// Returns a bus with the allowance `allowed`. If `after` is given, `fault` occurs at the transaction after the
    /// first `after` transactions, otherwise never.
    pub fn new(mut bus: SimBus, allowed: u64, fault: Fault, after: Option<u64>) -> OnceBus {
        bus.allow(allowed);
        OnceBus {
            bus,
            fault,
            after,
            allowed,
            asked: 0,
            met: [0; 4],
            history: History::new(),
        }
    }

    fn met_at(&self, out: &[u8]) -> [u8; 4] {
        if self.after == Some(self.asked) {
            beginning(out)
        } else {
            self.met
        }
    }

    fn fails_at(&self, out: &[u8]) -> bool {
        let Some(after) = self.after else {
            return false;
        };
        match self.fault {
            Fault::Stop | Fault::Spoil => self.asked == after,
            Fault::Busy => {
                self.met == [0x05, 0, 0, 0]
                    && beginning(out) == self.met
                    && self.asked < after.saturating_add(65_536)
            }
        }
    }
}

impl Bus for OnceBus {
    ghost state = { λ once. record (⟦<SimBus as Bus>⟧.state once.bus) {
      honest = false;
      history = once.history.exchanges;
      sent = sent_in once.history.exchanges;
      allowances = once.history.allowances;
      polled_ready = polled_ready_in once.history.exchanges;
    } };

    ghost reaches = { λ once honest. absurd (false≢true honest) };

    fn transfer(&mut self, out: &[u8], reply: &mut [u8]) -> Result<(), Stopped> {
        self.met = self.met_at(out);
        let fails = self.fails_at(out);
        self.asked = self.asked.saturating_add(1);
        if !fails {
            if let Err(stopped) = self.bus.transfer(out, reply) {
                self.history = self.history.stopped(out);
                return Err(stopped);
            }
            self.history = self.history.replied(out, reply);
            return Ok(());
        }
        match self.fault {
            Fault::Stop => self.bus.allow(0),
            Fault::Spoil | Fault::Busy => {}
        }
        let answer = self.bus.transfer(out, reply);
        self.bus.allow(self.allowed);
        spoil(self.fault, reply);
        self.history = match answer {
            Ok(()) => self.history.replied(out, reply),
            Err(Stopped) => self.history.stopped(out),
        };
        answer
    }

    fn has_further_types(&self) -> bool {
        self.bus.has_further_types()
    }
}

impl Meter for OnceBus {
    fn allow(&mut self, n: u64) {
        self.allowed = n;
        self.bus.allow(n);
        self.history = self.history.allowed(n);
    }
}

fn spoil(fault: Fault, reply: &mut [u8]) {
    for byte in reply.iter_mut() {
        match fault {
            Fault::Stop => {}
            Fault::Spoil => *byte = !*byte,
            Fault::Busy => *byte |= 1,
        }
    }
}

fn beginning(out: &[u8]) -> [u8; 4] {
    match out {
        [first, second, third, fourth, ..] => [*first, *second, *third, *fourth],
        [first, ..] => [*first, 0, 0, 0],
        [] => [0; 4],
    }
}

//! A faulty bus, for tests.
ghost use Rattle.std.specs.Prelude.{◌≡◌, [], Bool, false, MatchBool, EachIndex, slice_index, ⊤};
ghost use Rattle.std.proofs.Common.{subst};
ghost use Rattle.nor_model.specs.Chip.{IsChip};
ghost use Rattle.nor_model.specs.Bus.{Allows, Transfers};
ghost use Rattle.nor_chip.specs.Spoilt.{bus_in, spoil_of, succeeded_of, history_of, spoilt_state, withheld, spoilt_byte, Spoils};

use nor_model::{Bus, History, Meter, Stopped};

/// The way in which a faulty bus fails. The number of a transaction is 1 plus the number of successful ones before it.
#[derive(Clone, Copy, Debug, PartialEq, Eq)]
pub enum Spoil {
    /// No transaction is carried out. Each transaction succeeds, and each of its reply bytes is the given byte.
    Fill(u8),
    /// From the transaction with the given number on, each reply byte of a poll has bit 0 (BUSY) set.
    BusyFrom(u64),
    /// The transaction with this number isn't carried out. It succeeds, and each of its reply bytes is FFh.
    Drop(u64),
    /// In each reply byte, the bit with the given number is clear. A number above 7 has no effect.
    Low(u8),
}

/// A bus that drops transactions or changes replies in one fixed way, to test how callers react.
#[derive(Drop)]
pub struct SpoiltBus<B> {
    bus: B,
    spoil: Spoil,
    sent: u64,
    history: History,
}

impl<B: Bus> SpoiltBus<B> {
    pub fn new(inner: B, spoil: Spoil) -> SpoiltBus<B>
        ensures inner { bus_in result ≡ inner }
        ensures spoil { spoil_of result ≡ spoil }
        ensures sent { succeeded_of result ≡ 0 }
        ensures state { ⟦<SpoiltBus<B> as Bus>⟧.state result ≡ record (B.state inner) {
          honest = false;
          history = [];
          sent = [];
          allowances = [];
          polled_ready = false;
        } }
        ensures nothing { history_of result ≡ [] }
    {
        SpoiltBus {
            bus: inner,
            spoil,
            sent: 0,
            history: History::new(),
        }
    }

    /// Returns the number of transactions that succeeded so far, dropped ones included, up to the greatest `u64`.
    pub fn sent(&self) -> u64
        ensures { result ≡ succeeded_of self.now }
    {
        self.sent
    }

    pub fn into_inner(self) -> B
        ensures { result ≡ bus_in self }
    {
        let SpoiltBus {
            bus,
            spoil: _,
            sent: _,
            history: _,
        } = self;
        bus
    }
}

impl<B: Bus> Bus for SpoiltBus<B> {
    ghost state = { spoilt_state B.state };

    ghost reaches = { λ spoilt honest.
        subst (λ (b : Bool). MatchBool b (IsChip (spoilt_state B.state spoilt).chip) ⊤) honest tt };

    fn transfer(&mut self, out: &[u8], reply: &mut [u8]) -> Result<(), Stopped>
        ensures law { Transfers out.now reply.old reply.new result
            (spoilt_state B.state self.old) (spoilt_state B.state self.new) }
        ensures spoils { Spoils B.state out.now reply.old reply.new result self.old self.new }
    {
        match withheld(self.spoil, self.sent) {
            Some(byte) => reply.fill(byte),
            None => {
                if let Err(stopped) = self.bus.transfer(out, reply) {
                    self.history = self.history.stopped(out);
                    return Err(stopped);
                }
                spoil_all(self.spoil, self.sent, out, reply);
            }
        }
        self.sent = self.sent.saturating_add(1);
        self.history = self.history.replied(out, reply);
        Ok(())
    }

    fn has_further_types(&self) -> bool {
        self.bus.has_further_types()
    }
}

impl<B: Meter> Meter for SpoiltBus<B> {
    fn allow(&mut self, n: u64)
        ensures allows { Allows n (spoilt_state B.state self.old) (spoilt_state B.state self.new) }
        ensures inner { Allows n (B.state (bus_in self.old)) (B.state (bus_in self.new)) }
        ensures spoil { spoil_of self.new ≡ spoil_of self.old }
        ensures sent { succeeded_of self.new ≡ succeeded_of self.old }
    {
        self.bus.allow(n);
        self.history = self.history.allowed(n);
    }
}

fn withheld(spoil: Spoil, sent: u64) -> Option<u8>
    ensures { result ≡ withheld spoil sent }
{
    match spoil {
        Spoil::Fill(byte) => Some(byte),
        Spoil::Drop(number) if sent.checked_add(1) == Some(number) => Some(0xFF),
        _ => None,
    }
}

fn spoilt_byte(spoil: Spoil, sent: u64, out: &[u8], byte: u8) -> u8
    ensures { result ≡ spoilt_byte spoil sent out.now byte }
{
    match spoil {
        Spoil::BusyFrom(first) if first.saturating_sub(1) <= sent && matches!(out, [0x05]) => byte
            | 0x01,
        Spoil::Low(bit) if bit < 8 => byte & !(1 << bit),
        _ => byte,
    }
}

fn spoil_all(spoil: Spoil, sent: u64, out: &[u8], reply: &mut [u8])
    ensures { EachIndex reply.new
        (λ i. slice_index reply.new i ≡ spoilt_byte spoil sent out.now (slice_index reply.old i)) }
{
    for byte in reply.iter_mut() {
        *byte = spoilt_byte(spoil, sent, out, *byte);
    }
}

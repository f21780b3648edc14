//! Runs sessions and restores on a faulty bus, and asserts what must hold on any bus.
use crate::held::assert_held;
use crate::row::{Row, Start};
use crate::runs::{AMPLE, Cut, Runs, keep};
use nor_chip::{Meter, SimBus, Spoil, SpoiltBus};
use nor_journal::{Journal, MemVault};
use nor_session::{Refusal, restore};
use std::alloc::Global;
use std::process::Abort;

/// Returns a bound on the transactions of a session on `sectors` sectors, or of a restore of this number of saved
/// sectors. The terms are the identification, the reads, and the operations with at most 65,538 transactions each.
pub fn most(sectors: u32) -> u64 {
    let sectors = u64::from(sectors);
    65_542 + 3 * sectors + 65_538 * (17 * sectors + 2)
}

/// Returns one fault of each variant of `Spoil`, with `n` as its byte, transaction or bit.
pub fn lies(n: u8) -> [Spoil; 4] {
    let first = u64::from(n);
    [
        Spoil::Fill(n),
        Spoil::BusyFrom(first),
        Spoil::Drop(first),
        Spoil::Low(n),
    ]
}

pub fn spoilt(mut bus: SimBus, spoil: Spoil) -> SpoiltBus<SimBus> {
    bus.allow(u64::MAX);
    SpoiltBus::new(bus, spoil)
}

/// The error of a call on a faulty bus, the number of its transactions, and the chip and vault that it left.
#[derive(Drop)]
pub struct Lied {
    pub refusal: Option<Refusal>,
    pub sent: u64,
    pub cut: Cut,
}

impl Lied {
    /// Runs the row's session on a bus with this fault. Asserts that it sends at most `most` transactions, and that a
    /// sealed vault contains a journal.
    pub fn session(rt: &impl Abort, alloc: Global, row: Row, spoil: Spoil) -> Lied {
        let mut bus = spoilt(row.bus(rt, alloc, Start::IDLE), spoil);
        let mut vault = MemVault::new(alloc);
        let refusal = keep(rt, alloc, row, &mut bus, &mut vault).err();
        let sent = bus.sent();
        assert_held(rt, 0 < sent && sent <= most(row.sectors()), sent);
        let holds_journal = Journal::read(vault.bytes()).is_ok();
        assert_held(rt, holds_journal || !vault.is_sealed(), sent);
        let bus = bus.into_inner();
        let cut = Cut { bus, vault };
        Lied { refusal, sent, cut }
    }

    /// Runs a restore of `cut` on a bus with this fault. Asserts that it sends at most `most` transactions.
    pub fn restore(rt: &impl Abort, cut: Cut, spoil: Spoil) -> Lied {
        let Cut { bus, vault } = cut;
        let mut bus = spoilt(bus, spoil);
        let journal = Journal::read(vault.bytes()).expect(rt, "a journal");
        let saved = u32::try_from(journal.count()).expect(rt, "a count of sectors");
        let refusal = restore(&mut bus, &journal).err();
        let sent = bus.sent();
        assert_held(rt, 0 < sent && sent <= most(saved), sent);
        let bus = bus.into_inner();
        let cut = Cut { bus, vault };
        Lied { refusal, sent, cut }
    }

    /// Restores without the fault if the vault is sealed. Asserts in both cases that the chip is as before the session.
    pub fn assert_undone(self, rt: &impl Abort, alloc: Global, row: Row) {
        let Lied { mut cut, .. } = self;
        if cut.vault.is_sealed() {
            cut.restore(rt, AMPLE).expect(rt, "the restore ends");
        }
        Runs::new(rt, alloc, row, Start::IDLE).assert_as_before(rt, &cut.bus);
    }
}

//! Tests the numbers that a session or restore announces between its scan and its first modifying command.
use crate::held::{assert_held, assert_that};
use crate::row::{Row, Start};
use crate::runs::AMPLE;
use nor_chip::{Meter, SimBus};
use nor_journal::{Journal, MemVault};
use nor_session::{Announcement, restore_announced, session_announced};
use std::alloc::Global;
use std::process::Abort;

// Each entry has a session, and the numbers of touched sectors and of erases that the session announces. Then follow
// the numbers that a restore after it announces, and how many transactions the restore sends before it announces them.
const ROWS: [(Row, (u32, u32), (u32, u32), u64); 8] = [
    (Row::ABitFalls, (1, 0), (1, 1), 8),
    (Row::ABitRises, (1, 1), (1, 0), 8),
    (Row::NineSectorsAreErased, (9, 2), (9, 0), 16),
    (Row::TheChipIsErased, (16, 1), (16, 0), 23),
    (Row::TheRestOfASectorStays, (1, 1), (1, 0), 8),
    (Row::EachPageIsProgrammed, (16, 15), (16, 1), 23),
    (Row::ThirtyTwoSectorsAreErased, (32, 3), (32, 0), 39),
    (Row::AGuardedByteIsProgrammed, (1, 0), (1, 1), 5),
];

#[derive(Drop)]
struct Announced {
    bus: SimBus,
    vault: MemVault,
    seen: Option<Announcement>,
}

impl Announced {
    fn session(rt: &impl Abort, alloc: Global, row: Row, allowed: u64) -> Announced {
        let mut bus = row.bus(rt, alloc, Start::IDLE);
        bus.allow(allowed);
        let mut vault = MemVault::new(alloc);
        let mut image = row.wanted(rt, alloc);
        let mut seen = None;
        let _ = session_announced(
            &mut bus,
            &mut vault,
            &mut image,
            &row.request(rt, alloc),
            |announcement| seen = Some(announcement),
        );
        Announced { bus, vault, seen }
    }

    fn restore(&mut self, rt: &impl Abort, allowed: u64) -> Option<Announcement> {
        let journal = Journal::read(self.vault.bytes()).expect(rt, "a journal");
        self.bus.allow(allowed);
        let mut seen = None;
        let _ = restore_announced(&mut self.bus, &journal, |announcement| {
            seen = Some(announcement)
        });
        seen
    }
}

fn announcement((touched, erases): (u32, u32)) -> Option<Announcement> {
    Some(Announcement { touched, erases })
}

#[test]
fn a_session_announces_before_it_changes(rt: HostRuntime) {
    for (row, numbers, _, _) in ROWS {
        let sealed = row.sealed_at(Start::IDLE);
        for (allowed, announced) in [
            (sealed.saturating_sub(1), None),
            (sealed, announcement(numbers)),
            (AMPLE, announcement(numbers)),
        ] {
            let run = Announced::session(&rt, rt.alloc(), row, allowed);
            assert_held(&rt, run.seen == announced, allowed);
            let is_changed = run.bus.bytes() != row.before(&rt, rt.alloc()).as_slice();
            assert_held(&rt, is_changed == (allowed == AMPLE), allowed);
        }
    }
}

#[test]
fn a_restore_announces_before_it_changes(rt: HostRuntime) {
    for (row, _, numbers, scanned) in ROWS {
        let mut run = Announced::session(&rt, rt.alloc(), row, AMPLE);
        for (allowed, announced) in [
            (scanned.saturating_sub(1), None),
            (scanned, announcement(numbers)),
            (AMPLE, announcement(numbers)),
            (AMPLE, announcement((0, 0))),
        ] {
            let seen = run.restore(&rt, allowed);
            assert_held(&rt, seen == announced, allowed);
        }
        assert_that!(&rt; run.bus.bytes() == row.before(&rt, rt.alloc()).as_slice());
    }
}

//! Rewrites that are stopped after each number of their transactions, after which the chip is rewritten or restored.
use crate::held::{assert_held, assert_that};
use crate::row::{Row, Start};
use crate::runs::{AMPLE, Cut, Runs};
use nor_chip::Meter;
use nor_journal::Journal;
use nor_session::{Announcement, Refusal, Report, restore, rewrite, rewrite_announced};
use std::process::Abort;

#[derive(Clone, Copy)]
struct Rewritten {
    row: Row,
    touched: u32,
    erases: u32,
    // The number of page programs: one for each page of the saved sectors that was not all FFh before the session.
    programs: u32,
    writes: u32,
    // The number of transactions that identify the chip: seven on a TINY64 and four on a W25Q64FV.
    identified: u32,
}

impl Rewritten {
    fn of(row: Row, touched: u32, erases: u32, programs: u32) -> Rewritten {
        Rewritten {
            row,
            touched,
            erases,
            programs,
            writes: 0,
            identified: 7,
        }
    }

    // Returns the number of transactions of a rewrite, which reads sectors only to verify them.
    fn length(&self) -> u64 {
        let operations = u64::from(self.erases)
            .saturating_add(u64::from(self.programs))
            .saturating_add(u64::from(self.writes));
        u64::from(self.identified)
            .saturating_add(operations.saturating_mul(3))
            .saturating_add(u64::from(self.touched))
    }
}

fn rows() -> [Rewritten; 6] {
    [
        Rewritten::of(Row::AByteIsProgrammed, 1, 1, 0),
        Rewritten::of(Row::ABitRises, 1, 1, 1),
        Rewritten::of(Row::NineSectorsAreErased, 9, 2, 144),
        Rewritten::of(Row::TheChipIsErased, 16, 1, 256),
        Rewritten::of(Row::TheRestOfASectorStays, 1, 1, 16),
        Rewritten {
            writes: 2,
            identified: 4,
            ..Rewritten::of(Row::AGuardedByteIsProgrammed, 1, 1, 0)
        },
    ]
}

fn run_rewrite(rt: &impl Abort, cut: &mut Cut, allowed: u64) -> Result<Report, Refusal> {
    let journal = Journal::read(cut.vault.bytes()).expect(rt, "a journal");
    cut.bus.allow(allowed);
    rewrite(&mut cut.bus, &journal)
}

fn undone(rt: &impl Abort, cut: &mut Cut, by_rewrite: bool) {
    let journal = Journal::read(cut.vault.bytes()).expect(rt, "a journal");
    cut.bus.allow(AMPLE);
    let answer = if by_rewrite {
        rewrite(&mut cut.bus, &journal)
    } else {
        restore(&mut cut.bus, &journal)
    };
    assert_that!(rt; answer.is_ok());
}

fn stop_a_rewrite(rt: &impl Abort, runs: &Runs, each: &Rewritten, allowed: u64, by_rewrite: bool) {
    let mut cut = runs.cut(rt, each.row.ends_at(Start::IDLE));
    let answer = run_rewrite(rt, &mut cut, allowed);
    if allowed < each.length() {
        assert_held(rt, matches!(answer, Err(Refusal::Stopped)), allowed);
        undone(rt, &mut cut, by_rewrite);
    } else {
        assert_held(rt, is_reported(each, answer), allowed);
    }
    runs.assert_as_before(rt, &cut.bus);
}

fn is_reported(each: &Rewritten, answer: Result<Report, Refusal>) -> bool {
    match answer {
        Ok(report) => {
            report.touched == each.touched
                && report.erases == each.erases
                && report.programs == each.programs
                && report.transactions == each.length()
        }
        Err(_) => false,
    }
}

#[test]
fn each_stop_of_a_rewrite(rt: HostRuntime) {
    for each in &rows() {
        let runs = Runs::new(&rt, rt.alloc(), each.row, Start::IDLE);
        for allowed in 0..=each.length() {
            stop_a_rewrite(&rt, &runs, each, allowed, true);
            stop_a_rewrite(&rt, &runs, each, allowed, false);
        }
    }
}

// Before the second rewrite the chip already has the saved bytes, so a restore would change nothing.
#[test]
fn a_rewrite_writes_what_reads_right(rt: HostRuntime) {
    for each in &rows() {
        let runs = Runs::new(&rt, rt.alloc(), each.row, Start::IDLE);
        let mut cut = runs.cut(&rt, each.row.ends_at(Start::IDLE));
        for _ in 0..2 {
            let answer = run_rewrite(&rt, &mut cut, AMPLE);
            assert_that!(&rt; is_reported(each, answer));
            runs.assert_as_before(&rt, &cut.bus);
        }
    }
}

#[test]
fn a_rewrite_announces_every_saved_sector(rt: HostRuntime) {
    for each in &rows() {
        let runs = Runs::new(&rt, rt.alloc(), each.row, Start::IDLE);
        let mut cut = runs.cut(&rt, each.row.ends_at(Start::IDLE));
        let identified = u64::from(each.identified);
        for allowed in [identified.saturating_sub(1), identified, AMPLE, AMPLE] {
            let journal = Journal::read(cut.vault.bytes()).expect(&rt, "a journal");
            cut.bus.allow(allowed);
            let mut seen = None;
            let _ = rewrite_announced(&mut cut.bus, &journal, |announcement| {
                seen = Some(announcement)
            });
            let (touched, erases) = (each.touched, each.erases);
            let all = Some(Announcement { touched, erases });
            let expected = if allowed < identified { None } else { all };
            assert_held(&rt, seen == expected, allowed);
        }
        runs.assert_as_before(&rt, &cut.bus);
    }
}

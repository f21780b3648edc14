//! Backups of whole chips, with stops and with vaults that refuse a call, and restores and rewrites from a backup.
use crate::held::{assert_held, assert_that};
use crate::row::{Row, Start};
use crate::runs::{AMPLE, assert_untouched, keep};
use nor_chip::{Meter, SimBus};
use nor_driver::{Erase, EraseBlock, erase, program_page};
use nor_journal::{BrokenVault, Journal, MemVault};
use nor_probe::ChipName;
use nor_session::{Refusal, backup, restore, rewrite};
use std::alloc::Global;
use std::process::Abort;

// A TINY64 whose first 9 sectors are 00h, and whose other sectors are FFh.
const ROW: Row = Row::NineSectorsAreErased;

// The number of transactions of a backup of a TINY64: seven identify the chip, and sixteen read its sectors.
const LENGTH: u64 = 23;

const SECTORS: u32 = 16;

fn saved(rt: &impl Abort, alloc: Global, bus: &mut SimBus) -> MemVault {
    bus.allow(AMPLE);
    let mut vault = MemVault::new(alloc);
    let report = backup(bus, &mut vault, Some(ChipName::Sfdp)).expect(rt, "a backup");
    let told = (report.touched, report.erases, report.programs);
    assert_that!(rt; told == (0, 0, 0) && report.transactions == LENGTH);
    assert_that!(rt; vault.is_sealed());
    let journal = Journal::read(vault.bytes()).expect(rt, "a journal");
    assert_that!(rt; journal.count() == SECTORS as usize && journal.unique().is_some());
    vault
}

// Erases sector 3 and programs a byte of sector 12.
fn disturb(rt: &impl Abort, bus: &mut SimBus) {
    let sector = Erase {
        unit: EraseBlock::Sector,
        sector: 3,
    };
    erase(bus, sector).expect(rt, "an erase");
    program_page(bus, 0xC000, &[0x5A]).expect(rt, "a program");
}

#[test]
fn a_backup_restores_other_sectors(rt: HostRuntime) {
    let alloc = rt.alloc();
    for by_rewrite in [false, true] {
        let mut bus = ROW.bus(&rt, alloc, Start::IDLE);
        let backup = saved(&rt, alloc, &mut bus);
        let mut vault = MemVault::new(alloc);
        let row = Row::TheRestOfASectorStays;
        let _ = keep(&rt, alloc, row, &mut bus, &mut vault);
        disturb(&rt, &mut bus);
        let session = Journal::read(vault.bytes()).expect(&rt, "a journal");
        assert_that!(&rt; restore(&mut bus, &session).is_ok());
        assert_that!(&rt; bus.bytes() != ROW.before(&rt, alloc).as_slice());
        let whole = Journal::read(backup.bytes()).expect(&rt, "a journal");
        let answer = if by_rewrite {
            rewrite(&mut bus, &whole)
        } else {
            restore(&mut bus, &whole)
        };
        assert_that!(&rt; answer.is_ok());
        assert_untouched(&rt, alloc, ROW, &bus);
    }
}

#[test]
fn each_stop_of_a_backup(rt: HostRuntime) {
    let alloc = rt.alloc();
    for allowed in 0..=LENGTH {
        let mut bus = ROW.bus(&rt, alloc, Start::IDLE);
        bus.allow(allowed);
        let mut vault = MemVault::new(alloc);
        let answer = backup(&mut bus, &mut vault, None);
        let stopped = matches!(answer, Err(Refusal::Stopped));
        assert_held(
            &rt,
            stopped == (allowed < LENGTH) && answer.is_ok() != stopped,
            allowed,
        );
        assert_held(&rt, vault.is_sealed() != stopped, allowed);
        assert_untouched(&rt, alloc, ROW, &bus);
    }
}

// The vault gets 20 calls: one for the header, 16 for the sectors, two for the end mark and the digest, and the seal.
#[test]
fn each_call_of_a_backup_is_refused(rt: HostRuntime) {
    let alloc = rt.alloc();
    for nth in 1..=20 {
        let mut bus = ROW.bus(&rt, alloc, Start::IDLE);
        bus.allow(AMPLE);
        let mut vault = BrokenVault::new(MemVault::new(alloc), nth, 0);
        let answer = backup(&mut bus, &mut vault, None);
        assert_held(&rt, matches!(answer, Err(Refusal::Vault)), nth);
        assert_held(&rt, !vault.inner().is_sealed(), nth);
        assert_untouched(&rt, alloc, ROW, &bus);
    }
}

#[test]
fn a_backup_of_another_chip_is_refused(rt: HostRuntime) {
    let mut bus = ROW.bus(&rt, rt.alloc(), Start::IDLE);
    bus.allow(AMPLE);
    let mut vault = MemVault::new(rt.alloc());
    let answer = backup(&mut bus, &mut vault, Some(ChipName::W25Q64FV));
    assert_that!(&rt; matches!(answer, Err(Refusal::OtherName)));
    assert_that!(&rt; vault.bytes().is_empty() && !vault.is_sealed());
}

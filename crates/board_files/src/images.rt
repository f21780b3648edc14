//! The image in a journal that saves the whole chip.
ghost use Rattle.std.specs.Prelude.{◌≡◌, ◌≤◌, ◌/◌, IfErr, IfOk, OnOk};
ghost use Rattle.board_files.specs.Images.{FailsToUnpack, FailsWhole, IsImageIn, IsNotWholeIn, IsUnpacked, IsWhole};
ghost use Rattle.board_files.specs.Images.{begins_as_journal, saved_image};

use crate::early_ends::EarlyEnd;
use nor_console::{Escaped, Fault};
use nor_geometry::SECTOR_LEN;
use nor_jobs::journal_in;
use nor_journal::Journal;
use nor_session::Refusal;
use std::alloc::{AllocError, Global};
use std::fmt;

/// Backup fault 1: the journal in the file `name` saves only `saved` of the `sectors` sectors of its chip.
#[derive(Clone, Copy, Drop)]
pub struct NotWhole<'a> {
    pub name: &'a str,
    pub saved: usize,
    pub sectors: u32,
}

impl fmt::Display for NotWhole<'_> {
    fn fmt<W: fmt::Write>(&self, f: &mut fmt::Formatter<W>) -> fmt::Result {
        let NotWhole {
            name,
            saved,
            sectors,
        } = *self;
        write!(
            f,
            "Backup fault 1: {}.\nThis journal saves {saved} of {sectors} sectors. Give one that saves the whole chip \
            (--backup).",
            Escaped(name)
        )
    }
}

/// Checks that `journal` saves every sector of its chip. Otherwise returns `NotWhole` with `name`, the journal's file.
pub fn check_whole<'a>(name: &'a str, journal: &Journal<'_>) -> Result<(), NotWhole<'a>>
    ensures ok { OnOk result (IsWhole journal.now) }
    ensures err { IfErr result (IsNotWholeIn journal.now name.entry) }
{
    let sectors = sectors_of(journal);
    for sector in 0..sectors {
        if journal.find(sector).is_none() {
            let saved = journal.count();
            return Err(NotWhole {
                name,
                saved,
                sectors,
            });
        }
    }
    Ok(())
}

/// Returns the number of sectors of the journal's chip.
pub fn sectors_of(journal: &Journal<'_>) -> u32
    ensures value { result ≡ journal.now.size / 4096 }
    ensures few { result ≤ 4096 }
{
    journal.size() / SECTOR_LEN
}

/// Returns the image in `journal`, `NotWhole` if a sector isn't saved, or error 18 if memory runs out.
pub fn whole_image<'a>(
    alloc: Global,
    name: &'a str,
    journal: &Journal<'_>,
) -> Result<Vec<u8>, EarlyEnd<'a>>
    ensures ok { IfOk result (λ image. IsImageIn journal.now image.items) }
    ensures err { IfErr result (FailsWhole journal.now name.entry) }
{
    check_whole(name, journal)?;
    match join_sectors(alloc, journal) {
        Ok(image) => Ok(image),
        Err(_) => Err(EarlyEnd::Fault(Fault::Refused(Refusal::Memory))),
    }
}

fn join_sectors(alloc: Global, journal: &Journal<'_>) -> Result<Vec<u8>, AllocError>
    ensures { IfOk result (λ image. image.items ≡ saved_image journal.now) }
{
    let mut image = Vec::new(alloc);
    for sector in 0..sectors_of(journal) {
        if let Some(bytes) = journal.find(sector) {
            image.extend_from_slice(bytes)?;
        }
    }
    Ok(image)
}

/// If `bytes`, the contents of the file `name`, begin as a journal, returns the image in this journal, otherwise
/// `bytes`. Returns error 15 if the journal is invalid, or a fault of `whole_image`.
pub fn unpacked<'a>(alloc: Global, name: &'a str, bytes: Vec<u8>) -> Result<Vec<u8>, EarlyEnd<'a>>
    ensures ok { IfOk result (λ image. IsUnpacked bytes.items image.items) }
    ensures err { IfErr result (FailsToUnpack bytes.items name.entry) }
{
    if !begins_as_journal(&bytes) {
        return Ok(bytes);
    }
    let journal = journal_in(&bytes)?;
    whole_image(alloc, name, &journal)
}

fn begins_as_journal(bytes: &[u8]) -> bool
    ensures { result ≡ begins_as_journal bytes.now }
{
    bytes.starts_with(b"NORUNDO")
}

//! A table of checksums of a chip's sectors, with the chip's ID and unique ID, and the encoding of this table.
ghost use Rattle.std.specs.Prelude.{◌≡◌, ◌++◌, IfOk, IfSome, OnOk};
ghost use Rattle.nor_sums.specs.Sums.{entry_text, sums_text};

use crate::sums::{SECTORS, Sums, sum_of};
use nor_journal::Journal;
use sha2::{Digest, Sha256};
use std::alloc::{AllocError, Global};

const MAGIC: [u8; 8] = *b"NORSUMS1";

const HEADER_LEN: usize = 19;

const ENTRY_LEN: usize = 9;

/// The length in bytes of an encoded `Sheet`.
pub const SHEET_LEN: usize = HEADER_LEN + ENTRY_LEN * SECTORS + 32;

/// A table of checksums of a chip's sectors, with the chip's ID and unique ID.
#[derive(Drop)]
pub struct Sheet {
    pub id: [u8; 3],
    pub unique: [u8; 8],
    pub sums: Sums,
}

/// Replaces the contents of `out` with the encoding of a `Sheet`. Fails only if `out` must grow and memory runs out.
pub fn encode(
    id: [u8; 3],
    unique: [u8; 8],
    sums: &Sums,
    out: &mut Vec<u8>,
) -> Result<(), AllocError>
    ensures { OnOk result (out.new.items ≡ sums_text id unique sums.now.entries.items) }
{
    out.clear();
    out.extend_from_slice(&MAGIC)?;
    out.extend_from_slice(&id)?;
    out.extend_from_slice(&unique)?;
    for sector in 0..sums.entries.len() {
        push_entry(sums.entries[sector], &mut *out)?;
    }
    let digest = Sha256::digest(out.as_slice());
    out.extend_from_slice(&digest)
}

fn push_entry(entry: Option<[u8; 8]>, out: &mut Vec<u8>) -> Result<(), AllocError>
    ensures { OnOk result (out.new.items ≡ out.old.items ++ entry_text entry) }
{
    match entry {
        None => out.extend_from_slice(&[0; ENTRY_LEN]),
        Some(sum) => {
            out.push(1)?;
            out.extend_from_slice(&sum)
        }
    }
}

/// Decodes a `Sheet`. Returns `None` if `bytes` aren't the encoding of a `Sheet`, and an error if memory runs out.
pub fn decode(alloc: Global, bytes: &[u8]) -> Result<Option<Sheet>, AllocError>
    ensures { IfOk result (λ found. IfSome found
        (λ sheet. bytes.now ≡ sums_text sheet.id sheet.unique sheet.sums.entries.items)) }
{
    let Some(sheet) = read_fields(alloc, bytes)? else {
        return Ok(None);
    };
    let mut again = Vec::new(alloc);
    encode(sheet.id, sheet.unique, &sheet.sums, &mut again)?;
    if again.as_slice() == bytes {
        Ok(Some(sheet))
    } else {
        Ok(None)
    }
}

// Reads the fields, and checks only the length. `decode` checks the bytes, by encoding the fields again.
fn read_fields(alloc: Global, bytes: &[u8]) -> Result<Option<Sheet>, AllocError> {
    if bytes.len() != SHEET_LEN {
        return Ok(None);
    }
    let mut id = [0; 3];
    id.copy_from_slice(&bytes[8..11]);
    let mut unique = [0; 8];
    unique.copy_from_slice(&bytes[11..HEADER_LEN]);
    let mut sums = Sums::new(alloc)?;
    for sector in 0..SECTORS {
        let start = HEADER_LEN + ENTRY_LEN * sector;
        if bytes[start] == 1 {
            let mut sum = [0; 8];
            sum.copy_from_slice(&bytes[start + 1..start + ENTRY_LEN]);
            sums.set(sector, sum);
        }
    }
    Ok(Some(Sheet { id, unique, sums }))
}

impl Sheet {
    /// Returns whether the table has the journal's ID and unique ID, and the checksum of each sector in the journal.
    /// For a journal of format 1, which has no unique ID, returns false.
    pub fn fits(&self, journal: &Journal<'_>) -> bool {
        let is_same = journal.id() == self.id && journal.unique() == Some(self.unique);
        is_same
            && (0..journal.count()).all(|i| {
                let (number, bytes) = journal.sector(i);
                self.sums.get(number as usize) == Some(sum_of(bytes))
            })
    }
}

//! The records of a journal, its end mark and its digest.
ghost use Rattle.std.specs.Prelude.{◌≡◌, ◌+◌, ◌*◌, ◌≤◌, length, take, drop, IfOk, IfErr, OnOk, MatchOption};
ghost use Rattle.sha2.specs.Sha256.{sha256};
ghost use Rattle.nor_journal.specs.Text.{end_mark, record_text};
ghost use Rattle.nor_journal.specs.Fault.{RecordFault, EndFault};
ghost use Rattle.nor_journal.specs.Reading.{sector_at, BeginsRecord, HasRecords, EndsAfter, FaultAfterRecords};

use crate::fault::JournalFault;
use crate::head::Head;
use crate::number::{number_bytes, number_of};
use nor_geometry::SECTOR_LEN;
use sha2::{Digest, Sha256};

pub const RECORD_LEN: usize = 4 + SECTOR_LEN as usize;

pub const END_MARK: [u8; 4] = [0xFF; 4];

pub const DIGEST_LEN: usize = 32;

#[tactic(auto, unfolding(crate::specs::Text::end_mark))]
fn next_record(sectors: u32, least: u32, bytes: &[u8]) -> Result<Option<u32>, JournalFault>
    ensures fault { IfErr result (RecordFault sectors least bytes.now) }
    ensures found { IfOk result (λ next. MatchOption next (take 4 bytes.now ≡ end_mark)
        (BeginsRecord sectors least bytes.now)) }
{
    if bytes.len() < END_MARK.len() {
        return Err(JournalFault::Short);
    }
    if bytes[..4] == END_MARK[..] {
        return Ok(None);
    }
    let number = number_of(bytes);
    if number >= sectors {
        return Err(JournalFault::Place);
    }
    if number < least {
        return Err(JournalFault::Order);
    }
    if bytes.len() < RECORD_LEN {
        return Err(JournalFault::Short);
    }
    Ok(Some(number))
}

/// Counts the records up to the end mark. `bytes` are all bytes after the header. Returns `Short`, `Place` or `Order`
/// for the first record that has a fault, and `Short` if the end mark is incomplete.
pub fn count_records(head: &Head, bytes: &[u8]) -> Result<usize, JournalFault>
    ensures fault { IfErr result (FaultAfterRecords head.now bytes.now) }
    ensures found { IfOk result (EndsAfter head.now bytes.now) }
{
    let sectors = head.size / SECTOR_LEN;
    let mut count = 0;
    let mut least = 0;
    let mut rest = bytes;
    while let Some(number) = next_record(sectors, least, rest)? {
        let (_, following) = rest.split_at(RECORD_LEN);
        rest = following;
        least = number + 1;
        count += 1;
    }
    Ok(count)
}

pub fn record_bytes(number: u32, bytes: &[u8; SECTOR_LEN as usize]) -> [u8; RECORD_LEN]
    ensures { result ≡ record_text (record { number = number; bytes = bytes.now }) }
{
    let mut record = [0; RECORD_LEN];
    record[..4].copy_from_slice(&number_bytes(number));
    record[4..].copy_from_slice(bytes);
    record
}

/// Returns the sector number and the bytes of the record with index `i`. `records` must contain this whole record.
pub fn record_at(records: &[u8], i: usize) -> (u32, &[u8])
    requires { 4100 * i + 4100 ≤ length records.now }
    ensures { record { number = result.0; bytes = result.1.now } ≡ sector_at records.now i }
{
    let record = &records[RECORD_LEN * i..];
    (number_of(record), &record[4..RECORD_LEN])
}

/// Checks that exactly the correct digest follows the end mark, which must be at index `mark` of `bytes`. Returns
/// `Short` if the digest is incomplete, `Long` if bytes follow it, or `Digest` if it is wrong.
pub fn check_end(bytes: &[u8], mark: usize) -> Result<(), JournalFault>
    requires within { mark + 4 ≤ length bytes.now }
    requires is_mark { take 4 (drop mark bytes.now) ≡ end_mark }
    ensures fault { IfErr result (EndFault (take mark bytes.now) (drop mark bytes.now)) }
    ensures found { OnOk result (drop (mark + 4) bytes.now ≡ sha256 (take (mark + 4) bytes.now)) }
{
    let (body, digest) = bytes.split_at(mark + END_MARK.len());
    if digest.len() < DIGEST_LEN {
        return Err(JournalFault::Short);
    }
    if digest.len() > DIGEST_LEN {
        return Err(JournalFault::Long);
    }
    if digest != Sha256::digest(body).as_slice() {
        return Err(JournalFault::Digest);
    }
    Ok(())
}

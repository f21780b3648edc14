//! Journals that are encoded again, without their unique ID (`--replaced-chip`) or with other status bytes.
ghost use Rattle.std.specs.Prelude.{◌≡◌, ◌++◌, IfErr, IfOk, OnOk};
ghost use Rattle.nor_journal.specs.Text.{end_mark, head, record_text, text};
ghost use Rattle.sha2.specs.Sha256.{sha256};
ghost use Rattle.board_files.specs.Images.{AreAdapted, FailsToAdapt, FailsToUnpack, IsForAnyDevice};
ghost use Rattle.board_files.specs.Images.{with_unique_and_status};

use crate::early_ends::EarlyEnd;
use crate::images::{check_whole, unpacked};
use nor_args::{Operation, Task};
use nor_console::Fault;
use nor_jobs::journal_in;
use nor_journal::{FIRST_MAGIC, Journal, MAGIC};
use nor_session::Refusal;
use sha2::{Digest, Sha256};
use std::alloc::{AllocError, Global};
use std::io::Write;

/// Returns the bytes that the task uses in place of `bytes`, the contents of its file. For `-v` of a journal, these are
/// the image in this journal. For a restore with `is_replaced`, they are the journal without its unique ID. For any
/// other task or file, they are `bytes`. May return error 15 for an invalid journal, `NotWhole` if the journal lacks a
/// sector, or error 18 if memory runs out.
pub fn adapted<'a>(
    alloc: Global,
    task: &Task<'a>,
    is_replaced: bool,
    bytes: Vec<u8>,
) -> Result<Vec<u8>, EarlyEnd<'a>>
    ensures ok { IfOk result (λ new. AreAdapted is_replaced task.now bytes.items new.items) }
    ensures err { IfErr result (FailsToAdapt is_replaced task.now bytes.items) }
{
    match task {
        Task::Verify { file, .. } => unpacked(alloc, *file, bytes),
        Task::Restore { journal } if is_replaced => for_any_device(alloc, *journal, &bytes),
        _ => Ok(bytes),
    }
}

/// Prints a line about the effect of `--replaced-chip`, if the operation has this option.
pub fn print_replaced<E: Write>(errors: &mut E, operation: &Operation<'_>) {
    if operation.is_replaced_chip {
        let _ = writeln!(errors, "{REPLACES}");
    }
}

const REPLACES: &str =
    "The backup replaces all that this chip holds, whatever the chip's unique ID is (--replaced-chip).";

// Encodes the journal in format 1, without its unique ID, if the journal saves every sector of its chip.
fn for_any_device<'a>(alloc: Global, name: &'a str, bytes: &[u8]) -> Result<Vec<u8>, EarlyEnd<'a>>
    ensures ok { IfOk result (λ new. IsForAnyDevice bytes.now new.items) }
    ensures err { IfErr result (FailsToUnpack bytes.now name.entry) }
{
    let journal = journal_in(bytes)?;
    check_whole(name, &journal)?;
    match encode(alloc, &journal, None, journal.status()) {
        Ok(new) => Ok(new),
        Err(_) => Err(EarlyEnd::Fault(Fault::Refused(Refusal::Memory))),
    }
}

/// Returns the encoding of `journal` with other status bytes (status 1 first). Fails if memory runs out.
pub fn encode_with_status(
    alloc: Global,
    journal: &Journal<'_>,
    status: [u8; 2],
) -> Result<Vec<u8>, AllocError>
    ensures { IfOk result (λ new. new.items ≡ text (with_unique_and_status journal.now.unique status journal.now)) }
{
    encode(alloc, journal, journal.unique(), status)
}

fn encode(
    alloc: Global,
    journal: &Journal<'_>,
    unique: Option<[u8; 8]>,
    status: [u8; 2],
) -> Result<Vec<u8>, AllocError>
    ensures { IfOk result (λ new. new.items ≡ text (with_unique_and_status unique status journal.now)) }
{
    let mut bytes = encode_header(alloc, journal, unique, status)?;
    for index in 0..journal.count() {
        let (number, saved) = journal.sector(index);
        append_record(&mut bytes, number, saved)?;
    }
    append_end(&mut bytes)?;
    Ok(bytes)
}

#[tactic(auto, unfolding(nor_journal::specs::Text::record_text, nor_journal::specs::Number::number_text))]
fn append_record(bytes: &mut Vec<u8>, number: u32, saved: &[u8]) -> Result<(), AllocError>
    ensures { OnOk result (bytes.new.items
        ≡ bytes.old.items ++ record_text (record { number = number; bytes = saved.now })) }
{
    bytes.extend_from_slice(&number.to_le_bytes())?;
    bytes.extend_from_slice(saved)
}

#[tactic(auto, unfolding(nor_journal::specs::Text::end_mark))]
fn append_end(bytes: &mut Vec<u8>) -> Result<(), AllocError>
    ensures { OnOk result (bytes.new.items
        ≡ (bytes.old.items ++ end_mark) ++ sha256 (bytes.old.items ++ end_mark)) }
{
    bytes.extend_from_slice(&[0xFF; 4])?;
    let digest = Sha256::digest(bytes.as_slice());
    bytes.extend_from_slice(digest.as_slice())
}

#[tactic(auto, unfolding(nor_journal::specs::Text::head, nor_journal::specs::Number::number_text))]
fn encode_header(
    alloc: Global,
    journal: &Journal<'_>,
    unique: Option<[u8; 8]>,
    status: [u8; 2],
) -> Result<Vec<u8>, AllocError>
    ensures { IfOk result (λ header. header.items ≡ head (with_unique_and_status unique status journal.now)) }
{
    let mut bytes = Vec::new(alloc);
    match unique {
        Some(unique) => {
            bytes.extend_from_slice(&MAGIC)?;
            bytes.extend_from_slice(&journal.id())?;
            bytes.extend_from_slice(&unique)?;
        }
        None => {
            bytes.extend_from_slice(&FIRST_MAGIC)?;
            bytes.extend_from_slice(&journal.id())?;
        }
    }
    bytes.extend_from_slice(&status)?;
    bytes.extend_from_slice(&journal.size().to_le_bytes())?;
    Ok(bytes)
}

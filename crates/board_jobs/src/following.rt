//! The target of a write or an erase, and the comparison of the whole chip with this target after the change.
ghost use Rattle.std.specs.Prelude.{◌≡◌, ◌≢◌, ◌<◌, ◌^◌, ℕ, IfErr, IfOk, OnOk, length, option_copied, slice_index, true};
ghost use Rattle.nor_journal.specs.MemVault.{held_by};
ghost use Rattle.nor_journal.specs.Vault.{new_vault};
ghost use Rattle.nor_layout.specs.Ranges.{contains};
ghost use Rattle.nor_layout.specs.Sectors.{merged_byte};
ghost use Rattle.board_jobs.specs.Following.{FailsToFollow, FailsToMerge, HasReadToMemory, IsFollowed};
ghost use Rattle.board_jobs.specs.Following.{IsWholeTarget, into_memory, ranges_if};

use crate::chip_faults::JobFault;
use board_progress::Progress;
use nor_console::{Fault, Outcome, or_fault, verify_image};
use nor_geometry::SECTOR_LEN;
use nor_journal::MemVault;
use nor_layout::{Ranges, includes_in_sector};
use nor_model::Bus;
use nor_probe::ChipName;
use nor_read::read_out;
use nor_session::{Refusal, Report};
use std::alloc::Global;

/// Returns the target of a write or an erase on a chip of `size` bytes: `image` or, with `ranges`, the bytes of `image`
/// in the ranges and the chip's own bytes elsewhere. With `ranges`, reads the whole chip into memory, and may fail with
/// error 4 (`image` isn't as long as the chip), 5 (an address isn't on the chip), 18 (out of memory) or another error
/// of `read_out`.
pub fn fill_from_chip<'a, B: Progress>(
    bus: &mut B,
    named: Option<ChipName>,
    size: u32,
    ranges: Option<&Ranges>,
    image: Vec<u8>,
    alloc: Global,
) -> Result<Vec<u8>, Fault<'a>>
    ensures ok { IfOk result (λ target. IsWholeTarget named (option_copied ranges.entry) image.items
        (B.state bus.old) (B.state bus.new) target.items) }
    ensures err { IfErr result (λ fault. (refusal : Refusal)
        × FailsToMerge named size (option_copied ranges.entry) image.items (B.state bus.old) (B.state bus.new) refusal
        × (fault ≡ Fault.Refused refusal)) }
{
    match ranges {
        None => Ok(image),
        Some(included) => or_fault(merge_chip(bus, named, size, included, image, alloc)),
    }
}

fn merge_chip<B: Progress>(
    bus: &mut B,
    named: Option<ChipName>,
    size: u32,
    included: &Ranges,
    image: Vec<u8>,
    alloc: Global,
) -> Result<Vec<u8>, Refusal>
    ensures ok { IfOk result (λ target. IsWholeTarget named (Some included.now) image.items
        (B.state bus.old) (B.state bus.new) target.items) }
    ensures err { IfErr result (FailsToMerge named size (Some included.now) image.items
        (B.state bus.old) (B.state bus.new)) }
{
    let mut target = image;
    check_size(size, target.len())?;
    if included.reaches(size) {
        return Err(Refusal::RegionOutside);
    }
    bus.expect_reads(sectors_to_read(size as usize, None));
    let mut chip = MemVault::new(alloc);
    let report = read_to_memory(bus, None, named, &mut chip)?;
    check_size(report.found.size, target.len())?;
    fill_rest(&mut target, chip.bytes(), included);
    Ok(target)
}

fn check_size(size: u32, len: usize) -> Result<(), Refusal>
    ensures ok { OnOk result (len ≡ size) }
    ensures err { IfErr result (λ refusal. (refusal ≡ Refusal.ImageSize size len) × (len ≢ size)) }
{
    if len == size as usize {
        Ok(())
    } else {
        Err(Refusal::ImageSize {
            chip: size,
            image: len,
        })
    }
}

/// Copies the bytes at the included addresses of the chip to `chip`, a new vault in memory, with FFh at all other
/// addresses. `None` includes all addresses. Fails with error 18 (out of memory) or another error of `read_out`.
pub fn read_to_memory<B: Bus>(
    bus: &mut B,
    included: Option<&Ranges>,
    named: Option<ChipName>,
    chip: &mut MemVault,
) -> Result<Report, Refusal>
    requires { held_by chip.old ≡ new_vault true }
    ensures ok { IfOk result (λ report. HasReadToMemory named (option_copied included.entry)
        (B.state bus.old) (B.state bus.new) (held_by chip.new).bytes (Ok report)) }
    ensures err { IfErr result (λ refusal. (why : Refusal) × HasReadToMemory named (option_copied included.entry)
        (B.state bus.old) (B.state bus.new) (held_by chip.new).bytes (Err why) × (refusal ≡ into_memory why)) }
{
    match read_out(bus, included, named, chip) {
        Ok(report) => Ok(report),
        Err(Refusal::Output { .. }) => Err(Refusal::Memory),
        Err(refusal) => Err(refusal),
    }
}

fn fill_rest(target: &mut [u8], chip: &[u8], included: &Ranges)
    requires same { length target.old ≡ length chip.now }
    requires short { length chip.now < 2 ^ 32 }
    ensures { (a : ℕ) → a < length chip.now → slice_index target.new a
        ≡ merged_byte (contains included.now) (slice_index target.old) (slice_index chip.now) a }
{
    for address in 0..chip.len() {
        if !included.contains(address as u32) {
            target[address] = chip[address];
        }
    }
}

/// Returns the number of reads of sectors before a change of a chip of `size` bytes: one for each sector with an
/// included address and, if `merged` is true, one more for each sector of the chip.
pub fn sectors_before_change(size: usize, included: Option<&Ranges>, merged: bool) -> usize {
    let scanned = sectors_to_read(size, included);
    if merged {
        scanned.saturating_add(sectors_to_read(size, None))
    } else {
        scanned
    }
}

/// Returns the number of sectors with an included address on a chip of `size` bytes (`None` includes all).
pub fn sectors_to_read(size: usize, included: Option<&Ranges>) -> usize {
    // A size of 2^32 sectors or more, which no chip has, is refused before a sector is read.
    let sectors = u32::try_from(size / SECTOR_LEN as usize).unwrap_or(0);
    (0..sectors)
        .filter(|sector| includes_in_sector(included, *sector))
        .count()
}

/// Returns `ranges` if `compared` is true, otherwise `None`.
pub fn ranges_if(compared: bool, ranges: Option<&Ranges>) -> Option<&Ranges>
    ensures { option_copied result ≡ ranges_if compared (option_copied ranges.entry) }
{
    if compared { ranges } else { None }
}

/// Compares the whole chip with the target if the session succeeded and `compared` is true. Returns the outcome of the
/// session, or `NotCompared` with the error of the comparison.
pub fn compare_chip<'a, B: Progress>(
    bus: &mut B,
    outcome: Outcome,
    compared: bool,
    named: Option<ChipName>,
    target: &[u8],
) -> Result<Outcome, JobFault<'a>>
    ensures ok { IfOk result (λ ended. (ended ≡ outcome) × IsFollowed outcome compared named target.now
        (B.state bus.old) (B.state bus.new)) }
    ensures err { IfErr result (FailsToFollow outcome compared named target.now
        (B.state bus.old) (B.state bus.new)) }
{
    let answer = match outcome {
        Ok(answer) => answer,
        Err(refusal) => return Ok(Err(refusal)),
    };
    if !compared {
        return Ok(Ok(answer));
    }
    bus.expect_comparison(sectors_to_read(target.len(), None));
    match verify_image(bus, named, target, None) {
        Ok(_) => Ok(Ok(answer)),
        Err(refusal) => Err(JobFault::NotCompared { refusal }),
    }
}

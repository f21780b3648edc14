//! Reads the sectors that the journal of a restore doesn't save, and compares them after the restore.
ghost use Rattle.std.specs.Prelude.{◌≡◌, ◌≤◌, ◌<◌, ◌^◌, IfErr, OnErr, OnOk, length, replicate};
ghost use Rattle.nor_journal.specs.Saved.{is_saved};
ghost use Rattle.board_jobs.specs.UnsavedSectors.{AreUnsaved, FailsRest, HasKeptRest, HasReadRest};
ghost use Rattle.board_jobs.specs.UnsavedSectors.{HasStoppedInRest, is_compared_after};

use board_files::sectors_of;
use board_progress::Progress;
use nor_console::Outcome;
use nor_driver::read_sector;
use nor_geometry::SECTOR_LEN;
use nor_journal::Journal;
use nor_model::Stopped;
use nor_plan::bounds;
use nor_session::Refusal;

// The number of sectors in 64 KiB, the longest block that is read at once.
const LONGEST_RUN: u32 = 16;

/// Reads each sector that the journal doesn't save into `bytes`, which must be as long as the chip and hold only FFh.
/// Returns `Stopped` if the bus stops. Saved sectors aren't read, not even ahead: after an interrupted operation, two
/// reads of a saved sector may differ, which would end the job.
pub fn read_rest<B: Progress>(
    bus: &mut B,
    journal: &Journal<'_>,
    bytes: &mut [u8],
) -> Result<(), Stopped>
    requires { bytes.old ≡ replicate journal.now.size 255 }
    ensures ok { OnOk result (HasReadRest journal.now bytes.new (B.state bus.old) (B.state bus.new)) }
    ensures err { OnErr result (HasStoppedInRest journal.now (B.state bus.old) (B.state bus.new)) }
{
    for sector in 0..sectors_of(journal) {
        if !saves(journal, sector) {
            bus.end_blocks_at(SECTOR_LEN * next_saved(journal, sector));
            let start = (SECTOR_LEN * sector) as usize;
            read_sector(bus, sector, &mut bytes[start..start + SECTOR_LEN as usize])?;
        }
    }
    bus.end_blocks_at(u32::MAX);
    Ok(())
}

fn next_saved(journal: &Journal<'_>, sector: u32) -> u32
    requires { sector < 4096 }
    ensures { result ≤ 4112 }
{
    for next in sector..sector + LONGEST_RUN {
        if saves(journal, next) {
            return next;
        }
    }
    sector + LONGEST_RUN
}

fn saves(journal: &Journal<'_>, sector: u32) -> bool
    ensures { result ≡ is_saved journal.now sector }
{
    journal.find(sector).is_some()
}

/// Reads the sectors that the journal doesn't save into `again`, which must be as long as the chip and hold only FFh.
/// Compares these sectors with `rest`, their bytes before the restore. Returns error 14 with the first address at which
/// a byte differs, or error 12 if the bus stopped.
pub fn compare_rest<B: Progress>(
    bus: &mut B,
    journal: &Journal<'_>,
    rest: &[u8],
    again: &mut [u8],
) -> Result<(), Refusal>
    requires blank { again.old ≡ replicate journal.now.size 255 }
    requires read { AreUnsaved journal.now rest.now }
    requires short { length rest.now < 2 ^ 32 }
    ensures ok { OnOk result (HasKeptRest journal.now rest.now (B.state bus.old) (B.state bus.new)) }
    ensures err { IfErr result (FailsRest journal.now rest.now (B.state bus.old) (B.state bus.new)) }
{
    read_rest(bus, journal, &mut *again)?;
    match bounds(rest, &*again) {
        Some((first, _)) => Err(Refusal::Mismatch {
            address: first as u32,
        }),
        None => Ok(()),
    }
}

/// Returns whether a comparison follows a restore with this outcome: true after success and after error 14.
pub fn is_compared_after(outcome: &Outcome) -> bool
    ensures { result ≡ is_compared_after outcome.now }
{
    matches!(outcome, Ok(_) | Err(Refusal::Mismatch { .. }))
}

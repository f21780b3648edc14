//! The image or the journal of a job, which is read and checked before the job starts.
ghost use Rattle.std.specs.Prelude.{◌≡◌, IfErr, IfOk, length, option_map};
ghost use Rattle.nor_files.specs.Files.{AreUntouched};
ghost use Rattle.nor_console.specs.Tasks.{named_by};
ghost use Rattle.board_files.specs.Sources.{AreBytes, AreReplacedIn, AreUsed, FailsCheck, FailsToReadBytes};
ghost use Rattle.board_files.specs.Sources.{FailsToReadSource, FailsToReplaceIn, MayExpectImage, ends_with_image};

use crate::early_ends::EarlyEnd;
use crate::region_files::{RegionFile, replace_regions};
use crate::replacing::adapted;
use crate::tasks::is_compared;
use nor_args::{Operation, Task, Wanted};
use nor_console::{
    Cause, Fault, MOST_JOURNAL_BYTES, exists, journal_of, named_by, read_file, read_journal,
};
use nor_files::Store;
use nor_jobs::{Sources, journal_in, read_image};
use nor_layout::Ranges;

/// Returns a copy of the image of `-v`, or of `-w` without `-n` and `-N`, for a bus that reads a sector twice only
/// if the first reply differs from this image. Returns `None` for any other job, or if memory runs out. If `-w` skips
/// a sector that it misread as equal, the final comparison detects this, unless the sector is misread again.
pub fn image_of(sources: &Sources, operation: &Operation<'_>) -> Option<Vec<u8>>
    ensures { MayExpectImage operation.now sources.now.bytes.items (option_map (λ image. image.items) result) }
{
    if ends_with_image(operation) {
        sources.bytes.clone().ok()
    } else {
        None
    }
}

fn ends_with_image(operation: &Operation<'_>) -> bool
    ensures { result ≡ ends_with_image operation.now operation.now.task }
{
    match &operation.task {
        Task::Verify { .. } => true,
        Task::Change(change) => {
            is_compared(operation, change) && matches!(change.wanted, Wanted::Write { .. })
        }
        _ => false,
    }
}

/// Reads and checks the image or the journal of a task, and adapts the bytes (`adapted`). `is_replaced` is true with
/// `--replaced-chip`. Returns a fault of `read_image`, `read_file`, `read_journal` or `adapted`, error 15 for an
/// invalid journal of a restore, or file fault 4 if the journal of a change already exists.
pub fn read_source<'a, R: Store>(
    rt: &mut R,
    task: &Task<'a>,
    is_replaced: bool,
) -> Result<Vec<u8>, EarlyEnd<'a>>
    ensures same { AreUntouched (R.state rt.old) (R.state rt.new) }
    ensures ok { IfOk result (λ bytes. AreUsed (R.state rt.old).view is_replaced task.now bytes.items) }
    ensures err { IfErr result (FailsToReadSource (R.state rt.old).view is_replaced task.now) }
{
    let whole = read_bytes(rt, task)?;
    check(rt, task, &whole)?;
    adapted(rt.alloc(), task, is_replaced, whole)
}

/// Replaces the bytes of `regions` in `bytes`, if these are the image of a task, by the contents of the regions' files.
/// Returns the new bytes with `included`. Returns a fault of `replace_regions`.
pub fn prepare_sources<'a, R: Store>(
    rt: &R,
    task: &Task<'a>,
    bytes: Vec<u8>,
    included: Option<Ranges>,
    regions: &[RegionFile<'a>],
) -> Result<Sources, EarlyEnd<'a>>
    ensures included { IfOk result (λ sources. sources.included ≡ included) }
    ensures ok { IfOk result (λ sources. AreReplacedIn (R.state rt.now).view (named_by task.now).wanted regions.now
        bytes.items sources.bytes.items) }
    ensures err { IfErr result (FailsToReplaceIn (R.state rt.now).view (named_by task.now).wanted regions.now
        (length bytes.items)) }
{
    let mut sources = Sources { included, bytes };
    if let Some(image) = named_by(task).wanted {
        replace_regions(rt, image, regions, &mut sources.bytes)?;
    }
    Ok(sources)
}

// For `-v`, the limit is `MOST_JOURNAL_BYTES`: the file may be a journal, which can be longer than the largest chip.
fn read_bytes<'a, R: Store>(rt: &mut R, task: &Task<'a>) -> Result<Vec<u8>, Fault<'a>>
    ensures same { AreUntouched (R.state rt.old) (R.state rt.new) }
    ensures ok { IfOk result (λ bytes. AreBytes (R.state rt.old).view task.now bytes.items) }
    ensures err { IfErr result (FailsToReadBytes (R.state rt.old).view task.now) }
{
    match task {
        Task::Verify { file, .. } => read_file(rt, *file, MOST_JOURNAL_BYTES),
        Task::Change(change) => read_image(rt, change.wanted),
        Task::Restore { journal } => read_journal(rt, *journal),
        _ => Ok(Vec::new(rt.alloc())),
    }
}

fn check<'a, R: Store>(rt: &R, task: &Task<'a>, bytes: &[u8]) -> Result<(), Fault<'a>>
    requires { AreBytes (R.state rt.now).view task.now bytes.now }
    ensures { IfErr result (FailsCheck (R.state rt.now).view task.now) }
{
    match task {
        Task::Change(change) => match journal_of(change) {
            Some(name) if rt.is_there(name) => { Err(exists(name, Cause::Exists)) }
            _ => Ok(()),
        },
        Task::Restore { .. } => {
            journal_in(bytes)?;
            Ok(())
        }
        _ => Ok(()),
    }
}

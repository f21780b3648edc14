//! The files that a job needs, which are read before its call to the engine.
ghost use Rattle.std.specs.Prelude.{◌≡◌, ◌⊎◌, IfErr, IfOk, None, OnErr};
ghost use Rattle.nor_files.specs.Files.{AreUntouched};
ghost use Rattle.nor_console.specs.Requests.{AreRangesOf, FailsToInclude};
ghost use Rattle.nor_args.specs.declared.job.Wanted.TheVariants.{Erase};
ghost use Rattle.nor_jobs.specs.Sources.{AreSources, FailsImage, FailsSources, IsImage, asked_bytes};

use nor_args::{Change, Task, Wanted};
use nor_console::{Fault, MOST_IMAGE_BYTES, erased, read_file, read_included, read_journal};
use nor_files::Store;
use nor_layout::Ranges;
use std::alloc::{AllocError, Global};

#[derive(Drop)]
pub struct Sources {
    /// The addresses of the included regions, or `None` if the job isn't limited to regions.
    pub included: Option<Ranges>,
    /// The image to write or to compare, or the journal to restore from; empty if the job needs neither.
    pub bytes: Vec<u8>,
}

/// Reads the layout and the image or journal that a task needs. Locks a journal as `read_journal` does, and doesn't
/// check its format. Returns the faults of `read_included`, `read_file` and `read_journal`.
pub fn read_sources<'a, R: Store>(rt: &mut R, task: &Task<'a>) -> Result<Sources, Fault<'a>>
    ensures same { AreUntouched (R.state rt.old) (R.state rt.new) }
    ensures ok { IfOk result (λ sources.
        AreSources (R.state rt.old).view task.now sources.included sources.bytes.items) }
    ensures err { IfErr result (FailsSources (R.state rt.old).view task.now) }
{
    match task {
        Task::Read { regions, .. } => {
            let included = read_included(rt, *regions, None)?;
            Ok(without_bytes(rt, included))
        }
        Task::Verify { file, regions } => {
            let included = read_included(rt, *regions, None)?;
            let bytes = read_file(rt, *file, MOST_IMAGE_BYTES)?;
            Ok(Sources { included, bytes })
        }
        Task::Change(change) => read_for_change(rt, change),
        Task::Restore { journal } => {
            let (included, bytes) = (None, read_journal(rt, *journal)?);
            Ok(Sources { included, bytes })
        }
        _ => Ok(without_bytes(rt, None)),
    }
}

fn without_bytes<R: Store>(rt: &R, included: Option<Ranges>) -> Sources
    ensures { result.included ≡ included }
{
    let bytes = Vec::new(rt.alloc());
    Sources { included, bytes }
}

fn read_for_change<'a, R: Store>(rt: &R, change: &Change<'a>) -> Result<Sources, Fault<'a>>
    ensures ok { IfOk result (λ sources. AreRangesOf (R.state rt.now).view None change.now.regions sources.included
        × IsImage (R.state rt.now).view change.now.wanted sources.bytes.items) }
    ensures err { IfErr result (λ fault. FailsToInclude (R.state rt.now).view None change.now.regions fault
        ⊎ FailsImage (R.state rt.now).view change.now.wanted fault) }
{
    let included = read_included(rt, change.regions, None)?;
    let bytes = read_image(rt, change.wanted)?;
    Ok(Sources { included, bytes })
}

/// Reads the image that a change writes, up to `MOST_IMAGE_BYTES`. Returns no bytes if the change writes no image.
/// Returns the faults of `read_file`.
pub fn read_image<'a, R: Store>(rt: &R, wanted: Wanted<'a>) -> Result<Vec<u8>, Fault<'a>>
    ensures ok { IfOk result (λ bytes. IsImage (R.state rt.now).view wanted.entry bytes.items) }
    ensures err { IfErr result (FailsImage (R.state rt.now).view wanted.entry) }
{
    match wanted {
        Wanted::Write { image } => read_file(rt, image, MOST_IMAGE_BYTES),
        _ => Ok(Vec::new(rt.alloc())),
    }
}

/// Returns `size` bytes of FFh if the change is an erase, otherwise `bytes`. Fails if memory runs out.
pub fn asked_bytes(
    alloc: Global,
    wanted: Wanted<'_>,
    size: u32,
    bytes: Vec<u8>,
) -> Result<Vec<u8>, AllocError>
    ensures ok { IfOk result (λ asked. asked.items ≡ asked_bytes wanted.entry size bytes.items) }
    ensures err { OnErr result (wanted.entry ≡ Erase) }
{
    match wanted {
        Wanted::Erase => erased(alloc, size),
        _ => Ok(bytes),
    }
}

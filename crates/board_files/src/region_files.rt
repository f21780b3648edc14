//! Finds the regions of `-i` that have a file of their own (`NAME:FILE`), and replaces the bytes of an image by the
//! contents of these files.
ghost use Rattle.std.specs.Prelude.{◌≡◌, ◌∷◌, [], All, IfErr, IfOk, OnOk, length, map, option_map, string_bytes};
ghost use Rattle.board_files.specs.Regions.{AreRangesIn, AreReplaced, FailsToFindFiles, FailsToFindSpan};
ghost use Rattle.board_files.specs.Regions.{FailsToReplace, FailsToReplaceOne, IsReplaced};
ghost use Rattle.board_files.specs.Regions.{entries_of, files_in, name_in, named_file, names_in, pair_in, regions_of};
ghost use Rattle.board_files.specs.Sources.{ArePlainNames};

use crate::early_ends::EarlyEnd;
use crate::region_faults::RegionFault;
use nor_args::{Regions, Task};
use nor_console::{Fault, MOST_IMAGE_BYTES, include_regions, read_file};
use nor_files::Store;
use nor_layout::{Layout, Span};
use nor_session::Refusal;
use std::alloc::{AllocError, Global};

/// A region of `-i` that has a file of its own (`NAME:FILE`).
#[derive(Clone, Copy, Drop)]
pub struct RegionFile<'a> {
    pub name: &'a str,
    pub file: &'a str,
    pub span: Span,
}

/// Returns the regions to which a task is limited, or `None` if it has no such limit.
pub fn regions_of<'a>(task: &Task<'a>) -> Option<Regions<'a>>
    ensures { result ≡ regions_of task.now }
{
    match task {
        Task::Read { regions, .. } => *regions,
        Task::Verify { regions, .. } => *regions,
        Task::Change(change) => change.regions,
        _ => None,
    }
}

/// Returns the names of a task's regions without their files, separated by commas.
pub fn plain_names(alloc: Global, task: &Task<'_>) -> Result<String, AllocError>
    ensures { IfOk result (λ names. ArePlainNames (regions_of task.now) (string_bytes names)) }
{
    match regions_of(task) {
        Some(regions) => names_in(alloc, regions.names),
        None => Ok(String::new(alloc)),
    }
}

fn names_in(alloc: Global, text: &str) -> Result<String, AllocError>
    ensures { IfOk result (λ names. string_bytes names ≡ names_in text.now) }
{
    let entries = entries_in(alloc, text)?;
    let mut names = Vec::new(alloc);
    for entry in &entries {
        names.push(name_in(entry))?;
    }
    names.join(alloc, ",")
}

fn entries_in(alloc: Global, text: &str) -> Result<Vec<&str>, AllocError>
    ensures { IfOk result (λ entries. map (λ entry. entry.now) entries.items ≡ entries_of text.now) }
{
    text.split(',').collect(alloc)
}

fn name_in(entry: &str) -> &str
    ensures { result.now ≡ name_in entry.now }
{
    match entry.split_once(':') {
        Some((name, _)) => name,
        None => entry,
    }
}

fn pair_in(entry: &str) -> Option<(&str, &str)>
    ensures { option_map (λ pair. (pair.0.now, pair.1.now)) result ≡ pair_in entry.now }
{
    entry.split_once(':')
}

/// Returns the regions in `text`, the value of `-i`, that have a file, in their order, each with its addresses in
/// `layout`. Returns layout fault 8 if such a region isn't in the layout or its addresses aren't a single span, or
/// error 18 if memory runs out.
pub fn find_files<'a>(
    alloc: Global,
    layout: &Layout,
    text: &'a str,
) -> Result<Vec<RegionFile<'a>>, Fault<'a>>
    ensures entries { IfOk result (λ files. map named_file files.items ≡ files_in text.now) }
    ensures spans { IfOk result (λ files.
        All (λ region. AreRangesIn layout.now region.name.now (region.span ∷ [])) files.items) }
    ensures err { IfErr result (FailsToFindFiles layout.now) }
{
    let entries = entries_in(alloc, text)?;
    let mut files = Vec::new(alloc);
    for entry in &entries {
        if let Some((name, file)) = pair_in(entry) {
            let span = span_of(layout, name)?;
            if files.push(RegionFile { name, file, span }).is_err() {
                return Err(Fault::Refused(Refusal::Memory));
            }
        }
    }
    Ok(files)
}

fn span_of<'a>(layout: &Layout, name: &'a str) -> Result<Span, Fault<'a>>
    ensures ok { IfOk result (λ span. AreRangesIn layout.now name.now (span ∷ [])) }
    ensures err { IfErr result (FailsToFindSpan layout.now name.entry) }
{
    match include_regions(layout, name) {
        Ok(ranges) if ranges.spans().len() == 1 => Ok(ranges.spans()[0]),
        Ok(_) => Err(Fault::NoRegion { name }),
        Err(unknown) => Err(Fault::NoRegion { name: unknown }),
    }
}

/// Replaces the bytes at each region's addresses in `bytes`, the image in the file `image`, by the contents of the
/// region's file. If regions overlap, the later file wins. Returns file fault 3 if a file is longer or shorter than its
/// region, or if the image ends before the end of a region. Also returns the faults of `read_file`.
pub fn replace_regions<'a, R: Store>(
    rt: &R,
    image: &'a str,
    files: &[RegionFile<'a>],
    bytes: &mut [u8],
) -> Result<(), EarlyEnd<'a>>
    ensures ok { OnOk result (AreReplaced (R.state rt.now).view files.now bytes.old bytes.new) }
    ensures err { IfErr result (FailsToReplace (R.state rt.now).view image.entry files.now (length bytes.old)) }
{
    for region in files {
        replace_region(rt, image, region, &mut *bytes)?;
    }
    Ok(())
}

fn replace_region<'a, R: Store>(
    rt: &R,
    image: &'a str,
    region: &RegionFile<'a>,
    bytes: &mut [u8],
) -> Result<(), EarlyEnd<'a>>
    ensures ok { OnOk result (IsReplaced (R.state rt.now).view region.now bytes.old bytes.new) }
    ensures err { IfErr result (FailsToReplaceOne (R.state rt.now).view image.entry region.now (length bytes.old)) }
{
    let content = read_file(rt, region.file, MOST_IMAGE_BYTES)?;
    let (first, end) = (region.span.first as usize, region.span.last as usize + 1);
    if end < first || bytes.len() < end {
        return Err(EarlyEnd::Region(RegionFault::Short {
            image,
            region: region.name,
        }));
    }
    if content.len() != end - first {
        return Err(EarlyEnd::Region(RegionFault::Length {
            file: region.file,
            found: content.len(),
            wanted: end - first,
        }));
    }
    bytes[first..end].copy_from_slice(&content);
    Ok(())
}

//! The regions of `-i`: their addresses, and the files that some of them have.
ghost use Rattle.std.specs.Prelude.{◌≡◌, IfErr, IfOk, Some, option_map};
ghost use Rattle.nor_args.specs.declared.job.Regions.{Regions};
ghost use Rattle.nor_console.specs.Requests.{AreRangesOf};
ghost use Rattle.board_files.specs.Regions.{AreFilesIn, AreFilesOf, FailsToFindIn, FailsToFindRegions};
ghost use Rattle.board_files.specs.Regions.{regions_of, with_names};
ghost use Rattle.board_files.specs.Sources.{named_regions};

use crate::early_ends::EarlyEnd;
use crate::layout_lines::NamesLine;
use crate::region_files::{RegionFile, find_files, regions_of};
use nor_args::{Regions, Task};
use nor_console::{include_regions, read_layout};
use nor_files::Store;
use nor_layout::{Ranges, Region};

/// The region of `-i` with the greatest address, and this address (`end`).
#[derive(Clone, Copy, Drop)]
pub struct Farthest<'a> {
    pub name: &'a str,
    pub end: u32,
}

/// The regions of `-i`. If no regions are given, `ranges` and `farthest` are `None`, and `files` is empty.
#[derive(Drop)]
pub struct Included<'a> {
    /// The addresses of all these regions.
    pub ranges: Option<Ranges>,
    /// The regions that have a file, in the order of `-i`.
    pub files: Vec<RegionFile<'a>>,
    pub farthest: Option<Farthest<'a>>,
}

/// Reads the layout of a task, and finds the task's regions in it. `names` are these regions without their files
/// (`plain_names`). `shown` has the bytes of the layout if it is on the chip. Returns a fault of `read_layout`,
/// `NoRegion` for a name that no region of the layout has, layout fault 8 if the addresses of a region with a file
/// aren't a single span, or error 18 if memory runs out.
pub fn find_included<'a, R: Store>(
    rt: &R,
    task: &Task<'a>,
    names: &'a str,
    shown: Option<&[u8]>,
) -> Result<Included<'a>, EarlyEnd<'a>>
    ensures ranges { IfOk result (λ included. AreRangesOf (R.state rt.now).view
        (option_map (λ bytes. bytes.now) shown.entry) (named_regions names.entry task.now) included.ranges) }
    ensures files { IfOk result (λ included. AreFilesIn (R.state rt.now).view
        (option_map (λ bytes. bytes.now) shown.entry) (regions_of task.now) included.files.items) }
    ensures err { IfErr result (FailsToFindRegions (R.state rt.now).view
        (option_map (λ bytes. bytes.now) shown.entry) names.entry (regions_of task.now)) }
{
    match regions_of(task) {
        Some(regions) => find_in_layout(rt, regions, names, shown),
        None => Ok(Included {
            ranges: None,
            files: Vec::new(rt.alloc()),
            farthest: None,
        }),
    }
}

fn find_in_layout<'a, R: Store>(
    rt: &R,
    regions: Regions<'a>,
    names: &'a str,
    shown: Option<&[u8]>,
) -> Result<Included<'a>, EarlyEnd<'a>>
    ensures ranges { IfOk result (λ included. AreRangesOf (R.state rt.now).view
        (option_map (λ bytes. bytes.now) shown.entry) (Some (with_names names.entry regions.entry)) included.ranges) }
    ensures files { IfOk result (λ included. AreFilesOf (R.state rt.now).view
        (option_map (λ bytes. bytes.now) shown.entry) regions.entry included.files.items) }
    ensures err { IfErr result (FailsToFindIn (R.state rt.now).view
        (option_map (λ bytes. bytes.now) shown.entry) names.entry regions.entry) }
{
    let layout = read_layout(rt, regions, shown)?;
    match include_regions(&layout, names) {
        Ok(ranges) => {
            let files = find_files(rt.alloc(), &layout, regions.names)?;
            Ok(Included {
                ranges: Some(ranges),
                files,
                farthest: farthest_of(layout.regions(), names),
            })
        }
        Err(name) => {
            let file = regions.layout;
            let known = NamesLine { file, layout };
            Err(EarlyEnd::NoRegion { name, known })
        }
    }
}

fn farthest_of<'a>(regions: &[Region], names: &'a str) -> Option<Farthest<'a>> {
    let mut farthest: Option<Farthest<'a>> = None;
    for name in names.split(',') {
        for region in regions {
            let end = region.end;
            let is_farther = farthest.is_none_or(|other| other.end < end);
            if is_farther && region.name.as_slice() == name.as_bytes() {
                farthest = Some(Farthest { name, end });
            }
        }
    }
    farthest
}

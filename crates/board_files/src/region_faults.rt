//! The faults of regions with a file of their own, and the lines of these faults.

use nor_args::UsageFault;
use nor_console::{Escaped, FileFault};
use std::fmt;

/// A fault that concerns regions with files of their own (`-i NAME:FILE`).
#[derive(Clone, Copy, Drop)]
pub enum RegionFault<'a> {
    /// Usage fault 7: an erase has a region with a file.
    Erased,
    /// Usage fault 7: the name of the file of this region is empty.
    Unnamed {
        region: &'a str,
    },
    /// File fault 1: the output of a read, from which the files of regions are copied, is a FIFO or a character device.
    NotReadBack {
        output: &'a str,
    },
    /// File fault 3: the file has `found` bytes (at most 16,777,217 are counted), but the region has `wanted` bytes.
    Length {
        file: &'a str,
        found: usize,
        wanted: usize,
    },
    /// File fault 3: the image ends before the end of this region.
    Short {
        image: &'a str,
        region: &'a str,
    },
}

impl fmt::Display for RegionFault<'_> {
    fn fmt<W: fmt::Write>(&self, f: &mut fmt::Formatter<W>) -> fmt::Result {
        match *self {
            RegionFault::Erased => write!(
                f,
                "error: -E takes no files: give -i NAME, not -i NAME:FILE\n{}",
                UsageFault::Layout
            ),
            RegionFault::Unnamed { region } => write!(
                f,
                "error: the file name of the region '{}' is empty\n{}",
                Escaped(region),
                UsageFault::Layout
            ),
            RegionFault::NotReadBack { output } => write!(
                f,
                "File fault {}: {}.\nThe file of -r must be a regular file, because the files of regions are copied \
                from it.",
                FileFault::Read.number(),
                Escaped(output)
            ),
            RegionFault::Length {
                file,
                found,
                wanted,
            } => write!(
                f,
                "File fault {}: {}.\nIt has {found} bytes, and its region has {wanted}.",
                FileFault::Length.number(),
                Escaped(file)
            ),
            RegionFault::Short { image, region } => write!(
                f,
                "File fault {}: {}.\nIt ends before the end of the region '{}'.",
                FileFault::Length.number(),
                Escaped(image),
                Escaped(region)
            ),
        }
    }
}

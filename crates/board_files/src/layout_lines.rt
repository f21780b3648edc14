//! The lines of a fault of a layout: what is wrong with the layout's table, and which regions the layout has.

use crate::region_files::regions_of;
use nor_args::{LayoutForm, Regions, Task};
use nor_console::{Escaped, Fault};
use nor_layout::{Layout, RegionFault};
use nor_maps::MapFault;
use std::fmt;
use std::str::from_utf8;

/// The lines for a fault of a flash descriptor or of an FMAP.
#[derive(Clone, Copy, Drop)]
pub struct MapLines {
    fault: MapFault,
    table: &'static str,
    place: &'static str,
}

impl MapLines {
    pub fn new(fault: MapFault, task: &Task<'_>) -> MapLines {
        let (table, place) = match regions_of(task) {
            Some(Regions { layout, form, .. }) => (table_of(form), place_of(layout)),
            None => (table_of(LayoutForm::Fmap), place_of(None)),
        };
        MapLines {
            fault,
            table,
            place,
        }
    }
}

fn table_of(form: LayoutForm) -> &'static str {
    match form {
        LayoutForm::Descriptor => "flash descriptor",
        _ => "FMAP",
    }
}

fn place_of(file: Option<&str>) -> &'static str {
    match file {
        Some(_) => "in the file",
        None => "on the chip",
    }
}

impl fmt::Display for MapLines {
    fn fmt<W: fmt::Write>(&self, f: &mut fmt::Formatter<W>) -> fmt::Result {
        let MapLines {
            fault,
            table,
            place,
        } = *self;
        match fault {
            MapFault::Missing => writeln!(f, "error: there is no {table} {place}")?,
            MapFault::Short => writeln!(f, "error: the {table} {place} is cut off")?,
            MapFault::Outside { record } => {
                writeln!(
                    f,
                    "error: region {record} of the {table} {place} ends above 4 GiB"
                )?
            }
            MapFault::Region {
                fault: RegionFault::Memory,
                ..
            } => {}
            MapFault::Region { fault, .. } => {
                let flaw = text_of_region(fault);
                writeln!(f, "error: the {table} {place} has {flaw}")?
            }
        }
        write!(f, "{}", Fault::Map(fault))
    }
}

fn text_of_region(fault: RegionFault) -> &'static str {
    match fault {
        RegionFault::Name => "a region without a valid name",
        RegionFault::Twice => "two regions with one name",
        _ => "more than 64 regions",
    }
}

/// The line with the names of a layout's regions. A long line has only the first names, and the number of the others.
#[derive(Drop)]
pub struct NamesLine<'a> {
    /// The name of the file with the layout, or `None` if the layout is on the chip.
    pub file: Option<&'a str>,
    pub layout: Layout,
}

// The number of bytes of names and separators after which `NamesLine` prints only the number of further regions.
const MOST_NAMES: usize = 200;

impl fmt::Display for NamesLine<'_> {
    fn fmt<W: fmt::Write>(&self, f: &mut fmt::Formatter<W>) -> fmt::Result {
        match self.file {
            Some(name) => write!(f, "Regions in the file {}: ", Escaped(name))?,
            None => f.write_str("Regions on the chip: ")?,
        }
        let regions = self.layout.regions();
        if regions.is_empty() {
            return f.write_str("none.");
        }
        let (mut bytes, mut left) = (0usize, regions.len());
        for region in regions {
            if bytes >= MOST_NAMES {
                break;
            }
            if bytes > 0 {
                f.write_str(", ")?;
            }
            if let Ok(name) = from_utf8(&region.name) {
                write!(f, "{}", Escaped(name))?;
            }
            bytes = bytes.saturating_add(region.name.len()).saturating_add(2);
            left = left.saturating_sub(1);
        }
        match left {
            0 => f.write_str("."),
            more => write!(f, " and {more} more."),
        }
    }
}

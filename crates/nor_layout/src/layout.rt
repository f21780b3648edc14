//! Layout texts, and the addresses that names of regions stand for.

ghost use Rattle.std.specs.Prelude.{◌≡◌, ◌↔◌, ℕ, List, IsTrue, IsOk, IfOk, IfErr};
ghost use Rattle.nor_layout.specs.Text.{is_region_named, with_line, layout_says, AreRegions, ReadsLayout, AsksMemory};
ghost use Rattle.nor_layout.specs.Grammar.{IsLayout};
ghost use Rattle.nor_layout.specs.Included.{are_known, is_included};
ghost use Rattle.nor_layout.specs.Ranges.{AreRanges, contains};
ghost use Rattle.nor_layout.specs.Steps.{AddsRegion, is_listed, is_listed_address};

mod adding;

use crate::fault::{LayoutFault, LineFault};
use crate::line;
use crate::ranges::{Ranges, Span};
use crate::region::{REGIONS, Region};
pub use adding::RegionFault;
use std::alloc::Global;
use std::marker::Model;

/// Regions in the order in which they were read from a layout text or added: at most 64, no two with the same name.
#[derive(Debug, Drop)]
pub struct Layout {
    regions: Vec<Region>,
}

impl Model for Layout {
    ghost use Rattle.std.specs.Prelude.{List};
    ghost use Rattle.nor_layout.specs.declared.region.Region.{Region};
    ghost use Rattle.nor_layout.specs.Text.{AreRegions};

    ghost Value = { List Region };

    ghost view = { λ l. l.regions.items };

    ghost invariant = { λ l. AreRegions l.regions.items };
}

fn is_named(regions: &[Region], name: &[u8]) -> bool
    ensures { result ≡ is_region_named regions.now name.now }
{
    regions.iter().any(|region| region.name.as_slice() == name)
}

fn is_listed(names: &[u8], name: &[u8]) -> bool
    ensures { result ≡ is_listed names.now name.now }
{
    names.split(|b| *b == b',').any(|listed| name == listed)
}

fn are_known(regions: &[Region], names: &[u8]) -> bool
    ensures { result ≡ are_known regions.now names.now }
{
    names
        .split(|b| *b == b',')
        .all(|name| is_named(regions, name))
}

#[tactic(auto, unfolding(crate::specs::Text::with_line))]
fn add_line(regions: &mut Vec<Region>, number: usize, line: &[u8]) -> Result<(), LayoutFault>
    ensures { AddsRegion regions.old.items regions.new.items result (with_line regions.old.items number line.now) }
{
    if line.is_empty() {
        return Ok(());
    }
    let region = line::read_region(line).map_err(|fault| LayoutFault::InLine {
        line: number,
        fault,
    })?;
    if is_named(regions, &region.name) {
        return Err(LayoutFault::InLine {
            line: number,
            fault: LineFault::Twice,
        });
    }
    if regions.len() >= REGIONS {
        return Err(LayoutFault::TooMany);
    }
    regions.push(region)?;
    Ok(())
}

impl Layout {
    /// Reads a layout text (flashrom's manual page, layout files). Every line that isn't empty is `start:end name`,
    /// with one or more spaces before the name. An address is 1 to 8 hexadecimal digits, with or without `0x`. A name
    /// has 1 to 32 visible ASCII characters except `,` and `:`. Regions include their ends and may overlap.
    ///
    /// Returns the fault of the first line that has one. A line is checked in the order of `LineFault`, and then for
    /// `TooMany`. Returns `Memory` if an allocation fails at a line that adds a region.
    pub fn read(alloc: Global, text: &[u8]) -> Result<Layout, LayoutFault>
        ensures exact { ReadsLayout result (layout_says text.now) }
        ensures asks { IfErr result (λ fault. fault ≡ LayoutFault.Memory → AsksMemory text.now) }

        ensures found { IfOk result (λ layout. IsLayout text.now layout) }
        ensures taken { (regions : List Region) → IsLayout text.now regions → ReadsLayout result (Ok regions) }
    {
        let mut regions = Vec::new(alloc);
        let mut number = 0;
        for line in text.split(|b| *b == b'\n') {
            number += 1;
            add_line(&mut regions, number, line)?;
        }
        Ok(Layout { regions })
    }

    /// Returns the regions in the order in which they were read or added.
    pub fn regions(&self) -> &[Region]
        ensures same { result.now ≡ self.now }
        ensures regions { AreRegions self.now }
    {
        self.regions.as_slice()
    }

    /// Returns the addresses of the regions with the comma-separated `names`, or `NoRegion` if a name is unknown.
    pub fn include(&self, names: &str) -> Result<Ranges, LayoutFault>
        ensures known { IsOk result ↔ IsTrue (are_known self.now names.now) }
        ensures unknown { IfErr result (λ fault. fault ≡ LayoutFault.NoRegion) }

        ensures union { IfOk result (λ ranges. (address : ℕ)
            → contains ranges address ≡ is_included self.now names.now address) }
        ensures ranges { IfOk result AreRanges }
    {
        let names = names.as_bytes();
        if !are_known(&self.regions, names) {
            return Err(LayoutFault::NoRegion);
        }
        Ok(listed_ranges(&self.regions, names))
    }
}

fn listed_ranges(regions: &[Region], names: &[u8]) -> Ranges
    requires { AreRegions regions.now }
    ensures union { (address : ℕ)
        → contains result address ≡ is_listed_address regions.now names.now address }
    ensures ranges { AreRanges result }
{
    let mut ranges = Ranges::new();
    for region in regions {
        if is_listed(names, &region.name) {
            ranges = ranges.with(Span {
                first: region.start,
                last: region.end,
            });
        }
    }
    ranges
}

//! Finds and reads an FMAP, the table of regions in an image of Chromium's firmware.

ghost use Rattle.std.specs.Prelude.{◌≡◌, ◌≤◌, ◌+◌, ◌*◌, [], length, IfSome, IsTrue, MatchOption, None, Some};
ghost use Rattle.std.specs.List.{list_all};
ghost use Rattle.nor_maps.specs.Records.{records_say, AddsRecord, AsksAt, ReadsTable};
ghost use Rattle.nor_maps.specs.Fmap.{is_visible, is_fmap_header, area_count, first_fmap, with_area};
ghost use Rattle.nor_maps.specs.Fmap.{fmap_says, AsksInFmap};

use crate::fault::MapFault;
use crate::record::{NAME_LEN, add_found, name_in, number_at, rest_from};
use byteorder::{ByteOrder, LittleEndian};
use nor_layout::Layout;
use std::alloc::Global;

const SIGNATURE: [u8; 8] = *b"__FMAP__";

const HEADER_LEN: usize = 56;

const AREA_LEN: usize = 42;

fn are_visible(bytes: &[u8]) -> bool
    ensures { result ≡ list_all is_visible bytes.now }
{
    bytes.iter().all(|b| b.is_ascii_graphic())
}

fn count_areas(header: &[u8]) -> u16
    requires { 56 ≤ length header.now }
    ensures { result ≡ area_count header.now }
{
    LittleEndian::read_u16(&header[54..])
}

#[tactic(auto, unfolding(crate::specs::Fmap::is_fmap_header))]
fn is_header(bytes: &[u8]) -> bool
    ensures value { result ≡ is_fmap_header bytes.now }
    ensures long { IsTrue result → 56 ≤ length bytes.now }
{
    if bytes.len() < HEADER_LEN || bytes[..8] != SIGNATURE[..] || bytes[8] != 1 {
        return false;
    }
    let name = name_in(&bytes[22..54]);
    let length = HEADER_LEN + AREA_LEN * count_areas(bytes) as usize;
    name.len() < NAME_LEN && are_visible(&name) && length <= number_at(bytes, 18) as usize
}

#[tactic(auto, unfolding(crate::specs::Fmap::first_fmap))]
fn find_fmap(bytes: &[u8]) -> Option<&[u8]>
    ensures first { MatchOption result (first_fmap bytes.now ≡ None) (λ map. first_fmap bytes.now ≡ Some map.now) }
    ensures long { IfSome result (λ map. 56 ≤ length map.now) }
{
    let mut rest = bytes;
    while let [_, others @ ..] = rest {
        if is_header(rest) {
            return Some(rest);
        }
        rest = others;
    }
    None
}

fn add_area(layout: &mut Layout, size: u32, number: u16, area: &[u8]) -> Result<(), MapFault>
    requires { 42 ≤ length area.now }
    ensures { AddsRecord layout.old layout.new number result (with_area size layout.old number area.now) }
{
    let (start, length) = (number_at(area, 0), number_at(area, 4));
    if length == 0 {
        return Ok(());
    }
    let end = u64::from(start) + u64::from(length) - 1;
    let name = name_in(&area[8..40]);
    add_found(layout, size, number, start, end, name)
}

fn read_areas(alloc: Global, areas: &[u8], count: u16, size: u32) -> Result<Layout, MapFault>
    requires { 42 * count ≤ length areas.now }
    ensures { ReadsTable (records_say (with_area size) 42 [] 1 count areas.now)
        (AsksAt (with_area size) 42 1 areas.now) result }
{
    let mut layout = Layout::new(alloc);
    for before in 0..count {
        let area = rest_from(areas, AREA_LEN * before as usize);
        add_area(&mut layout, size, before + 1, area)?;
    }
    Ok(layout)
}

/// Reads the first FMAP of an image as the layout of a chip of `size` bytes (Chromium's flashmap, lib/fmap.h;
/// flashrom's manual page, `--fmap`). The regions are the areas in their order, except those of size 0, and may
/// overlap. An area's name ends before the first NUL in its field, if any.
///
/// An FMAP begins with a valid header: the signature `__FMAP__`, major version 1, a name of visible ASCII characters
/// that ends with NUL, and an image size that is not less than the length of the FMAP. Returns `Missing` if there is no
/// valid header, and `Short` if the bytes end before the last area does. Otherwise returns the fault of the first area
/// that has one: `Outside` or `Region`.
pub fn read_fmap(alloc: Global, bytes: &[u8], size: u32) -> Result<Layout, MapFault>
    ensures { ReadsTable (fmap_says size bytes.now) (AsksInFmap size bytes.now) result }
{
    let Some(map) = find_fmap(bytes) else {
        return Err(MapFault::Missing);
    };
    let count = count_areas(map);
    if map.len() < HEADER_LEN + AREA_LEN * count as usize {
        return Err(MapFault::Short);
    }
    read_areas(alloc, rest_from(map, HEADER_LEN), count, size)
}

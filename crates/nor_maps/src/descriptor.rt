//! Reads the flash descriptor of Intel's chipsets.

ghost use Rattle.std.specs.Prelude.{◌≡◌, ◌<◌, ◌≤◌, ◌+◌, ◌*◌, [], length, IfErr, IfSome};
ghost use Rattle.nor_maps.specs.Records.{records_say, AddsRecord, AsksAt, ReadsTable};
ghost use Rattle.nor_maps.specs.Descriptor.{signature_at, region_table, entry_count, region_name, with_entry};
ghost use Rattle.nor_maps.specs.Descriptor.{descriptor_says, AsksInDescriptor, IsDescriptorFault};

use crate::fault::MapFault;
use crate::record::{NAME_LEN, add_found, number_at, rest_from};
use arrayvec::ArrayVec;
use nor_layout::Layout;
use std::alloc::Global;

const DESCRIPTOR_LEN: usize = 4096;

const SIGNATURE: u32 = 0x0FF0_A55A;

const ENTRY_LEN: usize = 4;

const ENTRIES: usize = 16;

fn find_signature(bytes: &[u8]) -> Option<usize>
    requires { 4096 ≤ length bytes.now }
    ensures found { result ≡ signature_at bytes.now }
    ensures low { IfSome result (λ at. at ≤ 16) }
{
    if number_at(bytes, 16) == SIGNATURE {
        Some(16)
    } else if number_at(bytes, 0) == SIGNATURE {
        Some(0)
    } else {
        None
    }
}

#[tactic(auto, unfolding(crate::specs::Descriptor::region_table))]
fn table_address(bytes: &[u8], signature: usize) -> usize
    requires long { 4096 ≤ length bytes.now }
    requires low { signature ≤ 16 }
    ensures value { result ≡ region_table signature bytes.now }
    ensures fits { result ≤ 4080 }
{
    16 * (number_at(bytes, signature + 4) as usize >> 16 & 0xFF)
}

#[tactic(auto, unfolding(crate::specs::Descriptor::entry_count))]
fn count_entries(bytes: &[u8], signature: usize) -> usize
    requires long { 4096 ≤ length bytes.now }
    requires low { signature ≤ 16 }
    ensures value { result ≡ entry_count signature bytes.now }
    ensures few { result ≤ 16 }
{
    let masters = 16 * (number_at(bytes, signature + 8) as usize & 0xFF);
    if table_address(bytes, signature) + ENTRY_LEN * ENTRIES <= masters {
        return ENTRIES;
    }
    let stated = (number_at(bytes, signature + 4) as usize >> 24 & 7) + 1;
    stated.max(5)
}

fn name_of(index: u16) -> &'static [u8]
    requires { index < 16 }
    ensures name { result.now ≡ region_name index }
    ensures short { length result.now ≤ 32 }
{
    match index {
        0 => b"fd",
        1 => b"bios",
        2 => b"me",
        3 => b"gbe",
        4 => b"pd",
        5 => b"reg5",
        6 => b"bios2",
        7 => b"reg7",
        8 => b"ec",
        9 => b"reg9",
        10 => b"ie",
        11 => b"10gbe",
        12 => b"reg12",
        13 => b"reg13",
        14 => b"reg14",
        _ => b"reg15",
    }
}

fn add_entry(layout: &mut Layout, size: u32, index: u16, bytes: &[u8]) -> Result<(), MapFault>
    requires long { 4 ≤ length bytes.now }
    requires few { index < 16 }
    ensures { AddsRecord layout.old layout.new index result (with_entry size layout.old index bytes.now) }
{
    let entry = number_at(bytes, 0);
    let (base, limit) = (entry % 0x8000, (entry >> 16) % 0x8000);
    if limit < base || entry == u32::MAX || (entry == 0 && index != 0) {
        return Ok(());
    }
    let name: ArrayVec<u8, NAME_LEN> = ArrayVec::try_from(name_of(index)).unwrap();
    let end = u64::from(limit) * 4096 + 4095;
    add_found(layout, size, index, base * 4096, end, name)
}

fn read_entries(alloc: Global, table: &[u8], count: u16, size: u32) -> Result<Layout, MapFault>
    requires few { count ≤ 16 }
    requires long { 4 * count ≤ length table.now }
    ensures reads { ReadsTable (records_say (with_entry size) 4 [] 0 count table.now)
        (AsksAt (with_entry size) 4 0 table.now) result }
    ensures named { IfErr result IsDescriptorFault }
{
    let mut layout = Layout::new(alloc);
    for index in 0..count {
        let entry = rest_from(table, ENTRY_LEN * index as usize);
        add_entry(&mut layout, size, index, entry)?;
    }
    Ok(layout)
}

/// Reads the Intel flash descriptor at the beginning of an image as the layout of a chip of `size` bytes (the SPI
/// programming guides of Intel's chipsets; flashrom's manual page, `--ifd`). The regions have flashrom's names: `fd`,
/// `bios`, `me`, `gbe`, `pd`, `reg5`, `bios2`, `reg7`, `ec`, `reg9`, `ie`, `10gbe`, and `reg12` to `reg15`. If 16
/// entries fit before the masters' section, the table has 16. Otherwise it has the stated number, but at least five.
/// Unused entries add no region.
///
/// Returns `Short` if there are fewer than 4,096 bytes or the table runs past the descriptor, and `Missing` if the
/// signature is at neither 10h nor 0. Otherwise returns the fault of the first entry that has one: `Outside`, or
/// `Region` with the fault `Memory`.
pub fn read_descriptor(alloc: Global, bytes: &[u8], size: u32) -> Result<Layout, MapFault>
    ensures reads { ReadsTable (descriptor_says size bytes.now) (AsksInDescriptor size bytes.now) result }
    ensures named { IfErr result IsDescriptorFault }
{
    if bytes.len() < DESCRIPTOR_LEN {
        return Err(MapFault::Short);
    }
    let Some(signature) = find_signature(bytes) else {
        return Err(MapFault::Missing);
    };
    let address = table_address(bytes, signature);
    let count = count_entries(bytes, signature);
    if DESCRIPTOR_LEN < address + ENTRY_LEN * count {
        return Err(MapFault::Short);
    }
    read_entries(alloc, rest_from(bytes, address), count as u16, size)
}

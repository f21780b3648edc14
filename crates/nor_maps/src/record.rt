//! Reads numbers and names in a flash descriptor or FMAP, and adds the region of an entry or area to a layout.

ghost use Rattle.std.specs.Prelude.{◌≡◌, ◌≤◌, ◌+◌, drop, length};
ghost use Rattle.byteorder.specs.Endian.{little_from};
ghost use Rattle.nor_maps.specs.Records.{before_nul, with_found, AddsRecord};

use crate::fault::MapFault;
use arrayvec::ArrayVec;
use byteorder::{ByteOrder, LittleEndian};
use nor_layout::{Layout, Region};

/// The greatest length of a region's name, and the length of an FMAP's field for a name, in bytes.
pub(crate) const NAME_LEN: usize = 32;

pub(crate) fn number_at(bytes: &[u8], at: usize) -> u32
    requires { at + 4 ≤ length bytes.now }
    ensures { result ≡ little_from at 4 bytes.now }
{
    LittleEndian::read_u32(&bytes[at..])
}

pub(crate) fn rest_from(bytes: &[u8], at: usize) -> &[u8]
    requires { at ≤ length bytes.now }
    ensures { result.now ≡ drop at bytes.now }
{
    &bytes[at..]
}

pub(crate) fn name_in(field: &[u8]) -> ArrayVec<u8, NAME_LEN>
    requires { length field.now ≤ 32 }
    ensures { result.items ≡ before_nul field.now }
{
    let mut name = ArrayVec::new();
    let mut rest = field;
    while let [byte, others @ ..] = rest {
        if *byte == 0 {
            return name;
        }
        name.push(*byte);
        rest = others;
    }
    name
}

pub(crate) fn add_found(
    layout: &mut Layout,
    size: u32,
    number: u16,
    start: u32,
    end: u64,
    name: ArrayVec<u8, NAME_LEN>,
) -> Result<(), MapFault>
    requires forward { start ≤ end }
    ensures { AddsRecord layout.old layout.new number result
        (with_found size layout.old number (record { start = start; end = end; name = name })) }
{
    if end >= u64::from(size) {
        return Err(MapFault::Outside { record: number });
    }
    let region = Region {
        start,
        end: end as u32,
        name,
    };
    layout.add(region).map_err(|fault| MapFault::Region {
        record: number,
        fault,
    })
}

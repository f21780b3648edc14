//! SFDP (JESD216): decodes the size of a chip and those of its erase types that this project uses.

ghost use Rattle.std.specs.Prelude.{◌≡◌, ◌<◌, ◌≤◌, ◌+◌, ◌*◌, ◌-◌, ◌/◌, true, IsTrue};
ghost use Rattle.std.specs.Prelude.{IfSome, IfOk};
ghost use Rattle.nor_model.specs.Size.{is_chip_size};
ghost use Rattle.std.specs.Option.{SomeIff};
ghost use Rattle.nor_probe.specs.Sfdp.{double_word, size_in_bits, address_mode};
ghost use Rattle.nor_probe.specs.Sfdp.{is_chip_size_in_bits, has_signature, is_basic};
ghost use Rattle.nor_probe.specs.Sfdp.{has_write_granularity, is_erase_type_at, has_erase_type, geometry_of};
ghost use Rattle.nor_probe.specs.Sfdp.{table_faults, first_fault_or, sfdp_says};

use byteorder::{ByteOrder, LittleEndian};
use nor_model::Kinds;
use thiserror::Error;

/// The size, and the erase types of `Kinds`, that an accepted SFDP describes.
#[derive(Clone, Copy, Debug, PartialEq, Eq)]
pub struct Geometry {
    /// The size in bytes. `read_sfdp` returns a power of two from 65,536 to 16,777,216.
    pub size: u32,
    pub kinds: Kinds,
}

/// The reason why an SFDP is refused. The variants are in the order in which they are checked.
#[derive(Clone, Copy, Debug, PartialEq, Eq, Error)]
pub enum SfdpFault {
    #[error("the SFDP header has another signature")]
    Signature = 1,
    #[error("the SFDP has a major revision other than 1")]
    Major,
    /// The first parameter header isn't that of the basic flash parameter table in major revision 1.
    #[error("the first parameter header is not that of the basic table")]
    FirstHeader,
    /// According to the first parameter header, the table has fewer than nine double words.
    #[error("the basic table is too short")]
    Length,
    /// The chip takes only four-byte addresses, or the field for the length of addresses has the reserved value 3.
    #[error("the chip doesn't take addresses of three bytes")]
    Address,
    /// The write granularity is below 64 bytes, so the chip isn't written in pages.
    #[error("the chip is not written in pages")]
    Granularity,
    #[error("the size is not a power of two from 64 KiB to 16 MiB")]
    Size,
    /// None of the four erase types is 4 KiB with opcode 20h.
    #[error("the chip erases no sectors of 4 KiB")]
    NoSector,
}

impl SfdpFault {
    ghost use Rattle.nor_probe.specs.Sfdp.{sfdp_fault_number};

    /// Returns the number that messages show, from 1 to 8 in the order of the variants.
    pub fn number(self) -> u8
        ensures { result ≡ sfdp_fault_number self }
    {
        self as u8
    }
}

// The least number of double words in the table, because the erase types are in double words 8 and 9.
const TABLE_LENGTH: u8 = 9;

// Bit 31 of the density double word. If it is set, the other bits are the binary logarithm of the size in bits.
const BY_EXPONENT: u32 = 0x8000_0000;

const LEAST_BITS: u32 = 1 << 19;

// The binary logarithm of the largest supported size in bits: 16 MiB has 2^27 bits.
const MOST_EXPONENT: u32 = 27;

/// Decodes the SFDP of a chip (JESD216). Returns the chip's `Geometry`, or the first fault in the order of `SfdpFault`.
/// `header` has the bytes of the SFDP at 0 to 7, `first` those at 8 to 15, and `table` the 36 bytes at the address that
/// `first` contains.
pub fn read_sfdp(header: &[u8; 8], first: &[u8; 8], table: &[u8; 36]) -> Result<Geometry, SfdpFault>
    ensures says { result ≡ sfdp_says header.now first.now table.now }
    ensures sized { IfOk result (λ geometry. is_chip_size geometry.size ≡ true) }
{
    if !is_sfdp(header) {
        return Err(SfdpFault::Signature);
    }
    if header[5] != 1 {
        return Err(SfdpFault::Major);
    }
    if !is_basic_table(first) {
        return Err(SfdpFault::FirstHeader);
    }
    if first[3] < TABLE_LENGTH {
        return Err(SfdpFault::Length);
    }
    read_table(table)
}

fn read_table(table: &[u8; 36]) -> Result<Geometry, SfdpFault>
    ensures says { result ≡ first_fault_or (geometry_of table.now) (table_faults table.now) }
    ensures sized { IfOk result (λ geometry. is_chip_size geometry.size ≡ true) }
{
    if address_bits(table) >= 2 {
        return Err(SfdpFault::Address);
    }
    if !takes_pages(table) {
        return Err(SfdpFault::Granularity);
    }
    let Some(size) = size_in_bytes(double_word_of(table, 2)) else {
        return Err(SfdpFault::Size);
    };
    if !offers(table, 0x0C, 0x20) {
        return Err(SfdpFault::NoSector);
    }
    let kinds = Kinds {
        k32: offers(table, 0x0F, 0x52),
        k64: offers(table, 0x10, 0xD8),
    };
    Ok(Geometry { size, kinds })
}

#[tactic(auto, unfolding(crate::specs::Sfdp::has_signature))]
fn is_sfdp(header: &[u8; 8]) -> bool
    ensures { result ≡ has_signature header.now }
{
    header[0] == b'S' && header[1] == b'F' && header[2] == b'D' && header[3] == b'P'
}

#[tactic(auto, unfolding(crate::specs::Sfdp::is_basic))]
fn is_basic_table(first: &[u8; 8]) -> bool
    ensures { result ≡ is_basic first.now }
{
    first[0] == 0 && first[2] == 1
}

#[tactic(auto, unfolding(crate::specs::Sfdp::address_mode))]
fn address_bits(table: &[u8; 36]) -> u32
    ensures { result ≡ address_mode table.now }
{
    (double_word_of(table, 1) >> 17) % 4
}

#[tactic(auto, unfolding(crate::specs::Sfdp::has_write_granularity))]
fn takes_pages(table: &[u8; 36]) -> bool
    ensures { result ≡ has_write_granularity table.now }
{
    (double_word_of(table, 1) >> 2) % 2 == 1
}

#[tactic(auto, unfolding(crate::specs::Sfdp::double_word))]
fn double_word_of(table: &[u8; 36], k: usize) -> u32
    requires counted { 1 ≤ k }
    requires there { k ≤ 9 }
    ensures { result ≡ double_word k table.now }
{
    LittleEndian::read_u32(&table[4 * (k - 1)..])
}

#[tactic(auto, using(crate::proofs::SfdpLemmas::large_exponent, crate::proofs::SfdpLemmas::in_bits), unfolding(crate::specs::Sfdp::size_in_bits))]
fn size_in_bytes(density: u32) -> Option<u32>
    ensures value { SomeIff result (IsTrue (is_chip_size_in_bits (size_in_bits density))) (size_in_bits density / 8) }
    ensures sized { IfSome result (λ size. is_chip_size size ≡ true) }
{
    let bits = if density < BY_EXPONENT {
        density + 1
    } else if density - BY_EXPONENT <= MOST_EXPONENT {
        1 << (density - BY_EXPONENT)
    } else {
        return None;
    };
    if bits.is_power_of_two() && LEAST_BITS <= bits && bits <= 1 << MOST_EXPONENT {
        Some(bits / 8)
    } else {
        None
    }
}

#[tactic(auto, unfolding(crate::specs::Sfdp::has_erase_type))]
fn offers(table: &[u8; 36], exponent: u8, opcode: u8) -> bool
    ensures { result ≡ has_erase_type exponent opcode table.now }
{
    offers_at(table, exponent, opcode, 28)
        || offers_at(table, exponent, opcode, 30)
        || offers_at(table, exponent, opcode, 32)
        || offers_at(table, exponent, opcode, 34)
}

fn offers_at(table: &[u8; 36], exponent: u8, opcode: u8, at: usize) -> bool
    requires { at < 35 }
    ensures { result ≡ is_erase_type_at exponent opcode table.now at }
{
    table[at] == exponent && table[at + 1] == opcode
}

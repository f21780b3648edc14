//! The numbers in a journal: four bytes, little-endian.
ghost use Rattle.std.specs.Prelude.{◌≡◌, ◌≤◌, length};
ghost use Rattle.nor_journal.specs.Number.{number_text, number_at};

use byteorder::{ByteOrder, LittleEndian};

#[tactic(auto, unfolding(crate::specs::Number::number_text))]
pub fn number_bytes(number: u32) -> [u8; 4]
    ensures { result ≡ number_text number }
{
    number.to_le_bytes()
}

#[tactic(auto, unfolding(crate::specs::Number::number_at))]
pub fn number_of(bytes: &[u8]) -> u32
    requires { 4 ≤ length bytes.now }
    ensures { result ≡ number_at bytes.now }
{
    LittleEndian::read_u32(bytes)
}

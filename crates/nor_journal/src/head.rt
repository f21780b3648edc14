//! The header of a journal, before its records, in both formats.
ghost use Rattle.std.specs.Prelude.{◌≡◌, ◌++◌, ℕ, List, take, Option, Some, IfOk, IfErr};
ghost use Rattle.nor_geometry.specs.Size.{is_chip_size};
ghost use Rattle.nor_journal.specs.Text.{empty_content, head, magic};
ghost use Rattle.nor_journal.specs.Fault.{HeaderFault, header_length};
ghost use Rattle.nor_journal.specs.Reading.{IsHeader, with_header};

use crate::fault::JournalFault;
use crate::number::{number_bytes, number_of};
use nor_geometry::is_chip_size;

/// The first eight bytes of a journal of format 2, whose header contains the chip's unique ID.
pub const MAGIC: [u8; 8] = *b"NORUNDO2";

/// The first eight bytes of a journal of format 1, which is read but not written. Its header has no unique ID.
pub const FIRST_MAGIC: [u8; 8] = *b"NORUNDO1";

pub const HEADER_LEN: usize = 25;

const FIRST_HEADER_LEN: usize = 17;

/// The fields of a header: the chip's ID, unique ID (only in format 2), status 1 and 2, and size in bytes.
#[derive(Clone, Copy)]
pub struct Head {
    pub id: [u8; 3],
    pub unique: Option<[u8; 8]>,
    pub status: [u8; 2],
    pub size: u32,
}

/// Encodes a header of format 2. `status` has status 1 and 2, and `size` is in bytes.
pub fn head_bytes(id: [u8; 3], unique: [u8; 8], status: [u8; 2], size: u32) -> [u8; HEADER_LEN]
    ensures { result ≡ head (empty_content id (Some unique) status size) }
{
    let mut bytes = [0; HEADER_LEN];
    bytes[..8].copy_from_slice(&MAGIC);
    bytes[8..11].copy_from_slice(&id);
    bytes[11..19].copy_from_slice(&unique);
    bytes[19..21].copy_from_slice(&status);
    bytes[21..].copy_from_slice(&number_bytes(size));
    bytes
}

/// Reads the header of either format, and returns it with the bytes after it. Returns `Short` if the header is
/// incomplete, `Magic` if the first eight bytes aren't the magic of a format, or `Size` if a chip can't have the size.
pub fn read_head(bytes: &[u8]) -> Result<(Head, &[u8]), JournalFault>
    ensures fault { IfErr result (HeaderFault bytes.now) }
    ensures found { IfOk result (λ x. IsHeader x.0 × (bytes.now ≡ head (with_header x.0) ++ x.1.now)) }
{
    if bytes.len() < MAGIC.len() {
        return Err(JournalFault::Short);
    }
    if bytes[..8] == FIRST_MAGIC[..] {
        return read_form(bytes, FIRST_HEADER_LEN);
    }
    if bytes[..8] == MAGIC[..] {
        return read_form(bytes, HEADER_LEN);
    }
    Err(JournalFault::Magic)
}

fn read_form(bytes: &[u8], len: usize) -> Result<(Head, &[u8]), JournalFault>
    requires { (unique : Option (List ℕ)) × (take 8 bytes.now ≡ magic unique)
        × (len ≡ header_length unique) }
    ensures fault { IfErr result (HeaderFault bytes.now) }
    ensures found { IfOk result (λ x. IsHeader x.0 × (bytes.now ≡ head (with_header x.0) ++ x.1.now)) }
{
    if bytes.len() < len {
        return Err(JournalFault::Short);
    }
    let size = number_of(&bytes[len - 4..]);
    if !is_chip_size(size) {
        return Err(JournalFault::Size);
    }
    let head = Head {
        id: [bytes[8], bytes[9], bytes[10]],
        unique: <[u8; 8]>::try_from(&bytes[11..len - 6]).ok(),
        status: [bytes[len - 6], bytes[len - 5]],
        size,
    };
    Ok((head, &bytes[len..]))
}

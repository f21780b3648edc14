//! The sources of the target bytes: the image of a session, and the journal of a restore.
ghost use Rattle.std.specs.Prelude.{◌≡◌, ℕ, ◌<◌, ◌+◌, ◌*◌, nat_lt, length, slice_index};
ghost use Rattle.std.proofs.lemmas.Bool.Decides.{nat_tests};
ghost use Rattle.nor_journal.specs.Saved.{is_saved, saved_byte};

use nor_apply::Source;
use nor_geometry::SECTOR_LEN;
use nor_journal::Journal;

/// The image of a session, which after the scan has the target byte of each address in a touched sector.
#[derive(Drop)]
pub struct Image<'a> {
    pub bytes: &'a [u8],
}

impl Source for Image<'_> {
    ghost has = { λ image sector. nat_lt (4096 * sector + 4095) (length image.bytes.now) };

    ghost wanted = { λ image a. slice_index image.bytes.now a };

    fn sector(&self, sector: u32) -> &[u8; SECTOR_LEN as usize] {
        let start = SECTOR_LEN as usize * sector as usize;
        as_sector(&self.bytes[start..start + SECTOR_LEN as usize])
    }
}

#[derive(Drop)]
pub struct Saved<'a> {
    pub journal: &'a Journal<'a>,
}

impl Source for Saved<'_> {
    ghost has = { λ saved sector. is_saved saved.journal.now sector };

    ghost wanted = { λ saved a. saved_byte saved.journal.now a };

    fn sector(&self, sector: u32) -> &[u8; SECTOR_LEN as usize] {
        as_sector(self.journal.find(sector).unwrap())
    }
}

pub(crate) fn as_sector(bytes: &[u8]) -> &[u8; SECTOR_LEN as usize]
    requires { length bytes.now ≡ 4096 }
    ensures same { result.now ≡ bytes.now }
    ensures small { (k : ℕ) → slice_index bytes.now k < 256 }
{
    bytes.as_array().unwrap()
}

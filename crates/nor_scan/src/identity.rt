//! The result of the identification of a chip.
ghost use Rattle.std.specs.Prelude.{◌≡◌, IsTrue};
ghost use Rattle.nor_model.specs.Size.{is_chip_size};

use nor_model::Status;
use nor_probe::Found;

/// The result of the identification: the chip (with its status 1), its status 2 and unique ID, and the number of
/// transactions that were sent. `sized` is a proof that the size is that of a chip.
#[derive(Clone, Copy)]
pub struct Identity {
    pub found: Found,
    pub status2: u8,
    pub unique: [u8; 8],
    pub transactions: u64,
    pub ghost sized: { IsTrue (is_chip_size found.size) },
}

impl Identity {
    ghost use Rattle.nor_model.specs.Status.{bytes_of};
    ghost use Rattle.nor_scan.specs.Identity.{status_read};

    pub fn status(&self) -> Status
        ensures { bytes_of result ≡ status_read self.now }
    {
        Status::of([self.found.status1, self.status2])
    }
}

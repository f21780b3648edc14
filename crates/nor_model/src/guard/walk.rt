//! The iterator over the ranges that block protection can protect.
ghost use Rattle.std.specs.Prelude.{◌≡◌, ◌≤◌, ◌-◌, IsTrue};
ghost use Rattle.std.specs.Iterator.{at_most};
ghost use Rattle.nor_model.specs.Size.{is_chip_size};

use super::{CODES, least_at};

/// An iterator over the ranges that block protection offers, each once, in the order of the codes that `code_for`
/// returns for them. An item is the first address (0 if the range is empty) and the length in bytes.
#[derive(Drop, Debug)]
pub struct Offered {
    size: u32,
    next: u8,
    ghost sized: { IsTrue (is_chip_size size) },
    ghost six_bits: { next ≤ 64 },
}

impl Offered {
    ghost use Rattle.nor_model.specs.Offered.{IsStart};

    pub(super) fn start(size: u32) -> Offered
        requires { IsTrue (is_chip_size size) }
        ensures { IsStart size result }
    {
        Offered { size, next: 0 }
    }
}

impl Iterator for Offered {
    ghost use Rattle.nor_model.specs.Offered.{ReturnsNextRange, next_code};

    type Item = (u32, u32);

    ghost next_gives = { ReturnsNextRange };

    ghost remaining = { λ walk. at_most (64 - next_code walk) };

    fn next(&mut self) -> Option<(u32, u32)> {
        for code in self.next..CODES {
            if let Some(range) = least_at(self.size, code) {
                self.next = code + 1;
                return Some((range.start, range.len));
            }
        }
        self.next = CODES;
        None
    }
}

//! The bytes of chips and of images, described by a few fields.
use nor_chip::SECTOR_LEN;
use std::alloc::Global;
use std::process::Abort;

/// The contents of a chip or image: FFh, except for `count` bytes `byte` from address `from` on. The bytes `run` from
/// address `at` on then overwrite what is there.
#[derive(Clone, Copy)]
pub struct Bytes {
    pub from: usize,
    pub count: usize,
    pub byte: u8,
    pub at: usize,
    pub run: &'static [u8],
}

impl Bytes {
    pub fn whole(self, rt: &impl Abort, alloc: Global, sectors: u32) -> Vec<u8> {
        let size = sectors as usize * SECTOR_LEN as usize;
        let mut whole = vec![in alloc; 0xFF; size].expect(rt, "memory");
        for place in whole.iter_mut().skip(self.from).take(self.count) {
            *place = self.byte;
        }
        put_run(&mut whole, self.at, self.run);
        whole
    }
}

pub const ERASED: Bytes = Bytes {
    from: 0,
    count: 0,
    byte: 0xFF,
    at: 0,
    run: &[],
};

/// Returns `count` bytes of the value `byte`, and then FFh.
pub const fn first(count: usize, byte: u8) -> Bytes {
    Bytes {
        count,
        byte,
        ..ERASED
    }
}

/// Returns the bytes `run` from address `at` on, and FFh elsewhere.
pub const fn run(at: usize, run: &'static [u8]) -> Bytes {
    Bytes { at, run, ..ERASED }
}

/// Writes the bytes `run` into `bytes` from position `at` on. Skips positions that `bytes` doesn't have.
pub fn put_run(bytes: &mut [u8], at: usize, run: &[u8]) {
    for (n, byte) in run.iter().enumerate() {
        put(bytes, at.saturating_add(n), *byte);
    }
}

/// Sets the byte at position `place` to `byte`. Does nothing if `bytes` doesn't have this position.
pub fn put(bytes: &mut [u8], place: usize, byte: u8) {
    if let Some(found) = bytes.get_mut(place) {
        *found = byte;
    }
}

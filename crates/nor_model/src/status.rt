//! The status registers and the names of their bits. (W25Q64FV datasheet, status registers.)
ghost use Rattle.std.specs.Prelude.{⊤, ◌≡◌, ◌+◌, ◌*◌, ◌/◌, ◌%◌, ◌<◌, [], ◌∷◌, codes, bit_and, bit_or, if◌then◌else◌};
ghost use Rattle.nor_model.specs.Chip.{kept_in, is_locked};
ghost use Rattle.nor_model.specs.Guard.{is_undefined, code_of};

use crate::guard;
use bitflags::{Flag, Flags, bitflag_items};

/// Status register 1, as 05h reads it. (W25Q64FV datasheet, status registers.)
#[derive(Clone, Copy, Debug, PartialEq, Eq)]
pub struct Status1(u8);

/// Status register 2, as 35h reads it. Its bit 2 is reserved and has no name.
#[derive(Clone, Copy, Debug, PartialEq, Eq)]
pub struct Status2(u8);

bitflag_items! {
    impl Status1: u8 {
        const BUSY = 0x01;
        const WEL = 0x02;
        const BP0 = 0x04;
        const BP1 = 0x08;
        const BP2 = 0x10;
        /// Set if the range that BP selects is at the start of the chip, clear if it is at the end.
        const TB = 0x20;
        /// If set, BP 001 to 101 select 4, 8, 16, 32 and 32 KiB; if clear, they select 1/64 to 1/4 of the chip.
        const SEC = 0x40;
        /// Locks the status registers if set. (If SRP1 is clear, a real chip locks them only while its WP# pin is low.)
        const SRP0 = 0x80;
    }
    impl Status2: u8 {
        const SRP1 = 0x01;
        const QE = 0x02;
        const LB1 = 0x08;
        const LB2 = 0x10;
        const LB3 = 0x20;
        /// If set, the addresses outside the selected range are protected instead of those inside it. In the model, a
        /// value of the protection bits that the datasheets don't define protects every address.
        const CMP = 0x40;
        const SUS = 0x80;
    }
}

impl Flags for Status1 {
    type Bits = u8;

    ghost exact = { ⊤ };

    ghost table = { (codes "BUSY", 0x01) ∷ (codes "WEL", 0x02) ∷ (codes "BP0", 0x04) ∷ (codes "BP1", 0x08)
        ∷ (codes "BP2", 0x10) ∷ (codes "TB", 0x20) ∷ (codes "SEC", 0x40) ∷ (codes "SRP0", 0x80) ∷ [] };

    ghost set_of = { λ s. s.0 };

    fn flags<'a>() -> &'a [Flag<Status1>] {
        Status1::FLAGS
    }

    fn bits(&self) -> u8 {
        self.0
    }

    fn from_bits_retain(bits: u8) -> Status1 {
        Status1(bits)
    }
}

impl Flags for Status2 {
    type Bits = u8;

    ghost exact = { ⊤ };

    ghost table = { (codes "SRP1", 0x01) ∷ (codes "QE", 0x02) ∷ (codes "LB1", 0x08) ∷ (codes "LB2", 0x10)
        ∷ (codes "LB3", 0x20) ∷ (codes "CMP", 0x40) ∷ (codes "SUS", 0x80) ∷ [] };

    ghost set_of = { λ s. s.0 };

    fn flags<'a>() -> &'a [Flag<Status2>] {
        Status2::FLAGS
    }

    fn bits(&self) -> u8 {
        self.0
    }

    fn from_bits_retain(bits: u8) -> Status2 {
        Status2(bits)
    }
}

impl Status1 {
    /// The non-volatile bits: all except BUSY and WEL.
    pub const KEPT: Status1 = Status1(!(Self::BUSY.0 | Self::WEL.0));

    const CODE: Status1 = Status1(
        Self::BP0.0 | Self::BP1.0 | Self::BP2.0 | Self::TB.0 | Self::SEC.0,
    );

    const FIXED: Status1 = Status1(Self::KEPT.0 & !Self::CODE.0);

    /// Returns these bits with WEL set if `latch`, and BUSY set if `busy`. WEL and BUSY must be clear in these bits.
    #[tactic(auto, using(crate::proofs::StatusBits::or_latch, crate::proofs::StatusBits::or_busy))]
    pub fn with(self, latch: bool, busy: bool) -> Status1
        requires { self.0 % 4 ≡ 0 }
        ensures { result.0 ≡ self.0 + (if latch then 2 else 0) + (if busy then 1 else 0) }
    {
        let mut status = self;
        if latch {
            status.insert(Status1::WEL);
        }
        if busy {
            status.insert(Status1::BUSY);
        }
        status
    }
}

impl Status2 {
    /// The non-volatile bits: all except SUS.
    pub const KEPT: Status2 = Status2(!Self::SUS.0);

    const CODE: Status2 = Self::CMP;

    const FIXED: Status2 = Status2(Self::KEPT.0 & !Self::CODE.0);

    const WRITTEN: Status2 = Status2(Self::SRP1.0 | Self::QE.0 | Self::CMP.0);

    const LB: Status2 = Status2(Self::LB1.0 | Self::LB2.0 | Self::LB3.0);

    // LB1 to LB3, and the reserved bit, which has no name.
    const HELD: Status2 = Status2(Self::LB.0 | 0x04);

    fn written(self, sent: Status2) -> Status2
        ensures { result.0
            ≡ bit_or (bit_and sent.0 0b1000011) (bit_or (bit_and self.0 0b0111100) (bit_and sent.0 0b0111000)) }
    {
        let held = self.intersection(Status2::HELD);
        let set = sent.intersection(Status2::LB);
        sent.intersection(Status2::WRITTEN).union(held.union(set))
    }
}

#[derive(Clone, Copy, Debug, PartialEq, Eq)]
pub struct Status {
    pub one: Status1,
    pub two: Status2,
}

impl Status {
    ghost use Rattle.nor_model.specs.Status.{bytes_of, bytes_with_code};

    /// Returns the registers that have the given bytes, status 1 first.
    pub fn of(bytes: [u8; 2]) -> Status
        ensures { bytes_of result ≡ bytes }
    {
        Status {
            one: Status1(bytes[0]),
            two: Status2(bytes[1]),
        }
    }

    /// Returns the bytes of the registers, status 1 first.
    pub fn bytes(self) -> [u8; 2]
        ensures { result ≡ bytes_of self }
    {
        [self.one.0, self.two.0]
    }

    /// Returns the protection bits as a number below 64: CMP, SEC, TB, BP2, BP1 and BP0, the highest bit first.
    #[tactic(auto, using(crate::proofs::StatusBits::code_bits))]
    pub fn code(self) -> u8
        ensures { result ≡ code_of (kept_in (bytes_of self)) }
    {
        let low = self.one.intersection(Status1::CODE);
        let high = self.two.intersection(Status2::CODE);
        high.0 >> 1 | low.0 >> 2
    }

    /// Returns the non-volatile bits other than the protection bits: SRP0, SRP1, QE, LB1 to LB3 and the reserved bit.
    #[tactic(auto, using(crate::proofs::StatusBits::fixed_one, crate::proofs::StatusBits::fixed_two))]
    pub fn fixed(self) -> Status
        ensures one { result.one.0 ≡ 128 * (self.one.0 / 128) }
        ensures two { result.two.0 ≡ self.two.0 % 64 }
    {
        Status {
            one: self.one.intersection(Status1::FIXED),
            two: self.two.intersection(Status2::FIXED),
        }
    }

    /// Returns this status with the protection bits of `code` (below 64), and with BUSY, WEL and SUS clear.
    #[tactic(auto, using(crate::proofs::StatusBits::coded_one, crate::proofs::StatusBits::coded_two))]
    pub fn with_code(self, code: u8) -> Status
        requires { code < 64 }
        ensures { bytes_of result ≡ bytes_with_code self code }
    {
        let low = Status1(code << 2).intersection(Status1::CODE);
        let high = Status2(code << 1).intersection(Status2::CODE);
        let fixed = self.fixed();
        Status {
            one: fixed.one.union(low),
            two: fixed.two.union(high),
        }
    }

    /// Returns whether the value of the protection bits is one that the datasheets don't define: SEC set and BP 110.
    pub fn is_undefined(self) -> bool
        ensures { result ≡ is_undefined (code_of (kept_in (bytes_of self))) }
    {
        guard::is_undefined(self.code())
    }

    /// Returns this status with only its non-volatile bits: BUSY, WEL and SUS are clear.
    pub fn kept(self) -> Status
        ensures one { result.one.0 ≡ self.one.0 / 4 * 4 }
        ensures two { result.two.0 ≡ self.two.0 % 128 }
    {
        Status {
            one: self.one.intersection(Status1::KEPT),
            two: self.two.intersection(Status2::KEPT),
        }
    }

    /// Returns the non-volatile bits after a status write of `sent` to this status. BP, TB, SEC, SRP0, SRP1, QE and CMP
    /// become as sent. An LB bit is set if it was set before or is sent as 1, and the reserved bit stays as it was.
    #[tactic(auto, using(crate::proofs::StatusBits::written_lt))]
    pub fn written(self, sent: Status) -> Status
        ensures one { result.one.0 ≡ sent.one.0 / 4 * 4 }
        ensures two { result.two.0
            ≡ bit_or (bit_and sent.two.0 0b1000011)
            (bit_or (bit_and self.two.0 0b0111100) (bit_and sent.two.0 0b0111000)) }
        ensures fits { result.two.0 < 128 }
    {
        Status {
            one: sent.one.intersection(Status1::KEPT),
            two: self.two.written(sent.two),
        }
    }

    /// Returns whether SRP0 or SRP1 is set. A modelled chip then ignores status writes.
    pub fn is_locked(self) -> bool
        ensures { result ≡ is_locked (kept_in (bytes_of self)) }
    {
        self.one.contains(Status1::SRP0) || self.two.contains(Status2::SRP1)
    }
}

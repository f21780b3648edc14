//! The addresses that a *code*, a value of the six protection bits, protects from programs and erases. (W25Q64FV and
//! W25Q128FV datasheets, status register memory protection.)
ghost use Rattle.std.specs.Prelude.{◌≡◌, ◌≤◌, ◌<◌, ◌+◌, ◌-◌, ◌*◌, ◌/◌, ◌%◌, ◌==◌, ◌||◌, ◌↔◌, ℕ, true, false, if◌then◌else◌, IsTrue, IfSome, IfNone, MatchOption};
ghost use Rattle.nor_model.specs.Chip.{kept_in};
ghost use Rattle.nor_model.specs.Size.{is_chip_size};
ghost use Rattle.nor_model.specs.Guard.{protected_by, is_address_named, named_length, is_bottom, names_sectors, is_complement, is_undefined, code_of};
ghost use Rattle.nor_model.specs.Status.{bytes_of};
ghost use Rattle.nor_model.specs.Units.{LieAtAnEnd, HoldsSomewhere};
ghost use Rattle.nor_model.specs.Offer.{ProtectsExactly, IsRangeOf, IsLeastCode, IsNotOffered};
ghost use Rattle.nor_model.specs.Offered.{IsStart};

use crate::Status;
use walk::Offered;

pub(crate) mod walk;

const CODES: u8 = 64;

#[derive(Clone, Copy)]
struct AddressRange {
    start: u32,
    len: u32,
}

fn is_bottom(code: u8) -> bool
    ensures { result ≡ is_bottom code }
{
    code / 8 % 2 == 1
}

fn is_sector(code: u8) -> bool
    ensures { result ≡ names_sectors code }
{
    code / 16 % 2 == 1
}

fn is_complement(code: u8) -> bool
    ensures { result ≡ is_complement code }
{
    code / 32 % 2 == 1
}

pub(crate) fn is_undefined(code: u8) -> bool
    ensures { result ≡ is_undefined code }
{
    is_sector(code) && code % 8 == 6
}

fn named_length(size: u32, code: u8) -> u32
    ensures { result ≡ named_length size code }
{
    match code % 8 {
        0 => 0,
        7 => size,
        bp if is_sector(code) => match bp {
            1 => 4096,
            2 => 8192,
            3 => 16384,
            _ => 32768,
        },
        bp => size >> (7 - bp),
    }
}

fn is_named(size: u32, code: u8, at: u32) -> bool
    ensures { result ≡ is_address_named size code at }
{
    let length = named_length(size, code);
    if is_bottom(code) {
        at < length
    } else {
        at >= size.saturating_sub(length)
    }
}

/// Returns whether `code` protects the address `at` of a chip of `size` bytes that has block protection. A code that
/// the datasheets don't define protects every address of the chip. Addresses past its end are unprotected.
#[tactic(auto, unfolding(crate::specs::Guard::protected_by))]
pub fn is_protected(size: u32, code: u8, at: u32) -> bool
    ensures { result ≡ protected_by size code at }
{
    at < size && (is_undefined(code) || is_named(size, code, at) != is_complement(code))
}

/// Returns whether `status` (status 1 first) protects the address `at` of a chip of `size` bytes (a power of two from
/// 65,536 to 16,777,216) that has block protection. The result is the same for all addresses of a page.
pub fn protected(status: [u8; 2], size: u32, at: u32) -> bool
    requires { IsTrue (is_chip_size size) }
    ensures value { result ≡ protected_by size (code_of (kept_in status)) at }
    ensures ends { LieAtAnEnd size (protected_by size (code_of (kept_in status))) }
    ensures page { at < size
        → (IsTrue result ↔ HoldsSomewhere (protected_by size (code_of (kept_in status))) (at / 256 * 256) 256) }
{
    is_protected(size, Status::of(status).code(), at)
}

/// Returns whether `status` (status 1 first) protects any of the `len` (at least 1) addresses from `start` on. All must
/// lie on the chip, which has block protection and `size` bytes, a power of two from 65,536 to 16,777,216.
pub fn unit_protected(status: [u8; 2], size: u32, start: u32, len: u32) -> bool
    requires sized { IsTrue (is_chip_size size) }
    requires some { 0 < len }
    requires inside { start + len ≤ size }
    ensures borders { result ≡ (protected_by size (code_of (kept_in status)) start
        || protected_by size (code_of (kept_in status)) (start + len - 1)) }
    ensures somewhere { IsTrue result ↔ HoldsSomewhere (protected_by size (code_of (kept_in status))) start len }
{
    protected(status, size, start) || protected(status, size, start + len - 1)
}

fn protected_length(size: u32, code: u8) -> u32
    ensures { result ≡ (if is_complement code then size - named_length size code else named_length size code) }
{
    let named = named_length(size, code);
    if is_complement(code) {
        size.saturating_sub(named)
    } else {
        named
    }
}

fn start_of(size: u32, len: u32, is_first: bool) -> u32
    requires { len ≤ size }
    ensures { result ≡ (if is_first || len == 0 then 0 else size - len) }
{
    if is_first || len == 0 { 0 } else { size - len }
}

fn addresses_of(size: u32, code: u8) -> AddressRange
    requires sized { IsTrue (is_chip_size size) }
    requires defined { is_undefined code ≡ false }
    ensures protects { ProtectsExactly size code result.start result.len }
    ensures plain { result.len ≡ 0 → result.start ≡ 0 }
{
    let len = protected_length(size, code);
    let start = start_of(size, len, is_bottom(code) != is_complement(code));
    AddressRange { start, len }
}

/// Returns the first address and the length of the range that `status` protects (two zeros for none) on a chip with
/// block protection and `size` bytes, a power of two from 65,536 to 16,777,216. Returns `None` if the datasheets don't
/// define the value of the protection bits; a modelled chip then protects every address.
pub fn protected_range(status: Status, size: u32) -> Option<(u32, u32)>
    requires { IsTrue (is_chip_size size) }
    ensures { MatchOption result (is_undefined (code_of (kept_in (bytes_of status))) ≡ true)
        (λ range. IsRangeOf size (code_of (kept_in (bytes_of status))) range.0 range.1) }
{
    let code = status.code();
    if is_undefined(code) {
        return None;
    }
    let range = addresses_of(size, code);
    Some((range.start, range.len))
}

fn protects_exactly(size: u32, code: u8, start: u32, len: u32) -> bool
    requires sized { IsTrue (is_chip_size size) }
    requires defined { is_undefined code ≡ false }
    ensures { (result ≡ true) ↔ ProtectsExactly size code start len }
{
    let range = addresses_of(size, code);
    range.len == len && (len == 0 || range.start == start)
}

/// Returns the least defined code (CMP, SEC, TB, BP2, BP1 and BP0, the highest bit first) that protects exactly the
/// range of `len` bytes from `start`, or `None`. `size` must be a power of two from 65,536 to 16,777,216.
pub fn code_for(start: u32, len: u32, size: u32) -> Option<u8>
    requires { IsTrue (is_chip_size size) }
    ensures least { IfSome result (IsLeastCode size start len) }
    ensures none { IfNone result (IsNotOffered size start len) }
{
    for code in 0..CODES {
        if !is_undefined(code) && protects_exactly(size, code, start, len) {
            return Some(code);
        }
    }
    None
}

fn least_at(size: u32, code: u8) -> Option<AddressRange>
    requires sized { IsTrue (is_chip_size size) }
    requires six_bits { code < 64 }
    ensures least { IfSome result (λ range. IsLeastCode size range.start range.len code) }
    ensures plain { IfSome result (λ range. range.len ≡ 0 → range.start ≡ 0) }
    ensures none { IfNone result ((start len : ℕ) → ¬ IsLeastCode size start len code) }
{
    if is_undefined(code) {
        return None;
    }
    let range = addresses_of(size, code);
    if code_for(range.start, range.len, size) == Some(code) {
        Some(range)
    } else {
        None
    }
}

/// Returns the ranges that block protection offers on a chip of `size` bytes, a power of two from 65,536 to 16,777,216.
pub fn offered(size: u32) -> Offered
    requires { IsTrue (is_chip_size size) }
    ensures { IsStart size result }
{
    Offered::start(size)
}

//! Parses the numbers in the values of options.
ghost use Rattle.std.specs.Prelude.{◌≡◌, ◌≤◌, option_map};
ghost use Rattle.std.specs.Char.{is_digit};
ghost use Rattle.std.specs.List.{list_all};
ghost use Rattle.nor_args.specs.Numbers.{numeral, decimal_number, polls_of, number_or_length, range_of};
ghost use Rattle.nor_args.specs.Numbers.{before_unit, byte_number, clock_of, clock_parts, unique_number};

use hex::FromHex;

/// Parses 1 to 20 decimal digits with a value that fits in a `u64`. Returns `None` for any other text.
pub fn read_number(text: &str) -> Option<u64>
    ensures { result ≡ decimal_number text.now }
{
    read_numeral(text, 10, 20, u64::MAX)
}

/// Parses a number of polls: 1 to 20 decimal digits with a value of at most 65,535. Returns `None` for any other text.
pub fn read_polls(text: &str) -> Option<u16>
    ensures { result ≡ polls_of text.now }
{
    let polls = read_numeral(text, 10, 20, 65_535)?;
    u16::try_from(polls).ok()
}

/// Parses `START,LENGTH`: each is below 2 to the power of 32, as 1 to 10 decimal digits or as `0x` and 1 to 8
/// hexadecimal digits. Returns `None` for any other text.
pub fn read_range(text: &str) -> Option<(u32, u32)>
    ensures { result ≡ range_of text.now }
{
    let (start, len) = text.split_once(',')?;
    Some((read_place(start)?, read_place(len)?))
}

/// Parses a clock in hertz, or in kHz or MHz if `k` or `M` (in upper or lower case, as in flashrom) follows the number.
/// Returns `None` for any other text, for 0 Hz, and for more than 4,294,967,295 Hz.
pub fn read_clock(text: &str) -> Option<u32>
    ensures { result ≡ clock_of text.now }
{
    let (digits, unit) = clock_parts(text);
    let hertz = u32::try_from(read_number(digits)?.checked_mul(unit)?).ok()?;
    if hertz == 0 { None } else { Some(hertz) }
}

fn clock_parts(text: &str) -> (&str, u64)
    ensures { (result.0.now ≡ (clock_parts text.now).0) × (result.1 ≡ (clock_parts text.now).1) }
{
    if let Some(digits) = before_unit(text, "k").or(before_unit(text, "K")) {
        (digits, 1_000)
    } else if let Some(digits) = before_unit(text, "M").or(before_unit(text, "m")) {
        (digits, 1_000_000)
    } else {
        (text, 1)
    }
}

fn before_unit<'a>(text: &'a str, unit: &str) -> Option<&'a str>
    ensures { option_map (λ front. front.now) result ≡ before_unit unit.now text.now }
{
    text.strip_suffix(unit)
}

fn read_place(text: &str) -> Option<u32>
    ensures { result ≡ number_or_length text.now }
{
    let place = match text.strip_prefix("0x") {
        Some(digits) => read_numeral(digits, 16, 8, 0xFFFF_FFFF)?,
        None => read_numeral(text, 10, 10, 0xFFFF_FFFF)?,
    };
    u32::try_from(place).ok()
}

fn read_numeral(text: &str, radix: u32, most: usize, greatest: u64) -> Option<u64>
    requires { (2 ≤ radix) × (radix ≤ 36) }
    ensures { result ≡ numeral radix most greatest text.now }
{
    if text.len() > most || !has_digits(text, radix) {
        return None;
    }
    let number = u64::from_str_radix(text, radix).ok()?;
    if number <= greatest {
        Some(number)
    } else {
        None
    }
}

// Returns whether all characters are digits, and true for an empty text. (`from_str_radix` also accepts a plus sign.)
fn has_digits(text: &str, radix: u32) -> bool
    requires { (2 ≤ radix) × (radix ≤ 36) }
    ensures { result ≡ list_all (λ digit. is_digit digit radix) text.now }
{
    text.bytes().all(|digit| char::from(digit).is_digit(radix))
}

/// Decodes 16 hexadecimal digits to the eight bytes of a unique ID. Returns `None` for any other text.
pub fn read_unique(text: &str) -> Option<[u8; 8]>
    ensures { result ≡ unique_number text.now }
{
    <[u8; 8] as FromHex>::from_hex(text).ok()
}

/// Decodes two hexadecimal digits to a byte. Returns `None` for any other text.
pub fn read_byte(text: &str) -> Option<u8>
    ensures { result ≡ byte_number text.now }
{
    let [byte] = <[u8; 1] as FromHex>::from_hex(text).ok()?;
    Some(byte)
}

//! Addresses in a layout text: an optional `0x` and 1 to 8 hexadecimal digits.

ghost use Rattle.std.specs.Prelude.{◌≡◌};
ghost use Rattle.nor_layout.specs.Address.{digits_of, digits_address};

const DIGITS: usize = 8;

fn digits(text: &[u8]) -> &[u8]
    ensures { result.now ≡ digits_of text.now }
{
    match text {
        [b'0', b'x', digits @ ..] => digits,
        _ => text,
    }
}

pub(crate) fn address(text: &[u8]) -> Option<u32>
    ensures { result ≡ digits_address text.now }
{
    let digits = digits(text);
    if digits.is_empty() || digits.len() > DIGITS {
        return None;
    }
    let mut value = 0;
    for byte in digits {
        value = value * 16 + char::from(*byte).to_digit(16)?;
    }
    Some(value)
}

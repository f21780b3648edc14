//! The value of the option `--rehearse`.
ghost use Rattle.std.specs.Prelude.{◌≡◌, option_map};
ghost use Rattle.nor_args.specs.Reasons.{first_unread};
ghost use Rattle.nor_args.specs.Stops.{stops_of};

use crate::numbers::read_number;
use arrayvec::ArrayVec;

/// The greatest number of stops that the value of `--rehearse` may have.
pub const MOST_STOPS: usize = 64;

/// Parses 1 to 64 numbers (`read_number`) with commas between them. Returns `None` for any other text.
pub fn read_stops(text: &str) -> Option<ArrayVec<u64, MOST_STOPS>>
    ensures { option_map (λ stops. stops.items) result ≡ stops_of text.now }
{
    let mut stops = ArrayVec::new();
    for number in text.split(',') {
        stops.try_push(read_number(number)?).ok()?;
    }
    Some(stops)
}

/// Splits `text` at its commas. Returns the first part that `read_number` rejects, or `None` if it rejects no part.
pub fn first_unread(text: &str) -> Option<&str>
    ensures { option_map (λ part. part.now) result ≡ first_unread text.now }
{
    text.split(',').find(|part| read_number(part).is_none())
}

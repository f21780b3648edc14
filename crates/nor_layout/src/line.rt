//! One line of a layout text: `start:end name`.

ghost use Rattle.std.specs.Prelude.{◌≡◌, ◌≢◌, EachIndex, MatchOption, None, Some, slice_index};
ghost use Rattle.nor_layout.specs.Line.{cut_at, parts_of, without_spaces, is_name_byte, is_name, line_says};
ghost use Rattle.nor_layout.specs.Steps.{IsFirst};

use crate::address::address;
use crate::fault::LineFault;
use crate::region::{NAME_LEN, Region};
use arrayvec::ArrayVec;

#[derive(Clone, Copy)]
struct Parts<'a> {
    start: &'a [u8],
    end: &'a [u8],
    name: &'a [u8],
}

fn find(text: &[u8], byte: u8) -> Option<usize>
    ensures { MatchOption result (EachIndex text.now (λ k. slice_index text.now k ≢ byte))
        (λ at. IsFirst byte text.now at) }
{
    text.iter().position(|b| *b == byte)
}

fn split_once(text: &[u8], byte: u8) -> Option<(&[u8], &[u8])>
    ensures { MatchOption result (cut_at byte text.now ≡ None)
        (λ parts. cut_at byte text.now ≡ Some (parts.0.now, parts.1.now)) }
{
    let at = find(text, byte)?;
    Some((&text[..at], &text[at + 1..]))
}

fn trim_spaces(text: &[u8]) -> &[u8]
    ensures { result.now ≡ without_spaces text.now }
{
    let mut rest = text;
    while let [b' ', others @ ..] = rest {
        rest = others;
    }
    rest
}

fn parts_of(line: &[u8]) -> Option<Parts<'_>>
    ensures { MatchOption result (parts_of line.now ≡ None)
        (λ parts. parts_of line.now
        ≡ Some (record { start = parts.start.now; end = parts.end.now; name = parts.name.now })) }
{
    let (start, rest) = split_once(line, b':')?;
    let (end, rest) = split_once(rest, b' ')?;
    Some(Parts {
        start,
        end,
        name: trim_spaces(rest),
    })
}

fn is_name_byte(byte: u8) -> bool
    ensures { result ≡ is_name_byte byte }
{
    byte.is_ascii_graphic() && byte != b',' && byte != b':'
}

pub(crate) fn is_name(bytes: &[u8]) -> bool
    ensures { result ≡ is_name bytes.now }
{
    if bytes.is_empty() || bytes.len() > NAME_LEN {
        return false;
    }
    bytes.iter().all(|b| is_name_byte(*b))
}

pub(crate) fn read_region(line: &[u8]) -> Result<Region, LineFault>
    ensures { result ≡ line_says line.now }
{
    let parts = parts_of(line).ok_or(LineFault::Line)?;
    let start = address(parts.start).ok_or(LineFault::Address)?;
    let end = address(parts.end).ok_or(LineFault::Address)?;
    if end < start {
        return Err(LineFault::Backwards);
    }
    if !is_name(parts.name) {
        return Err(LineFault::Name);
    }
    let name = ArrayVec::try_from(parts.name).unwrap();
    Ok(Region { start, end, name })
}

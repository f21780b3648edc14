//! Layout texts with blanks that flashrom accepts and `nor_layout` doesn't.
ghost use Rattle.std.specs.Prelude.{◌≡◌, ◌++◌, IfOk};
ghost use Rattle.nor_console.specs.LayoutWords.{in_words, is_separator, kept_in_words, place_after};
ghost use Rattle.nor_console.specs.declared.layout_words.Place.TheVariants as place;

use std::alloc::{AllocError, Global};

#[derive(Clone, Copy)]
enum Place {
    Start,
    Word,
    Blank,
}

/// Returns `text` with one space between the words of each line, and no other blanks. Blanks are spaces, tabs (also
/// vertical), form feeds and carriage returns. Fails if memory runs out.
pub fn in_words(alloc: Global, text: &[u8]) -> Result<Vec<u8>, AllocError>
    ensures { IfOk result (λ words. words.items ≡ in_words place.Start text.now) }
{
    let mut words = Vec::new(alloc);
    let mut place = Place::Start;
    for byte in text {
        place = add_byte(&mut words, place, *byte)?;
    }
    Ok(words)
}

fn add_byte(words: &mut Vec<u8>, place: Place, byte: u8) -> Result<Place, AllocError>
    ensures { IfOk result (λ next. (next ≡ place_after place byte)
        × (words.new.items ≡ words.old.items ++ kept_in_words place byte)) }
{
    if byte == b'\n' {
        words.push(byte)?;
        return Ok(Place::Start);
    }
    if is_separator(byte) {
        return Ok(match place {
            Place::Start => Place::Start,
            _ => Place::Blank,
        });
    }
    if matches!(place, Place::Blank) {
        words.push(b' ')?;
    }
    words.push(byte)?;
    Ok(Place::Word)
}

fn is_separator(byte: u8) -> bool
    ensures { result ≡ is_separator byte }
{
    matches!(byte, b'\t' | 0x0B | 0x0C | b'\r' | b' ')
}

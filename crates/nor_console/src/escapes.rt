//! Names in messages, with hidden characters escaped.

use nor_args::is_hidden;
use std::fmt;

/// A name in which each byte of the UTF-8 of a hidden character (`is_hidden`) is printed as `\xNN`.
#[derive(Drop)]
pub struct Escaped<'a>(pub &'a str);

impl fmt::Display for Escaped<'_> {
    ghost use Rattle.std.specs.Prelude.{Some};
    ghost use Rattle.nor_console.specs.Escapes.{escaped};

    ghost output = { λ shown. Some (escaped shown.0.now) };

    fn fmt<W: fmt::Write>(&self, f: &mut fmt::Formatter<W>) -> fmt::Result {
        for character in self.0.chars() {
            write!(f, "{}", EscapedCharacter(character))?;
        }
        Ok(())
    }
}

#[derive(Drop)]
struct EscapedCharacter(char);

impl fmt::Display for EscapedCharacter {
    ghost use Rattle.std.specs.Prelude.{Some};
    ghost use Rattle.nor_console.specs.Escapes.{escaped_character};

    ghost output = { λ shown. Some (escaped_character shown.0) };

    fn fmt<W: fmt::Write>(&self, f: &mut fmt::Formatter<W>) -> fmt::Result {
        if !is_hidden(self.0) {
            return f.write_char(self.0);
        }
        let mut buffer = [0; 4];
        for byte in self.0.encode_utf8(&mut buffer).as_bytes() {
            write!(f, "\\x{byte:02x}")?;
        }
        Ok(())
    }
}

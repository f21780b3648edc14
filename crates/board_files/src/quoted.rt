//! Names of files in printed commands that a user may copy.
use std::fmt;

/// The name of a file as one argument of a POSIX shell: in single quotes if the name is empty or has other characters
/// than ASCII letters, digits and `./_-+,=`. A name that begins with `-` gets the prefix `./`, so it isn't an option.
#[derive(Clone, Copy, Drop)]
pub struct Quoted<'a>(&'a str);

impl<'a> Quoted<'a> {
    /// Returns `name` as an argument, or `None` if `name` has a control character or a directional character, which a
    /// user can't copy from the screen.
    pub fn new(name: &'a str) -> Option<Quoted<'a>> {
        if name.chars().all(|character| is_printed(character)) {
            Some(Quoted(name))
        } else {
            None
        }
    }
}

impl fmt::Display for Quoted<'_> {
    fn fmt<W: fmt::Write>(&self, f: &mut fmt::Formatter<W>) -> fmt::Result {
        if self.0.starts_with('-') {
            f.write_str("./")?;
        }
        if !self.0.is_empty() && self.0.bytes().all(|byte| is_plain(byte)) {
            return f.write_str(self.0);
        }
        f.write_str("'")?;
        for character in self.0.chars() {
            match character {
                '\'' => f.write_str("'\\''")?,
                _ => f.write_char(character)?,
            }
        }
        f.write_str("'")
    }
}

fn is_plain(byte: u8) -> bool {
    byte.is_ascii_alphanumeric() || matches!(byte, b'.' | b'/' | b'_' | b'-' | b'+' | b',' | b'=')
}

// The directional characters begin or end an embedding, override or isolate (Unicode Standard Annex 9).
fn is_printed(character: char) -> bool {
    let is_directional = matches!(character, '\u{202a}'..='\u{202e}' | '\u{2066}'..='\u{2069}');
    !character.is_control() && !is_directional
}

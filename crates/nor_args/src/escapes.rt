//! Which characters of an argument or a name are escaped when they are printed.
ghost use Rattle.std.specs.Prelude.{◌≡◌};
ghost use Rattle.nor_args.specs.Text.{is_hidden};

/// Returns whether this is a control character (U+0000 to U+001F or U+007F to U+009F), or one of the characters U+202A
/// to U+202E and U+2066 to U+2069, which change the direction of text.
pub fn is_hidden(character: char) -> bool
    ensures { result ≡ is_hidden character }
{
    let code = character as u32;
    character.is_control()
        || (0x202A <= code && code <= 0x202E)
        || (0x2066 <= code && code <= 0x2069)
}

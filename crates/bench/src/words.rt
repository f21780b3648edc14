//! The arguments of the command line.
ghost use Rattle.std.specs.Prelude.{◌≡◌, map, string_bytes};
ghost use Rattle.bench.specs.Words.{request_named, request_of};

#[derive(Clone, Copy)]
pub enum Request {
    /// No argument: print the usage.
    Usage,
    Chip,
    Plan,
    Journal,
    Session,
    Read,
    /// `answers`: do the work of `chip`, `plan`, `journal` and `read` once, and print results and two sample lines.
    Answers,
    /// Any other argument, or more than one: print the usage to standard error, and fail.
    Unknown,
}

/// Returns what the arguments after the program's name select: `Usage` if none, and `Unknown` if more than one.
pub fn request_of(words: &[String]) -> Request
    ensures { result ≡ request_of (map string_bytes words.now) }
{
    match words {
        [] => Request::Usage,
        [word] => request_named(word.as_str()),
        _ => Request::Unknown,
    }
}

fn request_named(word: &str) -> Request
    ensures { result ≡ request_named word.now }
{
    if word == "chip" {
        Request::Chip
    } else if word == "plan" {
        Request::Plan
    } else if word == "journal" {
        Request::Journal
    } else if word == "session" {
        Request::Session
    } else if word == "read" {
        Request::Read
    } else if word == "answers" {
        Request::Answers
    } else {
        Request::Unknown
    }
}

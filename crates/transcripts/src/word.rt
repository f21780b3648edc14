//! The words with which the lines of a case begin.

/// The first word of a line, as the file `stdin` explains. This type avoids a `match` on texts, whose proofs are slow.
#[derive(Clone, Copy)]
pub enum Word {
    /// The line is blank, or begins with `#`.
    Nothing,
    Carries,
    Stops,
    Allow,
    Wait,
    Program,
    Erase,
    Protect,
    Traced,
    Array,
    Guards,
    Set,
    Status,
    Sent,
    Sets,
    Unit,
    Least,
    Size,
    Bytes,
    /// Any other word, which is a fault.
    Other,
}

const WORDS: [(&str, Word); 18] = [
    (">", Word::Carries),
    ("!", Word::Stops),
    ("allow", Word::Allow),
    ("wait", Word::Wait),
    ("program", Word::Program),
    ("erase", Word::Erase),
    ("protect", Word::Protect),
    ("|", Word::Traced),
    ("array", Word::Array),
    ("guards", Word::Guards),
    ("set", Word::Set),
    ("status", Word::Status),
    ("sent", Word::Sent),
    ("sets", Word::Sets),
    ("unit", Word::Unit),
    ("least", Word::Least),
    ("size", Word::Size),
    ("bytes", Word::Bytes),
];

impl Word {
    /// Returns the word `text`, or `Nothing` if it is empty, or `Other` if no line may begin with it.
    pub fn of(text: &str) -> Word {
        if text.is_empty() {
            return Word::Nothing;
        }
        for (name, word) in &WORDS {
            if *name == text {
                return *word;
            }
        }
        Word::Other
    }

    pub fn is_action(self) -> bool {
        matches!(
            self,
            Word::Carries
                | Word::Stops
                | Word::Allow
                | Word::Wait
                | Word::Program
                | Word::Erase
                | Word::Protect
        )
    }

    /// Returns whether the line must be a check. A line with an unknown first word counts as a check, which fails.
    pub fn is_check(self) -> bool {
        !self.is_action() && !matches!(self, Word::Nothing)
    }
}

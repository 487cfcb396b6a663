//! The kinds of entries that a message has.
ghost use Rattle.std.specs.Prelude.{Some};

use std::fmt;

/// What an entry of a message is, by the section that it is in (RFC 1035, 4.1).
#[derive(Clone, Copy, Debug, PartialEq, Eq)]
pub enum EntryKind {
    /// A question.
    Question,
    /// A record of the answer section.
    Answer,
    /// A record of the authority section.
    Authority,
    /// A record of the additional section.
    Additional,
}

impl fmt::Display for EntryKind {
    ghost use Rattle.domain_tool.specs.Lines.{kind_word};

    ghost output = { λ kind. Some (kind_word kind) };

    fn fmt<W: fmt::Write>(&self, f: &mut fmt::Formatter<W>) -> fmt::Result {
        match self {
            EntryKind::Question => write!(f, "question"),
            EntryKind::Answer => write!(f, "answer"),
            EntryKind::Authority => write!(f, "authority"),
            EntryKind::Additional => write!(f, "additional"),
        }
    }
}

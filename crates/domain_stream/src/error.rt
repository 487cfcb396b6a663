//! Why a message isn't appended to a stream, or read from one.

use std::error::Error;
use std::fmt;

/// Why a message wasn't appended to a stream, or a piece of a stream wasn't taken.
#[derive(Clone, Copy, Debug, Drop)]
pub enum StreamError<E> {
    /// The buffer refused octets.
    Append(E),
    /// The message has this many octets: more than a length field can state, or than the reader's limit.
    Oversized(usize),
}

impl<E> fmt::Display for StreamError<E> {
    ghost use Rattle.std.specs.Prelude.{Some};
    ghost use Rattle.domain_stream.specs.Errors.{stream_error_text};

    ghost output = { λ e. Some (stream_error_text e) };

    fn fmt<W: fmt::Write>(&self, f: &mut fmt::Formatter<W>) -> fmt::Result {
        match self {
            StreamError::Append(_) => write!(f, "buffer size exceeded"),
            StreamError::Oversized(_) => write!(f, "message size exceeded"),
        }
    }
}

impl<E: fmt::Debug + Drop> Error for StreamError<E> {}

/// A stream ended inside of a message.
#[derive(Clone, Copy, Debug, PartialEq, Eq)]
pub struct CutOff {
    /// How many octets are missing. Where the length field itself is incomplete, those of the field alone.
    pub missing: usize,
}

impl fmt::Display for CutOff {
    ghost use Rattle.std.specs.Prelude.{Some, codes};

    ghost output = { λ _. Some (codes "stream ends inside of a message") };

    fn fmt<W: fmt::Write>(&self, f: &mut fmt::Formatter<W>) -> fmt::Result {
        write!(f, "stream ends inside of a message")
    }
}

impl Error for CutOff {}

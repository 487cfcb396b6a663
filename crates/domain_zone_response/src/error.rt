//! Why no response is made.

use std::error::Error;
use std::fmt;

/// Why no response is made.
#[derive(Clone, Copy, Debug, PartialEq, Eq)]
pub enum ResponseError {
    /// The target isn't empty, or has no room for the header, the query's first question and the OPT record of the
    /// response.
    NoRoom,
    /// An allocation failed.
    Memory,
}

impl fmt::Display for ResponseError {
    fn fmt<W: fmt::Write>(&self, f: &mut fmt::Formatter<W>) -> fmt::Result {
        match self {
            ResponseError::NoRoom => write!(f, "no room for a response"),
            ResponseError::Memory => write!(f, "out of memory"),
        }
    }
}

impl Error for ResponseError {}

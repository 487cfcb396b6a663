//! Messages in a stream, as over TCP and TLS: before each of them is its length, in two octets (RFC 1035, 4.2.2; RFC
//! 7766, 8).
//!
//! [`StreamMessages`] returns the messages in octets that arrived. A [`StreamReader`] takes octets that arrive in
//! pieces of any size, and [`append_message`] writes a message. Only the caller's buffer allocates.
#![tactic(auto)]

pub mod append;
pub mod error;
pub mod laws;
pub mod messages;
pub mod reader;

pub use append::append_message;
pub use error::{CutOff, StreamError};
pub use messages::StreamMessages;
pub use reader::StreamReader;

#[cfg(test)]
mod tests;

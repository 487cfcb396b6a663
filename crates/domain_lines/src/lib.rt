//! A message as lines of text, as `dig` shows it: for any writer, or in a buffer of fixed size.
//!
//! Nothing is allocated, but where a stream is read whole. What doesn't fit into a buffer is counted and not kept.
#![tactic(auto)]

mod edns;
mod flags;
pub mod laws;
pub mod message;
pub mod put;
pub mod record;
mod room;
pub mod streams;

pub use laws::listed_laws;
pub use put::{PutText, put_message, put_record};

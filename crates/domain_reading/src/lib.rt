//! How names in messages are read (RFC 1035, 4.1.4): what may be at an offset, and what a name, its encoding and its
//! errors are.
#![tactic(auto)]

pub mod fault;
pub mod head;
pub mod heads;
pub mod laws;
pub mod progress;
pub mod read;
pub mod table;
pub mod uncounted;

pub use laws::{overwriting_laws, reads_laws};

//! What is written into a caller's buffer: octets, names with pointers or without, a message that is built, whose
//! state is numbers beside its octets, and rows of numbers of all that a message has.
#![tactic(auto)]

pub mod builder;
pub mod data;
pub mod entry;
pub mod mark;
pub mod named;
pub mod plan;
pub mod push;
pub mod put;
pub mod read;
pub mod rows;
pub mod rrset;

pub use builder::Builder;

//! The engines of the program dnsnames: names, texts and messages from a reader to a writer.
#![tactic(auto)]

mod asked;
mod buffer;
mod entry;
pub mod entry_kind;
mod line;
mod list;
pub mod start;
mod text;
pub mod tool;
pub mod words;

pub use asked::offset_of_word;

//! Messages from the lines that show them (RFC 1035, 5.1).
#![tactic(auto)]

mod data;
pub mod engine;
mod entry;
pub mod error;
mod line;
mod opt;
mod parts;
mod remark;
mod words;

pub use engine::make_message;

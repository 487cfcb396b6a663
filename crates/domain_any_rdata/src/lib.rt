//! Record data of any type by one table: read from a message, composed, compared and owned (RFC 1035, 3.2.1).
#![tactic(auto)]

pub mod all;
mod compose;
mod left;
mod len;
pub mod name_form;
mod order;
pub mod owned;
mod owned_calls;
mod read;
mod read_back;
mod reader;
mod text;

pub use all::AllRecordData;
pub use name_form::NameForm;
pub use order::equality_law;
pub use owned::OwnedRecordData;

#[cfg(test)]
mod tests;

//! Fields of record data as text, without memory: each by what the table of types says that it is.
#![tactic(auto)]

pub mod base32;
pub mod field;
pub mod name;
pub mod octets;
pub mod shown;
mod strings;

pub use field::FieldText;
pub use name::ZoneName;
pub use octets::{HexPairs, UnknownText};
pub use shown::{Lead, Shown};

#[cfg(test)]
mod tests;

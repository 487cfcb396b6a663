//! The calls of names of every kind: what they can be made into, octets, uncompressed names, chains and text, and how
//! they compare.
#![tactic(auto)]

mod building;
pub mod flatten;
pub mod to_name;
pub mod to_relative_name;

pub use flatten::{FlattenInto, FlattenName};
pub use to_name::ToName;
pub use to_relative_name::ToRelativeName;

//! Fields of record data that RFC 4034 has: bitmaps of types, the type that a signature covers, and times.
#![tactic(auto)]

pub mod rtype_field;
pub mod time_field;
pub mod type_bitmaps;
pub mod type_blocks;

pub use rtype_field::RtypeField;
pub use time_field::TimeField;
pub use type_bitmaps::{TypeBitmaps, TypeBitmapsError};
pub use type_blocks::TypesIter;

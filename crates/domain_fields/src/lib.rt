//! Fields of record data, and fields one after the other (RFC 1035, 3.3): reading, composing and comparing them.
#![tactic(auto)]

mod display;
pub mod field;
pub mod flatten;
pub mod hash;
pub mod name_field;
pub mod order;
pub mod ordered_data;
pub mod read;
pub mod read_back;
pub mod sequence;

pub use field::DataField;
pub use flatten::FlattenField;
pub use hash::{HashedField, hash_octets};
pub use name_field::{DataName, NameField, UncompressedNameField};
pub use order::{OrderedField, OrderedLast};
pub use ordered_data::OrderedData;
pub use read::{FieldError, ReadField, read_all};
pub use read_back::{ReadBackData, ReadBackField, ReadBackLast};
pub use sequence::Sequence;

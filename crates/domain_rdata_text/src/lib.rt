//! Record data as text, and read from text (RFC 1035, 5.1; RFC 3597, 5).
//!
//! [`show`] writes data of any type, and [`read`] reads it. What is written is read as the same data
//! ([`read_back_law`]).
#![tactic(auto)]

mod address;
mod base32;
mod base64_text;
mod bitmaps;
pub mod error;
pub mod form;
pub mod from_text;
mod hex;
mod ipv6;
pub mod laws;
pub mod name;
mod number;
pub mod place;
mod push;
mod rtype;
mod string;
mod symbols;
mod time;
pub mod to_text;
mod ttl;
pub mod value;
pub mod words;

pub use error::{Fault, ReadError, Reason};
pub use form::{TextForm, text_form};
pub use from_text::{read, read_relative_to};
pub use laws::{name_law, octets_law, plain_law, read_back_law, types_law};
pub use name::name_relative_to;
pub use place::{Place, place_of};
pub use symbols::is_decimal;
pub use to_text::show;
pub use ttl::ttl_of;
pub use value::{PlainData, Value, plain_data};
pub use words::{Word, split_words};

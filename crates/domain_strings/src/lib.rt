//! Fields of record data that are octets of any values: character strings (RFC 1035, 3.3), and all remaining octets,
//! with their text in hexadecimal digits, in base64 (RFC 4648) or between quotes.
#![tactic(auto)]

pub mod char_string;
mod hex;
pub mod last_octets;
pub mod quoted;
pub mod tag;

pub use char_string::{CharString, LongCharString};
pub use last_octets::{Base16Octets, Base64Octets, LastOctets, QuotedOctets};
pub use quoted::Quoted;
pub use tag::{InvalidTag, Tag};

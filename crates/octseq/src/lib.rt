//! Octet lists, what octets are appended to, and a parser over a slice.
//!
//! A value that implements [`Octets`] is one list of octets, wherever they lie. An
//! [`OctetsBuilder`] appends all of some octets or changes nothing. A [`Parser`] reads octets
//! before its end, or stays where it is.
#![tactic(auto)]

pub mod builder;
pub mod from;
pub mod octets;
pub mod parse;

pub use builder::{EmptyBuilder, FreezeBuilder, FromBuilder, IntoBuilder, OctetsBuilder, ShortBuf};
pub use from::{OctetsFrom, SameOctets};
pub use octets::{Octets, OctetsMut, Truncate};
pub use parse::{Parser, ShortInput};

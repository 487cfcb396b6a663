//! Values on the wire: how they are read and written, and why a reading fails.
#![tactic(auto)]

pub mod cmp;
pub mod compose;
pub mod error;
pub mod laws;
pub mod net;
pub mod parse;

pub use cmp::{CanonicalOrd, TotalCanonicalOrd};
pub use compose::{Compose, FixedLen, compose_vec};
pub use error::{FormError, ParseError};
pub use net::{IpAddr, Ipv4Addr, Ipv6Addr};
pub use parse::{Parse, parse_slice};

//! Serial numbers: 32 bits that count on from the greatest to 0 (RFC 1982).
#![tactic(auto)]

pub mod laws;
pub mod serial;

pub use serial::{IllegalSignatureTime, Serial};

//! Domain names and their wire format (RFC 1035).
#![tactic(auto)]

pub mod base;
pub mod rdata;

pub use domain_tool::{entry_kind, tool};

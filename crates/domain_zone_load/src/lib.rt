//! A zone from its text (RFC 1035, 5).
#![tactic(auto)]

pub mod error;
pub mod loading;
mod taking;

pub use error::LoadError;
pub use loading::load;

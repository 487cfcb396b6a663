//! The text of a zone, in canonical order (RFC 1035, 5; RFC 4034, 6.1).
#![tactic(auto)]

pub mod laws;
pub mod record;
pub mod writing;

pub use laws::{loaded_zone_law, reloaded_zone_law, written_zone_law};
pub use record::{Front, append_name, append_record};
pub use writing::write_zone;

#[cfg(test)]
mod tests;

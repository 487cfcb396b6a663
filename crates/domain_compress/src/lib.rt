//! A composer that writes names shorter (RFC 1035, 4.1.4).
#![tactic(auto)]

mod append;
pub mod compress;
pub mod laws;
mod marks;
pub mod plan;
mod remember;
mod search;
mod written;

pub use compress::CompressComposer;
pub use laws::compress_laws;

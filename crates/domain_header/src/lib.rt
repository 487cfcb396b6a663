//! What a message begins with: identifier, flags and counts (RFC 1035, 4.1.1); and the numbers that questions and
//! records have beside their names: class and TTL.
#![tactic(auto)]

pub mod class;
pub mod code;
pub mod counts;
pub mod flags;
pub mod header;
pub mod mnemonic;
pub mod numbered;
pub mod numbers;
pub mod rtypes;
pub mod ttl;

pub use class::Class;
pub use code::{Opcode, Rcode};
pub use counts::HeaderCounts;
pub use flags::Header;
pub use header::{HeaderSection, ShortMessage};
pub use mnemonic::Mnemonic;
pub use ttl::Ttl;

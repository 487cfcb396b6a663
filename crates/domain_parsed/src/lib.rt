//! Names in a message, with compression pointers (RFC 1035, 4.1.4).
#![tactic(auto)]

mod flat;
mod flatten;
mod iter;
mod labels;
mod order;
mod parsed;
mod suffixes;

pub use domain_reading::heads::Heads;
pub use domain_reading::reads_laws;
pub use iter::ParsedNameIter;
pub use parsed::ParsedName;
pub use suffixes::ParsedSuffixIter;

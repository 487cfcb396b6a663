//! Uncompressed names: names whose wire format is in contiguous octets.
#![tactic(auto)]

pub mod absolute;
pub mod builder;
pub mod calls;
pub mod labels;
mod laws;
pub mod order;
pub mod relative;
pub mod relative_labels;
pub mod relative_order;
mod strip;
pub mod suffixes;
mod text;

pub use absolute::Name;
pub use builder::NameBuilder;
pub use calls::BuilderCall;
pub use laws::builder_laws;
pub use relative::RelativeName;
pub use strip::StripSuffixError;
pub use suffixes::SuffixIter;

//! Which records of a zone a response to a question has, section by section.
#![tactic(auto)]

mod addresses;
mod answer;
mod authority;
mod cname;
mod encloser;
mod laws;
mod response;
mod section;
mod soa;

pub use addresses::AddressIter;
pub use cname::SynthesizedCname;
pub use laws::response_laws;
pub use response::{Response, respond};
pub use section::SectionRrset;

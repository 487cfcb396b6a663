//! The message that answers a query from a zone.
#![tactic(auto)]

mod edns;
mod error;
mod glue;
mod header;
mod query;
mod respond;
mod rrset;
mod sections;
mod sets;

pub use edns::{Server, Transport};
pub use error::ResponseError;
pub use respond::respond_to;

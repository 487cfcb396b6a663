//! Data of SVCB and HTTPS records (RFC 9460): a priority, a target name, and service parameters.
#![tactic(auto)]

mod list;
mod octets_value;
pub mod param;
pub mod params;
pub mod service;
mod value;

pub use param::{SvcParam, SvcParamsIter};
pub use params::{SvcParams, SvcParamsError};
pub use service::{Https, ServiceData, ServiceFields, Svcb};

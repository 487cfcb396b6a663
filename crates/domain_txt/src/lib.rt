//! Data of TXT records: character strings, one or more (RFC 1035, 3.3 and 3.3.14).
#![tactic(auto)]

mod read_back;
pub mod refusals;
pub mod txt;
pub mod txt_iter;

pub use refusals::Refusals;
pub use txt::{Txt, TxtError};
pub use txt_iter::TxtIter;

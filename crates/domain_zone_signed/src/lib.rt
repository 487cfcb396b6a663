//! What a zone's response to one question has: the chain of aliases, what denies, and signatures.
#![tactic(auto)]

mod answer;
mod chain;
mod denial;
mod denials;
mod laws;
mod names;
mod nsec;
mod questions;
mod response;
mod rrset;
mod signatures;
mod target;

pub use answer::AnswerRrset;
pub use chain::{ChainResponse, respond_along};
pub use denial::{Denial, denial_for};
pub use laws::{alias_rows, chain_laws, denial_laws, nsec_chain_laws, signed_laws};
pub use names::{ALIAS_LIMIT, follow, names_of};
pub use nsec::nsec_for;
pub use questions::Questions;
pub use response::{SignedResponse, add_dnssec};
pub use rrset::ResponseRrset;
pub use signatures::{Signatures, signatures_for};

//! NSEC3: the hash of a name, its label, the fields of records, what they match and cover, and what they prove (RFC
//! 5155).
#![tactic(auto)]

pub mod covering;
pub mod encloser;
pub mod hashing;
pub mod label;
pub mod record;

pub use covering::{covers, matches};
pub use encloser::{EncloserProof, HashedRecord, closest_encloser};
pub use hashing::{HASH_LEN, TooManyIterations, hash_name};
pub use label::{LABEL_LEN, hash_of_label, label_of_hash};
pub use record::{Nsec3, Nsec3Param};

#[cfg(test)]
mod tests;

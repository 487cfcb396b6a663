//! What all names have: a list of labels, however they are stored.
#![tactic(auto)]

pub mod chain;
pub mod comparing;
pub mod composing;
pub mod counting;
pub mod dotted;
pub mod ends;
mod flat;
pub mod hashing;
pub mod joined;
pub mod labels;
pub mod laws;
pub mod lent;
mod unescaped;

pub use chain::{Chain, ChainIter, LongChainError};
pub use dotted::DisplayWithDot;
pub use joined::JoinedLabels;
pub use labels::{
    Absolute, AbsoluteLabels, LabelIterator, NameLabels, Relative, RelativeLabels, ToLabelIter,
};

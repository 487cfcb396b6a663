//! Labels, what names are made of, and the symbols of their text.
#![tactic(auto)]

pub mod compose;
mod escape;
pub mod hex;
pub mod ignoring_case;
pub mod label;
pub mod label_mut;
pub mod label_text;
pub mod laws;
pub mod order;
pub mod owned;
pub mod presentation;
pub mod scan;
pub mod slice_labels;
pub mod split_error;
pub mod split_mut;
mod symbol;
mod symbols;

pub use label::{Label, LongLabelError};
pub use label_mut::LabelMut;
pub use label_text::{LabelFromStrError, LabelFromStrErrorKind};
pub use owned::OwnedLabel;
pub use slice_labels::SliceLabelsIter;
pub use split_error::{LabelTypeError, SplitLabelError};

//! Names that are put together step by step: labels and the octets of an open one, from octets, symbols, other names
//! and addresses. A call makes its step, or returns the error that is due and changes nothing; what is built is always
//! in wire format. It passes on the grammar of texts and their reading, so that what is on top of it needs one line.
#![tactic(auto)]

mod append;
mod labels;
mod push_error;
mod reverse;

pub use domain_text::{
    FromStrError, NameSymbol, PresentationError, PresentationErrorKind, RelativeFromStrError,
    TextFault, error, name_symbol, name_symbol_of, text, text_laws,
};
pub use labels::{LabelsBuilder, append_absolute};
pub use push_error::{PushError, PushNameError};
pub use reverse::reverse_octets;

//! Uncompressed names: how octets in wire format are read as lists of labels.
#![tactic(auto)]

pub mod canonical;
pub mod error;
pub mod flat;
pub mod iter;
pub mod label_ends;
pub mod laws;

pub use canonical::make_lowercase;
pub use error::{NameError, NameErrorKind, RelativeNameError, RelativeNameErrorKind};
pub use flat::{MAX_NAME_LEN, check_absolute, check_relative, name_len};
pub use iter::NameIter;
pub use label_ends::is_label_end;

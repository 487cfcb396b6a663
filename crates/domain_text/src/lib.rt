//! The grammar of names in presentation format (RFC 1035, 5.1), before any octets. It says what each symbol of a text
//! is in a name, and what symbols in turn make of the labels so far. It also says which one error a text has that is
//! no name. Readers of texts and builders are based on it, and state by it what they accept.
//!
//! Names read from text (RFC 1035, 5.1), whole. A text is put together in a buffer on the stack and appended to its
//! target once. So an error of the text is found before any lack of room. The result is the octets of a name in wire
//! format, for any octets that have a builder and for arrays.
#![tactic(auto)]

mod buffer;
pub mod error;
pub mod laws;
pub mod name_symbol;
mod plain;
pub mod text;
pub mod whole;

pub use error::{FromStrError, PresentationError, PresentationErrorKind, RelativeFromStrError};
pub use laws::text_laws;
pub use name_symbol::{NameSymbol, TextFault, name_symbol_of};
pub use whole::WholeSymbols;

//! Symbols of presentation text (RFC 1035, 5.1): characters and escapes.
pub use crate::symbol::{BadSymbol, Symbol, SymbolCharsError};
pub use crate::symbols::Symbols;

//! What the symbols of a text are in a name.
ghost use Rattle.std.specs.Prelude.{◌≡◌, Result};
ghost use Rattle.domain_text.specs.NameSymbols.{name_symbol};

use domain_label::scan::{Symbol, SymbolCharsError};

/// Why a text is no name.
#[derive(Clone, Copy, Debug, PartialEq, Eq)]
pub enum TextFault {
    /// The text is empty, or ends inside an escape.
    ShortInput,
    /// An escape is broken.
    BadEscape,
    /// A character stands for no octet.
    BadSymbol,
    /// A label begins with `\[`.
    BinaryLabel,
    /// A label has more than 63 octets.
    LongLabel,
    /// A dot stands where no label is open.
    EmptyLabel,
    /// The name has more than 254 octets before the root.
    LongName,
}

/// What a symbol is in a name.
#[derive(Clone, Copy)]
pub enum NameSymbol {
    /// A plain dot.
    Dot,
    /// An octet of a label.
    Octet(u8),
    /// `\[`, an octet that can't begin a label.
    Bracket,
    /// No octet.
    Nothing(TextFault),
}

/// What is read of a text is in a name.
#[inline(always)]
pub fn name_symbol_of(item: Result<Symbol, SymbolCharsError>) -> NameSymbol
    ensures { result ≡ name_symbol item }
{
    match item {
        Ok(Symbol::Char(c)) => match c {
            '.' => NameSymbol::Dot,
            ' '..='~' => NameSymbol::Octet(c as u8),
            _ => NameSymbol::Nothing(TextFault::BadSymbol),
        },
        Ok(Symbol::SimpleEscape(octet)) => {
            if octet == b'[' {
                NameSymbol::Bracket
            } else {
                NameSymbol::Octet(octet)
            }
        }
        Ok(Symbol::DecimalEscape(octet)) => NameSymbol::Octet(octet),
        Err(SymbolCharsError::ShortInput) => NameSymbol::Nothing(TextFault::ShortInput),
        Err(SymbolCharsError::BadEscape) => NameSymbol::Nothing(TextFault::BadEscape),
    }
}

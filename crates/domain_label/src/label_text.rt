//! Labels from text.
ghost use Rattle.std.specs.Prelude.{◌≡◌, ◌≤◌, Some, OnOk};
ghost use Rattle.std.specs.Iterator.{IsFinite, size};
ghost use Rattle.domain_label.specs.ErrorText.{label_from_str_text};
ghost use Rattle.domain_label.specs.LabelText.{label_error_kind, label_octet};
ghost use Rattle.domain_label.specs.Scanning.{ReadsLabelEscape, ReadsOctet};

use crate::escape::escape_at;
use crate::symbol::{BadSymbol, Symbol, SymbolCharsError};
use std::error::Error;
use std::fmt;

/// Why a text isn't the text of a label.
#[derive(Clone, Copy, Debug, PartialEq, Eq)]
pub enum LabelFromStrErrorKind {
    /// An escape is broken.
    SymbolChars(SymbolCharsError),
    /// A character stands for no octet.
    BadSymbol(BadSymbol),
    /// The label begins with `\[`, as binary labels did, which are no longer in use (RFC 6891, 5).
    BinaryLabel,
    /// Something comes after 63 octets.
    LongLabel,
}

/// A text that isn't the text of a label.
#[derive(Clone, Copy, Debug, PartialEq, Eq)]
pub struct LabelFromStrError {
    kind: LabelFromStrErrorKind,
}

impl LabelFromStrError {
    /// Why the text is no label.
    pub fn kind(&self) -> LabelFromStrErrorKind
        ensures { result ≡ label_error_kind self.now }
    {
        self.kind
    }
}

impl fmt::Display for LabelFromStrError {
    ghost output = { λ e. Some (label_from_str_text (label_error_kind e)) };

    fn fmt<W: fmt::Write>(&self, f: &mut fmt::Formatter<W>) -> fmt::Result {
        match self.kind {
            LabelFromStrErrorKind::SymbolChars(error) => write!(f, "{error}"),
            LabelFromStrErrorKind::BadSymbol(error) => write!(f, "{error}"),
            LabelFromStrErrorKind::BinaryLabel => write!(f, "a binary label was encountered"),
            LabelFromStrErrorKind::LongLabel => write!(f, "label length limit exceeded"),
        }
    }
}

impl Error for LabelFromStrError {}

impl From<LabelFromStrErrorKind> for LabelFromStrError {
    ghost from_gives = { λ kind e. label_error_kind e ≡ kind };

    fn from(kind: LabelFromStrErrorKind) -> LabelFromStrError {
        LabelFromStrError { kind }
    }
}

impl From<SymbolCharsError> for LabelFromStrError {
    ghost use Rattle.domain_label.specs.declared.label_text.LabelFromStrErrorKind.TheVariants.{SymbolChars};

    ghost from_gives = { λ error e. label_error_kind e ≡ SymbolChars error };

    fn from(error: SymbolCharsError) -> LabelFromStrError {
        LabelFromStrErrorKind::SymbolChars(error).into()
    }
}

impl From<BadSymbol> for LabelFromStrError {
    ghost use Rattle.domain_label.specs.declared.label_text.LabelFromStrErrorKind.TheVariants.{BadSymbol};

    ghost from_gives = { λ error e. label_error_kind e ≡ BadSymbol error };

    fn from(error: BadSymbol) -> LabelFromStrError {
        LabelFromStrErrorKind::BadSymbol(error).into()
    }
}

/// Reads the octet whose symbol begins with `c`, at the start of a label or after it.
pub(crate) fn next_octet<I: Iterator<Item = char>>(
    c: char,
    start: bool,
    chars: &mut I,
) -> Result<u8, LabelFromStrErrorKind>
    requires can { I.can_next chars.old }
    requires ends { IsFinite (I.remaining chars.old) }
    ensures octet { ReadsOctet I.next_gives start c chars.old result chars.new }
    ensures can { OnOk result (I.can_next chars.new) }
    ensures ends { IsFinite (I.remaining chars.new) }
    ensures fewer { OnOk result (size (I.remaining chars.new) ≤ size (I.remaining chars.old)) }
{
    if c != '\\' {
        return octet_in_label(Symbol::Char(c), start);
    }
    match label_escape(chars) {
        Ok(symbol) => octet_in_label(symbol, start),
        Err(error) => Err(LabelFromStrErrorKind::SymbolChars(error)),
    }
}

/// Reads what follows a backslash, where it may be a control character.
fn label_escape<I: Iterator<Item = char>>(chars: &mut I) -> Result<Symbol, SymbolCharsError>
    requires can { I.can_next chars.old }
    requires ends { IsFinite (I.remaining chars.old) }
    ensures escape { ReadsLabelEscape I.next_gives chars.old result chars.new }
    ensures can { OnOk result (I.can_next chars.new) }
    ensures ends { IsFinite (I.remaining chars.new) }
    ensures fewer { OnOk result (size (I.remaining chars.new) ≤ size (I.remaining chars.old)) }
{
    let first = match chars.next() {
        None => return Err(SymbolCharsError::ShortInput),
        Some(first) => first,
    };
    if first.is_ascii_control() {
        return Ok(Symbol::SimpleEscape(first as u8));
    }
    escape_at(first, chars)
}

/// The octet that a symbol is in a label, at its start or after it.
fn octet_in_label(symbol: Symbol, start: bool) -> Result<u8, LabelFromStrErrorKind>
    ensures { result ≡ label_octet start symbol }
{
    match symbol {
        Symbol::Char('.') => Err(LabelFromStrErrorKind::BadSymbol(BadSymbol)),
        Symbol::SimpleEscape(b'[') if start => Err(LabelFromStrErrorKind::BinaryLabel),
        _ => match symbol.into_octet() {
            Ok(octet) => Ok(octet),
            Err(error) => Err(LabelFromStrErrorKind::BadSymbol(error)),
        },
    }
}

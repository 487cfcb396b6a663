//! Reading one escape.
ghost use Rattle.std.specs.Prelude.{◌≡◌, ◌≤◌, [], ◌∷◌, IfOk, OnOk};
ghost use Rattle.std.specs.Bool.{MatchBool};
ghost use Rattle.std.specs.Iterator.{IsFinite, size};
ghost use Rattle.domain_label.specs.Spelling.{IsDigit, IsPrintable, IsNotPrintable, number};
ghost use Rattle.domain_label.specs.Scanning.{ReadsEscape, ReadsDigit};

use crate::symbol::{Symbol, SymbolCharsError};

/// Reads what follows a backslash.
#[inline(always)]
pub(crate) fn escape<I: Iterator<Item = char>>(chars: &mut I) -> Result<Symbol, SymbolCharsError>
    requires can { I.can_next chars.old }
    requires ends { IsFinite (I.remaining chars.old) }
    ensures escape { ReadsEscape I.next_gives [] chars.old result chars.new }
    ensures can { OnOk result (I.can_next chars.new) }
    ensures ends { IsFinite (I.remaining chars.new) }
    ensures fewer { OnOk result (size (I.remaining chars.new) ≤ size (I.remaining chars.old)) }
{
    match chars.next() {
        None => Err(SymbolCharsError::ShortInput),
        Some(first) => escape_at(first, chars),
    }
}

/// Reads an escape whose first character after the backslash was read.
#[inline(always)]
pub(crate) fn escape_at<I: Iterator<Item = char>>(
    first: char,
    chars: &mut I,
) -> Result<Symbol, SymbolCharsError>
    requires can { I.can_next chars.old }
    requires ends { IsFinite (I.remaining chars.old) }
    ensures escape { ReadsEscape I.next_gives (first ∷ []) chars.old result chars.new }
    ensures can { OnOk result (I.can_next chars.new) }
    ensures ends { IsFinite (I.remaining chars.new) }
    ensures fewer { OnOk result (size (I.remaining chars.new) ≤ size (I.remaining chars.old)) }
{
    if !first.is_ascii_digit() {
        if is_printable(first) {
            return Ok(Symbol::SimpleEscape(first as u8));
        }
        return Err(SymbolCharsError::BadEscape);
    }
    let second = next_digit(chars)?;
    let third = next_digit(chars)?;
    let value = value_of(first, second, third);
    if value > 255 {
        return Err(SymbolCharsError::BadEscape);
    }
    Ok(Symbol::DecimalEscape(value as u8))
}

/// Whether a character is from space to tilde.
#[inline(always)]
fn is_printable(c: char) -> bool
    ensures { MatchBool result (IsPrintable c) (IsNotPrintable c) }
{
    c >= ' ' && c <= '~'
}

/// Reads a digit that continues an escape.
#[inline(always)]
fn next_digit<I: Iterator<Item = char>>(chars: &mut I) -> Result<char, SymbolCharsError>
    requires can { I.can_next chars.old }
    requires ends { IsFinite (I.remaining chars.old) }
    ensures value { IfOk result (λ d. IsDigit d) }
    ensures digit { ReadsDigit I.next_gives chars.old result chars.new }
    ensures can { OnOk result (I.can_next chars.new) }
    ensures ends { IsFinite (I.remaining chars.new) }
    ensures fewer { OnOk result (size (I.remaining chars.new) ≤ size (I.remaining chars.old)) }
{
    match chars.next() {
        None => Err(SymbolCharsError::ShortInput),
        Some(c) => {
            if c.is_ascii_digit() {
                Ok(c)
            } else {
                Err(SymbolCharsError::BadEscape)
            }
        }
    }
}

/// The number that three digits spell.
#[inline(always)]
fn value_of(first: char, second: char, third: char) -> u32
    requires first { IsDigit first }
    requires second { IsDigit second }
    requires third { IsDigit third }
    ensures { result ≡ number first second third }
{
    (first as u32 - 48) * 100 + (second as u32 - 48) * 10 + (third as u32 - 48)
}

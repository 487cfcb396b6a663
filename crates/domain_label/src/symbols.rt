//! An iterator over the symbols of a text.
ghost use Rattle.std.specs.Iterator.{IsFinite};
ghost use Rattle.domain_label.specs.Scanning.{YieldsSymbols, SymbolSteps, CanScan, calls_left};

use crate::escape::escape;
use crate::symbol::{Symbol, SymbolCharsError};

/// The symbols of a text, in order (RFC 1035, 5.1). Each text has exactly one reading, by
/// `laws::scan_laws`.
///
/// A broken escape is an error, and the last item: `ShortInput` where the text ends inside it, `BadEscape` at the
/// first character that breaks it or after three digits whose value is over 255.
#[derive(Drop)]
pub struct Symbols<I> {
    chars: I,
    done: bool,
}

impl<I: Iterator<Item = char> + Drop> Symbols<I> {
    /// The symbols that the characters spell. Nothing is read yet.
    #[inline(always)]
    pub fn new(chars: I) -> Self
        ensures items { YieldsSymbols I.next_gives chars result }
        ensures can { I.can_next chars → IsFinite (I.remaining chars) →
            CanScan I.can_next I.remaining result }
        ensures ends { IsFinite (I.remaining chars) → IsFinite (calls_left I.remaining result) }
    {
        Symbols { chars, done: false }
    }
}

impl<I: Iterator<Item = char> + Drop> Iterator for Symbols<I> {
    type Item = Result<Symbol, SymbolCharsError>;

    ghost can_next = { CanScan I.can_next I.remaining };

    ghost next_gives = { SymbolSteps I.next_gives };

    ghost remaining = { λ s. calls_left I.remaining s };

    #[inline(always)]
    fn next(&mut self) -> Option<Result<Symbol, SymbolCharsError>> {
        if self.done {
            return None;
        }
        match self.chars.next() {
            None => {
                self.done = true;
                None
            }
            Some('\\') => match escape(&mut self.chars) {
                Ok(symbol) => Some(Ok(symbol)),
                Err(error) => {
                    self.done = true;
                    Some(Err(error))
                }
            },
            Some(c) => Some(Ok(Symbol::Char(c))),
        }
    }
}

//! Symbols that were read already, as the symbols of a text.
ghost use Rattle.std.specs.Prelude.{◌≡◌};
ghost use Rattle.domain_text.specs.SymbolsInHand.{WholeSteps, YieldsWhole, symbols_of};

use domain_label::scan::{Symbol, SymbolCharsError};

/// Symbols as what is read of a text, for calls that take either. None of them is a broken escape.
#[derive(Drop)]
pub struct WholeSymbols<I> {
    symbols: I,
}

impl<I: Iterator<Item = Symbol> + Drop> WholeSymbols<I> {
    /// The symbols.
    #[inline(always)]
    pub fn new(symbols: I) -> Self
        ensures items { YieldsWhole I.next_gives symbols result }
        ensures symbols { symbols_of result ≡ symbols }
    {
        WholeSymbols { symbols }
    }
}

impl<I: Iterator<Item = Symbol> + Drop> Iterator for WholeSymbols<I> {
    type Item = Result<Symbol, SymbolCharsError>;

    ghost can_next = { λ s. I.can_next (symbols_of s) };

    ghost next_gives = { WholeSteps I.next_gives };

    ghost remaining = { λ s. I.remaining (symbols_of s) };

    #[inline(always)]
    fn next(&mut self) -> Option<Result<Symbol, SymbolCharsError>> {
        match self.symbols.next() {
            None => None,
            Some(symbol) => Some(Ok(symbol)),
        }
    }
}

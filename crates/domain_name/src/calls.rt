//! Calls of a builder, one after another.
ghost use Rattle.std.specs.Prelude.{◌≤◌};
ghost use Rattle.domain_name.specs.Builders.{held};
ghost use Rattle.domain_name.specs.Calls.{Applies, AppliesAll};

use crate::builder::NameBuilder;
use crate::relative::RelativeName;
use domain_label::scan::Symbol;
use octseq::{OctetsBuilder, OctetsMut};

/// A call of a [`NameBuilder`] that changes it and doesn't consume it, with the call's argument.
#[derive(Clone, Copy)]
pub enum BuilderCall<'a> {
    /// Adds an octet, by `push`.
    Push(u8),
    /// Adds a symbol, by `push_symbol`.
    PushSymbol(Symbol),
    /// Adds octets to the open label, by `append_slice`.
    AppendSlice(&'a [u8]),
    /// Finishes it, by `end_label`.
    EndLabel,
    /// Adds a label, by `append_label`.
    AppendLabel(&'a [u8]),
    /// Adds decimal digits, by `append_dec_u8_label`.
    AppendDecU8Label(u8),
    /// Adds a digit, by `append_hex_digit_label`.
    AppendHexDigitLabel(u8),
    /// Adds a relative name, by `append_name`.
    AppendName(RelativeName<&'a [u8]>),
    /// Adds a text, by `append_chars`.
    AppendChars(&'a str),
}

impl<B: OctetsBuilder + OctetsMut> NameBuilder<B> {
    /// Makes a call, and returns whether it succeeded.
    fn apply(&mut self, call: &BuilderCall) -> bool
        ensures { Applies B.limit (held self.old) call.now (held self.new) result }
    {
        match *call {
            BuilderCall::Push(ch) => match self.push(ch) {
                Ok(()) => true,
                Err(_) => false,
            },
            BuilderCall::PushSymbol(symbol) => match self.push_symbol(symbol) {
                Ok(()) => true,
                Err(_) => false,
            },
            BuilderCall::AppendSlice(slice) => match self.append_slice(slice) {
                Ok(()) => true,
                Err(_) => false,
            },
            BuilderCall::EndLabel => {
                self.end_label();
                true
            }
            BuilderCall::AppendLabel(label) => match self.append_label(label) {
                Ok(()) => true,
                Err(_) => false,
            },
            BuilderCall::AppendDecU8Label(value) => match self.append_dec_u8_label(value) {
                Ok(()) => true,
                Err(_) => false,
            },
            BuilderCall::AppendHexDigitLabel(nibble) => match self.append_hex_digit_label(nibble) {
                Ok(()) => true,
                Err(_) => false,
            },
            BuilderCall::AppendName(name) => match self.append_flat(name) {
                Ok(()) => true,
                Err(_) => false,
            },
            BuilderCall::AppendChars(text) => match self.append_str(text) {
                Ok(()) => true,
                Err(_) => false,
            },
        }
    }

    /// Makes each call in turn, ignores those that fail, and counts those that succeed.
    ///
    /// A call that fails changes nothing, except that the symbols of a text before the first that couldn't be added
    /// are kept. A call that fails for lack of capacity asks for more than the capacity that it leaves.
    pub fn apply_all(&mut self, calls: &[BuilderCall]) -> usize
        ensures applied { AppliesAll B.limit (held self.old) calls.now (held self.new) result }
        ensures grows { (held self.old).capacity ≤ (held self.new).capacity }
    {
        let mut accepted = 0;
        for call in calls {
            if self.apply(call) {
                accepted += 1;
            }
        }
        accepted
    }
}

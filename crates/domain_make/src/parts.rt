//! Numbers and names that a word is (RFC 1035, 5.1).
ghost use Rattle.std.specs.Prelude.{◌≡◌, ◌↔◌, IsTrue, IfOk, IfErr};
ghost use Rattle.std.specs.Str.{chars, IsUtf8};
ghost use Rattle.domain_builder.specs.TextGrammar.{IsTextOfName};
ghost use Rattle.domain_name.specs.Names.{name_labels};
ghost use Rattle.domain_make.specs.Parts.{IsNameWord, IsNumber32, SpellsNoName};
ghost use Rattle.domain_make.specs.Stops.{IfFault, Tells, NoName, NoNumber32};
ghost use Rattle.domain_make.specs.Words.{EndsInFinalDot, word_at};

use crate::error::{Fault, Stop};
use crate::words::Word;
use arrayvec::ArrayVec;
use domain_builder::FromStrError;
use domain_name::absolute::Name;
use domain_tool::offset_of_word;
use std::alloc::Global;
use std::str::from_utf8;

/// A name of at most 255 octets.
pub(crate) type OwnName = Name<ArrayVec<u8, 255>>;

/// The text that a word is in UTF-8.
///
/// `Refused` where it is none, with the fault that is given, in the column of the word.
pub(crate) fn text_of<'a>(word: &Word<'a>, fault: Fault) -> Result<&'a str, Stop>
    ensures ok { IfOk result
        (λ text. (text.now ≡ word.now.octets.now) × IsUtf8 word.now.octets.now) }
    ensures err { IfErr result (λ e. IfFault e (Tells fault word.now.column)) }
    ensures no_text { IfErr result (λ _. IsUtf8 word.now.octets.now → ⊥) }
{
    let Ok(text) = from_utf8(word.octets) else {
        return Err(Stop::Refused(fault, word.column));
    };
    Ok(text)
}

/// Whether a text ends in a dot that no backslash stands before.
fn ends_in_dot(text: &[u8]) -> bool
    ensures { IsTrue result ↔ EndsInFinalDot text.now }
{
    let mut at = 0;
    let mut dot = false;
    while at < text.len() {
        let octet = text[at];
        if octet == b'\\' {
            if text.len() - at < 2 {
                return false;
            }
            dot = false;
            at += 2;
        } else if octet == b'.' {
            dot = true;
            at += 1;
        } else {
            dot = false;
            at += 1;
        }
    }
    dot
}

/// The name that a text is. Each name fits.
fn name_from_text(alloc: Global, text: &str) -> Result<OwnName, FromStrError>
    ensures ok { IfOk result (λ name. IsTextOfName (chars text.now) (name_labels name)) }
    ensures err { IfErr result (λ _. SpellsNoName (chars text.now)) }
{
    Name::from_chars(alloc, text.chars())
}

/// The absolute name that a word is, with its final dot.
///
/// `Refused` has `NoFinalDot` where it has none, or a backslash before it, and `Name` where the word is the text of no
/// name; both in the column of the word.
pub(crate) fn name_of(alloc: Global, word: &Word<'_>) -> Result<OwnName, Stop>
    ensures ok { IfOk result (λ name. IsNameWord word.now.octets.now (name_labels name)) }
    ensures err { IfErr result (λ e. IfFault e (NoName (word_at word.now))) }
{
    if !ends_in_dot(word.octets) {
        return Err(Stop::Refused(Fault::NoFinalDot, word.column));
    }
    let text = match text_of(word, Fault::Name) {
        Ok(text) => text,
        Err(stop) => return Err(stop),
    };
    let Ok(name) = name_from_text(alloc, text) else {
        return Err(Stop::Refused(Fault::Name, word.column));
    };
    Ok(name)
}

/// The number of at most 32 bits that a word is in decimal digits, at most ten.
///
/// `Refused` has `Number` where it is none, or a larger one, in the column of the word.
pub(crate) fn number32_of(word: &Word<'_>) -> Result<u32, Stop>
    ensures ok { IfOk result (λ n. IsNumber32 word.now.octets.now n) }
    ensures err { IfErr result (λ e. IfFault e (NoNumber32 (word_at word.now))) }
{
    let text = match text_of(word, Fault::Number) {
        Ok(text) => text,
        Err(stop) => return Err(stop),
    };
    let Some(number) = offset_of_word(text) else {
        return Err(Stop::Refused(Fault::Number, word.column));
    };
    Ok(number)
}

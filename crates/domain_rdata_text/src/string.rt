//! Character strings as text (RFC 1035, 5.1).
ghost use Rattle.std.specs.Prelude.{◌≡◌, ◌≤◌, ◌++◌, length, map, Some, None, [], ◌∷◌, IfOk, OnOk, IfErr};
ghost use Rattle.domain_rdata_text.specs.Strings.{is_mark, is_hidden, quoted_octet, string_text};
ghost use Rattle.domain_rdata_text.specs.Strings.{bare_from, quoted_from, string_of_symbols, read_quoted, read_string};
ghost use Rattle.domain_rdata_text.specs.Outcome.{IfRefused, RefusesWith, AppendedTo};
ghost use Rattle.domain_rdata_text.specs.Words.{lists, AppendedWords};

use crate::error::{Fault, ReadError};
use crate::push::{append, append_word, push};
use crate::symbols::{Symbol, append_in_digits, append_with_slash, symbols_of};
use std::alloc::{AllocError, Global};

/// Appends an octet between quotes.
fn append_quoted(octet: u8, text: &mut Vec<u8>) -> Result<(), AllocError>
    ensures { OnOk result (AppendedTo text.old.items (quoted_octet octet) text.new.items) }
{
    if octet == b'"' || octet == b'\\' {
        return append_with_slash(octet, text);
    }
    if octet < 32 || octet > 126 {
        return append_in_digits(octet, text);
    }
    append(octet, text)
}

/// Appends octets between quotes.
pub(crate) fn append_string(string: &[u8], text: &mut Vec<u8>) -> Result<(), AllocError>
    ensures { OnOk result (AppendedTo text.old.items (string_text string.now) text.new.items) }
{
    append(b'"', text)?;
    let mut rest = string;
    'octet: while let [octet, after @ ..] = rest {
        append_quoted(*octet, text)?;
        rest = after;
    }
    append(b'"', text)
}

/// Appends the word that octets are between quotes.
pub(crate) fn append_string_word(
    alloc: Global,
    string: &[u8],
    words: &mut Vec<Vec<u8>>,
) -> Result<(), AllocError>
    ensures { OnOk result
        (AppendedWords words.old.items (string_text string.now ∷ []) words.new.items) }
{
    let mut word = Vec::new(alloc);
    append_string(string, &mut word)?;
    append_word(word, words)?;
    Ok(())
}

/// Appends the words of strings.
pub(crate) fn append_string_words(
    alloc: Global,
    strings: &[Vec<u8>],
    words: &mut Vec<Vec<u8>>,
) -> Result<(), AllocError>
    ensures { OnOk result
        (AppendedWords words.old.items (map string_text (lists strings.now)) words.new.items) }
{
    let mut rest = strings;
    'string: while let [string, after @ ..] = rest {
        append_string_word(alloc, string.as_slice(), words)?;
        rest = after;
    }
    Ok(())
}

/// The octets of symbols without quotes. They are refused with the fault that is passed.
fn bare_string(alloc: Global, refusal: Fault, symbols: &[Symbol]) -> Result<Vec<u8>, ReadError>
    ensures ok { IfOk result (λ made. bare_from [] symbols.now ≡ Some made.items) }
    ensures err { IfRefused result refusal (bare_from [] symbols.now ≡ None) }
    ensures given { RefusesWith result refusal }
{
    let mut made = Vec::new(alloc);
    let mut rest = symbols;
    'symbol: while let [symbol, after @ ..] = rest {
        match *symbol {
            Symbol::Escaped(octet) => push(octet, &mut made)?,
            Symbol::Plain(octet) => {
                if octet == b'"' {
                    return Err(ReadError::Refused(refusal));
                }
                push(octet, &mut made)?;
            }
        }
        rest = after;
    }
    Ok(made)
}

/// The octets of symbols after a quote, up to the second, which is the last. They are refused with the fault that is
/// passed.
fn quoted_string(alloc: Global, refusal: Fault, symbols: &[Symbol]) -> Result<Vec<u8>, ReadError>
    ensures ok { IfOk result (λ made. quoted_from [] symbols.now ≡ Some made.items) }
    ensures err { IfRefused result refusal (quoted_from [] symbols.now ≡ None) }
    ensures given { RefusesWith result refusal }
{
    let mut made = Vec::new(alloc);
    let mut rest = symbols;
    'symbol: while let [symbol, after @ ..] = rest {
        match *symbol {
            Symbol::Escaped(octet) => push(octet, &mut made)?,
            Symbol::Plain(octet) => {
                if octet == b'"' {
                    if after.is_empty() {
                        return Ok(made);
                    }
                    return Err(ReadError::Refused(refusal));
                }
                push(octet, &mut made)?;
            }
        }
        rest = after;
    }
    Err(ReadError::Refused(refusal))
}

/// The octets of symbols, between quotes or without. They are refused with the fault that is passed.
fn string_of_all(alloc: Global, refusal: Fault, symbols: &[Symbol]) -> Result<Vec<u8>, ReadError>
    ensures ok { IfOk result (λ made. string_of_symbols symbols.now ≡ Some made.items) }
    ensures err { IfRefused result refusal (string_of_symbols symbols.now ≡ None) }
    ensures given { RefusesWith result refusal }
{
    if let [Symbol::Plain(b'"'), after @ ..] = symbols {
        return quoted_string(alloc, refusal, after);
    }
    bare_string(alloc, refusal, symbols)
}

/// The octets that a word is the text of. It is refused with the fault that is passed.
pub(crate) fn quoted_of(alloc: Global, refusal: Fault, word: &[u8]) -> Result<Vec<u8>, ReadError>
    ensures ok { IfOk result (λ made. read_quoted word.now ≡ Some made.items) }
    ensures err { IfRefused result refusal (read_quoted word.now ≡ None) }
    ensures given { RefusesWith result refusal }
{
    let symbols = symbols_of(alloc, refusal, word)?;
    string_of_all(alloc, refusal, symbols.as_slice())
}

/// The character string that a word is. It is refused with the fault that is passed.
pub(crate) fn string_of(alloc: Global, refusal: Fault, word: &[u8]) -> Result<Vec<u8>, ReadError>
    ensures ok { IfOk result (λ made. read_string word.now ≡ Some made.items) }
    ensures short { IfOk result (λ made. length made.items ≤ 255) }
    ensures err { IfRefused result refusal (read_string word.now ≡ None) }
    ensures given { RefusesWith result refusal }
{
    let string = quoted_of(alloc, refusal, word)?;
    if string.len() > 255 {
        return Err(ReadError::Refused(refusal));
    }
    Ok(string)
}

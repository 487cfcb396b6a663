//! Types of records as text (RFC 1035, 3.2.2; RFC 3597, 5).
ghost use Rattle.std.specs.Prelude.{◌≡◌, ◌<◌, ◌++◌, Some, None, Ok, Err, [], ◌∷◌, map, IfOk, OnOk, IfErr};
ghost use Rattle.domain_header.specs.Mnemonics.{rows_of};
ghost use Rattle.domain_label.specs.Lowercase.{eq_ignoring_case};
ghost use Rattle.domain_rdata_text.specs.Outcome.{IfFault, IfRefused, RefusesWith, AppendedTo};
ghost use Rattle.domain_rdata_text.specs.Rtypes.{type_text, number_of_word, number_after_type, read_type, types_words};
ghost use Rattle.domain_rdata_text.specs.Words.{lists, words_of, AppendedWords};

use crate::error::{Fault, ReadError, Reason};
use crate::number::{append_number, number_of};
use crate::push::{append_all, append_word};
use crate::words::Word;
use domain_header::Mnemonic;
use domain_header::mnemonic::mnemonic_word;
use domain_header::rtypes::rtypes;
use std::alloc::{AllocError, Global};

/// Appends a type by its mnemonic, or `TYPE` and its number.
#[tactic(auto, unfolding(crate::specs::Rtypes::type_text))]
fn append_type(alloc: Global, number: u16, text: &mut Vec<u8>) -> Result<(), AllocError>
    ensures { OnOk result (AppendedTo text.old.items (type_text number) text.new.items) }
{
    if let Some(word) = mnemonic_word(rtypes(), number) {
        return append_all(word.as_bytes(), text);
    }
    append_all(&[b'T', b'Y', b'P', b'E'], text)?;
    append_number(alloc, u64::from(number), text)
}

/// Appends the word that a type is.
pub(crate) fn append_type_word(
    alloc: Global,
    number: u16,
    words: &mut Vec<Vec<u8>>,
) -> Result<(), AllocError>
    ensures { OnOk result (AppendedWords words.old.items (type_text number ∷ []) words.new.items) }
{
    let mut word = Vec::new(alloc);
    append_type(alloc, number, &mut word)?;
    append_word(word, words)?;
    Ok(())
}

/// Appends the words that types are.
pub(crate) fn append_type_words(
    alloc: Global,
    types: &[u16],
    words: &mut Vec<Vec<u8>>,
) -> Result<(), AllocError>
    ensures { OnOk result
        (AppendedWords words.old.items (map type_text types.now) words.new.items) }
{
    let mut rest = types;
    'rtype: while let [rtype, after @ ..] = rest {
        append_type_word(alloc, *rtype, words)?;
        rest = after;
    }
    Ok(())
}

/// Whether two words are equal, ignoring ASCII case.
#[tactic(auto, using(crate::proofs::Types::same_test))]
fn are_same_words(first: &[u8], second: &[u8]) -> bool
    ensures { result ≡ eq_ignoring_case first.now second.now }
{
    first.eq_ignore_ascii_case(second)
}

/// The number in the first row of a word, ignoring ASCII case.
fn number_of_mnemonic(table: &[Mnemonic], word: &[u8]) -> Option<u16>
    ensures { result ≡ number_of_word (rows_of table.now) word.now }
{
    let mut rest = table;
    'row: while let [row, after @ ..] = rest {
        if are_same_words(row.word.as_bytes(), word) {
            return Some(row.number);
        }
        rest = after;
    }
    None
}

/// The number after `TYPE`. It is refused with the fault that is passed.
fn number_behind_type(refusal: Fault, word: &[u8]) -> Result<u16, ReadError>
    ensures ok { IfOk result (λ n. number_after_type word.now ≡ Some n) }
    ensures err { IfRefused result refusal (number_after_type word.now ≡ None) }
    ensures given { RefusesWith result refusal }
{
    let [t, y, p, e, digits @ ..] = word else {
        return Err(ReadError::Refused(refusal));
    };
    if !are_same_words(&[b'T', b'Y', b'P', b'E'], &[*t, *y, *p, *e]) {
        return Err(ReadError::Refused(refusal));
    }
    let number = number_of(65536, refusal, digits)?;
    Ok(number as u16)
}

/// The type that a word is. It is refused with the fault that is passed.
#[tactic(auto, unfolding(crate::specs::Rtypes::read_type))]
pub(crate) fn type_of(refusal: Fault, word: &[u8]) -> Result<u16, ReadError>
    ensures ok { IfOk result (λ n. read_type word.now ≡ Some n) }
    ensures err { IfRefused result refusal (read_type word.now ≡ None) }
    ensures given { RefusesWith result refusal }
{
    if let Some(number) = number_of_mnemonic(rtypes(), word) {
        return Ok(number);
    }
    number_behind_type(refusal, word)
}

/// Appends a type that was read.
fn push_type(rtype: u16, types: &mut Vec<u16>) -> Result<(), ReadError>
    ensures ok { OnOk result (AppendedTo types.old.items (rtype ∷ []) types.new.items) }
    ensures err { IfErr result (λ e. e ≡ ReadError.Memory) }
{
    match types.push(rtype) {
        Ok(()) => Ok(()),
        Err(_) => Err(ReadError::Memory),
    }
}

/// The types that words are.
pub(crate) fn types_of_words(alloc: Global, words: &[Word]) -> Result<Vec<u16>, ReadError>
    ensures ok { IfOk result (λ made. types_words (Ok []) (words_of words.now) ≡ Ok made.items) }
    ensures err { IfFault result (λ f. types_words (Ok []) (words_of words.now) ≡ Err f) }
{
    let mut types = Vec::new(alloc);
    let mut rest = words;
    'word: while let [word, after @ ..] = rest {
        let refusal = Fault {
            at: word.begin,
            reason: Reason::Rtype,
        };
        let rtype = type_of(refusal, word.octets.as_slice())?;
        push_type(rtype, &mut types)?;
        rest = after;
    }
    Ok(types)
}

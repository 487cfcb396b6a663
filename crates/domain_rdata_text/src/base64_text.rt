//! Octets in base64 (RFC 4648, 4).
ghost use Rattle.std.specs.Prelude.{◌≡◌, Some, None, IfOk, OnOk, IfErr};
ghost use Rattle.domain_rdata_text.specs.Base64.{base64_text, base64_in_words, read_base64, together};
ghost use Rattle.domain_rdata_text.specs.Outcome.{IfRefused, RefusesWith};
ghost use Rattle.domain_rdata_text.specs.Words.{words_of, AppendedWords};

use crate::error::{Fault, ReadError};
use crate::push::{append_word, push_all};
use crate::words::Word;
use base64::DecodeAllocError;
use base64::engine::general_purpose::STANDARD;
use std::alloc::{AllocError, Global};

/// Octets in base64, with padding.
#[tactic(auto, unfolding(crate::specs::Base64::base64_text))]
fn encoded(alloc: Global, octets: &[u8]) -> Result<Vec<u8>, AllocError>
    ensures { IfOk result (λ made. made.items ≡ base64_text octets.now) }
{
    let text = STANDARD.encode(alloc, octets)?;
    Ok(text.into_bytes())
}

/// Appends the word of octets, where there are any.
pub(crate) fn append_base64_words(
    alloc: Global,
    octets: &[u8],
    words: &mut Vec<Vec<u8>>,
) -> Result<(), AllocError>
    ensures { OnOk result
        (AppendedWords words.old.items (base64_in_words octets.now) words.new.items) }
{
    if octets.is_empty() {
        return Ok(());
    }
    let word = encoded(alloc, octets)?;
    append_word(word, words)
}

/// The octets of words without what is between them.
fn octets_together(alloc: Global, words: &[Word]) -> Result<Vec<u8>, ReadError>
    ensures ok { IfOk result (λ made. together (words_of words.now) ≡ made.items) }
    ensures err { IfErr result (λ e. e ≡ ReadError.Memory) }
{
    let mut made = Vec::new(alloc);
    let mut rest = words;
    'word: while let [word, after @ ..] = rest {
        push_all(word.octets.as_slice(), &mut made)?;
        rest = after;
    }
    Ok(made)
}

/// The octets that a text in base64 is of. It is refused with the fault that is passed.
#[tactic(auto, using(crate::proofs::Sextets::was_decoded, crate::proofs::Sextets::was_refused))]
fn decoded(alloc: Global, refusal: Fault, text: &[u8]) -> Result<Vec<u8>, ReadError>
    ensures ok { IfOk result (λ made. read_base64 text.now ≡ Some made.items) }
    ensures err { IfRefused result refusal (read_base64 text.now ≡ None) }
    ensures given { RefusesWith result refusal }
{
    match STANDARD.decode(alloc, text) {
        Ok(octets) => Ok(octets),
        Err(DecodeAllocError::DecodeError(_)) => Err(ReadError::Refused(refusal)),
        Err(DecodeAllocError::OutOfMemory) => Err(ReadError::Memory),
    }
}

/// The octets that words in base64 are of, as one text. They are refused with the fault that is passed.
pub(crate) fn base64_of(alloc: Global, refusal: Fault, words: &[Word]) -> Result<Vec<u8>, ReadError>
    ensures ok { IfOk result (λ made. read_base64 (together (words_of words.now)) ≡ Some made.items) }
    ensures err { IfRefused result refusal (read_base64 (together (words_of words.now)) ≡ None) }
    ensures given { RefusesWith result refusal }
{
    let text = octets_together(alloc, words)?;
    decoded(alloc, refusal, text.as_slice())
}

//! Numbers in decimal digits.
ghost use Rattle.std.specs.Prelude.{◌≡◌, ◌<◌, ◌≤◌, ◌++◌, [], ◌∷◌, Some, None, IfOk, OnOk, IfErr};
ghost use Rattle.std.specs.Fmt.{decimal};
ghost use Rattle.domain_rdata_text.specs.Numbers.{read_number, number_from};
ghost use Rattle.domain_rdata_text.specs.Outcome.{IfRefused, RefusesWith, AppendedTo};
ghost use Rattle.domain_rdata_text.specs.Words.{lists, AppendedWords};

use crate::error::{Fault, ReadError};
use crate::push::{append_all, append_word};
use crate::symbols::is_decimal;
use std::alloc::{AllocError, Global};

/// Appends a number.
pub(crate) fn append_number(
    alloc: Global,
    number: u64,
    text: &mut Vec<u8>,
) -> Result<(), AllocError>
    ensures { OnOk result (AppendedTo text.old.items (decimal number) text.new.items) }
{
    let digits = format!(in alloc; "{number}")?;
    append_all(digits.as_bytes(), text)
}

/// Appends the word that a number is.
pub(crate) fn append_number_word(
    alloc: Global,
    number: u64,
    words: &mut Vec<Vec<u8>>,
) -> Result<(), AllocError>
    ensures { OnOk result (AppendedWords words.old.items (decimal number ∷ []) words.new.items) }
{
    let mut word = Vec::new(alloc);
    append_number(alloc, number, &mut word)?;
    append_word(word, words)?;
    Ok(())
}

/// The number below a limit that a word is. It is refused with the fault that is passed.
pub(crate) fn number_of(limit: u64, refusal: Fault, word: &[u8]) -> Result<u64, ReadError>
    requires some { 0 < limit }
    requires small { limit ≤ 4294967296 }
    ensures ok { IfOk result (λ n. read_number limit word.now ≡ Some n) }
    ensures below { IfOk result (λ n. n < limit) }
    ensures err { IfRefused result refusal (read_number limit word.now ≡ None) }
    ensures given { RefusesWith result refusal }
{
    if word.is_empty() {
        return Err(ReadError::Refused(refusal));
    }
    let mut number: u64 = 0;
    let mut rest = word;
    'digit: while let [digit, after @ ..] = rest {
        if !is_decimal(*digit) {
            return Err(ReadError::Refused(refusal));
        }
        let next = number * 10 + u64::from(*digit - b'0');
        if next >= limit {
            return Err(ReadError::Refused(refusal));
        }
        number = next;
        rest = after;
    }
    Ok(number)
}

//! The words of a line (RFC 1035, 5.1).
ghost use Rattle.std.specs.Prelude.{◌≡◌, ◌≤◌, ◌↔◌, ◌++◌, ◌∷◌, [], drop, length, map, Ok, IsTrue, IfOk, IfErr, OnOk};
ghost use Rattle.domain_make.specs.Stops.{IfFault, NoWords};
ghost use Rattle.domain_make.specs.Words.{IsBlank, AreWords, column_of, placed, word_at, words_at};
ghost use Rattle.domain_make.specs.declared.error.Stop.{Stop};
ghost use Rattle.domain_rdata_text.specs.Words.{split, words_of};

use crate::error::{Fault, Stop};
use domain_rdata_text::words::Word as TextWord;
use domain_rdata_text::{ReadError, split_words};
use std::alloc::Global;

/// A word of a line, and where it begins.
#[derive(Clone, Copy)]
pub(crate) struct Word<'a> {
    /// The octets of the word, with its quotes and backslashes.
    pub(crate) octets: &'a [u8],
    /// At which octet of its line it begins, counted from 1.
    pub(crate) column: usize,
}

/// Whether the octet is a space, a tab or a carriage return.
pub(crate) fn is_blank(octet: u8) -> bool
    ensures { IsTrue result ↔ IsBlank octet }
{
    octet == b' ' || octet == b'\t' || octet == b'\r'
}

/// The octets from an offset on.
#[tactic(auto, using(std::proofs::lemmas::List::drop_all))]
pub(crate) fn octets_from(octets: &[u8], begin: usize) -> &[u8]
    ensures { result.now ≡ drop begin octets.now }
{
    if begin < octets.len() {
        return &octets[begin..];
    }
    &[]
}

/// The column of an offset of the text that begins at `start` in a line. That of the line's end is after its last
/// octet.
pub(crate) fn column_of(line: &[u8], start: usize, offset: usize) -> usize
    requires { start ≤ length line.now }
    ensures { result ≡ column_of (length line.now) start offset }
{
    if offset >= line.len() - start {
        return line.len() + 1;
    }
    start + offset + 1
}

/// The words of the text that begins at `start` in a line. A semicolon begins a comment.
///
/// `Refused` has `Text` with what `split_words` of `domain_rdata_text` refuses, and where. The error is `Memory` if
/// allocation failed.
pub(crate) fn found_words(alloc: Global, line: &[u8], start: usize) -> Result<Vec<TextWord>, Stop>
    requires { start ≤ length line.now }
    ensures ok { IfOk result
        (λ words. split (drop start line.now) ≡ Ok (words_of words.items)) }
    ensures err { IfErr result (λ e. IfFault e (NoWords line.now start)) }
{
    match split_words(alloc, octets_from(line, start)) {
        Ok(words) => Ok(words),
        Err(ReadError::Memory) => Err(Stop::Memory),
        Err(ReadError::Refused(why)) => {
            let column = column_of(line, start, why.at);
            Err(Stop::Refused(Fault::Text(why.reason), column))
        }
    }
}

/// Appends a word.
fn push_word<'a>(word: Word<'a>, words: &mut Vec<Word<'a>>) -> Result<(), Stop>
    ensures ok { OnOk result
        (words_at words.new.items ≡ words_at words.old.items ++ word_at word.entry ∷ []) }
    ensures err { IfErr result (λ e. e ≡ Stop.Memory) }
{
    match words.push(word) {
        Ok(()) => Ok(()),
        Err(_) => Err(Stop::Memory),
    }
}

/// Words of the text that begins at `start` in a line, each with its column.
fn placed<'a>(
    alloc: Global,
    line: &[u8],
    start: usize,
    words: &'a [TextWord],
) -> Result<Vec<Word<'a>>, Stop>
    requires { start ≤ length line.now }
    ensures ok { IfOk result (λ it.
        words_at it.items ≡ map (placed (length line.now) start) (words_of words.now)) }
    ensures err { IfErr result (λ e. e ≡ Stop.Memory) }
{
    let mut made = Vec::new(alloc);
    let mut rest = words;
    'word: while let [word, following @ ..] = rest {
        let column = column_of(line, start, word.begin);
        let octets = word.octets.as_slice();
        push_word(Word { octets, column }, &mut made)?;
        rest = following;
    }
    Ok(made)
}

/// The words of the text that begins at `start` in a line, which were found in it, each with its column.
pub(crate) fn words_of<'a>(
    alloc: Global,
    line: &[u8],
    start: usize,
    found: &'a Vec<TextWord>,
) -> Result<Vec<Word<'a>>, Stop>
    requires inside { start ≤ length line.now }
    requires found { split (drop start line.now) ≡ Ok (words_of found.now.items) }
    ensures ok { IfOk result (λ words. AreWords line.now start (words_at words.items)) }
    ensures err { IfErr result (λ e. IfFault e (NoWords line.now start)) }
{
    match placed(alloc, line, start, found.as_slice()) {
        Ok(words) => Ok(words),
        Err(stop) => Err(stop),
    }
}

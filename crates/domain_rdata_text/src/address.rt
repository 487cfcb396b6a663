//! IPv4 addresses as text (RFC 1035, 3.4.1).
ghost use Rattle.std.specs.Prelude.{◌≡◌, Some, None, [], ◌∷◌, length, IfOk, OnOk, IfErr};
ghost use Rattle.domain_rdata_text.specs.Addresses.{dotted, ipv4_text, pieces_from, octets_from, read_ipv4};
ghost use Rattle.domain_rdata_text.specs.Outcome.{IfRefused, RefusesWith, AppendedTo};
ghost use Rattle.domain_rdata_text.specs.Words.{lists, AppendedWords};

use crate::error::{Fault, ReadError};
use crate::number::{append_number, number_of};
use crate::push::{append, append_word, push, push_list};
use std::alloc::{AllocError, Global};
use std::mem;

/// Appends numbers, a dot before each.
fn append_dotted(alloc: Global, numbers: &[u8], text: &mut Vec<u8>) -> Result<(), AllocError>
    ensures { OnOk result (AppendedTo text.old.items (dotted numbers.now) text.new.items) }
{
    let mut rest = numbers;
    'number: while let [number, after @ ..] = rest {
        append(b'.', text)?;
        append_number(alloc, u64::from(*number), text)?;
        rest = after;
    }
    Ok(())
}

/// Appends the octets of an address.
fn append_ipv4(alloc: Global, octets: &[u8], text: &mut Vec<u8>) -> Result<(), AllocError>
    ensures { OnOk result (AppendedTo text.old.items (ipv4_text octets.now) text.new.items) }
{
    let [first, others @ ..] = octets else {
        return Ok(());
    };
    append_number(alloc, u64::from(*first), text)?;
    append_dotted(alloc, others, text)
}

/// Appends the word that an address is.
pub(crate) fn append_ipv4_word(
    alloc: Global,
    octets: &[u8],
    words: &mut Vec<Vec<u8>>,
) -> Result<(), AllocError>
    ensures { OnOk result
        (AppendedWords words.old.items (ipv4_text octets.now ∷ []) words.new.items) }
{
    let mut word = Vec::new(alloc);
    append_ipv4(alloc, octets, &mut word)?;
    append_word(word, words)?;
    Ok(())
}

/// What is between separators.
pub(crate) fn pieces_of(
    alloc: Global,
    separator: u8,
    word: &[u8],
) -> Result<Vec<Vec<u8>>, ReadError>
    ensures ok { IfOk result (λ made. pieces_from separator [] [] word.now ≡ lists made.items) }
    ensures err { IfErr result (λ e. e ≡ ReadError.Memory) }
{
    let mut pieces = Vec::new(alloc);
    let mut piece = Vec::new(alloc);
    let mut rest = word;
    'octet: while let [octet, after @ ..] = rest {
        if *octet == separator {
            let whole = mem::replace(&mut piece, Vec::new(alloc));
            push_list(whole, &mut pieces)?;
        } else {
            push(*octet, &mut piece)?;
        }
        rest = after;
    }
    push_list(piece, &mut pieces)?;
    Ok(pieces)
}

/// The numbers that pieces are. They are refused with the fault that is passed.
fn numbers_of(alloc: Global, refusal: Fault, pieces: &[Vec<u8>]) -> Result<Vec<u8>, ReadError>
    ensures ok { IfOk result (λ made. octets_from (Some []) (lists pieces.now) ≡ Some made.items) }
    ensures err { IfRefused result refusal (octets_from (Some []) (lists pieces.now) ≡ None) }
    ensures given { RefusesWith result refusal }
{
    let mut made = Vec::new(alloc);
    let mut rest = pieces;
    'piece: while let [piece, after @ ..] = rest {
        let number = number_of(256, refusal, piece.as_slice())?;
        push(number as u8, &mut made)?;
        rest = after;
    }
    Ok(made)
}

/// The address that a word is. It is refused with the fault that is passed.
pub(crate) fn ipv4_of(alloc: Global, refusal: Fault, word: &[u8]) -> Result<Vec<u8>, ReadError>
    ensures ok { IfOk result (λ made. read_ipv4 word.now ≡ Some made.items) }
    ensures err { IfRefused result refusal (read_ipv4 word.now ≡ None) }
    ensures given { RefusesWith result refusal }
{
    let pieces = pieces_of(alloc, b'.', word)?;
    let octets = numbers_of(alloc, refusal, pieces.as_slice())?;
    if octets.len() != 4 {
        return Err(ReadError::Refused(refusal));
    }
    Ok(octets)
}

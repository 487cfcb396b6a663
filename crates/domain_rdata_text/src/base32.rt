//! Octets in base32hex without padding (RFC 4648, 7; RFC 5155, 3.3).
ghost use Rattle.std.specs.Prelude.{◌≡◌, ◌<◌, ◌≤◌, Some, None, [], ◌∷◌, length, true, IfOk, OnOk, IfErr};
ghost use Rattle.domain_rdata_text.specs.Base32.{base32_digit, IsLow, digits_with, low_after, last_digit, base32_rest, base32_text, base32_in_words};
ghost use Rattle.domain_rdata_text.specs.Base32.{is_base32, base32_value, IsHigh, with_digit, high_after, may_end, base32_from, read_base32};
ghost use Rattle.domain_rdata_text.specs.Outcome.{IfRefused, RefusesWith, AppendedTo};
ghost use Rattle.domain_rdata_text.specs.Words.{AppendedWords};

use crate::error::{Fault, ReadError};
use crate::push::{append, append_all, append_word, push};
use crate::symbols::is_decimal;
use std::alloc::{AllocError, Global};

/// The low bits of an octet that no digit has yet.
#[derive(Clone, Copy, Debug, PartialEq, Eq)]
pub(crate) enum Low {
    /// None.
    Whole,
    /// One.
    One(u8),
    /// Two.
    Two(u8),
    /// Three.
    Three(u8),
    /// Four.
    Four(u8),
}

/// The high bits that were read of an octet.
#[derive(Clone, Copy, Debug, PartialEq, Eq)]
pub(crate) enum High {
    /// None.
    Whole,
    /// One.
    One(u8),
    /// Two.
    Two(u8),
    /// Three.
    Three(u8),
    /// Four.
    Four(u8),
    /// Five.
    Five(u8),
    /// Six.
    Six(u8),
    /// Seven.
    Seven(u8),
}

/// The digit of a number.
fn digit_of(number: u8) -> u8
    requires { number < 32 }
    ensures { result ≡ base32_digit number }
{
    if number < 10 {
        b'0' + number
    } else {
        b'W' + number
    }
}

/// Appends the digits that low bits of an octet make with the next octet.
fn append_digits(low: Low, octet: u8, text: &mut Vec<u8>) -> Result<(), AllocError>
    requires { IsLow low }
    ensures { OnOk result (AppendedTo text.old.items (digits_with low octet) text.new.items) }
{
    match low {
        Low::Whole => append(digit_of(octet / 8), text),
        Low::One(bits) => append(digit_of(bits * 16 + octet / 16), text),
        Low::Two(bits) => {
            append(digit_of(bits * 8 + octet / 32), text)?;
            append(digit_of(octet % 32), text)
        }
        Low::Three(bits) => {
            append(digit_of(bits * 4 + octet / 64), text)?;
            append(digit_of(octet / 2 % 32), text)
        }
        Low::Four(bits) => {
            append(digit_of(bits * 2 + octet / 128), text)?;
            append(digit_of(octet / 4 % 32), text)
        }
    }
}

/// The low bits of the next octet that no digit has then.
fn low_after(low: Low, octet: u8) -> Low
    ensures value { result ≡ low_after low octet }
    ensures within { IsLow result }
{
    match low {
        Low::Whole => Low::Three(octet % 8),
        Low::One(_) => Low::Four(octet % 16),
        Low::Two(_) => Low::Whole,
        Low::Three(_) => Low::One(octet % 2),
        Low::Four(_) => Low::Two(octet % 4),
    }
}

/// Appends the digit that low bits of the last octet make, if there are any.
fn append_last(low: Low, text: &mut Vec<u8>) -> Result<(), AllocError>
    requires { IsLow low }
    ensures { OnOk result (AppendedTo text.old.items (last_digit low) text.new.items) }
{
    match low {
        Low::Whole => Ok(()),
        Low::One(bits) => append(digit_of(bits * 16), text),
        Low::Two(bits) => append(digit_of(bits * 8), text),
        Low::Three(bits) => append(digit_of(bits * 4), text),
        Low::Four(bits) => append(digit_of(bits * 2), text),
    }
}

/// Appends octets in digits.
fn append_base32(octets: &[u8], text: &mut Vec<u8>) -> Result<(), AllocError>
    ensures { OnOk result (AppendedTo text.old.items (base32_text octets.now) text.new.items) }
{
    let mut low = Low::Whole;
    let mut rest = octets;
    'octet: while let [octet, after @ ..] = rest {
        append_digits(low, *octet, text)?;
        low = low_after(low, *octet);
        rest = after;
    }
    append_last(low, text)
}

/// Appends the word of octets, where there are any.
pub(crate) fn append_base32_words(
    alloc: Global,
    octets: &[u8],
    words: &mut Vec<Vec<u8>>,
) -> Result<(), AllocError>
    ensures { OnOk result
        (AppendedWords words.old.items (base32_in_words octets.now) words.new.items) }
{
    if octets.is_empty() {
        return Ok(());
    }
    let mut word = Vec::new(alloc);
    append_base32(octets, &mut word)?;
    append_word(word, words)?;
    Ok(())
}

/// Whether it is a digit, in either case.
fn is_digit32(octet: u8) -> bool
    ensures { result ≡ is_base32 octet }
{
    is_decimal(octet) || (b'a' <= octet && octet <= b'v') || (b'A' <= octet && octet <= b'V')
}

/// The number of a digit.
fn value_of_digit32(octet: u8) -> u8
    requires { is_base32 octet ≡ true }
    ensures value { result ≡ base32_value octet }
    ensures small { result < 32 }
{
    if is_decimal(octet) {
        return octet - b'0';
    }
    if b'a' <= octet && octet <= b'v' {
        return octet - b'W';
    }
    octet - b'7'
}

/// Appends the octet that high bits make with a digit, if it is whole then.
fn push_whole(high: High, number: u8, made: &mut Vec<u8>) -> Result<(), ReadError>
    requires bits { IsHigh high }
    requires digit { number < 32 }
    ensures ok { OnOk result (made.new.items ≡ with_digit made.old.items high number) }
    ensures err { IfErr result (λ e. e ≡ ReadError.Memory) }
{
    match high {
        High::Whole => Ok(()),
        High::One(_) => Ok(()),
        High::Two(_) => Ok(()),
        High::Three(bits) => push(bits * 32 + number, made),
        High::Four(bits) => push(bits * 16 + number / 2, made),
        High::Five(bits) => push(bits * 8 + number / 4, made),
        High::Six(bits) => push(bits * 4 + number / 8, made),
        High::Seven(bits) => push(bits * 2 + number / 16, made),
    }
}

/// The high bits that are read after a digit.
fn high_after(high: High, number: u8) -> High
    requires bits { IsHigh high }
    requires digit { number < 32 }
    ensures value { result ≡ high_after high number }
    ensures within { IsHigh result }
{
    match high {
        High::Whole => High::Five(number),
        High::One(bits) => High::Six(bits * 32 + number),
        High::Two(bits) => High::Seven(bits * 32 + number),
        High::Three(_) => High::Whole,
        High::Four(_) => High::One(number % 2),
        High::Five(_) => High::Two(number % 4),
        High::Six(_) => High::Three(number % 8),
        High::Seven(_) => High::Four(number % 16),
    }
}

/// Whether the digits may end: the bits after the last octet are zeros, and fewer than a digit has.
fn may_end(high: High) -> bool
    ensures { result ≡ may_end high }
{
    match high {
        High::Whole => true,
        High::One(bits) => bits == 0,
        High::Two(bits) => bits == 0,
        High::Three(bits) => bits == 0,
        High::Four(bits) => bits == 0,
        High::Five(_) => false,
        High::Six(_) => false,
        High::Seven(_) => false,
    }
}

/// Appends the octets that the digits of a word are. It is refused with the fault that is passed.
fn push_base32(refusal: Fault, word: &[u8], made: &mut Vec<u8>) -> Result<(), ReadError>
    ensures ok { OnOk result
        (base32_from made.old.items High.Whole word.now ≡ Some made.new.items) }
    ensures err { IfRefused result refusal
        (base32_from made.old.items High.Whole word.now ≡ None) }
    ensures given { RefusesWith result refusal }
{
    let mut high = High::Whole;
    let mut rest = word;
    'digit: while let [digit, after @ ..] = rest {
        if !is_digit32(*digit) {
            return Err(ReadError::Refused(refusal));
        }
        let number = value_of_digit32(*digit);
        push_whole(high, number, made)?;
        high = high_after(high, number);
        rest = after;
    }
    if !may_end(high) {
        return Err(ReadError::Refused(refusal));
    }
    Ok(())
}

/// The octets, 1 to 255, that a word is in digits. It is refused with the fault that is passed.
pub(crate) fn base32_of(alloc: Global, refusal: Fault, word: &[u8]) -> Result<Vec<u8>, ReadError>
    ensures ok { IfOk result (λ made. read_base32 word.now ≡ Some made.items) }
    ensures small { IfOk result (λ made. length made.items ≤ 255) }
    ensures err { IfRefused result refusal (read_base32 word.now ≡ None) }
    ensures given { RefusesWith result refusal }
{
    if word.is_empty() {
        return Err(ReadError::Refused(refusal));
    }
    let mut octets = Vec::new(alloc);
    push_base32(refusal, word, &mut octets)?;
    if octets.len() > 255 {
        return Err(ReadError::Refused(refusal));
    }
    Ok(octets)
}

//! TTLs: seconds, or numbers with units (RFC 1035, 5.1; RFC 2181, 8).
ghost use Rattle.std.specs.Prelude.{◌≡◌, ◌<◌, true, Some, None, IfSome, IfOk, IfErr};
ghost use Rattle.domain_rdata_text.specs.Outcome.{IfRefused, RefusesWith};
ghost use Rattle.domain_rdata_text.specs.Symbols.{is_digit};
ghost use Rattle.domain_rdata_text.specs.Ttls.{unit, sum, more_digits, step, ttl, read_ttl, IsWithin};

use crate::error::{Fault, ReadError};
use crate::number::number_of;
use crate::symbols::is_decimal;

/// What was read of a TTL.
#[derive(Clone, Copy, Debug, PartialEq, Eq)]
pub enum TtlPart {
    /// Nothing.
    Nothing,
    /// Digits alone, of this number.
    Digits(u32),
    /// Numbers with units, of this many seconds.
    Sum(u32),
    /// The same, and digits after them.
    SumAndDigits(u32, u32),
}

/// Returns the seconds of a unit: weeks, days, hours, minutes or seconds, in either case. 0 of any other octet.
fn seconds_of_unit(octet: u8) -> u32
    ensures value { result ≡ unit octet }
    ensures small { result < 604801 }
{
    match octet {
        b'w' | b'W' => 604800,
        b'd' | b'D' => 86400,
        b'h' | b'H' => 3600,
        b'm' | b'M' => 60,
        b's' | b'S' => 1,
        _ => 0,
    }
}

/// Returns the number after another digit, if it is less than 2^31.
fn after_digit(number: u32, digit: u8) -> Option<u32>
    requires within { number < 2147483648 }
    requires digit { is_digit digit ≡ true }
    ensures { result ≡ more_digits number digit }
{
    let next = u64::from(number) * 10 + u64::from(digit - b'0');
    if next < 2147483648 {
        return Some(next as u32);
    }
    None
}

/// Returns the seconds after a number with a unit, if the octet is a unit and they are less than 2^31.
fn after_unit(seconds: u32, number: u32, octet: u8) -> Option<u32>
    requires seconds { seconds < 2147483648 }
    requires number { number < 2147483648 }
    ensures { result ≡ sum seconds number (unit octet) }
{
    let unit = seconds_of_unit(octet);
    if unit == 0 {
        return None;
    }
    let next = u64::from(seconds) + u64::from(number) * u64::from(unit);
    if next < 2147483648 {
        return Some(next as u32);
    }
    None
}

/// Returns what was read of a TTL after another octet. `None` if no TTL has it there.
fn after_octet(part: TtlPart, octet: u8) -> Option<TtlPart>
    requires { IsWithin part }
    ensures value { result ≡ step part octet }
    ensures within { IfSome result IsWithin }
{
    let is_digit = is_decimal(octet);
    match part {
        TtlPart::Nothing => {
            if is_digit {
                return Some(TtlPart::Digits(u32::from(octet - b'0')));
            }
            None
        }
        TtlPart::Digits(number) => {
            if is_digit {
                return Some(TtlPart::Digits(after_digit(number, octet)?));
            }
            Some(TtlPart::Sum(after_unit(0, number, octet)?))
        }
        TtlPart::Sum(seconds) => {
            if is_digit {
                return Some(TtlPart::SumAndDigits(seconds, u32::from(octet - b'0')));
            }
            None
        }
        TtlPart::SumAndDigits(seconds, number) => {
            if is_digit {
                return Some(TtlPart::SumAndDigits(seconds, after_digit(number, octet)?));
            }
            Some(TtlPart::Sum(after_unit(seconds, number, octet)?))
        }
    }
}

/// Returns the TTL that a word is, in seconds: digits alone, or numbers each with its unit, one of the letters w, d,
/// h, m and s. `None` if it isn't one, or has more than 2^31 - 1 seconds.
pub fn ttl_of(word: &[u8]) -> Option<u32>
    ensures { result ≡ ttl word.now }
{
    let mut part = TtlPart::Nothing;
    let mut rest = word;
    'octet: while let [octet, following @ ..] = rest {
        part = after_octet(part, *octet)?;
        rest = following;
    }
    match part {
        TtlPart::Digits(seconds) => Some(seconds),
        TtlPart::Sum(seconds) => Some(seconds),
        _ => None,
    }
}

/// The seconds that a word of record data is: a number of 32 bits in digits, or a TTL with units. It is refused with
/// the fault that is passed.
pub(crate) fn seconds_of_word(refusal: Fault, word: &[u8]) -> Result<u64, ReadError>
    ensures ok { IfOk result (λ n. read_ttl word.now ≡ Some n) }
    ensures below { IfOk result (λ n. n < 4294967296) }
    ensures err { IfRefused result refusal (read_ttl word.now ≡ None) }
    ensures given { RefusesWith result refusal }
{
    match number_of(4294967296, refusal, word) {
        Ok(number) => Ok(number),
        Err(ReadError::Memory) => Err(ReadError::Memory),
        Err(ReadError::Refused(_)) => match ttl_of(word) {
            Some(seconds) => Ok(u64::from(seconds)),
            None => Err(ReadError::Refused(refusal)),
        },
    }
}

//! Points in time as text (RFC 4034, 3.2).
ghost use Rattle.std.specs.Prelude.{◌≡◌, ◌≤◌, ◌<◌, ◌+◌, ◌-◌, ◌*◌, Some, None, true, length, slice_index, IfOk};
ghost use Rattle.std.specs.List.{list_all};
ghost use Rattle.domain_rdata_text.specs.Outcome.{IfRefused, RefusesWith};
ghost use Rattle.domain_rdata_text.specs.Symbols.{is_digit};
ghost use Rattle.domain_rdata_text.specs.Times.{is_leap, days_in_month, days_before_month, days_since_1970, is_moment, of_32_bits};
ghost use Rattle.domain_rdata_text.specs.Times.{seconds_to, two_digits, read_moment, read_time};

use crate::error::{Fault, ReadError};
use crate::number::number_of;
use crate::symbols::is_decimal;

/// Whether octets are decimal digits.
fn are_decimal(octets: &[u8]) -> bool
    ensures { result ≡ list_all is_digit octets.now }
{
    let mut rest = octets;
    'octet: while let [octet, after @ ..] = rest {
        if !is_decimal(*octet) {
            return false;
        }
        rest = after;
    }
    true
}

/// The number of a digit.
fn value_of(digit: u8) -> u64
    ensures value { result ≡ digit - 48 }
    ensures small { result ≤ 207 }
{
    if digit < b'0' {
        return 0;
    }
    u64::from(digit - b'0')
}

/// The number of the two digits at an offset.
fn two_digits_at(word: &[u8], at: usize) -> u64
    requires { at + 2 ≤ length word.now }
    ensures value { result ≡ two_digits word.now at }
    ensures small { result ≤ 2277 }
{
    value_of(word[at]) * 10 + value_of(word[at + 1])
}

/// Whether a year is a leap year.
fn is_leap_year(year: u64) -> bool
    ensures { result ≡ is_leap year }
{
    (year % 4 == 0 && year % 100 != 0) || year % 400 == 0
}

/// How many days a month of a year has.
fn days_of_month(year: u64, month: u64) -> u64
    ensures { result ≡ days_in_month year month }
{
    if month == 2 {
        return if is_leap_year(year) { 29 } else { 28 };
    }
    if month == 4 || month == 6 || month == 9 || month == 11 {
        return 30;
    }
    31
}

/// How many days of the year are before a month.
fn days_to_month(year: u64, month: u64) -> u64
    requires first { 1 ≤ month }
    requires last { month ≤ 12 }
    ensures value { result ≡ days_before_month year month }
    ensures small { result ≤ 335 }
{
    let days: [u64; 12] = [0, 31, 59, 90, 120, 151, 181, 212, 243, 273, 304, 334];
    let before = days[(month - 1) as usize];
    let has_passed = is_leap_year(year) && month > 2;
    if has_passed {
        return before + 1;
    }
    before
}

/// How many days are from the beginning of 1970 to a day of a year.
fn days_to_day(year: u64, day: u64) -> u64
    requires first { 1970 ≤ year }
    requires last { year ≤ 300000 }
    requires small { day ≤ 400 }
    ensures value { result ≡ days_since_1970 year day }
    ensures limit { result ≤ 200000000 }
{
    day + (year - 1970) * 365 + (year - 1969) / 4 + (year - 1601) / 400 - (year - 1901) / 100
}

/// A date and a time of day in UTC.
#[derive(Clone, Copy, Debug, PartialEq, Eq)]
pub struct Moment {
    /// The year.
    pub year: u64,
    /// The month, from 1.
    pub month: u64,
    /// The day of the month, from 1.
    pub day: u64,
    /// The hour.
    pub hour: u64,
    /// The minute.
    pub minute: u64,
    /// The second.
    pub second: u64,
}

/// Whether there is such a date from 1970 on, and such a time of day.
fn is_real(it: Moment) -> bool
    ensures { result ≡ is_moment it.year it.month it.day it.hour it.minute it.second }
{
    let last = days_of_month(it.year, it.month);
    it.year >= 1970
        && it.month >= 1
        && it.month <= 12
        && it.day >= 1
        && it.day <= last
        && it.hour < 24
        && it.minute < 60
        && it.second < 60
}

/// The seconds since 1970 began, if they have at most 32 bits.
fn seconds_of(it: Moment) -> Option<u32>
    requires { it.year ≤ 300000 }
    ensures { result ≡ seconds_to it.year it.month it.day it.hour it.minute it.second }
{
    if !is_real(it) {
        return None;
    }
    let day = days_to_month(it.year, it.month) + (it.day - 1);
    let seconds = days_to_day(it.year, day) * 86400 + it.hour * 3600 + it.minute * 60 + it.second;
    if seconds >= 4294967296 {
        return None;
    }
    Some(seconds as u32)
}

/// The seconds of 14 digits.
fn moment_of(word: &[u8]) -> Option<u32>
    requires { length word.now ≡ 14 }
    ensures { result ≡ read_moment word.now }
{
    if !are_decimal(word) {
        return None;
    }
    seconds_of(Moment {
        year: two_digits_at(word, 0) * 100 + two_digits_at(word, 2),
        month: two_digits_at(word, 4),
        day: two_digits_at(word, 6),
        hour: two_digits_at(word, 8),
        minute: two_digits_at(word, 10),
        second: two_digits_at(word, 12),
    })
}

/// The seconds that a word is. It is refused with the fault that is passed.
pub(crate) fn time_of(refusal: Fault, word: &[u8]) -> Result<u32, ReadError>
    ensures ok { IfOk result (λ n. read_time word.now ≡ Some n) }
    ensures err { IfRefused result refusal (read_time word.now ≡ None) }
    ensures given { RefusesWith result refusal }
{
    if word.len() != 14 {
        let number = number_of(4294967296, refusal, word)?;
        return Ok(number as u32);
    }
    match moment_of(word) {
        Some(seconds) => Ok(seconds),
        None => Err(ReadError::Refused(refusal)),
    }
}

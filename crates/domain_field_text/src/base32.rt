//! Octets in base32hex without padding (RFC 4648, 7; RFC 5155, 3.3).
ghost use Rattle.std.specs.Prelude.{◌≡◌, ◌<◌, ◌≤◌, Some, take};
ghost use Rattle.std.specs.Str.{IsAscii};
ghost use Rattle.domain_field_text.specs.Base32.{base32hex_digit, base32hex_group, base32hex_end, base32hex_text};

use domain_label::presentation::ascii_text;
use std::fmt;

/// The digit of a number, in lower case.
fn base32_digit(number: u8) -> u8
    requires { number < 32 }
    ensures digit { result ≡ base32hex_digit number }
    ensures ascii { result < 128 }
{
    if number < 10 {
        b'0' + number
    } else {
        b'W' + number
    }
}

/// Returns the eight digits of five octets in base32hex, in lower case (RFC 4648, 7).
pub fn group_of(a: u8, b: u8, c: u8, d: u8, e: u8) -> [u8; 8]
    ensures digits { result ≡ base32hex_group a b c d e }
    ensures ascii { IsAscii result }
{
    [
        base32_digit(a / 8),
        base32_digit(a % 8 * 4 + b / 64),
        base32_digit(b / 2 % 32),
        base32_digit(b % 2 * 16 + c / 16),
        base32_digit(c % 16 * 2 + d / 128),
        base32_digit(d / 4 % 32),
        base32_digit(d % 4 * 8 + e / 32),
        base32_digit(e % 32),
    ]
}

/// Eight digits, and how many of them fewer than five octets have: the bits that the last one lacks are zeros (RFC
/// 4648, 6).
fn last_group(octets: &[u8]) -> ([u8; 8], usize)
    ensures digits { take result.1 result.0 ≡ base32hex_end octets.now }
    ensures ascii { IsAscii result.0 }
    ensures few { result.1 ≤ 8 }
{
    match octets {
        [a] => (group_of(*a, 0, 0, 0, 0), 2),
        [a, b] => (group_of(*a, *b, 0, 0, 0), 4),
        [a, b, c] => (group_of(*a, *b, *c, 0, 0), 5),
        [a, b, c, d] => (group_of(*a, *b, *c, *d, 0), 7),
        _ => (group_of(0, 0, 0, 0, 0), 0),
    }
}

/// Octets in digits.
#[derive(Clone, Copy)]
pub struct Base32<'a> {
    pub octets: &'a [u8],
}

impl<'a> fmt::Display for Base32<'a> {
    ghost output = { λ it. Some (base32hex_text it.octets.now) };

    fn fmt<W: fmt::Write>(&self, f: &mut fmt::Formatter<W>) -> fmt::Result {
        let mut rest = self.octets;
        'group: while let [a, b, c, d, e, after @ ..] = rest {
            let group = group_of(*a, *b, *c, *d, *e);
            f.write_str(ascii_text(&group))?;
            rest = after;
        }
        let (group, n) = last_group(rest);
        f.write_str(ascii_text(&group[..n]))
    }
}

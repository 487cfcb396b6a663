//! The fields of a line.
ghost use Rattle.std.specs.Prelude.{◌≤◌};

use crate::answer::{Answer, Fail};
use std::alloc::Global;

/// Whether a line is a heading, which is its own answer.
pub fn is_heading(line: &[u8]) -> bool {
    line.first() == Some(&b'#')
}

/// The most zero octets that a field has.
const MOST: usize = 100_000;

/// The first six fields of a line, which have one space between, and how many there are.
#[derive(Clone, Copy)]
pub struct Fields<'a> {
    fields: [&'a [u8]; 6],
    count: usize,
}

impl<'a> Fields<'a> {
    pub fn new(line: &'a [u8]) -> Fields<'a> {
        let mut fields: [&'a [u8]; 6] = [b""; 6];
        let mut count: usize = 0;
        for field in line.split(|octet| *octet == b' ') {
            if let Some(offset) = fields.get_mut(count) {
                *offset = field;
            }
            count = count.saturating_add(1);
        }
        Fields { fields, count }
    }

    pub fn count(&self) -> usize {
        self.count
    }

    /// Notes that the line is malformed where it hasn't so many fields.
    pub fn expect(&self, count: usize, out: &Answer) {
        if self.count != count {
            out.fail(Fail::Bad);
        }
    }

    /// The field at an offset, nothing where there is none. The word is at 0.
    pub fn at(&self, offset: usize) -> &'a [u8] {
        match self.fields.get(offset) {
            Some(field) => *field,
            None => b"",
        }
    }

    /// The octets that a field tells. If it tells none, that is noted.
    pub fn octets(&self, offset: usize, out: &Answer) -> Vec<u8> {
        match octets_of(self.at(offset), out.alloc()) {
            Ok(octets) => octets,
            Err(fail) => {
                out.fail(fail);
                Vec::new(out.alloc())
            }
        }
    }

    /// A decimal number. If the field is none, that is noted.
    pub fn number(&self, offset: usize, out: &Answer) -> usize {
        match decimal(self.at(offset)) {
            Ok(number) => number,
            Err(fail) => {
                out.fail(fail);
                0
            }
        }
    }

    /// A decimal number of 16 bits, as a type or a class. If the field is none, that is noted.
    pub fn number16(&self, offset: usize, out: &Answer) -> u16 {
        number_up_to(out, self.at(offset), 65535) as u16
    }
}

/// Whether a field is the word that is looked for.
pub fn is(word: &[u8], known: &[u8]) -> bool {
    word == known
}

/// The octets before a sign and those after it, `None` if the sign isn't there.
pub fn split_once(octets: &[u8], sign: u8) -> (&[u8], Option<&[u8]>) {
    let mut len = octets.len();
    for (at, octet) in octets.iter().enumerate() {
        if *octet == sign {
            len = at;
            break;
        }
    }
    if len >= octets.len() {
        return (octets, None);
    }
    let (field, rest) = octets.split_at(len);
    (field, rest.get(1..))
}

/// Octets: a minus sign for none, or parts with a plus sign between, each hexadecimal digits or `zeros:LEN`.
pub fn octets_of(field: &[u8], alloc: Global) -> Result<Vec<u8>, Fail> {
    let mut octets = Vec::new(alloc);
    if is(field, b"-") {
        return Ok(octets);
    }
    for part in field.split(|octet| *octet == b'+') {
        let (digits, len) = split_once(part, b':');
        match len {
            Some(len) => push_zeros(&mut octets, digits, len)?,
            None => push_digits(&mut octets, digits)?,
        }
    }
    Ok(octets)
}

fn push_zeros(octets: &mut Vec<u8>, word: &[u8], len: &[u8]) -> Result<(), Fail> {
    let len = decimal(len)?;
    if !is(word, b"zeros") || len > MOST {
        return Err(Fail::Bad);
    }
    let len = octets.len().saturating_add(len);
    match octets.resize(len, 0) {
        Ok(()) => Ok(()),
        Err(_) => Err(Fail::Memory),
    }
}

fn push_digits(octets: &mut Vec<u8>, digits: &[u8]) -> Result<(), Fail> {
    if digits.is_empty() || digits.len() % 2 != 0 {
        return Err(Fail::Bad);
    }
    let mut high: Option<u8> = None;
    for digit in digits {
        let value = digit_value(*digit).ok_or(Fail::Bad)?;
        match high {
            None => high = Some(value),
            Some(top) => {
                let octet = top.wrapping_mul(16).wrapping_add(value);
                if octets.push(octet).is_err() {
                    return Err(Fail::Memory);
                }
                high = None;
            }
        }
    }
    Ok(())
}

/// A length, which can be larger than the numbers that `decimal` reads.
pub fn length_of(field: &[u8]) -> Option<usize> {
    str::from_utf8(field).ok()?.parse::<usize>().ok()
}

/// A decimal number of at most 15 digits.
pub fn decimal(field: &[u8]) -> Result<usize, Fail> {
    if field.is_empty() || field.len() > 15 {
        return Err(Fail::Bad);
    }
    let mut number: usize = 0;
    for digit in field {
        let value = digit.wrapping_sub(b'0');
        if value > 9 {
            return Err(Fail::Bad);
        }
        number = number.saturating_mul(10).saturating_add(usize::from(value));
    }
    Ok(number)
}

/// A decimal number up to this one. If the field is none, that is noted.
pub fn number_up_to(out: &Answer, field: &[u8], most: usize) -> usize
    ensures { result ≤ most }
{
    match decimal(field) {
        Ok(number) => {
            if number <= most {
                return number;
            }
            out.fail(Fail::Bad);
        }
        Err(fail) => out.fail(fail),
    }
    0
}

fn digit_value(digit: u8) -> Option<u8> {
    match digit {
        b'0'..=b'9' => Some(digit.wrapping_sub(b'0')),
        b'a'..=b'f' => Some(digit.wrapping_sub(b'a').wrapping_add(10)),
        _ => None,
    }
}

//! Octets that are written in hexadecimal digits.
ghost use Rattle.std.specs.Prelude.{◌+◌, ◌<◌, ◌≤◌, ◌↔◌, length, take, drop, slice_index, Some, IfOk, IfErr, IfSome, IsNone, IsTrue, OnOk};
ghost use Rattle.dnswalk.specs.Hexadecimal.{IsWhite, IsHexDigit, IsNoHexDigit, BeginsWithHexOctet, BeginsWithNone};
ghost use Rattle.dnswalk.specs.Hexadecimal.{IsHexText, start, IsHexFault, hex_error_text};

use std::error::Error;
use std::fmt;

/// What is wrong with a text that isn't octets in hexadecimal digits.
#[derive(Clone, Copy, Debug, PartialEq, Eq)]
pub enum HexFault {
    /// An octet that is neither a hexadecimal digit nor white space.
    NoDigit,
    /// A digit that no other digit follows, so half an octet.
    LoneDigit,
}

/// What is wrong with such a text, and where: in which line, and at which octet of it, both counted from 1.
#[derive(Clone, Copy, Debug, PartialEq, Eq)]
pub struct HexError {
    fault: HexFault,
    line: usize,
    column: usize,
}

impl fmt::Display for HexError {
    ghost output = { λ e. Some (hex_error_text e.fault e.line e.column) };

    fn fmt<W: fmt::Write>(&self, f: &mut fmt::Formatter<W>) -> fmt::Result {
        let (line, column) = (self.line, self.column);
        match self.fault {
            HexFault::NoDigit => write!(
                f,
                "line {line}, column {column}: neither a hexadecimal digit nor white space"
            ),
            HexFault::LoneDigit => write!(
                f,
                "line {line}, column {column}: a hexadecimal digit without a second one"
            ),
        }
    }
}

impl Error for HexError {}

/// Whether the octet is a space, a tab, a line feed or a carriage return.
fn is_white(octet: u8) -> bool
    ensures { IsTrue result ↔ IsWhite octet }
{
    octet == b' ' || octet == b'\t' || octet == b'\n' || octet == b'\r'
}

/// The number that a digit stands for.
fn digit_of(octet: u8) -> Option<u8>
    ensures some { IfSome result (λ x. IsHexDigit octet x) }
    ensures none { IsNone result → IsNoHexDigit octet }
{
    match octet {
        b'0'..=b'9' => Some(octet - b'0'),
        b'a'..=b'f' => Some(octet - b'a' + 10),
        b'A'..=b'F' => Some(octet - b'A' + 10),
        _ => None,
    }
}

/// The octet whose two digits begin at an offset, where no white space is; or what is wrong, and how many octets after
/// the offset.
fn octet_at(text: &[u8], at: usize) -> Result<u8, (HexFault, usize)>
    requires inside { at < length text.now }
    requires dark { IsWhite (slice_index text.now at) → ⊥ }
    ensures ok { IfOk result (λ x. BeginsWithHexOctet (drop at text.now) x) }
    ensures whole { OnOk result (at + 2 ≤ length text.now) }
    ensures err { IfErr result (λ e. BeginsWithNone (drop at text.now) e.0 e.1) }
    ensures near { IfErr result (λ e. at + e.1 < length text.now) }
{
    let Some(high) = digit_of(text[at]) else {
        return Err((HexFault::NoDigit, 0));
    };
    if text.len() - at < 2 {
        return Err((HexFault::LoneDigit, 0));
    }
    let second = text[at + 1];
    match digit_of(second) {
        Some(low) => Ok(high * 16 + low),
        None if is_white(second) => Err((HexFault::LoneDigit, 0)),
        None => Err((HexFault::NoDigit, 1)),
    }
}

/// Reads octets in hexadecimal digits, two for each and white space between, and writes them over the text from its
/// start. Returns how many they are. Line feeds end lines.
///
/// An error says what is wrong with the text and where; what the text is then isn't said.
pub(crate) fn read_octets(text: &mut [u8]) -> Result<usize, HexError>
    ensures few { IfOk result (λ n. n ≤ length text.new) }
    ensures ok { IfOk result (λ n. IsHexText text.old (take n text.new)) }
    ensures err { IfErr result (λ e. IsHexFault start text.old e.fault e.line e.column) }
{
    let (mut at, mut count) = (0, 0);
    let (mut line, mut column) = (0, 0);
    while at < text.len() {
        let octet = text[at];
        if is_white(octet) {
            if octet == b'\n' {
                line += 1;
                column = 0;
            } else {
                column += 1;
            }
            at += 1;
        } else {
            match octet_at(text, at) {
                Ok(read) => text[count] = read,
                Err((fault, skip)) => {
                    return Err(HexError {
                        fault,
                        line: line + 1,
                        column: column + 1 + skip,
                    });
                }
            }
            count += 1;
            column += 2;
            at += 2;
        }
    }
    Ok(count)
}

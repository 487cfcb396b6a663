//! The text of a line, and the names of reasons.

use conformance_labels::{Answer, Fail, is, octets_of, split_once};
use std::fmt::Debug;

/// What a line has after this many fields, each with a space after it. If it hasn't so many, that is noted.
fn rest_of<'a>(out: &Answer, line: &'a [u8], count: usize) -> &'a [u8] {
    let mut rest = line;
    for _ in 0..count {
        let (_, after) = split_once(rest, b' ');
        match after {
            Some(after) => rest = after,
            None => {
                out.fail(Fail::Bad);
                return b"";
            }
        }
    }
    rest
}

/// The text that a line has after this many fields: the rest of the line, or the octets whose digits follow `hex:`. If
/// it hasn't so many fields, or the digits are none, that is noted.
pub fn text_of(out: &Answer, line: &[u8], count: usize) -> Vec<u8> {
    let rest = rest_of(out, line, count);
    let (word, digits) = split_once(rest, b':');
    match digits {
        Some(digits) => {
            if !is(word, b"hex") {
                return out.copy_of(rest);
            }
            match octets_of(digits, out.alloc()) {
                Ok(octets) => octets,
                Err(fail) => {
                    out.fail(fail);
                    Vec::new(out.alloc())
                }
            }
        }
        None => out.copy_of(rest),
    }
}

/// Appends a space before each item but the first.
pub fn put_space(out: &Answer, is_first: &mut bool) {
    if !*is_first {
        out.put(b" ");
    }
    *is_first = false;
}

/// Appends a word, and the name of a variant.
pub fn put_variant<D: Debug + Drop>(out: &Answer, word: &[u8], value: D) {
    out.put(word);
    match format!(in out.alloc(); "{value:?}") {
        Ok(text) => out.put(text.as_bytes()),
        Err(_) => out.fail(Fail::Memory),
    }
}

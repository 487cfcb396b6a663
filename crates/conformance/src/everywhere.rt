//! Names read and passed over at every offset, with the parser's end at every later one.

use crate::slow_reader::{SlowName, read_slowly, skip_slowly};
use arrayvec::ArrayVec;
use conformance_labels::{Answer, parser_at};
use domain_list::NameLabels;
use domain_parsed::ParsedName;

/// `everywhere MSG`: the number of pairs of an offset and an end, if `parse` and `skip` answer at each as the slow
/// reader does. Otherwise the first pair where one of them doesn't, and what differs.
pub fn put_everywhere(out: &Answer, message: &[u8]) {
    let mut pairs: usize = 0;
    for end in 0..message.len().saturating_add(1) {
        if let Some((offset, what)) = first_difference(message, end) {
            out.put_number(offset);
            out.put_number_after(b" ", end);
            return out.put_text_after(b" ", what);
        }
        pairs = pairs.saturating_add(end).saturating_add(1);
    }
    out.put_number(pairs);
}

/// The first offset where an answer differs, and what differs there. The octets from the end on don't count.
fn first_difference(message: &[u8], end: usize) -> Option<(usize, &'static str)> {
    for offset in 0..end.saturating_add(1) {
        if let Some(what) = difference_at(message, offset, end) {
            return Some((offset, what));
        }
    }
    None
}

fn difference_at(message: &[u8], offset: usize, end: usize) -> Option<&'static str> {
    let Some(before) = message.get(..end) else {
        return Some("end");
    };
    match parse_difference(message, before, offset) {
        None => skip_difference(message, before, offset),
        what => what,
    }
}

/// What `parse` answers otherwise than the slow reader. That one has only the octets before the end.
fn parse_difference(message: &[u8], before: &[u8], offset: usize) -> Option<&'static str> {
    let Some(mut parser) = parser_at(message, offset, before.len()) else {
        return Some("parser");
    };
    match (ParsedName::parse(&mut parser), read_slowly(before, offset)) {
        (Ok(name), Ok(slow)) => name_difference(&name, parser.pos(), &slow),
        (Err(error), Err(fault)) => {
            if error != fault {
                Some("error of parse")
            } else if parser.pos() != offset {
                Some("parser after a refused parse")
            } else {
                None
            }
        }
        _ => Some("parse"),
    }
}

fn name_difference(name: &ParsedName<&[u8]>, end: usize, slow: &SlowName) -> Option<&'static str> {
    if !has_labels(name, slow.octets.as_slice()) {
        Some("labels")
    } else if usize::from(name.compose_len()) != slow.octets.len() {
        Some("compose_len")
    } else if name.is_compressed() != slow.is_compressed {
        Some("is_compressed")
    } else if slow.behind != Some(end) {
        Some("parser after parse")
    } else {
        None
    }
}

/// Whether the labels of a name, each after its length, are these octets.
fn has_labels(name: &ParsedName<&[u8]>, octets: &[u8]) -> bool {
    let mut given = ArrayVec::<u8, 255>::new();
    for label in name.iter() {
        if label.compose(&mut given).is_err() {
            return false;
        }
    }
    given.as_slice() == octets
}

/// What `skip` answers otherwise than the slow reader.
fn skip_difference(message: &[u8], before: &[u8], offset: usize) -> Option<&'static str> {
    let Some(mut parser) = parser_at(message, offset, before.len()) else {
        return Some("parser");
    };
    match (ParsedName::skip(&mut parser), skip_slowly(before, offset)) {
        (Ok(()), Ok(behind)) if parser.pos() != behind => Some("parser after skip"),
        (Ok(()), Ok(_)) => None,
        (Err(error), Err(fault)) if error != fault => Some("error of skip"),
        (Err(_), Err(_)) if parser.pos() != offset => Some("parser after a refused skip"),
        (Err(_), Err(_)) => None,
        _ => Some("skip"),
    }
}

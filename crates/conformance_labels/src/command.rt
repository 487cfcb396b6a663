//! The words of these calls, by what comes after them.

use crate::address::put_address;
use crate::answer::Answer;
use crate::errors::put_labelerrors;
use crate::fields::{Fields, is};
use crate::labels::{put_label, put_slice};
use crate::numbers::{put_arrays, put_composevec, put_ints, put_signed, put_unsigned, put_whole};
use crate::octets::{put_append, put_from, put_truncate, put_write};
use crate::parser::put_calls;
use crate::serials::{put_add, put_serial};
use crate::split::{put_labelfill, put_labelmut, put_restfill, put_splitlabel, put_splitmut};

/// Answers a line whose word is one of these; else it is false.
pub fn answer_labels(fields: &Fields<'_>, out: &Answer) -> bool {
    answer_octets(fields, out)
        || answer_number(fields, out)
        || answer_pair(fields, out)
        || answer_digits(fields, out)
        || answer_long(fields, out)
}

/// `WORD OCTETS`
fn answer_octets(fields: &Fields<'_>, out: &Answer) -> bool {
    fields.expect(2, out);
    let octets = fields.octets(1, out);
    call_on_octets(fields.at(0), octets.as_slice(), out) || out.is_other_word()
}

/// The calls of `answer_octets`, by the word: false where it names none of them.
fn call_on_octets(word: &[u8], octets: &[u8], out: &Answer) -> bool {
    if is(word, b"splitlabel") {
        put_splitlabel(out, octets);
    } else if is(word, b"splitmut") {
        put_splitmut(out, octets);
    } else if is(word, b"labelmut") {
        put_labelmut(out, octets);
    } else if is(word, b"labelfill") {
        put_labelfill(out, octets);
    } else if is(word, b"restfill") {
        put_restfill(out, octets);
    } else if is(word, b"labelerrors") {
        put_labelerrors(out, octets);
    } else if is(word, b"from") {
        put_from(out, octets);
    } else if is(word, b"whole") {
        put_whole(out, octets);
    } else if is(word, b"address") {
        put_address(out, octets);
    } else {
        return false;
    }
    true
}

/// `WORD OCTETS NUMBER`
fn answer_number(fields: &Fields<'_>, out: &Answer) -> bool {
    fields.expect(3, out);
    let octets = fields.octets(1, out);
    let number = fields.number(2, out);
    call_on_number(fields.at(0), octets.as_slice(), number, out) || out.is_other_word()
}

/// The calls of `answer_number`, by the word: false where it names none of them.
fn call_on_number(word: &[u8], octets: &[u8], number: usize, out: &Answer) -> bool {
    if is(word, b"slice") {
        put_slice(out, octets, number);
    } else if is(word, b"ints") {
        put_ints(out, octets, number);
    } else if is(word, b"arrays") {
        put_arrays(out, octets, number);
    } else if is(word, b"truncate") {
        put_truncate(out, octets, number);
    } else {
        return false;
    }
    true
}

/// `WORD OCTETS OCTETS`
fn answer_pair(fields: &Fields<'_>, out: &Answer) -> bool {
    fields.expect(3, out);
    let first = fields.octets(1, out);
    let second = fields.octets(2, out);
    call_on_pair(fields.at(0), first.as_slice(), second.as_slice(), out) || out.is_other_word()
}

/// The calls of `answer_pair`, by the word: false where it names none of them.
fn call_on_pair(word: &[u8], first: &[u8], second: &[u8], out: &Answer) -> bool {
    if is(word, b"label") {
        put_label(out, first, second);
    } else if is(word, b"append") {
        put_append(out, first, second);
    } else if is(word, b"composevec") {
        put_composevec(out, first, second);
    } else {
        return false;
    }
    true
}

/// `WORD DIGITS DIGITS`
fn answer_digits(fields: &Fields<'_>, out: &Answer) -> bool {
    fields.expect(3, out);
    let first = fields.at(1);
    let second = fields.at(2);
    let word = fields.at(0);
    if is(word, b"signed") {
        let bits = fields.number(1, out);
        put_signed(out, bits, second);
    } else if is(word, b"unsigned") {
        let bits = fields.number(1, out);
        put_unsigned(out, bits, second);
    } else if is(word, b"serial") {
        put_serial(out, first, second);
    } else if is(word, b"add") {
        put_add(out, first, second);
    } else {
        return out.is_other_word();
    }
    true
}

/// `WORD OCTETS NUMBER`, and more
fn answer_long(fields: &Fields<'_>, out: &Answer) -> bool {
    let octets = fields.octets(1, out);
    let number = fields.number(2, out);
    call_on_fields(fields, octets.as_slice(), number, out) || out.is_other_word()
}

/// The calls of `answer_long`, by the word: false where it names none of them.
fn call_on_fields(fields: &Fields<'_>, octets: &[u8], number: usize, out: &Answer) -> bool {
    let word = fields.at(0);
    if is(word, b"write") {
        fields.expect(4, out);
        let written = fields.octets(3, out);
        put_write(out, octets, number, written.as_slice());
    } else if is(word, b"parser") {
        fields.expect(5, out);
        let end = fields.number(3, out);
        put_calls(out, octets, number, end, fields.at(4));
    } else {
        return false;
    }
    true
}

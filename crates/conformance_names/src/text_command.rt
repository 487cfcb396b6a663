//! The words of the calls on texts and builders, by what comes after them.

use crate::building::{put_absolute, put_build, put_buildaside, put_buildcap};
use crate::capacity::put_capacity;
use crate::error_texts::put_errors;
use crate::reverse::put_rev;
use crate::text::{put_labeltext, put_reltext, put_reltextroom, put_text, put_textroom};
use conformance_labels::{Answer, Fields, is};

/// Answers a line whose word is one of these; else it is false.
pub fn answer_texts(fields: &Fields<'_>, out: &Answer) -> bool {
    answer_octets(fields, out) || answer_room(fields, out) || answer_calls(fields, out)
}

/// `WORD OCTETS`
fn answer_octets(fields: &Fields<'_>, out: &Answer) -> bool {
    fields.expect(2, out);
    let octets = fields.octets(1, out);
    call_on_octets(fields.at(0), octets.as_slice(), out) || out.is_other_word()
}

/// The calls of `answer_octets`, by the word: false where it names none of them.
fn call_on_octets(word: &[u8], octets: &[u8], out: &Answer) -> bool {
    if is(word, b"text") {
        put_text(out, octets);
    } else if is(word, b"reltext") {
        put_reltext(out, octets);
    } else if is(word, b"labeltext") {
        put_labeltext(out, octets);
    } else if is(word, b"rev") {
        put_rev(out, octets);
    } else if is(word, b"absolute") {
        put_absolute(out, octets);
    } else {
        return false;
    }
    true
}

/// `WORD OCTETS NUMBER`
fn answer_room(fields: &Fields<'_>, out: &Answer) -> bool {
    fields.expect(3, out);
    let octets = fields.octets(1, out);
    let number = fields.number(2, out);
    call_on_room(fields.at(0), octets.as_slice(), number, out) || out.is_other_word()
}

/// The calls of `answer_room`, by the word: false where it names none of them.
fn call_on_room(word: &[u8], octets: &[u8], number: usize, out: &Answer) -> bool {
    if is(word, b"textroom") {
        put_textroom(out, octets, number);
    } else if is(word, b"reltextroom") {
        put_reltextroom(out, octets, number);
    } else {
        return false;
    }
    true
}

/// `WORD` with fields that aren't octets
fn answer_calls(fields: &Fields<'_>, out: &Answer) -> bool {
    let word = fields.at(0);
    if is(word, b"build") {
        fields.expect(2, out);
        put_build(out, fields.at(1));
    } else if is(word, b"buildcap") {
        fields.expect(3, out);
        let room = fields.number(1, out);
        put_buildcap(out, room, fields.at(2));
    } else if is(word, b"buildaside") {
        fields.expect(4, out);
        put_buildaside(out, fields.at(1), fields.at(2), fields.at(3));
    } else if is(word, b"capacity") {
        fields.expect(2, out);
        put_capacity(out, fields.at(1));
    } else if is(word, b"errors") {
        fields.expect(1, out);
        put_errors(out);
    } else {
        return out.is_other_word();
    }
    true
}

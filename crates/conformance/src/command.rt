//! The words of these calls, by what comes after them.

use crate::compress::{put_compressed, put_compressedcap};
use crate::everywhere::put_everywhere;
use crate::message::{
    put_after, put_limited, put_mixture, put_nparse, put_parentswalk, put_parse, put_rest,
    put_skip, put_walk,
};
use crate::names::{
    put_fromflat, put_parsed_canonical, put_parsed_forms, put_pchain, put_pcmp, put_pname,
    put_prel, put_room, put_sized,
};
use crate::onto::put_onto;
use crate::records::{put_lengths, put_longdata, put_rdata, put_rdatacmp};
use conformance_labels::{Answer, Fields, is};

/// Answers a line whose word is one of these; else it is false.
pub fn answer_parsed(fields: &Fields<'_>, out: &Answer) -> bool {
    answer_message(fields, out)
        || answer_offset(fields, out)
        || answer_offsets(fields, out)
        || answer_beside(fields, out)
        || answer_long(fields, out)
        || answer_data(fields, out)
        || answer_calls(fields, out)
}

/// `WORD OCTETS OFFSET`, and maybe an end
fn answer_message(fields: &Fields<'_>, out: &Answer) -> bool {
    let octets = fields.octets(1, out);
    let offset = fields.number(2, out);
    let mut end = octets.len();
    if fields.count() != 3 {
        fields.expect(4, out);
        end = fields.number(3, out);
    }
    call_on_message(fields.at(0), octets.as_slice(), offset, end, out) || out.is_other_word()
}

/// The calls of `answer_message`, by the word: false where it names none of them.
fn call_on_message(word: &[u8], octets: &[u8], offset: usize, end: usize, out: &Answer) -> bool {
    if is(word, b"parse") {
        put_parse(out, octets, offset, end);
    } else if is(word, b"skip") {
        put_skip(out, octets, offset, end);
    } else if is(word, b"nparse") {
        put_nparse(out, octets, offset, end);
    } else if is(word, b"walk") {
        put_walk(out, octets, offset, end);
    } else {
        return false;
    }
    true
}

/// `WORD OCTETS NUMBER`
fn answer_offset(fields: &Fields<'_>, out: &Answer) -> bool {
    fields.expect(3, out);
    let octets = fields.octets(1, out);
    let offset = fields.number(2, out);
    call_at_offset(fields.at(0), octets.as_slice(), offset, out) || out.is_other_word()
}

/// The calls of `answer_offset`, by the word: false where it names none of them.
fn call_at_offset(word: &[u8], octets: &[u8], offset: usize, out: &Answer) -> bool {
    if is(word, b"parentswalk") {
        put_parentswalk(out, octets, offset);
    } else if is(word, b"pforms") {
        put_parsed_forms(out, octets, offset);
    } else if is(word, b"fromflat") {
        put_fromflat(out, octets, offset);
    } else {
        return false;
    }
    true
}

/// `WORD OCTETS NUMBER NUMBER`
fn answer_offsets(fields: &Fields<'_>, out: &Answer) -> bool {
    fields.expect(4, out);
    let octets = fields.octets(1, out);
    let first = fields.number(2, out);
    let second = fields.number(3, out);
    call_at_offsets(fields.at(0), octets.as_slice(), first, second, out) || out.is_other_word()
}

/// The calls of `answer_offsets`, by the word: false where it names none of them.
fn call_at_offsets(word: &[u8], octets: &[u8], first: usize, second: usize, out: &Answer) -> bool {
    if is(word, b"parselimit") {
        put_limited(out, octets, first, second);
    } else if is(word, b"rest") {
        put_rest(out, octets, first, second);
    } else if is(word, b"pcmp") {
        put_pcmp(out, octets, first, second);
    } else if is(word, b"pcanonical") {
        put_parsed_canonical(out, octets, first, second);
    } else if is(word, b"room") {
        put_room(out, octets, first, second);
    } else if is(word, b"sized") {
        put_sized(out, octets, first, second);
    } else {
        return false;
    }
    true
}

/// `WORD OCTETS OFFSET OCTETS`
fn answer_beside(fields: &Fields<'_>, out: &Answer) -> bool {
    fields.expect(4, out);
    let octets = fields.octets(1, out);
    let offset = fields.number(2, out);
    let other = fields.octets(3, out);
    call_on_beside(
        fields.at(0),
        octets.as_slice(),
        offset,
        other.as_slice(),
        out,
    ) || out.is_other_word()
}

/// The calls of `answer_beside`, by the word: false where it names none of them.
fn call_on_beside(word: &[u8], octets: &[u8], offset: usize, other: &[u8], out: &Answer) -> bool {
    if is(word, b"pname") {
        put_pname(out, octets, offset, other);
    } else if is(word, b"prel") {
        put_prel(out, octets, offset, other);
    } else {
        return false;
    }
    true
}

/// `WORD OCTETS OFFSET` with two fields more
fn answer_long(fields: &Fields<'_>, out: &Answer) -> bool {
    fields.expect(5, out);
    let octets = fields.octets(1, out);
    let offset = fields.number(2, out);
    call_on_fields(fields, octets.as_slice(), offset, out) || out.is_other_word()
}

/// The calls of `answer_long`, by the word: false where it names none of them.
fn call_on_fields(fields: &Fields<'_>, octets: &[u8], offset: usize, out: &Answer) -> bool {
    let word = fields.at(0);
    if is(word, b"mixture") {
        let labels = fields.number(3, out);
        put_mixture(out, octets, offset, labels, fields.at(4));
    } else if is(word, b"after") {
        put_after(out, octets, offset, fields.at(3), fields.at(4));
    } else if is(word, b"pchain") {
        let left = fields.octets(3, out);
        let right = fields.octets(4, out);
        put_pchain(out, octets, offset, left.as_slice(), right.as_slice());
    } else {
        return false;
    }
    true
}

/// `WORD OCTETS`, or two
fn answer_data(fields: &Fields<'_>, out: &Answer) -> bool {
    let octets = fields.octets(1, out);
    call_on_data(fields, octets.as_slice(), out) || out.is_other_word()
}

/// The calls of `answer_data`, by the word: false where it names none of them.
fn call_on_data(fields: &Fields<'_>, octets: &[u8], out: &Answer) -> bool {
    let word = fields.at(0);
    if is(word, b"everywhere") {
        fields.expect(2, out);
        put_everywhere(out, octets);
    } else if is(word, b"rdata") {
        fields.expect(2, out);
        put_rdata(out, octets);
    } else if is(word, b"rdatacmp") {
        fields.expect(3, out);
        let other = fields.octets(2, out);
        put_rdatacmp(out, octets, other.as_slice());
    } else {
        return false;
    }
    true
}

/// `WORD` with fields that aren't octets
fn answer_calls(fields: &Fields<'_>, out: &Answer) -> bool {
    let word = fields.at(0);
    if is(word, b"compress") {
        fields.expect(2, out);
        put_compressed(out, fields.at(1));
    } else if is(word, b"compresscap") {
        fields.expect(3, out);
        let room = fields.number(1, out);
        put_compressedcap(out, room, fields.at(2));
    } else if is(word, b"onto") {
        fields.expect(4, out);
        let size = fields.number(1, out);
        let message = fields.octets(2, out);
        put_onto(out, size, message.as_slice(), fields.at(3));
    } else if is(word, b"longdata") {
        fields.expect(2, out);
        let len = fields.number(1, out);
        put_longdata(out, len);
    } else if is(word, b"lengths") {
        fields.expect(2, out);
        put_lengths(out, fields.at(1));
    } else {
        return out.is_other_word();
    }
    true
}

//! Record data as octets and as text.

use crate::text::{put_space, put_variant, text_of};
use conformance_labels::{Answer, Fail, Fields};
use domain_descriptor::{DataFault, Rdata};
use domain_rdata_text::{ReadError, place_of, read, show, split_words};

/// `read TYPE CLASS TEXT`: the octets of the data that the text says, or its first fault.
pub fn put_read(out: &Answer, line: &[u8]) {
    let fields = &Fields::new(line);
    let (rtype, class) = (fields.number16(1, out), fields.number16(2, out));
    let text = text_of(out, line, 3);
    match read(out.alloc(), rtype, class, text.as_slice()) {
        Ok(octets) => out.put_hex(octets.as_slice()),
        Err(error) => put_read_error(out, error),
    }
}

/// Appends why a text isn't read.
fn put_read_error(out: &Answer, error: ReadError) {
    match error {
        ReadError::Refused(fault) => {
            out.put_number_after(b"err ", fault.at);
            put_variant(out, b" ", fault.reason);
        }
        ReadError::Memory => out.fail(Fail::Memory),
    }
}

/// `words TEXT`: the words of the text, each with its offset, or its first fault.
pub fn put_words(out: &Answer, line: &[u8]) {
    let text = text_of(out, line, 1);
    match split_words(out.alloc(), text.as_slice()) {
        Ok(words) => {
            let mut is_first = true;
            for word in words.iter() {
                put_space(out, &mut is_first);
                out.put_number(word.begin);
                out.put_hex_after(b"/", word.octets.as_slice());
            }
            out.put_none(is_first);
        }
        Err(error) => put_read_error(out, error),
    }
}

/// `place AT TEXT`: the line and the column of an offset.
pub fn put_place(out: &Answer, line: &[u8]) {
    let fields = &Fields::new(line);
    let at = fields.number(1, out);
    let text = text_of(out, line, 2);
    let place = place_of(text.as_slice(), at);
    out.put_number(place.line);
    out.put_number_after(b" ", place.column);
}

/// `show TYPE CLASS OCTETS BEGIN`: the text of the data from an offset on, or the first error.
pub fn put_shown(out: &Answer, line: &[u8]) {
    let fields = &Fields::new(line);
    fields.expect(5, out);
    let (rtype, class) = (fields.number16(1, out), fields.number16(2, out));
    let octets = fields.octets(3, out);
    let begin = fields.number(4, out);
    if begin > octets.len() {
        return out.fail(Fail::Bad);
    }
    match Rdata::parse(rtype, class, octets.as_slice(), begin) {
        Ok(rdata) => put_text(out, &rdata),
        Err(DataFault::Name(fault)) => put_variant(out, b"err Name/", fault),
        Err(fault) => put_variant(out, b"err ", fault),
    }
}

/// Appends the text of data, which is appended to other text first.
fn put_text(out: &Answer, rdata: &Rdata<'_>) {
    let mut text = out.copy_of(b";");
    match show(out.alloc(), rdata, &mut text) {
        Ok(()) => match text.as_slice() {
            [b';', shown @ ..] => out.put(shown),
            _ => out.wrong(b"show"),
        },
        Err(_) => out.fail(Fail::Memory),
    }
}

//! Whether a message answers a query, and the answers that have data of one type.

use crate::data::{Read, put_name};
use conformance_labels::{Answer, Fail, Fields, is};
use domain_data::{A, Aaaa, Cname, Dname, Mx, Ns, Ptr, Soa, Srv};
use domain_message::{Message, Record};
use domain_rdata::ParseRecordData;
use domain_txt::Txt;
use std::fmt::Display;

/// More than any section counts.
const MOST: u32 = 65_537;

/// `answers QUERY MESSAGE`: whether the message answers the query.
pub fn put_is_answer(out: &Answer, fields: &Fields<'_>) {
    let query = fields.octets(1, out);
    let octets = fields.octets(2, out);
    let query = match Message::from_octets(query.as_slice()) {
        Ok(query) => query,
        Err(error) => return out.put_text_after(b"err ", error),
    };
    match Message::from_octets(octets.as_slice()) {
        Ok(message) => out.put_bit(b"", message.is_answer(&query)),
        Err(error) => out.put_text_after(b"err ", error),
    }
}

/// `limit WORD MESSAGE`: the answers with data of the type that the word tells, of any class and of the class IN.
pub fn put_limited(out: &Answer, fields: &Fields<'_>) {
    let octets = fields.octets(2, out);
    let message = match Message::from_octets(octets.as_slice()) {
        Ok(message) => message,
        Err(error) => return out.put_text_after(b"err ", error),
    };
    match message.answer() {
        Ok(_section) => put_of_type(out, fields.at(1), &message),
        Err(error) => out.put_text_after(b"err ", error),
    }
}

fn put_of_type<'a>(out: &Answer, word: &[u8], message: &'a Message<&'a [u8]>) {
    if is(word, b"a") {
        put_both::<A>(out, message);
    } else if is(word, b"aaaa") {
        put_both::<Aaaa>(out, message);
    } else if is(word, b"txt") {
        put_both::<Txt<&'a [u8]>>(out, message);
    } else {
        put_of_names(out, word, message);
    }
}

/// The types that have names in their data.
fn put_of_names<'a>(out: &Answer, word: &[u8], message: &'a Message<&'a [u8]>) {
    if is(word, b"ns") {
        put_both::<Ns<Read<'a>>>(out, message);
    } else if is(word, b"cname") {
        put_both::<Cname<Read<'a>>>(out, message);
    } else if is(word, b"ptr") {
        put_both::<Ptr<Read<'a>>>(out, message);
    } else if is(word, b"dname") {
        put_both::<Dname<Read<'a>>>(out, message);
    } else if is(word, b"mx") {
        put_both::<Mx<Read<'a>>>(out, message);
    } else if is(word, b"srv") {
        put_both::<Srv<Read<'a>>>(out, message);
    } else if is(word, b"soa") {
        put_both::<Soa<Read<'a>>>(out, message);
    } else {
        out.fail(Fail::Bad);
    }
}

fn put_both<'a, D: ParseRecordData<'a> + Display + Drop>(
    out: &Answer,
    message: &'a Message<&'a [u8]>,
) {
    out.put(b"any=");
    put_records::<D>(out, message, false);
    out.put(b" in=");
    put_records::<D>(out, message, true);
}

/// The records up to the last, or to the first error. After that there are no more.
fn put_records<'a, D: ParseRecordData<'a> + Display + Drop>(
    out: &Answer,
    message: &'a Message<&'a [u8]>,
    only_in: bool,
) {
    let Ok(section) = message.answer() else {
        return out.agree(false, b"answer");
    };
    let mut left = if only_in {
        section.limit_to_in::<D>()
    } else {
        section.limit_to::<D>()
    };
    for _record in 0..MOST {
        match left.next() {
            Some(Ok(record)) => put_record(out, &record),
            Some(Err(error)) => out.put_text_after(b"err ", error),
            None => break,
        }
        out.put(b";");
    }
    out.agree(left.next().is_none(), b"next");
}

fn put_record<'a, D: Display>(out: &Answer, record: &Record<Read<'a>, D>) {
    put_name(out, b"", record.owner());
    out.put_text_after(b"/", record.class());
    out.put_text_after(b"/", record.ttl());
    out.put_text_after(b"/", record.data());
}

//! The conformance table of messages: reads calls from standard input, one a line, makes them, and prints one line of
//! answer for each.
//!
//! README.md lists the lines and the answers.
#![tactic(auto)]

mod compose;
mod data;
mod header;
mod message;
mod order;
mod rebuild;
mod select;
mod text;
mod typed;

use crate::compose::put_composed;
use crate::data::put_data;
use crate::header::{put_class, put_header, put_written_header};
use crate::message::put_message;
use crate::order::put_order;
use crate::rebuild::put_rebuilt;
use crate::select::{put_is_answer, put_limited};
use crate::text::put_from_text;
use conformance_labels::{Answer, Fail, Fields, Table, answer_table, is};
use std::process::ExitCode;

struct MessageTable;

impl Table for MessageTable {
    fn respond(line: &[u8], out: &Answer) {
        let fields = &Fields::new(line);
        let word = fields.at(0);
        if is(word, b"data") || is(word, b"any") || is(word, b"typed") {
            fields.expect(5, out);
            put_data(out, fields);
        } else if is(word, b"order") {
            fields.expect(5, out);
            put_order(out, fields);
        } else if is(word, b"write") {
            fields.expect(3, out);
            put_written_header(out, fields);
        } else if is(word, b"text") {
            fields.expect(4, out);
            put_from_text(out, fields);
        } else if is(word, b"answers") {
            fields.expect(3, out);
            put_is_answer(out, fields);
        } else if is(word, b"limit") {
            fields.expect(3, out);
            put_limited(out, fields);
        } else {
            fields.expect(2, out);
            respond_to_octets(word, fields.octets(1, out).as_slice(), out);
        }
    }
}

/// A word with octets after it.
fn respond_to_octets(word: &[u8], octets: &[u8], out: &Answer) {
    if is(word, b"header") {
        put_header(out, octets);
    } else if is(word, b"message") {
        put_message(out, octets);
    } else if is(word, b"compose") {
        put_composed(out, octets);
    } else if is(word, b"class") {
        put_class(out, octets);
    } else if is(word, b"rebuild") {
        put_rebuilt(out, octets);
    } else {
        out.fail(Fail::Bad);
    }
}

fn main(rt: HostRuntime) -> ExitCode {
    answer_table::<MessageTable>(&rt)
}

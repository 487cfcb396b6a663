//! What a message has: questions, records, and the end of its CNAME chain.

use crate::data::put_name;
use conformance_labels::Answer;
use domain_message::{Message, ParsedRecord, Question, QuestionSection, RecordSection};
use domain_parsed::ParsedName;
use domain_wire::ParseError;

/// More than any section counts.
const MOST: u32 = 65_537;

/// `message OCTETS`
pub fn put_message(out: &Answer, octets: &[u8]) {
    let message = match Message::from_octets(octets) {
        Ok(message) => message,
        Err(error) => return out.put_text_after(b"err ", error),
    };
    put_questions(out, message.question());
    put_section(out, b" answer=", message.answer());
    put_section(out, b" authority=", message.authority());
    put_section(out, b" additional=", message.additional());
    match message.sole_question() {
        Ok(question) => put_question(out, b" sole=", &question),
        Err(error) => out.put_text_after(b" sole=err ", error),
    }
    match message.first_question() {
        Some(question) => put_question(out, b" first=", &question),
        None => out.put(b" first=none"),
    }
    match message.canonical_name(u16::MAX) {
        Some(name) => put_name(out, b" canonical=", &name),
        None => out.put(b" canonical=none"),
    }
}

/// The questions up to the last, or to the error of the one that is missing, and the offset after them.
fn put_questions(out: &Answer, section: QuestionSection<'_>) {
    let mut left = section;
    out.put(b"question=");
    for _question in 0..MOST {
        match left.next() {
            Some(Ok(question)) => put_question(out, b"", &question),
            Some(Err(error)) => out.put_text_after(b"err ", error),
            None => break,
        }
        out.put(b";");
    }
    out.put_text_after(b"@", left.pos());
    match (section.answer(), left.answer()) {
        (Ok(one), Ok(other)) => out.agree(is_same_section(&one, &other), b"answer"),
        (Err(one), Err(other)) => out.agree(one == other, b"answer"),
        _ => out.agree(false, b"answer"),
    }
}

fn put_question(out: &Answer, word: &[u8], question: &Question<ParsedName<&[u8]>>) {
    put_name(out, word, question.qname());
    out.put_text_after(b"/", question.qtype().to_int());
    out.put_text_after(b"/", question.qclass());
}

/// The records of a section up to the last, or to the error of the one that is missing, and the offset after them.
fn put_section(out: &Answer, word: &[u8], section: Result<RecordSection<'_>, ParseError>) {
    out.put(word);
    let section = match section {
        Ok(section) => section,
        Err(error) => return out.put_text_after(b"err ", error),
    };
    let mut left = section;
    for _record in 0..MOST {
        match left.next() {
            Some(Ok(record)) => put_record(out, &record),
            Some(Err(error)) => out.put_text_after(b"err ", error),
            None => break,
        }
        out.put(b";");
    }
    out.put_text_after(b"@", left.pos());
    match (section.next_section(), left.next_section()) {
        (Ok(Some(one)), Ok(Some(other))) => {
            out.agree(is_same_section(&one, &other), b"next_section");
        }
        (Ok(None), Ok(None)) => {}
        (Err(one), Err(other)) => out.agree(one == other, b"next_section"),
        _ => out.agree(false, b"next_section"),
    }
}

fn is_same_section(one: &RecordSection<'_>, other: &RecordSection<'_>) -> bool {
    one.pos() == other.pos() && one.section() == other.section()
}

/// A record, with the offset and the length of its data.
fn put_record(out: &Answer, record: &ParsedRecord<'_>) {
    let data = record.data();
    put_name(out, b"", &record.owner());
    out.put_text_after(b"/", record.rtype().to_int());
    out.put_text_after(b"/", record.class());
    out.put_text_after(b"/", record.ttl());
    out.put_text_after(b"/", data.pos());
    out.put_text_after(b"+", data.remaining());
    out.agree(usize::from(record.rdlen()) == data.remaining(), b"rdlen");
}

//! A message that is read, and built anew.

use conformance_labels::Answer;
use domain_any_rdata::AllRecordData;
use domain_compress::CompressComposer;
use domain_message::{Message, ParsedRecord, Record, RecordSection, Section};
use domain_message_builder::MessageBuilder;
use domain_wire::ParseError;
use octseq::Octets;
use std::fmt::Display;

/// What a message is composed into, with names written shorter.
type Target = CompressComposer<Vec<u8>>;

/// `rebuild OCTETS`: the octets of the message that is built of the entries that are read.
pub fn put_rebuilt(out: &Answer, octets: &[u8]) {
    if let Some(made) = rebuilt(out, octets) {
        out.put_hex(Octets::as_slice(&made));
    }
}

fn rebuilt(out: &Answer, octets: &[u8]) -> Option<Target> {
    let message = match Message::from_octets(octets) {
        Ok(message) => message,
        Err(error) => return nothing(out, error),
    };
    let target = CompressComposer::new(Vec::new(out.alloc()));
    let mut made = match MessageBuilder::from_target(target) {
        Ok(made) => made,
        Err(error) => return nothing(out, error),
    };
    made.set_header(message.header());
    if !push_all(out, &message, &mut made) {
        return None;
    }
    out.agree(made.counts() == message.header_counts(), b"counts");
    let len = made.len();
    let octets = made.finish();
    out.agree(Octets::as_slice(&octets).len() == len, b"len");
    Some(octets)
}

fn nothing<E: Display + Drop>(out: &Answer, error: E) -> Option<Target> {
    out.put_text_after(b"err ", error);
    None
}

/// Whether each entry was read and pushed. If one wasn't, the error is the answer.
fn push_all(out: &Answer, message: &Message<&[u8]>, made: &mut MessageBuilder<Target>) -> bool {
    push_questions(out, message, made)
        && push_section(out, Section::Answer, message.answer(), made)
        && push_section(out, Section::Authority, message.authority(), made)
        && push_section(out, Section::Additional, message.additional(), made)
}

fn push_questions(
    out: &Answer,
    message: &Message<&[u8]>,
    made: &mut MessageBuilder<Target>,
) -> bool {
    for item in message.question() {
        let question = match item {
            Ok(question) => question,
            Err(error) => return is_refused(out, error),
        };
        if let Err(error) = made.push_question(&question) {
            return is_refused(out, error);
        }
    }
    true
}

fn push_section(
    out: &Answer,
    section: Section,
    records: Result<RecordSection<'_>, ParseError>,
    made: &mut MessageBuilder<Target>,
) -> bool {
    let records = match records {
        Ok(records) => records,
        Err(error) => return is_refused(out, error),
    };
    for item in records {
        match item {
            Ok(found) => {
                if !push_record(out, section, &found, made) {
                    return false;
                }
            }
            Err(error) => return is_refused(out, error),
        }
    }
    true
}

fn is_refused<E: Display + Drop>(out: &Answer, error: E) -> bool {
    out.put_text_after(b"err ", error);
    false
}

/// Pushes a record, its data by its type and class.
fn push_record(
    out: &Answer,
    section: Section,
    found: &ParsedRecord<'_>,
    made: &mut MessageBuilder<Target>,
) -> bool {
    let mut left = found.data();
    let data = match AllRecordData::parse_in(found.rtype(), found.class(), &mut left) {
        Ok(data) => data,
        Err(error) => return is_refused(out, error),
    };
    let record = Record::new(found.owner(), found.class(), found.ttl(), data);
    match made.push(section, &record) {
        Ok(()) => true,
        Err(error) => is_refused(out, error),
    }
}

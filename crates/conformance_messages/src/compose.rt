//! A message that is read, and composed anew.

use crate::data::Read;
use conformance_labels::{Answer, Fail};
use domain_compress::CompressComposer;
use domain_data::{A, Aaaa, Cname, Dname, Mx, Ns, Ptr, Soa, Srv};
use domain_header::HeaderSection;
use domain_message::{Message, ParsedRecord, Record, RecordSection};
use domain_rdata::{ComposeRecordData, Composer, ParseRecordData, UnknownRecordData};
use domain_wire::ParseError;
use octseq::{Octets, OctetsBuilder};

/// `compose OCTETS`: the message in a target that compresses no name, and in one that does.
pub fn put_composed(out: &Answer, octets: &[u8]) {
    let message = match Message::from_octets(octets) {
        Ok(message) => message,
        Err(error) => return out.put_text_after(b"err ", error),
    };
    let mut plain: Vec<u8> = Vec::new(out.alloc());
    let mut compressed = CompressComposer::new(Vec::new(out.alloc()));
    if compose_message(out, &message, &mut plain)
        && compose_message(out, &message, &mut compressed)
    {
        out.put(b"ok ");
        out.put_hex(plain.as_slice());
        out.put(b" ");
        out.put_hex(Octets::as_slice(&compressed));
    }
}

/// Composes the header, the questions and all records. If one can't be read, its error is the answer, and it is false.
fn compose_message<T: Composer>(out: &Answer, message: &Message<&[u8]>, target: &mut T) -> bool {
    let mut header = [0u8; 12];
    let section = HeaderSection::new(message.header(), message.header_counts());
    out.agree(section.write(&mut header).is_ok(), b"HeaderSection::write");
    if target.append_slice(&header).is_err() {
        out.fail(Fail::Memory);
    }
    for item in message.question() {
        match item {
            Ok(question) => {
                if question.compose(target).is_err() {
                    out.fail(Fail::Memory);
                }
            }
            Err(error) => return is_refused(out, error),
        }
    }
    compose_section(out, message.answer(), target)
        && compose_section(out, message.authority(), target)
        && compose_section(out, message.additional(), target)
}

fn compose_section<T: Composer>(
    out: &Answer,
    section: Result<RecordSection<'_>, ParseError>,
    target: &mut T,
) -> bool {
    let section = match section {
        Ok(section) => section,
        Err(error) => return is_refused(out, error),
    };
    for item in section {
        match item {
            Ok(found) => {
                if !compose_record(out, &found, target) {
                    return false;
                }
            }
            Err(error) => return is_refused(out, error),
        }
    }
    true
}

fn is_refused(out: &Answer, error: ParseError) -> bool {
    out.put_text_after(b"err ", error);
    false
}

fn compose_record<T: Composer>(out: &Answer, found: &ParsedRecord<'_>, target: &mut T) -> bool {
    match found.rtype().to_int() {
        1 => compose_as::<A, T>(out, found, target),
        2 => compose_as::<Ns<Read<'_>>, T>(out, found, target),
        5 => compose_as::<Cname<Read<'_>>, T>(out, found, target),
        6 => compose_as::<Soa<Read<'_>>, T>(out, found, target),
        12 => compose_as::<Ptr<Read<'_>>, T>(out, found, target),
        15 => compose_as::<Mx<Read<'_>>, T>(out, found, target),
        28 => compose_as::<Aaaa, T>(out, found, target),
        33 => compose_as::<Srv<Read<'_>>, T>(out, found, target),
        39 => compose_as::<Dname<Read<'_>>, T>(out, found, target),
        _ => compose_as::<UnknownRecordData<&[u8]>, T>(out, found, target),
    }
}

fn compose_as<'a, D: ParseRecordData<'a> + ComposeRecordData + Drop, T: Composer>(
    out: &Answer,
    found: &ParsedRecord<'a>,
    target: &mut T,
) -> bool {
    let mut left = found.data();
    match D::parse_rdata(found.rtype(), &mut left) {
        Ok(Some(data)) => {
            let record = Record::new(found.owner(), found.class(), found.ttl(), data);
            if record.compose(target).is_err() {
                out.fail(Fail::Memory);
            }
            true
        }
        Ok(None) => {
            out.agree(false, b"parse_rdata");
            false
        }
        Err(error) => is_refused(out, error),
    }
}

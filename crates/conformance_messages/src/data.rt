//! Record data by its type.

use crate::typed::put_typed;
use conformance_labels::{Answer, Fail, Fields, is};
use domain_any_rdata::AllRecordData;
use domain_data::{A, Aaaa, Cname, Dname, Mx, Ns, Ptr, Soa, Srv};
use domain_parsed::ParsedName;
use domain_rdata::{CanonicalRecordData, ParseAnyRecordData, ParseRecordData, RecordData, Rtype};
use domain_traits::ToName;
use octseq::Parser;

/// A name as it is read.
pub type Read<'a> = ParsedName<&'a [u8]>;

/// Appends a word, and the name with its final dot.
pub fn put_name(out: &Answer, word: &[u8], name: &Read<'_>) {
    out.put_text_after(word, name.fmt_with_dot());
}

/// `data TYPE OCTETS OFFSET LENGTH`: asks each type of data. `typed` with the same words asks the types with strings,
/// keys and the like, and `any` reads data of any type.
pub fn put_data(out: &Answer, fields: &Fields<'_>) {
    let rtype = Rtype::from_int(fields.number16(1, out));
    let octets = fields.octets(2, out);
    let offset = fields.number(3, out);
    let end = offset.saturating_add(fields.number(4, out));
    if end > octets.len() || offset > end {
        return out.fail(Fail::Bad);
    }
    let parser = &Parser::with_range(octets.as_slice(), offset..end);
    if is(fields.at(0), b"any") {
        return put_any(out, rtype, parser);
    }
    if is(fields.at(0), b"typed") {
        return put_typed(out, rtype, parser);
    }
    put_a(out, rtype, parser);
    put_aaaa(out, rtype, parser);
    put_ns(out, rtype, parser);
    put_cname(out, rtype, parser);
    put_ptr(out, rtype, parser);
    put_dname(out, rtype, parser);
    put_mx(out, rtype, parser);
    put_srv(out, rtype, parser);
    put_soa(out, rtype, parser);
    if out.len() == 0 {
        out.put(b"none");
    }
}

/// Reads data by its fields where the type is known, else as octets.
fn put_any(out: &Answer, rtype: Rtype, parser: &Parser<'_>) {
    let mut left = *parser;
    match AllRecordData::parse_any_rdata(rtype, &mut left) {
        Ok(data) => {
            out.agree(left.remaining() == 0, b"parse_any_rdata");
            out.agree(data.rtype() == rtype, b"rtype");
            put_forms(out, &data);
            out.put_text_after(b"", data);
        }
        Err(error) => {
            out.agree(left.pos() == parser.pos(), b"parse_any_rdata");
            out.put_text_after(b"err ", error);
        }
    }
}

/// Reads data as of one type, and composes it. `None` if it isn't of that type, or an error was written.
pub fn read<'a, D: ParseRecordData<'a> + CanonicalRecordData + Drop>(
    out: &Answer,
    rtype: Rtype,
    parser: &Parser<'a>,
) -> Option<D> {
    let mut left = *parser;
    match D::parse_rdata(rtype, &mut left) {
        Ok(Some(data)) => {
            out.agree(left.remaining() == 0, b"parse_rdata");
            out.agree(data.rtype() == rtype, b"rtype");
            put_forms(out, &data);
            Some(data)
        }
        Ok(None) => {
            out.agree(left.pos() == parser.pos(), b"parse_rdata");
            None
        }
        Err(error) => {
            out.agree(left.pos() == parser.pos(), b"parse_rdata");
            out.put_text_after(b"err ", error);
            None
        }
    }
}

/// The octets with no name compressed; what the canonical call appends; and the length, if it is known where names are
/// compressed. A word stands before the second where it isn't the canonical form.
fn put_forms<D: CanonicalRecordData>(out: &Answer, data: &D) {
    let mut composed: Vec<u8> = Vec::new(out.alloc());
    let mut canonical: Vec<u8> = Vec::new(out.alloc());
    if data.compose_rdata(&mut composed).is_err() {
        out.fail(Fail::Memory);
    }
    out.put(b"ok ");
    out.put_hex(composed.as_slice());
    out.put(b" ");
    if data.compose_canonical_rdata(&mut canonical).is_err() {
        out.fail(Fail::Memory);
    }
    if !data.knows_names() {
        out.put(b"unknown:");
    }
    out.put_hex(canonical.as_slice());
    match data.rdlen(true) {
        Some(len) => out.put_text_after(b" ", len),
        None => out.put(b" -"),
    }
    let len = data.rdlen(false).map(|len| usize::from(len));
    out.agree(len == Some(composed.len()), b"rdlen");
    out.put(b" ");
}

fn put_a(out: &Answer, rtype: Rtype, parser: &Parser<'_>) {
    if let Some(data) = read::<A>(out, rtype, parser) {
        out.put_hex(&data.addr().octets());
    }
}

fn put_aaaa(out: &Answer, rtype: Rtype, parser: &Parser<'_>) {
    if let Some(data) = read::<Aaaa>(out, rtype, parser) {
        out.put_hex(&data.addr().octets());
    }
}

fn put_ns(out: &Answer, rtype: Rtype, parser: &Parser<'_>) {
    if let Some(data) = read::<Ns<Read<'_>>>(out, rtype, parser) {
        let start = out.len();
        put_name(out, b"", data.nsdname());
        out.is_shown(start, &data);
    }
}

fn put_cname(out: &Answer, rtype: Rtype, parser: &Parser<'_>) {
    if let Some(data) = read::<Cname<Read<'_>>>(out, rtype, parser) {
        let start = out.len();
        put_name(out, b"", data.cname());
        out.is_shown(start, &data);
    }
}

fn put_ptr(out: &Answer, rtype: Rtype, parser: &Parser<'_>) {
    if let Some(data) = read::<Ptr<Read<'_>>>(out, rtype, parser) {
        let start = out.len();
        put_name(out, b"", data.ptrdname());
        out.is_shown(start, &data);
    }
}

fn put_dname(out: &Answer, rtype: Rtype, parser: &Parser<'_>) {
    if let Some(data) = read::<Dname<Read<'_>>>(out, rtype, parser) {
        let start = out.len();
        put_name(out, b"", data.dname());
        out.is_shown(start, &data);
    }
}

fn put_mx(out: &Answer, rtype: Rtype, parser: &Parser<'_>) {
    if let Some(data) = read::<Mx<Read<'_>>>(out, rtype, parser) {
        let start = out.len();
        out.put_text_after(b"", data.preference());
        put_name(out, b" ", data.exchange());
        out.is_shown(start, &data);
    }
}

fn put_srv(out: &Answer, rtype: Rtype, parser: &Parser<'_>) {
    if let Some(data) = read::<Srv<Read<'_>>>(out, rtype, parser) {
        let start = out.len();
        out.put_text_after(b"", data.priority());
        out.put_text_after(b" ", data.weight());
        out.put_text_after(b" ", data.port());
        put_name(out, b" ", data.target());
        out.is_shown(start, &data);
    }
}

fn put_soa(out: &Answer, rtype: Rtype, parser: &Parser<'_>) {
    if let Some(data) = read::<Soa<Read<'_>>>(out, rtype, parser) {
        let start = out.len();
        put_name(out, b"", data.mname());
        put_name(out, b" ", data.rname());
        out.put_text_after(b" ", data.serial());
        out.put_text_after(b" ", data.refresh());
        out.put_text_after(b" ", data.retry());
        out.put_text_after(b" ", data.expire());
        out.put_text_after(b" ", data.minimum());
        out.is_shown(start, &data);
    }
}

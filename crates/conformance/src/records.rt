//! Record data, and the names of addresses.

use arrayvec::ArrayVec;
use conformance_labels::{Answer, Fail, length_of};
use domain_rdata::{
    ComposeRecordData, Composer, LongRecordData, ParseRecordData, RecordData, Rtype,
    UnknownRecordData,
};
use domain_wire::{CanonicalOrd, ParseError};
use octseq::{EmptyBuilder, Octets, OctetsFrom, Parser, ShortBuf};

const PRIVATE: u16 = 65280;

type Data<'a> = UnknownRecordData<&'a [u8]>;

fn data_of(rtype: u16, octets: &[u8]) -> Result<Data<'_>, LongRecordData> {
    UnknownRecordData::from_octets(Rtype::from_int(rtype), octets)
}

/// `rdata OCTETS`
pub fn put_rdata(out: &Answer, octets: &[u8]) {
    let data = match data_of(PRIVATE, octets) {
        Ok(data) => data,
        Err(error) => return out.put_text_after(b"err ", error),
    };
    out.put_shown_after(b"ok ", data);
    let mut composed: Vec<u8> = Vec::new(out.alloc());
    if data.compose_len_rdata(&mut composed).is_err() {
        out.fail(Fail::Memory);
    }
    out.put_hex_after(b" ", composed.as_slice());
    out.agree(data.rtype().to_int() == PRIVATE, b"rtype");
    out.same(*data.data(), octets, b"data");
    is_composed_alike(out, data, composed.as_slice());
    is_measured(out, data, octets);
    is_composed_where_it_fits::<ArrayVec<u8, 4>>(out, data, composed.as_slice());
    is_composed_where_it_fits::<ArrayVec<u8, 5>>(out, data, composed.as_slice());
    is_read(out, octets);
    is_copied(out, data);
    is_copied_in_an_array(out, data);
}

/// The data over a `Vec` of its own, and a copy of that.
fn is_copied(out: &Answer, data: Data<'_>) {
    let held: Result<UnknownRecordData<Vec<u8>>, ShortBuf> = UnknownRecordData::try_octets_from(
        out.alloc(),
        data,
    );
    let Ok(held) = held else {
        return out.fail(Fail::Memory);
    };
    out.same(held.data().as_slice(), *data.data(), b"try_octets_from");
    match held.clone(out.alloc()) {
        Ok(copy) => {
            out.same(copy.data().as_slice(), *data.data(), b"clone");
            out.agree(copy.rtype() == data.rtype(), b"clone");
        }
        Err(_) => out.fail(Fail::Memory),
    }
}

/// The same over an array of 255 octets, which is refused only what doesn't fit.
fn is_copied_in_an_array(out: &Answer, data: Data<'_>) {
    let held: Result<UnknownRecordData<ArrayVec<u8, 255>>, ShortBuf> =
        UnknownRecordData::try_octets_from(out.alloc(), data);
    let Ok(held) = held else {
        return out.agree(data.data().len() > 255, b"try_octets_from");
    };
    match held.clone(out.alloc()) {
        Ok(copy) => {
            out.same(copy.data().as_slice(), *data.data(), b"clone");
            out.agree(copy.rtype() == data.rtype(), b"clone");
        }
        Err(_) => out.wrong(b"clone"),
    }
}

/// The canonical form, and a reference to the data on a reference to a target, are composed to the same octets.
fn is_composed_alike(out: &Answer, data: Data<'_>, wanted: &[u8]) {
    let mut composed: Vec<u8> = Vec::new(out.alloc());
    if data.compose_canonical_len_rdata(&mut composed).is_err() {
        out.fail(Fail::Memory);
    }
    out.same(composed.as_slice(), wanted, b"compose_canonical_len_rdata");
    let mut composed: Vec<u8> = Vec::new(out.alloc());
    append(out, &&data, &mut &mut composed);
    out.same(composed.as_slice(), wanted, b"compose_len_rdata");
}

/// Appends data of any type to a target of any kind. Where these are references, their own calls are made.
fn append<D: ComposeRecordData, T: Composer>(out: &Answer, data: &D, target: &mut T) {
    out.agree_all(
        b"rtype;can_compress;rdlen",
        &[
            data.rtype().to_int() == PRIVATE,
            !target.can_compress(),
            data.rdlen(false).is_some(),
        ],
    );
    if data.compose_len_rdata(target).is_err() {
        out.fail(Fail::Memory);
    }
}

/// The length that a call returns is that of what is composed.
fn is_measured(out: &Answer, data: Data<'_>, wanted: &[u8]) {
    let mut composed: Vec<u8> = Vec::new(out.alloc());
    if data.compose_rdata(&mut composed).is_err() {
        out.fail(Fail::Memory);
    }
    out.same(composed.as_slice(), wanted, b"compose_rdata");
    for compress in [true, false] {
        let told = data.rdlen(compress).map(|len| usize::from(len));
        out.agree(told == Some(composed.len()), b"rdlen");
    }
}

/// A target takes what fits it, and stays as it was else.
fn is_composed_where_it_fits<B: EmptyBuilder + Composer + Drop>(
    out: &Answer,
    data: Data<'_>,
    wanted: &[u8],
) {
    let fits = match B::ROOM {
        Some(room) => wanted.len() <= room,
        None => true,
    };
    let left: &[u8] = if fits { wanted } else { b"" };
    let mut target = B::empty(out.alloc());
    out.agree(
        data.compose_len_rdata(&mut target).is_ok() == fits,
        b"compose_len_rdata",
    );
    out.same(Octets::as_slice(&target), left, b"compose_len_rdata");
    let mut target = B::empty(out.alloc());
    let taken = data.compose_canonical_len_rdata(&mut target).is_ok();
    out.agree(taken == fits, b"compose_canonical_len_rdata");
    out.same(
        Octets::as_slice(&target),
        left,
        b"compose_canonical_len_rdata",
    );
}

/// Data of any type is the rest of a message.
fn is_read(out: &Answer, octets: &[u8]) {
    let rtype = Rtype::from_int(1);
    let mut parser = Parser::from_ref(octets);
    let read = Data::parse_any_rdata(rtype, &mut parser).ok();
    is_all(out, read, parser, octets, b"parse_any_rdata");
    let mut parser = Parser::from_ref(octets);
    let read = match Data::parse_rdata(rtype, &mut parser) {
        Ok(read) => read,
        Err(_) => None,
    };
    is_all(out, read, parser, octets, b"parse_rdata");
}

/// What was read is all of the octets, and nothing is left in the parser.
fn is_all(out: &Answer, read: Option<Data<'_>>, parser: Parser<'_>, octets: &[u8], call: &[u8]) {
    match read {
        Some(data) => out.same(*data.data(), octets, call),
        None => out.wrong(call),
    }
    out.agree(parser.remaining() == 0, call);
}

/// `rdatacmp A B`: data of two types.
pub fn put_rdatacmp(out: &Answer, a: &[u8], b: &[u8]) {
    let Ok(a) = data_of(1, a) else {
        return out.fail(Fail::Bad);
    };
    let Ok(b) = data_of(2, b) else {
        return out.fail(Fail::Bad);
    };
    let order = a.cmp(&b);
    out.put_bit(b"eq=", a == b);
    out.put_order(b" cmp=", order);
    out.put_order(b" canonical=", a.canonical_cmp(&b));
    out.agree(a.partial_cmp(&b) == Some(order), b"partial_cmp");
}

/// `longdata LEN`: LEN zero octets as record data.
pub fn put_longdata(out: &Answer, len: usize) {
    let mut octets: Vec<u8> = Vec::new(out.alloc());
    if len > 100_000 || octets.resize(len, 0).is_err() {
        return out.fail(Fail::Bad);
    }
    match data_of(1, octets.as_slice()) {
        Ok(data) => {
            out.put_number_after(b"ok ", data.data().len());
            is_read(out, octets.as_slice());
            is_copied(out, data);
            is_after_its_length(out, data);
        }
        Err(error) => {
            out.put_text_after(b"err ", error);
            is_refused(out, octets.as_slice(), error);
        }
    }
}

/// What is composed with its length is two octets that tell it, and the data.
fn is_after_its_length(out: &Answer, data: Data<'_>) {
    let mut composed: Vec<u8> = Vec::new(out.alloc());
    if data.compose_len_rdata(&mut composed).is_err() {
        return out.fail(Fail::Memory);
    }
    let octets: &[u8] = *data.data();
    match composed.as_slice() {
        [high, low, rest @ ..] => {
            let told = u16::from_be_bytes([*high, *low]);
            out.agree(usize::from(told) == octets.len(), b"compose_len_rdata");
            out.same(rest, octets, b"compose_len_rdata");
        }
        _ => out.wrong(b"compose_len_rdata"),
    }
}

/// The octets are too many for record data, and the parser stays.
fn is_refused(out: &Answer, octets: &[u8], error: LongRecordData) {
    let mut parser = Parser::from_ref(octets);
    let read = Data::parse_any_rdata(Rtype::from_int(1), &mut parser);
    out.agree(read == Err(ParseError::from(error)), b"parse_any_rdata");
    let read = Data::parse_rdata(Rtype::from_int(1), &mut parser);
    out.agree(read == Err(ParseError::from(error)), b"parse_rdata");
    out.agree(parser.pos() == 0, b"parse_any_rdata");
}

/// `lengths LEN,LEN,LEN`: parts of record data of these lengths.
pub fn put_lengths(out: &Answer, fields: &[u8]) {
    let mut lens = ArrayVec::<usize, 3>::new();
    for field in fields.split(|octet| *octet == b',') {
        match length_of(field) {
            Some(len) if lens.try_push(len).is_ok() => {}
            _ => out.fail(Fail::Bad),
        }
    }
    match lens.as_slice() {
        [a] => put_checked(
            out,
            LongRecordData::check_len(*a),
            LongRecordData::check_multi_len([*a]),
        ),
        [a, b] => put_checked(
            out,
            LongRecordData::check_append_len(*a, *b),
            LongRecordData::check_multi_len([*a, *b]),
        ),
        [a, b, c] => {
            let checked = LongRecordData::check_multi_len([*a, *b, *c]);
            put_checked(out, checked, LongRecordData::check_multi_len([*c, *b, *a]));
        }
        _ => out.fail(Fail::Bad),
    }
}

fn put_checked(out: &Answer, one: Result<(), LongRecordData>, other: Result<(), LongRecordData>) {
    out.agree(one.is_ok() == other.is_ok(), b"check_multi_len");
    match one {
        Ok(()) => out.put(b"ok"),
        Err(error) => out.put_text_after(b"err ", error.as_str()),
    }
}

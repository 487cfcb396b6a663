//! Names, and record data that is a name, one after another on one target that writes them shorter.
ghost use Rattle.std.specs.Prelude.{if◌then◌else◌, false, true, Some, refl};
ghost use Rattle.domain_label.specs.Lowercase.{lowercase_labels};
ghost use Rattle.domain_label.specs.Wire.{wire};
ghost use Rattle.domain_name.proofs.NameFields.{flat_absolute};
ghost use Rattle.domain_name.specs.Names.{name_labels};
ghost use Rattle.domain_rdata.specs.FlatNames.{wire_reads_back};
ghost use Rattle.domain_rdata.specs.OctetsAlone.{name_written};
ghost use Rattle.domain_rdata.specs.RecordData.{NameOctets};

use arrayvec::ArrayVec;
use conformance_labels::{Answer, Fail, decimal, is, octets_of, split_once};
use domain_compress::CompressComposer;
use domain_list::NameLabels;
use domain_name::Name;
use domain_parsed::ParsedName;
use domain_rdata::{ComposeRecordData, Composer, RecordData, Rtype};
use domain_traits::ToName;
use octseq::{EmptyBuilder, Octets, OctetsBuilder, OctetsMut, Parser, Truncate};

/// The most zero octets that one call appends.
const MOST: usize = 65535;

/// A name that was written, and where it ends.
#[derive(Drop)]
struct Written {
    start: usize,
    end: usize,
    octets: Vec<u8>,
}

/// `compress CALLS`: what each call appends.
pub fn put_compressed(out: &Answer, calls: &[u8]) {
    put_on::<Vec<u8>>(out, calls);
}

/// `compresscap OCTETS CALLS`: the same over an array of OCTETS octets.
pub fn put_compressedcap(out: &Answer, room: usize, calls: &[u8]) {
    match room {
        22 => put_on::<ArrayVec<u8, 22>>(out, calls),
        40 => put_on::<ArrayVec<u8, 40>>(out, calls),
        _ => out.fail(Fail::Bad),
    }
}

fn put_on<T: EmptyBuilder + Composer + Drop>(out: &Answer, calls: &[u8]) {
    let mut target = CompressComposer::new(T::empty(out.alloc()));
    let mut names: Vec<Written> = Vec::new(out.alloc());
    let mut is_first = true;
    for call in calls.split(|octet| *octet == b';') {
        if !is_first {
            out.put(b";");
        }
        is_first = false;
        let (word, argument) = split_once(call, b':');
        match argument {
            None => put_name(out, &mut target, word, &mut names),
            Some(digits) => put_other(out, &mut target, word, digits, &mut names),
        }
        are_read_back(out, target.as_slice(), &mut names);
    }
}

/// `raw:OCTETS`, `data:NAME`, `canonical:NAME`, `over:PLACE,OCTETS`, `cut:LEN`, and `pad:COUNT` for zero octets.
fn put_other<T: Composer>(
    out: &Answer,
    target: &mut CompressComposer<T>,
    word: &[u8],
    field: &[u8],
    names: &mut Vec<Written>,
) {
    if is(word, b"raw") {
        put_raw(out, target, field);
    } else if is(word, b"data") {
        put_data(out, target, field, false);
    } else if is(word, b"canonical") {
        put_data(out, target, field, true);
    } else if is(word, b"over") {
        // What stood there may be a name no longer.
        names.clear();
        put_over(out, target, field);
    } else {
        put_resized(out, target, word, field);
    }
}

/// Octets as they are, which are no name.
fn put_raw<T: Composer>(out: &Answer, target: &mut CompressComposer<T>, digits: &[u8]) {
    match octets_of(digits, out.alloc()) {
        Ok(octets) => {
            if target.append_slice(octets.as_slice()).is_err() {
                out.fail(Fail::Bad);
            }
            out.put_hex(octets.as_slice());
        }
        Err(fail) => out.fail(fail),
    }
}

/// Octets over those that stand at an offset.
fn put_over<T: Composer>(out: &Answer, target: &mut CompressComposer<T>, field: &[u8]) {
    let (offset, digits) = split_once(field, b',');
    let (Ok(offset), Ok(octets)) = (
        decimal(offset),
        octets_of(digits.unwrap_or(b""), out.alloc()),
    ) else {
        return out.fail(Fail::Bad);
    };
    for (at, octet) in octets.iter().enumerate() {
        match target.as_slice_mut().get_mut(offset.saturating_add(at)) {
            Some(written) => *written = *octet,
            None => out.fail(Fail::Bad),
        }
    }
    out.put(b"-");
}

fn put_resized<T: Composer>(
    out: &Answer,
    target: &mut CompressComposer<T>,
    word: &[u8],
    digits: &[u8],
) {
    let Ok(number) = decimal(digits) else {
        return out.fail(Fail::Bad);
    };
    if is(word, b"cut") {
        target.truncate(number);
        out.put(b"-");
    } else if is(word, b"pad") && number <= MOST {
        pad(out, target, number);
        out.put_number_after(b"+", number);
    } else {
        out.fail(Fail::Bad);
    }
}

/// So many zero octets, in one append.
fn pad<T: Composer>(out: &Answer, target: &mut CompressComposer<T>, count: usize) {
    let mut zeros: Vec<u8> = Vec::new(out.alloc());
    let is_made = zeros.resize(count, 0).is_ok();
    if !is_made || target.append_slice(zeros.as_slice()).is_err() {
        out.fail(Fail::Memory);
    }
}

/// Record data that is one name, of a length that isn't known before it is composed where it may be written shorter.
#[derive(Clone, Copy)]
struct NameData<'a> {
    name: Name<&'a [u8]>,
}

impl<'a> RecordData for NameData<'a> {
    ghost type_number = { λ _. 2 };

    fn rtype(&self) -> Rtype {
        Rtype::from_int(2)
    }
}

impl<'a> ComposeRecordData for NameData<'a> {
    ghost composed = { λ it c t s. NameOctets (name_labels it.name) c t s };

    ghost written = { λ it _ _ named old new. named old (name_labels it.name) new };

    ghost uncompressed = { λ it. wire (name_labels it.name) };

    ghost lowercase = { λ it. Some (wire (lowercase_labels (name_labels it.name))) };

    ghost knows_len = { λ _ compress. if compress then false else true };

    fn rdlen(&self, compress: bool) -> Option<u16> {
        if compress {
            return None;
        }
        Some(self.name.compose_len())
    }

    fn compose_rdata<Target: Composer>(
        &self,
        target: &mut Target,
    ) -> Result<(), Target::AppendError> {
        target.append_compressed_name(&self.name)
    }

    fn compose_canonical_rdata<Target: Composer>(
        &self,
        target: &mut Target,
    ) -> Result<(), Target::AppendError> {
        self.name.compose_canonical(target)
    }

    ghost plain = { λ it c t. record { read = wire_reads_back t (name_labels it.name) (flat_absolute it.name); flat = λ _. refl } };

    ghost flat = { λ it t s octets. octets.flat refl };

    ghost writes_composed = { λ it. name_written (name_labels it.name) };
}

/// Appends data with its length in front, and tells whether it was taken.
fn is_taken<T: Composer>(
    target: &mut CompressComposer<T>,
    data: NameData<'_>,
    canonical: bool,
) -> bool {
    if canonical {
        data.compose_canonical_len_rdata(target).is_ok()
    } else {
        data.compose_len_rdata(target).is_ok()
    }
}

/// The octets that record data takes that is the name, with its length in front, or `err` where it is refused.
fn put_data<T: Composer>(
    out: &Answer,
    target: &mut CompressComposer<T>,
    digits: &[u8],
    canonical: bool,
) {
    let octets = match octets_of(digits, out.alloc()) {
        Ok(octets) => octets,
        Err(fail) => return out.fail(fail),
    };
    let Ok(name) = Name::from_slice(octets.as_slice()) else {
        return out.fail(Fail::Bad);
    };
    out.agree(target.can_compress(), b"can_compress");
    let start = target.as_slice().len();
    if is_taken(target, NameData { name }, canonical) {
        put_taken_data(out, target.as_slice(), start, name);
    } else {
        out.agree(target.as_slice().len() == start, b"compose_len_rdata");
        out.put(b"err");
    }
}

/// The data at an offset, up to the end, is the name after its length.
fn put_taken_data(out: &Answer, message: &[u8], start: usize, name: Name<&[u8]>) {
    let mut parser = Parser::from_ref(message);
    out.agree(parser.seek(start).is_ok(), b"compose_len_rdata");
    out.put_hex(parser.peek_all());
    match parser.parse_u16_be() {
        Ok(len) => out.agree(usize::from(len) == parser.remaining(), b"compose_len_rdata"),
        Err(_) => out.wrong(b"compose_len_rdata"),
    }
    let _behind = is_read_as(out, parser, name);
}

/// The name is read where the parser stands. Returns the offset behind it.
fn is_read_as(out: &Answer, parser: Parser<'_>, name: Name<&[u8]>) -> usize {
    let mut parser = parser;
    match ParsedName::parse(&mut parser) {
        Ok(read) => out.agree(read.name_eq(&name), b"name_eq"),
        Err(_) => out.wrong(b"parse"),
    }
    parser.pos()
}

/// The octets that a name takes, or `err` where it is refused.
fn put_name<T: EmptyBuilder + Composer>(
    out: &Answer,
    target: &mut CompressComposer<T>,
    digits: &[u8],
    names: &mut Vec<Written>,
) {
    match octets_of(digits, out.alloc()) {
        Ok(octets) => put_kept(out, target, octets, names),
        Err(fail) => out.fail(fail),
    }
}

/// Appends a name, and keeps its octets where it was taken.
fn put_kept<T: EmptyBuilder + Composer>(
    out: &Answer,
    target: &mut CompressComposer<T>,
    octets: Vec<u8>,
    names: &mut Vec<Written>,
) {
    let start = target.as_slice().len();
    if put_appended(out, target, octets.as_slice()) {
        let end = target.as_slice().len();
        let written = Written { start, end, octets };
        if names.push(written).is_err() {
            out.fail(Fail::Memory);
        }
    }
}

/// Appends a name, and tells whether it was taken. A refused one leaves the target.
fn put_appended<T: EmptyBuilder + Composer>(
    out: &Answer,
    target: &mut CompressComposer<T>,
    octets: &[u8],
) -> bool {
    let Ok(name) = Name::from_slice(octets) else {
        out.fail(Fail::Bad);
        return false;
    };
    let start = target.as_slice().len();
    let taken = target.append_compressed_name(&name).is_ok();
    if taken {
        out.put_hex(target.as_slice().get(start..).unwrap_or(b""));
    } else {
        out.agree(target.as_slice().len() == start, b"append_compressed_name");
        put_refused(out, T::ROOM);
    }
    taken
}

/// A name is refused where a room is full, or where there is no memory.
fn put_refused(out: &Answer, room: Option<usize>) {
    match room {
        Some(_) => out.put(b"err"),
        None => out.fail(Fail::Memory),
    }
}

/// Each remaining name is read at its offset, up to its end.
fn are_read_back(out: &Answer, message: &[u8], names: &mut Vec<Written>) {
    let left = names
        .iter()
        .filter(|name| name.end <= message.len())
        .count();
    names.truncate(left);
    for name in names.as_slice() {
        is_read_back(out, message, name);
    }
}

fn is_read_back(out: &Answer, message: &[u8], written: &Written) {
    let Ok(name) = Name::from_slice(written.octets.as_slice()) else {
        return out.fail(Fail::Bad);
    };
    let mut parser = Parser::from_ref(message);
    let is_there = parser.seek(written.start).is_ok();
    out.agree(is_there, b"append_compressed_name");
    let behind = is_read_as(out, parser, name);
    out.agree(behind == written.end, b"append_compressed_name");
}

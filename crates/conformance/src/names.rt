//! Names in messages beside other names, and what they are made into.

use crate::message::{flat_of, leave_out, name_at};
use arrayvec::ArrayVec;
use conformance_labels::{Answer, Fail, put_canonical_order};
use conformance_names::{
    AbsoluteCall, SIZE, absolute_chain, put_absolute, put_appended, put_compared, put_ends_of,
    put_forms, put_relative_appended, put_twins,
};
use domain_list::{AbsoluteLabels, NameLabels, ToLabelIter};
use domain_name::{Name, RelativeName};
use domain_parsed::ParsedName;
use domain_traits::{FlattenInto, ToName};
use octseq::{EmptyBuilder, FromBuilder, Octets, ShortBuf};
use std::hash::Hash;

/// `fromflat NAME N`: a flat name as one in a message, without its first N labels, over a `Vec` and
/// over an array.
pub fn put_fromflat(out: &Answer, octets: &[u8], labels: usize) {
    let Ok(owned) = Vec::from_slice(out.alloc(), octets) else {
        return out.fail(Fail::Memory);
    };
    let Ok(flat) = Name::from_octets(owned) else {
        return out.fail(Fail::Bad);
    };
    let mut name = ParsedName::from(flat);
    leave_out(&mut name, labels);
    let Ok(copy) = name.clone(out.alloc()) else {
        return out.fail(Fail::Memory);
    };
    out.agree(copy == name, b"clone");
    out.put_number(copy.label_count());
    out.put(if copy.is_compressed() { b" c " } else { b" f " });
    match copy.as_flat_slice() {
        Some(lent) => out.put_hex(lent),
        None => out.put(b"none"),
    }
    is_cloned_in_an_array(out, octets);
}

fn is_cloned_in_an_array(out: &Answer, octets: &[u8]) {
    let Ok(held) = ArrayVec::<u8, 255>::try_from(octets) else {
        return out.fail(Fail::Bad);
    };
    let Ok(flat) = Name::from_octets(held) else {
        return out.wrong(b"from_octets");
    };
    let name = ParsedName::from(flat);
    match name.clone(out.alloc()) {
        Ok(copy) => out.agree(copy == name, b"clone"),
        Err(_) => out.wrong(b"clone"),
    }
}

/// `pforms MSG PLACE`
pub fn put_parsed_forms(out: &Answer, message: &[u8], offset: usize) {
    match name_at(message, offset) {
        Some(name) => put_forms(out, &name),
        None => out.fail(Fail::Bad),
    }
}

/// `room MSG PLACE N`: what the name composes where there is room for N octets, then the same name as a `Name`, and
/// then that without its root label.
pub fn put_room(out: &Answer, message: &[u8], offset: usize, room: usize) {
    let Some(name) = name_at(message, offset) else {
        return out.fail(Fail::Bad);
    };
    if room > SIZE {
        return out.fail(Fail::Bad);
    }
    put_appended(out, &name, room);
    if let Some(flat) = flat_of(out, &name) {
        put_flat_room(out, flat.for_slice(), room);
    }
}

/// `sized MSG PLACE N`: the name and its canonical form, in an array of N octets.
pub fn put_sized(out: &Answer, message: &[u8], offset: usize, size: usize) {
    let Some(name) = name_at(message, offset) else {
        return out.fail(Fail::Bad);
    };
    match size {
        0 => put_over::<ArrayVec<u8, 0>>(out, name),
        16 => put_over::<ArrayVec<u8, 16>>(out, name),
        17 => put_over::<ArrayVec<u8, 17>>(out, name),
        _ => out.fail(Fail::Bad),
    }
}

fn put_over<Octs: FromBuilder + Drop>(out: &Answer, name: ParsedName<&[u8]>)
where
    Octs::Builder: EmptyBuilder + Drop,
{
    let alloc = out.alloc();
    let made: Result<Name<Octs>, ShortBuf> = name.to_name(alloc);
    let octets = made_octets(&made);
    put_made(out, octets);
    is_made_alike::<Octs>(out, name.flatten_into(alloc), octets, b"flatten_into");
    out.put(b" ");
    let lowered: Result<Name<Octs>, ShortBuf> = name.to_canonical_name(alloc);
    put_made(out, made_octets(&lowered));
}

fn is_made_alike<Octs: Octets + Drop>(
    out: &Answer,
    made: Result<Name<Octs>, ShortBuf>,
    wanted: Option<&[u8]>,
    call: &[u8],
) {
    out.agree(made_octets(&made) == wanted, call);
}

fn made_octets<Octs: Octets>(made: &Result<Name<Octs>, ShortBuf>) -> Option<&[u8]> {
    match made {
        Ok(name) => Some(name.as_slice()),
        Err(_) => None,
    }
}

fn put_made(out: &Answer, octets: Option<&[u8]>) {
    match octets {
        Some(octets) => out.put_hex(octets),
        None => out.put_text(ShortBuf),
    }
}

fn put_flat_room(out: &Answer, name: Name<&[u8]>, room: usize) {
    out.put(b" / ");
    put_appended(out, &name, room);
    out.put(b" / ");
    put_relative_appended(out, &name.into_relative(), room);
}

/// `pcmp MSG P Q`
pub fn put_pcmp(out: &Answer, message: &[u8], left: usize, right: usize) {
    let Some(left) = name_at(message, left) else {
        return out.fail(Fail::Bad);
    };
    let Some(right) = name_at(message, right) else {
        return out.fail(Fail::Bad);
    };
    put_twins(out, &left, &right);
    out.put(b" / ");
    put_beside_twin(out, left, right);
}

/// The left name beside the same name as a `Name` of the right one.
fn put_beside_twin(out: &Answer, left: ParsedName<&[u8]>, right: ParsedName<&[u8]>) {
    if let Some(owned) = flat_of(out, &right) {
        put_beside_flat(out, left, owned.for_slice());
    }
}

/// Two names, on either side.
fn put_both_compared<'a, A: AbsoluteLabels<'a> + Hash, B: AbsoluteLabels<'a> + Hash>(
    out: &Answer,
    a: &'a A,
    b: &'a B,
) {
    put_compared(out, a, b);
    out.put(b" / ");
    put_compared(out, b, a);
}

/// A name in a message and a flat one, on either side.
fn put_beside_flat(out: &Answer, parsed: ParsedName<&[u8]>, flat: Name<&[u8]>) {
    put_both_compared(out, &parsed, &flat);
}

/// `pname MSG PLACE NAME`
pub fn put_pname(out: &Answer, message: &[u8], offset: usize, octets: &[u8]) {
    let Some(parsed) = name_at(message, offset) else {
        return out.fail(Fail::Bad);
    };
    match Name::from_slice(octets) {
        Ok(name) => put_beside_flat(out, parsed, name),
        Err(_) => out.fail(Fail::Bad),
    }
}

/// `prel MSG PLACE RELATIVE`
pub fn put_prel(out: &Answer, message: &[u8], offset: usize, octets: &[u8]) {
    let Some(parsed) = name_at(message, offset) else {
        return out.fail(Fail::Bad);
    };
    match RelativeName::from_slice(octets) {
        Ok(name) => put_ends_of(out, &parsed, &name),
        Err(_) => out.fail(Fail::Bad),
    }
}

/// `pcanonical MSG P Q`: of the names in the message.
pub fn put_parsed_canonical(out: &Answer, message: &[u8], left: usize, right: usize) {
    let Some(left) = name_at(message, left) else {
        return out.fail(Fail::Bad);
    };
    let Some(right) = name_at(message, right) else {
        return out.fail(Fail::Bad);
    };
    put_canonical_order(out, &left, &right);
}

/// `pchain MSG PLACE L R`
pub fn put_pchain(out: &Answer, message: &[u8], offset: usize, left: &[u8], right: &[u8]) {
    let Some(parsed) = name_at(message, offset) else {
        return out.fail(Fail::Bad);
    };
    match absolute_chain(left, right) {
        Some(chain) => put_absolute(out, &chain, &AbsoluteCall::After(&parsed)),
        None => out.fail(Fail::Bad),
    }
}

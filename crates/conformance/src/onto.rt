//! Names composed one after another into one array, which refuses what it has no room for.

use crate::message::name_at;
use arrayvec::ArrayVec;
use conformance_labels::{Answer, Fail, decimal, is, octets_of, split_once};
use domain_list::{AbsoluteLabels, RelativeLabels};
use domain_name::{Name, RelativeName};
use domain_traits::{ToName, ToRelativeName};
use octseq::{EmptyBuilder, Octets, OctetsBuilder};

/// `onto SIZE MSG CALLS`: calls over an array of SIZE octets, 17 at most, and after each what it holds.
pub fn put_onto(out: &Answer, size: usize, message: &[u8], calls: &[u8]) {
    if size < 9 {
        put_onto_few(out, size, message, calls);
    } else {
        put_onto_more(out, size, message, calls);
    }
}

fn put_onto_few(out: &Answer, size: usize, message: &[u8], calls: &[u8]) {
    match size {
        0 => put_on::<ArrayVec<u8, 0>>(out, message, calls),
        1 => put_on::<ArrayVec<u8, 1>>(out, message, calls),
        2 => put_on::<ArrayVec<u8, 2>>(out, message, calls),
        3 => put_on::<ArrayVec<u8, 3>>(out, message, calls),
        4 => put_on::<ArrayVec<u8, 4>>(out, message, calls),
        5 => put_on::<ArrayVec<u8, 5>>(out, message, calls),
        6 => put_on::<ArrayVec<u8, 6>>(out, message, calls),
        7 => put_on::<ArrayVec<u8, 7>>(out, message, calls),
        8 => put_on::<ArrayVec<u8, 8>>(out, message, calls),
        _ => out.fail(Fail::Bad),
    }
}

fn put_onto_more(out: &Answer, size: usize, message: &[u8], calls: &[u8]) {
    match size {
        9 => put_on::<ArrayVec<u8, 9>>(out, message, calls),
        10 => put_on::<ArrayVec<u8, 10>>(out, message, calls),
        11 => put_on::<ArrayVec<u8, 11>>(out, message, calls),
        12 => put_on::<ArrayVec<u8, 12>>(out, message, calls),
        13 => put_on::<ArrayVec<u8, 13>>(out, message, calls),
        14 => put_on::<ArrayVec<u8, 14>>(out, message, calls),
        15 => put_on::<ArrayVec<u8, 15>>(out, message, calls),
        16 => put_on::<ArrayVec<u8, 16>>(out, message, calls),
        17 => put_on::<ArrayVec<u8, 17>>(out, message, calls),
        _ => out.fail(Fail::Bad),
    }
}

/// Makes the calls on one target, and puts for each whether it was taken, and what the target holds then.
fn put_on<T: EmptyBuilder + Drop>(out: &Answer, message: &[u8], calls: &[u8]) {
    let mut target = T::empty(out.alloc());
    let mut is_first = true;
    for call in calls.split(|octet| *octet == b';') {
        if !is_first {
            out.put(b";");
        }
        is_first = false;
        let (word, field) = split_once(call, b':');
        let taken = takes_call(out, &mut target, message, word, field.unwrap_or(b""));
        out.put(if taken { b"ok " } else { b"err " });
        out.put_hex(target.as_slice());
    }
}

/// Makes a call, by what comes after its word: the offset of a name in the message, or octets.
fn takes_call<T: OctetsBuilder>(
    out: &Answer,
    target: &mut T,
    message: &[u8],
    word: &[u8],
    field: &[u8],
) -> bool {
    if let Ok(offset) = decimal(field) {
        if is_of_message(word) {
            return takes_parsed(out, target, message, word, offset);
        }
    }
    match octets_of(field, out.alloc()) {
        Ok(octets) => takes_octets(out, target, word, octets.as_slice()),
        Err(fail) => {
            out.fail(fail);
            false
        }
    }
}

fn is_of_message(word: &[u8]) -> bool {
    is(word, b"at") || is(word, b"lowerat")
}

/// A name of the message, or its canonical form.
fn takes_parsed<T: OctetsBuilder>(
    out: &Answer,
    target: &mut T,
    message: &[u8],
    word: &[u8],
    offset: usize,
) -> bool {
    match name_at(message, offset) {
        Some(name) => takes_name(target, &name, is(word, b"lowerat")),
        None => {
            out.fail(Fail::Bad);
            false
        }
    }
}

/// Octets as they are, or a name that they are.
fn takes_octets<T: OctetsBuilder>(
    out: &Answer,
    target: &mut T,
    word: &[u8],
    octets: &[u8],
) -> bool {
    if is(word, b"octets") {
        return target.append_slice(octets).is_ok();
    }
    if is(word, b"name") || is(word, b"lower") {
        return takes_absolute(out, target, octets, is(word, b"lower"));
    }
    if is(word, b"rel") || is(word, b"lowerrel") {
        return takes_relative(out, target, octets, is(word, b"lowerrel"));
    }
    out.fail(Fail::Bad);
    false
}

fn takes_absolute<T: OctetsBuilder>(
    out: &Answer,
    target: &mut T,
    octets: &[u8],
    is_canonical: bool,
) -> bool {
    match Name::from_slice(octets) {
        Ok(name) => takes_name(target, &name, is_canonical),
        Err(_) => {
            out.fail(Fail::Bad);
            false
        }
    }
}

fn takes_relative<T: OctetsBuilder>(
    out: &Answer,
    target: &mut T,
    octets: &[u8],
    is_canonical: bool,
) -> bool {
    match RelativeName::from_slice(octets) {
        Ok(name) => takes_relative_name(target, &name, is_canonical),
        Err(_) => {
            out.fail(Fail::Bad);
            false
        }
    }
}

/// Composes a name of any kind, or its canonical form, and tells whether it was taken.
fn takes_name<'a, N: AbsoluteLabels<'a>, T: OctetsBuilder>(
    target: &mut T,
    name: &'a N,
    is_canonical: bool,
) -> bool {
    if is_canonical {
        name.compose_canonical(target).is_ok()
    } else {
        name.compose(target).is_ok()
    }
}

/// What `takes_name` does, of a relative name.
fn takes_relative_name<'a, N: RelativeLabels<'a>, T: OctetsBuilder>(
    target: &mut T,
    name: &'a N,
    is_canonical: bool,
) -> bool {
    if is_canonical {
        name.compose_canonical(target).is_ok()
    } else {
        name.compose(target).is_ok()
    }
}

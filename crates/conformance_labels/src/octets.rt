//! Octets of each kind: shortened, written, appended to, and made of one another.

use crate::answer::{Answer, Fail};
use arrayvec::ArrayVec;
use octseq::{
    EmptyBuilder, FreezeBuilder, FromBuilder, Octets, OctetsBuilder, OctetsFrom, OctetsMut,
    ShortBuf, Truncate,
};
use std::borrow::CowSlice;

/// Shortens octets of any kind, and compares what is left.
fn is_shortened<T: Truncate + Drop>(out: &Answer, octets: T, len: usize, left: &[u8]) {
    let mut octets = octets;
    Truncate::truncate(&mut &mut octets, len);
    out.same(Octets::as_slice(&&octets), left, b"truncate");
    Truncate::truncate(&mut octets, len);
    out.same(Octets::as_slice(&octets), left, b"truncate");
}

/// `truncate OCTETS LEN`
pub fn put_truncate(out: &Answer, octets: &[u8], len: usize) {
    let mut left = octets;
    Truncate::truncate(&mut left, len);
    out.put_hex(left);
    is_shortened(out, octets, len, left);
    is_shortened(out, CowSlice::Borrowed(octets), len, left);
    let copy = out.copy_of(octets);
    is_shortened(out, copy, len, left);
    let copy = out.copy_of(octets);
    is_shortened(out, CowSlice::Owned(copy), len, left);
    match ArrayVec::<u8, 255>::try_from(octets) {
        Ok(copy) => is_shortened(out, copy, len, left),
        Err(_) => out.fail(Fail::Bad),
    }
}

/// Writes one octet at an offset of octets of any kind.
fn put_written<T: OctetsMut + Drop>(out: &Answer, octets: T, offset: usize, octet: u8) {
    let mut octets = octets;
    match octets.as_slice_mut().get_mut(offset) {
        Some(written) => *written = octet,
        None => out.fail(Fail::Bad),
    }
    out.put_hex(Octets::as_slice(&octets));
}

/// `write OCTETS PLACE OCTET`: over a `Vec`, and over an array.
pub fn put_write(out: &Answer, octets: &[u8], offset: usize, written: &[u8]) {
    let [octet] = written else {
        return out.fail(Fail::Bad);
    };
    let copy = out.copy_of(octets);
    put_written(out, copy, offset, *octet);
    out.put(b" ");
    match ArrayVec::<u8, 255>::try_from(octets) {
        Ok(mut copy) => put_written(out, &mut copy, offset, *octet),
        Err(_) => out.fail(Fail::Bad),
    }
}

/// What a builder has when octets were appended to it twice, and whether that was refused.
fn put_appended<B: EmptyBuilder + FreezeBuilder + Drop>(out: &Answer, first: &[u8], second: &[u8]) {
    let mut builder = B::empty(out.alloc());
    put_told(
        out,
        OctetsBuilder::append_slice(&mut builder, first).is_ok(),
    );
    let mut lent = &mut builder;
    put_told(out, OctetsBuilder::append_slice(&mut lent, second).is_ok());
    out.put_hex(Octets::as_slice(&builder));
}

fn put_told(out: &Answer, taken: bool) {
    out.put(if taken { b"ok " } else { b"err " });
}

/// `append A B`: to an empty array of 8 octets, and to an empty `Vec`.
pub fn put_append(out: &Answer, first: &[u8], second: &[u8]) {
    put_appended::<ArrayVec<u8, 8>>(out, first, second);
    out.put(b" ");
    put_appended::<Vec<u8>>(out, first, second);
    is_frozen(out, first);
}

/// A new builder has its room, and what was appended goes over.
fn is_frozen(out: &Answer, octets: &[u8]) {
    let room: Result<ArrayVec<u8, 8>, ShortBuf> = EmptyBuilder::with_capacity(
        out.alloc(),
        octets.len(),
    );
    out.agree_all(
        b"ROOM;ROOM;with_capacity",
        &[
            <ArrayVec<u8, 8> as EmptyBuilder>::ROOM == Some(8),
            <Vec<u8> as EmptyBuilder>::ROOM.is_none(),
            room.is_ok(),
        ],
    );
    let made: Result<Vec<u8>, ShortBuf> = EmptyBuilder::with_capacity(out.alloc(), octets.len());
    match made {
        Ok(builder) => is_filled(out, builder, octets),
        Err(_) => out.fail(Fail::Memory),
    }
}

fn is_filled(out: &Answer, builder: Vec<u8>, octets: &[u8]) {
    let mut builder = builder;
    out.agree(builder.capacity() >= octets.len(), b"with_capacity");
    let is_taken = OctetsBuilder::append_slice(&mut builder, octets).is_ok();
    out.took(is_taken);
    let frozen = FreezeBuilder::freeze(builder);
    out.same(frozen.as_slice(), octets, b"freeze");
    let again = <Vec<u8> as FromBuilder>::from_builder(frozen);
    out.same(again.as_slice(), octets, b"from_builder");
}

/// `from OCTETS`: over an array of 4 octets, and over octets of the other kinds.
pub fn put_from(out: &Answer, octets: &[u8]) {
    match <&[u8]>::try_octets_from(out.alloc(), octets) {
        Ok(made) => out.put_hex(made),
        Err(_) => out.wrong(b"try_octets_from"),
    }
    out.put(b" ");
    let held: Result<ArrayVec<u8, 4>, ShortBuf> = ArrayVec::<u8, 4>::try_octets_from(
        out.alloc(),
        octets,
    );
    match held {
        Ok(made) => out.put_hex(made.as_slice()),
        Err(error) => out.put_text(error),
    }
    match CowSlice::<'_, u8>::try_octets_from(out.alloc(), octets) {
        Ok(made) => out.same(Octets::as_slice(&made), octets, b"try_octets_from"),
        Err(_) => out.wrong(b"try_octets_from"),
    }
    is_made_of_vec(out, octets);
    is_made_of_itself(out, octets);
}

fn is_made_of_itself(out: &Answer, octets: &[u8]) {
    match CowSlice::<'_, u8>::try_octets_from(out.alloc(), CowSlice::Borrowed(octets)) {
        Ok(made) => out.same(Octets::as_slice(&made), octets, b"try_octets_from"),
        Err(_) => out.wrong(b"try_octets_from"),
    }
    let Ok(held) = ArrayVec::<u8, 255>::try_from(octets) else {
        return out.fail(Fail::Bad);
    };
    match ArrayVec::<u8, 255>::try_octets_from(out.alloc(), held) {
        Ok(made) => out.same(made.as_slice(), octets, b"try_octets_from"),
        Err(_) => out.wrong(b"try_octets_from"),
    }
}

fn is_made_of_vec(out: &Answer, octets: &[u8]) {
    let Ok(made) = Vec::<u8>::try_octets_from(out.alloc(), octets) else {
        return out.fail(Fail::Memory);
    };
    let Ok(same) = Vec::<u8>::try_octets_from(out.alloc(), made) else {
        return out.wrong(b"try_octets_from");
    };
    out.same(same.as_slice(), octets, b"try_octets_from");
    match CowSlice::<'_, u8>::try_octets_from(out.alloc(), same) {
        Ok(made) => out.same(Octets::as_slice(&made), octets, b"try_octets_from"),
        Err(_) => out.wrong(b"try_octets_from"),
    }
}

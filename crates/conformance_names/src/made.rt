//! What a name of any kind is made into.
//!
//! A function that is generic over names is expensive to check. So each kind has one here, which hands what was
//! made to functions that aren't.

use crate::octets::{absolute_of, relative_of};
use arrayvec::ArrayVec;
use conformance_labels::{Answer, Fail};
use domain_list::{AbsoluteLabels, RelativeLabels};
use domain_name::{Name, NameBuilder, RelativeName};
use domain_traits::{ToName, ToRelativeName};
use octseq::{OctetsBuilder, ShortBuf};
use std::borrow::CowSlice;

/// How many octets an array has that can be too small for a name.
pub const SIZE: usize = 17;

/// An array with this much room after the octets that it holds.
fn with_room(out: &Answer, room: usize) -> ArrayVec<u8, SIZE> {
    let mut target = ArrayVec::new();
    for _held in room..SIZE {
        out.agree(target.append_slice(b"\xaa").is_ok(), b"append_slice");
    }
    target
}

fn put_composed(out: &Answer, refused: bool, octets: &[u8]) {
    out.put(if refused { b"err " } else { b"ok " });
    out.put_hex(octets);
}

/// Puts octets that were composed into an empty `Vec`.
fn put_all_composed(out: &Answer, word: &[u8], taken: bool, octets: &Vec<u8>) {
    out.took(taken);
    out.put_hex_after(word, octets.as_slice());
    out.asked_once(octets, b"memory of compose");
}

/// A name in a `Vec` is this one.
fn is_made<E: Drop>(out: &Answer, made: Result<Name<Vec<u8>>, E>, wanted: &[u8], call: &[u8]) {
    match made {
        Ok(made) => {
            out.same(made.as_slice(), wanted, call);
            out.asked_once(made.as_octets(), call);
        }
        Err(_) => out.fail(Fail::Memory),
    }
}

fn put_cow(out: &Answer, octets: &CowSlice<'_, u8>) {
    match octets {
        CowSlice::Borrowed(_) => out.put(b" cow=lent"),
        CowSlice::Owned(made) => {
            out.put(b" cow=own");
            out.asked_once(made, b"memory of to_cow");
        }
    }
}

/// Puts whether `to_cow` borrowed the octets.
fn put_cow_name(out: &Answer, made: Result<Name<CowSlice<'_, u8>>, ShortBuf>, wanted: &[u8]) {
    match made {
        Ok(made) => {
            put_cow(out, made.as_octets());
            out.same(made.as_slice(), wanted, b"to_cow");
        }
        Err(_) => out.fail(Fail::Memory),
    }
}

fn is_lent(out: &Answer, lent: Option<&[u8]>, wanted: &[u8]) {
    if let Some(lent) = lent {
        out.same(lent, wanted, b"as_flat_slice");
    }
}

fn put_held(out: &Answer, word: &[u8], made: Result<Name<ArrayVec<u8, 17>>, ShortBuf>) {
    out.put(word);
    match made {
        Ok(made) => out.put_hex(made.as_slice()),
        Err(error) => out.put_text(error),
    }
}

/// The name over a `Vec`, its canonical form, and whether `to_cow` lends; then the same over 17 octets, and what is
/// composed into 17 octets after one octet. After these the text with a final dot, and the labels that a signature
/// counts.
pub fn put_forms<'a, N: AbsoluteLabels<'a>>(out: &Answer, name: &'a N) {
    let alloc = out.alloc();
    let mut wire: Vec<u8> = Vec::new(alloc);
    let taken = name.compose(&mut wire).is_ok();
    put_all_composed(out, b"made=", taken, &wire);
    is_made(out, name.to_vec(alloc), wire.as_slice(), b"to_vec");
    is_made(out, name.to_name(alloc), wire.as_slice(), b"to_name");
    let origin = NameBuilder::new_vec(alloc).append_origin(name);
    is_made(out, origin, wire.as_slice(), b"append_origin");
    let mut lowered: Vec<u8> = Vec::new(alloc);
    let taken = name.compose_canonical(&mut lowered).is_ok();
    put_all_composed(out, b" canonical=", taken, &lowered);
    is_made(
        out,
        name.to_canonical_name(alloc),
        lowered.as_slice(),
        b"to_canonical_name",
    );
    put_cow_name(out, name.to_cow(alloc), wire.as_slice());
    is_lent(out, name.as_flat_slice(), wire.as_slice());
    put_held(out, b" held=", name.try_to_name(alloc));
    put_held(out, b" lowered=", name.try_to_canonical_name(alloc));
    out.put(b" composed=");
    put_appended(out, name, 16);
    out.put_shown_after(b" dotted=", name.fmt_with_dot());
    out.put_text_after(b" rrsig=", name.rrsig_label_count());
}

/// What is composed after other octets that leave so much room, and the same of the canonical form.
pub fn put_appended<'a, N: AbsoluteLabels<'a>>(out: &Answer, name: &'a N, room: usize) {
    let mut target = with_room(out, room);
    let refused = name.compose(&mut target).is_err();
    put_composed(out, refused, target.as_slice());
    let mut target = with_room(out, room);
    let refused = name.compose_canonical(&mut target).is_err();
    out.put(b" ");
    put_composed(out, refused, target.as_slice());
}

/// `forms NAME`
pub fn put_flat_forms(out: &Answer, octets: &[u8]) {
    let name = absolute_of(out, octets);
    put_forms(out, &name);
}

/// `lentforms NAME`: those of a reference to the name.
pub fn put_lent_forms(out: &Answer, octets: &[u8]) {
    let name = absolute_of(out, octets);
    put_forms(out, &&name);
}

/// A relative name in a `Vec` is this one.
fn is_relative_made(
    out: &Answer,
    made: Result<RelativeName<Vec<u8>>, ShortBuf>,
    wanted: &[u8],
    call: &[u8],
) {
    match made {
        Ok(made) => {
            out.same(made.as_slice(), wanted, call);
            out.asked_once(made.as_octets(), call);
        }
        Err(_) => out.fail(Fail::Memory),
    }
}

/// A builder that took the labels of the name has them.
fn is_appended(out: &Answer, taken: bool, builder: NameBuilder<Vec<u8>>, wanted: &[u8]) {
    out.took(taken);
    let made = builder.finish();
    out.same(made.as_slice(), wanted, b"append_name");
    out.asked_once(made.as_octets(), b"memory of append_name");
}

fn put_cow_relative(
    out: &Answer,
    made: Result<RelativeName<CowSlice<'_, u8>>, ShortBuf>,
    wanted: &[u8],
) {
    match made {
        Ok(made) => {
            put_cow(out, made.as_octets());
            out.same(made.as_slice(), wanted, b"to_cow");
        }
        Err(_) => out.fail(Fail::Memory),
    }
}

fn put_relative_held(
    out: &Answer,
    word: &[u8],
    made: Result<RelativeName<ArrayVec<u8, 17>>, ShortBuf>,
) {
    out.put(word);
    match made {
        Ok(made) => out.put_hex(made.as_slice()),
        Err(error) => out.put_text(error),
    }
}

/// What `put_forms` tells, of a relative name.
pub fn put_relative_forms<'a, N: RelativeLabels<'a>>(out: &Answer, name: &'a N) {
    let alloc = out.alloc();
    let mut wire: Vec<u8> = Vec::new(alloc);
    let taken = name.compose(&mut wire).is_ok();
    put_all_composed(out, b"made=", taken, &wire);
    out.agree(name.is_empty() == wire.is_empty(), b"is_empty");
    is_relative_made(out, name.to_vec(alloc), wire.as_slice(), b"to_vec");
    is_relative_made(
        out,
        name.to_relative_name(alloc),
        wire.as_slice(),
        b"to_relative_name",
    );
    let mut builder = NameBuilder::new_vec(alloc);
    let taken = builder.append_name(name).is_ok();
    is_appended(out, taken, builder, wire.as_slice());
    let mut lowered: Vec<u8> = Vec::new(alloc);
    let taken = name.compose_canonical(&mut lowered).is_ok();
    put_all_composed(out, b" canonical=", taken, &lowered);
    let canonical = name.to_canonical_relative_name(alloc);
    is_relative_made(
        out,
        canonical,
        lowered.as_slice(),
        b"to_canonical_relative_name",
    );
    put_cow_relative(out, name.to_cow(alloc), wire.as_slice());
    is_lent(out, name.as_flat_slice(), wire.as_slice());
    put_relative_held(out, b" held=", name.try_to_relative_name(alloc));
    put_relative_held(
        out,
        b" lowered=",
        name.try_to_canonical_relative_name(alloc),
    );
    out.put(b" composed=");
    put_relative_appended(out, name, 16);
}

/// What `put_appended` tells, of a relative name.
pub fn put_relative_appended<'a, N: RelativeLabels<'a>>(out: &Answer, name: &'a N, room: usize) {
    let mut target = with_room(out, room);
    let refused = name.compose(&mut target).is_err();
    put_composed(out, refused, target.as_slice());
    let mut target = with_room(out, room);
    let refused = name.compose_canonical(&mut target).is_err();
    out.put(b" ");
    put_composed(out, refused, target.as_slice());
}

/// `relforms NAME`
pub fn put_relative_flat_forms(out: &Answer, octets: &[u8]) {
    let name = relative_of(out, octets);
    put_relative_forms(out, &name);
}

/// `lentrelforms NAME`: those of a reference to the name.
pub fn put_lentrelforms(out: &Answer, octets: &[u8]) {
    let name = relative_of(out, octets);
    put_relative_forms(out, &&name);
}

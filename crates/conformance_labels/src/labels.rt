//! Labels: split from octets, compared, composed, and lowered in place.

use crate::answer::Answer;
use arrayvec::ArrayVec;
use domain_label::{Label, OwnedLabel};
use octseq::OctetsBuilder;
use std::hash::{DefaultHasher, Hash, Hasher};

/// `label A B`
pub fn put_label(out: &Answer, a: &[u8], b: &[u8]) {
    match Label::from_slice(a) {
        Ok(left) => match Label::from_slice(b) {
            Ok(right) => put_two_labels(out, left, right),
            Err(error) => out.put_text(error),
        },
        Err(error) => out.put_text(error),
    }
}

fn put_two_labels(out: &Answer, a: Label<'_>, b: Label<'_>) {
    out.put_bit(b"eq=", a == b);
    out.put_order(b" cmp=", a.cmp(&b));
    out.put_order(b" composed=", a.composed_cmp(&b));
    out.put_order(b" lower=", a.lowercase_composed_cmp(&b));
    out.put_shown_after(b" text=", a);
    out.put_bit(b" root=", a.is_root());
    out.put_bit(b" wild=", a.is_wildcard());
    out.put(b" wire=");
    put_composed(out, a);
    out.put(b" canonical=");
    put_lowered(out, a);
    out.put_text_after(b" len=", a.compose_len());
    is_compared_as_owned(out, a, b);
    gives_octets(out, a);
    is_owned(out, a);
    is_composed_where_it_fits(out, a);
}

/// A label goes into the room that it just fits, and an octet less refuses it and stays.
fn is_composed_where_it_fits(out: &Answer, label: Label<'_>) {
    let len = usize::from(label.compose_len());
    let mut fits = room_for(out, len);
    let mut full = room_for(out, len);
    let is_full = full.append_slice(b"\xee").is_ok();
    let held = full.len();
    out.agree_all(
        b"compose of what fits;append_slice;compose of what exceeds the room;compose of what exceeds the room;compose of what exceeds the room",
        &[
            label.compose(&mut fits).is_ok(),
            is_full,
            label.compose(&mut full).is_err(),
            label.compose_canonical(&mut full).is_err(),
            full.len() == held,
        ],
    );
}

/// An array of 64 octets that has room for so many more.
fn room_for(out: &Answer, len: usize) -> ArrayVec<u8, 64> {
    let mut room = ArrayVec::<u8, 64>::new();
    for _octet in len..64 {
        out.agree(room.append_slice(b"\xee").is_ok(), b"append_slice");
    }
    room
}

fn put_composed(out: &Answer, label: Label<'_>) {
    let mut wire: Vec<u8> = Vec::new(out.alloc());
    let is_taken = label.compose(&mut wire).is_ok();
    out.took(is_taken);
    out.put_hex(wire.as_slice());
    let owned = OwnedLabel::from_label(label);
    out.same(owned.as_wire_slice(), wire.as_slice(), b"as_wire_slice");
}

fn put_lowered(out: &Answer, label: Label<'_>) {
    let mut lowered: Vec<u8> = Vec::new(out.alloc());
    let is_taken = label.compose_canonical(&mut lowered).is_ok();
    out.took(is_taken);
    out.put_hex(lowered.as_slice());
    let canonical = label.to_canonical();
    out.same(
        canonical.as_wire_slice(),
        lowered.as_slice(),
        b"to_canonical",
    );
    let mut owned = OwnedLabel::from_label(label);
    owned.make_canonical();
    out.same(owned.as_wire_slice(), lowered.as_slice(), b"make_canonical");
    let mut lent = OwnedLabel::from_label(label);
    lower_lent(&mut lent);
    out.same(lent.as_wire_slice(), lowered.as_slice(), b"as_label_mut");
}

fn lower_lent(owned: &mut OwnedLabel) {
    let mut label = owned.as_label_mut();
    label.make_canonical();
}

fn hash_of(label: Label<'_>) -> u64 {
    let mut hasher = DefaultHasher::new();
    label.hash(&mut hasher);
    hasher.finish()
}

fn owned_hash_of(label: OwnedLabel) -> u64 {
    let mut hasher = DefaultHasher::new();
    label.hash(&mut hasher);
    hasher.finish()
}

/// Owned labels compare and hash as labels, and equal ones hash alike.
fn is_compared_as_owned(out: &Answer, a: Label<'_>, b: Label<'_>) {
    let left = OwnedLabel::from(a);
    let right = OwnedLabel::from(b);
    let hash = hash_of(a);
    out.agree_all(
        b"== of owned labels;cmp of owned labels;partial_cmp;hash;hash of owned labels",
        &[
            (left == right) == (a == b),
            left.cmp(&right) == a.cmp(&b),
            a.partial_cmp(&b) == Some(a.cmp(&b)),
            a != b || hash == hash_of(b),
            owned_hash_of(left) == hash,
        ],
    );
}

/// The octets of a label come from its iterators.
fn gives_octets(out: &Answer, label: Label<'_>) {
    let octets = label.as_slice();
    out.agree_all(
        b"len;is_empty;iter;into_iter",
        &[
            label.len() == octets.len(),
            label.is_empty() == octets.is_empty(),
            label.iter().eq(octets.iter().copied()),
            label.into_iter().eq(octets.iter().copied()),
        ],
    );
}

/// An owned label lends the label that it was made from, and is shown as that.
fn is_owned(out: &Answer, label: Label<'_>) {
    let owned = OwnedLabel::from_label(label);
    out.same(owned.as_label().as_slice(), label.as_slice(), b"as_label");
    out.shown_alike(owned, label, b"text of owned labels");
}

/// `slice MSG START`
pub fn put_slice(out: &Answer, message: &[u8], start: usize) {
    let mut is_first = true;
    for label in Label::iter_slice(message, start) {
        out.put_comma(&mut is_first);
        out.put_hex(label.as_slice());
    }
    out.put_none(is_first);
}

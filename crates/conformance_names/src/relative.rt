//! Relative names in one piece.

use crate::octets::relative_of;
use crate::orders::{put_orders, wire_of};
use conformance_labels::{Answer, Fail, put_relative_name_error};
use domain_label::Label;
use domain_list::NameLabels;
use domain_name::RelativeName;
use domain_traits::ToRelativeName;

/// `rel OCTETS`
pub fn put_rel(out: &Answer, octets: &[u8]) {
    match RelativeName::from_slice(octets) {
        Ok(name) => {
            out.same(name.as_slice(), octets, b"from_slice");
            out.put(b"ok");
        }
        Err(error) => {
            out.put(b"err ");
            put_relative_name_error(out, error);
        }
    }
}

fn put_label_or_none(out: &Answer, label: Option<Label<'_>>) {
    match label {
        Some(label) => out.put_hex(label.as_slice()),
        None => out.put(b"none"),
    }
}

/// `relshow NAME`
pub fn put_relshow(out: &Answer, octets: &[u8]) {
    let name = relative_of(out, octets);
    out.put_shown_after(b"text=", &name);
    out.put_number_after(b" ndots=", name.ndots());
    out.put_number_after(b" labels=", name.label_count());
    out.put(b" canonical=");
    put_canonical(out, name);
    out.put(b" first=");
    put_label_or_none(out, name.first());
    out.put(b" last=");
    put_label_or_none(out, name.last());
    out.agree_all(
        b"compose_len;is_empty",
        &[
            name.compose_len() as usize == name.len(),
            name.is_empty() == (name.len() == 0),
        ],
    );
}

fn put_canonical(out: &Answer, name: RelativeName<&[u8]>) {
    let made: Result<RelativeName<Vec<u8>>, _> = name.to_canonical_relative_name(out.alloc());
    let Ok(canonical) = made else {
        return out.fail(Fail::Memory);
    };
    out.put_hex(canonical.as_slice());
    let Ok(mut again) = name.to_vec(out.alloc()) else {
        return out.fail(Fail::Memory);
    };
    again.make_canonical();
    out.same(again.as_slice(), canonical.as_slice(), b"make_canonical");
}

/// `relwalk NAME`
pub fn put_relwalk(out: &Answer, octets: &[u8]) {
    let name = relative_of(out, octets);
    put_orders(out, name.iter());
    out.put(b" ");
    put_first(out, name);
    gives_labels(out, &name);
}

/// The labels of a reference to a name, written one after the other, are the name's octets.
fn gives_labels<'a>(out: &Answer, name: &'a RelativeName<&'a [u8]>) {
    let wire = wire_of(out, name.into_iter());
    out.same(wire.as_slice(), name.as_slice(), b"into_iter");
}

/// The first label and the rest.
fn put_first(out: &Answer, name: RelativeName<&[u8]>) {
    match name.split_first() {
        None => out.put(b"none"),
        Some((label, rest)) => {
            out.put_hex(label.as_slice());
            out.put_hex_after(b":", rest.as_slice());
        }
    }
}

/// `parents NAME`: what `parent` leaves, of the name, then of that, four times at most.
pub fn put_parents(out: &Answer, octets: &[u8]) {
    let name = relative_of(out, octets);
    let Some(second) = name.parent() else {
        return out.put(b"none");
    };
    out.put_hex(second.as_slice());
    let Some(third) = second.parent() else {
        return out.put(b",none");
    };
    out.put_hex_after(b",", third.as_slice());
    let Some(fourth) = third.parent() else {
        return out.put(b",none");
    };
    out.put_hex_after(b",", fourth.as_slice());
    match fourth.parent() {
        Some(fifth) => out.put_hex_after(b",", fifth.as_slice()),
        None => out.put(b",none"),
    }
}

/// `relsplit NAME PLACE`
pub fn put_relsplit(out: &Answer, octets: &[u8], mid: usize) {
    let name = relative_of(out, octets);
    if !name.is_label_start(mid) {
        return out.put(b"no");
    }
    let (left, right) = name.split(mid);
    out.put_hex_after(b"yes ", left.as_slice());
    out.put_hex_after(b" ", right.as_slice());
    let mut short = name;
    short.truncate(mid);
    out.same(short.as_slice(), left.as_slice(), b"truncate");
}

/// `relpart NAME BEGIN END`
pub fn put_relpart(out: &Answer, octets: &[u8], begin: usize, end: usize) {
    let name = relative_of(out, octets);
    if begin <= end && name.is_label_start(begin) && name.is_label_start(end) {
        let part = name.slice(begin..end);
        out.put_hex_after(b"yes ", part.as_slice());
        out.agree(name.range(begin..end) == part, b"range");
    } else {
        out.put(b"no");
    }
}

/// `relstrip NAME BASE`
pub fn put_relstrip(out: &Answer, octets: &[u8], base: &[u8]) {
    let mut name = relative_of(out, octets);
    let base = relative_of(out, base);
    match name.strip_suffix(&base) {
        Ok(()) => {
            out.put_hex_after(b"ok ", name.as_slice());
        }
        Err(error) => {
            out.put_hex_after(b"err ", name.as_slice());
            out.put_text_after(b" ", error);
        }
    }
}

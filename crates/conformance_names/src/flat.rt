//! Absolute names in one piece.

use crate::octets::absolute_of;
use crate::orders::{put_orders, wire_of};
use conformance_labels::{Answer, Fail, put_name_error, put_parse_error};
use domain_flat::NameError;
use domain_list::NameLabels;
use domain_name::{Name, RelativeName};
use domain_traits::{ToName, ToRelativeName};
use domain_wire::{FormError, ParseError};

/// `name OCTETS`
pub fn put_name(out: &Answer, octets: &[u8]) {
    match Name::from_slice(octets) {
        Ok(name) => {
            out.same(name.as_slice(), octets, b"from_slice");
            out.put(b"ok");
        }
        Err(error) => {
            out.put(b"err ");
            put_name_error(out, error);
        }
    }
}

/// `show NAME`
pub fn put_show(out: &Answer, octets: &[u8]) {
    let name = absolute_of(out, octets);
    put_texts(out, name);
    out.put_text_after(b" rrsig=", name.rrsig_label_count());
    out.put_number_after(b" labels=", name.label_count());
    out.put(b" canonical=");
    put_canonical(out, name);
    out.put_hex_after(b" first=", name.first().as_slice());
    out.put(b" suffixes=");
    put_suffixes(out, name);
    out.agree_all(
        b"last;compose_len;is_root",
        &[
            name.last().is_root(),
            name.compose_len() as usize == name.len(),
            name.is_root() == (name.len() == 1),
        ],
    );
}

fn put_texts(out: &Answer, name: Name<&[u8]>) {
    out.put_shown_after(b"text=", &name);
    out.put_shown_after(b" dotted=", name.fmt_with_dot());
}

fn put_canonical(out: &Answer, name: Name<&[u8]>) {
    let made: Result<Name<Vec<u8>>, _> = name.to_canonical_name(out.alloc());
    let Ok(canonical) = made else {
        return out.fail(Fail::Memory);
    };
    out.put_hex(canonical.as_slice());
    let Ok(mut again) = name.to_vec(out.alloc()) else {
        return out.fail(Fail::Memory);
    };
    again.make_canonical();
    out.same(again.as_slice(), canonical.as_slice(), b"make_canonical");
}

fn put_suffixes(out: &Answer, name: Name<&[u8]>) {
    let mut is_first = true;
    for suffix in name.iter_suffixes() {
        out.put_comma(&mut is_first);
        out.put_hex(suffix.as_slice());
    }
}

/// `flatwalk NAME`
pub fn put_flatwalk(out: &Answer, octets: &[u8]) {
    let name = absolute_of(out, octets);
    put_orders(out, name.iter());
    out.put(b" ");
    let mut is_first = true;
    for suffix in name.iter_suffixes() {
        put_rest(out, suffix, &mut is_first);
    }
    out.put_none(is_first);
    gives_labels(out, &name);
}

/// The labels of a reference to a name, written one after the other, are the name's octets.
fn gives_labels<'a>(out: &Answer, name: &'a Name<&'a [u8]>) {
    let wire = wire_of(out, name.into_iter());
    out.same(wire.as_slice(), name.as_slice(), b"into_iter");
}

/// The first label and the rest, which is the parent.
fn put_rest(out: &Answer, name: Name<&[u8]>, is_first: &mut bool) {
    match name.split_first() {
        None => out.agree(name.parent().is_none(), b"parent"),
        Some((label, rest)) => {
            out.put_comma(is_first);
            out.put_hex(label.as_slice());
            out.put_hex_after(b":", rest.as_slice());
            out.agree(name.parent() == Some(rest), b"parent");
        }
    }
}

/// `split NAME PLACE`
pub fn put_split(out: &Answer, octets: &[u8], mid: usize) {
    let name = absolute_of(out, octets);
    if !name.is_label_start(mid) {
        return out.put(b"no");
    }
    let (left, right) = name.split(mid);
    out.put_hex_after(b"yes ", left.as_slice());
    out.put_hex_after(b" ", right.as_slice());
    out.agree_all(
        b"slice_from;range_from;truncate",
        &[
            name.slice_from(mid) == right,
            name.range_from(mid) == right,
            name.truncate(mid) == left,
        ],
    );
}

/// `part NAME BEGIN END`
pub fn put_part(out: &Answer, octets: &[u8], begin: usize, end: usize) {
    let name = absolute_of(out, octets);
    if begin <= end && name.is_label_start(begin) && name.is_label_start(end) {
        let part = name.slice(begin..end);
        out.put_hex_after(b"yes ", part.as_slice());
        out.agree(name.range(begin..end) == part, b"range");
    } else {
        out.put(b"no");
    }
}

/// `strip NAME BASE`
pub fn put_strip(out: &Answer, octets: &[u8], base: &[u8]) {
    let name = absolute_of(out, octets);
    let base = absolute_of(out, base);
    put_stripped(out, name.strip_suffix(&base));
}

pub fn put_stripped(out: &Answer, stripped: Result<RelativeName<&[u8]>, Name<&[u8]>>) {
    match stripped {
        Ok(rest) => {
            out.put_hex_after(b"ok ", rest.as_slice());
        }
        Err(name) => {
            out.put_hex_after(b"err ", name.as_slice());
        }
    }
}

/// `nameerrors OCTETS`: what the refusal of an absolute name becomes where it is handed on.
pub fn put_nameerrors(out: &Answer, octets: &[u8]) {
    match Name::from_slice(octets) {
        Ok(_) => out.put(b"ok"),
        Err(error) => put_handed_on(out, error),
    }
}

fn put_handed_on(out: &Answer, error: NameError) {
    out.put_text_after(b"form=", FormError::from(error));
    out.put(b" parse=");
    put_parse_error(out, ParseError::from(error));
}

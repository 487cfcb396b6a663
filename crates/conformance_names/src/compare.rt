//! Names compared, with names of their kind and of others.

use crate::octets::{absolute_of, relative_of};
use conformance_labels::Answer;
use domain_list::{AbsoluteLabels, RelativeLabels};
use domain_name::{Name, RelativeName};
use domain_traits::{ToName, ToRelativeName};
use std::cmp::Ordering;
use std::hash::{DefaultHasher, Hash, Hasher};

/// The digest of octets, each fed as one number.
fn digest(octets: &[u8]) -> u64 {
    let mut hasher = DefaultHasher::new();
    for octet in octets {
        hasher.write_u8(*octet);
    }
    hasher.finish()
}

/// Puts the octets that a name feeds a hasher, which the digest of these tells.
fn put_fed_octets<N: Hash>(out: &Answer, name: &N, octets: &[u8]) {
    let mut hasher = DefaultHasher::new();
    name.hash(&mut hasher);
    out.agree(hasher.finish() == digest(octets), b"hash");
    out.put_hex(octets);
}

/// A name feeds a hasher its lowered wire format.
fn put_fed<'a, N: AbsoluteLabels<'a> + Hash>(out: &Answer, name: &'a N) {
    let mut octets = Vec::new(out.alloc());
    let is_taken = name.compose_canonical(&mut octets).is_ok();
    out.took(is_taken);
    put_fed_octets(out, name, octets.as_slice());
}

fn put_relative_fed<'a, N: RelativeLabels<'a> + Hash>(out: &Answer, name: &'a N) {
    let mut octets = Vec::new(out.alloc());
    let is_taken = name.compose_canonical(&mut octets).is_ok();
    out.took(is_taken);
    put_fed_octets(out, name, octets.as_slice());
}

/// The operators and calls of one kind of names tell this.
fn is_ordered<N: Ord>(out: &Answer, a: &N, b: &N, same: bool, order: Ordering) {
    out.agree_all(
        b"==;cmp;partial_cmp",
        &[
            (a == b) == same,
            a.cmp(b) == order,
            a.partial_cmp(b) == Some(order),
        ],
    );
}

pub fn put_related<'a, A: AbsoluteLabels<'a>, B: AbsoluteLabels<'a>>(
    out: &Answer,
    a: &'a A,
    b: &'a B,
) {
    out.put_bit(b"eq=", a.name_eq(b));
    out.put_order(b" cmp=", a.name_cmp(b));
    out.put_order(b" composed=", a.composed_cmp(b));
    out.put_order(b" lower=", a.lowercase_composed_cmp(b));
    out.put_bit(b" starts=", a.starts_with(b));
    out.put_bit(b" ends=", a.ends_with(b));
}

pub fn put_compared<'a, A: AbsoluteLabels<'a> + Hash, B: AbsoluteLabels<'a> + Hash>(
    out: &Answer,
    a: &'a A,
    b: &'a B,
) {
    put_related(out, a, b);
    out.put(b" hash=");
    put_fed(out, a);
    out.put(b" ");
    put_fed(out, b);
}

/// Two names of one kind, and their operators.
pub fn put_twins<'a, N: AbsoluteLabels<'a> + Ord + Hash>(out: &Answer, a: &'a N, b: &'a N) {
    put_compared(out, a, b);
    is_ordered(out, a, b, a.name_eq(b), a.name_cmp(b));
}

/// `cmp A B`
pub fn put_cmp(out: &Answer, a: &[u8], b: &[u8]) {
    let a = absolute_of(out, a);
    let b = absolute_of(out, b);
    put_twins(out, &a, &b);
}

fn put_relative_twins<'a, N: RelativeLabels<'a> + Ord + Hash>(out: &Answer, a: &'a N, b: &'a N) {
    put_relative_related(out, a, b);
    is_ordered(out, a, b, a.name_eq(b), a.name_cmp(b));
    out.put(b" hash=");
    put_relative_fed(out, a);
    out.put(b" ");
    put_relative_fed(out, b);
}

/// `relcmp A B`
pub fn put_relcmp(out: &Answer, a: &[u8], b: &[u8]) {
    let a = relative_of(out, a);
    let b = relative_of(out, b);
    put_relative_twins(out, &a, &b);
}

/// Whether an absolute name begins and ends with a relative one, and the relative one with it.
pub fn put_ends_of<'a, A: AbsoluteLabels<'a>, R: RelativeLabels<'a>>(
    out: &Answer,
    a: &'a A,
    r: &'a R,
) {
    out.put_bit(b"", a.starts_with(r));
    out.put_bit(b"", a.ends_with(r));
    out.put_bit(b"", r.starts_with(a));
    out.put_bit(b"", r.ends_with(a));
}

/// `ends ABSOLUTE RELATIVE`
pub fn put_ends(out: &Answer, absolute: &[u8], relative: &[u8]) {
    let a = absolute_of(out, absolute);
    let r = relative_of(out, relative);
    put_ends_of(out, &a, &r);
}

/// How a relative name compares with another.
fn put_relative_related<'a, A: RelativeLabels<'a>, B: RelativeLabels<'a>>(
    out: &Answer,
    a: &'a A,
    b: &'a B,
) {
    out.put_bit(b"eq=", a.name_eq(b));
    out.put_order(b" cmp=", a.name_cmp(b));
    out.put_bit(b" starts=", a.starts_with(b));
    out.put_bit(b" ends=", a.ends_with(b));
}

/// Two absolute names, on either side.
pub fn put_both_related<'a, A: AbsoluteLabels<'a>, B: AbsoluteLabels<'a>>(
    out: &Answer,
    a: &'a A,
    b: &'a B,
) {
    put_related(out, a, b);
    out.put(b" / ");
    put_related(out, b, a);
}

/// Two relative names, on either side.
pub fn put_both_relative_related<'a, A: RelativeLabels<'a>, B: RelativeLabels<'a>>(
    out: &Answer,
    a: &'a A,
    b: &'a B,
) {
    put_relative_related(out, a, b);
    out.put(b" / ");
    put_relative_related(out, b, a);
}

//! Every call that names have, over a name of any kind.

use crate::names::{LOWER_WWW, WWW, absolute, octets_of, relative, relative_octets_of};
use arrayvec::ArrayVec;
use domain_list::{AbsoluteLabels, RelativeLabels, ToLabelIter};
use domain_name::{Name, RelativeName};
use domain_traits::{ToName, ToRelativeName};
use octseq::{Octets, ShortBuf};
use std::alloc::Global;
use std::borrow::CowSlice;
use std::cmp::Ordering;
use std::process::Abort;

/// What the calls of a name must give.
#[derive(Clone, Copy)]
pub struct Wanted<'w> {
    wire: &'w [u8],
    /// The labels from the last one on.
    turned: &'w [u8],
    canonical: &'w [u8],
}

/// Of `www.Example.com.`
pub const ABSOLUTE: Wanted<'static> = Wanted {
    wire: WWW,
    turned: b"\0\x03com\x07Example\x03www",
    canonical: LOWER_WWW,
};

/// Of `www.Example`
pub const RELATIVE: Wanted<'static> = Wanted {
    wire: b"\x03www\x07Example",
    turned: b"\x07Example\x03www",
    canonical: b"\x03www\x07example",
};

/// Names that an absolute one is compared with.
#[derive(Clone, Copy)]
pub struct Others<'b> {
    twin: Name<&'b [u8]>,
    other: Name<&'b [u8]>,
    start: RelativeName<&'b [u8]>,
    end: Name<&'b [u8]>,
}

pub fn names_beside(rt: &impl Abort) -> Others<'static> {
    Others {
        twin: absolute(rt, b"\x03www\x07EXAMPLE\x03com\0"),
        other: absolute(rt, b"\x02zz\x07Example\x03com\0"),
        start: relative(rt, b"\x03WWW\x07example"),
        end: absolute(rt, b"\x07EXAMPLE\x03com\0"),
    }
}

/// Names that a relative one is compared with.
#[derive(Clone, Copy)]
pub struct RelativeOthers<'b> {
    twin: RelativeName<&'b [u8]>,
    other: RelativeName<&'b [u8]>,
    start: RelativeName<&'b [u8]>,
    end: RelativeName<&'b [u8]>,
    root: Name<&'b [u8]>,
}

pub fn relative_names_beside(rt: &impl Abort) -> RelativeOthers<'static> {
    RelativeOthers {
        twin: relative(rt, b"\x03www\x07EXAMPLE"),
        other: relative(rt, b"\x02zz\x07Example"),
        start: relative(rt, b"\x03WWW"),
        end: relative(rt, b"\x07EXAMPLE"),
        root: absolute(rt, b"\0"),
    }
}

/// Goes over the labels from both ends.
pub fn gives_labels<'a, N: ToLabelIter<'a>>(
    alloc: Global,
    name: &'a N,
    wanted: Wanted<'_>,
) -> bool {
    let mut taken = true;
    let mut given: Vec<u8> = Vec::new(alloc);
    let mut labels = name.iter_labels();
    while let Some(label) = labels.next() {
        taken = taken && label.compose(&mut given).is_ok();
    }
    let mut turned: Vec<u8> = Vec::new(alloc);
    let mut labels = name.iter_labels();
    for _time in 0..128u8 {
        if let Some(label) = labels.next_back() {
            taken = taken && label.compose(&mut turned).is_ok();
        }
    }
    taken && given.as_slice() == wanted.wire && turned.as_slice() == wanted.turned
}

/// Measures a name, and asks for its octets, which are lent where it lies in one piece.
fn is_measured<'a, N: ToLabelIter<'a>>(name: &'a N, wanted: Wanted<'_>, flat: bool) -> bool {
    let lent = if flat { Some(wanted.wire) } else { None };
    name.compose_len() as usize == wanted.wire.len() && name.as_flat_slice() == lent
}

fn is_composed<'a, N: AbsoluteLabels<'a>>(alloc: Global, name: &'a N, wanted: Wanted<'_>) -> bool {
    let mut plain: Vec<u8> = Vec::new(alloc);
    let mut canonical: Vec<u8> = Vec::new(alloc);
    name.compose(&mut plain).is_ok()
        && name.compose_canonical(&mut canonical).is_ok()
        && plain.as_slice() == wanted.wire
        && canonical.as_slice() == wanted.canonical
}

/// Whether octets were made, and are these.
fn are_made<Octs: Octets + Drop>(made: Result<Octs, ShortBuf>, wanted: &[u8]) -> bool {
    matches!(&made, Ok(octets) if octets.as_slice() == wanted)
}

/// Whether octets were lent, or made where they don't lie in one piece, and are these.
fn are_lent(made: Result<CowSlice<'_, u8>, ShortBuf>, wanted: &[u8], flat: bool) -> bool {
    let Ok(octets) = made else {
        return false;
    };
    Octets::as_slice(&octets) == wanted && matches!(&octets, CowSlice::Borrowed(_)) == flat
}

fn is_made_flat<'a, N: AbsoluteLabels<'a>>(alloc: Global, name: &'a N, wanted: Wanted<'_>) -> bool {
    let made: Result<Name<Vec<u8>>, ShortBuf> = name.to_name(alloc);
    let tried: Result<Name<ArrayVec<u8, 17>>, ShortBuf> = name.try_to_name(alloc);
    are_made(octets_of(made), wanted.wire) && are_made(octets_of(tried), wanted.wire)
}

fn is_made_canonical<'a, N: AbsoluteLabels<'a>>(
    alloc: Global,
    name: &'a N,
    wanted: Wanted<'_>,
) -> bool {
    let made: Result<Name<Vec<u8>>, ShortBuf> = name.to_canonical_name(alloc);
    let tried: Result<Name<ArrayVec<u8, 17>>, ShortBuf> = name.try_to_canonical_name(alloc);
    are_made(octets_of(made), wanted.canonical) && are_made(octets_of(tried), wanted.canonical)
}

fn is_copied<'a, N: AbsoluteLabels<'a>>(
    alloc: Global,
    name: &'a N,
    wanted: Wanted<'_>,
    flat: bool,
) -> bool {
    are_made(octets_of(name.to_vec(alloc)), wanted.wire)
        && are_lent(octets_of(name.to_cow(alloc)), wanted.wire, flat)
}

fn is_compared<'a, N: AbsoluteLabels<'a>>(name: &'a N, others: &'a Others<'a>) -> bool {
    let Others { twin, other, .. } = others;
    name.name_eq(twin)
        && !name.name_eq(other)
        && name.name_cmp(twin) == Ordering::Equal
        && name.name_cmp(other) == Ordering::Less
}

fn is_compared_on_the_wire<'a, N: AbsoluteLabels<'a>>(name: &'a N, others: &'a Others<'a>) -> bool {
    let Others { twin, other, .. } = others;
    name.composed_cmp(twin) == Ordering::Greater
        && name.composed_cmp(other) == Ordering::Greater
        && name.lowercase_composed_cmp(twin) == Ordering::Equal
        && name.lowercase_composed_cmp(other) == Ordering::Greater
}

/// A name begins with `start` and ends with `end`. It doesn't begin with `end`, nor end with `other`.
fn is_matched<'a, N: ToLabelIter<'a>, S: ToLabelIter<'a>, E: ToLabelIter<'a>, O: ToLabelIter<'a>>(
    name: &'a N,
    start: &'a S,
    end: &'a E,
    other: &'a O,
) -> bool {
    name.starts_with(start)
        && name.ends_with(end)
        && !name.starts_with(end)
        && !name.ends_with(other)
}

fn is_shown<'a, N: AbsoluteLabels<'a>>(alloc: Global, name: &'a N) -> bool {
    let shown = format!(in alloc; "{}", name.fmt_with_dot());
    matches!(&shown, Ok(text) if text.as_str() == "www.Example.com.")
}

/// Composes a name, and makes others of it.
fn is_made<'a, N: AbsoluteLabels<'a>>(
    alloc: Global,
    name: &'a N,
    wanted: Wanted<'_>,
    flat: bool,
) -> bool {
    is_composed(alloc, name, wanted)
        && is_made_flat(alloc, name, wanted)
        && is_made_canonical(alloc, name, wanted)
        && is_copied(alloc, name, wanted, flat)
}

/// Holds a name against others.
fn is_related<'a, N: AbsoluteLabels<'a>>(name: &'a N, others: &'a Others<'a>) -> bool {
    is_compared(name, others)
        && is_compared_on_the_wire(name, others)
        && is_matched(name, &others.start, &others.end, &others.other)
}

/// Asks `www.Example.com.` of any kind for all that absolute names have. It must give [`ABSOLUTE`].
pub fn every_call_of_absolute<'a, N: AbsoluteLabels<'a>>(
    rt: &impl Abort,
    alloc: Global,
    name: &'a N,
    others: &'a Others<'a>,
    wanted: Wanted<'_>,
    flat: bool,
) {
    assert!(rt; gives_labels(alloc, name, wanted));
    assert!(rt; is_measured(name, wanted, flat));
    assert!(rt; is_made(alloc, name, wanted, flat));
    assert!(rt; is_related(name, others));
    assert!(rt; name.is_absolute());
    assert!(rt; name.rrsig_label_count() == 3);
    assert!(rt; is_shown(alloc, name));
}

fn is_relative_composed<'a, N: RelativeLabels<'a>>(
    alloc: Global,
    name: &'a N,
    wanted: Wanted<'_>,
) -> bool {
    let mut plain: Vec<u8> = Vec::new(alloc);
    let mut canonical: Vec<u8> = Vec::new(alloc);
    name.compose(&mut plain).is_ok()
        && name.compose_canonical(&mut canonical).is_ok()
        && plain.as_slice() == wanted.wire
        && canonical.as_slice() == wanted.canonical
}

fn is_made_flat_relative<'a, N: RelativeLabels<'a>>(
    alloc: Global,
    name: &'a N,
    wanted: &[u8],
) -> bool {
    let made: Result<RelativeName<Vec<u8>>, ShortBuf> = name.to_relative_name(alloc);
    let tried: Result<RelativeName<ArrayVec<u8, 12>>, ShortBuf> = name.try_to_relative_name(alloc);
    are_made(relative_octets_of(made), wanted) && are_made(relative_octets_of(tried), wanted)
}

fn is_made_canonical_relative<'a, N: RelativeLabels<'a>>(
    alloc: Global,
    name: &'a N,
    wanted: &[u8],
) -> bool {
    let made: Result<RelativeName<Vec<u8>>, ShortBuf> = name.to_canonical_relative_name(alloc);
    let tried: Result<RelativeName<ArrayVec<u8, 12>>, ShortBuf> =
        name.try_to_canonical_relative_name(alloc);
    are_made(relative_octets_of(made), wanted) && are_made(relative_octets_of(tried), wanted)
}

fn is_relative_copied<'a, N: RelativeLabels<'a>>(
    alloc: Global,
    name: &'a N,
    wanted: &[u8],
    flat: bool,
) -> bool {
    are_made(relative_octets_of(name.to_vec(alloc)), wanted)
        && are_lent(relative_octets_of(name.to_cow(alloc)), wanted, flat)
}

fn is_relative_compared<'a, N: RelativeLabels<'a>>(
    name: &'a N,
    others: &'a RelativeOthers<'a>,
) -> bool {
    let RelativeOthers { twin, other, .. } = others;
    name.name_eq(twin)
        && !name.name_eq(other)
        && name.name_cmp(twin) == Ordering::Equal
        && name.name_cmp(other) == Ordering::Less
}

/// Composes a name, and makes others of it.
fn is_relative_made<'a, N: RelativeLabels<'a>>(
    alloc: Global,
    name: &'a N,
    wanted: Wanted<'_>,
    flat: bool,
) -> bool {
    is_relative_composed(alloc, name, wanted)
        && is_made_flat_relative(alloc, name, wanted.wire)
        && is_made_canonical_relative(alloc, name, wanted.canonical)
        && is_relative_copied(alloc, name, wanted.wire, flat)
}

/// Asks `www.Example` of any kind for all that relative names have and that lends the name. It must give
/// [`RELATIVE`].
pub fn every_call_of_relative<'a, N: RelativeLabels<'a>>(
    rt: &impl Abort,
    alloc: Global,
    name: &'a N,
    others: &'a RelativeOthers<'a>,
    wanted: Wanted<'_>,
    flat: bool,
) {
    assert!(rt; gives_labels(alloc, name, wanted));
    assert!(rt; is_measured(name, wanted, flat));
    assert!(rt; is_relative_made(alloc, name, wanted, flat));
    assert!(rt; is_relative_compared(name, others));
    assert!(rt; is_matched(name, &others.start, &others.end, &others.root));
    assert!(rt; !name.is_absolute());
    assert!(rt; !name.is_empty());
}

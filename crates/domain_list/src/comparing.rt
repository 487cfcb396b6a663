//! Comparing names. The methods of names call these functions; each is the one body for absolute and relative names
//! of every kind. Where both names are in contiguous octets, these are compared directly.
ghost use Rattle.std.specs.Prelude.{◌≡◌, ◌<◌, ◌∷◌, IsTrue, ◌↔◌, length};
ghost use Rattle.domain_label.specs.Lowercase.{lowercase};
ghost use Rattle.domain_label.specs.Labels.{label_octets};
ghost use Rattle.domain_label.specs.Wire.{wire, AreLabels};
ghost use Rattle.domain_list.specs.EqualSuffixes.{SuffixesEqual};
ghost use Rattle.domain_list.specs.Order.{canonical_order, last_order, same_name, composed_order, lowercase_composed_order};
ghost use Rattle.domain_list.specs.Order.{SameLabels, TellsDifference};

use crate::flat::known_equal_suffix_len;
use crate::labels::{LabelIterator, ToLabelIter};
use domain_label::Label;
use domain_label::ignoring_case::same_octets;
use domain_label::order::order_ignoring_case;
use std::cmp::Ordering;

/// Returns whether the remaining labels are the same ignoring ASCII case (RFC 4343).
pub(crate) fn eq_labels<'a, A: LabelIterator<'a>, B: LabelIterator<'a>>(a: A, b: B) -> bool
    ensures { IsTrue result ↔ SameLabels (A.left a) (B.left b) }
{
    let mut a = a;
    let mut b = b;
    loop {
        match (a.next(), b.next()) {
            (None, None) => return true,
            (Some(x), Some(y)) => {
                if x != y {
                    return false;
                }
            }
            _ => return false,
        }
    }
}

/// Returns whether the remaining labels, of `len` octets on the wire, have this wire format ignoring ASCII case.
///
/// Each label is compared with the first one of the remaining octets. So no second iterator reads their length octets,
/// and one comparison finds a label of another length.
#[inline(always)]
fn eq_flat<'a, I: LabelIterator<'a>>(labels: I, len: u16, flat: &[u8]) -> bool
    requires sized { len ≡ length (wire (I.left labels)) }
    requires labels { AreLabels (I.left labels) }
    ensures { IsTrue result ↔ (lowercase flat.now ≡ lowercase (wire (I.left labels))) }
{
    if usize::from(len) != flat.len() {
        return false;
    }
    let mut labels = labels;
    let mut rest = flat;
    while let Some(label) = labels.next() {
        let end = 1 + label.len();
        if usize::from(rest[0]) != label.len() {
            return false;
        }
        if !same_octets(&rest[1..end], label.as_slice()) {
            return false;
        }
        rest = &rest[end..];
    }
    true
}

/// Whether the labels of two names are the same ignoring ASCII case (RFC 4343).
pub fn eq_names<'a, A: ToLabelIter<'a>, B: ToLabelIter<'a>>(a: &'a A, b: &'a B) -> bool
    ensures { IsTrue result ↔ SameLabels (A.labels a.now) (B.labels b.now) }
{
    match (a.as_flat_slice(), b.as_flat_slice()) {
        (Some(a), Some(b)) => return same_octets(a, b),
        (Some(flat), None) => return eq_flat(b.iter_labels(), b.compose_len(), flat),
        (None, Some(flat)) => return eq_flat(a.iter_labels(), a.compose_len(), flat),
        (None, None) => return eq_labels(a.iter_labels(), b.iter_labels()),
    }
}

/// The same test, as an impl of `PartialEq` for names answers it.
pub fn same_names<'a, A: ToLabelIter<'a>, B: ToLabelIter<'a>>(a: &'a A, b: &'a B) -> bool
    ensures { result ≡ same_name (A.labels a.now) (B.labels b.now) }
{
    eq_names(a, b)
}

/// The order of two names of which these are the last labels in which they differ (RFC 4034, 6.1).
fn order_of_last(x: Option<Label<'_>>, y: Option<Label<'_>>) -> Ordering
    ensures { result ≡ last_order x.entry y.entry }
{
    match (x, y) {
        (None, None) => Ordering::Equal,
        (None, Some(_)) => Ordering::Less,
        (Some(_), None) => Ordering::Greater,
        (Some(x), Some(y)) => x.cmp(&y),
    }
}

/// Returns the first of the remaining labels.
pub(crate) fn next_label<'a, I: LabelIterator<'a>>(labels: &mut I) -> Label<'a>
    requires { 0 < length (wire (I.left labels.old)) }
    ensures { I.left labels.old ≡ label_octets result ∷ I.left labels.new }
{
    let Some(label) = labels.next() else {
        unreachable!();
    };
    label
}

/// Whether two labels differ, apart from ASCII case.
fn differ(x: &Label<'_>, y: &Label<'_>) -> bool
    ensures { TellsDifference result (label_octets x.now) (label_octets y.now) }
{
    x != y
}

/// Returns the order of the remaining labels, from the last ones on (RFC 4034, 6.1).
///
/// `a_len` and `b_len` are the numbers of octets that they have on the wire. Both are iterated over once at most, from
/// the left. Their common end has the same number of octets in both. So labels are compared only where the same number
/// of octets remains of both, and the last labels before the common end decide. The last `alike` octets are known to
/// be the same; they aren't read.
fn order_labels<'a, A: LabelIterator<'a>, B: LabelIterator<'a>>(
    a: A,
    a_len: u16,
    b: B,
    b_len: u16,
    alike: usize,
) -> Ordering
    requires a_sized { a_len ≡ length (wire (A.left a)) }
    requires b_sized { b_len ≡ length (wire (B.left b)) }
    requires alike { SuffixesEqual (A.left a) (B.left b) alike }
    ensures { result ≡ canonical_order (A.left a) (B.left b) }
{
    let mut a = a;
    let mut b = b;
    let mut a_len = a_len;
    let mut b_len = b_len;
    let mut x = None;
    let mut y = None;
    'labels: while a_len != b_len || usize::from(a_len) > alike {
        if a_len > b_len {
            let label = next_label(&mut a);
            a_len -= label.len() as u16 + 1;
            x = Some(label);
        } else if a_len < b_len {
            let label = next_label(&mut b);
            b_len -= label.len() as u16 + 1;
            y = Some(label);
        } else {
            let p = next_label(&mut a);
            let q = next_label(&mut b);
            a_len -= p.len() as u16 + 1;
            b_len -= q.len() as u16 + 1;
            if differ(&p, &q) {
                x = Some(p);
                y = Some(q);
            }
        }
    }
    order_of_last(x, y)
}

/// The order of two names of any kinds, from the last labels on (RFC 4034, 6.1). Where both are in contiguous octets,
/// the octets at their ends that are the same are skipped first.
pub fn order_names<'a, A: ToLabelIter<'a>, B: ToLabelIter<'a>>(a: &'a A, b: &'a B) -> Ordering
    ensures { result ≡ canonical_order (A.labels a.now) (B.labels b.now) }
{
    let alike = known_equal_suffix_len(a.as_flat_slice(), b.as_flat_slice());
    order_labels(
        a.iter_labels(),
        a.compose_len(),
        b.iter_labels(),
        b.compose_len(),
        alike,
    )
}

/// Returns the order of the wire octets of the remaining labels.
#[tactic(auto, using(crate::proofs::Steps::composed_steps))]
fn composed_order_labels<'a, A: LabelIterator<'a>, B: LabelIterator<'a>>(a: A, b: B) -> Ordering
    ensures { result ≡ composed_order (A.left a) (B.left b) }
{
    let mut a = a;
    let mut b = b;
    loop {
        match (a.next(), b.next()) {
            (None, None) => return Ordering::Equal,
            (None, Some(_)) => return Ordering::Less,
            (Some(_), None) => return Ordering::Greater,
            (Some(x), Some(y)) => {
                let order = x.composed_cmp(&y);
                if order.is_ne() {
                    return order;
                }
            }
        }
    }
}

/// The order of the wire octets of two names.
pub fn composed_order_names<'a, A: ToLabelIter<'a>, B: ToLabelIter<'a>>(
    a: &'a A,
    b: &'a B,
) -> Ordering
    ensures { result ≡ composed_order (A.labels a.now) (B.labels b.now) }
{
    match (a.as_flat_slice(), b.as_flat_slice()) {
        (Some(a), Some(b)) => return a.cmp(b),
        _ => return composed_order_labels(a.iter_labels(), b.iter_labels()),
    }
}

/// Returns the order of the wire octets of the remaining labels, ignoring ASCII case.
#[tactic(auto, using(crate::proofs::Steps::composed_steps))]
fn lowercase_composed_order_labels<'a, A: LabelIterator<'a>, B: LabelIterator<'a>>(
    a: A,
    b: B,
) -> Ordering
    ensures { result ≡ lowercase_composed_order (A.left a) (B.left b) }
{
    let mut a = a;
    let mut b = b;
    loop {
        match (a.next(), b.next()) {
            (None, None) => return Ordering::Equal,
            (None, Some(_)) => return Ordering::Less,
            (Some(_), None) => return Ordering::Greater,
            (Some(x), Some(y)) => {
                let order = x.lowercase_composed_cmp(&y);
                if order.is_ne() {
                    return order;
                }
            }
        }
    }
}

/// The order of the wire octets of two names, ignoring ASCII case.
pub fn lowercase_composed_order_names<'a, A: ToLabelIter<'a>, B: ToLabelIter<'a>>(
    a: &'a A,
    b: &'a B,
) -> Ordering
    ensures { result ≡ lowercase_composed_order (A.labels a.now) (B.labels b.now) }
{
    match (a.as_flat_slice(), b.as_flat_slice()) {
        (Some(a), Some(b)) => return order_ignoring_case(a, b),
        _ => return lowercase_composed_order_labels(a.iter_labels(), b.iter_labels()),
    }
}

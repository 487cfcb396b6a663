//! Labels ignoring ASCII case: equality, order and hashing, and the orders of wire formats.
ghost use Rattle.std.specs.Prelude.{◌≡◌};
ghost use Rattle.std.specs.Cmp.{partial_order_from_own_ties};
ghost use Rattle.std.specs.Cmp.Rules.{comparing};
ghost use Rattle.std.specs.Ordering.{on, as_partial_cmp};
ghost use Rattle.std.proofs.Common.{rules};
ghost use Rattle.domain_label.specs.SameHash.{same_label_hash_input};
ghost use Rattle.domain_label.specs.Lowercase.{eq_ignoring_case, cmp_ignoring_case, label_hash_input, label_composed_order, label_lowercase_composed_order};
ghost use Rattle.domain_label.specs.Labels.{label_octets};

use crate::ignoring_case::same_octets;
use crate::label::Label;
use std::cmp::Ordering;
use std::hash::{Hash, Hasher};

/// Labels are equal where their octets are the same ignoring ASCII case (RFC 4343).
impl<'a> PartialEq for Label<'a> {
    ghost eq = { on label_octets eq_ignoring_case };

    ghost laws = { Prim.search (comparing, rules) };

    fn eq(&self, other: &Label<'a>) -> bool {
        same_octets(self.as_slice(), other.as_slice())
    }
}

impl<'a> Eq for Label<'a> {
    ghost laws = { Prim.search (comparing, rules) };
}

/// Labels are ordered as their octets from the left ignoring ASCII case, and one that begins another is less (RFC
/// 4034, 6.1).
impl<'a> Ord for Label<'a> {
    ghost cmp = { on label_octets cmp_ignoring_case };

    ghost total = { Prim.search (comparing, rules) };

    ghost matches_partial_cmp = { Prim.search (comparing, rules) };

    ghost matches_eq = { Prim.search (comparing, rules) };

    fn cmp(&self, other: &Label<'a>) -> Ordering {
        order_ignoring_case(self.as_slice(), other.as_slice())
    }
}

impl<'a> PartialOrd for Label<'a> {
    ghost partial_cmp = { as_partial_cmp (on label_octets cmp_ignoring_case) };

    ghost laws = { partial_order_from_own_ties (Prim.search (comparing, rules))
        (Prim.search (comparing, rules)) };

    fn partial_cmp(&self, other: &Label<'a>) -> Option<Ordering> {
        Some(self.cmp(other))
    }
}

/// The length and each octet in lower case as one `u8`, so that equal labels write the same.
impl<'a> Hash for Label<'a> {
    ghost hash_input = { λ label. label_hash_input (label_octets label) };

    ghost respects_eq = { λ x y. same_label_hash_input.fed (label_octets x) (label_octets y) };

    fn hash<H: Hasher>(&self, state: &mut H) {
        state.write_u8(self.len() as u8);
        for octet in self.as_slice() {
            state.write_u8(octet.to_ascii_lowercase());
        }
    }
}

impl<'a> Label<'a> {
    /// The order of the labels' wire formats as octets: the shorter first, then by the octets.
    pub fn composed_cmp(&self, other: &Label) -> Ordering
        ensures { result ≡ label_composed_order (label_octets self.now) (label_octets other.now) }
    {
        let by_len = self.len().cmp(&other.len());
        if by_len.is_ne() {
            return by_len;
        }
        self.as_slice().cmp(other.as_slice())
    }

    /// The order of the labels' wire formats ignoring ASCII case: the shorter first, then by the octets in lower
    /// case.
    pub fn lowercase_composed_cmp(&self, other: &Label) -> Ordering
        ensures { result
            ≡ label_lowercase_composed_order (label_octets self.now) (label_octets other.now) }
    {
        let by_len = self.len().cmp(&other.len());
        if by_len.is_ne() {
            return by_len;
        }
        self.cmp(other)
    }
}

/// Octets in order, ignoring ASCII case.
pub fn order_ignoring_case(a: &[u8], b: &[u8]) -> Ordering
    ensures { result ≡ cmp_ignoring_case a.now b.now }
{
    let mut a = a;
    let mut b = b;
    loop {
        match (a, b) {
            ([], []) => return Ordering::Equal,
            ([], [_, ..]) => return Ordering::Less,
            ([_, ..], []) => return Ordering::Greater,
            ([x, xs @ ..], [y, ys @ ..]) => {
                let order = x.to_ascii_lowercase().cmp(&y.to_ascii_lowercase());
                if order.is_ne() {
                    return order;
                }
                a = xs;
                b = ys;
            }
        }
    }
}

//! Names in their canonical order.

use crate::octets::absolute_of;
use conformance_labels::{Answer, put_canonical_order};
use domain_name::Name;

/// `canonical A B`
pub fn put_canonical(out: &Answer, a: &[u8], b: &[u8]) {
    let a = absolute_of(out, a);
    let b = absolute_of(out, b);
    put_canonical_order(out, &a, &b);
}

//! Values in their canonical order.

use crate::answer::Answer;
use domain_wire::CanonicalOrd;

/// Puts the canonical order of two values, by each call that returns it.
pub fn put_canonical_order<A: CanonicalOrd<B>, B>(out: &Answer, a: &A, b: &B) {
    let order = a.canonical_cmp(b);
    out.put_order(b"", order);
    out.agree_all(
        b"canonical_lt;canonical_le;canonical_gt;canonical_ge",
        &[
            a.canonical_lt(b) == order.is_lt(),
            a.canonical_le(b) == order.is_le(),
            a.canonical_gt(b) == order.is_gt(),
            a.canonical_ge(b) == order.is_ge(),
        ],
    );
}

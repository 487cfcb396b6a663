//! The canonical order of values.
ghost use Rattle.std.specs.Prelude.{◌≡◌};
ghost use Rattle.std.specs.Cmp.{IsTotalOrder};
ghost use Rattle.std.specs.Ordering.{is_lt, is_le, is_gt, is_ge};
ghost use Rattle.std.specs.declared.cmp.Ordering.{Ordering};

use std::cmp::Ordering;

/// The order of values in their canonical form (RFC 4034, 6), which need not be that of `Ord`.
///
/// Write the other value's type, `CanonicalOrd<Self>` where it is the same: a trait's parameter can't have a default.
pub trait CanonicalOrd<Rhs>: Sized {
    /// The canonical order of two values.
    ghost value_order: { Self → Rhs → Ordering };

    /// The canonical order of the two.
    fn canonical_cmp(&self, other: &Rhs) -> Ordering
        ensures { result ≡ value_order self.now other.now };

    /// Whether this one comes first.
    fn canonical_lt(&self, other: &Rhs) -> bool
        ensures { result ≡ is_lt (value_order self.now other.now) }
    {
        self.canonical_cmp(other).is_lt()
    }

    /// Whether this one comes first, or none does.
    fn canonical_le(&self, other: &Rhs) -> bool
        ensures { result ≡ is_le (value_order self.now other.now) }
    {
        self.canonical_cmp(other).is_le()
    }

    /// Whether the other one comes first.
    fn canonical_gt(&self, other: &Rhs) -> bool
        ensures { result ≡ is_gt (value_order self.now other.now) }
    {
        self.canonical_cmp(other).is_gt()
    }

    /// Whether the other one comes first, or none does.
    fn canonical_ge(&self, other: &Rhs) -> bool
        ensures { result ≡ is_ge (value_order self.now other.now) }
    {
        self.canonical_cmp(other).is_ge()
    }
}

/// The canonical order of a type's own values, which is total: turned round with its sides, and handed on from two
/// values to a third.
pub trait TotalCanonicalOrd: CanonicalOrd<Self> {
    /// The order is total.
    ghost total: { IsTotalOrder Self.value_order };
}

//! Laws of the definitions, proved as the contracts of calls that do nothing.
ghost use Rattle.std.specs.Cmp.{IsTotalOrder};
ghost use Rattle.domain_list.specs.Ancestors.{OrderDecidesEquality, DescendantsAreAdjacent, ParentIsFirst};
ghost use Rattle.domain_list.specs.Order.{canonical_order};

/// The order of names is total, and `Equal` exactly where names are the same ignoring ASCII case.
///
/// In a zone all names that end with its apex are adjacent, and the apex is the first of them.
pub fn order_laws()
    ensures total { IsTotalOrder canonical_order }
    ensures apart { OrderDecidesEquality }
    ensures together { DescendantsAreAdjacent }
    ensures first { ParentIsFirst }
{}

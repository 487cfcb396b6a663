//! Comparing, ordering and hashing names of any two kinds.
ghost use Rattle.std.specs.Prelude.{◌≡◌, ◌↔◌, IsTrue, fold};
ghost use Rattle.domain_label.specs.Lowercase.{lowercase_labels};
ghost use Rattle.domain_list.specs.Ends.{EndsWith};
ghost use Rattle.domain_list.specs.HashInput.{name_hash_input};
ghost use Rattle.domain_list.specs.Order.{canonical_order};
ghost use Rattle.domain_name.specs.Names.{name_labels};
ghost use Rattle.domain_parsed.specs.ParsedNames.{parsed_labels};

use domain_list::AbsoluteLabels;
use domain_name::Name;
use domain_parsed::ParsedName;
use domain_traits::ToName;
use std::cmp::Ordering;
use std::hash::{Hash, Hasher};

/// Whether a name in a message is this owner's.
pub fn is_owner(name: &ParsedName<&[u8]>, owner: &Name<Vec<u8>>) -> bool
    ensures { IsTrue result
        ↔ (lowercase_labels (parsed_labels name.now) ≡ lowercase_labels (name_labels owner.now)) }
{
    name.name_eq(owner)
}

/// Where a name in a message stands in a zone's order next to one of the zone's names.
pub fn place_in_zone(name: &ParsedName<&[u8]>, other: &Name<Vec<u8>>) -> Ordering
    ensures { result ≡ canonical_order (parsed_labels name.now) (name_labels other.now) }
{
    name.name_cmp(other)
}

/// Feeds a name in a message to a hasher. The same name as a `Name` feeds the same.
pub fn feed_name<H: Hasher>(name: &ParsedName<&[u8]>, state: &mut H)
    ensures { state.new ≡ fold H.write state.old (name_hash_input (parsed_labels name.now)) }
{
    name.hash(state);
}

/// Whether a name of any kind is in the zone under an apex of any kind.
pub fn is_in_zone<'a, N: AbsoluteLabels<'a>, A: AbsoluteLabels<'a>>(
    name: &'a N,
    ancestor: &'a A,
) -> bool
    ensures { IsTrue result ↔ EndsWith (N.labels name.now) (A.labels ancestor.now) }
{
    name.ends_with(ancestor)
}

//! The remaining octets of record data, compared and hashed.
ghost use Rattle.std.specs.Prelude.{◌≡◌, ◌<◌, length};
ghost use Rattle.std.specs.Cmp.Lexicographic.{slice_cmp};
ghost use Rattle.std.specs.Ordering.{nat_cmp, ordering_then};
ghost use Rattle.domain_fields.specs.Orders.{hashed};
ghost use Rattle.domain_any_rdata.specs.Readers.{remaining_octets, in_hand};

use crate::reader::OctetReader;
use domain_fields::hash_octets;
use std::cmp::Ordering;
use std::hash::Hasher;

/// Compares as many octets as both readers have in hand, and skips them.
#[tactic(auto, using(crate::proofs::Cutting::hands_ordered, crate::proofs::Cutting::fewer_left))]
fn order_hands(first: &mut OctetReader<'_>, second: &mut OctetReader<'_>) -> Ordering
    requires first_some { 0 < length (in_hand first.old) }
    requires second_some { 0 < length (in_hand second.old) }
    ensures order { slice_cmp nat_cmp (remaining_octets first.old) (remaining_octets second.old)
        ≡ ordering_then result
        (slice_cmp nat_cmp (remaining_octets first.new) (remaining_octets second.new)) }
    ensures fewer { length (remaining_octets first.new) < length (remaining_octets first.old) }
{
    let (here, there) = (first.first(), second.first());
    let n = here.len().min(there.len());
    let order = here[..n].cmp(&there[..n]);
    first.skip(n);
    second.skip(n);
    order
}

/// Returns the order of the remaining octets of two readers: as unsigned numbers from the left, where a missing octet
/// comes before any (RFC 4034, 6.3).
#[tactic(auto, using(crate::proofs::Cutting::then_differs, crate::proofs::Cutting::then_same, crate::proofs::Cutting::none_less, crate::proofs::Cutting::some_greater, crate::proofs::Cutting::both_none, crate::proofs::Cutting::some_remain))]
pub(crate) fn order_octets(first: OctetReader<'_>, second: OctetReader<'_>) -> Ordering
    ensures { result ≡ slice_cmp nat_cmp (remaining_octets first.entry) (remaining_octets second.entry) }
{
    let mut first = first;
    let mut second = second;
    'octets: while first.fill() {
        if !second.fill() {
            return Ordering::Greater;
        }
        let order = order_hands(&mut first, &mut second);
        if order.is_ne() {
            return order;
        }
    }
    if second.fill() {
        return Ordering::Less;
    }
    Ordering::Equal
}

/// Writes the remaining octets to the hasher, each as one `u8`.
#[tactic(auto, using(crate::proofs::Cutting::hand_first, crate::proofs::Cutting::hashed_first, crate::proofs::Cutting::hashed_none, crate::proofs::Cutting::fewer_left))]
pub(crate) fn hash_left<H: Hasher>(left: OctetReader<'_>, state: &mut H)
    ensures { state.new ≡ hashed H.write (remaining_octets left.entry) state.old }
{
    let mut left = left;
    'octets: while left.fill() {
        let octets = left.first();
        let n = octets.len();
        hash_octets(octets, state);
        left.skip(n);
    }
}

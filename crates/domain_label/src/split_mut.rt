//! Octets cut after the label that they begin with, for writing. Contracts say how the octets end.
ghost use Rattle.std.specs.Prelude.{◌≡◌, ◌≤◌, ◌<◌, ◌↔◌, ◌++◌, IfSome, IsSome, IsOk, length, take, drop};
ghost use Rattle.std.specs.Borrow.{sem};
ghost use Rattle.domain_label.specs.LendingParts.{LendsParts, LendsPastFirst, LendsIfFirst, LendsWireIfFirst, FirstOf};
ghost use Rattle.domain_label.specs.Splitting.{BeginsWithLabel, HasFirstLabel};

use crate::label::Label;
use crate::split_error::SplitLabelError;

/// The octets of the label that the octets begin with, without the length octet, and the octets after it, both for
/// writing (RFC 1035, 3.1). `None` where they begin with no label.
///
/// Once both parts end, the octets are the first one as it was, and then the two parts as they were left
/// (`writes_back`). Where there is no label, the octets stay as they are. A caller's proof uses this as it uses what
/// `split_at_mut` ensures.
pub fn split_octets_mut(octets: &mut [u8]) -> Option<(&mut [u8], &mut [u8])>
    ensures* writes_back { sem 𝓛 (LendsIfFirst octets.entry result) }
    ensures begins { IfSome result
        (λ parts. BeginsWithLabel octets.old parts.0.now parts.1.now) }
    ensures exact { IsSome result ↔ HasFirstLabel octets.old }
{
    let Ok(len) = first_len(octets) else {
        return None;
    };
    Some(past_first(octets, len))
}

/// The wire format of the label that the octets begin with, and the octets after it, both for writing (RFC 1035, 3.1).
/// `None` where they begin with no label.
///
/// Once both parts end, the octets are the two parts as they were left (`writes_back`), also where the length octet
/// was written over. Where there is no label, the octets stay as they are.
pub fn split_wire_mut(octets: &mut [u8]) -> Option<(&mut [u8], &mut [u8])>
    ensures* writes_back { sem 𝓛 (LendsWireIfFirst octets.entry result) }
    ensures begins { IfSome result
        (λ parts. BeginsWithLabel octets.old (drop 1 parts.0.now) parts.1.now) }
    ensures whole { IfSome result (λ parts. octets.old ≡ parts.0.now ++ parts.1.now) }
    ensures exact { IsSome result ↔ HasFirstLabel octets.old }
{
    let Ok(len) = first_len(octets) else {
        return None;
    };
    Some(octets.split_at_mut(len + 1))
}

/// How many octets the label has that the octets begin with, or why they begin with none.
pub(crate) fn first_len(octets: &[u8]) -> Result<usize, SplitLabelError>
    ensures first { FirstOf octets.now result }
    ensures exact { IsOk result ↔ HasFirstLabel octets.now }
{
    let (label, _) = Label::split_from(octets)?;
    Ok(label.len())
}

/// The `len` octets after the first one, and the octets after those, for writing. (The proof is by hand: the checker
/// follows no part of a part.)
pub(crate) fn past_first(octets: &mut [u8], len: usize) -> (&mut [u8], &mut [u8])
    requires { len < length octets.old }
    ensures* writes_back { sem 𝓛 (LendsPastFirst octets.entry result) }
    ensures parts { (result.0.now ≡ take len (drop 1 octets.old))
        × (result.1.now ≡ drop len (drop 1 octets.old)) }
{
    let (_, octets) = cut(octets, 1);
    cut(octets, len)
}

/// `split_at_mut` of octets. (The proof by hand of `past_first` cites it, and needs no type parameter then.)
fn cut(octets: &mut [u8], mid: usize) -> (&mut [u8], &mut [u8])
    requires { mid ≤ length octets.old }
    ensures* writes_back { sem 𝓛 (LendsParts octets.entry result) }
    ensures parts { (result.0.now ≡ take mid octets.old) × (result.1.now ≡ drop mid octets.old) }
{
    octets.split_at_mut(mid)
}

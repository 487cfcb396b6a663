//! Octets of the caller's choice: what they are made of, and how many fit.
ghost use Rattle.std.specs.Prelude.{◌≡◌, IfOk, IsOk, IsErr, OnErr};
ghost use Rattle.examples.specs.Appending.{IfFits, IfPasses};

use domain_list::AbsoluteLabels;
use domain_traits::ToName;
use octseq::{OctetsBuilder, SameOctets, ShortBuf};
use std::alloc::Global;

/// The octets in a value of the caller's choice.
pub fn keep<'a, Octs: SameOctets<&'a [u8]>>(
    alloc: Global,
    octets: &'a [u8],
) -> Result<Octs, ShortBuf>
    ensures same { IfOk result (λ kept. Octs.octets kept ≡ octets.now) }
    ensures err { OnErr result (Octs.may_refuse octets.entry) }
{
    match Octs::try_octets_from(alloc, octets) {
        Ok(kept) => Ok(kept),
        Err(refused) => Err(refused.into()),
    }
}

/// Appends a name to octets of any kind. Where their number is limited, the name is taken where it fits
/// the limit, and refused where it would pass it.
pub fn append_name<'a, N: AbsoluteLabels<'a>, B: OctetsBuilder>(
    name: &'a N,
    target: &mut B,
) -> Result<(), B::AppendError>
    ensures fits { IfFits B.limit (B.octets target.old) (N.labels name.now) (IsOk result) }
    ensures passes { IfPasses B.limit (B.octets target.old) (N.labels name.now) (IsErr result) }
{
    name.compose(target)
}

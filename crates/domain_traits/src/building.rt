//! Wire formats and uncompressed names made of names. The methods of names call these functions, which are one body
//! each for absolute and relative names of every kind.
ghost use Rattle.std.specs.Prelude.{◌≡◌, ◌<◌, ℕ, List, length, IfOk, IsOkAnd, OnErr};
ghost use Rattle.std.specs.Cow.{cow_slice_items, IsBorrowedSlice};
ghost use Rattle.domain_label.specs.Wire.{wire, IsAbsoluteName, IsRelativeName};
ghost use Rattle.domain_name.specs.Names.{name_holder, relative_holder, IsNameOf, IsRelativeNameOf};

use domain_list::ToLabelIter;
use domain_list::composing::compose_name;
use domain_name::{Name, RelativeName};
use octseq::{Octets, ShortBuf};
use std::alloc::Global;
use std::borrow::CowSlice;

/// The wire format of a name: borrowed where it is in contiguous octets, else built.
///
/// `ShortBuf` only where it isn't in contiguous octets, isn't empty, and an allocation failed.
pub(crate) fn lend_or_build<'a, N: ToLabelIter<'a>>(
    name: &'a N,
    alloc: Global,
) -> Result<CowSlice<'a, u8>, ShortBuf>
    ensures ok { IfOk result (λ octets. cow_slice_items octets ≡ wire (N.labels name.now)) }
    ensures flat { N.lies_flat name.now → IsOkAnd result IsBorrowedSlice }
    ensures err { OnErr result (0 < length (wire (N.labels name.now))) }
{
    match name.as_flat_slice() {
        Some(flat) => Ok(CowSlice::Borrowed(flat)),
        None => {
            let mut octets = Vec::with_capacity(alloc, name.compose_len() as usize)?;
            let Ok(()) = compose_name(name, &mut octets) else {
                unreachable!();
            };
            Ok(CowSlice::Owned(octets))
        }
    }
}

/// The absolute name whose wire format the octets are. They aren't tested again.
#[inline(always)]
pub(crate) fn name_of<Octs: Octets + Drop>(octets: Octs) -> Name<Octs>
    requires { (ls : List (List ℕ)) × IsAbsoluteName ls × (Octs.octets octets ≡ wire ls) }
    ensures list { IsNameOf (Octs.octets octets) result }
    ensures holder { name_holder result ≡ octets }
{
    Name::from_wire(octets)
}

/// The relative name whose wire format the octets are. They aren't tested again.
#[inline(always)]
pub(crate) fn relative_name_of<Octs: Octets + Drop>(octets: Octs) -> RelativeName<Octs>
    requires { (ls : List (List ℕ)) × IsRelativeName ls × (Octs.octets octets ≡ wire ls) }
    ensures list { IsRelativeNameOf (Octs.octets octets) result }
    ensures holder { relative_holder result ≡ octets }
{
    RelativeName::from_wire(octets)
}

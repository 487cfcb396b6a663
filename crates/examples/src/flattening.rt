//! Names of any kind in one piece, and as octets.
ghost use Rattle.std.specs.Prelude.{◌≡◌, ◌++◌, ◌∷◌, [], IsOk, IfOk};
ghost use Rattle.domain_label.specs.Lowercase.{lowercase_labels};
ghost use Rattle.domain_label.specs.Wire.{wire};
ghost use Rattle.domain_name.specs.Names.{name_labels};
ghost use Rattle.domain_parsed.specs.ParsedNames.{parsed_labels};

use arrayvec::ArrayVec;
use domain_list::AbsoluteLabels;
use domain_name::Name;
use domain_parsed::ParsedName;
use domain_traits::{FlattenInto, ToName};
use octseq::{OctetsBuilder, ShortBuf};
use std::alloc::Global;

/// The name on its own, once the message is let go.
pub fn own_name(name: ParsedName<&[u8]>, alloc: Global) -> Result<Name<Vec<u8>>, ShortBuf>
    ensures { IfOk result (λ flat. name_labels flat ≡ parsed_labels name.entry) }
{
    name.flatten_into(alloc)
}

/// The same without any memory: an array of 255 octets has room for each name.
pub fn keep_name(
    name: ParsedName<&[u8]>,
    alloc: Global,
) -> Result<Name<ArrayVec<u8, 255>>, ShortBuf>
    ensures ok { IfOk result (λ flat. name_labels flat ≡ parsed_labels name.entry) }
    ensures made { IsOk result }
{
    name.flatten_into(alloc)
}

/// A copy of a name of any kind, in one piece.
pub fn copy_name<'a, N: AbsoluteLabels<'a>>(
    name: &'a N,
    alloc: Global,
) -> Result<Name<Vec<u8>>, ShortBuf>
    ensures { IfOk result (λ flat. name_labels flat ≡ N.labels name.now) }
{
    name.to_name(alloc)
}

/// A name of any kind as a key: in one piece, owned, and lowered.
pub fn key<'a, N: AbsoluteLabels<'a>>(name: &'a N, alloc: Global) -> Result<Name<Vec<u8>>, ShortBuf>
    ensures { IfOk result (λ made. name_labels made ≡ lowercase_labels (N.labels name.now)) }
{
    name.to_canonical_name(alloc)
}

/// The question for the addresses of a name: the name, and then its type and class.
pub fn address_question<'a, N: AbsoluteLabels<'a>>(
    name: &'a N,
    alloc: Global,
) -> Result<Vec<u8>, ShortBuf>
    ensures { IfOk result
        (λ octets. octets.items ≡ wire (N.labels name.now) ++ 0 ∷ 1 ∷ 0 ∷ 1 ∷ []) }
{
    let mut octets = Vec::new(alloc);
    name.compose(&mut octets)?;
    octets.append_slice(&[0, 1, 0, 1])?;
    Ok(octets)
}

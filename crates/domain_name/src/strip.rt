//! Removing the last labels of uncompressed names.
ghost use Rattle.std.specs.Prelude.{◌≡◌, ◌+◌, Some, length, IfSome, IsSome, ◌↔◌, codes};
ghost use Rattle.domain_label.specs.Wire.{IsWire, labels_in};
ghost use Rattle.domain_flat.specs.Flat.{wire_len};
ghost use Rattle.domain_list.specs.Ends.{EndsWith};

use domain_flat::is_label_end;
use domain_label::ignoring_case::same_octets;
use domain_list::ToLabelIter;
use domain_list::composing::put_name;
use std::error::Error;
use std::fmt;

/// A relative name doesn't end with the suffix that was to be removed.
#[derive(Clone, Copy, Debug, PartialEq, Eq)]
pub struct StripSuffixError;

impl fmt::Display for StripSuffixError {
    ghost output = { λ _. Some (codes "suffix not found") };

    fn fmt<W: fmt::Write>(&self, f: &mut fmt::Formatter<W>) -> fmt::Result {
        write!(f, "suffix not found")
    }
}

impl Error for StripSuffixError {}

/// The offset in a wire format where its last labels begin, which are those of another one ignoring ASCII case.
/// `None` where it doesn't end with them.
fn offset_of_suffix(octets: &[u8], suffix: &[u8]) -> Option<usize>
    requires whole { IsWire octets.now }
    requires part { IsWire suffix.now }
    ensures exact { IsSome result ↔ EndsWith (labels_in octets.now) (labels_in suffix.now) }
    ensures offset { IfSome result (λ offset. offset + length suffix.now ≡ length octets.now) }
{
    if octets.len() < suffix.len() {
        return None;
    }
    let offset = octets.len() - suffix.len();
    if !same_octets(&octets[offset..], suffix) {
        return None;
    }
    if !is_label_end(octets, offset) {
        return None;
    }
    Some(offset)
}

/// The offset in a wire format where its last labels begin, which are those of `base` ignoring ASCII case. `None`
/// where the name doesn't end with them.
pub(crate) fn suffix_offset<'a, N: ToLabelIter<'a>>(octets: &[u8], base: &'a N) -> Option<usize>
    requires { IsWire octets.now }
    ensures exact { IsSome result ↔ EndsWith (labels_in octets.now) (N.labels base.now) }
    ensures offset { IfSome result
        (λ offset. offset + wire_len (N.labels base.now) ≡ length octets.now) }
{
    if let Some(suffix) = base.as_flat_slice() {
        return offset_of_suffix(octets, suffix);
    }
    let mut suffix = [0; 255];
    let len = put_name(base, &mut suffix);
    offset_of_suffix(octets, &suffix[..len])
}

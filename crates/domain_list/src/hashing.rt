//! What names write to a hasher.
ghost use Rattle.std.specs.Prelude.{◌≡◌, fold};
ghost use Rattle.domain_label.specs.Lowercase.{lowercase, lowercase_labels, as_writes};
ghost use Rattle.domain_label.specs.Wire.{wire};
ghost use Rattle.domain_list.specs.HashInput.{name_hash_input};

use crate::labels::{LabelIterator, ToLabelIter};
use std::hash::{Hash, Hasher};

/// Writes the remaining labels to the hasher: for each its length and then its octets in lower case, each as one `u8`.
/// These are the octets of the wire format in lower case.
fn hash_labels<'a, I: LabelIterator<'a>, H: Hasher>(labels: I, state: &mut H)
    ensures { state.new ≡ fold H.write state.old (name_hash_input (I.left labels)) }
{
    let mut labels = labels;
    while let Some(label) = labels.next() {
        label.hash(state);
    }
}

/// Writes octets in lower case to the hasher, each as one `u8`.
fn hash_octets<H: Hasher>(octets: &[u8], state: &mut H)
    ensures { state.new ≡ fold H.write state.old (as_writes (lowercase octets.now)) }
{
    for octet in octets {
        state.write_u8(octet.to_ascii_lowercase());
    }
}

/// Writes to the hasher the labels of a name of any kind: for each its length and then its octets in lower case, each
/// as one `u8`. These are the octets of the wire format in lower case.
pub fn hash_name<'a, N: ToLabelIter<'a>, H: Hasher>(name: &'a N, state: &mut H)
    ensures fed { state.new ≡ fold H.write state.old (name_hash_input (N.labels name.now)) }
    ensures wire { name_hash_input (N.labels name.now)
        ≡ as_writes (wire (lowercase_labels (N.labels name.now))) }
{
    match name.as_flat_slice() {
        Some(flat) => hash_octets(flat, state),
        None => hash_labels(name.iter_labels(), state),
    }
}

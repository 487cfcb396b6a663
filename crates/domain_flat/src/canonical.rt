//! Canonical forms of octets in wire format.
ghost use Rattle.std.specs.Prelude.{◌≡◌};
ghost use Rattle.domain_label.specs.Lowercase.{lowercase};

use octseq::OctetsMut;

/// Makes A to Z of the octets a to z. The length octets of a wire format, at most 63, stay.
pub fn make_lowercase<Octs: OctetsMut>(octets: &mut Octs)
    ensures octets { Octs.octets octets.new ≡ lowercase (Octs.octets octets.old) }
    ensures capacity { Octs.capacity octets.new ≡ Octs.capacity octets.old }
{
    octets.as_slice_mut().make_ascii_lowercase();
}

//! Single labels.
ghost use Rattle.std.specs.Prelude.{◌≡◌, ◌++◌, List, ℕ, IsTrue, IsFalse, OnOk, OnErr, take};
ghost use Rattle.domain_label.specs.Lowercase.{lowercase};
ghost use Rattle.domain_label.specs.Labels.{label_octets};
ghost use Rattle.domain_label.specs.Splitting.{BeginsWithLabel};
ghost use Rattle.domain_label.specs.Wire.{wire_label};

use domain_label::Label;
use domain_label::split_mut::split_octets_mut;
use octseq::OctetsBuilder;

/// Appends a label as DNSSEC signs it. A refused call leaves the octets.
pub fn append_signed<B: OctetsBuilder>(label: Label, target: &mut B) -> Result<(), B::AppendError>
    ensures ok { OnOk result
        (B.octets target.new
        ≡ B.octets target.old ++ wire_label (lowercase (label_octets label.entry))) }
    ensures unchanged { OnErr result (B.octets target.new ≡ B.octets target.old) }
{
    label.compose_canonical(target)
}

/// Makes A to Z a to z in the label that the octets begin with, if they begin with one.
pub fn lower_first(octets: &mut [u8]) -> bool
    ensures lowered { IsTrue result → (label rest : List ℕ) × BeginsWithLabel octets.old label rest
        × (octets.new ≡ take 1 octets.old ++ (lowercase label ++ rest)) }
    ensures unchanged { IsFalse result → octets.new ≡ octets.old }
{
    let Some((label, _rest)) = split_octets_mut(octets) else {
        return false;
    };
    label.make_ascii_lowercase();
    true
}

//! Relative names as lists of labels, and as text.
ghost use Rattle.std.specs.Prelude.{◌≡◌, Some, ⊤};
ghost use Rattle.std.proofs.Common.{inr};
ghost use Rattle.domain_label.specs.Text.{text};
ghost use Rattle.domain_label.proofs.WireLaws.{relative_list};
ghost use Rattle.domain_name.specs.Names.{relative_labels};

use crate::relative::RelativeName;
use domain_flat::NameIter;
use domain_label::Label;
use domain_list::{JoinedLabels, NameLabels, Relative, RelativeLabels, ToLabelIter};
use octseq::Octets;
use std::fmt;

impl<Octs: Octets> NameLabels for RelativeName<Octs> {
    ghost labels = { λ name. relative_labels name };

    fn compose_len(&self) -> u16 {
        self.len() as u16
    }

    fn is_absolute(&self) -> bool {
        false
    }

    ghost lawful = { λ name. inr (relative_list name.relative) };
}

impl<Octs: Octets> Relative for RelativeName<Octs> {
    ghost relative = { λ name. relative_list name.relative };
}

impl<'a, Octs: Octets> ToLabelIter<'a> for RelativeName<Octs> {
    type LabelIter = NameIter<'a>;

    fn iter_labels(&'a self) -> NameIter<'a> {
        self.iter()
    }

    ghost lies_flat = { λ _. ⊤ };

    fn as_flat_slice(&'a self) -> Option<&'a [u8]> {
        Some(self.as_slice())
    }
}

impl<'a, Octs: Octets> RelativeLabels<'a> for RelativeName<Octs> {}

/// The labels joined by dots (RFC 1035, 5.1). The name without labels is the empty text.
impl<Octs: Octets> fmt::Display for RelativeName<Octs> {
    ghost output = { λ name. Some (text (relative_labels name)) };

    fn fmt<W: fmt::Write>(&self, f: &mut fmt::Formatter<W>) -> fmt::Result {
        let labels = JoinedLabels::new(self.iter());
        write!(f, "{labels}")
    }
}

impl<Octs: Octets> fmt::Debug for RelativeName<Octs> {
    fn fmt<W: fmt::Write>(&self, f: &mut fmt::Formatter<W>) -> fmt::Result {
        write!(f, "RelativeName({self})")
    }
}

impl<'a, Octs: Octets> IntoIterator for &'a RelativeName<Octs> {
    type Item = Label<'a>;

    type IntoIter = NameIter<'a>;

    ghost use Rattle.domain_flat.specs.FlatLabels.{flat_labels_left};

    ghost into_iter_gives = { λ name labels. flat_labels_left labels ≡ relative_labels name.now };

    fn into_iter(self) -> NameIter<'a> {
        self.iter()
    }
}

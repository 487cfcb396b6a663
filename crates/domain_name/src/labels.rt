//! Absolute names as lists of labels, and as text.
ghost use Rattle.std.specs.Prelude.{◌≡◌, Some, ⊤};
ghost use Rattle.std.proofs.Common.{inl};
ghost use Rattle.domain_label.specs.Text.{displayed};
ghost use Rattle.domain_label.proofs.WireLaws.{absolute_list};
ghost use Rattle.domain_name.specs.Names.{name_labels};

use crate::absolute::Name;
use domain_flat::NameIter;
use domain_label::Label;
use domain_list::{Absolute, AbsoluteLabels, JoinedLabels, NameLabels, ToLabelIter};
use octseq::Octets;
use std::fmt;

impl<Octs: Octets> NameLabels for Name<Octs> {
    ghost labels = { λ name. name_labels name };

    fn compose_len(&self) -> u16 {
        self.len() as u16
    }

    fn is_absolute(&self) -> bool {
        true
    }

    ghost lawful = { λ name. inl (absolute_list name.absolute) };
}

impl<Octs: Octets> Absolute for Name<Octs> {
    ghost absolute = { λ name. absolute_list name.absolute };
}

impl<'a, Octs: Octets> ToLabelIter<'a> for Name<Octs> {
    type LabelIter = NameIter<'a>;

    fn iter_labels(&'a self) -> NameIter<'a> {
        self.iter()
    }

    ghost lies_flat = { λ _. ⊤ };

    fn as_flat_slice(&'a self) -> Option<&'a [u8]> {
        Some(self.as_slice())
    }
}

impl<'a, Octs: Octets> AbsoluteLabels<'a> for Name<Octs> {}

/// The labels joined by dots, without a final dot, and the root as a dot (RFC 1035, 5.1).
impl<Octs: Octets> fmt::Display for Name<Octs> {
    ghost output = { λ name. Some (displayed (name_labels name)) };

    fn fmt<W: fmt::Write>(&self, f: &mut fmt::Formatter<W>) -> fmt::Result {
        if self.is_root() {
            return write!(f, ".");
        }
        let labels = JoinedLabels::new(self.iter());
        write!(f, "{labels}")
    }
}

impl<Octs: Octets> fmt::Debug for Name<Octs> {
    fn fmt<W: fmt::Write>(&self, f: &mut fmt::Formatter<W>) -> fmt::Result {
        let shown = self.fmt_with_dot();
        write!(f, "Name({shown})")
    }
}

impl<'a, Octs: Octets> IntoIterator for &'a Name<Octs> {
    type Item = Label<'a>;

    type IntoIter = NameIter<'a>;

    ghost use Rattle.domain_flat.specs.FlatLabels.{flat_labels_left};

    ghost into_iter_gives = { λ name labels. flat_labels_left labels ≡ name_labels name.now };

    fn into_iter(self) -> NameIter<'a> {
        self.iter()
    }
}

//! Names in a message as lists of labels, and as text.
ghost use Rattle.std.specs.Prelude.{◌≡◌, Some, false};
ghost use Rattle.std.proofs.Common.{inl};
ghost use Rattle.domain_label.specs.Text.{text};
ghost use Rattle.domain_parsed.specs.ParsedNames.{parsed_labels, may_be_compressed, labels_left};

use crate::iter::ParsedNameIter;
use crate::parsed::ParsedName;
use domain_label::Label;
use domain_list::{Absolute, AbsoluteLabels, JoinedLabels, LabelIterator, NameLabels, ToLabelIter};
use octseq::Octets;
use std::fmt;

// What each ghost member says: the trait, in `labels.rt` of `domain_list`.
impl<'a> LabelIterator<'a> for ParsedNameIter<'a> {
    ghost left = { labels_left };

    ghost ready = { λ s. tt };

    ghost ready_back = { λ s. tt };

    ghost ends = { λ s. tt };

    ghost takes_first = { λ s r t h. h };

    ghost takes_last = { λ s r t h. h };
}

impl<Octs: Octets> NameLabels for ParsedName<Octs> {
    ghost labels = { λ name. parsed_labels name };

    fn compose_len(&self) -> u16 {
        self.wire_len()
    }

    fn is_absolute(&self) -> bool {
        true
    }

    ghost lawful = { λ name. inl name.absolute };
}

impl<Octs: Octets> Absolute for ParsedName<Octs> {
    ghost absolute = { λ name. name.absolute };
}

impl<'a, Octs: Octets> ToLabelIter<'a> for ParsedName<Octs> {
    type LabelIter = ParsedNameIter<'a>;

    fn iter_labels(&'a self) -> ParsedNameIter<'a> {
        self.iter()
    }

    ghost lies_flat = { λ name. may_be_compressed name ≡ false };

    fn as_flat_slice(&'a self) -> Option<&'a [u8]> {
        self.flat_octets()
    }
}

impl<'a, Octs: Octets> AbsoluteLabels<'a> for ParsedName<Octs> {}

/// The labels joined by dots, without a final dot; the root is the empty text (RFC 1035, 5.1).
impl<Octs: Octets> fmt::Display for ParsedName<Octs> {
    ghost output = { λ name. Some (text (parsed_labels name)) };

    fn fmt<W: fmt::Write>(&self, f: &mut fmt::Formatter<W>) -> fmt::Result {
        let labels = JoinedLabels::new(self.iter());
        write!(f, "{labels}")
    }
}

impl<Octs: Octets> fmt::Debug for ParsedName<Octs> {
    fn fmt<W: fmt::Write>(&self, f: &mut fmt::Formatter<W>) -> fmt::Result {
        write!(f, "ParsedName({self}.)")
    }
}

impl<'a, Octs: Octets> IntoIterator for &'a ParsedName<Octs> {
    type Item = Label<'a>;

    type IntoIter = ParsedNameIter<'a>;

    ghost into_iter_gives = { λ name labels. labels_left labels ≡ parsed_labels name.now };

    fn into_iter(self) -> ParsedNameIter<'a> {
        self.iter()
    }
}

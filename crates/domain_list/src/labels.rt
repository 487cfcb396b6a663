//! Names as lists of labels.
ghost use Rattle.std.specs.Prelude.{◌≡◌, ℕ, List, length, IfSome, IsSome, IsTrue, ◌↔◌};
ghost use Rattle.std.specs.declared.option.Option.{Option};
ghost use Rattle.std.specs.Iterator.{IsFinite, YieldsFirstBy, YieldsLastBy};
ghost use Rattle.domain_label.specs.declared.label.Label.{Label};
ghost use Rattle.domain_label.specs.Labels.{label_octets};
ghost use Rattle.domain_label.specs.Wire.{wire, IsAbsolute, IsAbsoluteName, IsRelativeName, IsName};
ghost use Rattle.domain_list.specs.Ends.{StartsWith, EndsWith};

use crate::ends::{begins_with_labels, ends_with_labels};
use domain_label::Label;

/// An iterator over the labels of a name.
///
/// `next` and `next_back` may be mixed at will: no label comes twice and none is skipped. After the last one it stays
/// at `None`.
pub trait LabelIterator<'a>: Iterator<Item = Label<'a>> + DoubleEndedIterator + Copy {
    /// The remaining labels.
    ghost left: { Self → List (List ℕ) };

    /// `next` and `next_back` may be called at any time.
    ghost ready: { (s : Self) → Self.can_next s };

    ghost ready_back: { (s : Self) → Self.can_next_back s };

    /// The labels come to an end.
    ghost ends: { (s : Self) → IsFinite (Self.remaining s) };

    /// `next` takes the first of the remaining labels.
    ghost takes_first: { (s : Self) (r : Option Label) (t : Self) → Self.next_gives s r t →
        YieldsFirstBy label_octets left s r t };

    /// `next_back` takes the last of them.
    ghost takes_last: { (s : Self) (r : Option Label) (t : Self) → Self.next_back_gives s r t →
        YieldsLastBy label_octets left s r t };
}

/// A value that is one list of labels: that of an absolute or of a relative name.
pub trait NameLabels {
    /// The list.
    ghost labels: { Self → List (List ℕ) };

    /// How many octets the name has on the wire without compression.
    fn compose_len(&self) -> u16
        ensures { result ≡ length (wire (labels self.now)) };

    /// Whether the list ends in the root label.
    fn is_absolute(&self) -> bool
        ensures { IsTrue result ↔ IsAbsolute (labels self.now) };

    ghost lawful: { (n : Self) → IsName (labels n) };
}

/// A type whose values are all absolute names.
pub trait Absolute: NameLabels {
    ghost absolute: { (n : Self) → IsAbsoluteName (Self.labels n) };
}

/// A type whose values are all relative names.
pub trait Relative: NameLabels {
    ghost relative: { (n : Self) → IsRelativeName (Self.labels n) };
}

/// A name whose labels can be iterated over.
pub trait ToLabelIter<'a>: NameLabels {
    /// What iterates over them.
    type LabelIter: LabelIterator<'a>;

    /// The labels, from either end.
    fn iter_labels(&'a self) -> Self::LabelIter
        ensures { Self.LabelIter.left result ≡ Self.labels self.now };

    /// The names whose wire format can be borrowed in contiguous octets.
    ghost lies_flat: { Self → Type 0 };

    /// The wire format of the name, where it is in contiguous octets.
    fn as_flat_slice(&'a self) -> Option<&'a [u8]>
        ensures wire { IfSome result (λ s. s.now ≡ wire (Self.labels self.now)) }
        ensures given { IsSome result ↔ lies_flat self.now };

    /// Whether the name begins with the labels of `other`, a name of any kind, ignoring ASCII case.
    final fn starts_with<N: ToLabelIter<'a>>(&'a self, other: &'a N) -> bool
        ensures { IsTrue result ↔ StartsWith (Self.labels self.now) (N.labels other.now) }
    {
        begins_with_labels(self, other)
    }

    /// Whether the name ends with the labels of `other`, a name of any kind, ignoring ASCII case. No relative name
    /// ends with an absolute one.
    ///
    /// In `crates/examples/src/comparing.rt`, where it is proved:
    ///
    /// ```rust
    /// pub fn is_in_zone<'a, N: AbsoluteLabels<'a>, A: AbsoluteLabels<'a>>(
    ///     name: &'a N,
    ///     ancestor: &'a A,
    /// ) -> bool
    ///     ensures { IsTrue result ↔ EndsWith (N.labels name.now) (A.labels ancestor.now) }
    /// {
    ///     name.ends_with(ancestor)
    /// }
    /// ```
    final fn ends_with<N: ToLabelIter<'a>>(&'a self, other: &'a N) -> bool
        ensures { IsTrue result ↔ EndsWith (Self.labels self.now) (N.labels other.now) }
    {
        ends_with_labels(self, other)
    }
}

/// An absolute name whose labels can be iterated over.
pub trait AbsoluteLabels<'a>: ToLabelIter<'a> + Absolute {}

/// A relative name whose labels can be iterated over.
pub trait RelativeLabels<'a>: ToLabelIter<'a> + Relative {}

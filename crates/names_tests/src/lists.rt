//! Kinds of names of the tests' own, with an iterator of their own: a slice of labels.
ghost use Rattle.std.specs.Prelude.{◌≡◌, length, map, IfSome};
ghost use Rattle.std.proofs.Common.{inl, inr};
ghost use Rattle.std.specs.Coded.{×_prop, le_prop};
ghost use Rattle.std.specs.Iterator.{YieldsFirstBy, YieldsLastBy, item_count};
ghost use Rattle.domain_label.specs.Labels.{label_octets};
ghost use Rattle.domain_label.specs.Wire.{wire, IsAbsoluteName, IsRelativeName};
ghost use Rattle.domain_label.proofs.WireLaws.{IsAbsoluteName_prop, IsRelative_prop};

use domain_label::Label;
use domain_list::{
    Absolute, AbsoluteLabels, LabelIterator, NameLabels, Relative, RelativeLabels, ToLabelIter,
};

/// The labels of a slice, from both ends.
#[derive(Clone, Copy)]
pub struct Row<'a> {
    labels: &'a [Label<'static>],
}

impl<'a> Iterator for Row<'a> {
    type Item = Label<'a>;

    ghost next_gives = { YieldsFirstBy label_octets (λ row. map label_octets row.labels.now) };

    ghost remaining = { item_count (λ row. map label_octets row.labels.now) };

    fn next(&mut self) -> Option<Label<'a>> {
        let labels = self.labels;
        let [first, rest @ ..] = labels else {
            return None;
        };
        self.labels = rest;
        Some(*first)
    }
}

impl<'a> DoubleEndedIterator for Row<'a> {
    ghost next_back_gives = { YieldsLastBy label_octets (λ row. map label_octets row.labels.now) };

    fn next_back(&mut self) -> Option<Label<'a>> {
        let labels = self.labels;
        let [rest @ .., last] = labels else {
            return None;
        };
        self.labels = rest;
        Some(*last)
    }
}

impl<'a> LabelIterator<'a> for Row<'a> {
    ghost left = { λ row. map label_octets row.labels.now };

    ghost ready = { λ s. tt };

    ghost ready_back = { λ s. tt };

    ghost ends = { λ s. tt };

    ghost takes_first = { λ s r t h. h };

    ghost takes_last = { λ s r t h. h };
}

/// A relative name.
#[derive(Clone, Copy)]
pub struct RelativeList<'x> {
    labels: &'x [Label<'static>],
    size: u16,
    ghost relative: { IsRelativeName (map label_octets labels.now) } by { ×_prop (IsRelative_prop (map label_octets labels.now)) le_prop },
    ghost sized: { size ≡ length (wire (map label_octets labels.now)) },
}

impl<'x> RelativeList<'x> {
    /// None where a label is the root or the name is too long.
    pub fn new(labels: &'x [Label<'static>]) -> Option<RelativeList<'x>>
        ensures { IfSome result (λ name. name.labels.now ≡ labels.now) }
    {
        let mut size = 0;
        for label in labels {
            size += label.len() as u16 + 1;
            if label.is_root() || size > 254 {
                return None;
            }
        }
        Some(RelativeList { labels, size })
    }
}

impl<'x> NameLabels for RelativeList<'x> {
    ghost labels = { λ name. map label_octets name.labels.now };

    fn compose_len(&self) -> u16 {
        self.size
    }

    fn is_absolute(&self) -> bool {
        false
    }

    ghost lawful = { λ name. inr name.relative };
}

impl<'x> Relative for RelativeList<'x> {
    ghost relative = { λ name. name.relative };
}

impl<'a, 'x> ToLabelIter<'a> for RelativeList<'x> {
    type LabelIter = Row<'a>;

    fn iter_labels(&'a self) -> Row<'a> {
        Row {
            labels: self.labels,
        }
    }

    ghost lies_flat = { λ _. ⊥ };

    fn as_flat_slice(&'a self) -> Option<&'a [u8]> {
        None
    }
}

impl<'a, 'x> RelativeLabels<'a> for RelativeList<'x> {}

/// An absolute name.
#[derive(Clone, Copy)]
pub struct AbsoluteList<'x> {
    labels: &'x [Label<'static>],
    size: u16,
    ghost absolute: { IsAbsoluteName (map label_octets labels.now) } by { IsAbsoluteName_prop (map label_octets labels.now) },
    ghost sized: { size ≡ length (wire (map label_octets labels.now)) },
}

impl<'x> AbsoluteList<'x> {
    /// None where the last label alone isn't the root, or the name is too long.
    pub fn new(labels: &'x [Label<'static>]) -> Option<AbsoluteList<'x>> {
        let (last, front) = labels.split_last()?;
        let front = RelativeList::new(front)?;
        if !last.is_root() {
            return None;
        }
        Some(AbsoluteList {
            labels,
            size: front.size + 1,
        })
    }
}

impl<'x> NameLabels for AbsoluteList<'x> {
    ghost labels = { λ name. map label_octets name.labels.now };

    fn compose_len(&self) -> u16 {
        self.size
    }

    fn is_absolute(&self) -> bool {
        true
    }

    ghost lawful = { λ name. inl name.absolute };
}

impl<'x> Absolute for AbsoluteList<'x> {
    ghost absolute = { λ name. name.absolute };
}

impl<'a, 'x> ToLabelIter<'a> for AbsoluteList<'x> {
    type LabelIter = Row<'a>;

    fn iter_labels(&'a self) -> Row<'a> {
        Row {
            labels: self.labels,
        }
    }

    ghost lies_flat = { λ _. ⊥ };

    fn as_flat_slice(&'a self) -> Option<&'a [u8]> {
        None
    }
}

impl<'a, 'x> AbsoluteLabels<'a> for AbsoluteList<'x> {}

/// A name of another kind and a number, absolute or relative as the other kind is.
#[derive(Clone, Copy)]
pub struct Numbered<N> {
    pub name: N,
    pub number: u16,
}

impl<N: NameLabels> NameLabels for Numbered<N> {
    ghost labels = { λ numbered. N.labels numbered.name };

    fn compose_len(&self) -> u16 {
        self.name.compose_len()
    }

    fn is_absolute(&self) -> bool {
        self.name.is_absolute()
    }

    ghost lawful = { λ numbered. N.lawful numbered.name };
}

impl<N: Absolute> Absolute for Numbered<N> {
    ghost absolute = { λ numbered. N.absolute numbered.name };
}

impl<N: Relative> Relative for Numbered<N> {
    ghost relative = { λ numbered. N.relative numbered.name };
}

impl<'a, N: ToLabelIter<'a>> ToLabelIter<'a> for Numbered<N> {
    type LabelIter = N::LabelIter;

    fn iter_labels(&'a self) -> N::LabelIter {
        self.name.iter_labels()
    }

    ghost lies_flat = { λ numbered. N.lies_flat numbered.name };

    fn as_flat_slice(&'a self) -> Option<&'a [u8]> {
        self.name.as_flat_slice()
    }
}

impl<'a, N: AbsoluteLabels<'a>> AbsoluteLabels<'a> for Numbered<N> {}

impl<'a, N: RelativeLabels<'a>> RelativeLabels<'a> for Numbered<N> {}

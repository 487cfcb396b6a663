//! The labels of a host's name.
ghost use Rattle.std.specs.Prelude.{◌≡◌, ◌∷◌};
ghost use Rattle.std.specs.Iterator.{YieldsFirstBy, YieldsLastBy, item_count};
ghost use Rattle.domain_label.specs.Labels.{label_octets};
ghost use Rattle.examples.specs.Hosts.{labels_left_of};

use domain_label::Label;
use domain_list::LabelIterator;

/// A label, and then those that another iterator gives, from either end.
#[derive(Clone, Copy)]
pub struct HostLabels<'a, I> {
    first: Option<Label<'a>>,
    zone: I,
}

impl<'a, I: LabelIterator<'a>> HostLabels<'a, I> {
    /// A label, and then those of a zone's name.
    pub fn new(first: Label<'a>, zone: I) -> HostLabels<'a, I>
        ensures { labels_left_of I.left result ≡ label_octets first.entry ∷ I.left zone }
    {
        HostLabels {
            first: Some(first),
            zone,
        }
    }
}

impl<'a, I: LabelIterator<'a>> Iterator for HostLabels<'a, I> {
    type Item = Label<'a>;

    ghost next_gives = { YieldsFirstBy label_octets (labels_left_of I.left) };

    ghost remaining = { item_count (labels_left_of I.left) };

    fn next(&mut self) -> Option<Label<'a>> {
        match self.first.take() {
            Some(label) => Some(label),
            None => self.zone.next(),
        }
    }
}

impl<'a, I: LabelIterator<'a>> DoubleEndedIterator for HostLabels<'a, I> {
    ghost next_back_gives = { YieldsLastBy label_octets (labels_left_of I.left) };

    fn next_back(&mut self) -> Option<Label<'a>> {
        match self.zone.next_back() {
            Some(label) => Some(label),
            None => self.first.take(),
        }
    }
}

impl<'a, I: LabelIterator<'a>> LabelIterator<'a> for HostLabels<'a, I> {
    ghost left = { labels_left_of I.left };

    ghost ready = { λ s. tt };

    ghost ready_back = { λ s. tt };

    ghost ends = { λ s. tt };

    ghost takes_first = { λ s r t h. h };

    ghost takes_last = { λ s r t h. h };
}

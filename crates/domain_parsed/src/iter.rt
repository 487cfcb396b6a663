//! The labels of a name in a message, from either end.
ghost use Rattle.std.specs.Prelude.{◌≡◌, ◌<◌};
ghost use Rattle.domain_reading.specs.Offsets.{AreLabelOffsets, labels_at_entries};

use domain_label::Label;
use domain_reading::heads::Heads;
use domain_reading::table::{entry_offset, read_label};
use std::marker::{Brand, PhantomData};
use std::sync::ledger::{Blank, Ledger};

/// The labels of a name in a message, the root label last.
///
/// They are returned from either end, each of them once. Each is read at the offset that the name's table has for it,
/// and counts as one; no pointer is followed again.
#[derive(Clone, Copy)]
pub struct ParsedNameIter<'a> {
    octets: &'a [u8],
    base: usize,
    entries: &'a [u16],
    of: PhantomData<Label<'a>>,
    ghost labels_stand: { AreLabelOffsets octets.now base entries.now },
}

impl<'a> ParsedNameIter<'a> {
    ghost use Rattle.std.specs.Iterator.{YieldsFirstBy, YieldsLastBy};
    ghost use Rattle.domain_label.specs.Labels.{label_octets};
    ghost use Rattle.domain_parsed.specs.ParsedNames.{labels_left};
    ghost use Rattle.domain_parsed.specs.Parses.{CountsLabel};

    /// The labels at the offsets that a table has.
    #[inline(always)]
    pub(crate) fn new(octets: &'a [u8], base: usize, entries: &'a [u16]) -> Self
        requires { AreLabelOffsets octets.now base entries.now }
        ensures { labels_left result ≡ labels_at_entries octets.now base entries.now }
    {
        ParsedNameIter {
            octets,
            base,
            entries,
            of: PhantomData,
        }
    }

    /// The same as `next`, and counts what is read: one for a label, nothing for `None`.
    #[inline(always)]
    pub fn next_counted<L: Ledger>(&mut self, heads: &mut Heads<L>) -> Option<Label<'a>>
        ensures first { YieldsFirstBy label_octets labels_left self.old result self.new }
        ensures counted { CountsLabel result heads.old heads.new }
    {
        let (first, rest) = self.entries.split_first()?;
        let offset = entry_offset(self.base, *first);
        let label = read_label(self.octets, offset, heads);
        self.entries = rest;
        Some(label)
    }

    /// The same as `next_back`, and counts what is read: one for a label, nothing for `None`.
    #[inline(always)]
    pub fn next_back_counted<L: Ledger>(&mut self, heads: &mut Heads<L>) -> Option<Label<'a>>
        ensures last { YieldsLastBy label_octets labels_left self.old result self.new }
        ensures counted { CountsLabel result heads.old heads.new }
    {
        let (last, front) = self.entries.split_last()?;
        let offset = entry_offset(self.base, *last);
        let label = read_label(self.octets, offset, heads);
        self.entries = front;
        Some(label)
    }

    /// `next_counted` with a new count, which is dropped.
    #[inline(always)]
    fn next_with<L: Ledger>(&mut self, blank: Blank) -> Option<Label<'a>>
        requires ledger { blank.name ≡ L.name }
        requires parts { blank.parts ≡ L.parts }
        requires some { 0 < blank.parts }
        ensures { YieldsFirstBy label_octets labels_left self.old result self.new }
    {
        self.next_counted(&mut Heads::<L>::new(blank))
    }

    /// `next_back_counted` with a new count, which is dropped.
    #[inline(always)]
    fn next_back_with<L: Ledger>(&mut self, blank: Blank) -> Option<Label<'a>>
        requires ledger { blank.name ≡ L.name }
        requires parts { blank.parts ≡ L.parts }
        requires some { 0 < blank.parts }
        ensures { YieldsLastBy label_octets labels_left self.old result self.new }
    {
        self.next_back_counted(&mut Heads::<L>::new(blank))
    }
}

impl<'a> Iterator for ParsedNameIter<'a> {
    ghost use Rattle.std.specs.Iterator.{YieldsFirstBy, item_count};
    ghost use Rattle.domain_label.specs.Labels.{label_octets};
    ghost use Rattle.domain_parsed.specs.ParsedNames.{labels_left};

    type Item = Label<'a>;

    ghost next_gives = { YieldsFirstBy label_octets labels_left };

    ghost remaining = { item_count labels_left };

    #[inline(always)]
    fn next(&mut self) -> Option<Label<'a>> {
        self.next_with::<Brand>(Blank::new(1))
    }
}

impl<'a> DoubleEndedIterator for ParsedNameIter<'a> {
    ghost use Rattle.std.specs.Iterator.{YieldsLastBy};
    ghost use Rattle.domain_label.specs.Labels.{label_octets};
    ghost use Rattle.domain_parsed.specs.ParsedNames.{labels_left};

    ghost next_back_gives = { YieldsLastBy label_octets labels_left };

    #[inline(always)]
    fn next_back(&mut self) -> Option<Label<'a>> {
        self.next_back_with::<Brand>(Blank::new(1))
    }
}

//! Names in the lines of records and questions, as the text of a zone has them (RFC 1035, 5.1).
ghost use Rattle.std.specs.Prelude.{◌≡◌, ◌≤◌, ◌<◌, ◌+◌, ◌*◌, ◌++◌, [], length, Some, IsTrue};
ghost use Rattle.std.specs.List.{flat_map};
ghost use Rattle.std.specs.Str.{IsAscii};
ghost use Rattle.domain_label.specs.Labels.{label_octets};
ghost use Rattle.domain_label.specs.Wire.{wire};
ghost use Rattle.domain_field_text.specs.Names.{has_zone_meaning, zone_octet, zone_label, zone_name};

use arrayvec::ArrayVec;
use domain_label::Label;
use domain_label::presentation::{ascii_text, push_label};
use domain_list::{AbsoluteLabels, LabelIterator};
use std::fmt;

/// Whether the octet has a meaning in a zone, and none in a name by itself.
fn has_zone_meaning(octet: u8) -> bool
    ensures meaning { result ≡ has_zone_meaning octet }
    ensures ascii { IsTrue result → octet < 128 }
{
    octet == b';'
        || octet == b'"'
        || octet == b'('
        || octet == b')'
        || octet == b'@'
        || octet == b'$'
}

/// Appends an octet of a label.
fn push_octet(octet: u8, text: &mut ArrayVec<u8, 1020>)
    requires room { length text.old.items + 4 ≤ 1020 }
    requires ascii { IsAscii text.old.items }
    ensures text { text.new.items ≡ text.old.items ++ zone_octet octet }
    ensures ascii { IsAscii text.new.items }
    ensures size { length text.new.items ≤ length text.old.items + 4 }
{
    if has_zone_meaning(octet) {
        text.push(b'\\');
        text.push(octet);
        return;
    }
    push_label(&[octet], text);
}

/// Appends the octets of a label.
fn push_octets(octets: &[u8], text: &mut ArrayVec<u8, 1020>)
    requires room { length text.old.items + 4 * length octets.now ≤ 1020 }
    requires ascii { IsAscii text.old.items }
    ensures text { text.new.items ≡ text.old.items ++ flat_map zone_octet octets.now }
    ensures ascii { IsAscii text.new.items }
    ensures size { length text.new.items ≤ length text.old.items + 4 * length octets.now }
{
    for octet in octets {
        push_octet(*octet, text);
    }
}

/// Appends a label with a dot after it, and the root label as nothing.
fn push_with_dot(label: Label, text: &mut ArrayVec<u8, 1020>)
    requires room { length text.old.items + 4 * length (label_octets label) + 1 ≤ 1020 }
    requires ascii { IsAscii text.old.items }
    ensures text { text.new.items ≡ text.old.items ++ zone_label (label_octets label.entry) }
    ensures ascii { IsAscii text.new.items }
    ensures size { length text.new.items
        ≤ length text.old.items + 4 * length (label_octets label.entry) + 1 }
{
    if label.is_root() {
        return;
    }
    push_octets(label.as_slice(), text);
    text.push(b'.');
}

/// Appends the remaining labels to an empty buffer, with a dot after each, and the root alone as a dot.
fn push_name<'a, I: LabelIterator<'a>>(labels: I, text: &mut ArrayVec<u8, 1020>)
    requires fits { length (wire (I.left labels)) ≤ 255 }
    requires empty { text.old.items ≡ [] }
    ensures text { text.new.items ≡ zone_name (I.left labels) }
    ensures ascii { IsAscii text.new.items }
{
    let mut labels = labels;
    while let Some(label) = labels.next() {
        push_with_dot(label, text);
    }
    if text.is_empty() {
        text.push(b'.');
    }
}

/// A name as the text of a zone has it: with a dot after each label, and a backslash before each octet that has a
/// meaning there.
#[derive(Clone, Copy)]
pub struct ZoneName<'a, N> {
    pub name: &'a N,
}

impl<'a, N: AbsoluteLabels<'a>> fmt::Display for ZoneName<'a, N> {
    ghost output = { λ it. Some (zone_name (N.labels it.name.now)) };

    fn fmt<W: fmt::Write>(&self, f: &mut fmt::Formatter<W>) -> fmt::Result {
        let mut text = ArrayVec::<u8, 1020>::new();
        push_name(self.name.iter_labels(), &mut text);
        f.write_str(ascii_text(text.as_slice()))
    }
}

//! Names as text with a final dot.
ghost use Rattle.std.specs.Prelude.{◌≡◌, ◌≤◌, ◌+◌, ◌*◌, ◌++◌, [], length, Some};
ghost use Rattle.std.specs.Str.{IsAscii};
ghost use Rattle.domain_label.specs.Text.{with_dot, text_with_final_dot};
ghost use Rattle.domain_label.specs.Labels.{label_octets};
ghost use Rattle.domain_label.specs.Wire.{wire};

use crate::labels::{AbsoluteLabels, LabelIterator};
use crate::unescaped::{after_dot, put_unescaped};
use arrayvec::ArrayVec;
use domain_label::Label;
use domain_label::presentation::{ascii_text, push_label};
use std::fmt;

/// Appends a label with a dot after it, and the root label as nothing.
fn push_with_dot(label: Label, text: &mut ArrayVec<u8, 1020>)
    requires room { length text.old.items + 4 * length (label_octets label) + 1 ≤ 1020 }
    requires ascii { IsAscii text.old.items }
    ensures text { text.new.items ≡ text.old.items ++ with_dot (label_octets label.entry) }
    ensures ascii { IsAscii text.new.items }
    ensures size { length text.new.items
        ≤ length text.old.items + 4 * length (label_octets label.entry) + 1 }
{
    if label.is_root() {
        return;
    }
    push_label(label.as_slice(), text);
    text.push(b'.');
}

/// Appends the remaining labels to a buffer with a dot after each, and the root alone as a dot (RFC 1035, 5.1). The
/// buffer is empty and has room for each name.
pub fn push_dotted<'a, I: LabelIterator<'a>>(labels: I, text: &mut ArrayVec<u8, 1020>)
    requires fits { length (wire (I.left labels)) ≤ 255 }
    requires empty { text.old.items ≡ [] }
    ensures text { text.new.items ≡ text_with_final_dot (I.left labels) }
    ensures ascii { IsAscii text.new.items }
{
    let mut labels = labels;
    while let Some(label) = labels.next() {
        push_with_dot(label, text);
    }
    if text.is_empty() {
        text.push(b'.');
    }
}

/// Shows a name with a dot after each label, and the root as a dot (RFC 1035, 5.1).
#[derive(Clone, Copy)]
pub struct DisplayWithDot<'a, N> {
    name: &'a N,
}

impl<'a, N> DisplayWithDot<'a, N> {
    ghost use Rattle.domain_list.specs.FinalDot.{dotted_name};

    /// Shows this name.
    pub fn new(name: &'a N) -> DisplayWithDot<'a, N>
        ensures { dotted_name result ≡ name.now }
    {
        DisplayWithDot { name }
    }
}

impl<'a, N: AbsoluteLabels<'a>> fmt::Display for DisplayWithDot<'a, N> {
    ghost use Rattle.domain_list.specs.FinalDot.{dotted_name};

    ghost output = { λ shown. Some (text_with_final_dot (N.labels (dotted_name shown))) };

    fn fmt<W: fmt::Write>(&self, f: &mut fmt::Formatter<W>) -> fmt::Result {
        let mut octets = [0; 255];
        if let Some(len) = put_unescaped(self.name, &mut octets) {
            return f.write_str(ascii_text(after_dot(&octets[..len])));
        }
        let mut text = ArrayVec::<u8, 1020>::new();
        push_dotted(self.name.iter_labels(), &mut text);
        f.write_str(ascii_text(text.as_slice()))
    }
}

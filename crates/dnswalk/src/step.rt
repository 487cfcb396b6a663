//! What reading a name meets at an offset, as a line of text.
ghost use Rattle.std.specs.Prelude.{Some};

use domain_label::Label;
use std::fmt;

/// The number of octets with its noun.
#[derive(Clone, Copy)]
pub(crate) struct Octets {
    pub(crate) count: usize,
}

impl fmt::Display for Octets {
    ghost use Rattle.dnswalk.specs.Lines.{octets_text};

    ghost output = { λ it. Some (octets_text it.count) };

    fn fmt<W: fmt::Write>(&self, f: &mut fmt::Formatter<W>) -> fmt::Result {
        if self.count == 1 {
            write!(f, "1 octet")
        } else {
            write!(f, "{} octets", self.count)
        }
    }
}

/// A label with its size.
#[derive(Clone, Copy)]
struct SizedLabel<'a> {
    label: Label<'a>,
}

impl<'a> fmt::Display for SizedLabel<'a> {
    ghost use Rattle.domain_label.specs.Labels.{label_octets};
    ghost use Rattle.dnswalk.specs.Lines.{label_text};

    ghost output = { λ it. Some (label_text (label_octets it.label)) };

    fn fmt<W: fmt::Write>(&self, f: &mut fmt::Formatter<W>) -> fmt::Result {
        let octets = self.label.as_slice();
        let size = Octets {
            count: octets.len(),
        };
        let label = self.label;
        write!(f, "label of {size} \"{label}\"")
    }
}

/// What is at an offset of a message.
#[derive(Clone, Copy)]
pub(crate) enum Step<'a> {
    /// The root label, which ends the name.
    Root { offset: usize },
    /// A label that isn't the root.
    Label { offset: usize, label: Label<'a> },
    /// A pointer to an offset.
    Pointer { offset: usize, target: usize },
    /// Neither a whole label nor a whole pointer before the end of the message.
    CutShort { offset: usize },
    /// An octet that begins neither a label nor a pointer.
    BadType { offset: usize, octet: u8 },
    /// A label with which the name is too long.
    LongName { offset: usize, label: Label<'a> },
    /// A pointer that doesn't point backwards.
    NotBackwards { offset: usize, target: usize },
    /// A pointer after as many as are followed.
    OneTooMany { offset: usize, target: usize },
}

impl<'a> fmt::Display for Step<'a> {
    ghost use Rattle.dnswalk.specs.Lines.{step_line};

    ghost output = { λ step. Some (step_line step) };

    fn fmt<W: fmt::Write>(&self, f: &mut fmt::Formatter<W>) -> fmt::Result {
        match *self {
            Step::Root { offset } => write!(f, "{offset}: root label"),
            Step::Label { offset, label } => write!(f, "{offset}: {}", SizedLabel { label }),
            Step::Pointer { offset, target } => write!(f, "{offset}: pointer to {target}"),
            Step::CutShort { offset } => write!(
                f,
                "{offset}: the message ends before a whole label or pointer: refused, RFC 1035 4.1.4"
            ),
            Step::BadType { offset, octet } => write!(
                f,
                "{offset}: octet {octet} begins neither a label nor a pointer: refused, RFC 1035 4.1.4"
            ),
            Step::LongName { offset, label } => write!(
                f,
                "{offset}: {}, too long for a name of 255: refused, RFC 1035 3.1",
                SizedLabel { label }
            ),
            Step::NotBackwards { offset, target } => write!(
                f,
                "{offset}: pointer to {target}, which isn't before it: refused, RFC 1035 4.1.4"
            ),
            Step::OneTooMany { offset, target } => {
                write!(
                    f,
                    "{offset}: pointer to {target}, after 255 pointers: refused"
                )
            }
        }
    }
}

//! The offsets of a name's labels.
ghost use Rattle.std.specs.Prelude.{◌≡◌, ◌+◌, ◌<◌, ◌^◌};
ghost use Rattle.domain_label.specs.Labels.{label_octets};
ghost use Rattle.domain_reading.specs.Offsets.{entry_offset, IsLabelOffset, label_at};

use crate::head::{Head, read_head};
use crate::heads::Heads;
use domain_label::Label;
use std::sync::ledger::Ledger;

/// The most labels that a name has, the root among them.
pub const MAX_LABELS: usize = 128;

/// What is added to an offset of the message in an entry, to mark it; an unmarked entry counts from the first label.
pub const FAR: u16 = 32768;

/// The offset that an entry of a table means.
#[inline(always)]
pub fn entry_offset(base: usize, entry: u16) -> usize
    requires { entry_offset base entry < 2 ^ 64 }
    ensures { result ≡ entry_offset base entry }
{
    if entry < FAR {
        base + usize::from(entry)
    } else {
        usize::from(entry - FAR)
    }
}

/// The label at an offset, which is counted.
#[inline(always)]
pub fn read_label<'a, L: Ledger>(octets: &'a [u8], offset: usize, heads: &mut Heads<L>) -> Label<'a>
    requires { IsLabelOffset octets.now offset }
    ensures label { label_octets result ≡ label_at octets.now offset }
    ensures counted { heads.new ≡ heads.old + 1 }
{
    let Ok(head) = read_head(octets, offset, heads) else {
        unreachable!();
    };
    match head {
        Head::Root => Label::root(),
        Head::Label(len) => {
            let start = offset + 1;
            let after = start + usize::from(len);
            let Ok(label) = Label::from_slice(&octets[start..after]) else {
                unreachable!();
            };
            label
        }
        Head::Pointer(_) => unreachable!(),
    }
}

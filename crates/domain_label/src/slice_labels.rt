//! The labels in a slice, one after another.
ghost use Rattle.std.specs.Prelude.{◌≡◌, ℕ, length, drop, IfOk, IfErr};
ghost use Rattle.std.specs.Iterator.{YieldsFirstBy, item_count};
ghost use Rattle.domain_label.specs.SliceWalk.{slice_walk, WalkEnds};
ghost use Rattle.domain_label.specs.Splitting.{SplitsInto, SplitFault};
ghost use Rattle.domain_label.specs.Labels.{label_octets, walk_left};

use crate::label::Label;
use crate::split_error::SplitLabelError;

/// The labels in a slice, one after another, made by [`Label::iter_slice`].
#[derive(Debug, Drop)]
pub struct SliceLabelsIter<'a> {
    slice: &'a [u8],
    /// The offset of the next label or pointer.
    offset: usize,
    /// How many labels and pointers are read at most from here on, 0 after the end.
    heads: usize,
}

impl<'a> Label<'a> {
    /// Returns the labels in `slice` from the offset `start` on, one after another.
    ///
    /// The root label is given and is the last. A pointer is followed to its own offset or one before it, which counts
    /// from the beginning of `slice`. The labels end at a pointer to a later offset, at a first octet of another type,
    /// and at a label or pointer that isn't whole. They also end at the end of `slice`; from a `start` at or after it
    /// there is no label. At most as many labels and pointers together are read as `slice` has octets. Only pointers
    /// in a loop reach this limit (RFC 1035, 3.1 and 4.1.4).
    pub fn iter_slice(slice: &'a [u8], start: usize) -> SliceLabelsIter<'a>
        ensures labels { walk_left result ≡ slice_walk slice.now start (length slice.now) }
        // Labels that end, within any number n of labels and pointers, are all given.
        ensures whole { (n : ℕ) → WalkEnds slice.now start n →
            walk_left result ≡ slice_walk slice.now start n }
    {
        SliceLabelsIter {
            slice,
            offset: start,
            heads: slice.len(),
        }
    }
}

impl<'a> Iterator for SliceLabelsIter<'a> {
    type Item = Label<'a>;

    ghost next_gives = { YieldsFirstBy label_octets walk_left };

    ghost remaining = { item_count walk_left };

    fn next(&mut self) -> Option<Label<'a>> {
        while self.heads > 0 {
            self.heads -= 1;
            match split_at_offset(self.slice, self.offset) {
                Ok((label, _)) => {
                    if label.is_root() {
                        self.heads = 0;
                        return Some(label);
                    }
                    self.offset += label.len() + 1;
                    return Some(label);
                }
                Err(SplitLabelError::Pointer(offset)) => {
                    if offset as usize > self.offset {
                        self.heads = 0;
                        return None;
                    }
                    self.offset = offset as usize;
                }
                Err(_) => {
                    self.heads = 0;
                    return None;
                }
            }
        }
        None
    }
}

/// The label at an offset, and the octets after it. `ShortInput` where the offset is at or after the end.
fn split_at_offset(octets: &[u8], offset: usize) -> Result<(Label<'_>, &[u8]), SplitLabelError>
    ensures ok { IfOk result (λ parts. SplitsInto (drop offset octets.now) parts) }
    ensures err { IfErr result (λ e. SplitFault (drop offset octets.now) e) }
{
    if offset >= octets.len() {
        return Err(SplitLabelError::ShortInput);
    }
    let (_, octets) = octets.split_at(offset);
    Label::split_from(octets)
}

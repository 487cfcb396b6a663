//! Names in messages read slowly, by the three cases of the grammar (RFC 1035, section 4.1.4): the root, a label, and
//! a whole pointer to an earlier offset.
//!
//! This stands beside the library's reader, to be compared with it, and shares nothing with it: it has no table of
//! labels and no shortcut, takes one head after another and keeps the labels' octets.

use arrayvec::ArrayVec;
use domain_wire::ParseError;

/// The most heads that a name has: 127 labels, 255 pointers and the root. One more meets a limit.
const MOST_HEADS: u16 = 384;

/// The most octets that the labels before the root have, each after its length.
const MOST_OCTETS: usize = 254;

const MOST_POINTERS: u8 = 255;

/// What stands at an offset.
enum Stands<'a> {
    Root,
    Label(&'a [u8]),
    Pointer(usize),
}

/// What stands at an offset of a message, where all of it is there.
fn stands_at(message: &[u8], offset: usize) -> Result<Stands<'_>, ParseError> {
    let Some([head, rest @ ..]) = message.get(offset..) else {
        return Err(ParseError::ShortInput);
    };
    match *head {
        0 => Ok(Stands::Root),
        1..=0x3f => label_of(rest, usize::from(*head)),
        0x40..=0xbf => Err(ParseError::form_error("invalid label type")),
        0xc0..=0xff => pointer_of(rest, usize::from(*head)),
    }
}

fn label_of(rest: &[u8], len: usize) -> Result<Stands<'_>, ParseError> {
    match rest.get(..len) {
        Some(label) => Ok(Stands::Label(label)),
        None => Err(ParseError::ShortInput),
    }
}

/// A pointer's low 14 bits are the offset that it names.
fn pointer_of(rest: &[u8], head: usize) -> Result<Stands<'_>, ParseError> {
    match rest.first() {
        Some(low) => Ok(Stands::Pointer(head % 64 * 256 + usize::from(*low))),
        None => Err(ParseError::ShortInput),
    }
}

/// The offset behind a label that stands at one.
fn behind_label(offset: usize, label: &[u8]) -> usize {
    offset.saturating_add(1).saturating_add(label.len())
}

/// A name, as far as it was read.
#[derive(Drop)]
pub struct SlowName {
    /// The labels, each after its length.
    pub octets: ArrayVec<u8, 255>,
    /// Whether a pointer stands after a label.
    pub is_compressed: bool,
    /// The offset behind the root or the first pointer, once that was read.
    pub behind: Option<usize>,
    pointers: u8,
}

impl SlowName {
    fn take(&mut self, label: &[u8]) -> Result<(), ParseError> {
        let len = self
            .octets
            .len()
            .saturating_add(label.len())
            .saturating_add(1);
        if len > MOST_OCTETS || !self.append(label) {
            return Err(ParseError::form_error("long domain name"));
        }
        Ok(())
    }

    /// Appends a label after its length, and tells whether there was room.
    fn append(&mut self, label: &[u8]) -> bool {
        let Ok(len) = u8::try_from(label.len()) else {
            return false;
        };
        self.octets.try_push(len).is_ok() && self.octets.try_extend_from_slice(label).is_ok()
    }

    /// Goes on at an earlier offset.
    fn follow(&mut self, offset: usize, target: usize) -> Result<(), ParseError> {
        if target >= offset || self.pointers == MOST_POINTERS {
            return Err(ParseError::form_error("too many compression pointers"));
        }
        self.pointers = self.pointers.saturating_add(1);
        self.is_compressed = !self.octets.is_empty();
        self.passed(offset.saturating_add(2));
        Ok(())
    }

    /// Notes where the name ends at its own place, the first time.
    fn passed(&mut self, behind: usize) {
        if self.behind.is_none() {
            self.behind = Some(behind);
        }
    }
}

/// The name at an offset of a message, or the first fault on the way.
pub fn read_slowly(message: &[u8], start: usize) -> Result<SlowName, ParseError> {
    let mut name = SlowName {
        octets: ArrayVec::new(),
        is_compressed: false,
        behind: None,
        pointers: 0,
    };
    let mut offset = start;
    for _head in 0..MOST_HEADS {
        match stands_at(message, offset)? {
            Stands::Root => {
                name.passed(offset.saturating_add(1));
                let _ = name.append(b"");
                return Ok(name);
            }
            Stands::Label(label) => {
                name.take(label)?;
                offset = behind_label(offset, label);
            }
            Stands::Pointer(target) => {
                name.follow(offset, target)?;
                offset = target;
            }
        }
    }
    Err(ParseError::form_error("more heads than a name has"))
}

/// The offset behind the root or the first pointer of the name at an offset, or the first fault before it.
pub fn skip_slowly(message: &[u8], start: usize) -> Result<usize, ParseError> {
    let mut offset = start;
    for _head in 0..MOST_HEADS {
        match stands_at(message, offset)? {
            Stands::Root => return end_at(start, offset.saturating_add(1)),
            Stands::Label(label) => offset = end_at(start, behind_label(offset, label))?,
            Stands::Pointer(_) => return Ok(offset.saturating_add(2)),
        }
    }
    Err(ParseError::form_error("more heads than a name has"))
}

/// The end of labels that began at an offset, the root among them, where they have at most 255 octets.
fn end_at(start: usize, end: usize) -> Result<usize, ParseError> {
    if end.saturating_sub(start) > 255 {
        return Err(ParseError::form_error("long domain name"));
    }
    Ok(end)
}

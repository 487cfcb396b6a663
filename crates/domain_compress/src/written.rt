//! What a composer remembers of a label, and what it finds.
ghost use Rattle.std.specs.Prelude.{◌<◌};

/// Where a label was written, where the name ends that it was written for, and a hash of the label.
#[derive(Clone, Copy)]
pub(crate) struct Written {
    pub(crate) offset: u16,
    pub(crate) end: u16,
    pub(crate) hash: u16,
    ghost low: { offset < 16384 },
}

impl Default for Written {
    fn default() -> Written {
        Written {
            offset: 0,
            end: 0,
            hash: 0,
        }
    }
}

/// A suffix of a name that stands at an offset of the octets.
#[derive(Clone, Copy)]
pub(crate) struct WrittenSuffix {
    /// Where it begins in the octets of the name.
    pub(crate) begin: usize,
    /// The offset.
    pub(crate) offset: u16,
    /// How many pointers lead along it there.
    pub(crate) pointers: u8,
}

/// Where a name stands first of the offsets.
#[derive(Clone, Copy)]
pub(crate) struct FoundName {
    pub(crate) offset: u16,
    /// How many pointers lead along it there.
    pub(crate) pointers: u8,
}

//! What can be wrong with a name in a message.

use domain_wire::ParseError;

/// Why no name can be read at an offset.
#[derive(Clone, Copy, Debug, PartialEq, Eq)]
pub enum NameFault {
    /// The first octet of a label or a pointer, an octet of a label or the second octet of a pointer is at or after
    /// the end.
    ShortInput,
    /// The first octet is neither that of a label nor that of a pointer: it is from 0x40 to 0xbf.
    BadLabelType,
    /// A pointer doesn't lead to an offset before its own, or it is one too many.
    TooManyPointers,
    /// The name has too many octets.
    LongName,
}

impl From<NameFault> for ParseError {
    ghost use Rattle.std.specs.Prelude.{◌≡◌};
    ghost use Rattle.domain_wire.specs.Refusals.{refusal};
    ghost use Rattle.domain_reading.specs.Faults.{error_of};

    ghost from_gives = { λ fault e. refusal e ≡ error_of fault };

    fn from(fault: NameFault) -> ParseError {
        match fault {
            NameFault::ShortInput => ParseError::ShortInput,
            NameFault::BadLabelType => ParseError::form_error("invalid label type"),
            NameFault::TooManyPointers => ParseError::form_error("too many compression pointers"),
            NameFault::LongName => ParseError::form_error("long domain name"),
        }
    }
}

//! Why octets begin with no label.
ghost use Rattle.std.specs.Prelude.{◌≡◌, Some};
ghost use Rattle.domain_label.specs.ErrorText.{label_type_text, split_text, split_refusal};

use crate::hex::hex_character;
use domain_wire::ParseError;
use std::error::Error;
use std::fmt;

/// A first octet that begins neither a label nor a pointer.
#[derive(Clone, Copy, Debug, PartialEq, Eq)]
pub enum LabelTypeError {
    /// A first octet from 0x80 to 0xbf, whose type was never defined.
    Undefined,
    /// A first octet from 0x40 to 0x7f: the extended label types of RFC 6891, none of which is in use. The value is
    /// this octet.
    Extended(u8),
}

impl fmt::Display for LabelTypeError {
    ghost output = { λ e. Some (label_type_text e) };

    fn fmt<W: fmt::Write>(&self, f: &mut fmt::Formatter<W>) -> fmt::Result {
        match self {
            LabelTypeError::Undefined => write!(f, "undefined label type"),
            LabelTypeError::Extended(value) => {
                let high = hex_character(*value / 16);
                let low = hex_character(*value % 16);
                write!(f, "unknown extended label 0x{high}{low}")
            }
        }
    }
}

impl Error for LabelTypeError {}

/// Why octets begin with no whole label.
#[derive(Clone, Copy, Debug, PartialEq, Eq)]
pub enum SplitLabelError {
    /// A compression pointer to this offset is there (RFC 1035, 4.1.4).
    Pointer(u16),
    /// The first octet is of a type that is not in use.
    BadType(LabelTypeError),
    /// The first octet, an octet of the label or the second octet of a pointer is missing.
    ShortInput,
}

impl fmt::Display for SplitLabelError {
    ghost output = { λ e. Some (split_text e) };

    fn fmt<W: fmt::Write>(&self, f: &mut fmt::Formatter<W>) -> fmt::Result {
        match self {
            SplitLabelError::Pointer(_) => write!(f, "compressed domain name"),
            SplitLabelError::BadType(label_type) => write!(f, "{label_type}"),
            SplitLabelError::ShortInput => write!(f, "unexpected end of input"),
        }
    }
}

impl Error for SplitLabelError {}

impl From<LabelTypeError> for SplitLabelError {
    ghost use Rattle.domain_label.specs.declared.split_error.SplitLabelError.TheVariants.{BadType};

    ghost from_gives = { λ label_type e. e ≡ BadType label_type };

    fn from(label_type: LabelTypeError) -> SplitLabelError {
        SplitLabelError::BadType(label_type)
    }
}

impl From<SplitLabelError> for ParseError {
    ghost use Rattle.domain_wire.specs.Refusals.{refusal};

    ghost from_gives = { λ split e. refusal e ≡ split_refusal split };

    fn from(split: SplitLabelError) -> ParseError {
        match split {
            SplitLabelError::Pointer(_) => ParseError::form_error("compressed domain name"),
            SplitLabelError::BadType(_) => ParseError::form_error("invalid label type"),
            SplitLabelError::ShortInput => ParseError::ShortInput,
        }
    }
}

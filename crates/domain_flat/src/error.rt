//! Why octets are no name.
ghost use Rattle.std.specs.Prelude.{◌≡◌, Some};

use domain_label::{LabelTypeError, SplitLabelError};
use domain_wire::{FormError, ParseError};
use std::error::Error;
use std::fmt;

/// Why octets are no absolute name.
#[derive(Clone, Copy, Debug, PartialEq, Eq)]
pub enum NameErrorKind {
    /// The first octet of a label is of a type that is not in use.
    BadLabel(LabelTypeError),
    /// A compression pointer is among the labels.
    CompressedName,
    /// There are more than 255 octets.
    LongName,
    /// The octets end after a label that isn't the root.
    RelativeName,
    /// Octets follow the root.
    TrailingData,
    /// There are no octets, or they end inside a label.
    ShortInput,
}

/// Octets that are no absolute name.
#[derive(Clone, Copy, Debug, PartialEq, Eq)]
pub struct NameError {
    kind: NameErrorKind,
}

impl NameError {
    ghost use Rattle.domain_flat.specs.FlatLabels.{name_error_kind};

    /// An error of this kind.
    pub(crate) fn new(kind: NameErrorKind) -> NameError
        ensures { name_error_kind result ≡ kind }
    {
        NameError { kind }
    }

    /// Why the octets are no name.
    pub fn kind(&self) -> NameErrorKind
        ensures { result ≡ name_error_kind self.now }
    {
        self.kind
    }
}

impl fmt::Display for NameError {
    ghost use Rattle.domain_flat.specs.ErrorText.{name_error_shown};
    ghost use Rattle.domain_flat.specs.FlatLabels.{name_error_kind};

    ghost output = { λ e. Some (name_error_shown (name_error_kind e)) };

    fn fmt<W: fmt::Write>(&self, f: &mut fmt::Formatter<W>) -> fmt::Result {
        match self.kind {
            NameErrorKind::BadLabel(label_type) => write!(f, "{label_type}"),
            NameErrorKind::CompressedName => write!(f, "compressed domain name"),
            NameErrorKind::LongName => write!(f, "long domain name"),
            NameErrorKind::RelativeName => write!(f, "relative name"),
            NameErrorKind::TrailingData => write!(f, "trailing data"),
            NameErrorKind::ShortInput => write!(f, "unexpected end of input"),
        }
    }
}

impl Error for NameError {}

impl From<LabelTypeError> for NameError {
    ghost use Rattle.domain_flat.specs.FlatLabels.{name_error_kind};
    ghost use Rattle.domain_flat.specs.declared.error.NameErrorKind.TheVariants.{BadLabel};

    ghost from_gives = { λ label_type e. name_error_kind e ≡ BadLabel label_type };

    fn from(label_type: LabelTypeError) -> NameError {
        NameError::new(NameErrorKind::BadLabel(label_type))
    }
}

impl From<SplitLabelError> for NameError {
    ghost use Rattle.domain_flat.specs.FlatLabels.{name_error_kind};
    ghost use Rattle.domain_flat.specs.ErrorText.{name_fault};

    ghost from_gives = { λ split e. name_error_kind e ≡ name_fault split };

    fn from(split: SplitLabelError) -> NameError {
        NameError::new(match split {
            SplitLabelError::Pointer(_) => NameErrorKind::CompressedName,
            SplitLabelError::BadType(label_type) => NameErrorKind::BadLabel(label_type),
            SplitLabelError::ShortInput => NameErrorKind::ShortInput,
        })
    }
}

impl From<NameError> for FormError {
    ghost use Rattle.domain_wire.specs.Refusals.{form_text};
    ghost use Rattle.domain_flat.specs.FlatLabels.{name_error_kind};
    ghost use Rattle.domain_flat.specs.ErrorText.{name_error_text};

    ghost from_gives = { λ name form. form_text form ≡ name_error_text (name_error_kind name) };

    fn from(name: NameError) -> FormError {
        FormError::new(match name.kind {
            NameErrorKind::BadLabel(_) => "unknown label type",
            NameErrorKind::CompressedName => "compressed domain name",
            NameErrorKind::LongName => "long domain name",
            NameErrorKind::RelativeName => "relative domain name",
            NameErrorKind::TrailingData => "trailing data in buffer",
            NameErrorKind::ShortInput => "unexpected end of buffer",
        })
    }
}

impl From<NameError> for ParseError {
    ghost use Rattle.domain_wire.specs.Refusals.{refusal};
    ghost use Rattle.domain_flat.specs.FlatLabels.{name_error_kind};
    ghost use Rattle.domain_flat.specs.ErrorText.{name_refusal};

    ghost from_gives = { λ name e. refusal e ≡ name_refusal (name_error_kind name) };

    fn from(name: NameError) -> ParseError {
        match name.kind {
            NameErrorKind::ShortInput => ParseError::ShortInput,
            _ => ParseError::Form(name.into()),
        }
    }
}

/// Why octets are no relative name.
#[derive(Clone, Copy, Debug, PartialEq, Eq)]
pub enum RelativeNameErrorKind {
    /// The first octet of a label is of a type that is not in use.
    BadLabel(LabelTypeError),
    /// A compression pointer is among the labels.
    CompressedName,
    /// The octets end inside a label.
    ShortInput,
    /// There are more than 254 octets.
    LongName,
    /// A root label is among the labels.
    AbsoluteName,
}

/// Octets that are no relative name.
#[derive(Clone, Copy, Debug, PartialEq, Eq)]
pub struct RelativeNameError {
    kind: RelativeNameErrorKind,
}

impl RelativeNameError {
    ghost use Rattle.domain_flat.specs.FlatLabels.{relative_name_error_kind};

    /// Why the octets are no name.
    pub fn kind(&self) -> RelativeNameErrorKind
        ensures { result ≡ relative_name_error_kind self.now }
    {
        self.kind
    }
}

impl fmt::Display for RelativeNameError {
    ghost use Rattle.domain_flat.specs.ErrorText.{relative_name_error_shown};
    ghost use Rattle.domain_flat.specs.FlatLabels.{relative_name_error_kind};

    ghost output = { λ e. Some (relative_name_error_shown (relative_name_error_kind e)) };

    fn fmt<W: fmt::Write>(&self, f: &mut fmt::Formatter<W>) -> fmt::Result {
        match self.kind {
            RelativeNameErrorKind::BadLabel(label_type) => write!(f, "{label_type}"),
            RelativeNameErrorKind::CompressedName => write!(f, "compressed domain name"),
            RelativeNameErrorKind::ShortInput => write!(f, "unexpected end of input"),
            RelativeNameErrorKind::LongName => write!(f, "long domain name"),
            RelativeNameErrorKind::AbsoluteName => write!(f, "absolute domain name"),
        }
    }
}

impl Error for RelativeNameError {}

impl From<RelativeNameErrorKind> for RelativeNameError {
    ghost use Rattle.domain_flat.specs.FlatLabels.{relative_name_error_kind};

    ghost from_gives = { λ kind e. relative_name_error_kind e ≡ kind };

    fn from(kind: RelativeNameErrorKind) -> RelativeNameError {
        RelativeNameError { kind }
    }
}

impl From<LabelTypeError> for RelativeNameError {
    ghost use Rattle.domain_flat.specs.FlatLabels.{relative_name_error_kind};
    ghost use Rattle.domain_flat.specs.declared.error.RelativeNameErrorKind.TheVariants.{BadLabel};

    ghost from_gives = { λ label_type e. relative_name_error_kind e ≡ BadLabel label_type };

    fn from(label_type: LabelTypeError) -> RelativeNameError {
        RelativeNameErrorKind::BadLabel(label_type).into()
    }
}

impl From<SplitLabelError> for RelativeNameError {
    ghost use Rattle.domain_flat.specs.FlatLabels.{relative_name_error_kind};
    ghost use Rattle.domain_flat.specs.ErrorText.{relative_name_fault};

    ghost from_gives = { λ split e. relative_name_error_kind e ≡ relative_name_fault split };

    fn from(split: SplitLabelError) -> RelativeNameError {
        RelativeNameError {
            kind: match split {
                SplitLabelError::Pointer(_) => RelativeNameErrorKind::CompressedName,
                SplitLabelError::BadType(label_type) => RelativeNameErrorKind::BadLabel(label_type),
                SplitLabelError::ShortInput => RelativeNameErrorKind::ShortInput,
            },
        }
    }
}

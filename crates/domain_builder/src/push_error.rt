//! Why octets weren't added.
ghost use Rattle.std.specs.Prelude.{◌≡◌, Some};

use domain_text::{FromStrError, TextFault};
use octseq::ShortBuf;
use std::error::Error;
use std::fmt;

/// Why octets weren't added.
#[derive(Clone, Copy, Debug, PartialEq, Eq)]
pub enum PushError {
    /// The label would have more than 63 octets.
    LongLabel,
    /// The name would have more than 254 octets before the root.
    LongName,
    /// The octets don't fit, or there was no memory for them.
    ShortBuf,
}

impl fmt::Display for PushError {
    ghost use Rattle.domain_builder.specs.Pushing.{push_text};

    ghost output = { λ e. Some (push_text e) };

    fn fmt<W: fmt::Write>(&self, f: &mut fmt::Formatter<W>) -> fmt::Result {
        match self {
            PushError::LongLabel => write!(f, "long label"),
            PushError::LongName => write!(f, "long domain name"),
            PushError::ShortBuf => {
                let short = ShortBuf;
                write!(f, "{short}")
            }
        }
    }
}

impl Error for PushError {}

impl From<ShortBuf> for PushError {
    ghost use Rattle.domain_builder.specs.declared.push_error.PushError.TheVariants.{ShortBuf};

    ghost from_gives = { λ _ e. e ≡ ShortBuf };

    fn from(_short: ShortBuf) -> Self {
        PushError::ShortBuf
    }
}

impl From<PushError> for FromStrError {
    ghost use Rattle.domain_builder.specs.Pushing.{PushErrorBecomes};

    ghost from_gives = { λ push e. PushErrorBecomes push e };

    fn from(push: PushError) -> Self {
        match push {
            PushError::LongLabel => TextFault::LongLabel.into(),
            PushError::LongName => TextFault::LongName.into(),
            PushError::ShortBuf => FromStrError::ShortBuf,
        }
    }
}

/// Why a name wasn't added.
#[derive(Clone, Copy, Debug, PartialEq, Eq)]
pub enum PushNameError {
    /// The name would have more than 254 octets before the root.
    LongName,
    /// The octets don't fit, or there was no memory for them.
    ShortBuf,
}

impl fmt::Display for PushNameError {
    ghost use Rattle.domain_builder.specs.Pushing.{push_name_text};

    ghost output = { λ e. Some (push_name_text e) };

    fn fmt<W: fmt::Write>(&self, f: &mut fmt::Formatter<W>) -> fmt::Result {
        match self {
            PushNameError::LongName => write!(f, "long domain name"),
            PushNameError::ShortBuf => {
                let short = ShortBuf;
                write!(f, "{short}")
            }
        }
    }
}

impl Error for PushNameError {}

impl From<ShortBuf> for PushNameError {
    ghost use Rattle.domain_builder.specs.declared.push_error.PushNameError.TheVariants.{ShortBuf};

    ghost from_gives = { λ _ e. e ≡ ShortBuf };

    fn from(_short: ShortBuf) -> Self {
        PushNameError::ShortBuf
    }
}

impl From<PushNameError> for FromStrError {
    ghost use Rattle.domain_builder.specs.Pushing.{PushNameErrorBecomes};

    ghost from_gives = { λ push e. PushNameErrorBecomes push e };

    fn from(push: PushNameError) -> Self {
        match push {
            PushNameError::LongName => TextFault::LongName.into(),
            PushNameError::ShortBuf => FromStrError::ShortBuf,
        }
    }
}

//! Why an entry wasn't pushed.
ghost use Rattle.std.specs.Prelude.{◌≡◌, Some};
ghost use Rattle.domain_message_builder.specs.SectionErrors.{push_error};
ghost use Rattle.domain_message_builder.specs.declared.error.PushError.TheVariants.{Order};

use crate::error::PushError;
use domain_rdata::LongRecordData;
use std::error::Error;
use std::fmt;

/// Why an entry wasn't pushed. The message is then as before.
#[derive(Clone, Copy, Debug, Drop)]
pub enum SectionError<E> {
    /// The target refused octets.
    Append(E),
    /// The data of a record has more than 65,535 octets.
    Long(LongRecordData),
    /// The section has 65,535 entries, the most that its count in the header can encode.
    Count,
    /// The message would have more octets than its limit, less what is set aside.
    Limit,
}

impl<E> From<SectionError<E>> for PushError<E> {
    ghost use Rattle.domain_message_builder.specs.SectionErrors.{push_error};

    ghost from_gives = { λ e p. p ≡ push_error e };

    fn from(e: SectionError<E>) -> PushError<E> {
        match e {
            SectionError::Append(e) => PushError::Append(e),
            SectionError::Long(e) => PushError::Long(e),
            SectionError::Count => PushError::Count,
            SectionError::Limit => PushError::Limit,
        }
    }
}

impl<E> fmt::Display for SectionError<E> {
    ghost use Rattle.domain_message_builder.specs.SectionErrors.{section_error_text};

    ghost output = { λ e. Some (section_error_text e) };

    fn fmt<W: fmt::Write>(&self, f: &mut fmt::Formatter<W>) -> fmt::Result {
        match self {
            SectionError::Append(_) => write!(f, "buffer size exceeded"),
            SectionError::Long(_) => write!(f, "record data too long"),
            SectionError::Count => write!(f, "too many entries in a section"),
            SectionError::Limit => write!(f, "message size exceeded"),
        }
    }
}

impl<E: fmt::Debug + Drop> Error for SectionError<E> {}

/// Returns the error of a push that was refused for another reason than that a later section was begun.
pub(crate) fn without_order<E>(e: PushError<E>) -> SectionError<E>
    requires { (e ≡ Order) → ⊥ }
    ensures { push_error result ≡ e }
{
    match e {
        PushError::Append(e) => SectionError::Append(e),
        PushError::Long(e) => SectionError::Long(e),
        PushError::Count => SectionError::Count,
        PushError::Limit => SectionError::Limit,
        PushError::Order => unreachable!(),
    }
}

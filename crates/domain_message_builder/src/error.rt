//! Why calls are refused.
ghost use Rattle.std.specs.Prelude.{Some};

use domain_rdata::LongRecordData;
use domain_wire::ParseError;
use std::error::Error;
use std::fmt;

/// Why a message couldn't be begun.
#[derive(Clone, Copy, Debug, Drop)]
pub enum StartError<E> {
    /// The target has no room for the twelve octets of the header.
    Append(E),
    /// The limit is below the twelve octets of the header.
    ShortLimit,
    /// The target isn't empty.
    NotEmpty,
}

impl<E> fmt::Display for StartError<E> {
    ghost use Rattle.domain_message_builder.specs.Errors.{start_error_text};

    ghost output = { λ e. Some (start_error_text e) };

    fn fmt<W: fmt::Write>(&self, f: &mut fmt::Formatter<W>) -> fmt::Result {
        match self {
            StartError::Append(_) => write!(f, "buffer size exceeded"),
            StartError::ShortLimit => write!(f, "limit shorter than a header"),
            StartError::NotEmpty => write!(f, "target not empty"),
        }
    }
}

impl<E: fmt::Debug + Drop> Error for StartError<E> {}

/// Why an entry wasn't pushed. The message is then as before.
#[derive(Clone, Copy, Debug, Drop)]
pub enum PushError<E> {
    /// The target refused octets.
    Append(E),
    /// The data of a record has more than 65,535 octets.
    Long(LongRecordData),
    /// The section has 65,535 entries, the most that its count in the header can encode.
    Count,
    /// The message would have more octets than its limit, less what is set aside.
    Limit,
    /// A later section was begun.
    Order,
}

impl<E> PushError<E> {
    ghost use Rattle.std.specs.Prelude.{◌≡◌};
    ghost use Rattle.domain_message_builder.specs.Errors.{is_for_room};

    /// Returns whether the entry was refused for lack of room: in the target, or up to the limit of the message.
    pub fn is_for_room(&self) -> bool
        ensures { result ≡ is_for_room self.now }
    {
        match self {
            PushError::Append(_) | PushError::Limit => true,
            PushError::Long(_) | PushError::Count | PushError::Order => false,
        }
    }
}

impl<E> fmt::Display for PushError<E> {
    ghost use Rattle.domain_message_builder.specs.Errors.{push_error_text};

    ghost output = { λ e. Some (push_error_text e) };

    fn fmt<W: fmt::Write>(&self, f: &mut fmt::Formatter<W>) -> fmt::Result {
        match self {
            PushError::Append(_) => write!(f, "buffer size exceeded"),
            PushError::Long(_) => write!(f, "record data too long"),
            PushError::Count => write!(f, "too many entries in a section"),
            PushError::Limit => write!(f, "message size exceeded"),
            PushError::Order => write!(f, "a later section was begun"),
        }
    }
}

impl<E: fmt::Debug + Drop> Error for PushError<E> {}

/// Why an option wasn't pushed. The options are then as before.
#[derive(Clone, Copy, Debug, Drop)]
pub enum PushOptionError<E> {
    /// The octets of options refused it.
    Append(E),
    /// The options would have more than 65,535 octets.
    Long(LongRecordData),
    /// The option can't say this: a reader would refuse it for this reason.
    Form(ParseError),
}

impl<E> fmt::Display for PushOptionError<E> {
    ghost use Rattle.domain_message_builder.specs.Errors.{option_error_text};

    ghost output = { λ e. Some (option_error_text e) };

    fn fmt<W: fmt::Write>(&self, f: &mut fmt::Formatter<W>) -> fmt::Result {
        match self {
            PushOptionError::Append(_) => write!(f, "buffer size exceeded"),
            PushOptionError::Long(_) => write!(f, "record data too long"),
            PushOptionError::Form(e) => write!(f, "{e}"),
        }
    }
}

impl<E: fmt::Debug + Drop> Error for PushOptionError<E> {}

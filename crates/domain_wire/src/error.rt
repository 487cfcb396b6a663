//! Why a message can't be read.
ghost use Rattle.std.specs.Prelude.{◌≡◌};

use octseq::ShortInput;
use std::error::Error;
use std::fmt;

/// Octets of a message that are not of the form that they should have.
#[derive(Clone, Copy, Debug, PartialEq, Eq)]
pub struct FormError {
    text: &'static str,
}

impl FormError {
    ghost use Rattle.domain_wire.specs.Refusals.{form_text};

    /// An error that shows as this text.
    pub fn new(text: &'static str) -> FormError
        ensures { form_text result ≡ text.now }
    {
        FormError { text }
    }
}

impl fmt::Display for FormError {
    ghost use Rattle.std.specs.Prelude.{Some};
    ghost use Rattle.domain_wire.specs.Refusals.{form_text};

    ghost output = { λ e. Some (form_text e) };

    fn fmt<W: fmt::Write>(&self, f: &mut fmt::Formatter<W>) -> fmt::Result {
        write!(f, "{}", self.text)
    }
}

impl Error for FormError {}

/// Why a value couldn't be read from a message.
#[derive(Clone, Copy, Debug, PartialEq, Eq)]
pub enum ParseError {
    /// The message ended before the value did.
    ShortInput,
    /// The octets don't have the form of such a value.
    Form(FormError),
}

impl ParseError {
    ghost use Rattle.domain_wire.specs.Refusals.{refusal, form};

    /// An error of form that shows as this text.
    pub fn form_error(text: &'static str) -> ParseError
        ensures { refusal result ≡ form text.now }
    {
        ParseError::Form(FormError::new(text))
    }
}

impl fmt::Display for ParseError {
    ghost use Rattle.std.specs.Prelude.{Some};
    ghost use Rattle.domain_wire.specs.Refusals.{refusal, refusal_text};

    ghost output = { λ e. Some (refusal_text (refusal e)) };

    fn fmt<W: fmt::Write>(&self, f: &mut fmt::Formatter<W>) -> fmt::Result {
        match self {
            ParseError::ShortInput => write!(f, "unexpected end of input"),
            ParseError::Form(e) => write!(f, "{e}"),
        }
    }
}

impl Error for ParseError {}

impl From<ShortInput> for ParseError {
    ghost use Rattle.domain_wire.specs.declared.error.ParseError.TheVariants.{ShortInput};

    ghost from_gives = { λ _ e. e ≡ ShortInput };

    fn from(_short: ShortInput) -> ParseError {
        ParseError::ShortInput
    }
}

impl From<FormError> for ParseError {
    ghost use Rattle.domain_wire.specs.declared.error.ParseError.TheVariants.{Form};

    ghost from_gives = { λ form e. e ≡ Form form };

    fn from(form: FormError) -> ParseError {
        ParseError::Form(form)
    }
}

//! Names that a user writes, and why a text is none.
ghost use Rattle.std.specs.Prelude.{◌↔◌, IfOk, IfErr, IsTrue};
ghost use Rattle.std.specs.Str.{chars};
ghost use Rattle.domain_builder.specs.TextGrammar.{IsTextOfName, IsTextOfNoName};
ghost use Rattle.domain_builder.specs.TextErrors.{MatchFromStr};
ghost use Rattle.domain_name.specs.Names.{name_labels};
ghost use Rattle.examples.specs.FlatNames.{IsLongFault};

use arrayvec::ArrayVec;
use domain_builder::{FromStrError, PresentationErrorKind};
use domain_label::LabelFromStrErrorKind;
use domain_name::Name;
use std::str::FromStr;

/// The name that a user wrote. The array has room for each, so an error tells a fault of the text.
pub fn typed_name(text: &str) -> Result<Name<ArrayVec<u8, 255>>, FromStrError>
    ensures ok { IfOk result (λ name. IsTextOfName (chars text.now) (name_labels name)) }
    ensures err { IfErr result (λ e. MatchFromStr e (IsTextOfNoName (chars text.now)) ⊥) }
{
    Name::from_str(text)
}

/// Whether a text is no name since a label, or the whole, is too long.
pub fn is_too_long(error: FromStrError) -> bool
    ensures { IsTrue result ↔ MatchFromStr error IsLongFault ⊥ }
{
    let FromStrError::Presentation(error) = error else {
        return false;
    };
    match error.kind() {
        PresentationErrorKind::LongName => true,
        PresentationErrorKind::EmptyLabel => false,
        PresentationErrorKind::BadLabel(label) => match label.kind() {
            LabelFromStrErrorKind::LongLabel => true,
            LabelFromStrErrorKind::BinaryLabel => false,
            LabelFromStrErrorKind::BadSymbol(_) => false,
            LabelFromStrErrorKind::SymbolChars(_) => false,
        },
    }
}

//! Names as text.
ghost use Rattle.std.specs.Prelude.{◌≡◌, IfOk, IfErr};
ghost use Rattle.std.specs.Str.{chars};
ghost use Rattle.domain_builder.specs.TextErrors.{label_fault, presentation_fault};
ghost use Rattle.domain_builder.specs.TextGrammar.{IsTextOfName};
ghost use Rattle.domain_name.specs.Names.{name_labels};
ghost use Rattle.dnsnames_c.specs.Answers.{HasFaultNumber, ReadsText, GivesNameText, DropsFinalDot};
ghost use Rattle.dnsnames_c.specs.Status.{text_number};

use crate::put::give;
use arrayvec::ArrayVec;
use domain_builder::{FromStrError, PresentationErrorKind};
use domain_label::LabelFromStrErrorKind;
use domain_label::scan::SymbolCharsError;
use domain_list::dotted::push_dotted;
use domain_name::Name;
use std::str::from_utf8;

/// The number of a fault of a label.
fn number_of_label(kind: LabelFromStrErrorKind) -> u32
    ensures { result ≡ text_number (label_fault kind) }
{
    match kind {
        LabelFromStrErrorKind::SymbolChars(SymbolCharsError::ShortInput) => 1,
        LabelFromStrErrorKind::SymbolChars(SymbolCharsError::BadEscape) => 11,
        LabelFromStrErrorKind::BadSymbol(_) => 12,
        LabelFromStrErrorKind::BinaryLabel => 13,
        LabelFromStrErrorKind::LongLabel => 14,
    }
}

/// The number of a fault of a text.
fn number_of(kind: PresentationErrorKind) -> u32
    ensures { result ≡ text_number (presentation_fault kind) }
{
    match kind {
        PresentationErrorKind::BadLabel(e) => number_of_label(e.kind()),
        PresentationErrorKind::EmptyLabel => 15,
        PresentationErrorKind::LongName => 4,
    }
}

/// The name that a text spells, or the number of its fault.
fn name_of(text: &str) -> Result<Name<ArrayVec<u8, 255>>, u32>
    ensures name { IfOk result (λ name. IsTextOfName (chars text.now) (name_labels name)) }
    ensures fault { IfErr result (λ number. HasFaultNumber (chars text.now) number) }
{
    match text.parse::<Name<ArrayVec<u8, 255>>>() {
        Ok(name) => Ok(name),
        Err(FromStrError::Presentation(e)) => Err(number_of(e.kind())),
        Err(FromStrError::ShortBuf) => unreachable!(),
    }
}

/// Reads the text of an absolute name (RFC 1035, 5.1) into the buffer with no pointer; a final dot may be left out.
/// `length` becomes its size.
///
/// Returns 1 if the text is empty or ends in an escape, and 4 if the name has more than 255 octets. Returns 11 at a
/// broken escape, 12 at a character that is no octet, and 13 if a label starts with `\[`. Returns 14 if a label has
/// more than 63 octets, and 15 at an empty one. In each of these cases nothing is changed. Returns 8 if the name
/// doesn't fit into the buffer.
#[unsafe(no_mangle)]
pub extern "C" fn dnsnames_from_text(text: &[u8], buffer: &mut [u8], length: &mut usize) -> u32
    ensures { ReadsText text.now result buffer.old buffer.new length.old length.new }
{
    let Ok(text) = from_utf8(text) else {
        return 12;
    };
    match name_of(text) {
        Ok(name) => give(name.as_slice(), buffer, length),
        Err(number) => number,
    }
}

/// The text of an absolute name without its final dot, which the root keeps.
fn without_final_dot<'a>(text: &'a [u8]) -> &'a [u8]
    ensures { DropsFinalDot text.now result.now }
{
    if text.len() > 1 {
        &text[..text.len() - 1]
    } else {
        text
    }
}

/// The text of a name (RFC 1035, 5.1) into the buffer; `length` becomes its size, at most 1,004. Labels have dots
/// between them, and where `final_dot` isn't 0 also after the last; the root alone is a dot. There is no zero octet
/// after it. 8 where it doesn't fit, 9 where the name is none.
#[unsafe(no_mangle)]
pub extern "C" fn dnsnames_to_text(
    name: &[u8],
    final_dot: u32,
    buffer: &mut [u8],
    length: &mut usize,
) -> u32
    ensures { GivesNameText name.now final_dot result buffer.old buffer.new length.old length.new }
{
    let Ok(name) = Name::from_slice(name) else {
        return 9;
    };
    let mut text = ArrayVec::<u8, 1020>::new();
    push_dotted(name.iter(), &mut text);
    if final_dot == 0 {
        give(without_final_dot(text.as_slice()), buffer, length)
    } else {
        give(text.as_slice(), buffer, length)
    }
}

//! Writes the text of a field.
ghost use Rattle.std.specs.Prelude.{Some};
ghost use Rattle.domain_field_text.specs.FieldTexts.{lead};
ghost use Rattle.domain_field_text.specs.Held.{held_text};

use crate::base32::Base32;
use crate::field::FieldText;
use crate::strings::Strings;
use std::fmt;

/// The space before a word that isn't the first of data.
#[derive(Clone, Copy)]
pub struct Lead {
    /// Whether the word is the first.
    pub first: bool,
}

impl fmt::Display for Lead {
    ghost output = { λ it. Some (lead it.first) };

    fn fmt<W: fmt::Write>(&self, f: &mut fmt::Formatter<W>) -> fmt::Result {
        if self.first {
            return Ok(());
        }
        write!(f, " ")
    }
}

/// The text of a field: its first word is the first of data, or has a space before it, as each further word has.
#[derive(Clone, Copy)]
pub struct Shown<'a> {
    pub text: FieldText<'a>,
    /// Whether no field is before it.
    pub first: bool,
}

impl<'a> fmt::Display for Shown<'a> {
    ghost output = { λ it. Some (held_text it.first it.text) };

    fn fmt<W: fmt::Write>(&self, f: &mut fmt::Formatter<W>) -> fmt::Result {
        let lead = Lead { first: self.first };
        match self.text {
            FieldText::Absent => Ok(()),
            FieldText::Number(number) => write!(f, "{lead}{number}"),
            FieldText::Time(time) => write!(f, "{lead}{time}"),
            FieldText::Rtype(rtype) => write!(f, "{lead}{rtype}"),
            FieldText::Address(address) => write!(f, "{lead}{address}"),
            FieldText::Quoted(octets) => write!(f, "{lead}{octets}"),
            FieldText::Strings(octets) => write!(f, "{lead}{}", Strings { octets }),
            FieldText::Tag(tag) => write!(f, "{lead}{tag}"),
            FieldText::Hyphen => write!(f, "{lead}-"),
            FieldText::Base16(octets) => write!(f, "{lead}{octets}"),
            FieldText::Base32(octets) => write!(f, "{lead}{}", Base32 { octets }),
            FieldText::Base64(octets) => write!(f, "{lead}{octets}"),
            FieldText::Types(bitmaps) => write!(f, "{lead}{bitmaps}"),
            FieldText::Params(params) => write!(f, "{lead}{params}"),
        }
    }
}

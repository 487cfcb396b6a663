//! A value of no fixed length that is read from a message.
ghost use Rattle.std.specs.Prelude.{◌≡◌, ◌≤◌, ℕ, List, length};
ghost use Rattle.examples.specs.CharacterStrings.{StringAt, StringTooShort, string_reading};

use domain_wire::{Parse, ParseError};
use octseq::Parser;

/// A character string: at most 255 octets (RFC 1035, 3.3).
#[derive(Clone, Copy, Debug)]
pub struct CharacterString<'a> {
    octets: &'a [u8],
    ghost short: { length octets.now ≤ 255 },
}

impl<'a> CharacterString<'a> {
    /// The octets.
    pub fn as_slice(&self) -> &'a [u8]
        ensures { result.now ≡ self.now.octets.now }
    {
        self.octets
    }
}

/// A length octet, and that many octets.
impl<'a> Parse<'a> for CharacterString<'a> {
    ghost View = { List ℕ };

    ghost model = { λ string. string.octets.now };

    ghost encodes = { StringAt };

    ghost fails_with = { StringTooShort };

    fn parse(parser: &mut Parser<'a>) -> Result<CharacterString<'a>, ParseError> {
        let mut ahead = *parser;
        let len = ahead.parse_u8()?;
        let octets = ahead.parse_octets(len as usize)?;
        *parser = ahead;
        Ok(CharacterString { octets })
    }

    ghost lawful = { string_reading };
}

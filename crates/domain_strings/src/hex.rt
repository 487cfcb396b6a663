//! Octets in hexadecimal digits (RFC 4648, 8).
ghost use Rattle.std.specs.Prelude.{Some};
ghost use Rattle.domain_strings.specs.Base16.{base16_octet, base16_text};

use domain_label::hex::hex_character;
use std::fmt;

/// Two digits for each octet.
#[derive(Clone, Copy)]
pub(crate) struct Base16<'a> {
    pub(crate) octets: &'a [u8],
}

impl<'a> fmt::Display for Base16<'a> {
    ghost output = { λ it. Some (base16_text it.octets.now) };

    fn fmt<W: fmt::Write>(&self, f: &mut fmt::Formatter<W>) -> fmt::Result {
        for octet in self.octets {
            write!(f, "{}", Digits(*octet))?;
        }
        Ok(())
    }
}

/// An octet in two digits.
#[derive(Clone, Copy)]
struct Digits(u8);

impl fmt::Display for Digits {
    ghost output = { λ it. Some (base16_octet it.0) };

    fn fmt<W: fmt::Write>(&self, f: &mut fmt::Formatter<W>) -> fmt::Result {
        let high = hex_character(self.0 / 16);
        let low = hex_character(self.0 % 16);
        write!(f, "{high}{low}")
    }
}

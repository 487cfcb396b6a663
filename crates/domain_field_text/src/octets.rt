//! Octets as data of an unknown type has them (RFC 3597, 5).
ghost use Rattle.std.specs.Prelude.{Some};
ghost use Rattle.std.specs.List.{flat_map};
ghost use Rattle.domain_rdata.specs.AnyData.{spaced_octet, unknown_text};

use domain_label::hex::hex_character;
use std::fmt;

/// Each octet as a space and two hexadecimal digits.
#[derive(Clone, Copy)]
pub struct HexPairs<'a> {
    pub octets: &'a [u8],
}

impl<'a> fmt::Display for HexPairs<'a> {
    ghost output = { λ it. Some (flat_map spaced_octet it.octets.now) };

    fn fmt<W: fmt::Write>(&self, f: &mut fmt::Formatter<W>) -> fmt::Result {
        for octet in self.octets {
            write!(f, "{}", HexPair(*octet))?;
        }
        Ok(())
    }
}

/// A space, and an octet in two hexadecimal digits.
#[derive(Clone, Copy)]
struct HexPair(u8);

impl fmt::Display for HexPair {
    ghost output = { λ it. Some (spaced_octet it.0) };

    fn fmt<W: fmt::Write>(&self, f: &mut fmt::Formatter<W>) -> fmt::Result {
        let high = hex_character(self.0 / 16);
        let low = hex_character(self.0 % 16);
        write!(f, " {high}{low}")
    }
}

/// The data of a record of an unknown type: `\#`, the number of its octets, and each of these in two hexadecimal
/// digits after a space (RFC 3597, 5).
#[derive(Clone, Copy)]
pub struct UnknownText<'a> {
    pub octets: &'a [u8],
}

impl<'a> fmt::Display for UnknownText<'a> {
    ghost output = { λ it. Some (unknown_text it.octets.now) };

    fn fmt<W: fmt::Write>(&self, f: &mut fmt::Formatter<W>) -> fmt::Result {
        let octets = self.octets;
        let len = octets.len();
        let digits = HexPairs { octets };
        write!(f, "\\# {len}{digits}")
    }
}

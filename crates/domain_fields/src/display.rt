//! Fields in presentation format (RFC 1035, 5.1): names with their final dot, fields with a space between.
ghost use Rattle.std.specs.Prelude.{Some, codes};
ghost use Rattle.std.specs.Fmt.{◌++?◌};
ghost use Rattle.domain_label.specs.Text.{text_with_final_dot};
ghost use Rattle.domain_parsed.specs.ParsedNames.{parsed_labels};

use crate::name_field::{NameField, UncompressedNameField};
use crate::sequence::Sequence;
use domain_parsed::ParsedName;
use domain_traits::ToName;
use octseq::Octets;
use std::fmt;

/// The name with its final dot.
impl<Octs: Octets> fmt::Display for NameField<ParsedName<Octs>> {
    ghost output = { λ it. Some (text_with_final_dot (parsed_labels it.name)) };

    fn fmt<W: fmt::Write>(&self, f: &mut fmt::Formatter<W>) -> fmt::Result {
        let name = self.name.fmt_with_dot();
        write!(f, "{name}")
    }
}

/// The name with its final dot.
impl<Octs: Octets> fmt::Display for UncompressedNameField<ParsedName<Octs>> {
    ghost output = { λ it. Some (text_with_final_dot (parsed_labels it.name)) };

    fn fmt<W: fmt::Write>(&self, f: &mut fmt::Formatter<W>) -> fmt::Result {
        let name = self.name.fmt_with_dot();
        write!(f, "{name}")
    }
}

/// The first field, a space, and the rest.
impl<A: fmt::Display, B: fmt::Display> fmt::Display for Sequence<A, B> {
    ghost output = { λ it. A.output it.first ++? Some (codes " ") ++? B.output it.rest };

    fn fmt<W: fmt::Write>(&self, f: &mut fmt::Formatter<W>) -> fmt::Result {
        write!(f, "{} {}", self.first, self.rest)
    }
}

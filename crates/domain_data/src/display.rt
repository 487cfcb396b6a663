//! Record data in presentation format (RFC 1035, 5.1): names with their final dot, fields with a space between.
ghost use Rattle.std.specs.Prelude.{Some, codes};
ghost use Rattle.std.specs.Fmt.{◌++?◌};
ghost use Rattle.std.specs.Net.Addr.{segments_of};
ghost use Rattle.std.specs.Net.Text.{ipv4_text, ipv6_text};
ghost use Rattle.domain_label.specs.Text.{text_with_final_dot};
ghost use Rattle.domain_wire.specs.Addresses.{ipv4_octets, ipv6_octets};
ghost use Rattle.domain_parsed.specs.ParsedNames.{parsed_labels};

use crate::fields::FieldsData;
use domain_fields::{NameField, Sequence, UncompressedNameField};
use domain_parsed::ParsedName;
use domain_wire::net;
use octseq::Octets;
use std::fmt;
use std::net::{Ipv4Addr, Ipv6Addr};

/// The name with its final dot.
impl<const TYPE: u16, Octs: Octets> fmt::Display for FieldsData<TYPE, NameField<ParsedName<Octs>>> {
    ghost output = { λ it. Some (text_with_final_dot (parsed_labels it.fields.name)) };

    fn fmt<W: fmt::Write>(&self, f: &mut fmt::Formatter<W>) -> fmt::Result {
        write!(f, "{}", self.fields)
    }
}

/// The name with its final dot.
impl<const TYPE: u16, Octs: Octets> fmt::Display
    for FieldsData<TYPE, UncompressedNameField<ParsedName<Octs>>> {
    ghost output = { λ it. Some (text_with_final_dot (parsed_labels it.fields.name)) };

    fn fmt<W: fmt::Write>(&self, f: &mut fmt::Formatter<W>) -> fmt::Result {
        write!(f, "{}", self.fields)
    }
}

/// The fields with a space between.
impl<const TYPE: u16, A: fmt::Display, B: fmt::Display> fmt::Display
    for FieldsData<TYPE, Sequence<A, B>> {
    ghost output = { λ it.
        A.output it.fields.first ++? Some (codes " ") ++? B.output it.fields.rest };

    fn fmt<W: fmt::Write>(&self, f: &mut fmt::Formatter<W>) -> fmt::Result {
        write!(f, "{}", self.fields)
    }
}

/// Four decimal numbers with dots between them (RFC 1035, 3.4.1).
impl<const TYPE: u16> fmt::Display for FieldsData<TYPE, net::Ipv4Addr> {
    ghost output = { λ it. Some (ipv4_text (ipv4_octets it.fields)) };

    fn fmt<W: fmt::Write>(&self, f: &mut fmt::Formatter<W>) -> fmt::Result {
        let addr = Ipv4Addr::from_octets(self.fields.octets());
        write!(f, "{addr}")
    }
}

/// Segments in hexadecimal digits with colons between them; `::` is the longest run of zeros (RFC 5952).
impl<const TYPE: u16> fmt::Display for FieldsData<TYPE, net::Ipv6Addr> {
    ghost output = { λ it. Some (ipv6_text (segments_of (ipv6_octets it.fields))) };

    fn fmt<W: fmt::Write>(&self, f: &mut fmt::Formatter<W>) -> fmt::Result {
        let addr = Ipv6Addr::from_octets(self.fields.octets());
        write!(f, "{addr}")
    }
}

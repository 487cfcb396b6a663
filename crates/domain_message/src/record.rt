//! Record headers, and records that are read from a message.
ghost use Rattle.std.specs.Prelude.{◌≡◌, Some, length, drop};
ghost use Rattle.std.specs.Cmp.{partial_equiv_from_equiv, on_per, and_per};
ghost use Rattle.std.specs.Cmp.Lexicographic.{nat_list_eq_equiv};
ghost use Rattle.octseq.specs.Parsing.{message, position};
ghost use Rattle.domain_parsed.specs.ParsedNames.{parsed_labels};
ghost use Rattle.domain_reading.specs.Limits.{max_pointers};
ghost use Rattle.domain_reading.specs.Faults.{NameFaultAt};
ghost use Rattle.domain_reading.specs.declared.fault.NameFault.{NameFault};
ghost use Rattle.domain_rdata.specs.AnyData.{unknown_text};
ghost use Rattle.domain_rdata.specs.Rtypes.{rtype_number};
ghost use Rattle.domain_message.specs.Entries.{HeaderFields, RecordHeaderAt, NoRecordHeader, RecordFields, RecordAt, NoRecord};
ghost use Rattle.domain_message.specs.Readings.{record_header_reading, record_reading};
ghost use Rattle.domain_message.specs.Texts.{record_text};
ghost use Rattle.domain_header.specs.Values.{class_number, ttl_seconds};

use crate::rtype_text::RtypeText;
use domain_header::numbers::{number_of_16_bits, number_of_32_bits};
use domain_header::{Class, Ttl};
use domain_parsed::ParsedName;
use domain_rdata::{Rtype, UnknownRecordData};
use domain_traits::ToName;
use domain_wire::ParseError;
use domain_wire::parse::Parse;
use octseq::Parser;
use std::fmt;

/// What a record has before its data: the owner's name, the type, the class, the TTL and the length of the data
/// (RFC 1035, 4.1.3).
///
/// Record headers are equal if all five are, the owner's name without ASCII case.
#[derive(Clone, Copy, Drop, PartialEq, Eq, PartialOrd, Ord, Hash)]
pub struct RecordHeader<N> {
    owner: N,
    rtype: Rtype,
    class: Class,
    ttl: Ttl,
    rdlen: u16,
}

impl<N> RecordHeader<N> {
    ghost use Rattle.domain_message.specs.EntryViews.{record_owner, record_type, record_class, record_ttl, record_len};

    /// Returns the record header of these.
    pub fn new(owner: N, rtype: Rtype, class: Class, ttl: Ttl, rdlen: u16) -> RecordHeader<N>
        ensures owner { record_owner result ≡ owner }
        ensures rtype { record_type result ≡ rtype }
        ensures class { record_class result ≡ class }
        ensures ttl { record_ttl result ≡ ttl }
        ensures rdlen { record_len result ≡ rdlen }
    {
        RecordHeader {
            owner,
            rtype,
            class,
            ttl,
            rdlen,
        }
    }

    /// The owner's name.
    pub fn owner(&self) -> &N
        ensures { result.now ≡ record_owner self.now }
    {
        &self.owner
    }

    /// The type.
    pub fn rtype(&self) -> Rtype
        ensures { result ≡ record_type self.now }
    {
        self.rtype
    }

    /// The class.
    pub fn class(&self) -> Class
        ensures { result ≡ record_class self.now }
    {
        self.class
    }

    /// The TTL.
    pub fn ttl(&self) -> Ttl
        ensures { result ≡ record_ttl self.now }
    {
        self.ttl
    }

    /// How many octets the data has.
    pub fn rdlen(&self) -> u16
        ensures { result ≡ record_len self.now }
    {
        self.rdlen
    }
}

/// The name, then ten octets: type, class, TTL and length.
impl<'a> Parse<'a> for RecordHeader<ParsedName<&'a [u8]>> {
    ghost use Rattle.domain_message.specs.Models.{header_fields};

    ghost View = { HeaderFields };

    ghost model = { header_fields };

    ghost encodes = { RecordHeaderAt };

    ghost fails_with = { NoRecordHeader };

    #[inline(always)]
    fn parse(parser: &mut Parser<'a>) -> Result<RecordHeader<ParsedName<&'a [u8]>>, ParseError> {
        let mut ahead = *parser;
        let owner = ParsedName::parse(&mut ahead)?;
        let message = ahead.as_slice();
        let name_end = ahead.pos();
        if let Err(_) = ahead.advance(10) {
            return Err(ParseError::ShortInput);
        }
        *parser = ahead;
        Ok(RecordHeader {
            owner,
            rtype: Rtype::from_int(number_of_16_bits(message, name_end)),
            class: Class::from_int(number_of_16_bits(message, name_end + 2)),
            ttl: Ttl::from_secs(number_of_32_bits(message, name_end + 4)),
            rdlen: number_of_16_bits(message, name_end + 8),
        })
    }

    ghost lawful = { record_header_reading };
}

/// A record in a message: its header, and where its data is (RFC 1035, 4.1.3).
///
/// The data isn't read yet. Names in it may point to any offset before them in the message. The owner's name was read
/// to its end, and is read again where it is asked for: so a record has 80 octets, where a name with its table has
/// 288.
#[derive(Clone, Copy)]
pub struct ParsedRecord<'a> {
    /// A parser at the owner's name.
    owner: Parser<'a>,
    rtype: Rtype,
    class: Class,
    ttl: Ttl,
    rdlen: u16,
    data: Parser<'a>,
    ghost named: { (fault : NameFault) →
        NameFaultAt max_pointers (message owner) (position owner) fault → ⊥ },
    ghost sized: { length (drop (position «data») (message «data»)) ≡ rdlen },
}

impl<'a> ParsedRecord<'a> {
    ghost use Rattle.domain_message.specs.Models.{header_fields};
    ghost use Rattle.domain_message.specs.RecordModel.{record_fields, parsed_data};

    /// The owner's name.
    #[inline(always)]
    pub fn owner(&self) -> ParsedName<&'a [u8]>
        ensures { parsed_labels result ≡ (record_fields self.now).header.owner }
    {
        let mut parser = self.owner;
        let Ok(owner) = ParsedName::parse(&mut parser) else {
            unreachable!();
        };
        owner
    }

    /// The record header, with the owner's name.
    fn header(&self) -> RecordHeader<ParsedName<&'a [u8]>>
        ensures { header_fields result ≡ (record_fields self.now).header }
    {
        RecordHeader {
            owner: self.owner(),
            rtype: self.rtype,
            class: self.class,
            ttl: self.ttl,
            rdlen: self.rdlen,
        }
    }

    /// The type.
    pub fn rtype(&self) -> Rtype
        ensures { rtype_number result ≡ (record_fields self.now).header.rtype }
    {
        self.rtype
    }

    /// The class.
    pub fn class(&self) -> Class
        ensures { class_number result ≡ (record_fields self.now).header.class }
    {
        self.class
    }

    /// The TTL.
    pub fn ttl(&self) -> Ttl
        ensures { ttl_seconds result ≡ (record_fields self.now).header.ttl }
    {
        self.ttl
    }

    /// How many octets the data has.
    pub fn rdlen(&self) -> u16
        ensures { result ≡ (record_fields self.now).header.rdlen }
    {
        self.rdlen
    }

    /// The octets of the data.
    pub fn data_octets(&self) -> &'a [u8]
        ensures octets { result.now ≡ parsed_data self.now }
        ensures size { length result.now ≡ (record_fields self.now).header.rdlen }
    {
        &self.data.as_slice()[self.data.pos()..]
    }

    /// Returns a parser at the start of the data, which ends with the data.
    pub fn data(&self) -> Parser<'a>
        ensures message { message result ≡ (record_fields self.now).octets }
        ensures offset { position result ≡ (record_fields self.now).start }
    {
        self.data
    }
}

/// Records of messages are equal if their record headers are, the owner's name without ASCII case, and the octets of
/// their data. Names in the data may be compressed: so equal data need not have equal octets, and of two messages the
/// same octets need not be the same data. Data that is read is compared by its values.
impl<'a> PartialEq for ParsedRecord<'a> {
    ghost use Rattle.domain_message.specs.HeaderLaws.{header_is_equivalence};
    ghost use Rattle.domain_message.specs.RecordModel.{parsed_data, parsed_header, same_parsed_record};

    ghost eq = { same_parsed_record };

    ghost laws = { and_per (on_per parsed_header (partial_equiv_from_equiv header_is_equivalence))
        (on_per parsed_data (partial_equiv_from_equiv nat_list_eq_equiv)) };

    fn eq(&self, other: &ParsedRecord<'a>) -> bool {
        self.header() == other.header() && self.data_octets() == other.data_octets()
    }
}

/// Writes the owner's name with its final dot, TTL, class and type, and the data in the form for unknown types (RFC
/// 3597, 5), with a space between: `www.example.com. 300 IN A \# 4 c0 00 02 01`.
impl<'a> fmt::Display for ParsedRecord<'a> {
    ghost use Rattle.domain_message.specs.RecordModel.{record_fields, parsed_data};

    ghost output = { λ it. Some
        (record_text (record_fields it).header.owner (record_fields it).header.ttl
        (record_fields it).header.class (record_fields it).header.rtype
        (unknown_text (parsed_data it))) };

    fn fmt<W: fmt::Write>(&self, f: &mut fmt::Formatter<W>) -> fmt::Result {
        let owner = self.owner();
        let owner = owner.fmt_with_dot();
        let (ttl, class) = (self.ttl, self.class);
        let rtype = RtypeText::new(self.rtype);
        prove!(self.rdlen <= u16::MAX);
        let Ok(data) = UnknownRecordData::from_octets(self.rtype, self.data_octets()) else {
            unreachable!();
        };
        write!(f, "{owner} {ttl} {class} {rtype} {data}")
    }
}

/// The record header, then as many octets of data as it says.
impl<'a> Parse<'a> for ParsedRecord<'a> {
    ghost use Rattle.domain_message.specs.RecordModel.{record_fields};

    ghost View = { RecordFields };

    ghost model = { record_fields };

    ghost encodes = { RecordAt };

    ghost fails_with = { NoRecord };

    #[inline(always)]
    fn parse(parser: &mut Parser<'a>) -> Result<ParsedRecord<'a>, ParseError> {
        let owner = *parser;
        let mut ahead = owner;
        let header = match RecordHeader::parse(&mut ahead) {
            Ok(header) => header,
            Err(e) => return Err(e),
        };
        let data = match ahead.parse_parser(usize::from(header.rdlen())) {
            Ok(data) => data,
            Err(_) => return Err(ParseError::ShortInput),
        };
        *parser = ahead;
        Ok(ParsedRecord {
            owner,
            rtype: header.rtype,
            class: header.class,
            ttl: header.ttl,
            rdlen: header.rdlen,
            data,
        })
    }

    ghost lawful = { record_reading };
}

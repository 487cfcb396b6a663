//! Reads data of any type from a parser. The traits have no class, so by them the data is read as that of class IN.
ghost use Rattle.std.specs.Prelude.{◌≡◌, length, true, IfOk, IfErr, OnOk, OnErr};
ghost use Rattle.octseq.specs.Parsing.{message, position, MovesTo};
ghost use Rattle.domain_wire.specs.Refusals.{refusal};
ghost use Rattle.domain_descriptor.specs.Fields.{AreData};
ghost use Rattle.domain_descriptor.specs.Table.{known_fields};
ghost use Rattle.domain_header.specs.Values.{class_number};
ghost use Rattle.domain_rdata.specs.Rtypes.{rtype_number};
ghost use Rattle.domain_any_rdata.specs.Reading.{NoDataAt, InternetDataAt, NoInternetData, internet_data_reading};
ghost use Rattle.domain_any_rdata.specs.Refusals.{error_of_data};

use crate::all::AllRecordData;
use domain_descriptor::DataFault;
use domain_header::Class;
use domain_rdata::{LongRecordData, ParseAnyRecordData, ParseRecordData, Rtype};
use domain_wire::ParseError;
use octseq::Parser;

/// Returns the error that a fault becomes: short input, a name's own error, or else a form error with a text.
fn error_of_data(fault: DataFault) -> ParseError
    ensures { refusal result ≡ error_of_data fault }
{
    match fault {
        DataFault::ShortInput => ParseError::ShortInput,
        DataFault::Name(name) => ParseError::from(name),
        DataFault::InvalidTag => ParseError::form_error("invalid tag"),
        DataFault::EmptyHash => ParseError::form_error("hash without an octet"),
        DataFault::WindowOrder => ParseError::form_error("windows of types out of order"),
        DataFault::BitmapLength => ParseError::form_error("invalid length of a type bitmap"),
        DataFault::KeyOrder => ParseError::form_error("keys of parameters out of order"),
        DataFault::TrailingData => ParseError::form_error("trailing data"),
    }
}

impl<'m> AllRecordData<'m> {
    ghost use Rattle.domain_any_rdata.specs.AllData.{IsAllData};

    /// Reads all remaining octets as data of this type in this class, and moves the parser to their end.
    ///
    /// # Errors
    ///
    /// Returns the error of the first fault from the left, like [`AllRecordData::parse`]. The parser is then
    /// unchanged.
    pub fn parse_in(
        rtype: Rtype,
        class: Class,
        parser: &mut Parser<'m>,
    ) -> Result<AllRecordData<'m>, ParseError>
        ensures ok { IfOk result
            (IsAllData (rtype_number rtype) (class_number class) (message parser.old)
            (position parser.old)) }
        ensures whole { OnOk result
            (AreData (known_fields (rtype_number rtype) (class_number class)) (message parser.old)
            (position parser.old)) }
        ensures moved { OnOk result
            (MovesTo parser.old parser.new (length (message parser.old))) }
        ensures err { IfErr result
            (NoDataAt (rtype_number rtype) (class_number class) (message parser.old)
            (position parser.old)) }
        ensures unchanged { OnErr result (parser.new ≡ parser.old) }
    {
        match AllRecordData::parse(rtype, class, parser.as_slice(), parser.pos()) {
            Ok(it) => {
                let Ok(()) = parser.advance(parser.remaining()) else {
                    unreachable!();
                };
                Ok(it)
            }
            Err(fault) => Err(error_of_data(fault)),
        }
    }
}

/// Reads all remaining octets, at most 65,535, as the fields of the type. Errors are those of the type's own reader.
impl<'m> ParseAnyRecordData<'m> for AllRecordData<'m> {
    ghost use Rattle.domain_any_rdata.specs.AllData.{SeenData, seen_data};

    ghost View = { SeenData };

    ghost model = { seen_data };

    ghost encodes = { InternetDataAt };

    ghost fails_with = { NoInternetData };

    #[tactic(auto, using(crate::proofs::Internet::data_there, crate::proofs::Internet::not_long))]
    fn parse_any_rdata(
        rtype: Rtype,
        parser: &mut Parser<'m>,
    ) -> Result<AllRecordData<'m>, ParseError> {
        LongRecordData::check_len(parser.remaining())?;
        match AllRecordData::parse_in(rtype, Class::from_int(1), parser) {
            Ok(it) => Ok(it),
            Err(e) => Err(e),
        }
    }

    ghost lawful = { internet_data_reading };
}

/// The same, which reads data of each type.
impl<'m> ParseRecordData<'m> for AllRecordData<'m> {
    ghost use Rattle.domain_any_rdata.specs.AllData.{SeenData, seen_data};

    ghost View = { SeenData };

    ghost model = { seen_data };

    ghost reads_type = { λ _. true };

    ghost encodes = { InternetDataAt };

    ghost fails_with = { NoInternetData };

    fn parse_rdata(
        rtype: Rtype,
        parser: &mut Parser<'m>,
    ) -> Result<Option<AllRecordData<'m>>, ParseError> {
        match AllRecordData::parse_any_rdata(rtype, parser) {
            Ok(it) => Ok(Some(it)),
            Err(e) => Err(e),
        }
    }

    ghost lawful = { internet_data_reading };
}

//! Record data of a type of one's own with a name in it: a host that exchanges keys (RFC 2230, 3).
ghost use Rattle.std.specs.Prelude.{◌≡◌, IfOk, IfSome, OnErr};
ghost use Rattle.domain_parsed.specs.ParsedNames.{parsed_labels};
ghost use Rattle.examples.specs.Exchangers.{HasExchanger};

use domain_data::{FieldsData, Sequence, UncompressedNameField};
use domain_parsed::ParsedName;
use domain_rdata::{ComposeRdataError, ComposeRecordData, Composer, ParseRecordData, Rtype};
use domain_wire::ParseError;
use octseq::Parser;

/// How much the host is preferred, and its name, which is never compressed (RFC 3597, 4).
pub type Kx<N> = FieldsData<36, Sequence<u16, UncompressedNameField<N>>>;

/// The data at the parser's position, where the record is of that type. It has to end where the parser ends.
pub fn read_exchanger<'a>(
    rtype: Rtype,
    parser: &mut Parser<'a>,
) -> Result<Option<Kx<ParsedName<&'a [u8]>>>, ParseError>
    ensures ok { IfOk result
        (λ read. IfSome read (λ kx. HasExchanger parser.old kx.fields.first
        (parsed_labels kx.fields.rest.name) parser.new)) }
    ensures unchanged { OnErr result (parser.new ≡ parser.old) }
{
    Kx::parse_rdata(rtype, parser)
}

/// Appends the data with its length in front to a message that is composed.
pub fn write_exchanger<Target: Composer>(
    kx: &Kx<ParsedName<&[u8]>>,
    target: &mut Target,
) -> Result<(), ComposeRdataError<Target::AppendError>>
    ensures unchanged { OnErr result (Target.octets target.new ≡ Target.octets target.old) }
{
    kx.compose_len_rdata(target)
}

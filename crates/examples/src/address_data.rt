//! Record data of a type of one's own: the address of a host (RFC 1035, 3.4.1).
ghost use Rattle.std.specs.Prelude.{◌≡◌, ◌+◌, ◌<◌, length, nat_eq, true, false, IfOk, IfSome, IsNone, Some, ◌↔◌, OnErr, refl};
ghost use Rattle.octseq.specs.Parsing.{message, position, next};
ghost use Rattle.domain_wire.specs.Addresses.{ipv4_octets, ipv4_of};
ghost use Rattle.domain_wire.specs.FixedLength.{fixed_reading};
ghost use Rattle.domain_wire.specs.Values.{FixedAt, ShortAt};
ghost use Rattle.domain_wire.specs.declared.net.Ipv4Addr.{Ipv4Addr};
ghost use Rattle.domain_rdata.specs.OctetsAlone.{octets_written};
ghost use Rattle.domain_rdata.specs.Rtypes.{rtype_number};

use domain_rdata::{ComposeRecordData, Composer, ParseRecordData, RecordData, Rtype};
use domain_wire::{Compose, FixedLen, Ipv4Addr, Parse, ParseError};
use octseq::Parser;

/// The number of the type.
const A: u16 = 1;

/// The address of a host.
#[derive(Clone, Copy, Drop)]
pub struct AddressData {
    pub address: Ipv4Addr,
}

impl RecordData for AddressData {
    ghost type_number = { λ _. 1 };

    fn rtype(&self) -> Rtype {
        Rtype::from_int(A)
    }
}

/// The four octets, whatever the target.
impl ComposeRecordData for AddressData {
    ghost composed = { λ it _ _ s. s ≡ ipv4_octets it.address };

    ghost written = { λ it _ extends _ old new. extends old (ipv4_octets it.address) new };

    ghost uncompressed = { λ it. ipv4_octets it.address };

    ghost lowercase = { λ it. Some (ipv4_octets it.address) };

    ghost knows_len = { λ _ _. true };

    fn rdlen(&self, _compress: bool) -> Option<u16> {
        Some(Ipv4Addr::LEN)
    }

    fn compose_rdata<Target: Composer>(
        &self,
        target: &mut Target,
    ) -> Result<(), Target::AppendError> {
        self.address.compose(target)
    }

    fn compose_canonical_rdata<Target: Composer>(
        &self,
        target: &mut Target,
    ) -> Result<(), Target::AppendError> {
        self.address.compose(target)
    }

    ghost plain = { λ _ _ _. refl };

    ghost flat = { λ _ _ _ same. same };

    ghost writes_composed = { λ it. octets_written (ipv4_octets it.address) };
}

/// Reads four octets, of records of its type alone.
impl<'a> ParseRecordData<'a> for AddressData {
    ghost View = { Ipv4Addr };

    ghost model = { λ it. it.address };

    ghost reads_type = { λ number. nat_eq number 1 };

    ghost encodes = { λ _. FixedAt 4 ipv4_of };

    ghost fails_with = { λ _. ShortAt 4 };

    fn parse_rdata(
        rtype: Rtype,
        parser: &mut Parser<'a>,
    ) -> Result<Option<AddressData>, ParseError> {
        if rtype.to_int() != A {
            return Ok(None);
        }
        let address = Ipv4Addr::parse(parser)?;
        Ok(Some(AddressData { address }))
    }

    ghost lawful = { λ _. fixed_reading 4 ipv4_of };
}

/// The address at the parser's position, where the record is of that type. `ShortInput` where fewer than four octets
/// are left of such a record; the parser then stays.
pub fn read_address<'a>(
    rtype: Rtype,
    parser: &mut Parser<'a>,
) -> Result<Option<Ipv4Addr>, ParseError>
    ensures address { IfOk result (λ read. IfSome read (λ it. it ≡ ipv4_of (next parser.old 4))) }
    ensures none { IfOk result (λ read. IsNone read ↔ (nat_eq (rtype_number rtype) 1 ≡ false)) }
    ensures short { OnErr result (length (message parser.old) < position parser.old + 4) }
    ensures unchanged { OnErr result (parser.new ≡ parser.old) }
{
    match AddressData::parse_rdata(rtype, parser)? {
        Some(data) => Ok(Some(data.address)),
        None => Ok(None),
    }
}

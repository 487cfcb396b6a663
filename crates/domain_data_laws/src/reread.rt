//! A caller of a law: data that was composed is read again, which never fails.
ghost use Rattle.domain_data_laws.specs.Composed.{StandsComposed};
ghost use Rattle.domain_data_laws.specs.SameData.{SameUnknown};

use crate::text::unknown_laws;
use domain_rdata::{ComposeRecordData, ParseRecordData, UnknownRecordData};
use octseq::{Octets, Parser};

/// Reads data from where it was composed, as the last octets of the parser, and moves the parser to its end. By
/// [`unknown_laws`] it is there, so no error is returned.
pub fn reread_unknown<'a, Octs: Octets>(
    composed: &UnknownRecordData<Octs>,
    parser: &mut Parser<'a>,
) -> UnknownRecordData<&'a [u8]>
    requires { StandsComposed ⟦<UnknownRecordData<Octs> as ComposeRecordData>⟧ composed.now
        parser.old }
    ensures same { SameUnknown composed.now result }
{
    unknown_laws::<Octs>();
    let rtype = composed.rtype();
    match <UnknownRecordData<&'a [u8]> as ParseRecordData<'a>>::parse_rdata(rtype, parser) {
        Ok(Some(read)) => read,
        _ => unreachable!(),
    }
}

//! Record data that is composed into a message.
ghost use Rattle.std.specs.Prelude.{◌≡◌, ◌++◌, OnOk, OnErr};
ghost use Rattle.examples.specs.MessageOctets.{with_len};

use domain_rdata::{ComposeRdataError, ComposeRecordData, Rtype, UnknownRecordData};
use octseq::ShortBuf;

/// Appends the data of a record of any type, with its length in front (RFC 1035, 3.2.1).
///
/// `Long` over 65,535 octets, `Append` only where memory was refused. The message is then as before.
pub fn append_data(
    rtype: Rtype,
    octets: &[u8],
    message: &mut Vec<u8>,
) -> Result<(), ComposeRdataError<ShortBuf>>
    ensures ok { OnOk result (message.new.items ≡ message.old.items ++ with_len octets.now) }
    ensures unchanged { OnErr result (message.new.items ≡ message.old.items) }
{
    match UnknownRecordData::from_octets(rtype, octets) {
        Ok(data) => data.compose_len_rdata(message),
        Err(long) => Err(ComposeRdataError::Long(long)),
    }
}

//! The records of a message as lines of text, whatever their types.
ghost use Rattle.std.specs.Prelude.{◌≡◌, ◌<◌, length};

use domain_any_rdata::AllRecordData;
use domain_data::Mx;
use domain_message::{Message, Record};
use domain_parsed::ParsedName;
use domain_rdata::{ParseRecordData, RecordData};
use domain_wire::ParseError;
use std::io::Write;

/// Writes a line for each record of the answer section: owner, TTL, class, type, and data as its type and class have
/// it. Returns whether all were written.
pub fn show_answers<W: Write>(octets: &[u8], output: &mut W) -> Result<bool, ParseError>
    ensures { length octets.now < 12 → result ≡ Err ParseError.ShortInput }
{
    let Ok(message) = Message::from_octets(octets) else {
        return Err(ParseError::ShortInput);
    };
    for item in message.answer()? {
        let found = item?;
        let mut data = found.data();
        let data = AllRecordData::parse_in(found.rtype(), found.class(), &mut data)?;
        let record = Record::new(found.owner(), found.class(), found.ttl(), data);
        if writeln!(output, "{record}").is_err() {
            return Ok(false);
        }
    }
    Ok(true)
}

/// Returns the preference and the mail exchange of a record, or `None` where the record isn't of type MX.
pub fn exchange_of<'m>(
    data: &AllRecordData<'m>,
) -> Result<Option<Mx<ParsedName<&'m [u8]>>>, ParseError> {
    Mx::parse_rdata(data.rtype(), &mut data.parser())
}

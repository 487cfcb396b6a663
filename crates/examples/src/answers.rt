//! Going over the answers of a message.
ghost use Rattle.std.specs.Prelude.{◌≡◌, ◌<◌, length};

use domain_header::Ttl;
use domain_message::Message;
use domain_traits::ToName;
use domain_wire::ParseError;

/// The TTL of the first answer that has the name and the type that the question asks for.
pub fn first_ttl(octets: &[u8]) -> Result<Option<Ttl>, ParseError>
    ensures { length octets.now < 12 → result ≡ Err ParseError.ShortInput }
{
    let Ok(message) = Message::from_octets(octets) else {
        return Err(ParseError::ShortInput);
    };
    let question = message.sole_question()?;
    for item in message.answer()? {
        let record = item?;
        let owner = record.owner();
        if record.rtype() == question.qtype() && owner.name_eq(question.qname()) {
            return Ok(Some(record.ttl()));
        }
    }
    Ok(None)
}

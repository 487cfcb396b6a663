//! The name that a question's name stands for.
ghost use Rattle.std.specs.Prelude.{IfSome};
ghost use Rattle.domain_message.specs.AliasParts.{HasCanonicalName};

use domain_message::Message;
use domain_parsed::ParsedName;

/// Resolvers follow 11 to 16 CNAME records.
const LIMIT: u16 = 16;

/// Returns the end of the chain of CNAME records from the question's name. `None` if the message has no question, or
/// more records than the limit lead on, as they do in a ring.
pub fn end_of_aliases<'a>(message: &'a Message<&'a [u8]>) -> Option<ParsedName<&'a [u8]>>
    ensures { IfSome result (HasCanonicalName message.now 16) }
{
    message.canonical_name(LIMIT)
}

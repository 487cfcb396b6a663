//! Whether a message answers a query, and the name that CNAME records of its answers lead to.
ghost use Rattle.std.specs.Prelude.{◌≡◌, ◌≢◌, ◌≤◌, ◌↔◌, length};
ghost use Rattle.domain_message.specs.Answering.{IsAnswerTo};
ghost use Rattle.dnsnames_c.specs.Replies.{GivesCanonical};

use crate::put::give;
use domain_list::composing::put_name;
use domain_message::Message;

/// Whether a message answers a query: `yes` becomes 1 if it does, and 0 otherwise. An answer is a response with the
/// query's identifier and the query's questions, in their order, names without ASCII case (RFC 1035, 4.1.1 and 7.3). A
/// message with a question missing answers none, and none answers it. Returns 1 if one of the two has fewer than
/// twelve octets: nothing is changed.
#[unsafe(no_mangle)]
pub extern "C" fn dnsnames_is_answer(message: &[u8], query: &[u8], yes: &mut u32) -> u32
    ensures read { (result ≡ 0) ↔ ((12 ≤ length message.now) × (12 ≤ length query.now)) }
    ensures yes { result ≡ 0 → (yes.new ≡ 1) ↔ IsAnswerTo message.now query.now }
    ensures bit { result ≡ 0 → yes.new ≤ 1 }
    ensures err { result ≢ 0 → (result ≡ 1) × (yes.new ≡ yes.old) }
{
    let Ok(message) = Message::from_octets(message) else {
        return 1;
    };
    let Ok(query) = Message::from_octets(query) else {
        return 1;
    };
    *yes = if message.is_answer(&query) { 1 } else { 0 };
    0
}

/// Follows the CNAME records of the answers from the name of the first question, at most `limit` of them (RFC 1034,
/// 3.6.2). Writes the name from which none leads on into the buffer, with no pointer in it; `length` becomes its size.
/// Where none leads on from the question's name, it is that name. The records may be in any order. If two have the
/// same owner name, the first is followed. Class and query type are ignored. The answers are read at most `limit + 1`
/// times; resolvers follow 11 to 16.
///
/// Returns 1 if the message has fewer than twelve octets. Returns 30 if more records lead on, as they do where a name
/// leads back to itself. Returns 30, too, if there is no question, or if one that the header counts is missing. In
/// each of these cases nothing is changed. Returns 8 if the name doesn't fit into the buffer, which then stays
/// unchanged.
#[unsafe(no_mangle)]
pub extern "C" fn dnsnames_canonical_name(
    message: &[u8],
    limit: u16,
    buffer: &mut [u8],
    length: &mut usize,
) -> u32
    ensures { GivesCanonical message.now limit result buffer.old buffer.new length.old length.new }
{
    let Ok(message) = Message::from_octets(message) else {
        return 1;
    };
    let Some(name) = message.canonical_name(limit) else {
        return 30;
    };
    let mut octets = [0; 255];
    let len = put_name(&name, &mut octets);
    give(&octets[..len], buffer, length)
}

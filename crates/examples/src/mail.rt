//! The hosts that take mail for a name, and their addresses.
ghost use Rattle.std.specs.Prelude.{IfOk, IfErr};
ghost use Rattle.domain_parsed.specs.ParsedNames.{parsed_labels};
ghost use Rattle.domain_message.specs.Messages.{message_octets};
ghost use Rattle.examples.specs.MessageHosts.{Prefers, MailRefused, FindsAddress, AddressRefused};

use domain_data::{A, Mx};
use domain_message::Message;
use domain_parsed::ParsedName;
use domain_traits::ToName;
use domain_wire::{Ipv4Addr, ParseError};

/// The host that the MX records of the answers prefer to the others: the first one of the lowest number.
pub fn preferred_host<'a>(
    message: &'a Message<&'a [u8]>,
) -> Result<Option<ParsedName<&'a [u8]>>, ParseError>
    ensures ok { IfOk result (Prefers (message_octets message.now)) }
    ensures err { IfErr result (λ e. MailRefused (message_octets message.now) e) }
{
    let mut preferred: Option<Mx<ParsedName<&'a [u8]>>> = None;
    for item in message.answer()?.limit_to::<Mx<ParsedName<&'a [u8]>>>() {
        let record = item?;
        let mx = *record.data();
        match preferred {
            Some(best) => {
                if mx.preference() < best.preference() {
                    preferred = Some(mx);
                }
            }
            None => preferred = Some(mx),
        }
    }
    match preferred {
        Some(best) => Ok(Some(*best.exchange())),
        None => Ok(None),
    }
}

/// The first address of a host that the additional section has.
pub fn address_of<'a>(
    message: &'a Message<&'a [u8]>,
    host: &ParsedName<&'a [u8]>,
) -> Result<Option<Ipv4Addr>, ParseError>
    ensures ok { IfOk result (FindsAddress (message_octets message.now) (parsed_labels host.now)) }
    ensures err { IfErr result
        (AddressRefused (message_octets message.now) (parsed_labels host.now)) }
{
    for item in message.additional()?.limit_to::<A>() {
        let record = item?;
        if record.owner().name_eq(host) {
            return Ok(Some(record.data().addr()));
        }
    }
    Ok(None)
}

//! What a query and a server say by EDNS (RFC 6891).
ghost use Rattle.std.specs.Prelude.{◌≡◌};
ghost use Rattle.domain_message.specs.OptRecords.{taken_size};
ghost use Rattle.domain_message_builder.specs.OptViews.{opt_given};
ghost use Rattle.domain_zone_response.specs.Edns.{asks_dnssec, response_limit, response_opt};

use domain_message::{OptError, OptRecord};
use domain_message_builder::OptBuilder;

/// What carries a response.
#[derive(Clone, Copy, Debug, PartialEq, Eq)]
pub enum Transport {
    /// A datagram, as UDP has it. The limit is the smaller of what requestor and server take, each at least 512 octets
    /// (RFC 6891, 6.2.5), and 512 octets without EDNS (RFC 1035, 4.2.1).
    Datagram,
    /// A stream, as TCP has it: 65,535 octets are the limit (RFC 1035, 4.2.2).
    Stream,
}

/// What a server states of itself.
#[derive(Clone, Copy, Debug, PartialEq, Eq)]
pub struct Server {
    /// What carries the response.
    pub transport: Transport,
    /// How many octets it sends and takes in a datagram. Fewer than 512 are read as 512 (RFC 6891, 6.2.5).
    pub payload_size: u16,
}

/// The number, or 512 where it is less (RFC 6891, 6.2.5).
fn at_least_512(size: u16) -> u16
    ensures { result ≡ taken_size size }
{
    if size < 512 { 512 } else { size }
}

/// The most octets that a response has.
pub(crate) fn limit_of(server: Server, asked: &Result<Option<OptRecord<'_>>, OptError>) -> u16
    ensures { result ≡ response_limit server asked.now }
{
    if let Transport::Stream = server.transport {
        return 65535;
    }
    let own = at_least_512(server.payload_size);
    match asked {
        Ok(Some(opt)) => {
            let size = opt.udp_payload_size();
            if size < own { size } else { own }
        }
        _ => 512,
    }
}

/// Whether a query asks for records of DNSSEC: by the bit DO of its one OPT record (RFC 4035, 3.1). With two OPT
/// records, or one that isn't of the root, it doesn't.
pub(crate) fn asks_dnssec(asked: &Result<Option<OptRecord<'_>>, OptError>) -> bool
    ensures { result ≡ asks_dnssec asked.now }
{
    match asked {
        Ok(Some(opt)) => opt.dnssec_ok(),
        _ => false,
    }
}

/// The OPT record of a response: it has one exactly where the query has one and no entry of it is missing (RFC 6891,
/// 6.1.1). The bit DO is that of the query (RFC 3225, 3), the version is 0, and there are no options.
pub(crate) fn opt_for(
    server: Server,
    asked: &Result<Option<OptRecord<'_>>, OptError>,
    upper: u8,
) -> Option<OptBuilder<&'static [u8]>>
    ensures { opt_given result ≡ response_opt server.payload_size asked.now upper }
{
    match asked {
        Ok(None) => return None,
        Err(OptError::Parse(_)) => return None,
        _ => (),
    }
    let Ok(mut opt) = OptBuilder::new(b"".as_slice()) else {
        unreachable!();
    };
    opt.set_udp_payload_size(at_least_512(server.payload_size));
    opt.set_rcode_ext(upper);
    opt.set_dnssec_ok(asks_dnssec(asked));
    Some(opt)
}

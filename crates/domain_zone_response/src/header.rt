//! The header of a response.
ghost use Rattle.domain_header.specs.Values.{rcode_number};
ghost use Rattle.domain_zone_response.specs.Headers.{RespondsTo};

use domain_header::{Header, Rcode};

/// What the header of a response has that the query's hasn't.
#[derive(Clone, Copy)]
pub(crate) struct Verdict {
    /// The bit AA.
    pub(crate) aa: bool,
    /// The bit TC.
    pub(crate) tc: bool,
    /// The lower four bits of the response code.
    pub(crate) rcode: Rcode,
}

/// The header of a response: the identifier, the opcode and RD of the query, QR, and these. RA, Z, AD and CD are clear
/// (RFC 1035, 4.1.1; RFC 4035, 3.1.6).
pub(crate) fn response_header(query: Header, verdict: Verdict) -> Header
    ensures { RespondsTo query verdict.aa verdict.tc (rcode_number verdict.rcode) result }
{
    let mut header = Header::new();
    header.set_id(query.id());
    header.set_qr(true);
    header.set_opcode(query.opcode());
    header.set_aa(verdict.aa);
    header.set_tc(verdict.tc);
    header.set_rd(query.rd());
    header.set_rcode(verdict.rcode);
    header
}

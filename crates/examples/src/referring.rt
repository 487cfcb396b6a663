//! Referrals whose glue may have no room (RFC 9471, 3).
ghost use Rattle.std.specs.Prelude.{◌<◌, ◌≤◌, length, IfSome, IsNone};
ghost use Rattle.examples.specs.Referrals.{WholeUnlessTc};

use domain_header::{Class, Rcode, Ttl};
use domain_list::AbsoluteLabels;
use domain_message::{Message, Section};
use domain_message_builder::{MessageBuilder, OptBuilder};
use domain_rdata::{ComposeRecordData, Composer};
use octseq::Octets;

/// The name servers of a zone below, the addresses of one that is in it, and those of one that is elsewhere.
pub struct Referral<'a, N, S, G> {
    pub class: Class,
    pub ttl: Ttl,
    pub zone: &'a N,
    pub servers: &'a [S],
    pub host: &'a N,
    pub glue: &'a [G],
    pub elsewhere: &'a N,
    pub addresses: &'a [G],
}

/// A referral of at most this many octets. TC is set where the name servers or the glue have no room, and never for
/// the other addresses (RFC 2181, 9; RFC 9471, 3). `None` where the question and the OPT record have none, or the
/// target isn't empty.
pub fn whole_referral<'a, N, S, G, Octs: Octets, Options: Octets, Target: Composer + Drop>(
    target: Target,
    limit: u16,
    query: &Message<Octs>,
    referral: &Referral<'a, N, S, G>,
    opt: &OptBuilder<Options>,
) -> Option<Target>
where
    N: AbsoluteLabels<'a>,
    S: ComposeRecordData,
    G: ComposeRecordData,
    ensures whole { WholeUnlessTc Target.Composer S.ComposeRecordData G.ComposeRecordData
        query.now referral.now.class referral.now.ttl (N.labels referral.now.zone.now)
        referral.now.servers.now (N.labels referral.now.host.now) referral.now.glue.now result }
    ensures short { IfSome result (λ made. length (Target.octets made) ≤ limit) }
    ensures not_empty { 0 < length (Target.octets target) → IsNone result }
{
    let mut message = match MessageBuilder::with_limit(target, limit) {
        Ok(message) => message,
        Err(_) => return None,
    };
    if let Err(_refused) = message.start_answer(query, Rcode::masked_from_int(0)) {
        return None;
    }
    let room = opt.record_len().min(65535) as u16;
    if let Err(_refused) = message.reserve(room) {
        return None;
    }
    let (class, ttl) = (referral.class, referral.ttl);
    let (section, servers) = (Section::Authority, referral.servers);
    if let Err(_refused) = message.push_required(section, referral.zone, class, ttl, servers) {
        return None;
    }
    let (section, glue) = (Section::Additional, referral.glue);
    if let Err(_refused) = message.push_required(section, referral.host, class, ttl, glue) {
        return None;
    }
    let (owner, addresses) = (referral.elsewhere, referral.addresses);
    if let Err(_refused) = message.push_extra(section, owner, class, ttl, addresses) {
        return None;
    }
    match message.finish_or_truncate(Ok(()), Some(opt)) {
        Ok(made) => Some(made),
        Err(_refused) => None,
    }
}

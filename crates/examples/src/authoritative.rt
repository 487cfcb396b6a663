//! Answers of a server that has the zone.
ghost use Rattle.std.specs.Prelude.{◌<◌, length, IfSome, IsNone};
ghost use Rattle.domain_name.specs.Names.{name_labels};
ghost use Rattle.examples.specs.Served.{HasAa};
ghost use Rattle.examples.specs.Zones.{AnswersFromZone, NoZoneAnswerFits};

use domain_data::Ns;
use domain_header::Rcode;
use domain_list::AbsoluteLabels;
use domain_message::{Message, Record, Section};
use domain_message_builder::MessageBuilder;
use domain_name::Name;
use domain_rdata::{ComposeRecordData, Composer};
use octseq::Octets;

/// An answer from the zone itself: AA is set, a record of the zone is the answer, and an NS record in the authority
/// section tells a server of the zone. `None` only if the target isn't empty, or what may be composed exceeds its
/// capacity, 65,535 octets, or those of a record's data.
pub fn authoritative_answer<'a, N, D, Octs: Octets, Target: Composer + Drop>(
    target: Target,
    query: &Message<Octs>,
    resource: &'a Record<N, D>,
    server: &'a Record<N, Ns<Name<&'a [u8]>>>,
) -> Option<Target>
where
    N: AbsoluteLabels<'a>,
    D: ComposeRecordData,
    ensures ok { AnswersFromZone Target.Composer N.labels D.ComposeRecordData name_labels query.now
        resource.now server.now result }
    ensures aa { IfSome result (λ made. HasAa (Target.octets made)) }
    ensures none { IsNone result → NoZoneAnswerFits Target.Composer N.labels D.ComposeRecordData
        name_labels query.now resource.now server.now target }
    ensures not_empty { 0 < length (Target.octets target) → IsNone result }
{
    let mut message = match MessageBuilder::from_target(target) {
        Ok(message) => message,
        Err(_) => return None,
    };
    if let Err(_) = message.start_answer(query, Rcode::masked_from_int(0)) {
        return None;
    }
    let mut header = message.header();
    header.set_aa(true);
    message.set_header(header);
    if let Err(_refused) = message.push(Section::Answer, resource) {
        return None;
    }
    if let Err(_refused) = message.push(Section::Authority, server) {
        return None;
    }
    Some(message.finish())
}

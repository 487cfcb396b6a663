//! Answers to queries.
ghost use Rattle.std.specs.Prelude.{◌<◌, ◌≤◌, length, IfSome, IsNone};
ghost use Rattle.examples.specs.Targets.{Refers, NoReferralFits, TellsError, CannotBegin, AnswersOrCuts, NotEvenCutFits};

use domain_header::Rcode;
use domain_list::AbsoluteLabels;
use domain_message::{Message, Record, Section};
use domain_message_builder::{MessageBuilder, OptBuilder};
use domain_rdata::{ComposeRecordData, Composer};
use octseq::Octets;

/// A referral: a server of a zone below in the authority section, and its address in the additional section. `None`
/// only if the target isn't empty, or what may be composed exceeds its capacity, 65,535 octets, or those of a
/// record's data.
pub fn referral<'a, N, S, G, Octs: Octets, Target: Composer + Drop>(
    target: Target,
    query: &Message<Octs>,
    server: &'a Record<N, S>,
    glue: &'a Record<N, G>,
) -> Option<Target>
where
    N: AbsoluteLabels<'a>,
    S: ComposeRecordData,
    G: ComposeRecordData,
    ensures ok { Refers Target.Composer N.labels S.ComposeRecordData G.ComposeRecordData query.now
        server.now glue.now result }
    ensures none { IsNone result → NoReferralFits Target.Composer N.labels S.ComposeRecordData
        G.ComposeRecordData query.now server.now glue.now target }
    ensures not_empty { 0 < length (Target.octets target) → IsNone result }
{
    let mut message = match MessageBuilder::from_target(target) {
        Ok(message) => message,
        Err(_) => return None,
    };
    if let Err(_) = message.start_answer(query, Rcode::masked_from_int(0)) {
        return None;
    }
    if let Err(_refused) = message.push(Section::Authority, server) {
        return None;
    }
    if let Err(_refused) = message.push(Section::Additional, glue) {
        return None;
    }
    Some(message.finish())
}

/// An answer that tells an error alone. `None` only if the target isn't empty or has no room for a header.
pub fn error_answer<Octs: Octets, Target: Composer + Drop>(
    target: Target,
    query: &Message<Octs>,
    rcode: Rcode,
) -> Option<Target>
    ensures ok { TellsError Target.Composer query.now rcode target result }
    ensures none { IsNone result → CannotBegin Target.Composer target }
    ensures not_empty { 0 < length (Target.octets target) → IsNone result }
{
    let mut message = match MessageBuilder::from_target(target) {
        Ok(message) => message,
        Err(_) => return None,
    };
    message.start_error(query, rcode);
    Some(message.finish())
}

/// An answer of at most 512 octets: a record, or TC where it doesn't fit, and an OPT record. `None` only if the
/// target isn't empty, the question and the OPT record don't fit, or the record's data is too long for any message.
pub fn short_answer<'a, N, D, Octs: Octets, Options: Octets, Target: Composer + Drop>(
    target: Target,
    query: &Message<Octs>,
    resource: &'a Record<N, D>,
    opt: &OptBuilder<Options>,
) -> Option<Target>
where
    N: AbsoluteLabels<'a>,
    D: ComposeRecordData,
    ensures whole_or_cut { AnswersOrCuts Target.Composer N.labels D.ComposeRecordData query.now
        resource.now opt.now target result }
    ensures short { IfSome result (λ made. length (Target.octets made) ≤ 512) }
    ensures none { IsNone result → NotEvenCutFits Target.Composer N.labels D.ComposeRecordData
        query.now resource.now opt.now target }
    ensures not_empty { 0 < length (Target.octets target) → IsNone result }
{
    let mut message = match MessageBuilder::with_limit(target, 512) {
        Ok(message) => message,
        Err(_) => return None,
    };
    if let Err(_) = message.start_answer(query, Rcode::masked_from_int(0)) {
        return None;
    }
    let pushed = message.push(Section::Answer, resource);
    match message.finish_or_truncate(pushed, Some(opt)) {
        Ok(made) => Some(made),
        Err(_refused) => None,
    }
}

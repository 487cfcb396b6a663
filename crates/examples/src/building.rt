//! Messages that are built.
ghost use Rattle.std.specs.Prelude.{◌<◌, length, IsNone};
ghost use Rattle.examples.specs.Targets.{AsksQuestion, NoQueryFits, AsksWithSize, NoSizedQueryFits, AnswersWith, NoAnswerFits};

use domain_header::Header;
use domain_list::AbsoluteLabels;
use domain_message::{Question, Record, Section};
use domain_message_builder::{MessageBuilder, OptBuilder};
use domain_rdata::{ComposeRecordData, Composer};

/// A message with this header and this question.
pub fn query<'a, N: AbsoluteLabels<'a>, Target: Composer + Drop>(
    target: Target,
    header: Header,
    question: &'a Question<N>,
) -> Option<Target>
    ensures ok { AsksQuestion Target.octets N.labels header question.now result }
    ensures none { IsNone result → NoQueryFits Target.Composer N.labels question.now target }
    ensures not_empty { 0 < length (Target.octets target) → IsNone result }
{
    let mut message = match MessageBuilder::from_target(target) {
        Ok(message) => message,
        Err(_) => return None,
    };
    message.set_header(header);
    if let Err(_) = message.push_question(question) {
        return None;
    }
    Some(message.finish())
}

/// A message with this header, this question, and an OPT record: how many octets of an answer over UDP are taken.
pub fn sized_query<'a, N: AbsoluteLabels<'a>, Target: Composer + Drop>(
    target: Target,
    header: Header,
    question: &'a Question<N>,
    udp_payload_size: u16,
) -> Option<Target>
    ensures ok { AsksWithSize Target.octets N.labels header question.now udp_payload_size result }
    ensures none { IsNone result →
        NoSizedQueryFits Target.Composer N.labels question.now udp_payload_size target }
    ensures not_empty { 0 < length (Target.octets target) → IsNone result }
{
    let Ok(mut opt) = OptBuilder::new(b"".as_slice()) else {
        unreachable!();
    };
    opt.set_udp_payload_size(udp_payload_size);
    let mut message = match MessageBuilder::from_target(target) {
        Ok(message) => message,
        Err(_) => return None,
    };
    message.set_header(header);
    if let Err(_) = message.push_question(question) {
        return None;
    }
    if let Err(_refused) = message.push_opt(&opt) {
        return None;
    }
    Some(message.finish())
}

/// A message of at most 512 octets with this header, this question and this answer.
pub fn answer<'a, N: AbsoluteLabels<'a>, D: ComposeRecordData, Target: Composer + Drop>(
    target: Target,
    header: Header,
    question: &'a Question<N>,
    resource: &'a Record<N, D>,
) -> Option<Target>
    ensures ok { AnswersWith Target.Composer N.labels D.ComposeRecordData header question.now
        resource.now result }
    ensures none { IsNone result →
        NoAnswerFits Target.Composer N.labels D.ComposeRecordData question.now resource.now target }
    ensures not_empty { 0 < length (Target.octets target) → IsNone result }
{
    let mut message = match MessageBuilder::with_limit(target, 512) {
        Ok(message) => message,
        Err(_) => return None,
    };
    message.set_header(header);
    if let Err(_) = message.push_question(question) {
        return None;
    }
    if let Err(_refused) = message.push(Section::Answer, resource) {
        return None;
    }
    Some(message.finish())
}

//! Messages that are built section by section.
ghost use Rattle.std.specs.Prelude.{◌<◌, length, IsNone};
ghost use Rattle.examples.specs.Targets.{AnswersWith, NoAnswerFits};

use domain_header::Header;
use domain_list::AbsoluteLabels;
use domain_message::{Question, Record};
use domain_message_builder::{MessageBuilder, QuestionBuilder};
use domain_rdata::{ComposeRecordData, Composer};

/// A message of at most 512 octets with this header, this question and this answer. It has the contract of `answer`,
/// which takes the section as an argument.
pub fn answer_by_sections<'a, N: AbsoluteLabels<'a>, D: ComposeRecordData, Target: Composer + Drop>(
    target: Target,
    header: Header,
    question: &'a Question<N>,
    resource: &'a Record<N, D>,
) -> Option<Target>
    ensures ok { AnswersWith Target.Composer N.labels D.ComposeRecordData header question.now
        resource.now result }
    ensures none { IsNone result →
        NoAnswerFits Target.Composer N.labels D.ComposeRecordData question.now resource.now target }
    ensures not_empty { 0 < length (Target.octets target) → IsNone result }
{
    let mut message = match MessageBuilder::with_limit(target, 512) {
        Ok(message) => message,
        Err(_) => return None,
    };
    message.set_header(header);
    let mut questions = QuestionBuilder::from_builder(message);
    if let Err(_refused) = questions.push(question) {
        return None;
    }
    let mut answers = questions.answer();
    if let Err(_refused) = answers.push(resource) {
        return None;
    }
    Some(answers.finish())
}

//! Appending entries up to a limit.
ghost use Rattle.std.specs.Prelude.{◌≡◌, ◌≤◌, length, OnOk, OnErr, IfErr, true};
ghost use Rattle.domain_rdata.specs.Targets.{RemembersAsBefore};
ghost use Rattle.domain_message_builder.specs.Targets.{AppendsQuestion, TakesQuestion, LacksQuestion, QuestionIsTooLong};
ghost use Rattle.domain_message_builder.specs.Targets.{AppendsRecord, Takes, LacksRecord, Overfills};

use crate::error::PushError;
use domain_list::AbsoluteLabels;
use domain_message::{Question, Record};
use domain_rdata::{ComposeRdataError, ComposeRecordData, Composer};
use octseq::{Octets, Truncate};

/// Appends a question, up to this many octets in all, or nothing.
pub(crate) fn append_question<'a, N: AbsoluteLabels<'a>, Target: Composer>(
    target: &mut Target,
    question: &'a Question<N>,
    most: u16,
) -> Result<(), PushError<Target::AppendError>>
    ensures ok { OnOk result
        (AppendsQuestion Target.Composer N.labels question.now target.old target.new) }
    ensures written { OnOk result
        (TakesQuestion Target.Composer N.labels question.now target.old target.new) }
    ensures within { OnOk result (length (Target.octets target.new) ≤ most) }
    ensures memory { RemembersAsBefore Target.Composer target.old target.new }
    ensures unchanged { OnErr result (Target.octets target.new ≡ Target.octets target.old) }
    ensures why { IfErr result
        (LacksQuestion Target.Composer N.labels question.now most target.old) }
    ensures tight { IfErr result
        (QuestionIsTooLong Target.Composer N.labels question.now most target.old) }
    ensures capacity { Target.capacity target.old ≤ Target.capacity target.new }
{
    let before = target.as_slice().len();
    if let Err(e) = question.compose(target) {
        return Err(PushError::Append(e));
    }
    if target.as_slice().len() > usize::from(most) {
        target.truncate(before);
        return Err(PushError::Limit);
    }
    Ok(())
}

/// Appends a record, up to this many octets in all, or nothing.
pub(crate) fn append_record<'a, N: AbsoluteLabels<'a>, D: ComposeRecordData, Target: Composer>(
    target: &mut Target,
    resource: &'a Record<N, D>,
    most: u16,
) -> Result<(), PushError<Target::AppendError>>
    ensures ok { OnOk result (AppendsRecord Target.Composer N.labels D.ComposeRecordData
        resource.now target.old target.new) }
    ensures written { Target.compresses ≡ true → OnOk result
        (Takes Target.Composer N.labels D.ComposeRecordData resource.now target.old target.new) }
    ensures within { OnOk result (length (Target.octets target.new) ≤ most) }
    ensures memory { RemembersAsBefore Target.Composer target.old target.new }
    ensures unchanged { OnErr result (Target.octets target.new ≡ Target.octets target.old) }
    ensures why { IfErr result
        (LacksRecord Target.Composer N.labels D.ComposeRecordData resource.now most target.old) }
    ensures tight { Target.compresses ≡ true → IfErr result
        (Overfills Target.Composer N.labels D.ComposeRecordData resource.now most target.old) }
    ensures capacity { Target.capacity target.old ≤ Target.capacity target.new }
{
    let start = target.as_slice().len();
    match resource.compose(target) {
        Ok(()) => {}
        Err(ComposeRdataError::Append(e)) => return Err(PushError::Append(e)),
        Err(ComposeRdataError::Long(e)) => return Err(PushError::Long(e)),
    }
    let end = target.as_slice().len();
    if end > usize::from(most) {
        target.truncate(start);
        return Err(PushError::Limit);
    }
    Ok(())
}

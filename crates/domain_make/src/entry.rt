//! Questions and records that lines are.
ghost use Rattle.std.specs.Prelude.{◌≡◌, OnOk, IfOk, IfErr};
ghost use Rattle.domain_header.specs.Values.{class_number};
ghost use Rattle.domain_message.specs.RecordParts.{data_of};
ghost use Rattle.domain_message_builder.specs.Pushes.{asked, headed};
ghost use Rattle.domain_name.specs.Names.{name_labels};
ghost use Rattle.domain_rdata.specs.Rtypes.{rtype_number};
ghost use Rattle.domain_rdata.specs.Unknown.{data_type};
ghost use Rattle.domain_make.specs.Entries.{IsClassWord, IsTypeWord, begins_with_digit, first_column, AreStated, IsQuestionWords};
ghost use Rattle.domain_make.specs.Opts.{opt_head};
ghost use Rattle.domain_make.specs.Stops.{IfFault};
ghost use Rattle.domain_make.specs.Faults.{NoClass, NoType, NoQuestionWords, NoStated, NoFittingRecord};
ghost use Rattle.domain_make.specs.Refusals.{TellsPush};
ghost use Rattle.domain_make.specs.Taking.{AreWordsOf, AddsQuestionOf, NoQuestionAdded, AddsRecordOf, NoRecordAdded, AddsOptOf, NoOptAdded};
ghost use Rattle.domain_make.specs.Words.{word_at, words_at};

use crate::data::data_of;
use crate::error::{Fault, Stop};
use crate::parts::{OwnName, name_of, number32_of, text_of};
use crate::words::Word;
use domain_header::{Class, Ttl};
use domain_message::{Question, Record, Section, rtype_from_text};
use domain_message_builder::{MessageBuilder, PushError};
use domain_name::absolute::Name;
use domain_rdata::{Composer, Rtype, UnknownRecordData};
use octseq::Octets;
use std::alloc::Global;

/// The class that a word names.
fn class_of(word: &Word<'_>) -> Result<Class, Stop>
    ensures ok { IfOk result (λ class. IsClassWord word.now.octets.now (class_number class)) }
    ensures err { IfErr result (λ e. IfFault e (NoClass (word_at word.now))) }
{
    let text = text_of(word, Fault::Class)?;
    let Some(class) = Class::from_text(text) else {
        return Err(Stop::Refused(Fault::Class, word.column));
    };
    Ok(class)
}

/// The type that a word names.
fn rtype_of(word: &Word<'_>) -> Result<Rtype, Stop>
    ensures ok { IfOk result (λ rtype. IsTypeWord word.now.octets.now (rtype_number rtype)) }
    ensures err { IfErr result (λ e. IfFault e (NoType (word_at word.now))) }
{
    let text = text_of(word, Fault::Rtype)?;
    let Some(rtype) = rtype_from_text(text) else {
        return Err(Stop::Refused(Fault::Rtype, word.column));
    };
    Ok(rtype)
}

/// The question that words are: a name, a class and a type.
fn question_of(alloc: Global, words: &[Word<'_>]) -> Result<Question<OwnName>, Stop>
    ensures ok { IfOk result (λ it.
        IsQuestionWords (words_at words.now) (asked name_labels it)) }
    ensures err { IfErr result (λ e. IfFault e (NoQuestionWords (words_at words.now))) }
{
    let [name, class, rtype] = words else {
        return Err(Stop::Refused(Fault::Question, first_column(words)));
    };
    let qname = name_of(alloc, name)?;
    let qclass = class_of(class)?;
    let qtype = rtype_of(rtype)?;
    Ok(Question::new(qname, qtype, qclass))
}

/// Whether a word begins with a digit, as each TTL does, and no class.
fn begins_with_digit(word: &[u8]) -> bool
    ensures { result ≡ begins_with_digit word.now }
{
    match word {
        [] => false,
        [first, ..] => *first >= b'0' && *first <= b'9',
    }
}

/// A TTL and a class.
#[derive(Clone, Copy)]
struct Stated {
    seconds: u32,
    class: Class,
}

/// The TTL and the class that two words are, in either order.
fn stated_by(first: &Word<'_>, second: &Word<'_>) -> Result<Stated, Stop>
    ensures ok { IfOk result (λ it.
        AreStated (word_at first.now) (word_at second.now) it.seconds (class_number it.class)) }
    ensures err { IfErr result
        (λ e. IfFault e (NoStated (word_at first.now) (word_at second.now))) }
{
    if begins_with_digit(first.octets) {
        let seconds = match number32_of(first) {
            Ok(seconds) => seconds,
            Err(stop) => return Err(stop),
        };
        return match class_of(second) {
            Ok(class) => Ok(Stated { seconds, class }),
            Err(stop) => Err(stop),
        };
    }
    let class = match class_of(first) {
        Ok(class) => class,
        Err(stop) => return Err(stop),
    };
    match number32_of(second) {
        Ok(seconds) => Ok(Stated { seconds, class }),
        Err(stop) => Err(stop),
    }
}

/// The record that the words of a line are: an owner, a TTL and a class in either order, a type and data.
fn record_of(
    alloc: Global,
    line: &[u8],
    words: &[Word<'_>],
) -> Result<Record<OwnName, UnknownRecordData<Vec<u8>>>, Stop>
    ensures ok { IfOk result (λ it. AreWordsOf line.now (words_at words.now) it) }
    ensures err { IfErr result (λ e. IfFault e (NoFittingRecord line.now (words_at words.now))) }
{
    let [owner, first, second, rtype, rest @ ..] = words else {
        return Err(Stop::Refused(Fault::Record, first_column(words)));
    };
    let name = name_of(alloc, owner)?;
    let stated = stated_by(first, second)?;
    let rtype = rtype_of(rtype)?;
    let data = data_of(alloc, rtype.to_int(), stated.class.to_int(), line, rest)?;
    let Ok(rdata) = UnknownRecordData::from_octets(rtype, data) else {
        return Err(Stop::Refused(Fault::Octets, first_column(words)));
    };
    let ttl = Ttl::from_secs(stated.seconds);
    Ok(Record::new(name, stated.class, ttl, rdata))
}

/// Where the first word begins.
fn first_column(words: &[Word<'_>]) -> usize
    ensures { result ≡ first_column (words_at words.now) }
{
    match words.first() {
        Some(word) => word.column,
        None => 1,
    }
}

/// Why a push was refused, of the entry at this column.
fn refused<E: Drop>(e: PushError<E>, column: usize) -> Stop
    ensures { IfFault result (λ f c. TellsPush e f × (c ≡ column)) }
{
    match e {
        PushError::Append(_) => Stop::Memory,
        PushError::Long(_) => Stop::Refused(Fault::Octets, column),
        PushError::Count => Stop::Refused(Fault::Count, column),
        PushError::Limit => Stop::Refused(Fault::Limit, column),
        PushError::Order => Stop::Refused(Fault::Order, column),
    }
}

/// Pushes the question that words are.
pub(crate) fn push_question<Target: Composer>(
    alloc: Global,
    words: &[Word<'_>],
    message: &mut MessageBuilder<Target>,
) -> Result<(), Stop>
    ensures ok { OnOk result (AddsQuestionOf (words_at words.now) message.old message.new) }
    ensures err { IfErr result (NoQuestionAdded (words_at words.now) message.old) }
{
    let question = question_of(alloc, words)?;
    let Err(e) = message.push_question(&question) else {
        return Ok(());
    };
    Err(refused(e, first_column(words)))
}

/// Pushes the record that the words of a line are into a section.
pub(crate) fn push_record<Target: Composer>(
    alloc: Global,
    section: Section,
    line: &[u8],
    words: &[Word<'_>],
    message: &mut MessageBuilder<Target>,
) -> Result<(), Stop>
    ensures ok { OnOk result (AddsRecordOf section line.now (words_at words.now)
        message.old message.new) }
    ensures err { IfErr result (NoRecordAdded section line.now (words_at words.now) message.old) }
{
    let resource = record_of(alloc, line, words)?;
    let Err(e) = message.push(section, &resource) else {
        return Ok(());
    };
    Err(refused(e, first_column(words)))
}

/// The OPT record of this size, this TTL and these options (RFC 6891, 6.1.2).
fn opt_record(
    size: u16,
    ttl: u32,
    options: UnknownRecordData<Vec<u8>>,
) -> Record<Name<&'static [u8]>, UnknownRecordData<Vec<u8>>>
    requires { data_type options ≡ 41 }
    ensures head { headed name_labels data_type result ≡ opt_head size ttl }
    ensures data { data_of result ≡ options }
{
    let class = Class::from_int(size);
    Record::new(Name::root_ref(), class, Ttl::from_secs(ttl), options)
}

/// Pushes an OPT record of this size, this TTL and these options into the additional section.
pub(crate) fn push_opt<Target: Composer>(
    size: u16,
    ttl: u32,
    options: Vec<u8>,
    message: &mut MessageBuilder<Target>,
) -> Result<(), Stop>
    ensures ok { OnOk result (AddsOptOf (opt_head size ttl) options.items message.old message.new) }
    ensures err { IfErr result (NoOptAdded (opt_head size ttl) options.items message.old) }
{
    let Ok(rdata) = UnknownRecordData::from_octets(Rtype::from_int(41), options) else {
        return Err(Stop::Refused(Fault::Octets, 1));
    };
    let resource = opt_record(size, ttl, rdata);
    let Err(e) = message.push(Section::Additional, &resource) else {
        return Ok(());
    };
    Err(refused(e, 1))
}

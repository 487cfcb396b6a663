//! Laws of questions, records and sections, for callers.
ghost use Rattle.domain_message.specs.Entries.{QuestionAt, RecordAt};
ghost use Rattle.domain_message.specs.EntryLaws.{QuestionReadsBack, RecordsReadBack};
ghost use Rattle.domain_message.specs.Once.{IsOnce, IsDecided};
ghost use Rattle.domain_message.specs.SectionLaws.{GivesOneList, FirstIsKept, NoneIsKept, ChainEndsOnce, LongChainGoesRound, ChainsWithin};

use domain_rdata::ComposeRecordData;

/// At each offset of a message is one question, with one end, or none; and one record, with one end, or none.
pub fn entry_laws()
    ensures question_once { IsOnce QuestionAt }
    ensures question_decided { IsDecided QuestionAt }
    ensures record_once { IsOnce RecordAt }
    ensures record_decided { IsDecided RecordAt }
{}

/// What is composed for a question, or for a record with such data, is read back, whatever follows it.
pub fn reads_back_laws<D: ComposeRecordData>()
    ensures question { QuestionReadsBack }
    ensures record { RecordsReadBack D.composed }
{}

/// A section has exactly one list of questions or records. `limit_to` gives those of the list that have data of the
/// type, in their order. A chain of CNAME records has one end, or goes round, as each of more records than there are
/// does.
pub fn section_laws()
    ensures questions { GivesOneList QuestionAt }
    ensures records { GivesOneList RecordAt }
    ensures first { FirstIsKept }
    ensures none { NoneIsKept }
    ensures chain { ChainEndsOnce }
    ensures long { LongChainGoesRound }
    ensures within { ChainsWithin }
{}

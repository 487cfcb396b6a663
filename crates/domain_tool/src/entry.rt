//! Entries of a message (RFC 1035, 4.1).
ghost use Rattle.std.specs.Prelude.{Some, IfOk, IfErr, OnOk};
ghost use Rattle.octseq.specs.Parsing.{position, MovesTo};

use crate::entry_kind::EntryKind;
use domain_list::dotted::DisplayWithDot;
use domain_parsed::ParsedName;
use domain_rdata::{Rtype, UnknownRecordData};
use domain_wire::error::ParseError;
use octseq::Parser;
use std::fmt;

/// A question: a name, a type and a class (RFC 1035, 4.1.2).
#[derive(Clone, Copy)]
pub(crate) struct Question<'a> {
    name: ParsedName<&'a [u8]>,
    rtype: Rtype,
    class: u16,
}

impl<'a> Question<'a> {
    ghost use Rattle.domain_tool.specs.Entries.{ReadsQuestion};
    ghost use Rattle.domain_tool.specs.Here.{NoQuestionHere};

    /// Reads a question, and moves the parser past it.
    pub(crate) fn parse(parser: &mut Parser<'a>) -> Result<Question<'a>, ParseError>
        ensures ok { IfOk result (λ it. ReadsQuestion parser.old parser.new it) }
        ensures moves { OnOk result (MovesTo parser.old parser.new (position parser.new)) }
        ensures err { IfErr result (λ e. NoQuestionHere parser.old e) }
    {
        let name = match ParsedName::parse(parser) {
            Ok(name) => name,
            Err(e) => return Err(e),
        };
        let rtype = match parser.parse_u16_be() {
            Ok(rtype) => rtype,
            Err(e) => return Err(ParseError::from(e)),
        };
        let class = match parser.parse_u16_be() {
            Ok(class) => class,
            Err(e) => return Err(ParseError::from(e)),
        };
        Ok(Question {
            name,
            rtype: Rtype::from_int(rtype),
            class,
        })
    }
}

/// The name with a final dot, the type and the class, a space before each.
impl<'a> fmt::Display for Question<'a> {
    ghost use Rattle.domain_tool.specs.Entries.{question_line};

    ghost output = { λ it. Some (question_line it) };

    fn fmt<W: fmt::Write>(&self, f: &mut fmt::Formatter<W>) -> fmt::Result {
        let name = DisplayWithDot::new(&self.name);
        let rtype = self.rtype.to_int();
        let class = self.class;
        write!(f, " {name} {rtype} {class}")
    }
}

/// What comes before the data of a record (RFC 1035, 4.1.3).
#[derive(Clone, Copy)]
struct RecordHeader<'a> {
    name: ParsedName<&'a [u8]>,
    rtype: u16,
    class: u16,
    time_to_live: u32,
    len: u16,
}

impl<'a> RecordHeader<'a> {
    ghost use Rattle.domain_tool.specs.Entries.{ReadsRecordHeader};
    ghost use Rattle.domain_tool.specs.Here.{NoRecordHere};

    /// Reads what comes before the data, and moves the parser to the data.
    fn parse(parser: &mut Parser<'a>) -> Result<RecordHeader<'a>, ParseError>
        ensures ok { IfOk result (λ it. ReadsRecordHeader parser.old parser.new it) }
        ensures moves { OnOk result (MovesTo parser.old parser.new (position parser.new)) }
        ensures err { IfErr result (λ e. NoRecordHere parser.old e) }
    {
        let name = match ParsedName::parse(parser) {
            Ok(name) => name,
            Err(e) => return Err(e),
        };
        let rtype = match parser.parse_u16_be() {
            Ok(rtype) => rtype,
            Err(e) => return Err(ParseError::from(e)),
        };
        let class = match parser.parse_u16_be() {
            Ok(class) => class,
            Err(e) => return Err(ParseError::from(e)),
        };
        let time_to_live = match parser.parse_u32_be() {
            Ok(seconds) => seconds,
            Err(e) => return Err(ParseError::from(e)),
        };
        let len = match parser.parse_u16_be() {
            Ok(len) => len,
            Err(e) => return Err(ParseError::from(e)),
        };
        Ok(RecordHeader {
            name,
            rtype,
            class,
            time_to_live,
            len,
        })
    }
}

/// A record (RFC 1035, 4.1.3).
#[derive(Clone, Copy)]
pub(crate) struct Record<'a> {
    head: RecordHeader<'a>,
    data: UnknownRecordData<&'a [u8]>,
}

impl<'a> Record<'a> {
    ghost use Rattle.domain_tool.specs.Entries.{ReadsRecord};
    ghost use Rattle.domain_tool.specs.Here.{NoRecordHere};

    /// Reads a record, and moves the parser past it.
    pub(crate) fn parse(parser: &mut Parser<'a>) -> Result<Record<'a>, ParseError>
        ensures ok { IfOk result (λ it. ReadsRecord parser.old parser.new it) }
        ensures moves { OnOk result (MovesTo parser.old parser.new (position parser.new)) }
        ensures err { IfErr result (λ e. NoRecordHere parser.old e) }
    {
        let head = match RecordHeader::parse(parser) {
            Ok(head) => head,
            Err(e) => return Err(e),
        };
        let octets = match parser.parse_octets(usize::from(head.len)) {
            Ok(octets) => octets,
            Err(e) => return Err(ParseError::from(e)),
        };
        let Ok(data) = UnknownRecordData::from_octets(Rtype::from_int(head.rtype), octets) else {
            unreachable!();
        };
        Ok(Record { head, data })
    }
}

/// The name with a final dot, the type, the class, the TTL and the data, a space before each.
impl<'a> fmt::Display for Record<'a> {
    ghost use Rattle.domain_tool.specs.Entries.{record_line};

    ghost output = { λ it. Some (record_line it) };

    fn fmt<W: fmt::Write>(&self, f: &mut fmt::Formatter<W>) -> fmt::Result {
        let name = DisplayWithDot::new(&self.head.name);
        let rtype = self.head.rtype;
        let class = self.head.class;
        let time_to_live = self.head.time_to_live;
        write!(f, " {name} {rtype} {class} {time_to_live} {}", self.data)
    }
}

/// An entry of a message.
#[derive(Clone, Copy)]
pub(crate) enum Entry<'a> {
    Question(Question<'a>),
    Record(EntryKind, Record<'a>),
}

impl<'a> Entry<'a> {
    ghost use Rattle.domain_tool.specs.Entries.{ReadsEntry};
    ghost use Rattle.domain_tool.specs.Here.{NoEntryHere};

    /// Reads an entry of this kind, and moves the parser past it.
    pub(crate) fn parse(kind: EntryKind, parser: &mut Parser<'a>) -> Result<Entry<'a>, ParseError>
        ensures ok { IfOk result (λ it. ReadsEntry kind parser.old parser.new it) }
        ensures moves { OnOk result (MovesTo parser.old parser.new (position parser.new)) }
        ensures err { IfErr result (λ e. NoEntryHere kind parser.old e) }
    {
        match kind {
            EntryKind::Question => match Question::parse(parser) {
                Ok(question) => Ok(Entry::Question(question)),
                Err(e) => Err(e),
            },
            EntryKind::Answer | EntryKind::Authority | EntryKind::Additional => {
                match Record::parse(parser) {
                    Ok(record) => Ok(Entry::Record(kind, record)),
                    Err(e) => Err(e),
                }
            }
        }
    }
}

/// The word of the kind and the entry.
impl<'a> fmt::Display for Entry<'a> {
    ghost use Rattle.domain_tool.specs.Entries.{entry_line};

    ghost output = { λ it. Some (entry_line it) };

    fn fmt<W: fmt::Write>(&self, f: &mut fmt::Formatter<W>) -> fmt::Result {
        match self {
            Entry::Question(question) => write!(f, "question{question}"),
            Entry::Record(kind, record) => write!(f, "{kind}{record}"),
        }
    }
}

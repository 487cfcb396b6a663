//! The records of a section that have data of one type.
ghost use Rattle.std.specs.Prelude.{◌≡◌, ◌↔◌, false, true, IfOk, IfErr, IfSome, IsNone, OnErr};
ghost use Rattle.std.specs.Iterator.{at_most};
ghost use Rattle.octseq.specs.Parsing.{message, position};
ghost use Rattle.domain_message.specs.Kept.{HasOtherType, IsReadOf, DataFails, KeepsAs, PassesRecord, KeepsButFails, TakesNext};
ghost use Rattle.domain_message.specs.Kept.{GivesKept, kept_parser, kept_left, kept_class};
ghost use Rattle.domain_message.specs.RecordModel.{record_fields};

use crate::record::ParsedRecord;
use crate::resource_record::Record;
use crate::section::RecordSection;
use domain_parsed::ParsedName;
use domain_rdata::{ParseRecordData, Rtype};
use domain_wire::ParseError;
use domain_wire::parse::Parse;
use octseq::Parser;
use std::marker::PhantomData;

/// The class IN (RFC 1035, 3.2.4).
const IN: u16 = 1;

/// The records of a section that have data of the type `D`, in their order.
///
/// `next` skips the others. It returns the first error: a record that the header counts is missing, or the data of a
/// record of the type can't be read. After that, as after the last record, it returns `None`.
#[derive(Clone, Copy, Drop)]
pub struct RecordIter<'a, D, E = ParseError> {
    parser: Parser<'a>,
    count: u16,
    only_in: bool,
    gives: PhantomData<D>,
    fails: PhantomData<E>,
}

/// Returns the record with its data, if its type has such data. The error says why the data can't be read.
fn with_data<'a, D: ParseRecordData<'a>, E: From<ParseError>>(
    found: &ParsedRecord<'a>,
) -> Result<Option<Record<ParsedName<&'a [u8]>, D>>, E>
    ensures some { IfOk result (λ read. IfSome read (IsReadOf D.ParseRecordData found.now)) }
    ensures none { IfOk result
        (λ read. IsNone read ↔ HasOtherType D.ParseRecordData found.now) }
    ensures err { IfErr result (DataFails E.from_gives D.ParseRecordData found.now) }
    ensures err_type { OnErr result (D.reads_type (record_fields found.now).header.rtype ≡ true) }
{
    let mut data = found.data();
    match D::parse_rdata(found.rtype(), &mut data) {
        Ok(Some(rdata)) => Ok(Some(Record::new(found.owner(), found.class(), found.ttl(), rdata))),
        Ok(None) => Ok(None),
        Err(e) => Err(E::from(e)),
    }
}

/// Returns the record with its data, if its class is asked for and its type has such data.
fn kept<'a, D: ParseRecordData<'a>, E: From<ParseError>>(
    found: &ParsedRecord<'a>,
    only_in: bool,
) -> Result<Option<Record<ParsedName<&'a [u8]>, D>>, E>
    ensures some { IfOk result
        (λ read. IfSome read (KeepsAs D.ParseRecordData only_in found.now)) }
    ensures none { IfOk result
        (λ read. IsNone read → PassesRecord D.ParseRecordData only_in found.now) }
    ensures err { IfErr result
        (KeepsButFails E.from_gives D.ParseRecordData only_in found.now) }
{
    if only_in && found.class().to_int() != IN {
        return Ok(None);
    }
    with_data(found)
}

/// Reads records, and skips those that aren't kept, up to one that is, an error or the last.
fn next_kept<'a, D: ParseRecordData<'a>, E: From<ParseError>>(
    parser: &mut Parser<'a>,
    left: &mut u16,
    only_in: bool,
) -> Option<Result<Record<ParsedName<&'a [u8]>, D>, E>>
    ensures message { message parser.new ≡ message parser.old }
    ensures takes { TakesNext E.from_gives D.ParseRecordData only_in parser.old left.old result
        parser.new left.new }
{
    while *left > 0 {
        let found = match ParsedRecord::parse(parser) {
            Ok(found) => found,
            Err(e) => {
                *left = 0;
                return Some(Err(E::from(e)));
            }
        };
        match kept(&found, only_in) {
            Ok(Some(record)) => {
                *left -= 1;
                return Some(Ok(record));
            }
            Ok(None) => *left -= 1,
            Err(e) => {
                *left = 0;
                return Some(Err(e));
            }
        }
    }
    None
}

impl<'a, D: ParseRecordData<'a>, E: From<ParseError>> Iterator for RecordIter<'a, D, E> {
    type Item = Result<Record<ParsedName<&'a [u8]>, D>, E>;

    ghost next_gives = { GivesKept D.type_number D.model D.reads_type D.encodes D.fails_with
        E.from_gives };

    ghost remaining = { λ s. at_most (kept_left s) };

    fn next(&mut self) -> Option<Result<Record<ParsedName<&'a [u8]>, D>, E>> {
        next_kept(&mut self.parser, &mut self.count, self.only_in)
    }
}

impl<'a, D, E> RecordIter<'a, D, E> {
    /// How many records are still to be read: none after an error.
    pub(crate) fn left(&self) -> u16
        ensures { result ≡ kept_left self.now }
    {
        self.count
    }
}

impl<'a> RecordSection<'a> {
    ghost use Rattle.domain_message.specs.Sections.{records_message, records_offset, records_left, entries_left};

    /// Returns the remaining records that have data of the type `D`, of any class.
    pub fn limit_to<D>(self) -> RecordIter<'a, D>
        ensures message { message (kept_parser result) ≡ records_message self.entry }
        ensures offset { position (kept_parser result) ≡ records_offset self.entry }
        ensures left { kept_left result ≡ entries_left (records_left self.entry) }
        ensures class { kept_class result ≡ false }
    {
        self.limited(false)
    }

    /// Returns the remaining records that are of the class IN and have data of the type `D`.
    pub fn limit_to_in<D>(self) -> RecordIter<'a, D>
        ensures message { message (kept_parser result) ≡ records_message self.entry }
        ensures offset { position (kept_parser result) ≡ records_offset self.entry }
        ensures left { kept_left result ≡ entries_left (records_left self.entry) }
        ensures class { kept_class result ≡ true }
    {
        self.limited(true)
    }

    /// The same, of the class IN alone or of any.
    fn limited<D>(self, only_in: bool) -> RecordIter<'a, D>
        ensures message { message (kept_parser result) ≡ records_message self.entry }
        ensures offset { position (kept_parser result) ≡ records_offset self.entry }
        ensures left { kept_left result ≡ entries_left (records_left self.entry) }
        ensures class { kept_class result ≡ only_in }
    {
        let (parser, count) = self.left();
        RecordIter {
            parser,
            count,
            only_in,
            gives: PhantomData,
            fails: PhantomData,
        }
    }
}

//! The data of a record, as text.
ghost use Rattle.std.specs.Prelude.{◌≡◌, ◌≤◌, ◌↔◌, length, IsTrue, IfOk, IfErr};
ghost use Rattle.domain_make.specs.Data.{begin_of, IsData, MeansNone};
ghost use Rattle.domain_make.specs.Stops.{IfFault, NoData};
ghost use Rattle.domain_make.specs.Words.{words_at};

use crate::error::{Fault, Stop};
use crate::words::{Word, column_of, octets_from};
use domain_rdata_text::{ReadError, read};
use std::alloc::Global;

/// Where the first of these words begins in a line, or the end of the line where there is none.
fn begin_of(line: &[u8], words: &[Word<'_>]) -> usize
    ensures offset { result ≡ begin_of (length line.now) (words_at words.now) }
    ensures within { result ≤ length line.now }
{
    let [word, ..] = words else {
        return line.len();
    };
    if word.column > line.len() {
        return line.len();
    }
    if word.column == 0 {
        return 0;
    }
    word.column - 1
}

/// Whether there is no word, and the class says that no data is meant: ANY or NONE.
fn means_none(class: u16, words: &[Word<'_>]) -> bool
    ensures { IsTrue result ↔ MeansNone class (words_at words.now) }
{
    match words {
        [] => class == 254 || class == 255,
        _ => false,
    }
}

/// The octets of the data of this type and class that a line is from these words on.
pub(crate) fn data_of(
    alloc: Global,
    rtype: u16,
    class: u16,
    line: &[u8],
    words: &[Word<'_>],
) -> Result<Vec<u8>, Stop>
    ensures ok { IfOk result
        (λ made. IsData rtype class line.now (words_at words.now) made.items) }
    ensures err { IfErr result (λ e. IfFault e (NoData rtype class line.now (words_at words.now))) }
{
    if means_none(class, words) {
        return Ok(Vec::new(alloc));
    }
    let begin = begin_of(line, words);
    match read(alloc, rtype, class, octets_from(line, begin)) {
        Ok(octets) => Ok(octets),
        Err(ReadError::Memory) => Err(Stop::Memory),
        Err(ReadError::Refused(why)) => {
            let column = column_of(line, begin, why.at);
            Err(Stop::Refused(Fault::Text(why.reason), column))
        }
    }
}

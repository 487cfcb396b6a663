//! The questions and records of a message as rows of numbers in a caller's buffer, and their names (RFC 1035, 4.1).
ghost use Rattle.std.specs.Prelude.{◌≡◌, ◌≤◌, ◌<◌, ◌+◌, ◌*◌, ◌^◌, ◌↔◌, length, IsTrue, IfOk, IfErr, OnErr};
ghost use Rattle.domain_header.specs.Numbers.{number16};
ghost use Rattle.domain_buffer.specs.Puts.{PutsAt};
ghost use Rattle.domain_buffer.specs.Rows.{row, AddsRow, NotTakenAfter, HoldsAll, StopsAfter};

use crate::entry::{Parts, parts_after};
use crate::put::put_at;
use crate::read::read_into;
use domain_header::numbers::number_of_16_bits;
use domain_reading::fault::NameFault;

/// How many entries were taken, how many octets their names have, and the offset of the next entry in the message.
#[derive(Clone, Copy)]
pub struct Taken {
    pub count: usize,
    pub names: usize,
    pub offset: usize,
}

/// Why an entry has no row.
#[derive(Clone, Copy)]
pub enum RowFault {
    /// No name can be read where it is to begin.
    Name(NameFault),
    /// The message ends in what follows the name.
    ShortInput,
    /// Its row or its name doesn't fit.
    NoRoom,
}

/// What was taken of a message, and why no more: nothing where it was all.
#[derive(Clone, Copy)]
pub struct Filled {
    pub taken: Taken,
    pub fault: Option<RowFault>,
}

/// The row of an entry whose name has `len` octets, from `at` on in the buffer of names.
fn row_of(at: usize, len: usize, parts: Parts) -> [u32; 8]
    requires at { at < 2 ^ 32 }
    requires len { len < 2 ^ 32 }
    requires begin { parts.data_at < 2 ^ 32 }
    requires size { parts.data_len < 2 ^ 32 }
    requires end { parts.end < 2 ^ 32 }
    ensures { result ≡ row at len parts }
{
    [
        at as u32,
        len as u32,
        u32::from(parts.rtype),
        u32::from(parts.class),
        parts.ttl,
        parts.data_at as u32,
        parts.data_len as u32,
        parts.end as u32,
    ]
}

/// Puts a row after so many others.
fn put_row(numbers: [u32; 8], rows: &mut [u32], count: usize)
    requires { 8 * count + 8 ≤ length rows.old }
    ensures { PutsAt (8 * count) numbers rows.old rows.new }
{
    let at = 8 * count;
    rows[at..at + 8].copy_from_slice(&numbers);
}

/// Puts the row and the name of the next entry after those that were taken, or nothing.
fn take_entry(
    message: &[u8],
    limit: u8,
    is_question: bool,
    taken: Taken,
    rows: &mut [u32],
    names: &mut [u8],
) -> Result<Taken, RowFault>
    requires small { length message.now < 2 ^ 32 }
    requires question { IsTrue is_question ↔ (taken.count < number16 message.now 4) }
    requires few { taken.count < 262140 }
    requires short { taken.names ≤ 255 * taken.count }
    requires rows { 8 * taken.count ≤ length rows.old }
    requires names { taken.names ≤ length names.old }
    ensures ok { IfOk result
        (AddsRow limit message.now taken rows.old rows.new names.old names.new) }
    ensures short { IfOk result (λ next. next.names ≤ taken.names + 255) }
    ensures err { IfErr result (NotTakenAfter limit message.now taken rows.old names.old) }
    ensures unchanged { OnErr result ((rows.new ≡ rows.old) × (names.new ≡ names.old)) }
{
    let mut octets = [0; 255];
    let found = match read_into(message, taken.offset, limit, &mut octets) {
        Ok(found) => found,
        Err(fault) => return Err(RowFault::Name(fault)),
    };
    let Some(parts) = parts_after(message, found.end, is_question) else {
        return Err(RowFault::ShortInput);
    };
    if rows.len() - 8 * taken.count < 8 || names.len() - taken.names < found.len {
        return Err(RowFault::NoRoom);
    }
    put_at(&octets[..found.len], names, taken.names);
    let numbers = row_of(taken.names, found.len, parts);
    put_row(numbers, rows, taken.count);
    Ok(Taken {
        count: taken.count + 1,
        names: taken.names + found.len,
        offset: parts.end,
    })
}

/// Takes entry after entry, to the last one that the header counts or the first that isn't there or doesn't fit. For
/// each it writes a row of eight numbers, and its name, read through at most `limit` pointers. A row has where the
/// name starts in `names`, how many octets it has, type, class and TTL. After these it has where the data start in the
/// message, how many octets they have, and the offset after the entry. A question has the TTL 0 and no data.
pub fn fill_rows(message: &[u8], limit: u8, rows: &mut [u32], names: &mut [u8]) -> Filled
    requires header { 12 ≤ length message.now }
    requires small { length message.now < 2 ^ 32 }
    ensures holds { HoldsAll limit message.now result.taken rows.old rows.new names.old names.new }
    ensures stops { StopsAfter limit message.now rows.old names.old result }
{
    let questions = usize::from(number_of_16_bits(message, 4));
    let answers = usize::from(number_of_16_bits(message, 6));
    let authority = usize::from(number_of_16_bits(message, 8));
    let additional = usize::from(number_of_16_bits(message, 10));
    let entries = questions + answers + authority + additional;
    let mut taken = Taken {
        count: 0,
        names: 0,
        offset: 12,
    };
    'entries: while taken.count < entries {
        let is_question = taken.count < questions;
        match take_entry(message, limit, is_question, taken, rows, names) {
            Ok(next) => taken = next,
            Err(fault) => {
                return Filled {
                    taken,
                    fault: Some(fault),
                };
            }
        }
    }
    Filled { taken, fault: None }
}

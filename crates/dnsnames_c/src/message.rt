//! The header of a message, its questions and its records (RFC 1035, 4.1).
ghost use Rattle.std.specs.Prelude.{◌≡◌, ◌≢◌};
ghost use Rattle.domain_header.specs.Numbers.{number16};
ghost use Rattle.dnsnames_c.specs.Answers.{Sets};
ghost use Rattle.dnsnames_c.specs.Messages.{TellsHeader, GivesQuestionParts, GivesRecordParts};

use crate::read::number_of;
use domain_buffer::entry::{question_after, record_after};
use domain_header::numbers::number_of_16_bits;
use domain_reading::uncounted::encoding_end;

/// The twelve octets that a message begins with, as six numbers (RFC 1035, 4.1.1): its identifier, its flags, and how
/// many questions, answers, records of authority and further records it says to have. 1 where it has fewer: nothing is
/// changed.
#[unsafe(no_mangle)]
pub extern "C" fn dnsnames_header(
    message: &[u8],
    id: &mut u16,
    flags: &mut u16,
    questions: &mut u16,
    answers: &mut u16,
    authority: &mut u16,
    additional: &mut u16,
) -> u32
    ensures status { TellsHeader message.now result }
    ensures id { Sets result (number16 message.now 0) id.old id.new }
    ensures flags { Sets result (number16 message.now 2) flags.old flags.new }
    ensures questions { Sets result (number16 message.now 4) questions.old questions.new }
    ensures answers { Sets result (number16 message.now 6) answers.old answers.new }
    ensures authority { Sets result (number16 message.now 8) authority.old authority.new }
    ensures additional { Sets result (number16 message.now 10) additional.old additional.new }
{
    if message.len() < 12 {
        return 1;
    }
    *id = number_of_16_bits(message, 0);
    *flags = number_of_16_bits(message, 2);
    *questions = number_of_16_bits(message, 4);
    *answers = number_of_16_bits(message, 6);
    *authority = number_of_16_bits(message, 8);
    *additional = number_of_16_bits(message, 10);
    0
}

/// The question at an offset of a message (RFC 1035, 4.1.2), whose name begins there: its type, its class and the
/// offset after it. A pointer in the name is not followed.
///
/// The faults of `dnsnames_skip`, and 1 where fewer than four octets follow the name: nothing is changed.
#[unsafe(no_mangle)]
pub extern "C" fn dnsnames_question(
    message: &[u8],
    offset: usize,
    rtype: &mut u16,
    class: &mut u16,
    end: &mut usize,
) -> u32
    ensures parts { GivesQuestionParts message.now offset result rtype.new class.new end.new }
    ensures rtype { result ≢ 0 → rtype.new ≡ rtype.old }
    ensures class { result ≢ 0 → class.new ≡ class.old }
    ensures end { result ≢ 0 → end.new ≡ end.old }
{
    let after = match encoding_end(message, offset) {
        Ok(after) => after,
        Err(fault) => return number_of(fault),
    };
    let Some(parts) = question_after(message, after) else {
        return 1;
    };
    *rtype = parts.rtype;
    *class = parts.class;
    *end = parts.end;
    0
}

/// The record at an offset of a message (RFC 1035, 4.1.3), whose name begins there: its type, its class, its time to
/// live in seconds, where its data begin and how many octets they have, and the offset after it. A pointer in the name
/// is not followed.
///
/// The faults of `dnsnames_skip`, and 1 where the ten octets after the name or the data end past the message: nothing
/// is changed.
#[unsafe(no_mangle)]
pub extern "C" fn dnsnames_record(
    message: &[u8],
    offset: usize,
    rtype: &mut u16,
    class: &mut u16,
    ttl: &mut u32,
    data_at: &mut usize,
    data_len: &mut usize,
    end: &mut usize,
) -> u32
    ensures parts { GivesRecordParts message.now offset result rtype.new class.new ttl.new
        data_at.new data_len.new end.new }
    ensures rtype { result ≢ 0 → rtype.new ≡ rtype.old }
    ensures class { result ≢ 0 → class.new ≡ class.old }
    ensures ttl { result ≢ 0 → ttl.new ≡ ttl.old }
    ensures data_at { result ≢ 0 → data_at.new ≡ data_at.old }
    ensures data_len { result ≢ 0 → data_len.new ≡ data_len.old }
    ensures end { result ≢ 0 → end.new ≡ end.old }
{
    let after = match encoding_end(message, offset) {
        Ok(after) => after,
        Err(fault) => return number_of(fault),
    };
    let Some(parts) = record_after(message, after) else {
        return 1;
    };
    *rtype = parts.rtype;
    *class = parts.class;
    *ttl = parts.ttl;
    *data_at = parts.data_at;
    *data_len = parts.data_len;
    *end = parts.end;
    0
}

//! What follows the name of a question or a record in a message (RFC 1035, 4.1.2 and 4.1.3).
ghost use Rattle.std.specs.Prelude.{◌≤◌, length, IfSome, IfNone, true, false};
ghost use Rattle.domain_buffer.specs.Entries.{HasParts, LacksParts};

use domain_header::numbers::{number_of_16_bits, number_of_32_bits};

/// What follows the name of a question or a record, and the offset after that. A question has no time to live and no
/// data: these are 0, and no octets at its end.
#[derive(Clone, Copy)]
pub struct Parts {
    pub rtype: u16,
    pub class: u16,
    pub ttl: u32,
    pub data_at: usize,
    pub data_len: usize,
    pub end: usize,
}

/// What follows the name of a question that ends before `after` (RFC 1035, 4.1.2): nothing where the message ends in
/// it.
pub fn question_after(message: &[u8], after: usize) -> Option<Parts>
    requires { after ≤ length message.now }
    ensures some { IfSome result (HasParts message.now true after) }
    ensures none { IfNone result (LacksParts message.now true after) }
{
    if message.len() - after < 4 {
        return None;
    }
    Some(Parts {
        rtype: number_of_16_bits(message, after),
        class: number_of_16_bits(message, after + 2),
        ttl: 0,
        data_at: after + 4,
        data_len: 0,
        end: after + 4,
    })
}

/// What follows the name of a record that ends before `after` (RFC 1035, 4.1.3): nothing where the message ends in it
/// or in the data.
pub fn record_after(message: &[u8], after: usize) -> Option<Parts>
    requires { after ≤ length message.now }
    ensures some { IfSome result (HasParts message.now false after) }
    ensures none { IfNone result (LacksParts message.now false after) }
{
    if message.len() - after < 10 {
        return None;
    }
    let data_len = usize::from(number_of_16_bits(message, after + 8));
    let data_at = after + 10;
    if message.len() - data_at < data_len {
        return None;
    }
    Some(Parts {
        rtype: number_of_16_bits(message, after),
        class: number_of_16_bits(message, after + 2),
        ttl: number_of_32_bits(message, after + 4),
        data_at,
        data_len,
        end: data_at + data_len,
    })
}

/// What follows the name of a question or of a record.
pub fn parts_after(message: &[u8], after: usize, is_question: bool) -> Option<Parts>
    requires { after ≤ length message.now }
    ensures some { IfSome result (HasParts message.now is_question after) }
    ensures none { IfNone result (LacksParts message.now is_question after) }
{
    if is_question {
        question_after(message, after)
    } else {
        record_after(message, after)
    }
}

//! Messages and records as text, as `dig` shows them.
ghost use Rattle.std.specs.Prelude.{◌≡◌};
ghost use Rattle.domain_wire.specs.declared.error.ParseError.{ParseError};
ghost use Rattle.dnsnames_c.specs.Shown.{error_number, shown_text_number, GivesMessageText, GivesLine};

use domain_lines::{PutText, put_message, put_record};
use domain_wire::ParseError;

/// The number of why a message can't be shown to its end, or of why no record is there.
fn number_of_error(error: ParseError) -> u32
    ensures { result ≡ error_number error }
{
    match error {
        ParseError::ShortInput => 1,
        ParseError::Form(_) => 28,
    }
}

/// The number of a text that was put into a buffer of this size.
fn number_of_text(put: PutText, capacity: usize) -> u32
    ensures { result ≡ shown_text_number put.len put.why capacity }
{
    if capacity < put.len {
        return 8;
    }
    match put.why {
        None => 0,
        Some(error) => number_of_error(error),
    }
}

/// The text of a message into the buffer, as far as it fits: two lines of its header, and for each section its heading
/// and a line for each question or record, as `dig` writes them, each with a newline. `length` becomes the size of the
/// whole text. Data that can't be read by its type are shown as octets (RFC 3597, 5), and why. A last line says how
/// many octets follow the last record, if any do.
///
/// 8 where the text doesn't fit: the buffer has its beginning. 1 where the message ends before all that its header
/// counts, or in that, and 28 where an entry hasn't the form of one: the text is that of what stands before. 29 where
/// the text wasn't made, which doesn't come: `length` is as it was.
#[unsafe(no_mangle)]
pub extern "C" fn dnsnames_message_text(
    message: &[u8],
    buffer: &mut [u8],
    length: &mut usize,
) -> u32
    ensures { GivesMessageText message.now result buffer.old buffer.new length.old length.new }
{
    let capacity = buffer.len();
    let Some(text) = put_message(message, buffer) else {
        return 29;
    };
    *length = text.len;
    number_of_text(text, capacity)
}

/// The line of the record at an offset of a message into the buffer, as far as it fits: owner, time to live, class,
/// type and data, as `dig` writes it, with a newline. `length` becomes the size of the line. Data that can't be read
/// by its type, and that of an OPT record, are shown as octets (RFC 3597, 5).
///
/// 8 where the line doesn't fit: the buffer has its beginning. 1 where the message ends in the record, and 28 where
/// its owner hasn't the form of a name: nothing is changed. 29 as `dnsnames_message_text` has it.
#[unsafe(no_mangle)]
pub extern "C" fn dnsnames_record_text(
    message: &[u8],
    offset: usize,
    buffer: &mut [u8],
    length: &mut usize,
) -> u32
    ensures { GivesLine message.now offset result buffer.old buffer.new length.old length.new }
{
    let capacity = buffer.len();
    let Some(put) = put_record(message, offset, buffer) else {
        return 29;
    };
    if let Some(error) = put.why {
        return number_of_error(error);
    }
    *length = put.len;
    number_of_text(put, capacity)
}

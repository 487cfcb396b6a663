//! Putting the lines of a message, or of a record, into a buffer.
ghost use Rattle.std.specs.Prelude.{IfSome};
ghost use Rattle.domain_lines.specs.Putting.{MessagePut, RecordPut};

use crate::message::write_message;
use crate::record::write_record;
use crate::room::Room;
use domain_message::ParsedRecord;
use domain_tool::tool::ToolError;
use domain_wire::ParseError;
use domain_wire::parse::Parse;
use octseq::Parser;

/// How many octets a text has that was put, and why it ends before what it should show does.
#[derive(Clone, Copy)]
pub struct PutText {
    pub len: usize,
    pub why: Option<ParseError>,
}

/// Puts the lines that show a message into the buffer, as far as they fit: two of the header, and for each section its
/// heading and a line for each question or record, each with a newline.
///
/// The length is that of all lines, whether or not they fit. `why` says why the message can't be shown to its end: it
/// has fewer than twelve octets, or an entry that the header counts is missing; the lines are those before it.
///
/// Returns `None` if the lines weren't made: they have more octets than a `usize` counts. No other case occurs, but
/// the contracts of `Display` don't state this.
pub fn put_message(message: &[u8], buffer: &mut [u8]) -> Option<PutText>
    ensures { IfSome result (MessagePut message.now buffer.old buffer.new) }
{
    let mut room = Room { buffer, len: 0 };
    let shown = write_message(message, &mut room);
    let Room { buffer, len } = room;
    // No effect at run time. The proof reads what the buffer holds from this use of it.
    let _ = &*buffer;
    match shown {
        Ok(()) => Some(PutText { len, why: None }),
        Err(ToolError::Parse(why)) => Some(PutText {
            len,
            why: Some(why),
        }),
        Err(_) => None,
    }
}

/// Puts the line of the record at an offset of a message into the buffer, as far as it fits, and a newline.
///
/// The length is that of the line, whether or not it fits. `why` says why no record is there: nothing is put then.
/// Returns `None` as `put_message` does.
pub fn put_record(message: &[u8], offset: usize, buffer: &mut [u8]) -> Option<PutText>
    ensures { IfSome result (RecordPut message.now offset buffer.old buffer.new) }
{
    let mut parser = Parser::from_ref(message);
    if let Err(_) = parser.seek(offset) {
        return Some(PutText {
            len: 0,
            why: Some(ParseError::ShortInput),
        });
    }
    let found = match ParsedRecord::parse(&mut parser) {
        Ok(found) => found,
        Err(e) => return Some(PutText {
            len: 0,
            why: Some(e),
        }),
    };
    let mut room = Room { buffer, len: 0 };
    let written = write_record(&found, &mut room);
    let Room { buffer, len } = room;
    // No effect at run time. The proof reads what the buffer holds from this use of it.
    let _ = &*buffer;
    match written {
        Ok(()) => Some(PutText { len, why: None }),
        Err(_) => None,
    }
}

//! Reading a name of a message into a buffer (RFC 1035, 4.1.4).
ghost use Rattle.std.specs.Prelude.{◌≤◌, IfOk, IfErr};
ghost use Rattle.domain_reading.specs.Faults.{NameFaultAt};
ghost use Rattle.domain_buffer.specs.Reading.{ReadsInto, TellsCompressed};

use domain_list::composing::put_name;
use domain_parsed::ParsedName;
use domain_reading::fault::NameFault;
use octseq::Parser;

/// A name that was read: how many octets it has, the offset after it, and whether a pointer follows a label.
#[derive(Clone, Copy)]
pub struct Found {
    pub len: usize,
    pub end: usize,
    pub compressed: bool,
}

/// Puts the name at an offset of a message, read through at most `limit` pointers, at the beginning of a buffer, with
/// no pointer in it.
pub fn read_into(
    message: &[u8],
    offset: usize,
    limit: u8,
    octets: &mut [u8; 255],
) -> Result<Found, NameFault>
    ensures name { IfOk result (λ found. ReadsInto limit message.now offset found octets.new) }
    ensures compressed { IfOk result (TellsCompressed message.now offset) }
    ensures fits { IfOk result (λ found. found.len ≤ 255) }
    ensures fault { IfErr result (λ fault. NameFaultAt limit message.now offset fault) }
{
    let mut parser = Parser::from_ref(message);
    if parser.seek(offset).is_err() {
        return Err(NameFault::ShortInput);
    }
    match ParsedName::parse_or_fault(&mut parser, limit) {
        Ok(name) => Ok(Found {
            len: put_name(&name, octets),
            end: parser.pos(),
            compressed: name.is_compressed(),
        }),
        Err(fault) => Err(fault),
    }
}

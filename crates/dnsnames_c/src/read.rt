//! Names in messages.
ghost use Rattle.std.specs.Prelude.{◌≡◌};
ghost use Rattle.dnsnames_c.specs.Answers.{ReadsNameAt, ReturnsEnd};
ghost use Rattle.dnsnames_c.specs.Status.{fault_number, bit_number};

use crate::put::give;
use domain_buffer::read::read_into;
use domain_reading::fault::NameFault;
use domain_reading::uncounted::encoding_end;

/// The number of a fault.
pub(crate) fn number_of(fault: NameFault) -> u32
    ensures { result ≡ fault_number fault }
{
    match fault {
        NameFault::ShortInput => 1,
        NameFault::BadLabelType => 2,
        NameFault::TooManyPointers => 3,
        NameFault::LongName => 4,
    }
}

/// 1 for true, 0 for false.
fn number_of_bit(bit: bool) -> u32
    ensures { result ≡ bit_number bit }
{
    if bit { 1 } else { 0 }
}

/// Reads the name at an offset of a message, through at most `limit` pointers, into the buffer with no pointer in it
/// (RFC 1035, 4.1.4). `length` becomes its size, and `end` the offset after its root or first pointer. `compressed`
/// becomes 0 where all its octets lie one after the other, at the offset or where pointers there lead to, otherwise 1.
///
/// Returns 1 if the message ends in the name, and 2 at a length octet of a type that is not in use. Returns 3 at a
/// pointer that doesn't lead back or is one too many, and 4 if the name has more than 255 octets. In each of these
/// cases nothing is changed. Returns 8 if the name doesn't fit into the buffer, which then stays unchanged; the rest
/// is given.
#[unsafe(no_mangle)]
pub extern "C" fn dnsnames_read(
    message: &[u8],
    offset: usize,
    limit: u8,
    buffer: &mut [u8],
    length: &mut usize,
    end: &mut usize,
    compressed: &mut u32,
) -> u32
    ensures { ReadsNameAt limit message.now offset result buffer.old buffer.new length.old
        length.new end.old end.new compressed.old compressed.new }
{
    let mut octets = [0; 255];
    let found = match read_into(message, offset, limit, &mut octets) {
        Ok(found) => found,
        Err(fault) => return number_of(fault),
    };
    *end = found.end;
    *compressed = number_of_bit(found.compressed);
    give(&octets[..found.len], buffer, length)
}

/// The offset after the root or first pointer of the name at an offset of a message; the pointer is not followed. The
/// faults are those of `dnsnames_read` but 3, and change nothing.
#[unsafe(no_mangle)]
pub extern "C" fn dnsnames_skip(message: &[u8], offset: usize, end: &mut usize) -> u32
    ensures { ReturnsEnd message.now offset result end.old end.new }
{
    match encoding_end(message, offset) {
        Ok(after) => {
            *end = after;
            0
        }
        Err(fault) => number_of(fault),
    }
}

//! A message whose header is written last.
ghost use Rattle.std.specs.Prelude.{◌≡◌, ◌≤◌, length, drop, IfOk};
ghost use Rattle.domain_rdata.specs.ReadBack.{StandsAt};
ghost use Rattle.examples.specs.MessageOctets.{with_ancount};

use arrayvec::ArrayVec;
use domain_compress::{CompressComposer, compress_laws};
use domain_list::AbsoluteLabels;
use domain_rdata::Composer;
use octseq::{Octets, OctetsBuilder, OctetsMut, ShortBuf};

/// The type A, the class IN, a time to live of an hour, and an address of four octets (RFC 1035, 3.2.1).
const ADDRESS: [u8; 14] = [0, 1, 0, 1, 0, 0, 14, 16, 0, 4, 192, 0, 2, 1];

/// The octets of a header (RFC 1035, 4.1.1).
const HEADER_LEN: usize = 12;

/// Writes how many answers there are into the header; what follows the header stays.
fn write_count<Octs: OctetsMut>(message: &mut Octs, count: u16)
    requires { 12 ≤ length (Octs.octets message.old) }
    ensures rest { drop 12 (Octs.octets message.new) ≡ drop 12 (Octs.octets message.old) }
    ensures octets { Octs.octets message.new ≡ with_ancount count (Octs.octets message.old) }
{
    message.as_slice_mut()[6..8].copy_from_slice(&count.to_be_bytes());
}

/// A response of two records, and where the owner of the second is read; that of the first is read after
/// the header. The count of the records is written last, over octets of the header, and both owners are read
/// as they were.
pub fn two_records<'a, N: AbsoluteLabels<'a>, M: AbsoluteLabels<'a>>(
    first: &'a N,
    second: &'a M,
) -> Result<(ArrayVec<u8, 1024>, usize), ShortBuf>
    ensures first { IfOk result (λ made. StandsAt made.0.items 12 (N.labels first.now)) }
    ensures second { IfOk result (λ made. StandsAt made.0.items made.1 (M.labels second.now)) }
{
    let mut message = CompressComposer::new(ArrayVec::new());
    message.append_slice(&[0; HEADER_LEN])?;
    message.append_compressed_name(first)?;
    message.append_slice(&ADDRESS)?;
    let offset = message.as_slice().len();
    message.append_compressed_name(second)?;
    message.append_slice(&ADDRESS)?;
    write_count(&mut message, 2);
    compress_laws();
    Ok((message.into_target(), offset))
}

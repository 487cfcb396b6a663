//! Giving octets in a caller's buffer.
ghost use Rattle.dnsnames_zone_c.specs.Zones.{Gives};

use domain_buffer::put::put;

/// Puts the octets at the start of the buffer and returns 0, or 8 where they don't fit. `length` becomes how many
/// there are.
pub(crate) fn give(octets: &[u8], buffer: &mut [u8], length: &mut usize) -> u32
    ensures { Gives octets.now result buffer.old buffer.new length.new }
{
    *length = octets.len();
    if put(octets, buffer, 0) { 0 } else { 8 }
}

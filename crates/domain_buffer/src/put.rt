//! Writing octets into a caller's buffer.
ghost use Rattle.std.specs.Prelude.{◌≤◌, ◌+◌, length};
ghost use Rattle.domain_buffer.specs.Puts.{PutsAt, PutsIfRoom};

/// Puts the octets into the buffer from an offset on.
pub fn put_at(octets: &[u8], buffer: &mut [u8], offset: usize)
    requires { offset + length octets.now ≤ length buffer.old }
    ensures { PutsAt offset octets.now buffer.old buffer.new }
{
    buffer[offset..offset + octets.len()].copy_from_slice(octets);
}

/// Puts the octets into the buffer from an offset on, or nothing where they don't fit.
pub fn put(octets: &[u8], buffer: &mut [u8], offset: usize) -> bool
    requires { offset ≤ length buffer.old }
    ensures { PutsIfRoom result offset octets.now buffer.old buffer.new }
{
    if buffer.len() - offset < octets.len() {
        return false;
    }
    put_at(octets, buffer, offset);
    true
}

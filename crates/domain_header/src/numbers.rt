//! Numbers in a message.
ghost use Rattle.std.specs.Prelude.{◌≡◌, ◌+◌, ◌≤◌, length};
ghost use Rattle.domain_header.specs.Numbers.{number16, number32};

/// The number in the two octets from this offset on, the high octet first.
pub fn number_of_16_bits(octets: &[u8], offset: usize) -> u16
    requires { offset + 2 ≤ length octets.now }
    ensures { result ≡ number16 octets.now offset }
{
    let mut digits = [0; 2];
    digits.copy_from_slice(&octets[offset..offset + 2]);
    u16::from_be_bytes(digits)
}

/// The number in the four octets from this offset on, the high octet first.
pub fn number_of_32_bits(octets: &[u8], offset: usize) -> u32
    requires { offset + 4 ≤ length octets.now }
    ensures { result ≡ number32 octets.now offset }
{
    let mut digits = [0; 4];
    digits.copy_from_slice(&octets[offset..offset + 4]);
    u32::from_be_bytes(digits)
}

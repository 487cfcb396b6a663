//! Octets as words of 64 bits, the low octet first.
ghost use Rattle.std.specs.Prelude.{◌≡◌, ◌≤◌, ◌+◌, ◌%◌, ◌++◌, length};
ghost use Rattle.domain_siphash.specs.SipHash.{word, padding};

/// The word of the eight octets at an offset.
#[tactic(auto, unfolding(crate::specs::SipHash::word))]
pub(crate) fn word_at(octets: &[u8], offset: usize) -> u64
    requires { offset + 8 ≤ length octets.now }
    ensures { result ≡ word octets.now offset }
{
    u64::from_le_bytes([
        octets[offset],
        octets[offset + 1],
        octets[offset + 2],
        octets[offset + 3],
        octets[offset + 4],
        octets[offset + 5],
        octets[offset + 6],
        octets[offset + 7],
    ])
}

/// Returns eight octets: the remaining octets of `len`, zero octets, and `len` modulo 256.
fn last_eight(rest: &[u8], len: usize) -> [u8; 8]
    requires { length rest.now ≡ len % 8 }
    ensures { result ≡ rest.now ++ padding len }
{
    let mut octets = [0; 8];
    octets[..rest.len()].copy_from_slice(rest);
    octets[7] = (len % 256) as u8;
    octets
}

/// Returns the last word, of the remaining octets of `len`.
pub(crate) fn last_word(rest: &[u8], len: usize) -> u64
    requires { length rest.now ≡ len % 8 }
    ensures { result ≡ word (rest.now ++ padding len) 0 }
{
    word_at(&last_eight(rest, len), 0)
}

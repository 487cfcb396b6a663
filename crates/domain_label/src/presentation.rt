//! Labels spelled in a buffer, so that they are written at once (RFC 1035, 5.1).
ghost use Rattle.std.specs.Prelude.{◌≡◌, ◌≤◌, ◌<◌, ◌+◌, ◌*◌, ◌∷◌, ◌++◌, [], length, IsTrue};
ghost use Rattle.std.specs.Str.{IsAscii};
ghost use Rattle.domain_label.specs.Text.{escaped, escaped_octet};

use arrayvec::ArrayVec;
use std::str::from_utf8;

/// Appends one octet of a label as it is spelled.
#[inline(always)]
fn push_escaped<const N: usize>(octet: u8, text: &mut ArrayVec<u8, N>)
    requires room { length text.old.items + 4 ≤ N }
    requires ascii { IsAscii text.old.items }
    ensures spelled { text.new.items ≡ text.old.items ++ escaped_octet octet }
    ensures ascii { IsAscii text.new.items }
    ensures size { length text.new.items ≤ length text.old.items + 4 }
{
    if octet == b' ' || octet == b'.' || octet == b'\\' {
        text.push(b'\\');
        text.push(octet);
        return;
    }
    if octet < 0x20 || octet > 0x7e {
        text.push(b'\\');
        text.push(b'0' + octet / 100);
        text.push(b'0' + octet / 10 % 10);
        text.push(b'0' + octet % 10);
        return;
    }
    text.push(octet);
}

/// Whether the octet is spelled as itself: it is printed, and no space, dot or backslash.
#[inline(always)]
fn is_bare(octet: u8) -> bool
    ensures spelled { IsTrue result → escaped_octet octet ≡ octet ∷ [] }
    ensures ascii { IsTrue result → octet < 128 }
{
    octet > b' ' && octet < 0x7f && octet != b'.' && octet != b'\\'
}

/// Whether each octet is spelled as itself. All are looked at, so that many are tested at once.
#[inline(always)]
fn are_bare(octets: &[u8]) -> bool
    ensures spelled { IsTrue result → escaped octets.now ≡ octets.now }
    ensures ascii { IsTrue result → IsAscii octets.now }
{
    let mut bare = true;
    for octet in octets {
        bare &= is_bare(*octet);
    }
    bare
}

/// Appends the octets of a label as they are spelled, at most four characters for each.
pub fn push_label<const N: usize>(octets: &[u8], text: &mut ArrayVec<u8, N>)
    requires room { length text.old.items + 4 * length octets.now ≤ N }
    requires ascii { IsAscii text.old.items }
    ensures spelled { text.new.items ≡ text.old.items ++ escaped octets.now }
    ensures ascii { IsAscii text.new.items }
    ensures size { length text.new.items ≤ length text.old.items + 4 * length octets.now }
{
    // For a few octets the test takes longer than it spares.
    if octets.len() > 3 && are_bare(octets) {
        let Ok(()) = text.try_extend_from_slice(octets) else {
            unreachable!();
        };
        return;
    }
    for octet in octets {
        push_escaped(*octet, text);
    }
}

/// The text that ASCII octets are.
pub fn ascii_text(octets: &[u8]) -> &str
    requires { IsAscii octets.now }
    ensures { result.now ≡ octets.now }
{
    let Ok(text) = from_utf8(octets) else {
        unreachable!();
    };
    text
}

//! Texts without escapes, which are read where they lie.
ghost use Rattle.std.specs.Prelude.{IsTrue, ◌↔◌};
ghost use Rattle.domain_text.specs.Plain.{IsPlain, IsPlainText};

/// Whether a character is one octet and a symbol of its own.
#[inline(always)]
fn is_plain_octet(octet: u8) -> bool
    ensures { IsTrue result ↔ IsPlain octet }
{
    (octet >= b' ') & (octet <= b'~') & (octet != b'\\')
}

/// Whether a text has from 2 to 253 characters, each of them one octet and a symbol of its own. All are
/// looked at, so that many can be taken at a time.
#[inline(always)]
pub(crate) fn is_plain(text: &[u8]) -> bool
    ensures { IsTrue result ↔ IsPlainText text.now }
{
    if text.len() < 2 || text.len() > 253 {
        return false;
    }
    let mut plain = true;
    for octet in text {
        plain &= is_plain_octet(*octet);
    }
    plain
}

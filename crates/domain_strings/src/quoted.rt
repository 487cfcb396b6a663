//! A character string as text (RFC 1035, 5.1).
ghost use Rattle.std.specs.Prelude.{◌≡◌, ◌≤◌, ◌+◌, ◌*◌, ◌++◌, length, Some};
ghost use Rattle.std.specs.List.{flat_map};
ghost use Rattle.std.specs.Str.{IsAscii};
ghost use Rattle.domain_strings.specs.Quoted.{quoted, quoted_octet};

use arrayvec::ArrayVec;
use domain_label::presentation::ascii_text;
use std::fmt;

/// Appends one octet of a string as it is spelled between quotes.
fn push_octet(octet: u8, text: &mut ArrayVec<u8, 1022>)
    requires room { length text.old.items + 4 ≤ 1022 }
    requires ascii { IsAscii text.old.items }
    ensures spelled { text.new.items ≡ text.old.items ++ quoted_octet octet }
    ensures ascii { IsAscii text.new.items }
    ensures size { length text.new.items ≤ length text.old.items + 4 }
{
    match octet {
        b'"' | b'\\' => {
            text.push(b'\\');
            text.push(octet);
        }
        0x20..=0x7e => text.push(octet),
        _ => {
            text.push(b'\\');
            text.push(b'0' + octet / 100);
            text.push(b'0' + octet / 10 % 10);
            text.push(b'0' + octet % 10);
        }
    }
}

/// Appends the octets of a string as they are spelled between quotes, at most four characters for each.
fn push_octets(octets: &[u8], text: &mut ArrayVec<u8, 1022>)
    requires room { length text.old.items + 4 * length octets.now ≤ 1022 }
    requires ascii { IsAscii text.old.items }
    ensures spelled { text.new.items ≡ text.old.items ++ flat_map quoted_octet octets.now }
    ensures ascii { IsAscii text.new.items }
    ensures size { length text.new.items ≤ length text.old.items + 4 * length octets.now }
{
    for octet in octets {
        push_octet(*octet, text);
    }
}

/// A character string, shown between quotes.
#[derive(Clone, Copy)]
pub struct Quoted<'a> {
    octets: &'a [u8],
    ghost short: { length octets.now ≤ 255 },
}

impl<'a> Quoted<'a> {
    ghost use Rattle.domain_strings.specs.Views.{quoted_octets};

    /// The string of these octets.
    pub fn new(octets: &'a [u8]) -> Quoted<'a>
        requires { length octets.now ≤ 255 }
        ensures { quoted_octets result ≡ octets.now }
    {
        Quoted { octets }
    }
}

impl<'a> fmt::Display for Quoted<'a> {
    ghost use Rattle.domain_strings.specs.Views.{quoted_octets};

    ghost output = { λ it. Some (quoted (quoted_octets it)) };

    fn fmt<W: fmt::Write>(&self, f: &mut fmt::Formatter<W>) -> fmt::Result {
        let mut text = ArrayVec::<u8, 1022>::new();
        text.push(b'"');
        push_octets(self.octets, &mut text);
        text.push(b'"');
        f.write_str(ascii_text(text.as_slice()))
    }
}

/// Octets of any number, shown between quotes as a character string is.
#[derive(Clone, Copy)]
pub(crate) struct QuotedAll<'a> {
    pub(crate) octets: &'a [u8],
}

impl<'a> fmt::Display for QuotedAll<'a> {
    ghost output = { λ it. Some (quoted it.octets.now) };

    fn fmt<W: fmt::Write>(&self, f: &mut fmt::Formatter<W>) -> fmt::Result {
        let spelled = SpelledAll {
            octets: self.octets,
        };
        write!(f, "\"{spelled}\"")
    }
}

/// Octets as they are spelled between quotes.
#[derive(Clone, Copy)]
struct SpelledAll<'a> {
    octets: &'a [u8],
}

impl<'a> fmt::Display for SpelledAll<'a> {
    ghost output = { λ it. Some (flat_map quoted_octet it.octets.now) };

    fn fmt<W: fmt::Write>(&self, f: &mut fmt::Formatter<W>) -> fmt::Result {
        for octet in self.octets {
            write!(f, "{}", Spelled(*octet))?;
        }
        Ok(())
    }
}

/// One octet as it is spelled between quotes.
#[derive(Clone, Copy)]
struct Spelled(u8);

impl fmt::Display for Spelled {
    ghost output = { λ it. Some (quoted_octet it.0) };

    fn fmt<W: fmt::Write>(&self, f: &mut fmt::Formatter<W>) -> fmt::Result {
        let mut text = ArrayVec::<u8, 1022>::new();
        push_octet(self.0, &mut text);
        f.write_str(ascii_text(text.as_slice()))
    }
}

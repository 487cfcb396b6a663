//! Lines and columns of a text.
ghost use Rattle.std.specs.Prelude.{◌≡◌, take};
ghost use Rattle.domain_rdata_text.specs.Places.{place_after};

/// A line of a text and a column of it, both counted from 1.
#[derive(Clone, Copy, Debug, PartialEq, Eq)]
pub struct Place {
    /// The line.
    pub line: usize,
    /// The octet of the line.
    pub column: usize,
}

/// The place after octets.
fn place_behind(octets: &[u8]) -> Place
    ensures { result ≡ place_after 1 1 octets.now }
{
    let mut line = 1;
    let mut column = 1;
    let mut rest = octets;
    'octet: while let [octet, after @ ..] = rest {
        if *octet == b'\n' {
            line += 1;
            column = 1;
        } else {
            column += 1;
        }
        rest = after;
    }
    Place { line, column }
}

/// The line and the column of an octet of a text. An offset after the text's end is taken for its end.
pub fn place_of(text: &[u8], at: usize) -> Place
    ensures { result ≡ place_after 1 1 (take at text.now) }
{
    if at < text.len() {
        return place_behind(&text[..at]);
    }
    place_behind(text)
}

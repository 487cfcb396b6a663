//! The options of an OPT record.
ghost use Rattle.std.specs.Prelude.{◌≡◌, ◌+◌, ◌≤◌, IfSome, IsNone, length};
ghost use Rattle.std.specs.Iterator.{at_most};
ghost use Rattle.domain_message.specs.Options.{BeginsWithOption, EndsInOption};
ghost use Rattle.domain_message.specs.OptDataViews.{options_left, GivesOption};

use domain_header::numbers::number_of_16_bits;
use domain_wire::ParseError;

/// An option: its code, and its data (RFC 6891, 6.1.2).
#[derive(Clone, Copy, Debug, PartialEq, Eq)]
pub struct EdnsOption<'a> {
    pub code: u16,
    pub data: &'a [u8],
}

impl<'a> EdnsOption<'a> {
    /// The option that octets begin with, and the octets after it. `None` exactly where they end before it does.
    pub fn split_from(octets: &'a [u8]) -> Option<(EdnsOption<'a>, &'a [u8])>
        ensures some { IfSome result
            (λ it. BeginsWithOption octets.now it.0.code it.0.«data».now it.1.now) }
        ensures none { IsNone result → EndsInOption octets.now }
    {
        if octets.len() < 4 {
            return None;
        }
        let len = usize::from(number_of_16_bits(octets, 2));
        if octets.len() - 4 < len {
            return None;
        }
        let option = EdnsOption {
            code: number_of_16_bits(octets, 0),
            data: &octets[4..4 + len],
        };
        Some((option, &octets[4 + len..]))
    }
}

/// The options in octets, one after another.
///
/// Where the octets end inside of an option it returns `ShortInput`. After that, as after the last option, it stays at
/// `None`.
#[derive(Clone, Copy, Debug)]
pub struct OptIter<'a> {
    octets: &'a [u8],
}

impl<'a> OptIter<'a> {
    /// The options in these octets.
    pub fn new(octets: &'a [u8]) -> OptIter<'a>
        ensures { options_left result ≡ octets.now }
    {
        OptIter { octets }
    }
}

impl<'a> Iterator for OptIter<'a> {
    type Item = Result<EdnsOption<'a>, ParseError>;

    ghost next_gives = { GivesOption };

    ghost remaining = { λ s. at_most (length (options_left s)) };

    fn next(&mut self) -> Option<Result<EdnsOption<'a>, ParseError>> {
        let octets = self.octets;
        if octets.is_empty() {
            return None;
        }
        let Some((option, rest)) = EdnsOption::split_from(octets) else {
            self.octets = &[];
            return Some(Err(ParseError::ShortInput));
        };
        self.octets = rest;
        Some(Ok(option))
    }
}

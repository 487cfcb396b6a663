//! The suffixes of a name in a message.
ghost use Rattle.std.specs.Prelude.{◌≡◌};

use crate::parsed::ParsedName;

/// The suffixes of a name: the name, the name without its first label, and so on to the root.
#[derive(Clone, Copy)]
pub struct ParsedSuffixIter<'a> {
    name: ParsedName<&'a [u8]>,
    /// Whether the root was returned.
    ended: bool,
}

impl<'a> ParsedSuffixIter<'a> {
    ghost use Rattle.domain_parsed.specs.ParsedNames.{suffixes_of, suffixes_left};

    /// The suffixes of a name.
    #[inline(always)]
    pub(crate) fn new(name: ParsedName<&'a [u8]>) -> Self
        ensures { suffixes_left result ≡ suffixes_of name.entry }
    {
        ParsedSuffixIter { name, ended: false }
    }
}

impl<'a> Iterator for ParsedSuffixIter<'a> {
    ghost use Rattle.std.specs.Iterator.{YieldsFirstBy, item_count};
    ghost use Rattle.domain_parsed.specs.ParsedNames.{suffixes_left, parsed_model};

    type Item = ParsedName<&'a [u8]>;

    ghost next_gives = { YieldsFirstBy parsed_model suffixes_left };

    ghost remaining = { item_count suffixes_left };

    #[inline(always)]
    fn next(&mut self) -> Option<ParsedName<&'a [u8]>> {
        if self.ended {
            return None;
        }
        let suffix = self.name;
        self.ended = !self.name.parent();
        Some(suffix)
    }
}

//! A name without its first labels.

use crate::absolute::Name;

/// The suffixes of an absolute name: the name itself, the name without its first label, and so on to the root.
#[derive(Clone, Copy)]
pub struct SuffixIter<'a> {
    next: Option<Name<&'a [u8]>>,
}

impl<'a> SuffixIter<'a> {
    ghost use Rattle.std.specs.Prelude.{◌≡◌};
    ghost use Rattle.domain_flat.specs.Flat.{suffix_lists};
    ghost use Rattle.domain_name.specs.Names.{name_labels};
    ghost use Rattle.domain_name.specs.Suffixes.{suffix_lists_left};

    /// The suffixes of this name.
    pub fn new(name: Name<&'a [u8]>) -> SuffixIter<'a>
        ensures { suffix_lists_left result ≡ suffix_lists (name_labels name.entry) }
    {
        SuffixIter { next: Some(name) }
    }
}

impl<'a> Iterator for SuffixIter<'a> {
    ghost use Rattle.std.specs.Iterator.{YieldsFirstBy, item_count};
    ghost use Rattle.domain_name.specs.Names.{name_labels};
    ghost use Rattle.domain_name.specs.Suffixes.{suffix_lists_left};

    type Item = Name<&'a [u8]>;

    ghost next_gives = { YieldsFirstBy name_labels suffix_lists_left };

    ghost remaining = { item_count suffix_lists_left };

    fn next(&mut self) -> Option<Name<&'a [u8]>> {
        let name = self.next?;
        self.next = match name.split_slice() {
            Some((_, rest)) => Some(rest),
            None => None,
        };
        Some(name)
    }
}

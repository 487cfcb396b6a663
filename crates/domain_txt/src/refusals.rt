//! A count of the requests for memory that were refused.
ghost use Rattle.std.specs.Prelude.{◌≡◌, ℕ, ◌+◌, ◌++◌, ◌<◌, length, MatchResult, OnOk, OnErr};

use std::alloc::AllocError;
use std::marker::Model;
use std::sync::ledger::{Blank, Book, Ledger, Share};

/// How many requests for memory were refused. It takes no bytes: contracts alone see the number.
#[derive(Drop)]
pub struct Refusals<L: Ledger> {
    book: Book<L>,
    share: Share<L>,
}

impl<L: Ledger> Model for Refusals<L> {
    ghost Value = { ℕ };

    ghost view = { λ s. s.book.total };

    ghost invariant = { λ s. 0 < s.share.parts };
}

impl<L: Ledger> Refusals<L> {
    /// A count at 0.
    #[inline(always)]
    pub fn new(blank: Blank) -> Self
        requires name { blank.name ≡ L.name }
        requires parts { blank.parts ≡ L.parts }
        requires some { 0 < blank.parts }
        ensures { result ≡ 0 }
    {
        let (book, share) = blank.open::<L>();
        Refusals { book, share }
    }

    /// Appends octets, and counts one more refusal where there was no memory for them. Nothing else counts.
    #[inline(always)]
    pub(crate) fn append(&mut self, to: &mut Vec<u8>, octets: &[u8]) -> Result<(), AllocError>
        ensures ok { OnOk result (to.new.items ≡ to.old.items ++ octets.now) }
        ensures err { OnErr result (0 < length octets.now) }
        ensures counted { MatchResult result (λ _. self.new ≡ self.old)
            (λ _. self.new ≡ self.old + 1) }
    {
        match to.extend_from_slice(octets) {
            Ok(()) => Ok(()),
            Err(refused) => {
                self.book.add(&mut self.share, 1);
                Err(refused)
            }
        }
    }
}

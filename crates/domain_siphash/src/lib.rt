//! SipHash-2-4: a hash under a key, for tables that strangers fill.
#![tactic(auto)]

ghost use Rattle.std.specs.Prelude.{◌≡◌};
ghost use Rattle.domain_siphash.specs.SipHash.{siphash};

mod state;
mod words;

use crate::state::State;
use crate::words::{last_word, word_at};

/// The SipHash-2-4 of octets under a key of sixteen octets, as a number of 64 bits (J.-P. Aumasson and D. J.
/// Bernstein, "SipHash: a fast short-input PRF", 2012). It is made so that who doesn't know the key, drawn at random
/// and kept, can't choose octets that have one hash: its authors' claim, which no contract has. It needs no memory and
/// has no error.
pub fn siphash_2_4(key: &[u8; 16], octets: &[u8]) -> u64
    ensures { result ≡ siphash key.now octets.now }
{
    let mut state = State::new(word_at(key, 0), word_at(key, 8));
    let mut rest = octets;
    'words: while rest.len() >= 8 {
        state.absorb(word_at(rest, 0));
        rest = &rest[8..];
    }
    state.absorb(last_word(rest, octets.len()));
    state.finish()
}

#[cfg(test)]
mod tests;

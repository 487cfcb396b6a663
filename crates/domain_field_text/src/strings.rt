//! Character strings as text (RFC 1035, 5.1).
ghost use Rattle.std.specs.Prelude.{◌≡◌, ◌<◌, ◌≤◌, ◌∷◌, [], Some, length, MatchOption};
ghost use Rattle.domain_strings.specs.Quoted.{quoted_strings};
ghost use Rattle.domain_txt.specs.Strings.{strings_in};

use domain_strings::Quoted;
use std::fmt;

/// The first of character strings without the octet that says how many it has, and the octets after it. `None` exactly
/// where there is no octet.
#[tactic(auto, using(crate::proofs::Cutting::first_cut, crate::proofs::Cutting::last_cut))]
fn split_string(octets: &[u8]) -> Option<(&[u8], &[u8])>
    ensures parts { MatchOption result (octets.now ≡ [])
        (λ it. strings_in octets.now ≡ it.0.now ∷ strings_in it.1.now) }
    ensures short { MatchOption result (octets.now ≡ []) (λ it. length it.0.now ≤ 255) }
    ensures fewer { MatchOption result (octets.now ≡ [])
        (λ it. length it.1.now < length octets.now) }
{
    let [len, after @ ..] = octets else {
        return None;
    };
    let len = usize::from(*len);
    if len < after.len() {
        return Some(after.split_at(len));
    }
    Some(after.split_at(after.len()))
}

/// Character strings, one after another: each between quotes, with a space between two.
#[derive(Clone, Copy)]
pub(crate) struct Strings<'a> {
    pub(crate) octets: &'a [u8],
}

impl<'a> fmt::Display for Strings<'a> {
    ghost output = { λ it. Some (quoted_strings (strings_in it.octets.now)) };

    fn fmt<W: fmt::Write>(&self, f: &mut fmt::Formatter<W>) -> fmt::Result {
        let Some((first, after)) = split_string(self.octets) else {
            return Ok(());
        };
        write!(f, "{}", Quoted::new(first))?;
        let mut rest = after;
        while let Some((string, after)) = split_string(rest) {
            write!(f, " {}", Quoted::new(string))?;
            rest = after;
        }
        Ok(())
    }
}

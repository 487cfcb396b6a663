//! The hash of a name (RFC 5155, 5).
ghost use Rattle.std.specs.Prelude.{◌≡◌, ◌≤◌, ◌<◌, ◌++◌, ◌↔◌, IfOk, IsErr, Some, codes, take};
ghost use Rattle.domain_label.specs.Lowercase.{lowercase_labels};
ghost use Rattle.domain_label.specs.Wire.{wire};
ghost use Rattle.domain_nsec3.specs.Hashing.{iterated_hash, nsec3_hash};
ghost use Rattle.sha1.specs.Sha1.{sha1};

use domain_list::composing::put_name;
use domain_list::{AbsoluteLabels, ToLabelIter};
use sha1::Sha1;
use std::error::Error;
use std::fmt;

/// How many octets a hash has: those of SHA-1, the only algorithm of NSEC3 (RFC 5155, 11).
pub const HASH_LEN: usize = 20;

/// A hash takes more iterations than the caller allows.
#[derive(Clone, Copy, Debug, PartialEq, Eq)]
pub struct TooManyIterations;

impl fmt::Display for TooManyIterations {
    ghost output = { λ _. Some (codes "too many NSEC3 iterations") };

    fn fmt<W: fmt::Write>(&self, f: &mut fmt::Formatter<W>) -> fmt::Result {
        write!(f, "too many NSEC3 iterations")
    }
}

impl Error for TooManyIterations {}

/// The SHA-1 of octets and then the salt.
fn salted(octets: &[u8], salt: &[u8]) -> [u8; HASH_LEN]
    ensures { result ≡ sha1 (octets.now ++ salt.now) }
{
    let mut hasher = Sha1::new();
    hasher.update(octets);
    hasher.update(salt);
    hasher.finalize()
}

/// The hash of octets under the salt, and so many times that of what was hashed.
#[tactic(auto, using(crate::proofs::Iterating::one_more))]
fn iterated(octets: &[u8], iterations: u16, salt: &[u8]) -> [u8; HASH_LEN]
    ensures { result ≡ iterated_hash sha1 salt.now octets.now iterations }
{
    let mut hash = salted(octets, salt);
    for _ in 0..iterations {
        hash = salted(&hash, salt);
    }
    hash
}

/// Puts the wire format of a name in lower case at the beginning of a buffer, and returns how many octets it has.
fn put_canonical<'a, N: ToLabelIter<'a>>(name: &'a N, octets: &mut [u8; 255]) -> usize
    ensures wire { take result octets.new ≡ wire (lowercase_labels (N.labels name.now)) }
    ensures fits { result ≤ 255 }
{
    let len = put_name(name, octets);
    octets.make_ascii_lowercase();
    len
}

/// The hash of a name, without a limit of iterations.
pub(crate) fn name_hash<'a, N: AbsoluteLabels<'a>>(
    name: &'a N,
    iterations: u16,
    salt: &[u8],
) -> [u8; HASH_LEN]
    ensures { result ≡ nsec3_hash salt.now iterations (N.labels name.now) }
{
    let mut octets = [0; 255];
    let len = put_canonical(name, &mut octets);
    iterated(&octets[..len], iterations, salt)
}

/// Returns the hash of a name of any kind in NSEC3 records (RFC 5155, 5): SHA-1 over its wire format in lower case and
/// the salt, and `iterations` times more over the last hash and the salt.
///
/// The number of iterations comes from a record, so whoever sends it decides on the cost. `limit` is the most that the
/// caller takes. A validator may treat a zone with more as insecure, even at a limit of 0 (RFC 9276, 3.2). Each
/// iteration hashes 20 octets and the salt, which has at most 255 octets in a record. Nothing is allocated.
///
/// # Errors
///
/// `TooManyIterations` exactly where `iterations` exceeds `limit`. Nothing is hashed then.
pub fn hash_name<'a, N: AbsoluteLabels<'a>>(
    name: &'a N,
    iterations: u16,
    salt: &[u8],
    limit: u16,
) -> Result<[u8; HASH_LEN], TooManyIterations>
    ensures ok { IfOk result
        (λ hash. hash ≡ nsec3_hash salt.now iterations (N.labels name.now)) }
    ensures err { IsErr result ↔ (limit < iterations) }
{
    if iterations > limit {
        return Err(TooManyIterations);
    }
    Ok(name_hash(name, iterations, salt))
}

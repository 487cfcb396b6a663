//! The label that has a hash, in base32hex without padding (RFC 4648, 7; RFC 5155, 3).
ghost use Rattle.std.specs.Prelude.{◌≡◌, ◌<◌, ℕ, List, [], ◌∷◌, length, map, slice_index, IfSome, IfNone};
ghost use Rattle.std.specs.List.{AllByRecursion};
ghost use Rattle.domain_field_text.specs.Base32.{base32hex_digit, base32hex_text};
ghost use Rattle.domain_nsec3.specs.Labels.{AreValues, IsDigitOf, IsHash, IsLabelOf};

use crate::hashing::HASH_LEN;
use domain_field_text::base32::group_of;

/// How many octets the label of a hash has.
pub const LABEL_LEN: usize = 32;

/// Returns the label that has a hash: the first label of the owner of its NSEC3 record (RFC 5155, 3).
///
/// It is the hash in base32hex, in lower case and without padding (RFC 4648, 7).
pub fn label_of_hash(hash: &[u8; HASH_LEN]) -> [u8; LABEL_LEN]
    ensures { result ≡ base32hex_text hash.now }
{
    let mut label = [0; LABEL_LEN];
    let mut at = 0;
    let mut rest = hash.as_slice();
    'group: while let [a, b, c, d, e, after @ ..] = rest {
        let digits = group_of(*a, *b, *c, *d, *e);
        label[at..at + 8].copy_from_slice(&digits);
        at += 8;
        rest = after;
    }
    label
}

/// The number of a digit in either case. `None` exactly where the octet is no digit.
fn value_of(octet: u8) -> Option<u8>
    ensures some { IfSome result (λ n. IsDigitOf octet n) }
    ensures none { IfNone result ((n : ℕ) → IsDigitOf octet n → ⊥) }
{
    if b'0' <= octet && octet <= b'9' {
        return Some(octet - b'0');
    }
    if b'a' <= octet && octet <= b'v' {
        return Some(octet - b'W');
    }
    if b'A' <= octet && octet <= b'V' {
        return Some(octet - b'7');
    }
    None
}

/// The numbers of digits. `None` exactly where one of the octets is no digit.
fn values_of(label: &[u8]) -> Option<[u8; LABEL_LEN]>
    requires { length label.now ≡ 32 }
    ensures some { IfSome result (λ values. AreValues label.now values) }
    ensures none { IfNone result
        ((k : ℕ) × (k < 32) × ((n : ℕ) → IsDigitOf (slice_index label.now k) n → ⊥)) }
{
    let mut values = [0; LABEL_LEN];
    for i in 0..LABEL_LEN {
        let Some(value) = value_of(label[i]) else {
            return None;
        };
        values[i] = value;
    }
    Some(values)
}

/// The five octets whose digits have these eight numbers.
fn octets_of(a: u8, b: u8, c: u8, d: u8, e: u8, f: u8, g: u8, h: u8) -> [u8; 5]
    requires { AllByRecursion (λ v. v < 32) (a ∷ b ∷ c ∷ d ∷ e ∷ f ∷ g ∷ h ∷ []) }
    ensures digits { base32hex_text result
        ≡ map base32hex_digit (a ∷ b ∷ c ∷ d ∷ e ∷ f ∷ g ∷ h ∷ []) }
    ensures five { length result ≡ 5 }
{
    [
        a * 8 + b / 4,
        b % 4 * 64 + c * 2 + d / 16,
        d % 16 * 16 + e / 2,
        e % 2 * 128 + f * 4 + g / 8,
        g % 8 * 32 + h,
    ]
}

/// Returns the hash that a label has in base32hex, in upper or lower case. The first label of the owner of an NSEC3
/// record has that record's hash (RFC 5155, 3). `None` exactly where no hash has this label: it isn't 32 digits.
pub fn hash_of_label(label: &[u8]) -> Option<[u8; HASH_LEN]>
    ensures some { IfSome result (IsLabelOf label.now) }
    ensures none { IfNone result ((hash : List ℕ) → IsHash hash → IsLabelOf label.now hash → ⊥) }
{
    if label.len() != LABEL_LEN {
        return None;
    }
    let Some(values) = values_of(label) else {
        return None;
    };
    let mut hash = [0; HASH_LEN];
    for i in 0..4 {
        let octets = octets_of(
            values[8 * i],
            values[8 * i + 1],
            values[8 * i + 2],
            values[8 * i + 3],
            values[8 * i + 4],
            values[8 * i + 5],
            values[8 * i + 6],
            values[8 * i + 7],
        );
        hash[5 * i..5 * i + 5].copy_from_slice(&octets);
    }
    Some(hash)
}

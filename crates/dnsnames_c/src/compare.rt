//! Comparing names.
ghost use Rattle.std.specs.Prelude.{◌≡◌, ◌≢◌, ◌≤◌, length, IsSome, IfSome, ◌↔◌};
ghost use Rattle.domain_label.specs.Wire.{IsAbsoluteWire};
ghost use Rattle.domain_siphash.specs.SipHash.{siphash};
ghost use Rattle.dnsnames_c.specs.Comparing.{EqualNames, name_order, EndsInName, canonical_name_octets, GivesCanonicalForm};
ghost use Rattle.dnsnames_c.specs.Status.{order_number};

use crate::put::give;
use arrayvec::ArrayVec;
use domain_list::comparing::{eq_names, order_names};
use domain_list::composing::compose_canonical_name;
use domain_name::Name;
use domain_siphash::siphash_2_4;
use std::cmp::Ordering;

/// The number of an order.
fn number_of_order(order: Ordering) -> i32
    ensures { result ≡ order_number order }
{
    match order {
        Ordering::Less => -1,
        Ordering::Equal => 0,
        Ordering::Greater => 1,
    }
}

/// Whether two names are equal without ASCII case: `equal` becomes 1 or 0. 9 where one is no name.
#[unsafe(no_mangle)]
pub extern "C" fn dnsnames_eq(left: &[u8], right: &[u8], equal: &mut u32) -> u32
    ensures named { (result ≡ 0) ↔ (IsAbsoluteWire left.now × IsAbsoluteWire right.now) }
    ensures equal { result ≡ 0 → (equal.new ≡ 1) ↔ EqualNames left.now right.now }
    ensures bit { result ≡ 0 → equal.new ≤ 1 }
    ensures err { result ≢ 0 → (result ≡ 9) × (equal.new ≡ equal.old) }
{
    let (Ok(left), Ok(right)) = (Name::from_slice(left), Name::from_slice(right)) else {
        return 9;
    };
    *equal = if eq_names(&left, &right) { 1 } else { 0 };
    0
}

/// The canonical order of two names (RFC 4034, 6.1): `answer` becomes -1, 0 or 1. 9 where one is no name.
#[unsafe(no_mangle)]
pub extern "C" fn dnsnames_compare(left: &[u8], right: &[u8], answer: &mut i32) -> u32
    ensures named { (result ≡ 0) ↔ (IsAbsoluteWire left.now × IsAbsoluteWire right.now) }
    ensures order { result ≡ 0 → answer.new ≡ order_number (name_order left.now right.now) }
    ensures err { result ≢ 0 → (result ≡ 9) × (answer.new ≡ answer.old) }
{
    let (Ok(left), Ok(right)) = (Name::from_slice(left), Name::from_slice(right)) else {
        return 9;
    };
    *answer = number_of_order(order_names(&left, &right));
    0
}

/// Whether the name ends with the labels of the other without ASCII case: `ends` becomes 1 or 0. 9 where one is no
/// name.
#[unsafe(no_mangle)]
pub extern "C" fn dnsnames_ends_with(name: &[u8], suffix: &[u8], ends: &mut u32) -> u32
    ensures named { (result ≡ 0) ↔ (IsAbsoluteWire name.now × IsAbsoluteWire suffix.now) }
    ensures ends { result ≡ 0 → (ends.new ≡ 1) ↔ EndsInName name.now suffix.now }
    ensures bit { result ≡ 0 → ends.new ≤ 1 }
    ensures err { result ≢ 0 → (result ≡ 9) × (ends.new ≡ ends.old) }
{
    let (Ok(name), Ok(suffix)) = (Name::from_slice(name), Name::from_slice(suffix)) else {
        return 9;
    };
    *ends = if name.ends_with(&suffix) { 1 } else { 0 };
    0
}

/// The canonical form of a name, A to Z as a to z (RFC 4034, 6.2). `None` where the octets are no name.
fn canonical_form(octets: &[u8]) -> Option<ArrayVec<u8, 255>>
    ensures named { IsSome result ↔ IsAbsoluteWire octets.now }
    ensures some { IfSome result (λ form. form.items ≡ canonical_name_octets octets.now) }
{
    let Ok(name) = Name::from_slice(octets) else {
        return None;
    };
    let mut form = ArrayVec::<u8, 255>::new();
    let Ok(()) = compose_canonical_name(&name, &mut form) else {
        unreachable!();
    };
    Some(form)
}

/// The hash of a name under a key: the SipHash-2-4 of its canonical form, so equal names have one hash. Strangers who
/// don't know the key can't choose names that have one hash. 9 where it is no name.
#[unsafe(no_mangle)]
pub extern "C" fn dnsnames_hash(key: &[u8; 16], name: &[u8], hash: &mut u64) -> u32
    ensures named { (result ≡ 0) ↔ IsAbsoluteWire name.now }
    ensures hash { result ≡ 0 → hash.new ≡ siphash key.now (canonical_name_octets name.now) }
    ensures err { result ≢ 0 → (result ≡ 9) × (hash.new ≡ hash.old) }
{
    let Some(form) = canonical_form(name) else {
        return 9;
    };
    *hash = siphash_2_4(key, form.as_slice());
    0
}

/// The canonical form of a name, A to Z as a to z (RFC 4034, 6.2), into the buffer; `length` becomes its size. 8
/// where it doesn't fit, 9 where it is no name.
#[unsafe(no_mangle)]
pub extern "C" fn dnsnames_lower(name: &[u8], buffer: &mut [u8], length: &mut usize) -> u32
    ensures { GivesCanonicalForm name.now result buffer.old buffer.new length.old length.new }
{
    let Some(form) = canonical_form(name) else {
        return 9;
    };
    give(form.as_slice(), buffer, length)
}
